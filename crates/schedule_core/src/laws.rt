//! Facts about runs of the machine. Each function does nothing, and its contract is the fact.

ghost use Rattle.std.specs.Prelude.{◌≡◌, ℕ, List, [], ◌++◌, length, drop, None, Some, false, slice_get};
ghost use Rattle.std.specs.List.{All};
ghost use mathlib.Core.List.{IsPrefix};
ghost use Rattle.trace_model.specs.declared.limits.Limits.{Limits as LimitsValue};
ghost use Rattle.trace_model.specs.declared.query.Query.{Query as QueryValue};
ghost use Rattle.trace_model.specs.Histories.{IsLegal, RisesAfter};
ghost use Rattle.schedule_core.specs.declared.step.Step.{Step as StepValue};
ghost use Rattle.schedule_core.specs.declared.step.Step.TheVariants.{Read as ReadValue};
ghost use Rattle.schedule_core.specs.Machine.{new_machine, outcomes, at_last, accepted, step, Reader as ReaderValue, Visit};
ghost use Rattle.schedule_core.specs.Runs.{along, AllAlong, IsOf, NeverFalls, front_for, is_of, job_of, kept, verdict_of};
ghost use Rattle.schedule_core.specs.RunFacts.{IsRun, IsSteady};

/// The history only grows at its end.
pub fn the_history_only_grows()
    ensures { (limits : LimitsValue) (steps more : List StepValue) →
        IsPrefix (at_last (new_machine limits) steps).history
        (at_last (new_machine limits) (steps ++ more)).history }
{}

/// Each answer is the plain store's for a prefix of the last history, with the number of entries that it reports.
pub fn each_answer_is_of_the_last_history()
    ensures { (limits : LimitsValue) (steps : List StepValue) →
        AllAlong (IsOf limits (at_last (new_machine limits) steps).history) steps
        (outcomes (new_machine limits) steps) }
{}

/// The fronts that are reported to one reader never decrease: those of what it enters, of its answers and of what
/// it learns.
pub fn fronts_of_a_reader_never_fall()
    ensures { (limits : LimitsValue) (steps : List StepValue) (reader : ℕ) →
        NeverFalls (along (front_for reader) steps (outcomes (new_machine limits) steps)) }
{}

/// A reader inside gets the same answers, whatever others do meanwhile.
pub fn a_reader_stays_where_it_entered()
    ensures { (limits : LimitsValue) (steps : List StepValue) → IsSteady limits steps }
{}

/// The accepted jobs, published or not, are the jobs taken that were neither refused nor sent before, in the order
/// in which they were submitted, each once.
pub fn taken_jobs_are_accepted()
    ensures { (limits : LimitsValue) (steps : List StepValue) →
        accepted (at_last (new_machine limits) steps) ≡
        kept (along job_of steps (outcomes (new_machine limits) steps))
        (along verdict_of steps (outcomes (new_machine limits) steps)) }
{}

/// The jobs that wait are those that were submitted after the last one taken.
pub fn other_jobs_wait()
    ensures { (limits : LimitsValue) (steps : List StepValue) →
        (at_last (new_machine limits) steps).waiting ≡
        drop (length (along verdict_of steps (outcomes (new_machine limits) steps)))
        (along job_of steps (outcomes (new_machine limits) steps)) }
{}

/// The numbers of each seat's jobs are in ascending order.
pub fn jobs_are_numbered()
    ensures { (limits : LimitsValue) (steps : List StepValue) →
        RisesAfter [] (along job_of steps (outcomes (new_machine limits) steps)) }
{}

/// The accepted jobs are legal: no entry is there twice, and no limit is passed.
pub fn accepted_jobs_are_legal()
    ensures { (limits : LimitsValue) (steps : List StepValue) →
        IsLegal limits (accepted (at_last (new_machine limits) steps)) }
{}

/// All of these facts for one list of steps, and two more: an accepted job is reported by its own seat and number,
/// and the jobs of each seat have the numbers 1, 2 and so on.
pub fn every_run_keeps_the_promises()
    ensures { (limits : LimitsValue) (steps : List StepValue) → IsRun limits steps }
{}
