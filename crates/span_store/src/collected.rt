//! What the answer to a query needs, collected from a store that is then left.
ghost use Rattle.std.specs.Prelude.{◌≡◌, IfOk, IfErr, filter};
ghost use Rattle.jaeger_model.specs.Texts.{sorted_set};
ghost use Rattle.trace_model.specs.Names.{operation_cmp, is_asked_kind};
ghost use Rattle.trace_model.specs.declared.answer.Answer.TheVariants as say;
ghost use Rattle.trace_model.specs.declared.refusal.Refusal.TheVariants.{NoMemory};
ghost use Rattle.span_store.specs.declared.collected.Form.TheVariants as collected;
ghost use Rattle.span_store.specs.CollectedAnswers.{form_answer};

use crate::collected_search::CollectedSearch;
use crate::found_traces::FoundTraces;
use crate::window_links::WindowLinks;
use jaeger_model::{Seq, Text};
use service_index::{sorted_names, sorted_operation_names, sorted_operations};
use std::alloc::{AllocError, Global};
use std::marker::Model;
use trace_model::{Answer, Name, Operation, Refusal, with_kind};

/// What was collected, by the kind of query.
#[derive(Drop)]
pub(crate) enum Form<'q> {
    /// The answer itself, which needed only the store's numbers.
    Ready(Answer),
    /// The services, in no particular order. The names refer to their entries.
    Services(Vec<Name>),
    /// The operations of a service, in no particular order, for a query of their names. The names refer to their
    /// entries.
    OperationNames(Vec<Operation>),
    /// The operations of a service, in no particular order, for a query of this kind. The names refer to their
    /// entries.
    Operations(Vec<Operation>, &'q Text),
    /// A search, and the traces that it has to judge.
    Search(CollectedSearch<'q>),
    /// The traces that a search found.
    Found(FoundTraces),
    /// The traces of a window, for a query of their links.
    Links(WindowLinks),
}

/// What a store has to provide to answer a query: numbers, and shared entries. The slow work is done after the
/// store is left; no text is copied before. Contracts see the answer.
#[derive(Drop)]
pub struct Collected<'q> {
    alloc: Global,
    form: Form<'q>,
}

impl<'q> Model for Collected<'q> {
    ghost use Rattle.trace_model.specs.declared.answer.Answer.{Answer};
    ghost use Rattle.span_store.specs.CollectedAnswers.{form_answer};

    ghost Value = { Answer };

    ghost view = { λ c. form_answer c.form };
}

/// Sorts the services for an answer.
fn answer_services(services: Vec<Name>) -> Answer
    ensures { result ≡ form_answer (collected.Services services) }
{
    Answer::Names(Seq::from_vec(sorted_names(services)))
}

/// Sorts the names of the operations for an answer.
fn answer_names(alloc: Global, operations: Vec<Operation>) -> Result<Answer, AllocError>
    ensures { IfOk result (λ a. a ≡ form_answer (collected.OperationNames operations)) }
{
    let names = sorted_operation_names(alloc, operations)?;
    Ok(Answer::Names(Seq::from_vec(names)))
}

/// Sorts the operations of the requested kind for an answer.
fn answer_operations(operations: Vec<Operation>, kind: &Text) -> Answer
    ensures { result ≡ say.Operations
        (filter (is_asked_kind kind.now) (sorted_set operation_cmp operations.items)) }
{
    let known = sorted_operations(operations);
    Answer::Operations(Seq::from_vec(with_kind(known, kind)))
}

impl<'q> Collected<'q> {
    pub(crate) fn new(alloc: Global, form: Form<'q>) -> Collected<'q>
        ensures { result ≡ form_answer form.entry }
    {
        Collected { alloc, form }
    }

    /// Computes the answer.
    ///
    /// # Errors
    ///
    /// Out of memory, and nothing else.
    pub fn answer(self) -> Result<Answer, Refusal>
        ensures answer { IfOk result (λ a. a ≡ self.entry) }
        ensures reason { IfErr result (λ why. why ≡ NoMemory) }
    {
        let Collected { alloc, form } = self;
        match form {
            Form::Ready(answer) => Ok(answer),
            Form::Services(services) => Ok(answer_services(services)),
            Form::OperationNames(operations) => Ok(answer_names(alloc, operations)?),
            Form::Operations(operations, kind) => Ok(answer_operations(operations, kind)),
            Form::Search(search) => Ok(search.answer(alloc)?),
            Form::Found(traces) => Ok(traces.answer(alloc)?),
            Form::Links(links) => Ok(links.answer(alloc)?),
        }
    }
}
