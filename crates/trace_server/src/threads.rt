//! Work in several threads.

ghost use Rattle.std.specs.List.{AllZip};
ghost use Rattle.std.specs.Prelude.{IfOk, IfSome};

use std::alloc::AllocError;
use std::sync::Wait;
use std::thread::{Promise, Threads, map_vec, scope, scope_env};

/// What a thread does with its argument. It may block if the handle `R` may. For the prover it isn't a closure: `gives` says
/// what each task gives.
pub(crate) trait Task<R, P, X> {
    /// Relates an argument and its result.
    ghost gives: { P → X → Type 0 };

    /// Runs the task.
    fn run(&self, rt: &R, argument: P) -> X
        ensures { gives argument result };
}

/// Runs the task for each argument in a thread of its own, if one can be created, and returns the results in order.
pub(crate) fn run_each<P: Send + Drop, X: Send + Drop, R: Threads + Sync, T: Task<R, P, X> + Sync>(
    rt: &R,
    task: &T,
    arguments: Vec<P>,
) -> Result<Vec<X>, AllocError>
    ensures { IfOk result (λ v. AllZip T.gives arguments.items v.items) }
{
    map_vec(rt, arguments, &|argument| task.run(rt, argument))
}

/// Work beside another thread. It may block if the handle `R` may. For the prover it isn't a closure: `ready` and `gives` say
/// what each work needs and gives.
pub(crate) trait OwnWork<R, Y> {
    /// The work may be done.
    ghost ready: { Self → Type 0 };

    /// Relates the work and its result.
    ghost gives: { Self → Y → Type 0 };

    /// Does the work. `has_other` says whether the other thread was created.
    fn run(self, rt: &R, has_other: bool) -> Y
        requires { ready self }
        ensures { gives self result };
}

/// Runs `theirs` in a thread of its own and `ours` in this one, and returns both results. If that thread can't be
/// created, `theirs` isn't run.
pub(crate) fn beside<
    X: Send + Drop,
    Y,
    R: Threads + Wait,
    P: Promise<X> + Drop,
    T: FnOnce() -> X + Send,
    F: OwnWork<R, Y> + Drop,
>(rt: &R, promise: P, theirs: T, ours: F) -> (Y, Option<X>)
    requires theirs { T.pre theirs }
    requires keeps { (given : X) → T.post theirs given → P.kept_by promise given }
    requires ours { F.ready ours }
    ensures ours { F.gives ours result.0 }
    ensures theirs { IfSome result.1 (P.kept_by promise) }
{
    scope(
        scope_env(),
        rt,
        |scope| -> (Y, Option<X>)
            requires theirs { T.pre theirs }
            requires keeps { (given : X) → T.post theirs given → P.kept_by promise given }
            requires ours { F.ready ours }
            ensures ours { F.gives ours result.0 }
            ensures theirs { IfSome result.1 (P.kept_by promise) }
        {
            match scope.spawn_with(promise, theirs) {
                Ok(thread) => {
                    let given = ours.run(rt, true);
                    (given, Some(thread.join(rt)))
                }
                Err(_) => (ours.run(rt, false), None),
            }
        },
    )
}
