//! The query of a target.
ghost use Rattle.std.specs.Prelude.{◌≡◌};
ghost use Rattle.query_http.specs.Paths.{endpoint_rows};
ghost use Rattle.step_lines.specs.Targets.{query_in};
ghost use Rattle.step_lines.specs.Steps.{target_in};
ghost use Rattle.step_lines.specs.ReadResults.{ReadsStep};

use crate::fault::StepFault;
use crate::stop::Stop;
use matchit::Router;
use query_http::{Endpoint, QueryFault, parse_query};
use std::alloc::Global;
use trace_model::Query;

/// Returns the text of a target. It must not be empty; bytes that are no UTF-8 are a bad step.
pub(crate) fn read_target(word: &[u8]) -> Result<&str, Stop>
    ensures { ReadsStep (λ t. t.now) result (target_in word.now) }
{
    if word.is_empty() {
        return Err(Stop::Fault(StepFault::BadStep));
    }
    match str::from_utf8(word) {
        Ok(target) => Ok(target),
        Err(_) => Err(Stop::Fault(StepFault::BadStep)),
    }
}

/// Returns the query of a GET of a target.
pub(crate) fn read_query(
    alloc: Global,
    router: &Router<Endpoint>,
    target: &str,
) -> Result<Query, Stop>
    requires { router.now ≡ endpoint_rows }
    ensures { ReadsStep (λ q. q) result (query_in target.now) }
{
    match parse_query(alloc, router, target) {
        Ok(query) => Ok(query),
        Err(QueryFault::NoPath) => Err(Stop::Fault(StepFault::NoSuchPath)),
        Err(QueryFault::Bad(parameter)) => Err(Stop::Fault(StepFault::BadParameter(parameter))),
        Err(QueryFault::NoMemory) => Err(Stop::Memory),
    }
}
