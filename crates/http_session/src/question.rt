ghost use Rattle.std.specs.Prelude.{◌≡◌, IfOk, OnErr, slice_range};
ghost use Rattle.http_requests.specs.Requests.{IsHeadOf};
ghost use Rattle.query_http.specs.Paths.{endpoint_rows};
ghost use Rattle.query_http.specs.QueryStrings.{pairs_of};
ghost use Rattle.query_http.specs.Queries.{query_at};
ghost use Rattle.http_session.specs.Verdicts.{JudgesQuery, AsksQuery, asked_of, takes_post};
ghost use Rattle.http_session.specs.Questions.{AsksQuestion};

use crate::verdict::{ErrorReply, Verdict};
use http_requests::{Method, Request};
use matchit::Router;
use query_http::{Endpoint, QueryFault, find_endpoint, read_query, split_target};
use std::alloc::{AllocError, Global};

/// The question that the head of a request asks.
#[derive(Debug, Drop)]
pub(crate) enum Question {
    /// The verdict, whatever the body is.
    Settled(Verdict),
    /// A batch is submitted, and the body is its text.
    Batch,
}

/// Returns whether an endpoint takes POST. Each takes GET.
pub(crate) fn takes_post(endpoint: Endpoint) -> bool
    ensures { result ≡ takes_post endpoint }
{
    match endpoint {
        Endpoint::Traces => true,
        Endpoint::Trace
        | Endpoint::Services
        | Endpoint::OperationNames
        | Endpoint::Operations
        | Endpoint::Dependencies => false,
    }
}

/// Returns the verdict on a GET of an endpoint.
///
/// # Errors
///
/// Out of memory, and nothing else.
fn judge_query(
    alloc: Global,
    endpoint: Endpoint,
    part: &str,
    query_string: &str,
) -> Result<Verdict, AllocError>
    ensures { IfOk result (JudgesQuery (query_at endpoint part.now (pairs_of query_string.now))) }
{
    match read_query(alloc, endpoint, part, query_string) {
        Ok(query) => Ok(Verdict::Ask(query)),
        Err(QueryFault::Bad(parameter)) => Ok(Verdict::Reject(ErrorReply::BadParameter(parameter))),
        Err(QueryFault::NoMemory) => Err(AllocError),
        Err(QueryFault::NoPath) => unreachable!(),
    }
}

/// Returns the target of the request with this head.
fn target_of<'b>(head: &'b [u8], request: &Request) -> &'b str
    requires { IsHeadOf head.now request.now }
    ensures { result.now ≡ slice_range head.now request.now.target.start request.now.target.end }
{
    match str::from_utf8(request.target.of(head)) {
        Ok(target) => target,
        Err(_) => unreachable!(),
    }
}

/// Returns the question that the head of a request asks, by its path, its method, and its parameters or the type of its
/// body.
///
/// # Errors
///
/// Out of memory, for a query.
pub(crate) fn question_of(
    alloc: Global,
    router: &Router<Endpoint>,
    head: &[u8],
    request: &Request,
) -> Result<Question, AllocError>
    requires routes { router.now ≡ endpoint_rows }
    requires whole { IsHeadOf head.now request.now }
    ensures asks { IfOk result (AsksQuestion (asked_of head.now request.now)) }
    ensures memory { OnErr result (AsksQuery (asked_of head.now request.now)) }
{
    let (path, query_string) = split_target(target_of(head, request));
    let Some((endpoint, part)) = find_endpoint(router, path) else {
        return Ok(Question::Settled(Verdict::Reject(ErrorReply::NoSuchPath)));
    };
    match request.method {
        // For the prover: the match takes the clause of `judge_query` apart, one case for each outcome.
        Method::Get => match judge_query(alloc, endpoint, part, query_string) {
            Ok(verdict) => Ok(Question::Settled(verdict)),
            Err(_) => Err(AllocError),
        },
        Method::Post if takes_post(endpoint) => {
            if request.has_batch_type {
                Ok(Question::Batch)
            } else {
                Ok(Question::Settled(Verdict::Reject(ErrorReply::UnsupportedMediaType)))
            }
        }
        Method::Post | Method::Other => {
            Ok(Question::Settled(Verdict::Reject(ErrorReply::MethodNotAllowed(endpoint))))
        }
    }
}
