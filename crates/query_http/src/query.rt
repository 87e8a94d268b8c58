ghost use Rattle.std.specs.Prelude.{◌≡◌, IfOk};
ghost use Rattle.query_http.specs.ReadResults.{IsAsRead, AsksTarget};
ghost use Rattle.query_http.specs.QueryStrings.{pairs_of};
ghost use Rattle.query_http.specs.Paths.{endpoint_rows};
ghost use Rattle.query_http.specs.Queries.{time_at, length_at, limit_at, required_parameter, text_parameter, find_at, text_part, raw_at};
ghost use Rattle.query_http.specs.Queries.{operations_at, links_at, query_at};
ghost use Rattle.query_http.specs.Queries.{path_of, query_string_of};
ghost use Rattle.query_http.specs.declared.paths.Endpoint.TheVariants as at;

use crate::fault::{Parameter, QueryFault};
use crate::number::{read_duration, read_number};
use crate::paths::{Endpoint, find_endpoint};
use crate::query_string::{Pair, find_parameter, query_pairs, split_query};
use crate::tags::requested_tags;
use jaeger_model::{Text, parse_trace};
use matchit::Router;
use percent_encoding::{DecodeError, percent_decode};
use std::alloc::{AllocError, Global};
use trace_model::{Find, Query};

/// How many traces a search returns at most if its query has no limit.
const DEFAULT_LIMIT: i64 = 100;

/// How many milliseconds before its end a window of dependencies starts if its query doesn't say so: a day.
const DEFAULT_LOOKBACK_MS: i64 = 86_400_000;

/// Parses an optional number. A bound on starts is in microseconds.
#[tactic(auto, unfolding(crate::specs::Queries::time_at))]
fn optional_number(pairs: &[Pair], parameter: Parameter) -> Result<Option<i64>, QueryFault>
    ensures { IsAsRead (λ n. n) result (time_at parameter pairs.now) }
{
    let Some(text) = find_parameter(pairs, parameter.name()) else {
        return Ok(None);
    };
    let number = read_number(text).ok_or(QueryFault::Bad(parameter))?;
    Ok(Some(number))
}

/// Parses an optional duration into microseconds; 0 if it is absent.
#[tactic(auto, unfolding(crate::specs::Queries::length_at))]
fn optional_duration(pairs: &[Pair], parameter: Parameter) -> Result<i64, QueryFault>
    ensures { IsAsRead (λ n. n) result (length_at parameter pairs.now) }
{
    match find_parameter(pairs, parameter.name()) {
        Some(text) => read_duration(text).ok_or(QueryFault::Bad(parameter)),
        None => Ok(0),
    }
}

/// Parses the limit on the number of traces that a search returns.
#[tactic(auto, unfolding(crate::specs::Queries::limit_at, crate::specs::Queries::time_at))]
fn search_limit(pairs: &[Pair]) -> Result<u64, QueryFault>
    ensures { IsAsRead (λ n. n) result (limit_at pairs.now) }
{
    let limit = optional_number(pairs, Parameter::Limit)?;
    // A number has no sign, so it isn't negative.
    Ok(limit.unwrap_or(DEFAULT_LIMIT).unsigned_abs())
}

/// Returns the value of a required parameter.
#[tactic(auto, unfolding(crate::specs::Queries::required_parameter))]
fn required_value(pairs: &[Pair], parameter: Parameter) -> Result<&str, QueryFault>
    ensures { IsAsRead (λ t. t.now) result (required_parameter parameter pairs.now) }
{
    find_parameter(pairs, parameter.name()).ok_or(QueryFault::Bad(parameter))
}

/// Returns a parameter of any text; empty if it is absent.
fn optional_text(alloc: Global, pairs: &[Pair], name: &str) -> Result<Text, AllocError>
    ensures { IfOk result (λ t. t ≡ text_parameter name.now pairs.now) }
{
    Text::from_str(alloc, find_parameter(pairs, name).unwrap_or(""))
}

/// Parses a search. The error names the first invalid parameter, in the order in which they are read here.
#[tactic(auto, unfolding(crate::specs::Queries::find_at))]
fn read_find(alloc: Global, pairs: &[Pair]) -> Result<Find, QueryFault>
    ensures { IsAsRead (λ f. f) result (find_at pairs.now) }
{
    let service = required_value(pairs, Parameter::Service)?;
    let start_min = optional_number(pairs, Parameter::Start)?;
    let start_max = optional_number(pairs, Parameter::End)?;
    let limit = search_limit(pairs)?;
    let duration_min = optional_duration(pairs, Parameter::MinDuration)?;
    let duration_max = optional_duration(pairs, Parameter::MaxDuration)?;
    let tags = requested_tags(alloc, pairs)?;
    // The texts are copied last: an invalid query copies none.
    let service = Text::from_str(alloc, service)?;
    let operation = optional_text(alloc, pairs, "operation")?;
    Ok(Find {
        service,
        operation,
        tags,
        start_min,
        start_max,
        duration_min,
        duration_max,
        limit,
    })
}

/// Decodes a part of a path.
#[tactic(auto, unfolding(crate::specs::Queries::text_part))]
fn service_part(alloc: Global, part: &str) -> Result<Text, QueryFault>
    ensures { IsAsRead (λ t. t) result (text_part part.now) }
{
    match percent_decode(part.as_bytes()).decode_utf8(alloc) {
        Ok(text) => Ok(Text::from_string(text.into_owned(alloc)?)),
        Err(DecodeError::OutOfMemory) => Err(QueryFault::NoMemory),
        Err(DecodeError::Utf8(_)) => Err(QueryFault::Bad(Parameter::Service)),
    }
}

/// Returns whether the parameter asks for the spans as they arrived.
fn is_raw(pairs: &[Pair]) -> bool
    ensures { result ≡ raw_at pairs.now }
{
    matches!(
        find_parameter(pairs, "raw").unwrap_or(""),
        "1" | "t" | "T" | "true" | "True" | "TRUE"
    )
}

/// Parses the query of the endpoint of one trace.
fn read_trace_query(pairs: &[Pair], part: &str) -> Result<Query, QueryFault>
    ensures { IsAsRead (λ q. q) result (query_at at.Trace part.now pairs.now) }
{
    let Some(id) = parse_trace(part) else {
        return Err(QueryFault::Bad(Parameter::TraceId));
    };
    Ok(Query::Trace {
        id,
        raw: is_raw(pairs),
    })
}

/// Parses the query of the endpoint of operations with their kinds.
#[tactic(auto, unfolding(crate::specs::Queries::operations_at))]
fn read_operations(alloc: Global, pairs: &[Pair]) -> Result<Query, QueryFault>
    ensures { IsAsRead (λ q. q) result (operations_at pairs.now) }
{
    let service = required_value(pairs, Parameter::Service)?;
    let service = Text::from_str(alloc, service)?;
    let kind = optional_text(alloc, pairs, "spanKind")?;
    Ok(Query::Operations { service, kind })
}

/// Parses the query of the endpoint of dependencies.
#[tactic(auto, unfolding(crate::specs::Queries::links_at))]
fn read_links(pairs: &[Pair]) -> Result<Query, QueryFault>
    ensures { IsAsRead (λ q. q) result (links_at pairs.now) }
{
    let Some(end_ms) = optional_number(pairs, Parameter::EndTs)? else {
        return Err(QueryFault::Bad(Parameter::EndTs));
    };
    let lookback_ms = optional_number(pairs, Parameter::Lookback)?.unwrap_or(DEFAULT_LOOKBACK_MS);
    Ok(Query::Links {
        end_ms,
        lookback_ms,
    })
}

/// Parses the query of a GET, from the endpoint, the part of its path and the query string.
///
/// # Errors
///
/// [`QueryFault::Bad`] with the first invalid parameter, in the order of the endpoint's table, or out
/// of memory.
pub fn read_query(
    alloc: Global,
    endpoint: Endpoint,
    part: &str,
    query_string: &str,
) -> Result<Query, QueryFault>
    ensures { IsAsRead (λ q. q) result (query_at endpoint part.now (pairs_of query_string.now)) }
{
    let pairs = query_pairs(alloc, query_string.as_bytes())?;
    match endpoint {
        Endpoint::Traces => Ok(Query::Find(read_find(alloc, &pairs)?)),
        Endpoint::Trace => read_trace_query(&pairs, part),
        Endpoint::Services => Ok(Query::Services),
        Endpoint::OperationNames => Ok(Query::OperationNames {
            service: service_part(alloc, part)?,
        }),
        Endpoint::Operations => read_operations(alloc, &pairs),
        Endpoint::Dependencies => read_links(&pairs),
    }
}

/// Splits a target into its path and its query string, at its first `?`.
pub fn split_target(target: &str) -> (&str, &str)
    ensures path { result.0.now ≡ path_of target.now }
    ensures query_string { result.1.now ≡ query_string_of target.now }
{
    split_query(target).unwrap_or((target, ""))
}

/// Parses the query of a GET of a target.
///
/// # Errors
///
/// [`QueryFault::NoPath`] if no endpoint has the path; [`QueryFault::Bad`] with the first invalid
/// parameter, in the order of the endpoint's table; or out of memory.
pub fn parse_query(
    alloc: Global,
    router: &Router<Endpoint>,
    target: &str,
) -> Result<Query, QueryFault>
    requires { router.now ≡ endpoint_rows }
    ensures { AsksTarget result target.now }
{
    let (path, query_string) = split_target(target);
    let Some((endpoint, part)) = find_endpoint(router, path) else {
        return Err(QueryFault::NoPath);
    };
    read_query(alloc, endpoint, part, query_string)
}
