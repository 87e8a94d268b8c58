//! The memory for an answer, as a tree and in parts, for an error and for a response.

use jaeger_model::{Seq, Span, Text};
use query_http::{Status, respond};
use query_json::{AnswerParts, answer_json, error_json};
use std::alloc::{AllocError, Global};
use std::mem::drop;
use std::test::*;
use trace_model::{Answer, AnsweredTrace, Shown, ShownTrace};
use trace_samples::{beside, kept, list_of, placed, retry};

/// The span of the sample batch with this number and this operation: trace 1, from 1000 for 50 microseconds.
fn span(alloc: Global, id: u64, operation: &str) -> Result<Span, AllocError> {
    let operation = Text::from_str(alloc, operation)?;
    let mut span = trace_samples::span(alloc, 1, id)?;
    span.operation = operation;
    Ok(span)
}

/// The span as service `a` reported it, without warnings.
fn shown(alloc: Global, span: Span) -> Result<Shown, AllocError> {
    let placed = placed(alloc, "a", span)?;
    let warnings = Seq::new(alloc);
    Ok(Shown { placed, warnings })
}

/// The answer of a trace with these spans.
fn found(alloc: Global, spans: Seq<Shown>) -> Result<Answer, AllocError> {
    let shown = ShownTrace::without_keys(alloc, spans);
    Ok(Answer::Trace(Some(AnsweredTrace::copied(alloc, shown)?)))
}

/// The answer of the sample's trace.
fn sample(alloc: Global) -> Result<Answer, AllocError> {
    let span = shown(alloc, span(alloc, 2, "op")?)?;
    found(alloc, list_of(alloc, span)?)
}

/// The text of the sample's trace.
const SAMPLE_TEXT: &str =
    "{\"data\":[{\"processes\":{\"p1\":{\"serviceName\":\"a\",\"tags\":[]}},\"spans\":[{\"duration\":50,\
    \"flags\":1,\"logs\":[],\"operationName\":\"op\",\"processID\":\"p1\",\"references\":[],\
    \"spanID\":\"0000000000000002\",\"startTime\":1000,\"tags\":[],\"traceID\":\"0000000000000001\",\
    \"warnings\":null}],\"traceID\":\"0000000000000001\",\"warnings\":null}],\"errors\":null,\
    \"limit\":0,\"offset\":0,\"total\":1}";

/// The text of an error.
const ERROR_TEXT: &str =
    r#"{"data":null,"errors":[{"code":404,"msg":"trace not found"}],"limit":0,"offset":0,"total":0}"#;

/// Returns the text of an error's tree.
fn error_text(alloc: Global) -> Result<String, AllocError> {
    let tree = retry(AllocError, || error_json(alloc, 404, "trace not found"))?;
    let text = tree.to_string(alloc);
    drop(tree);
    text
}

/// Returns the text of the answer's tree.
fn tree_text(alloc: Global, answer: &Answer) -> Result<String, AllocError> {
    let tree = retry(AllocError, || answer_json(alloc, answer))?;
    let text = tree.to_string(alloc);
    drop(tree);
    text
}

/// Returns the text of the tree of the sample's answer.
fn sample_text(alloc: Global) -> Result<String, AllocError> {
    let answer = sample(alloc)?;
    let text = tree_text(alloc, &answer);
    drop(answer);
    text
}

/// If memory runs out once, the call reports it, and the same call afterwards returns the tree. The check of
/// allocations fails each allocation in turn.
#[test]
fn memory_for_a_tree(rt: HostRuntime) -> Result<(), Fail> {
    let alloc = rt.alloc();
    let text = error_text(alloc)?;
    assert!(rt; text.as_str() == ERROR_TEXT);
    let Ok(text) = retry(AllocError, || sample_text(alloc)) else {
        panic!(rt; "no tree");
    };
    assert!(rt; text.as_str() == SAMPLE_TEXT);
    Ok(())
}

/// The length of an operation that fills a part.
const VERY_MANY: usize = 600_000;

/// The two spans, shown, with an operation that fills a part.
fn large_spans(alloc: Global) -> Result<Seq<Shown>, AllocError> {
    let operation = "n".repeat(alloc, VERY_MANY)?;
    let first = shown(alloc, span(alloc, 2, operation.as_str())?)?;
    let (first, second) = beside(first, span(alloc, 3, operation.as_str()))?;
    let (first, second) = beside(first, shown(alloc, second))?;
    let spans = list_of(alloc, first);
    let (second, mut spans) = beside(second, spans)?;
    let added = spans.push(second);
    kept(spans, added)
}

/// The answer of a trace with two large spans.
fn large_trace(alloc: Global) -> Result<Answer, AllocError> {
    found(alloc, large_spans(alloc)?)
}

/// The text of its tree.
fn large_text(alloc: Global) -> Result<String, AllocError> {
    let answer = large_trace(alloc)?;
    let text = tree_text(alloc, &answer);
    drop(answer);
    text
}

/// Returns whether the parts of a trace of two large spans are as long as its text and, if they are taken, make it up.
fn are_made(alloc: Global, taken: bool) -> Result<bool, AllocError> {
    let text = large_text(alloc)?;
    let mut parts = retry(AllocError, || AnswerParts::new(alloc, large_trace(alloc)?))?;
    let mut same = parts.remaining() == text.len();
    let mut left = text.as_bytes();
    for _ in 0..3u8 {
        if taken {
            same = same && left.starts_with(parts.part());
            left = left.get(parts.part().len()..).unwrap_or(&[]);
            parts.advance();
        }
    }
    drop(parts);
    Ok(same && left.is_empty() == taken)
}

#[test]
fn parts_are_made(rt: HostRuntime) -> Result<(), Fail> {
    assert!(rt; are_made(rt.alloc(), false)?);
    Ok(())
}

/// Taking the parts doesn't allocate: the check of allocations counts both.
#[test]
fn memory_for_parts(rt: HostRuntime) -> Result<(), Fail> {
    assert!(rt; are_made(rt.alloc(), true)?);
    Ok(())
}

/// The response to a request whose answer is an empty object, and that is the last one.
const LAST_RESPONSE: &[u8] =
    b"HTTP/1.1 200 OK\r\nContent-Type: application/json\r\nContent-Length: 2\r\nConnection: close\r\n\r\n{}";

/// If memory runs out once, the call reports it, and the same call afterwards returns the response. The check of
/// allocations fails each allocation in turn.
#[test]
fn memory_for_a_response(rt: HostRuntime) -> Result<(), Fail> {
    let alloc = rt.alloc();
    let Ok(bytes) = retry(AllocError, || respond(alloc, Status::Ok, b"{}", "", true)) else {
        panic!(rt; "no response");
    };
    assert!(rt; bytes.as_slice() == LAST_RESPONSE);
    Ok(())
}
