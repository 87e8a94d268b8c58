ghost use Rattle.std.specs.Prelude.{◌≡◌, ◌∷◌, [], IfOk, None};
ghost use Rattle.std.specs.Arc.{arc_value};
ghost use Rattle.std.specs.Result.{result_map_both};
ghost use Rattle.trace_samples.specs.Samples.{text_tag, plain_process, host_process, root_span, service_find};

use jaeger_model::{
    Batch, Placed, Process, Seq, SharedProcess, Span, SpanId, Tag, TagValue, Text, TraceId, Value,
};
use std::alloc::{AllocError, Global};
use std::sync::Arc;
use trace_model::{Entry, Find, Work};

/// Makes a list of one item.
///
/// # Errors
///
/// Out of memory, and nothing else.
pub fn list_of<T: Drop>(alloc: Global, item: T) -> Result<Seq<T>, AllocError>
    ensures { IfOk result (λ items. items ≡ item ∷ []) }
{
    let mut items = Vec::new(alloc);
    items.push(item)?;
    Ok(Seq::from_vec(items))
}

/// Makes a tag whose value is a text.
///
/// # Errors
///
/// Out of memory, and nothing else.
pub fn text_tag(alloc: Global, key: &str, text: &str) -> Result<Tag, AllocError>
    ensures { IfOk result (λ tag. tag ≡ text_tag key.now text.now) }
{
    Ok(Tag {
        key: Text::from_str(alloc, key)?,
        value: TagValue::new(Value::Text(Text::from_str(alloc, text)?)),
    })
}

/// Makes the process of a service without tags.
///
/// # Errors
///
/// Out of memory, and nothing else.
pub fn process(alloc: Global, service: &str) -> Result<Process, AllocError>
    ensures { IfOk result (λ process. process ≡ plain_process service.now) }
{
    let service = Text::from_str(alloc, service)?;
    let tags = Seq::new(alloc);
    Ok(Process { service, tags })
}

/// Makes the process of a service with one tag, `ip`, the host that it runs on.
///
/// # Errors
///
/// Out of memory, and nothing else.
pub fn host_process(alloc: Global, service: &str, host: &str) -> Result<Process, AllocError>
    ensures { IfOk result (λ process. process ≡ host_process service.now host.now) }
{
    Ok(Process {
        service: Text::from_str(alloc, service)?,
        tags: list_of(alloc, text_tag(alloc, "ip", host)?)?,
    })
}

/// Makes a span without parent: operation `op`, from 1000 for 50 microseconds, with flags 1 and no reference, tag
/// or log. `trace` is the low half of its trace's id, whose high half is 0.
///
/// # Errors
///
/// Out of memory, and nothing else.
pub fn span(alloc: Global, trace: u64, id: u64) -> Result<Span, AllocError>
    ensures { IfOk result (λ span. span ≡ root_span trace id) }
{
    Ok(Span {
        trace: TraceId {
            high: 0,
            low: trace,
        },
        id: SpanId(id),
        parent: SpanId(0),
        operation: Text::from_str(alloc, "op")?,
        references: Seq::new(alloc),
        flags: 1,
        start: 1000,
        duration: 50,
        tags: Seq::new(alloc),
        logs: Seq::new(alloc),
    })
}

/// Returns the span as a service without tags reported it.
///
/// # Errors
///
/// Out of memory, and nothing else.
pub fn placed(alloc: Global, service: &str, span: Span) -> Result<Placed, AllocError>
    ensures { IfOk result (λ placed.
        placed ≡ record { process = plain_process service.now; span = span }) }
{
    let process = SharedProcess::new(alloc, process(alloc, service)?)?;
    Ok(Placed { process, span })
}

/// Makes a batch of the spans by a service without tags, with no `seqNo`.
///
/// # Errors
///
/// Out of memory, and nothing else.
pub fn batch(alloc: Global, service: &str, spans: Vec<Span>) -> Result<Batch, AllocError>
    ensures process { IfOk result (λ batch. batch.process ≡ plain_process service.now) }
    ensures spans { IfOk result (λ batch. batch.spans ≡ spans.items) }
    ensures unnumbered { IfOk result (λ batch. batch.seq_no ≡ None) }
{
    Ok(Batch {
        process: SharedProcess::new(alloc, process(alloc, service)?)?,
        spans: Seq::from_vec(spans),
        seq_no: None,
    })
}

/// Makes the entry that a seat submitted with a number.
///
/// # Errors
///
/// Out of memory, and nothing else.
pub fn submitted(
    alloc: Global,
    seat: u16,
    number: u64,
    work: Work,
) -> Result<Arc<Entry>, AllocError>
    ensures { IfOk result (λ entry.
        arc_value entry ≡ record { seat = seat; number = number; work = work }) }
{
    Ok(Arc::new(alloc, Entry { seat, number, work })?)
}

/// Returns the value if what was done with it succeeded.
pub fn kept<T: Drop, E>(value: T, done: Result<(), E>) -> Result<T, E>
    ensures { result ≡ result_map_both (λ _. value) (λ why. why) done }
{
    // For the prover: the call is generic in the value, so that it is dropped without its type being opened.
    match done {
        Ok(()) => Ok(value),
        Err(why) => Err(why),
    }
}

/// Returns the value and what was made with it, if that succeeded.
pub fn beside<T: Drop, U, E>(value: T, made: Result<U, E>) -> Result<(T, U), E>
    ensures { result ≡ result_map_both (λ it. (value, it)) (λ why. why) made }
{
    // For the prover: as in `kept`.
    match made {
        Ok(it) => Ok((value, it)),
        Err(why) => Err(why),
    }
}

/// Returns the result of a call, which is repeated once if it ran out of memory.
pub fn retry<T, E: PartialEq + Copy, F: Fn() -> Result<T, E>>(no_memory: E, call: F) -> Result<T, E>
    requires { F.IsAlwaysCallable call }
{
    match call() {
        Err(why) if why == no_memory => call(),
        answer => answer,
    }
}

/// Makes a search by a service, without any other condition and without a limit.
///
/// # Errors
///
/// Out of memory, and nothing else.
pub fn service_find(alloc: Global, service: &str) -> Result<Find, AllocError>
    ensures { IfOk result (λ find. find ≡ service_find service.now) }
{
    Ok(Find {
        service: Text::from_str(alloc, service)?,
        operation: Text::new(alloc),
        tags: Seq::new(alloc),
        start_min: None,
        start_max: None,
        duration_min: 0,
        duration_max: 0,
        limit: 0,
    })
}
