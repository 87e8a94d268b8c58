ghost use Rattle.std.specs.Prelude.{◌≡◌, ◌<◌, ◌^◌, ◌∷◌, [], ℕ, List, Bool, length, true, Ok, OnOk, IfOk};
ghost use Rattle.std.specs.List.{AllByRecursion, flat_map, list_all};
ghost use Rattle.std.specs.Int.{w32, w64};
ghost use Rattle.std.proofs.Common.{SFits};
ghost use Rattle.batch_codec.specs.BatchReading.{decoded};
ghost use Rattle.batch_codec.specs.Batches.{IsBatch};
ghost use Rattle.batch_codec.specs.EncodedBatches.{WritesBatch};
ghost use Rattle.batch_codec.specs.CanonicalTexts.{Encodes, fits_length, front_text, text_field, i32_field, i64_field, id_field, double_field};
ghost use Rattle.batch_codec.specs.CanonicalTexts.{list_field, list_fits, list_if_any, value_type, value_field, value_fits};
ghost use Rattle.batch_codec.specs.CanonicalTexts.{span_front, span_middle, span_fields, span_fits, canon_process};
ghost use Rattle.batch_codec.specs.CanonicalTexts.{process_fits, number_if_any, canon, batch_fits};
ghost use Rattle.batch_codec.specs.EncodableBatches.{AreProper, IsProperValue, IsProperFront, IsProperMiddle, IsProperSpan};
ghost use Rattle.batch_codec.specs.EncodableBatches.{IsProperProcess, IsProperNumber, IsProper};
ghost use Rattle.batch_codec.specs.Changes.{change};

use crate::fault::{DecodeError, Decoded};
use crate::field_ids::{batch, log, process, reference, span, tag};
use crate::reference::kind_number;
use crate::tag::{TagType, type_number};
use jaeger_model::{Batch, Log, Process, Span, SpanRef, Tag, TagValue, ValueRef};
use std::alloc::Global;
use thrift_binary::{Out, WireError, WriteError, types};

/// Writes a field that is a text or binary.
fn write_text(out: &mut Out, id: i16, text: &[u8]) -> Result<(), WriteError>
    ensures writes { Encodes (front_text (text_field id text.now ∷ []))
        (fits_length (length text.now)) (change out.old out.new) result }
    ensures proper { OnOk result (length text.now < 2 ^ 31) }
{
    out.field(types::STRING, id)?;
    out.bytes(text)
}

/// Writes a field that is a number of 32 bits.
fn write_i32(out: &mut Out, id: i16, number: i32) -> Result<(), WriteError>
    ensures writes { Encodes (front_text (i32_field id number ∷ [])) true
        (change out.old out.new) result }
    ensures proper { OnOk result (SFits w32 number) }
{
    out.field(types::I32, id)?;
    out.i32(number)
}

/// Writes a field that is a number of 64 bits.
fn write_i64(out: &mut Out, id: i16, number: i64) -> Result<(), WriteError>
    ensures writes { Encodes (front_text (i64_field id number ∷ [])) true
        (change out.old out.new) result }
    ensures proper { OnOk result (SFits w64 number) }
{
    out.field(types::I64, id)?;
    out.i64(number)
}

/// Writes a field that is an id, whose bits are a signed number on the wire.
fn write_id(out: &mut Out, id: i16, bits: u64) -> Result<(), WriteError>
    ensures writes { Encodes (front_text (id_field id bits ∷ [])) true
        (change out.old out.new) result }
    ensures proper { OnOk result (bits < 2 ^ 64) }
{
    write_i64(out, id, bits.cast_signed())
}

/// Writes a field that is a double.
fn write_double(out: &mut Out, id: i16, bytes: [u8; 8]) -> Result<(), WriteError>
    ensures writes { Encodes (front_text (double_field id bytes ∷ [])) true
        (change out.old out.new) result }
    ensures proper { OnOk result (length bytes ≡ 8) }
{
    out.field(types::DOUBLE, id)?;
    out.double(bytes)
}

/// An element of a list. Its ghost members are its one spelling, whether each length in it fits, and what its
/// type says of it.
trait Spelled {
    ghost spelling: { Self → List ℕ };

    ghost fits: { Self → Bool };

    ghost proper: { Self → Type 0 };

    fn write(&self, out: &mut Out) -> Result<(), WriteError>
        ensures writes { Encodes (spelling self.now) (fits self.now)
            (change out.old out.new) result }
        ensures proper { OnOk result (proper self.now) };
}

/// Writes the elements in order.
fn write_items<T: Spelled>(out: &mut Out, items: &[T]) -> Result<(), WriteError>
    ensures writes { Encodes (flat_map T.spelling items.now) (list_all T.fits items.now)
        (change out.old out.new) result }
    ensures proper { OnOk result (AllByRecursion T.proper items.now) }
{
    for item in items {
        item.write(out)?;
    }
    Ok(())
}

/// Writes a field that is a list of structs.
fn write_list<T: Spelled>(out: &mut Out, id: i16, items: &[T]) -> Result<(), WriteError>
    ensures writes { Encodes (front_text (list_field id T.spelling items.now ∷ []))
        (list_fits T.fits items.now) (change out.old out.new) result }
    ensures proper { OnOk result (AreProper T.proper items.now) }
{
    out.field(types::LIST, id)?;
    out.list_head(types::STRUCT, items.len())?;
    write_items(out, items)
}

/// Writes a field that is a list of structs, or nothing if the list is empty.
fn write_if_any<T: Spelled>(out: &mut Out, id: i16, items: &[T]) -> Result<(), WriteError>
    ensures writes { Encodes (front_text (list_if_any id T.spelling items.now))
        (list_fits T.fits items.now) (change out.old out.new) result }
    ensures proper { OnOk result (AreProper T.proper items.now) }
{
    if items.is_empty() {
        return Ok(());
    }
    write_list(out, id, items)
}

/// Returns the type of a tag's value.
fn value_type(value: &TagValue) -> TagType
    ensures { result ≡ value_type value.now }
{
    match value.get() {
        ValueRef::Text(_) => TagType::Text,
        ValueRef::Double(_) => TagType::Double,
        ValueRef::Bool(_) => TagType::Bool,
        ValueRef::Long(_) => TagType::Long,
        ValueRef::Bytes(_) => TagType::Binary,
    }
}

/// Writes the value of a tag.
fn write_value(out: &mut Out, value: &TagValue) -> Result<(), WriteError>
    ensures writes { Encodes (front_text (value_field value.now ∷ [])) (value_fits value.now)
        (change out.old out.new) result }
    ensures proper { OnOk result (IsProperValue value.now) }
{
    match value.get() {
        ValueRef::Text(text) => write_text(out, tag::V_STR, text.as_bytes()),
        ValueRef::Double(bytes) => write_double(out, tag::V_DOUBLE, *bytes),
        ValueRef::Bool(flag) => {
            out.field(types::BOOL, tag::V_BOOL)?;
            out.bool(flag)
        }
        ValueRef::Long(number) => write_i64(out, tag::V_LONG, number),
        ValueRef::Bytes(bytes) => write_text(out, tag::V_BINARY, bytes),
    }
}

impl Spelled for Tag {
    ghost use Rattle.batch_codec.specs.CanonicalTexts.{canon_tag, tag_fits};
    ghost use Rattle.batch_codec.specs.EncodableBatches.{IsProperTag};

    ghost spelling = { canon_tag };

    ghost fits = { tag_fits };

    ghost proper = { IsProperTag };

    #[tactic(auto, unfolding(crate::specs::CanonicalTexts::canon_tag, crate::specs::CanonicalTexts::tag_fits))]
    fn write(&self, out: &mut Out) -> Result<(), WriteError> {
        write_text(out, tag::KEY, self.key.as_str().as_bytes())?;
        write_i32(out, tag::V_TYPE, type_number(value_type(&self.value)))?;
        write_value(out, &self.value)?;
        out.stop()
    }
}

impl Spelled for Log {
    ghost use Rattle.batch_codec.specs.CanonicalTexts.{canon_log, log_fits};
    ghost use Rattle.batch_codec.specs.EncodableBatches.{IsProperLog};

    ghost spelling = { canon_log };

    ghost fits = { log_fits };

    ghost proper = { IsProperLog };

    #[tactic(auto, unfolding(crate::specs::CanonicalTexts::canon_log, crate::specs::CanonicalTexts::log_fits))]
    fn write(&self, out: &mut Out) -> Result<(), WriteError> {
        write_i64(out, log::TIMESTAMP, self.at)?;
        write_list(out, log::FIELDS, self.fields.as_slice())?;
        out.stop()
    }
}

impl Spelled for SpanRef {
    ghost use Rattle.batch_codec.specs.CanonicalTexts.{canon_reference, reference_fits};
    ghost use Rattle.batch_codec.specs.EncodableBatches.{IsProperReference};

    ghost spelling = { canon_reference };

    ghost fits = { reference_fits };

    ghost proper = { IsProperReference };

    #[tactic(auto, unfolding(crate::specs::CanonicalTexts::canon_reference, crate::specs::CanonicalTexts::reference_fits))]
    fn write(&self, out: &mut Out) -> Result<(), WriteError> {
        write_i32(out, reference::REF_TYPE, kind_number(self.kind))?;
        write_id(out, reference::TRACE_ID_LOW, self.trace.low)?;
        write_id(out, reference::TRACE_ID_HIGH, self.trace.high)?;
        write_id(out, reference::SPAN_ID, self.id.0)?;
        out.stop()
    }
}

/// Writes the ids and the operation of a span.
fn write_front(out: &mut Out, span: &Span) -> Result<(), WriteError>
    ensures writes { Encodes (front_text (span_front span.now))
        (fits_length (length span.now.operation)) (change out.old out.new) result }
    ensures proper { OnOk result (IsProperFront span.now) }
{
    write_id(out, span::TRACE_ID_LOW, span.trace.low)?;
    write_id(out, span::TRACE_ID_HIGH, span.trace.high)?;
    write_id(out, span::SPAN_ID, span.id.0)?;
    write_id(out, span::PARENT_SPAN_ID, span.parent.0)?;
    write_text(
        out,
        span::OPERATION_NAME,
        span.operation.as_str().as_bytes(),
    )
}

/// Writes the flags and the times of a span.
fn write_middle(out: &mut Out, span: &Span) -> Result<(), WriteError>
    ensures writes { Encodes (front_text (span_middle span.now)) true
        (change out.old out.new) result }
    ensures proper { OnOk result (IsProperMiddle span.now) }
{
    write_i32(out, span::FLAGS, span.flags)?;
    write_i64(out, span::START_TIME, span.start)?;
    write_i64(out, span::DURATION, span.duration)
}

/// Writes all fields of a span.
#[tactic(auto, unfolding(crate::specs::CanonicalTexts::span_fits), using(crate::proofs::TextParts::span_front_parts))]
fn write_fields(out: &mut Out, span: &Span) -> Result<(), WriteError>
    ensures writes { Encodes (front_text (span_fields span.now)) (span_fits span.now)
        (change out.old out.new) result }
    ensures proper { OnOk result (IsProperSpan span.now) }
{
    write_front(out, span)?;
    write_if_any(out, span::REFERENCES, span.references.as_slice())?;
    write_middle(out, span)?;
    write_if_any(out, span::TAGS, span.tags.as_slice())?;
    write_if_any(out, span::LOGS, span.logs.as_slice())?;
    // For the prover: the `?` takes the cases of the clause `writes` of the last call apart.
    Ok(())
}

impl Spelled for Span {
    ghost use Rattle.batch_codec.specs.CanonicalTexts.{canon_span, span_fits};
    ghost use Rattle.batch_codec.specs.EncodableBatches.{IsProperSpan};

    ghost spelling = { canon_span };

    ghost fits = { span_fits };

    ghost proper = { IsProperSpan };

    #[tactic(auto, unfolding(crate::specs::CanonicalTexts::canon_span), using(crate::proofs::TextParts::span_stop))]
    fn write(&self, out: &mut Out) -> Result<(), WriteError> {
        write_fields(out, self)?;
        out.stop()
    }
}

/// Writes a process.
#[tactic(auto, unfolding(crate::specs::CanonicalTexts::canon_process, crate::specs::CanonicalTexts::process_fits), using(crate::proofs::TextParts::process_is))]
fn write_process(out: &mut Out, process: &Process) -> Result<(), WriteError>
    ensures writes { Encodes (canon_process process.now) (process_fits process.now)
        (change out.old out.new) result }
    ensures proper { OnOk result (IsProperProcess process.now) }
{
    write_text(
        out,
        process::SERVICE_NAME,
        process.service.as_str().as_bytes(),
    )?;
    write_if_any(out, process::TAGS, process.tags.as_slice())?;
    out.stop()
}

/// Writes a field that is a number of 64 bits, or nothing if there is none.
fn write_number_if_any(out: &mut Out, id: i16, number: Option<i64>) -> Result<(), WriteError>
    ensures writes { Encodes (front_text (number_if_any id number)) true
        (change out.old out.new) result }
    ensures proper { OnOk result (IsProperNumber number) }
{
    match number {
        Some(number) => write_i64(out, id, number),
        None => Ok(()),
    }
}

/// Writes a batch.
#[tactic(auto, unfolding(crate::specs::CanonicalTexts::canon, crate::specs::CanonicalTexts::batch_fits), using(crate::proofs::TextParts::batch_is))]
fn write_batch(out: &mut Out, batch: &Batch) -> Result<(), WriteError>
    ensures writes { Encodes (canon batch.now) (batch_fits batch.now)
        (change out.old out.new) result }
    ensures proper { OnOk result (IsProper batch.now) }
{
    out.field(types::STRUCT, batch::PROCESS)?;
    write_process(out, batch.process.get())?;
    write_list(out, batch::SPANS, batch.spans.as_slice())?;
    write_number_if_any(out, batch::SEQ_NO, batch.seq_no)?;
    out.stop()
}

/// Encodes a batch in its one spelling: the struct `Batch` of `jaeger.thrift` in the Thrift binary protocol.
///
/// # Errors
///
/// [`WireError::BadLength`] if a length or a size is above 2,147,483,647, and only then; else only out of memory.
/// The output is then discarded.
pub fn encode(alloc: Global, batch: &Batch) -> Decoded<Vec<u8>>
    ensures writes { WritesBatch batch.now result }

    // All of the written bytes spell the batch, so that decoding them returns it.
    ensures spells { IfOk result (λ bytes. IsBatch bytes.items batch.now) }
    ensures decodes { IfOk result (λ bytes. decoded bytes.items ≡ Ok batch.now) }
{
    let mut out = Out::new(alloc);
    match write_batch(&mut out, batch) {
        Ok(()) => Ok(out.into_bytes()),
        Err(WriteError::BadLength) => Err(DecodeError::Wire(WireError::BadLength)),
        Err(WriteError::Memory) => Err(DecodeError::Memory),
    }
}
