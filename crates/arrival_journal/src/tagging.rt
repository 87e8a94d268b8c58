//! A bitmap of the tags that an entry may have, so that its spans needn't be read.

ghost use Rattle.std.specs.Prelude.{◌≡◌, ◌<◌, get_or, flat_map};
ghost use Rattle.std.specs.List.{fold};
ghost use Rattle.jaeger_model.specs.Tags.{tag_text, hex_text};
ghost use Rattle.arrival_journal.specs.TagBits.{text_hash, may_begin_non_string, may_be_non_string, text_part, tag_place};
ghost use Rattle.arrival_journal.specs.TagBits.{no_bits, with_bit, bit_of_tag, with_tag};
ghost use Rattle.arrival_journal.specs.TagBits.{fields_of, own_tags, bits_of, bits_brought};

use jaeger_model::{Batch, Log, Span, Tag, TagValue, ValueRef};
use trace_model::Work;

/// Returns the byte at an index, or 0 past the end.
fn byte_at(bytes: &[u8], at: usize) -> u8
    ensures { result ≡ get_or bytes.now at 0 }
{
    bytes.get(at).copied().unwrap_or(0)
}

/// Returns a number for a text, by its length and by its first, middle and last byte. Reads no other byte.
fn text_hash(text: &str) -> u32
    ensures exact { result ≡ text_hash text.now }
    ensures within { result < 4096 }
{
    let bytes = text.as_bytes();
    let length = bytes.len();
    let first = u32::from(byte_at(bytes, 0));
    let middle = u32::from(byte_at(bytes, length / 2));
    let last = u32::from(byte_at(bytes, length.saturating_sub(1)));
    (length % 128) as u32 + 3 * first + 5 * middle + 7 * last
}

/// Returns whether the text of a value that isn't a string (a number, a flag, bytes) may begin with this byte.
fn may_begin_non_string(byte: u8) -> bool
    ensures { result ≡ may_begin_non_string byte }
{
    (b'0' <= byte && byte <= b'9') || (b'a' <= byte && byte <= b'f') || byte == b't' || byte == b'-'
}

/// Returns whether the text may be that of a value that isn't a string.
fn may_be_non_string(text: &str) -> bool
    ensures { result ≡ may_be_non_string text.now }
{
    match text.as_bytes() {
        [first, ..] => may_begin_non_string(*first),
        _ => true,
    }
}

/// Returns what a tag's text adds to its place: 0 if it may be that of a value that isn't a string.
fn text_part(text: &str) -> u32
    ensures exact { result ≡ text_part text.now }
    ensures within { result < 65536 }
{
    if may_be_non_string(text) {
        0
    } else {
        41 + 11 * text_hash(text)
    }
}

/// Returns what the text of bytes adds to the place, without making that text.
fn hex_part(bytes: &[u8]) -> u32
    ensures exact { result ≡ text_part (hex_text bytes.now) }
    ensures within { result < 65536 }
{
    if let Some(first) = bytes.first() {
        // For the prover: the range of the bytes, which this read opens, is used for the clause `exact`.
        let _first = *first;
    }
    0
}

/// Returns what a value's text adds to the place, without making that text.
fn value_part(value: &TagValue) -> u32
    ensures exact { result ≡ text_part (tag_text value.now) }
    ensures within { result < 65536 }
{
    match value.get() {
        ValueRef::Text(text) => text_part(text),
        ValueRef::Double(bytes) => hex_part(bytes),
        ValueRef::Bool(_) => 0,
        ValueRef::Long(_) => 0,
        ValueRef::Bytes(bytes) => hex_part(bytes),
    }
}

/// 512 bits, in words of 64, the lowest first.
pub type TagBits = [u64; 8];

/// Returns 512 bits, none of them set.
pub fn no_bits() -> TagBits
    ensures { result ≡ no_bits }
{
    [0, 0, 0, 0, 0, 0, 0, 0]
}

/// Sets the bit at a place.
pub fn set_bit(bits: &mut TagBits, place: u32)
    requires { place < 512 }
    ensures { bits.new ≡ with_bit bits.old place }
{
    let word = (place / 64) as usize;
    bits[word] |= 1u64 << (place % 64);
}

/// Returns which of 512 bits represents the tags with this key and this text.
pub fn tag_place(key: &str, text: &str) -> u32
    ensures exact { result ≡ tag_place key.now text.now }
    ensures within { result < 512 }
{
    (text_hash(key) + text_part(text)) % 512
}

/// Returns which of 512 bits represents a tag.
fn bit_of_tag(tag: &Tag) -> u32
    ensures exact { result ≡ bit_of_tag tag.now }
    ensures within { result < 512 }
{
    (text_hash(tag.key.as_str()) + value_part(&tag.value)) % 512
}

/// Sets the bits of these tags.
fn add_tags(bits: &mut TagBits, tags: &[Tag])
    ensures { bits.new ≡ fold with_tag bits.old tags.now }
{
    for tag in tags {
        set_bit(bits, bit_of_tag(tag));
    }
}

/// Sets the bits of the fields of these logs.
fn add_logs(bits: &mut TagBits, logs: &[Log])
    ensures { bits.new ≡ fold with_tag bits.old (fields_of logs.now) }
{
    for log in logs {
        add_tags(bits, log.fields.as_slice());
    }
}

/// Sets the bits of the tags of these spans and of their logs.
fn add_spans(bits: &mut TagBits, spans: &[Span])
    ensures { bits.new ≡ fold with_tag bits.old (flat_map own_tags spans.now) }
{
    for span in spans {
        add_tags(bits, span.tags.as_slice());
        add_logs(bits, span.logs.as_slice());
    }
}

/// Returns the bits of the tags of the process, of its spans and of their logs.
fn bits_of(batch: &Batch) -> TagBits
    ensures { result ≡ bits_of batch.now }
{
    let mut bits = no_bits();
    add_tags(&mut bits, batch.process.get().tags.as_slice());
    add_spans(&mut bits, batch.spans.as_slice());
    bits
}

/// Returns the bits of an entry: those of its batch, or none for a limit.
pub(crate) fn bits_brought(work: &Work) -> TagBits
    ensures { result ≡ bits_brought work.now }
{
    match work.batch() {
        Some(batch) => bits_of(batch),
        None => no_bits(),
    }
}
