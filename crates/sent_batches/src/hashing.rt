//! The hash of a batch's number and process.

ghost use Rattle.std.specs.Prelude.{◌≡◌, fold, flat_map};
ghost use Rattle.std.specs.Hash.DefaultHasher as sip;
ghost use Rattle.sent_batches.specs.BatchHashes.{bytes_fed, value_fed, tag_fed, process_fed, hash_of, batch_hash};

use crate::keys::BatchKeys;
use jaeger_model::{Batch, Process, Tag, TagValue, ValueRef};
use std::hash::{DefaultHasher, Hash, Hasher};

fn feed_bytes(bytes: &[u8], state: &mut DefaultHasher)
    ensures { state.new ≡ fold sip.write state.old (bytes_fed bytes.now) }
{
    state.write_usize(bytes.len());
    state.write(bytes);
}

/// Hashes a byte for the kind of value, then the value.
fn feed_value(value: &TagValue, state: &mut DefaultHasher)
    ensures { state.new ≡ fold sip.write state.old (value_fed value.now) }
{
    match value.get() {
        ValueRef::Text(text) => {
            state.write_u8(0);
            text.hash(state);
        }
        ValueRef::Double(bytes) => {
            state.write_u8(1);
            feed_bytes(bytes, state);
        }
        ValueRef::Bool(flag) => {
            state.write_u8(2);
            flag.hash(state);
        }
        ValueRef::Long(number) => {
            state.write_u8(3);
            state.write_i64(number);
        }
        ValueRef::Bytes(bytes) => {
            state.write_u8(4);
            feed_bytes(bytes, state);
        }
    }
}

fn feed_tag(tag: &Tag, state: &mut DefaultHasher)
    ensures { state.new ≡ fold sip.write state.old (tag_fed tag.now) }
{
    tag.key.as_str().hash(state);
    feed_value(&tag.value, state);
}

fn feed_tags(tags: &[Tag], state: &mut DefaultHasher)
    ensures { state.new ≡ fold sip.write state.old (flat_map tag_fed tags.now) }
{
    for tag in tags {
        feed_tag(tag, state);
    }
}

fn feed_process(process: &Process, state: &mut DefaultHasher)
    ensures { state.new ≡ fold sip.write state.old (process_fed process.now) }
{
    process.service.as_str().hash(state);
    feed_tags(process.tags.as_slice(), state);
}

fn number_hash(keys: BatchKeys, number: i64, process: &Process) -> u64
    ensures { result ≡ hash_of keys number process.now }
{
    let mut state = keys.start();
    state.write_i64(number);
    feed_process(process, &mut state);
    state.finish()
}

/// Returns the hash of a batch by its process and its number. A batch without a number, which nobody looks up, has the
/// hash of one with number 0.
pub(crate) fn batch_hash(keys: BatchKeys, batch: &Batch) -> u64
    ensures { result ≡ batch_hash keys batch.now }
{
    number_hash(keys, batch.seq_no.unwrap_or(0), batch.process.get())
}
