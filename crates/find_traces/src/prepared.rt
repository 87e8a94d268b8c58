//! Searches whose requested tags are sorted once.

ghost use Rattle.std.specs.Prelude.{◌≡◌, ◌==◌, ◌%◌, ◌^◌, ℕ, List, [], IfOk, MatchOption, length, option_copied, true, false};
ghost use Rattle.std.specs.Bool.{OnTrue, OnFalse};
ghost use Rattle.std.specs.Int.{bit_at};
ghost use Rattle.std.specs.List.{list_any};
ghost use Rattle.std.specs.Ordering.{eq_by_cmp, nat_cmp};
ghost use Rattle.jaeger_model.specs.Tags.{hex_text, tag_text};
ghost use Rattle.jaeger_model.specs.Texts.{text_cmp};
ghost use Rattle.find_traces.specs.RequestedPairs.{pair_of, same_pair, is_in, key_bits, requests_pair, requested_count, if_requested, may_be_number};

use jaeger_model::{Tag, TagValue, Text, ValueRef, tag_text};
use std::alloc::{AllocError, Global};
use std::collections::BTreeSet;
use std::marker::Model;
use trace_model::Find;

/// A search with the requested keys and pairs of its tags in sorted sets, so that a tag is looked up in them.
/// Contracts see the search.
#[derive(Drop)]
pub struct PreparedSearch<'q> {
    query: &'q Find,
    keys: BTreeSet<Text>,
    /// Bits for the lengths of the keys.
    key_bits: u64,
    /// The lengths of the requested texts.
    lengths: BTreeSet<usize>,
    /// Whether one of the requested texts may be that of a number.
    requests_number: bool,
    pairs: BTreeSet<(Text, Text)>,
}

impl<'q> Model for PreparedSearch<'q> {
    ghost use Rattle.trace_model.specs.declared.query.Find.{Find};
    ghost use Rattle.find_traces.specs.PreparedSearches.{IsPrepared};

    ghost Value = { Find };

    ghost view = { λ w. w.query.now };

    ghost invariant = { λ w. IsPrepared record {
      query = w.query.now;
      keys = w.keys.keys;
      key_bits = w.key_bits;
      lengths = w.lengths.keys;
      requests_number = w.requests_number;
      pairs = w.pairs.keys;
    } };
}

/// Returns the keys of the pairs.
fn keys_of(alloc: Global, requested: &[(Text, Text)]) -> Result<BTreeSet<Text>, AllocError>
    ensures { IfOk result (λ s. (k : List ℕ) → list_any (eq_by_cmp text_cmp k) s.keys ≡
        list_any (λ (a : List ℕ × List ℕ). eq_by_cmp text_cmp k a.0) requested.now) }
{
    let mut keys = BTreeSet::new(alloc);
    for pair in requested {
        let key = pair.0.clone()?;
        keys.insert(key)?;
    }
    Ok(keys)
}

/// Returns the one of 64 bits that represents keys of this length.
fn bit_of_key(key: &Text) -> u64
    ensures { result ≡ 2 ^ (length key.now % 64) }
{
    1u64 << (key.len() % 64)
}

/// Returns the bits for the lengths of the pairs' keys.
fn key_bits(requested: &[(Text, Text)]) -> u64
    ensures { result ≡ key_bits requested.now }
{
    let mut bits = 0;
    for pair in requested {
        bits |= bit_of_key(&pair.0);
    }
    bits
}

/// Returns whether the bit for keys of this length is set.
fn is_set(bits: u64, key: &Text) -> bool
    ensures { result ≡ (bit_at bits (length key.now % 64) == 1) }
{
    (bits >> (key.len() % 64)) & 1 == 1
}

/// Returns the lengths of the pairs' texts.
fn lengths_of(alloc: Global, requested: &[(Text, Text)]) -> Result<BTreeSet<usize>, AllocError>
    ensures { IfOk result (λ s. (n : ℕ) → list_any (eq_by_cmp nat_cmp n) s.keys ≡
        list_any (λ (a : List ℕ × List ℕ). eq_by_cmp nat_cmp n (length a.1)) requested.now) }
{
    let mut lengths = BTreeSet::new(alloc);
    for pair in requested {
        let length = pair.1.len();
        lengths.insert(length)?;
    }
    Ok(lengths)
}

/// Returns whether a text may be that of a number, by its first byte.
fn may_be_number(text: &str) -> bool
    ensures { result ≡ may_be_number text.now }
{
    match text.as_bytes() {
        [first, ..] => first.is_ascii_digit() || *first == b'-',
        _ => true,
    }
}

/// Returns whether one of the pairs' texts may be that of a number.
fn requests_number(requested: &[(Text, Text)]) -> bool
    ensures { result ≡ list_any (λ (a : List ℕ × List ℕ). may_be_number a.1) requested.now }
{
    requested.iter().any(|pair| may_be_number(pair.1.as_str()))
}

fn copy_of(pair: &(Text, Text)) -> Result<(Text, Text), AllocError>
    ensures { IfOk result (λ p. p ≡ pair.now) }
{
    Ok((pair.0.clone()?, pair.1.clone()?))
}

/// Returns the pairs, each once.
fn pairs_of(alloc: Global, requested: &[(Text, Text)]) -> Result<BTreeSet<(Text, Text)>, AllocError>
    ensures { IfOk result (λ s. (a : List ℕ × List ℕ) →
        is_in s.keys a ≡ list_any (same_pair a) requested.now) }
{
    let mut pairs = BTreeSet::new(alloc);
    for pair in requested {
        let copy = copy_of(pair)?;
        pairs.insert(copy)?;
    }
    Ok(pairs)
}

/// Returns the number of hexadecimal digits of these bytes.
#[tactic(auto, using(crate::proofs::RequestedPairs::hex_length))]
fn hex_length(bytes: &[u8]) -> usize
    ensures { result ≡ length (hex_text bytes.now) }
{
    2 * bytes.len()
}

/// Returns the length of the text of a value, without making the text; `None` for a number.
fn text_length(value: &TagValue) -> Option<usize>
    ensures { MatchOption result (may_be_number (tag_text value.now) ≡ true)
        (λ n. n ≡ length (tag_text value.now)) }
{
    match value.get() {
        ValueRef::Text(text) => Some(text.len()),
        ValueRef::Double(bytes) => Some(hex_length(bytes)),
        ValueRef::Bool(flag) => Some(if flag { 4 } else { 5 }),
        ValueRef::Long(_) => None,
        ValueRef::Bytes(bytes) => Some(hex_length(bytes)),
    }
}

/// Returns the value as text.
fn text_of(alloc: Global, value: &TagValue) -> Result<Text, AllocError>
    ensures { IfOk result (λ t. t ≡ tag_text value.now) }
{
    match value.get() {
        ValueRef::Text(text) => Text::from_str(alloc, text),
        _ => Ok(Text::from_string(tag_text(alloc, value)?)),
    }
}

impl<'q> PreparedSearch<'q> {
    /// Prepares the search.
    ///
    /// # Errors
    ///
    /// Out of memory, and nothing else.
    pub fn new(alloc: Global, query: &'q Find) -> Result<Self, AllocError>
        ensures { IfOk result (λ w. w ≡ query.now) }
    {
        let requested = query.tags.as_slice();
        let keys = keys_of(alloc, requested)?;
        let lengths = lengths_of(alloc, requested)?;
        let pairs = pairs_of(alloc, requested)?;
        Ok(PreparedSearch {
            query,
            keys,
            key_bits: key_bits(requested),
            lengths,
            requests_number: requests_number(requested),
            pairs,
        })
    }

    /// Returns the search.
    pub fn query(&self) -> &Find
        ensures { result.now ≡ self.now }
    {
        self.query
    }

    /// Returns whether no pair is requested.
    pub(crate) fn has_no_pairs(&self) -> bool
        ensures { OnTrue result (self.now.tags ≡ []) }
    {
        self.query.tags.as_slice().is_empty()
    }

    /// Returns the number of requested pairs, each counted once.
    pub(crate) fn count(&self) -> usize
        ensures { result ≡ requested_count self.now }
    {
        self.pairs.len()
    }

    /// Returns whether a key may be requested, by its length. No other key has to be looked up.
    pub(crate) fn may_request_key(&self, key: &Text) -> bool
        ensures { OnFalse result ((t : List ℕ) → requests_pair self.now (key.now, t) ≡ false) }
    {
        is_set(self.key_bits, key)
    }

    /// Returns whether a value may have a requested text: by the length of its text, or, if it is a number, by whether
    /// some requested text may be that of a number.
    fn may_request(&self, value: &TagValue) -> bool
        ensures { OnFalse result ((k : List ℕ) →
            requests_pair self.now (k, tag_text value.now) ≡ false) }
    {
        match text_length(value) {
            Some(length) => self.lengths.contains(&length),
            None => self.requests_number,
        }
    }

    /// Returns the requested pair of the tag's key and text, if there is one. The text is made only if the key is
    /// requested and some requested text may be equal to it.
    pub(crate) fn requested_pair(
        &self,
        alloc: Global,
        tag: &Tag,
    ) -> Result<Option<&(Text, Text)>, AllocError>
        ensures { IfOk result (λ p. option_copied p ≡ if_requested self.now (pair_of tag.now)) }
    {
        if !self.keys.contains(&tag.key) {
            return Ok(None);
        }
        if !self.may_request(&tag.value) {
            return Ok(None);
        }
        let pair = (tag.key.clone()?, text_of(alloc, &tag.value)?);
        Ok(self.pairs.get(&pair))
    }
}
