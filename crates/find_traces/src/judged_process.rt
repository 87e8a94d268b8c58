//! Spans of one process, judged by a prepared search.

ghost use Rattle.std.specs.Prelude.{◌≡◌, ◌&&◌, ◌||◌, ℕ, List, IfOk, OnOk, flat_map, ◌++◌};
ghost use Rattle.std.specs.List.{list_all};
ghost use Rattle.jaeger_model.specs.declared.batch.Process.{Process as ProcessValue};
ghost use Rattle.jaeger_model.specs.declared.span.Log.{Log as LogValue};
ghost use Rattle.trace_model.specs.declared.query.Find.{Find as FindValue};
ghost use Rattle.trace_model.specs.Searching.{has_tag};
ghost use Rattle.find_traces.specs.PreparedSearches.{IsJudgementOf};
ghost use Rattle.find_traces.specs.RequestedPairs.{pair_of, same_pair, is_in, requests_pair, wants, has_pair, pairs_lent};

use crate::prepared::PreparedSearch;
use jaeger_model::{Log, Process, Span, Tag, Text};
use std::alloc::{AllocError, Global};
use std::collections::BTreeSet;
use std::marker::Model;

/// A process whose tags were compared with those that a search requests, once for all its spans. It keeps the result
/// alone, and doesn't refer to the process. Contracts see the search and the result.
#[derive(Drop)]
pub struct JudgedProcess<'a> {
    prepared: &'a PreparedSearch<'a>,
    /// The requested pairs that tags of the process have, lent by the search: no text is copied for a process.
    met: BTreeSet<&'a (Text, Text)>,
    /// The number of the other requested pairs.
    missing: usize,
}

impl<'a> Model for JudgedProcess<'a> {
    ghost use Rattle.find_traces.specs.RequestedPairs.{Judgement, pairs_lent};

    ghost Value = { Judgement };

    ghost view = { λ j. record { query = j.prepared.now; met = pairs_lent j.met.keys; missing = j.missing } };
}

/// Adds the pair of a tag, if it is requested and is not among the others.
fn add_pair<'a>(
    alloc: Global,
    prepared: &'a PreparedSearch<'a>,
    tag: &Tag,
    others: &BTreeSet<&'a (Text, Text)>,
    pairs: &mut BTreeSet<&'a (Text, Text)>,
) -> Result<(), AllocError>
    ensures { OnOk result ((a : List ℕ × List ℕ) → is_in (pairs_lent pairs.new.keys) a ≡
        (is_in (pairs_lent pairs.old.keys) a
        || (wants prepared.now (pairs_lent others.now.keys) a && same_pair a (pair_of tag.now)))) }
{
    if let Some(pair) = prepared.requested_pair(alloc, tag)? {
        if !others.contains(&pair) {
            pairs.insert(pair)?;
        }
    }
    Ok(())
}

/// Adds the pairs of the tags that are requested and not among the others. Of a tag whose key has another length than
/// each requested one, only that length is read.
fn add_pairs<'a>(
    alloc: Global,
    prepared: &'a PreparedSearch<'a>,
    tags: &[Tag],
    others: &BTreeSet<&'a (Text, Text)>,
    pairs: &mut BTreeSet<&'a (Text, Text)>,
) -> Result<(), AllocError>
    ensures { OnOk result ((a : List ℕ × List ℕ) → is_in (pairs_lent pairs.new.keys) a ≡
        (is_in (pairs_lent pairs.old.keys) a
        || (wants prepared.now (pairs_lent others.now.keys) a && has_pair tags.now a))) }
{
    for tag in tags {
        if prepared.may_request_key(&tag.key) {
            add_pair(alloc, prepared, tag, others, pairs)?;
        }
    }
    Ok(())
}

/// Adds the pairs of the fields of the logs that are requested and not among the others.
fn add_fields<'a>(
    alloc: Global,
    prepared: &'a PreparedSearch<'a>,
    logs: &[Log],
    others: &BTreeSet<&'a (Text, Text)>,
    pairs: &mut BTreeSet<&'a (Text, Text)>,
) -> Result<(), AllocError>
    ensures { OnOk result ((a : List ℕ × List ℕ) → is_in (pairs_lent pairs.new.keys) a ≡
        (is_in (pairs_lent pairs.old.keys) a || (wants prepared.now (pairs_lent others.now.keys) a
        && has_pair (flat_map (λ (l : LogValue). l.fields) logs.now) a))) }
{
    for log in logs {
        add_pairs(alloc, prepared, log.fields.as_slice(), others, pairs)?;
    }
    Ok(())
}

/// Returns the requested pairs that tags of the process have.
fn process_pairs<'a>(
    alloc: Global,
    prepared: &'a PreparedSearch<'a>,
    process: &Process,
) -> Result<BTreeSet<&'a (Text, Text)>, AllocError>
    ensures { IfOk result (λ s. (a : List ℕ × List ℕ) → is_in (pairs_lent s.keys) a ≡
        (requests_pair prepared.now a && has_pair process.now.tags a)) }
{
    let mut met = BTreeSet::new(alloc);
    if prepared.has_no_pairs() {
        return Ok(met);
    }
    let others = BTreeSet::new(alloc);
    add_pairs(alloc, prepared, process.tags.as_slice(), &others, &mut met)?;
    Ok(met)
}

/// Returns the requested pairs that the span's own tags and log fields have, except for the others.
fn own_pairs<'a>(
    alloc: Global,
    prepared: &'a PreparedSearch<'a>,
    span: &Span,
    others: &BTreeSet<&'a (Text, Text)>,
) -> Result<BTreeSet<&'a (Text, Text)>, AllocError>
    ensures { IfOk result (λ s. (a : List ℕ × List ℕ) → is_in (pairs_lent s.keys) a ≡
        (wants prepared.now (pairs_lent others.now.keys) a && (has_pair span.now.tags a
        || has_pair (flat_map (λ (l : LogValue). l.fields) span.now.logs) a))) }
{
    let mut own = BTreeSet::new(alloc);
    add_pairs(alloc, prepared, span.tags.as_slice(), others, &mut own)?;
    add_fields(alloc, prepared, span.logs.as_slice(), others, &mut own)?;
    Ok(own)
}

impl<'a> JudgedProcess<'a> {
    /// Compares the tags of the process with the requested ones.
    ///
    /// # Errors
    ///
    /// Out of memory, and nothing else.
    pub fn new(
        alloc: Global,
        prepared: &'a PreparedSearch<'a>,
        process: &Process,
    ) -> Result<Self, AllocError>
        ensures { IfOk result (IsJudgementOf prepared.now process.now) }
    {
        let met = process_pairs(alloc, prepared, process)?;
        let missing = prepared.count() - met.len();
        Ok(JudgedProcess {
            prepared,
            met,
            missing,
        })
    }

    /// Returns whether a span of the process has each of the requested tags, itself or in its process or its logs.
    ///
    /// # Errors
    ///
    /// Out of memory, and nothing else.
    pub fn has_all_tags(&self, alloc: Global, span: &Span) -> Result<bool, AllocError>
        ensures { (query : FindValue) (process : ProcessValue) →
            IsJudgementOf query process self.now → IfOk result (λ b. b ≡
            list_all (has_tag (record { process = process; span = span.now })) query.tags) }
    {
        if self.missing == 0 {
            return Ok(true);
        }
        let own = own_pairs(alloc, self.prepared, span, &self.met)?;
        Ok(own.len() == self.missing)
    }
}
