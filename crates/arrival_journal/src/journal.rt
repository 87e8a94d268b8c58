ghost use Rattle.std.specs.Prelude.{◌≡◌, ◌==◌, ◌<◌, [], length, map, true, vec_capacity, Ok, IfOk, option_map};
ghost use Rattle.std.specs.Arc.{arc_value};
ghost use Rattle.std.specs.Option.{option_copied};
ghost use Rattle.trace_model.specs.Histories.{span_count, last_number, IsLegal};
ghost use Rattle.trace_model.specs.declared.admission.Admission.TheVariants.{Added};
ghost use Rattle.trace_model.specs.Refusals.{admitted_anew, followed_by, repeated, with_admitted};
ghost use Rattle.trace_model.specs.Places.{entry_at};
ghost use Rattle.arrival_journal.specs.Journals.{admission_by, place_by};
ghost use Rattle.arrival_journal.specs.Outlines.{outline_in, with_outline};

use crate::outline::Outline;
use crate::record::Record;
use crate::seats::{SEAT_NUMBERS, set_last_number};
use sent_batches::{BatchKeys, SentBatches};
use std::alloc::{AllocError, Global};
use std::hash::RandomState;
use std::marker::Model;
use std::sync::Arc;
use trace_model::{Admission, Entry, Limits, Refusal};

/// The accepted entries, in the order of their arrival and within the limits.
#[derive(Drop)]
pub struct Journal {
    limits: Limits,
    entries: Vec<Arc<Entry>>,
    /// Whether the outline of each entry is kept. Else it is computed when it is needed.
    keeps_outlines: bool,
    /// The outline of each entry, if they are kept.
    outlines: Vec<Outline>,
    spans: u64,
    /// For each seat the number of its last entry, 0 if it has none, up to the last seat that has one.
    last_numbers: Vec<u64>,
    /// Finds batches that were sent before.
    sent: SentBatches,
}

impl Model for Journal {
    ghost use Rattle.std.specs.Prelude.{map};
    ghost use Rattle.std.specs.Arc.{arc_value};
    ghost use Rattle.std.specs.Vec.{vec_capacity};
    ghost use Rattle.arrival_journal.specs.Journals.{Journaled};

    ghost Value = { Journaled };

    ghost use Rattle.arrival_journal.specs.JournalInvariants.{IsJournalKept};

    ghost view = { λ j. record { held = record { limits = j.limits; entries = map arc_value j.entries.items } } };

    ghost invariant = { λ j. IsJournalKept record {
      limits = j.limits;
      entries = map arc_value j.entries.items;
      entry_capacity = vec_capacity j.entries;
      keeps_outlines = j.keeps_outlines;
      outlines = j.outlines.items;
      outline_capacity = vec_capacity j.outlines;
      spans = j.spans;
      last_numbers = j.last_numbers.items;
      seat_capacity = vec_capacity j.last_numbers;
      sent = j.sent;
    } };
}

/// Appends an outline, if outlines are kept.
fn push_outline(outlines: &mut Vec<Outline>, keeps: bool, outline: Outline)
    requires { keeps ≡ true → length outlines.old.items < vec_capacity outlines.old }
    ensures items { outlines.new.items ≡ with_outline keeps outlines.old.items outline }
    ensures capacity { vec_capacity outlines.new ≡ vec_capacity outlines.old }
{
    if keeps {
        outlines.push_reserved(outline);
    }
}

impl Journal {
    /// Makes an empty journal, with room for all that its limits allow; nothing allocates from then on. The keys
    /// are those of the hash by which batches are found.
    ///
    /// # Errors
    ///
    /// Out of memory, and nothing else.
    pub fn new(alloc: Global, keys: RandomState, limits: Limits) -> Result<Self, AllocError>
        ensures { IfOk result (λ journal. journal.held ≡ record { limits = limits; entries = [] }) }
    {
        Journal::with_outlines(alloc, keys, limits, true)
    }

    /// Makes a journal that keeps no outlines. An entry takes less memory, and [`outline`](Self::outline) reads the
    /// entry's spans.
    ///
    /// # Errors
    ///
    /// Out of memory, and nothing else.
    pub fn without_outlines(
        alloc: Global,
        keys: RandomState,
        limits: Limits,
    ) -> Result<Self, AllocError>
        ensures { IfOk result (λ journal. journal.held ≡ record { limits = limits; entries = [] }) }
    {
        Journal::with_outlines(alloc, keys, limits, false)
    }

    fn with_outlines(
        alloc: Global,
        keys: RandomState,
        limits: Limits,
        keeps_outlines: bool,
    ) -> Result<Self, AllocError>
        ensures { IfOk result (λ journal. journal.held ≡ record { limits = limits; entries = [] }) }
    {
        let entries = Vec::with_capacity(alloc, limits.batches as usize)?;
        let outlines = if keeps_outlines {
            Vec::with_capacity(alloc, limits.batches as usize)?
        } else {
            Vec::new(alloc)
        };
        let last_numbers = Vec::with_capacity(alloc, SEAT_NUMBERS)?;
        let sent = SentBatches::with_room(alloc, BatchKeys::new(keys), limits.batches)?;
        Ok(Journal {
            limits,
            entries,
            keeps_outlines,
            outlines,
            spans: 0,
            last_numbers,
            sent,
        })
    }

    /// Returns the limits.
    pub fn limits(&self) -> Limits
        ensures { result ≡ self.now.held.limits }
    {
        self.limits
    }

    /// Returns the number of entries. They are legal.
    pub fn len(&self) -> u64
        ensures length { result ≡ length self.now.held.entries }
        ensures legal { IsLegal self.now.held.limits self.now.held.entries }
    {
        self.entries.len() as u64
    }

    /// Returns whether there is no entry.
    pub fn is_empty(&self) -> bool
        ensures { result ≡ (length self.now.held.entries == 0) }
    {
        self.entries.is_empty()
    }

    /// Returns the number of spans of all entries. No crate here calls it: it is for users of a journal without a store.
    pub fn span_count(&self) -> u64
        ensures { result ≡ span_count self.now.held.entries }
    {
        self.spans
    }

    /// Returns the entries, oldest first.
    pub fn entries(&self) -> &[Arc<Entry>]
        ensures { map arc_value result.now ≡ self.now.held.entries }
    {
        &self.entries
    }

    /// Returns the entry at a place. The oldest one is at place 1; there is none at 0.
    pub fn entry(&self, place: u64) -> Option<&Arc<Entry>>
        ensures { option_map arc_value (option_copied result) ≡
            entry_at self.now.held.entries place }
    {
        let entry_index = usize::try_from(place.checked_sub(1)?).ok()?;
        self.entries.get(entry_index)
    }

    /// Returns the outline of the entry at a place. If outlines are kept, no span is read.
    pub fn outline(&self, place: u64) -> Option<Outline>
        ensures { result ≡ option_map outline_in (entry_at self.now.held.entries place) }
    {
        let entry_index = usize::try_from(place.checked_sub(1)?).ok()?;
        match self.outlines.get(entry_index) {
            Some(outline) => Some(*outline),
            None => Some(Outline::of(&self.entries.get(entry_index)?.work)),
        }
    }

    /// Returns the number of the seat's last entry, or 0 if it has none.
    fn last_number(&self, seat: u16) -> u64
        ensures { result ≡ last_number seat self.now.held.entries }
    {
        self.last_numbers
            .get(usize::from(seat))
            .copied()
            .unwrap_or(0)
    }

    /// Makes the record of an entry, with the hash by which this journal finds its batch.
    pub fn recorded(&self, entry: Arc<Entry>) -> Record
        ensures { result ≡ arc_value entry }
    {
        Record::new(self.sent.keys(), entry)
    }

    /// Judges an entry whose batch was sent before, by the entry at an index, which counts from 0: that entry answers
    /// for it, unless it has other spans.
    fn judge_resent(&self, entry: &Entry, entry_index: u32) -> Result<Admission, Refusal>
        requires { entry_index < length self.now.held.entries }
        ensures { result ≡ repeated self.now.held.entries entry.now entry_index }
    {
        let place = u64::from(entry_index) + 1;
        if entry.work == self.entries[entry_index as usize].work {
            Ok(Admission::Resent { place })
        } else {
            Err(Refusal::Conflict { place })
        }
    }

    /// Judges an entry whose batch was not sent before.
    fn judge_new(&self, entry: &Entry) -> Result<Admission, Refusal>
        ensures { result ≡
            admitted_anew self.now.held.limits self.now.held.entries entry.now }
    {
        let batches = self.len();
        let spans = self.spans;
        let last = self.last_number(entry.seat);
        if entry.number <= last {
            return Err(Refusal::Stale { last });
        }
        let more = entry.work.spans().len() as u64;
        if batches >= u64::from(self.limits.batches)
            || more > u64::from(self.limits.spans) - spans
        {
            return Err(Refusal::JournalFull { batches, spans });
        }
        Ok(Admission::Added)
    }

    /// Judges an entry: it may be appended, or was sent before.
    ///
    /// # Errors
    ///
    /// First [`Refusal::Conflict`], with the place of an earlier entry, if that has the batch's `seqNo` and process
    /// but other spans; then [`Refusal::Stale`], if the entry's number is not above the last one of its seat; then
    /// [`Refusal::JournalFull`], with the current counts, if the entry or its spans would pass the limits. Nothing
    /// else.
    pub fn judge(&self, recorded: &Record) -> Result<Admission, Refusal>
        ensures answer { result ≡ admission_by self.now.held recorded.now }
        ensures legal { IsLegal self.now.held.limits self.now.held.entries }
    {
        let hash = recorded.hash(self.sent.keys());
        let entry = recorded.entry();
        match self.sent.find(&self.entries, entry, hash) {
            Some(entry_index) => self.judge_resent(entry, entry_index),
            None => self.judge_new(entry),
        }
    }

    /// Appends an entry that was judged to be added.
    pub fn append(&mut self, recorded: Record)
        requires { admission_by self.old.held recorded ≡ Ok Added }
        ensures appended { self.new.held ≡ followed_by self.old.held recorded }
        ensures legal { IsLegal self.new.held.limits self.new.held.entries }
    {
        let hash = recorded.hash(self.sent.keys());
        let outline = recorded.outline();
        let entry = recorded.into_entry();
        self.spans += entry.work.spans().len() as u64;
        set_last_number(&mut self.last_numbers, entry.seat, entry.number);
        push_outline(&mut self.outlines, self.keeps_outlines, outline);
        self.entries.push_reserved(entry);
        self.sent.add(&self.entries, hash);
    }

    /// Adds an entry at the end and returns its place; the first one is 1. If its batch was sent before with the
    /// same spans, nothing is added, and the place is that of the entry that has it. No crate here calls it, since a
    /// store calls [`judge`](Self::judge) and [`append`](Self::append): it is for users of a journal without a store.
    ///
    /// # Errors
    ///
    /// Those of [`judge`](Self::judge), and no others. The entries are then unchanged.
    pub fn admit(&mut self, entry: Arc<Entry>) -> Result<u64, Refusal>
        ensures place { result ≡ place_by self.old.held (arc_value entry) }
        ensures admitted { self.new.held ≡ with_admitted self.old.held (arc_value entry)
            (admission_by self.old.held (arc_value entry)) }
        ensures legal { IsLegal self.new.held.limits self.new.held.entries }
    {
        let recorded = self.recorded(entry);
        match self.judge(&recorded)? {
            Admission::Added => {
                self.append(recorded);
                Ok(self.len())
            }
            Admission::Resent { place } => Ok(place),
        }
    }
}
