ghost use Rattle.std.specs.Prelude.{◌≡◌, ◌≤◌, ℕ, List, Err, true, length, OnOk};
ghost use Rattle.thrift_binary.specs.declared.fault.WireError.TheVariants.{Truncated};
ghost use Rattle.thrift_binary.specs.Lists.{list_of};
ghost use Rattle.wire_pieces.specs.Lists.{items_after_head, items_from};
ghost use Rattle.wire_pieces.specs.Pieces.{moment};
ghost use Rattle.batch_codec.specs.declared.fault.DecodeError.TheVariants.{Wire};
ghost use Rattle.batch_codec.specs.Decoding.{wire};
ghost use Rattle.value_pieces.specs.ContinuedCalls.{Enters, ContinuesTo, Lays, Places, slot_moment};
ghost use Rattle.struct_pieces.specs.NewLists.{Enlists};
ghost use Rattle.struct_pieces.specs.Lists.{items_after, items_ended, list_from, list_state};
ghost use Rattle.value_pieces.specs.LeastBytes.{IsTooShort};

use crate::fields::{Step, hold_next};
use batch_codec::{DecodeError, Decoded, room};
use jaeger_model::Seq;
use std::alloc::Global;
use std::mem;
use thrift_binary::types::STRUCT;
use thrift_binary::{Cursor, WireError};
use value_pieces::{Arrival, Item, Slot, fault_of};
use wire_pieces::ListHead;

/// Reads a number of values of a list, from the first byte of one, and stores what has arrived of the last one.
fn begin_items<P: Item>(
    items: &mut Vec<P::Value>,
    left: &mut u32,
    one: &mut Option<P>,
    alloc: Global,
    piece: &mut Cursor<'_>,
) -> Decoded<Arrival>
    ensures continues { Enters items.new.items
        (moment (items_after P.reads items.old.items left.old) piece.old)
        (record {
          resumes = λ p. items_from P.reads items.new.items left.new (P.Partial.resumes p);
          part = one.new;
          left = piece.new;
        })
        result }
    ensures no_longer { OnOk result (length piece.new ≤ length piece.old) }
{
    while *left > 0 {
        *left -= 1;
        // For the prover: the match takes the cases of the clause `continues` apart.
        match P::begin(one, alloc, piece) {
            Err(error) => return Err(error),
            Ok(None) => return Ok(Arrival::Pending),
            Ok(Some(item)) => items.push(item)?,
        }
    }
    Ok(Arrival::Complete)
}

/// Takes a value of a list whose bytes have arrived, and reads a number of further ones in its place.
#[inline(never)]
fn next_items<P: Item>(
    items: &mut Vec<P::Value>,
    left: &mut u32,
    one: &mut P,
    alloc: Global,
    piece: &mut Cursor<'_>,
) -> Decoded<Arrival>
    ensures continues { ContinuesTo items.new.items
        (moment (items_ended P.reads items.old.items left.old (P.ends one.old)) piece.old)
        (moment (items_from P.reads items.new.items left.new (P.Partial.resumes one.new)) piece.new)
        result }
    ensures no_longer { OnOk result (length piece.new ≤ length piece.old) }
{
    loop {
        let item = one.take(alloc)?;
        items.push(item)?;
        if *left == 0 {
            return Ok(Arrival::Complete);
        }
        *left -= 1;
        // For the prover: the match takes the cases of the clause `continues` apart.
        match one.arrive(alloc, piece) {
            Err(error) => return Err(error),
            Ok(Arrival::Pending) => return Ok(Arrival::Pending),
            Ok(Arrival::Complete) => {}
        }
    }
}

/// A list of structs. It grows with the structs that have arrived, whatever its size claims.
#[derive(Drop)]
pub struct PartialList<P: Item> {
    items: Vec<P::Value>,
    left: u32,
    head: ListHead,
    one: Option<P>,
}

impl<P: Item> PartialList<P> {
    /// Returns the state before the first byte.
    #[inline(always)]
    pub fn new(alloc: Global) -> Self
        ensures fresh { (w : List ℕ) → list_from P.reads P.Partial.resumes
            (list_state result.items.items result.left result.head result.one) w
            ≡ list_of wire STRUCT P.reads w }
    {
        // For the prover: the binding lets the clause `fresh` of `new` be used for the result.
        let head = ListHead::new();
        PartialList {
            items: Vec::new(alloc),
            left: 0,
            head,
            one: None,
        }
    }

    /// Returns whether it is between two fields of the innermost struct that has begun in it.
    pub fn is_between_fields(&self) -> bool
        ensures wants { result ≡ true → (w : List ℕ) → IsTooShort w →
            list_from P.reads P.Partial.resumes
            (list_state self.now.items.items self.now.left self.now.head self.now.one)
            w ≡ Err (Wire Truncated) }
    {
        match &self.one {
            None => false,
            Some(one) => one.is_between_fields(),
        }
    }

    /// Continues after the head of a list.
    #[inline]
    fn enter(
        &mut self,
        code: u8,
        size: u32,
        alloc: Global,
        piece: &mut Cursor<'_>,
    ) -> Decoded<Arrival>
        ensures continues { ContinuesTo self.new.items.items
            (moment (items_after_head wire STRUCT P.reads (code, size)) piece.old)
            (moment (list_from P.reads P.Partial.resumes
            (list_state self.new.items.items self.new.left self.new.head self.new.one))
            piece.new) result }
        ensures no_longer { OnOk result (length piece.new ≤ length piece.old) }
    {
        if size == 0 {
            self.items = Vec::new(alloc);
            return Ok(Arrival::Complete);
        }
        if code != STRUCT {
            return Err(DecodeError::Wire(WireError::BadType));
        }
        self.items = Vec::with_capacity(alloc, room(size, piece.rest().len(), P::min_bytes()))?;
        self.left = size;
        begin_items(&mut self.items, &mut self.left, &mut self.one, alloc, piece)
    }

    /// Continues with a piece.
    #[inline(always)]
    fn resume(&mut self, alloc: Global, piece: &mut Cursor<'_>) -> Decoded<Arrival>
        ensures continues { ContinuesTo self.new.items.items
            (moment (list_from P.reads P.Partial.resumes
            (list_state self.old.items.items self.old.left self.old.head self.old.one)) piece.old)
            (moment (list_from P.reads P.Partial.resumes
            (list_state self.new.items.items self.new.left self.new.head self.new.one))
            piece.new) result }
        ensures no_longer { OnOk result (length piece.new ≤ length piece.old) }
    {
        match &mut self.one {
            None => match self.head.more(piece) {
                Err(error) => Err(fault_of(error)),
                Ok(None) => Ok(Arrival::Pending),
                Ok(Some((code, size))) => self.enter(code, size, alloc, piece),
            },
            // For the prover: the match takes the cases of the clause `continues` apart.
            Some(one) => match one.arrive(alloc, piece) {
                Err(error) => Err(error),
                Ok(Arrival::Pending) => Ok(Arrival::Pending),
                Ok(Arrival::Complete) => next_items(
                    &mut self.items,
                    &mut self.left,
                    one,
                    alloc,
                    piece,
                ),
            },
        }
    }

    /// Begins a list in a piece, and stores it in its slot, or what has arrived of it if it isn't complete.
    #[inline(always)]
    pub fn begin<S: Slot<Seq<P::Value>>>(
        slot: &mut S,
        alloc: Global,
        piece: &mut Cursor<'_>,
    ) -> Decoded<Option<Self>>
        ensures continues { Lays
            (record {
              holding = S.holding;
              reads = list_of wire STRUCT P.reads;
              resumes = λ p. list_from P.reads P.Partial.resumes
                  (list_state p.items.items p.left p.head p.one);
            })
            (record { before = slot.old; after = slot.new; piece = piece.old; left = piece.new })
            result }
        ensures no_longer { OnOk result (length piece.new ≤ length piece.old) }
    {
        let mut part = PartialList::new(alloc);
        // For the prover: the match takes the cases of the clause `continues` apart.
        match part.place(slot, alloc, piece) {
            Err(error) => Err(error),
            Ok(Arrival::Complete) => Ok(None),
            Ok(Arrival::Pending) => Ok(Some(part)),
        }
    }

    /// Continues with a piece, and stores the list in its slot.
    #[inline(always)]
    pub fn place<S: Slot<Seq<P::Value>>>(
        &mut self,
        slot: &mut S,
        alloc: Global,
        piece: &mut Cursor<'_>,
    ) -> Decoded<Arrival>
        ensures continues { Places S.holding
            (slot_moment (list_from P.reads P.Partial.resumes
            (list_state self.old.items.items self.old.left self.old.head self.old.one))
            piece.old slot.old)
            (slot_moment (list_from P.reads P.Partial.resumes
            (list_state self.new.items.items self.new.left self.new.head self.new.one))
            piece.new slot.new) result }
        ensures no_longer { OnOk result (length piece.new ≤ length piece.old) }
    {
        let result = self.resume(alloc, piece);
        if let Ok(Arrival::Complete) = result {
            slot.fill(self.take_items(alloc));
        }
        result
    }

    /// Takes the items. It isn't inlined, so that a call that continues inside an item has no list in its stack frame.
    #[inline(never)]
    fn take_items(&mut self, alloc: Global) -> Seq<P::Value>
        ensures { result ≡ self.old.items.items }
    {
        Seq::from_vec(mem::replace(&mut self.items, Vec::new(alloc)))
    }
}

/// Begins a list in a piece, and stores what has arrived of it if it isn't complete. It isn't inlined, so that fields
/// that are no list have no such part in their stack frame.
#[inline(never)]
pub(crate) fn enter_list<P: Item, S: Slot<Seq<P::Value>>, V: Drop, F: FnOnce(PartialList<P>) -> V>(
    slot: &mut S,
    next: &mut Option<Step<V>>,
    held: F,
    alloc: Global,
    piece: &mut Cursor<'_>,
) -> Decoded<Arrival>
    requires callable { F.IsAlwaysCallable held }
    ensures continues { Enlists
        (record {
          holding = S.holding;
          reads = list_of wire STRUCT P.reads;
          resumes = λ p. list_from P.reads P.Partial.resumes
              (list_state p.items.items p.left p.head p.one);
        })
        (F.post held)
        (record {
          slot = record { before = slot.old; after = slot.new; piece = piece.old; left = piece.new };
          next = next.new;
        })
        result }
    ensures no_longer { OnOk result (length piece.new ≤ length piece.old) }
{
    // For the prover: the match takes the cases of the clause `continues` apart.
    match PartialList::begin(slot, alloc, piece) {
        Err(error) => Err(error),
        Ok(None) => Ok(Arrival::Complete),
        Ok(Some(part)) => {
            hold_next(next, Step::Value(held(part)));
            Ok(Arrival::Pending)
        }
    }
}
