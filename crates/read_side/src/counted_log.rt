//! A list that only grows at its end, and that only its owner adds to.
ghost use Rattle.std.specs.Prelude.{◌≡◌, ◌<◌, ◌^◌, [], length};
ghost use mathlib.Core.List.{IsPrefix};
ghost use Rattle.logbook.specs.Pages.{may_write};
ghost use Rattle.read_side.specs.CountedLogs.{with_item};
ghost use Rattle.read_side.specs.LogSteps.{first_word, LacksKey};

use crate::log_steps::{
    AddLink, KeyRule, Link, LinkRule, LookAtAll, MakeWord, NewLink, NoLink, NoTrade,
};
use logbook::{Offer, Pen, Seen, Start, Word};
use std::marker::Model;

/// A prefix of a list, which was seen. It has no size.
#[derive(Drop)]
pub struct SeenLog<T> {
    seen: Seen<Link<T>, u64, LinkRule>,
    /// The key of the first link.
    first: Seen<u64, u64, KeyRule>,
}

impl<T> Model for SeenLog<T> {
    ghost use Rattle.read_side.specs.CountedLogs.{SeenValue};
    ghost use Rattle.read_side.specs.LogSteps.{items_from, book_at, key_in};

    ghost Value = { SeenValue T };

    ghost view = { λ s. record { book = book_at s.seen.book s.first.log; log = items_from (key_in s.first.log) s.seen.log } };
}

impl<T> SeenLog<T> {
    /// Returns a copy.
    pub fn duplicate(&self) -> SeenLog<T>
        ensures { result ≡ self.now }
    {
        SeenLog {
            seen: self.seen.again(),
            first: self.first.again(),
        }
    }

    /// Learns what the other one has seen of the same list. What either had seen is a prefix of what it has seen then.
    pub fn learn(&mut self, other: &SeenLog<T>)
        requires { other.now.book ≡ self.old.book }
        ensures book { self.new.book ≡ self.old.book }
        ensures own { IsPrefix self.old.log self.new.log }
        ensures other { IsPrefix other.now.log self.new.log }
    {
        self.seen.learn(&other.seen);
    }
}

/// A list, and the right by which its one owner adds to it. At run time it is its length and a few words of fixed size:
/// no item is stored, and only contracts know them.
#[derive(Drop)]
pub struct CountedLog<T> {
    /// The word that each step goes through. Its number means nothing.
    head: Word<Link<T>, u64, LinkRule>,
    seen: Seen<Link<T>, u64, LinkRule>,
    /// The key of the first link.
    first: Seen<u64, u64, KeyRule>,
    /// The pen for the next link's word. Nobody else has it, so that nobody else can add a link.
    pen: Pen,
    len: u64,
}

impl<T> Model for CountedLog<T> {
    ghost use Rattle.read_side.specs.CountedLogs.{LogValue};
    ghost use Rattle.read_side.specs.LogSteps.{items_from, book_at, key_in, IsOwned};

    ghost Value = { LogValue T };

    ghost view = { λ l. record { book = book_at l.seen.book l.first.log; items = items_from (key_in l.first.log) l.seen.log } };

    ghost invariant = { λ l. IsOwned record {
      head = l.head;
      book = l.seen.book;
      log = l.seen.log;
      first_key = key_in l.first.log;
      pen_book = l.pen.book;
      pen = l.pen.nib;
      len = l.len;
    } };
}

/// An empty list.
#[derive(Drop)]
pub struct EmptyLog<T> {
    pub log: CountedLog<T>,
    pub ghost empty: { log.items ≡ [] },
}

impl<T> EmptyLog<T> {
    /// Makes an empty list.
    pub fn new() -> EmptyLog<T> {
        EmptyLog {
            log: CountedLog::start(),
        }
    }
}

/// Returns a new pen. No link that was seen has its key.
fn new_pen<T>(head: &Word<Link<T>, u64, LinkRule>, seen: &mut Seen<Link<T>, u64, LinkRule>) -> Pen
    requires { head.now ≡ first_word seen.old.book }
    ensures book { result.book ≡ seen.old.book }
    ensures right { result.nib.right ≡ may_write }
    ensures key { LacksKey result.nib.key seen.new.log }
    ensures seen { seen.new.book ≡ seen.old.book }
{
    let mut offer: Offer<Link<T>, u64, LinkRule, NoTrade> = seen.plain::<NoTrade, NoLink, NoLink>(
        &NoLink,
    );
    let mut pen = seen.no_pen();
    head.compare_exchange::<MakeWord, NoTrade>(0, 0, seen, &mut offer, &mut pen);
    // Nobody reads the word: only the right to write it counts.
    let _word: Word<Link<T>, u64, LinkRule> = Word::tracked(0, &mut pen);
    pen
}

impl<T> CountedLog<T> {
    /// Takes an empty list over.
    pub fn new(empty: EmptyLog<T>) -> CountedLog<T>
        ensures { result ≡ record { book = empty.log.book; items = [] } }
    {
        empty.log
    }

    /// Starts a list in a book of its own.
    fn start() -> CountedLog<T>
        ensures { result.items ≡ [] }
    {
        let (mut seen, mut head_pen, _second) = Seen::open(Start::alone(), 0, 0);
        let head = Word::tracked(0, &mut head_pen);
        let pen = new_pen(&head, &mut seen);
        let (first, _none) = Seen::open_row::<Pen, KeyRule>(&pen, Start::alone(), 0);
        CountedLog {
            head,
            seen,
            first,
            pen,
            len: 0,
        }
    }

    /// Returns what was added so far, to be compared with what others have seen.
    pub fn seen(&self) -> SeenLog<T>
        ensures items { result.log ≡ self.now.items }
        ensures book { result.book ≡ self.now.book }
    {
        SeenLog {
            seen: self.seen.again(),
            first: self.first.again(),
        }
    }

    /// Returns the number of items.
    pub fn len(&self) -> u64
        ensures { result ≡ length self.now.items }
    {
        self.len
    }

    /// Appends an item. Allocates nothing.
    pub fn add(&mut self, item: &T)
        requires { length self.old.items < 2 ^ 62 }
        ensures { self.new ≡ with_item self.old item.now }
    {
        let next = new_pen(&self.head, &mut self.seen.again());
        let link = NewLink {
            item,
            pen: &self.pen,
            next: &next,
        };
        let mut offer: Offer<Link<T>, u64, LinkRule, NoTrade> = self
            .seen
            .plain::<NoTrade, NewLink<'_, T>, AddLink>(&link);
        self.head
            .compare_exchange::<AddLink, NoTrade>(0, 0, &mut self.seen, &mut offer, &mut self.pen);
        self.pen = next;
        self.len += 1;
    }

    /// Makes sure that what was seen of this list is a prefix of it, since only its owner adds to it. It changes
    /// nothing, and allocates nothing.
    pub fn includes(&mut self, seen: &SeenLog<T>)
        requires { seen.now.book ≡ self.old.book }
        ensures same { self.new ≡ self.old }
        ensures prefix { IsPrefix seen.now.log self.old.items }
    {
        let mut both = self.seen.again();
        both.learn(&seen.seen);
        let mut offer: Offer<Link<T>, u64, LinkRule, NoTrade> = both.plain::<
            NoTrade,
            NoLink,
            NoLink,
        >(&NoLink);
        self.head
            .compare_exchange::<LookAtAll, NoTrade>(0, 0, &mut both, &mut offer, &mut self.pen);
    }
}
