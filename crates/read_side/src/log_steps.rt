//! The rule of a book whose log holds lists, and the steps by which the owner of a list adds to it.
//!
//! Each link of a list names the word that comes home with it and the word that will come home with the next one. The
//! owner has the pen for that next word: the right to write it, which only a word that isn't at home leaves to anybody.
//! So no link of the log has its key yet, and while the owner keeps the pen, nobody else can continue the list.

use logbook::{Gain, Opening, Pen, Plain, Play, Rule};

/// A link of a list, with an item or none: the key of the word that came home with it, and the key of the word that
/// comes home with the next link of the same list.
pub struct Link<T> {
    item: Option<T>,
    key: u64,
    next: u64,
}

/// The rule of the book: the words whose keys its links have are at home.
pub struct LinkRule;

impl<T> Rule<Link<T>, u64> for LinkRule {
    ghost use Rattle.std.specs.Prelude.{[]};
    ghost use base.Fml.{ftrue};
    ghost use Rattle.read_side.specs.LogSteps.{AreHome};

    ghost holds = { λ cells log. AreHome cells log };

    ghost first = { [] };

    ghost hinted = { λ n log. Unit {0} };

    ghost shows = { λ log. [] };

    ghost keeps = { λ names log. ftrue };

    ghost moves = { λ ask before after answer. Unit {0} };
}

/// The trade of each step: nothing.
pub struct NoTrade;

impl<T> Gain<Link<T>, u64> for NoTrade {
    ghost use base.Fml.{ftrue};

    ghost after = { λ names about answer. ftrue };
}

/// The step that makes a word which isn't at home.
pub struct MakeWord;

impl<T> Play<Link<T>, u64> for MakeWord {
    ghost use Rattle.read_side.specs.LogSteps.{MakesWord};

    ghost then = { MakesWord };
}

/// The step that adds a link.
pub struct AddLink;

impl<T> Play<Link<T>, u64> for AddLink {
    ghost use Rattle.read_side.specs.LogSteps.{AddsLink};

    ghost then = { AddsLink };
}

/// The step that looks at the whole log and changes nothing.
pub struct LookAtAll;

impl<T> Play<Link<T>, u64> for LookAtAll {
    ghost use Rattle.read_side.specs.LogSteps.{LooksAtAll};

    ghost then = { LooksAtAll };
}

/// What a step that adds a link asks for: an item, the pen that the link takes, and the pen for the next link.
#[derive(Drop)]
pub struct NewLink<'a, T> {
    pub item: &'a T,
    pub pen: &'a Pen,
    pub next: &'a Pen,
}

impl<'a, T> Plain<NewLink<'a, T>, Link<T>, u64> for AddLink {
    ghost use Rattle.std.specs.Prelude.{Some, None};

    ghost ask = { λ l. record { item = Some l.item.now; key = l.pen.now.nib.key; next = l.next.now.nib.key } };

    ghost state = { λ l. None };
}

/// What a step that adds no link asks for. No step reads it.
#[derive(Drop)]
pub struct NoLink;

impl<T> Plain<NoLink, Link<T>, u64> for NoLink {
    ghost use Rattle.std.specs.Prelude.{None};

    ghost ask = { λ l. record { item = None; key = 0; next = 0 } };

    ghost state = { λ l. None };
}

/// The rule of a book whose log is the key of a pen and never changes. It keeps a number that only proofs know.
pub struct KeyRule;

impl Rule<u64, u64> for KeyRule {
    ghost use Rattle.std.specs.Prelude.{[]};
    ghost use base.Fml.{ftrue};

    ghost holds = { λ cells log. Unit {0} };

    ghost first = { [] };

    ghost hinted = { λ n log. Unit {0} };

    ghost shows = { λ log. [] };

    ghost keeps = { λ names log. ftrue };

    ghost moves = { λ ask before after answer. Unit {0} };
}

impl Opening<Pen, u64> for KeyRule {
    ghost use Rattle.std.specs.Prelude.{[], ◌∷◌};

    ghost log = { λ count pen. pen.nib.key ∷ [] };
}
