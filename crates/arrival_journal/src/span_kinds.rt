//! The kinds of the first spans of an entry.

ghost use Rattle.std.specs.Prelude.{◌≡◌, ◌<◌, [], ◌∷◌, ◌++◌, length, map};
ghost use Rattle.jaeger_model.specs.Kinds.{kind_text};
ghost use Rattle.arrival_journal.specs.KindTexts.{first_kinds};

use jaeger_model::{Kind, Span};
use std::marker::Model;

/// The kinds of the first spans of an entry. They are computed once and stored in its record, so that applying the
/// entry reads no tags of these spans. Contracts see the kinds as texts.
#[derive(Drop)]
pub struct SpanKinds {
    kinds: [Kind; SpanKinds::MAX_KINDS],
    len: u8,
}

impl Model for SpanKinds {
    ghost use Rattle.std.specs.Prelude.{List, ℕ, ◌≤◌, map, take};
    ghost use Rattle.jaeger_model.specs.Kinds.{kind_text};

    ghost Value = { List (List ℕ) };

    ghost view = { λ s. map kind_text (take s.len s.kinds) };

    ghost invariant = { λ s. s.len ≤ 32 };
}

impl SpanKinds {
    /// The greatest number of spans whose kinds are stored. Clauses write it out on purpose.
    const MAX_KINDS: usize = 32;

    /// Returns the kinds of no span.
    fn none() -> Self
        ensures { result ≡ [] }
    {
        SpanKinds {
            kinds: [Kind::Unset; SpanKinds::MAX_KINDS],
            len: 0,
        }
    }

    /// Appends a kind.
    fn push(&mut self, kind: Kind)
        requires { length self.old < 32 }
        ensures { self.new ≡ self.old ++ kind_text kind ∷ [] }
    {
        self.kinds[self.len as usize] = kind;
        self.len += 1;
    }

    /// Computes the kinds of the first of these spans.
    pub(crate) fn of(spans: &[Span]) -> Self
        ensures { result ≡ first_kinds spans.now }
    {
        let mut kinds = SpanKinds::none();
        let first = &spans[..SpanKinds::MAX_KINDS.min(spans.len())];
        for span in first {
            kinds.push(Kind::of(span));
        }
        kinds
    }

    /// Returns a copy. `Copy` can't be derived for a type whose `Model` has no inverse.
    pub fn duplicate(&self) -> Self
        ensures { result ≡ self.now }
    {
        SpanKinds {
            kinds: self.kinds,
            len: self.len,
        }
    }

    /// Returns the kinds, in the order of the spans.
    pub fn as_slice(&self) -> &[Kind]
        ensures { map kind_text result.now ≡ self.now }
    {
        &self.kinds[..usize::from(self.len)]
    }
}
