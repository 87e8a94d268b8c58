ghost use Rattle.std.specs.Prelude.{◌≡◌, ◌∷◌, [], List, ℕ, All, length, map, MatchOption, option_map};
ghost use Rattle.httparse.specs.Grammar.{trim_ows};
ghost use Rattle.httparse.specs.Spans.{header_bytes, IsHeaderWithin};
ghost use Rattle.jaeger_model.specs.Texts.{split_once};
ghost use Rattle.http_requests.specs.Fields.{same_name, values_of, has_token, have_token, all_are, AreValues};

use httparse::spans::HeaderSpan;
use std::marker::Model;

/// The fields of a head.
#[derive(Drop)]
pub(crate) struct Fields<'a> {
    bytes: &'a [u8],
    spans: &'a [HeaderSpan],
}

impl<'a> Model for Fields<'a> {
    ghost use Rattle.std.specs.Prelude.{List, ℕ, All, length, map};
    ghost use Rattle.httparse.specs.Spans.{header_bytes, IsHeaderWithin};

    ghost Value = { List (List ℕ × List ℕ) };

    ghost view = { λ s. map (header_bytes s.bytes.now) s.spans.now };

    ghost invariant = { λ s. All (IsHeaderWithin (length s.bytes.now)) s.spans.now };
}

/// The values of the fields of one name.
#[derive(Clone, Copy)]
pub(crate) enum Values<'a> {
    None,
    One(&'a [u8]),
    Many,
}

/// Returns whether the name is the wanted one, in any ASCII case.
pub(crate) fn is_named(name: &[u8], wanted: &str) -> bool
    ensures { result ≡ same_name name.now wanted.now }
{
    name.eq_ignore_ascii_case(wanted.as_bytes())
}

/// Returns the bytes without spaces and tabs at both ends.
#[tactic(auto, unfolding(httparse::specs::Grammar::trim_ows))]
pub(crate) fn trimmed(bytes: &[u8]) -> &[u8]
    ensures { result.now ≡ trim_ows bytes.now }
{
    let mut rest = bytes;
    while let [b' ' | b'\t', more @ ..] = rest {
        rest = more;
    }
    while let [more @ .., b' ' | b'\t'] = rest {
        rest = more;
    }
    rest
}

/// Splits the bytes at the first byte equal to `at`, which is in neither part.
pub(crate) fn split_once(bytes: &[u8], at: u8) -> Option<(&[u8], &[u8])>
    ensures { option_map (λ p. (p.0.now, p.1.now)) result ≡ split_once at bytes.now }
{
    for place in 0..bytes.len() {
        if bytes[place] == at {
            return Some((&bytes[..place], &bytes[place + 1..]));
        }
    }
    None
}

/// Returns whether some item of a comma-separated list is the token, in any ASCII case.
#[tactic(auto, using(crate::proofs::Cuts::more_items, crate::proofs::Cuts::last_item))]
pub(crate) fn has_token(list: &[u8], token: &str) -> bool
    ensures { result ≡ has_token token.now list.now }
{
    let mut rest = list;
    while let Some((item, more)) = split_once(rest, b',') {
        if is_named(trimmed(item), token) {
            return true;
        }
        rest = more;
    }
    is_named(trimmed(rest), token)
}

impl<'a> Fields<'a> {
    /// Creates the fields whose names and values the spans cover.
    pub(crate) fn new(bytes: &'a [u8], spans: &'a [HeaderSpan]) -> Self
        requires { All (IsHeaderWithin (length bytes.now)) spans.now }
        ensures { result ≡ map (header_bytes bytes.now) spans.now }
    {
        Fields { bytes, spans }
    }

    /// Returns the values of the fields with this name.
    pub(crate) fn values(&self, name: &str) -> Values<'a>
        ensures { AreValues result (values_of name.now self.now) }
    {
        let mut found = Values::None;
        for span in self.spans {
            if is_named(span.name.of(self.bytes), name) {
                if let Values::One(_) = found {
                    return Values::Many;
                }
                found = Values::One(span.value.of(self.bytes));
            }
        }
        found
    }

    /// Returns the value of the first field with this name.
    pub(crate) fn first(&self, name: &str) -> Option<&'a [u8]>
        ensures { MatchOption result (values_of name.now self.now ≡ [])
            (λ v. (more : List (List ℕ)) × (values_of name.now self.now ≡ v.now ∷ more)) }
    {
        for span in self.spans {
            if is_named(span.name.of(self.bytes), name) {
                return Some(span.value.of(self.bytes));
            }
        }
        None
    }

    /// Returns whether some field with this name has the token in its list.
    pub(crate) fn have_token(&self, name: &str, token: &str) -> bool
        ensures { result ≡ have_token name.now token.now self.now }
    {
        for span in self.spans {
            if is_named(span.name.of(self.bytes), name)
                && has_token(span.value.of(self.bytes), token)
            {
                return true;
            }
        }
        false
    }

    /// Returns whether every field with this name has exactly this value.
    pub(crate) fn all_are(&self, name: &str, value: &str) -> bool
        ensures { result ≡ all_are name.now value.now self.now }
    {
        for span in self.spans {
            if is_named(span.name.of(self.bytes), name)
                && span.value.of(self.bytes) != value.as_bytes()
            {
                return false;
            }
        }
        true
    }
}
