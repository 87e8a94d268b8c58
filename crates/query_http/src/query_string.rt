ghost use Rattle.std.specs.Prelude.{◌≡◌, ◌++◌, ℕ, List, IfOk, map, option_copied, option_map, string_bytes};
ghost use Rattle.jaeger_model.specs.Texts.{split_once};
ghost use Rattle.query_http.specs.QueryStrings.{pairs_of, is_given, parameter, given_values, question_mark, colon};

use std::alloc::{AllocError, Global};
use std::marker::Model;

/// A name with its value, both decoded.
#[derive(Debug, Drop)]
pub(crate) struct Pair {
    name: String,
    value: String,
}

impl Model for Pair {
    ghost use Rattle.std.specs.Prelude.{List, ℕ, string_bytes};

    ghost Value = { List ℕ × List ℕ };

    ghost view = { λ s. (string_bytes s.name, string_bytes s.value) };
}

impl Pair {
    /// Returns the decoded value.
    pub(crate) fn value(&self) -> &str
        ensures { result.now ≡ self.now.1 }
    {
        self.value.as_str()
    }

    /// Returns whether it has this name and a value that isn't empty.
    pub(crate) fn is_given(&self, name: &str) -> bool
        ensures { result ≡ is_given name.now self.now }
    {
        self.name.as_str() == name && !self.value.is_empty()
    }
}

/// Splits a text at its first `?`.
pub(crate) fn split_query(target: &str) -> Option<(&str, &str)>
    ensures { option_map (λ p. (p.0.now, p.1.now)) result ≡ split_once question_mark target.now }
{
    target.split_once('?')
}

/// Splits a text at its first colon.
pub(crate) fn split_tag(tag: &str) -> Option<(&str, &str)>
    ensures { option_map (λ p. (p.0.now, p.1.now)) result ≡ split_once colon tag.now }
{
    tag.split_once(':')
}

/// Decodes a query string, as `application/x-www-form-urlencoded`, into pairs of name and value.
///
/// # Errors
///
/// Out of memory, and nothing else.
pub(crate) fn query_pairs(alloc: Global, query_string: &[u8]) -> Result<Vec<Pair>, AllocError>
    ensures { IfOk result (λ v. v.items ≡ pairs_of query_string.now) }
{
    let mut all = Vec::new(alloc);
    for (name, value) in form_urlencoded::raw_pairs(query_string) {
        let name = form_urlencoded::decode(alloc, name)?.into_owned(alloc)?;
        let value = form_urlencoded::decode(alloc, value)?.into_owned(alloc)?;
        all.push(Pair { name, value })?;
    }
    Ok(all)
}

/// Returns the value of the first pair of that name, or `None` if it is empty or there is no such pair.
pub(crate) fn find_parameter<'a>(pairs: &'a [Pair], name: &str) -> Option<&'a str>
    ensures { option_copied result ≡ parameter name.now pairs.now }
{
    for pair in pairs {
        if pair.name.as_str() == name {
            let value = pair.value.as_str();
            return if value.is_empty() { None } else { Some(value) };
        }
    }
    None
}
