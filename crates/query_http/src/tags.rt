ghost use Rattle.std.specs.Prelude.{◌≡◌, IfOk, codes, map};
ghost use Rattle.query_http.specs.ReadResults.{IsAsRead};
ghost use Rattle.query_http.specs.Queries.{tags_from, or_bad, texts_in, object_texts, tags_at};
ghost use Rattle.serde_json.specs.View.{view, members_view};
ghost use Rattle.serde_json.specs.Read.{read};
ghost use Rattle.query_http.specs.declared.fault.Parameter.TheVariants as bad;
ghost use Rattle.jaeger_model.specs.Texts.{split_once};
ghost use Rattle.query_http.specs.QueryStrings.{given_values, colon};

use crate::fault::{Parameter, QueryFault};
use crate::query_string::{Pair, find_parameter, split_tag};
use jaeger_model::{Seq, Text};
use serde_json::{Map, Value};
use std::alloc::{AllocError, Global};

/// Returns the values of all parameters `tag`.
fn tag_values<'a>(alloc: Global, pairs: &'a [Pair]) -> Result<Vec<&'a str>, AllocError>
    ensures { IfOk result (λ v. map (λ s. s.now) v.items ≡ given_values (codes "tag") pairs.now) }
{
    let mut values = Vec::new(alloc);
    for pair in pairs {
        if pair.is_given(Parameter::Tag.name()) {
            values.push(pair.value())?;
        }
    }
    Ok(values)
}

/// Splits a `tag` at its first colon into a key and a text.
fn read_tag(alloc: Global, tag: &str) -> Result<(Text, Text), QueryFault>
    ensures { IsAsRead (λ p. p) result (or_bad bad.Tag (split_once colon tag.now)) }
{
    let Some((key, value)) = split_tag(tag) else {
        return Err(QueryFault::Bad(Parameter::Tag));
    };
    Ok((Text::from_str(alloc, key)?, Text::from_str(alloc, value)?))
}

/// Returns the requested pairs of key and text of all parameters `tag`, in order, each split at its first colon.
fn single_tags(alloc: Global, tags: &[&str]) -> Result<Vec<(Text, Text)>, QueryFault>
    ensures { IsAsRead (λ v. v.items) result (tags_from (map (λ s. s.now) tags.now)) }
{
    let mut pairs = Vec::new(alloc);
    for tag in tags {
        pairs.push(read_tag(alloc, tag)?)?;
    }
    Ok(pairs)
}

/// Returns the members of an object if all of them are texts.
fn object_texts(
    alloc: Global,
    members: &Map<String, Value>,
) -> Result<Vec<(Text, Text)>, QueryFault>
    ensures { IsAsRead (λ v. v.items) result
        (or_bad bad.Tags (texts_in (members_view members.now.entries))) }
{
    let mut pairs = Vec::new(alloc);
    for (key, value) in members {
        let Some(value) = value.as_str() else {
            return Err(QueryFault::Bad(Parameter::Tags));
        };
        pairs.push((
            Text::from_str(alloc, key.as_str())?,
            Text::from_str(alloc, value)?,
        ))?;
    }
    Ok(pairs)
}

/// Parses a JSON text.
fn read_json(alloc: Global, text: &str) -> Result<Value, QueryFault>
    ensures { IsAsRead view result (or_bad bad.Tags (read text.now)) }
{
    Value::from_str(alloc, text).map_err(|fault| {
        if fault.is_memory() {
            QueryFault::NoMemory
        } else {
            QueryFault::Bad(Parameter::Tags)
        }
    })
}

/// Returns the requested pairs of the parameter `tags`, a JSON object of texts, in the order of its keys.
fn member_tags(alloc: Global, tags: &str) -> Result<Vec<(Text, Text)>, QueryFault>
    ensures { IsAsRead (λ v. v.items) result (or_bad bad.Tags (object_texts (read tags.now))) }
{
    let value = read_json(alloc, tags)?;
    let Some(members) = value.as_object() else {
        return Err(QueryFault::Bad(Parameter::Tags));
    };
    object_texts(alloc, members)
}

/// Returns all requested pairs of key and text: those of each `tag`, then those of `tags`.
#[tactic(auto, unfolding(crate::specs::Queries::tags_at))]
pub(crate) fn requested_tags(alloc: Global, pairs: &[Pair]) -> Result<Seq<(Text, Text)>, QueryFault>
    ensures { IsAsRead (λ v. v) result (tags_at pairs.now) }
{
    let values = tag_values(alloc, pairs)?;
    let mut tags = single_tags(alloc, &values)?;
    if let Some(members) = find_parameter(pairs, Parameter::Tags.name()) {
        let mut more = member_tags(alloc, members)?;
        tags.append(&mut more)?;
    }
    Ok(Seq::from_vec(tags))
}
