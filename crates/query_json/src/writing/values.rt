//! Writes tags, references, operations and links.
ghost use Rattle.std.specs.Prelude.{◌≡◌, ◌∷◌, ◌++◌, codes, map};
ghost use Rattle.json.specs.Print.{quoted};
ghost use Rattle.serde_json.specs.Written.{compact_text};
ghost use Rattle.jaeger_model.specs.Tags.{flag_text};
ghost use Rattle.json_page.specs.Page.{Puts};
ghost use Rattle.query_json.specs.Tags.{after_tag, behind_key, from_key};
ghost use Rattle.answer_trees.specs.Trees.{kind_name, link_tree, list, operation_tree, reference_tree, tag_tree};

use super::WriteJson;
use jaeger_model::{RefKind, SpanRef, Tag, TagValue, ValueRef};
use json_page::Page;
use trace_model::{Link, Operation};

/// What follows a tag in a list of tags. It is written together with the end of the tag's text.
#[derive(Clone, Copy)]
enum AfterTag {
    /// The separator, and the next tag up to its key.
    Next,
    /// The end of the list.
    End,
}

impl AfterTag {
    /// Writes the end of a tag whose value is a string, and what follows the tag.
    #[inline]
    fn close_string(self, out: &mut Page)
        ensures { Puts out.old out.new (34 ∷ 125 ∷ after_tag self) }
    {
        match self {
            AfterTag::Next => out.push_str(r#""},{"key":""#),
            AfterTag::End => out.push_str(r#""}]"#),
        }
    }

    /// Writes the end of any other tag, and what follows the tag.
    #[inline]
    fn close(self, out: &mut Page)
        ensures { Puts out.old out.new (125 ∷ after_tag self) }
    {
        match self {
            AfterTag::Next => out.push_str(r#"},{"key":""#),
            AfterTag::End => out.push_str("}]"),
        }
    }
}

/// Returns the text of a boolean value after the key of its tag.
fn typed_flag(flag: bool) -> &'static str
    ensures { result.now ≡ codes "\",\"type\":\"bool\",\"value\":" ++ flag_text flag }
{
    if flag {
        r#"","type":"bool","value":true"#
    } else {
        r#"","type":"bool","value":false"#
    }
}

/// Writes a tag after its key: the quote after the key, the type and the value; then what follows the tag.
fn write_typed(out: &mut Page, value: &TagValue, after: AfterTag)
    ensures { Puts out.old out.new (behind_key value.now ++ after_tag after) }
{
    match value.get() {
        ValueRef::Text(text) => {
            out.push_str(r#"","type":"string","value":""#);
            out.push_escaped(text);
            after.close_string(out);
        }
        ValueRef::Double(bytes) => {
            out.push_str(r#"","type":"float64","value":""#);
            out.push_hex_of_eight(bytes);
            after.close_string(out);
        }
        ValueRef::Bool(flag) => {
            out.push_str(typed_flag(flag));
            after.close(out);
        }
        ValueRef::Long(number) => {
            out.push_str(r#"","type":"int64","value":"#);
            out.push_signed(number);
            after.close(out);
        }
        ValueRef::Bytes(bytes) => {
            out.push_str(r#"","type":"binary","value":""#);
            out.push_hex(bytes);
            after.close_string(out);
        }
    }
}

/// Writes a tag from its key on; then what follows the tag.
fn write_from_key(out: &mut Page, tag: &Tag, after: AfterTag)
    ensures { Puts out.old out.new (from_key tag.now ++ after_tag after) }
{
    out.push_escaped(tag.key.as_str());
    write_typed(out, &tag.value, after);
}

/// Writes tags as one list.
pub(super) fn write_tags(out: &mut Page, tags: &[Tag])
    ensures { Puts out.old out.new (compact_text (list (map tag_tree tags.now))) }
{
    if tags.is_empty() {
        out.push_str("[]");
        return;
    }
    let last = tags.len() - 1;
    out.push_str(r#"[{"key":""#);
    for index in 0..last {
        write_from_key(out, &tags[index], AfterTag::Next);
    }
    write_from_key(out, &tags[last], AfterTag::End);
}

/// Returns the text of a reference up to the id of the span.
fn reference_start(kind: RefKind) -> &'static str
    ensures { result.now ≡
        (codes "{\"refType\":" ++ quoted (kind_name kind)) ++ codes ",\"spanID\":" }
{
    match kind {
        RefKind::ChildOf => r#"{"refType":"CHILD_OF","spanID":"#,
        RefKind::FollowsFrom => r#"{"refType":"FOLLOWS_FROM","spanID":"#,
    }
}

impl WriteJson for SpanRef {
    ghost tree = { reference_tree };

    fn write(&self, out: &mut Page) {
        out.push_str(reference_start(self.kind));
        self.id.write(out);
        out.push_str(r#","traceID":"#);
        self.trace.write(out);
        out.push_str("}");
    }
}

impl WriteJson for Operation {
    ghost tree = { operation_tree };

    fn write(&self, out: &mut Page) {
        out.push_str(r#"{"name":"#);
        out.push_quoted(self.name.as_str());
        out.push_str(r#","spanKind":"#);
        out.push_quoted(self.kind.as_str());
        out.push_str("}");
    }
}

impl WriteJson for Link {
    ghost tree = { link_tree };

    fn write(&self, out: &mut Page) {
        out.push_str(r#"{"callCount":"#);
        out.push_unsigned(self.calls);
        out.push_str(r#","child":"#);
        out.push_quoted(self.child.as_str());
        out.push_str(r#","parent":"#);
        out.push_quoted(self.parent.as_str());
        out.push_str("}");
    }
}
