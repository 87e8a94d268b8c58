//! Writes the text of trees without building them.
//!
//! * `values`: tags, references, operations and links.
//! * `ids`: the ids of traces and spans.
//! * `processes`: the processes of a trace, and their names.
//! * `span`: a span with its logs and its warning.
//! * `trace`: a trace with its spans.
//! * `answer`: the text around an answer's items, and errors.
ghost use Rattle.std.specs.Prelude.{◌≡◌, ◌<◌, List, get_or, length, map};
ghost use Rattle.serde_json.specs.Data.{Data, null, string};
ghost use Rattle.serde_json.specs.Written.{compact_text};
ghost use Rattle.json_page.specs.Page.{Puts};
ghost use Rattle.query_json.specs.Runs.{separator};
ghost use Rattle.answer_trees.specs.Trees.{list};

mod answer;
mod ids;
mod processes;
mod span;
mod trace;
mod values;

pub(crate) use answer::{begin_items, end_items, write_error};
use json_page::Page;
pub(crate) use trace::TraceItem;
use trace_model::Name;

/// A value that an answer shows as one JSON tree, and that can be written without that tree.
pub(crate) trait WriteJson {
    ghost tree: { Self → Data };

    /// Writes the compact text of the tree.
    fn write(&self, out: &mut Page)
        ensures { Puts out.old out.new (compact_text (tree self.now)) };
}

/// Items that are written as one list, each by its index.
pub(crate) trait WriteItems {
    ghost trees: { Self → List Data };

    /// Returns the number of items.
    fn count(&self) -> usize
        ensures { result ≡ length (trees self.now) };

    /// Writes the item at the index.
    fn write_item(&self, out: &mut Page, index: usize)
        requires { index < length (trees self.now) }
        ensures { Puts out.old out.new (compact_text (get_or (trees self.now) index null)) };
}

impl<T: WriteJson> WriteItems for &[T] {
    ghost trees = { λ items. map T.tree items.now };

    fn count(&self) -> usize {
        self.len()
    }

    fn write_item(&self, out: &mut Page, index: usize) {
        self[index].write(out);
    }
}

/// Writes the separator between an item of a list and the one before it.
pub(crate) fn write_separator(out: &mut Page, item: usize)
    ensures { Puts out.old out.new (separator item) }
{
    if item > 0 {
        out.push_str(",");
    }
}

/// Writes the items as one list.
fn write_list<L: WriteItems + Drop>(out: &mut Page, items: L)
    ensures { Puts out.old out.new (compact_text (list (L.trees items))) }
{
    let count = items.count();
    if count == 0 {
        out.push_str("[]");
        return;
    }
    out.push_str("[");
    items.write_item(out, 0);
    for index in 1..count {
        out.push_str(",");
        items.write_item(out, index);
    }
    out.push_str("]");
}

impl WriteJson for Name {
    ghost tree = { λ n. string n };

    fn write(&self, out: &mut Page) {
        out.push_quoted(self.as_str());
    }
}
