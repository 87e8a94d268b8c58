//! Writes the ids of traces and spans.
ghost use Rattle.std.specs.Prelude.{[], ◌∷◌, ◌++◌};
ghost use Rattle.serde_json.specs.Data.{string};
ghost use Rattle.jaeger_model.specs.Ids.{low_digits, span_text};
ghost use Rattle.json_page.specs.Page.{Puts};
ghost use Rattle.answer_trees.specs.Trees.{id_tree};

use super::WriteJson;
use jaeger_model::{SpanId, TraceId};
use json_page::Page;

impl WriteJson for SpanId {
    ghost tree = { λ id. string (span_text id) };

    fn write(&self, out: &mut Page) {
        out.push_quoted_hex(self.0);
    }
}

/// Writes an id whose high half isn't 0.
fn write_both(out: &mut Page, id: TraceId)
    ensures { Puts out.old out.new
        (34 ∷ ((low_digits 16 id.high ++ low_digits 16 id.low) ++ 34 ∷ [])) }
{
    out.push_str("\"");
    out.push_hex_of_number(id.high);
    out.push_hex_of_number(id.low);
    out.push_str("\"");
}

impl WriteJson for TraceId {
    ghost tree = { id_tree };

    fn write(&self, out: &mut Page) {
        if self.high == 0 {
            out.push_quoted_hex(self.low);
            return;
        }
        write_both(out, *self);
    }
}
