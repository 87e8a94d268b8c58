//! Writes the text around an answer's items, and errors.
ghost use Rattle.serde_json.specs.Written.{compact_text};
ghost use Rattle.json_page.specs.Page.{Puts};
ghost use Rattle.query_json.specs.AnswerTexts.{head_text, tail_text};
ghost use Rattle.answer_trees.specs.Trees.{error_tree};

use json_page::Page;

/// Writes the text before an answer's items.
pub(crate) fn begin_items(out: &mut Page)
    ensures { Puts out.old out.new head_text }
{
    out.push_str(r#"{"data":"#);
}

/// Writes the text after this number of items, with no errors.
pub(crate) fn end_items(out: &mut Page, total: usize)
    ensures { Puts out.old out.new (tail_text total) }
{
    out.push_str(r#","errors":null,"limit":0,"offset":0,"total":"#);
    out.push_unsigned(total as u64);
    out.push_str("}");
}

/// Writes an error: no data, and one error with the status and the message.
pub(crate) fn write_error(out: &mut Page, code: u16, msg: &str)
    ensures { Puts out.old out.new (compact_text (error_tree code msg.now)) }
{
    out.push_str(r#"{"data":null,"errors":[{"code":"#);
    out.push_unsigned(u64::from(code));
    out.push_str(r#","msg":"#);
    out.push_quoted(msg);
    out.push_str(r#"}],"limit":0,"offset":0,"total":0}"#);
}
