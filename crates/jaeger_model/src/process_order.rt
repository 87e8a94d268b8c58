ghost use Rattle.std.specs.Prelude.{◌≡◌, Some, refl};
ghost use Rattle.std.specs.Ordering.{on};
ghost use Rattle.std.specs.Cmp.{on_equiv, on_per, on_po, on_total, partial_equiv_from_equiv};
ghost use Rattle.std.specs.Cmp.Lexicographic.{slice_cmp};
ghost use Rattle.jaeger_model.specs.Sameness.{same_process};
ghost use Rattle.jaeger_model.specs.ProcessOrder.{content, number, process_cmp, rank, tag_cmp};
ghost use Rattle.jaeger_model.specs.ProcessOrderLaws.{process_equiv, process_po, process_ties, process_total};

use crate::batch::Process;
use crate::tag::Tag;
use crate::tag_value::{TagValue, ValueRef};
use std::cmp::Ordering;

/// Returns what a value is ordered by: its type, the number that it is or represents, and its bytes.
fn parts_of(value: &TagValue) -> (u8, i64, &[u8])
    ensures rank { result.0 ≡ rank value.now }
    ensures number { result.1 ≡ number value.now }
    ensures content { result.2.now ≡ content value.now }
{
    match value.get() {
        ValueRef::Text(text) => (0, 0, text.as_bytes()),
        ValueRef::Double(bytes) => (1, 0, bytes),
        ValueRef::Bool(flag) => (2, i64::from(flag), &[]),
        ValueRef::Long(number) => (3, number, &[]),
        ValueRef::Bytes(bytes) => (4, 0, bytes),
    }
}

/// What a tag is ordered by.
#[derive(PartialEq, Eq, PartialOrd, Ord, Drop)]
struct TagKey<'a> {
    key: &'a str,
    rank: u8,
    number: i64,
    content: &'a [u8],
}

fn key_of(tag: &Tag) -> TagKey<'_>
    ensures key { result.key.now ≡ tag.now.key }
    ensures rank { result.rank ≡ rank tag.now.value }
    ensures number { result.number ≡ number tag.now.value }
    ensures content { result.content.now ≡ content tag.now.value }
{
    let (rank, number, content) = parts_of(&tag.value);
    TagKey {
        key: tag.key.as_str(),
        rank,
        number,
        content,
    }
}

fn compare_tags(tag: &Tag, other: &Tag) -> Ordering
    ensures { result ≡ tag_cmp tag.now other.now }
{
    key_of(tag).cmp(&key_of(other))
}

fn compare_all_tags(tags: &[Tag], others: &[Tag]) -> Ordering
    ensures { result ≡ slice_cmp tag_cmp tags.now others.now }
{
    let mut others = others.iter();
    for tag in tags {
        let Some(other) = others.next() else {
            return Ordering::Greater;
        };
        let order = compare_tags(tag, other);
        if order.is_ne() {
            return order;
        }
    }
    match others.next() {
        Some(_) => Ordering::Less,
        None => Ordering::Equal,
    }
}

fn compare(process: &Process, other: &Process) -> Ordering
    ensures { result ≡ process_cmp process.now other.now }
{
    match process.service.cmp(&other.service) {
        Ordering::Equal => compare_all_tags(process.tags.as_slice(), other.tags.as_slice()),
        unequal => unequal,
    }
}

/// A process, ordered by its content.
#[derive(Clone, Copy)]
pub struct ByContent<'a>(pub &'a Process);

impl PartialEq for ByContent<'_> {
    ghost eq = { λ x y. same_process x.0.now y.0.now };

    ghost laws = { on_per (λ x. x.0.now) (partial_equiv_from_equiv process_equiv) };

    fn eq(&self, other: &Self) -> bool {
        self.0 == other.0
    }
}

impl Eq for ByContent<'_> {
    ghost laws = { on_equiv (λ x. x.0.now) process_equiv };
}

impl PartialOrd for ByContent<'_> {
    ghost partial_cmp = { λ x y. Some (process_cmp x.0.now y.0.now) };

    ghost laws = { on_po (λ x. x.0.now) process_po };

    fn partial_cmp(&self, other: &Self) -> Option<Ordering> {
        Some(self.cmp(other))
    }
}

impl Ord for ByContent<'_> {
    ghost cmp = { λ x y. process_cmp x.0.now y.0.now };

    ghost total = { on_total (λ x. x.0.now) process_total };

    ghost matches_partial_cmp = { λ x y. refl };

    ghost matches_eq = { λ x y. process_ties x.0.now y.0.now };

    fn cmp(&self, other: &Self) -> Ordering {
        compare(self.0, other.0)
    }
}
