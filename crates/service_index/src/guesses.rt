//! Guesses of the rows of labels.

ghost use Rattle.std.specs.Prelude.{◌<◌};

use crate::labels::Label;

/// The number of guesses.
const CLASSES: usize = 256;

/// A cache of the rows in which labels were last found. Labels fall into classes by their services' numbers, by the lengths of
/// their names and kinds and by three of their bytes; each class has one row.
#[derive(Drop)]
pub(crate) struct Guesses {
    rows: [u32; CLASSES],
}

/// Returns the byte at an index, or 0 past the end.
fn byte_at(bytes: &[u8], at: usize) -> usize
    ensures { result < 256 }
{
    bytes.get(at).copied().unwrap_or(0) as usize
}

/// Returns the class of a label. The factors are odd, so that labels which differ in one of the parts mostly have
/// different classes.
fn class_of(label: Label<'_>) -> usize
    ensures { result < 256 }
{
    let name = label.name.as_bytes();
    let middle = byte_at(name, name.len() / 2);
    let last = byte_at(name, name.len().saturating_sub(1));
    let kind = label.kind.as_bytes();
    let kind = kind.len() % CLASSES + byte_at(kind, 0);
    let service_number = label.service_number as usize % CLASSES;
    (name.len() % CLASSES + 17 * middle + 29 * last + 61 * service_number + 7 * kind) % CLASSES
}

impl Guesses {
    /// Makes an empty cache.
    pub(crate) fn new() -> Self {
        Guesses { rows: [0; CLASSES] }
    }

    /// Returns a guess of the row of a label.
    pub(crate) fn row(&self, label: Label<'_>) -> u32 {
        self.rows[class_of(label)]
    }

    /// Stores the row of a label.
    pub(crate) fn keep(&mut self, label: Label<'_>, row: u32) {
        self.rows[class_of(label)] = row;
    }
}
