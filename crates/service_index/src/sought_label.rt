//! The label to find, and the numbers whose labels are searched.

ghost use Rattle.std.specs.Prelude.{◌≡◌};
ghost use Rattle.service_index.specs.Labels.{label_value};
ghost use Rattle.service_index.specs.Probes.{hash_of};

use crate::labels::{Label, Labels, is_label};
use hash_tables::Sought;
use std::hash::{BuildHasher, Hash, Hasher, RandomState};

/// Returns the hash of a label whose parts are delimited.
pub(crate) fn label_hash(keys: RandomState, label: Label<'_>) -> u64
    ensures { result ≡ hash_of keys (label_value label.entry) }
{
    let mut state = keys.build_hasher();
    label.service_number.hash(&mut state);
    label.name.hash(&mut state);
    label.kind.hash(&mut state);
    state.finish()
}

/// The label to find, and the numbers whose labels are searched.
#[derive(Drop)]
pub(crate) struct SoughtLabel<'a, L> {
    pub(crate) keys: RandomState,
    pub(crate) labels: &'a L,
    pub(crate) numbers: &'a [u32],
    pub(crate) label: Label<'a>,
}

impl<'a, L: Labels> Sought for SoughtLabel<'a, L> {
    ghost use Rattle.std.specs.Prelude.{map, get_or};
    ghost use Rattle.service_index.specs.Labels.{label_value, same_label};
    ghost use Rattle.service_index.specs.Probes.{AreNumbersBelow, hashes_of};

    ghost can_read = { λ s. AreNumbersBelow (L.labels s.labels.now).count s.numbers.now };

    ghost hashes = { λ s. hashes_of s.keys (map (L.labels s.labels.now).at s.numbers.now) };

    ghost is_sought = { λ s row. same_label ((L.labels s.labels.now).at (get_or s.numbers.now row 0))
        (label_value s.label) };

    fn rows(&self) -> usize {
        self.numbers.len()
    }

    fn hash_at(&self, row: usize) -> u64 {
        label_hash(self.keys, self.labels.label_at(self.numbers[row]))
    }

    fn is_sought(&self, row: usize) -> bool {
        is_label(self.labels, self.numbers[row], self.label)
    }
}
