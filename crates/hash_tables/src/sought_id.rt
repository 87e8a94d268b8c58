ghost use Rattle.std.specs.Prelude.{◌≡◌};
ghost use Rattle.hash_tables.specs.IdProbes.{hash_of};

use crate::sought::Sought;
use jaeger_model::TraceId;
use std::hash::{BuildHasher, Hasher, RandomState};

/// Returns the hash of an id.
pub(crate) fn id_hash(keys: RandomState, id: TraceId) -> u64
    ensures { result ≡ hash_of keys id }
{
    let mut state = keys.build_hasher();
    state.write_u64(id.high);
    state.write_u64(id.low);
    state.finish()
}

/// The id to find, and the ids that are searched.
#[derive(Drop)]
pub(crate) struct SoughtId<'a> {
    pub(crate) keys: RandomState,
    pub(crate) ids: &'a [TraceId],
    pub(crate) id: TraceId,
}

impl<'a> Sought for SoughtId<'a> {
    ghost use Rattle.jaeger_model.specs.Parents.{same_trace};
    ghost use Rattle.hash_tables.specs.IdRows.{id_at};
    ghost use Rattle.hash_tables.specs.IdProbes.{hashes_of};

    ghost can_read = { λ _. Unit {0} };

    ghost hashes = { λ s. hashes_of s.keys s.ids.now };

    ghost is_sought = { λ s row. same_trace (id_at s.ids.now row) s.id };

    fn rows(&self) -> usize {
        self.ids.len()
    }

    fn hash_at(&self, row: usize) -> u64 {
        id_hash(self.keys, self.ids[row])
    }

    fn is_sought(&self, row: usize) -> bool {
        self.ids[row] == self.id
    }
}
