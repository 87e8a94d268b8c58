ghost use Rattle.std.specs.Prelude.{◌≡◌};
ghost use Rattle.arrival_journal.specs.Outlines.{outline_of};

use crate::tagging::{TagBits, bits_brought};
use crate::times::Times;
use trace_model::Work;

/// What is known of an entry without reading its spans.
#[derive(Clone, Copy, Debug, PartialEq, Eq)]
pub struct Outline {
    /// Bounds of the starts and durations of its spans.
    pub times: Times,
    /// The bits of the tags of its process, of its spans and of their logs. If the bit at a tag's
    /// [`tag_place`](crate::tag_place) is not set, the entry doesn't have that tag.
    pub tags: TagBits,
}

impl Outline {
    /// Computes the outline of an entry that brings this; a limit has no spans and no tags.
    #[tactic(auto, unfolding(crate::specs::Outlines::outline_of))]
    pub(crate) fn of(work: &Work) -> Self
        ensures { result ≡ outline_of work.now }
    {
        Outline {
            times: Times::of(work.spans()),
            tags: bits_brought(work),
        }
    }
}
