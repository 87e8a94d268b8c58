//! The journal of one store: the accepted batches, in the order of their arrival.
//!
//! The list of entries is always legal: each entry's number is above every earlier number of its seat, no batch
//! with a `seqNo` is in it twice, and the counts of entries and of spans are within the limits. An entry that
//! would break this is refused, and changes nothing. All memory is allocated when a journal is made, so adding an
//! entry never fails because memory ran out. To judge and add an entry, no more is read than its seat's last number, the
//! counts, and the entries whose batches are near that of its hash in a table. No contract speaks of that cost.
//!
//! * `journal`: the [`Journal`].
//! * `outline`: what is known of an entry without reading its spans, its [`Outline`]. `span_kinds`: the kinds of
//!   its first spans. `record`: an entry with both and with the hash of its batch, a [`Record`].
//! * `times`: bounds of the starts and durations of an entry's spans.
//! * `tagging`: a bitmap of the tags that an entry may have.
//! * `seats`: the last numbers of seats.
#![tactic(auto)]

mod journal;
mod outline;
mod record;
mod seats;
mod span_kinds;
mod tagging;
mod times;

pub use journal::Journal;
pub use outline::Outline;
pub use record::Record;
pub use span_kinds::SpanKinds;
pub use tagging::{TagBits, no_bits, set_bit, tag_place};
pub use times::Times;
