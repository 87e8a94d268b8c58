//! The first starts of the newest traces.
//!
//! The first start of a trace is that of its first span to arrive, and doesn't change while the trace stays.
//! First starts are kept in the order in which the traces were opened, in blocks with an upper bound each. So
//! the traces that start after some time are found without reading the others: a block is skipped if its bound
//! isn't later. Each block also has a range that contains the starts of all spans of its traces: if the range
//! doesn't overlap a window of time, none of them starts in it. All memory is allocated at the start: a push
//! allocates nothing and never fails, as long as there is room.
//!
//! * `starts`: the [`FirstStarts`].
//! * `bounds`: the bounds of blocks.
//! * `ranges`: the ranges of blocks, and the [`Window`] that they may overlap.
//! * `windows`: which traces may have a span in a window.
//! * `thresholds`: a time after which about a given number of traces start.

mod bounds;
mod ranges;
mod starts;
mod thresholds;
mod windows;

pub use ranges::Window;
pub use starts::FirstStarts;
