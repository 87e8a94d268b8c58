//! Steps over one span, for the plain store and the store with indexes. They share most of them.
//!
//! * `references`: which reference of a span names its parent, and moving it to the front.
//! * `window`: whether a span starts in a window of time.
//! * `clock`: the host that a process names, and a span moved by the delta of its host's clock.
//! * `conditions`: whether a span meets a search's conditions on service, operation, duration and start.
//! * `warning`: the warnings about a span's clock skew.
//! * `skew`: arithmetic on times.
#![tactic(auto)]

mod clock;
mod conditions;
mod references;
mod skew;
mod warning;
mod window;

pub use clock::{all_unadjusted, host_named, shift, start_at, unadjusted};
pub use conditions::{
    duration_bound, has_service_and_operation, is_at_least, is_at_most, is_timed,
    meets_span_conditions,
};
pub use references::{parent_first, parent_place, with_parent_first};
pub use skew::{delta_between, moved_by, wide};
pub use warning::Warning;
pub use window::{is_in_window, may_be_in_window, micros};
