//! An observer of the calls that workers make to the store.

use std::sync::Wait;

/// Observes each call that a worker makes to the store, for tests that need two calls at the same time.
///
/// Workers are numbered from 0, and each worker's calls from 1. The last number repeats.
pub trait CallObserver {
    /// The worker is about to make the call.
    fn before<R: Wait>(&self, rt: &R, worker: u32, call: u64);

    /// The call has returned.
    fn after<R: Wait>(&self, rt: &R, worker: u32, call: u64);
}

/// Does nothing.
#[derive(Clone, Copy, Debug)]
pub struct NoObserver;

impl CallObserver for NoObserver {
    fn before<R: Wait>(&self, _rt: &R, _worker: u32, _call: u64) {}

    fn after<R: Wait>(&self, _rt: &R, _worker: u32, _call: u64) {}
}
