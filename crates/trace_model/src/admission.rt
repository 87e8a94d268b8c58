/// What became of an entry that a history did not refuse.
#[derive(Clone, Copy, Debug, PartialEq, Eq)]
pub enum Admission {
    /// It was added at the end.
    Added,
    /// Its batch was sent before and is at this place, so nothing was added.
    Resent { place: u64 },
}
