//! Counts of the response bytes that wait for clients to take them.

ghost use Rattle.std.specs.Prelude.{◌≡◌, ◌+◌, ◌-◌, ◌^◌, min};

/// How many response bytes wait to be written.
#[derive(Clone, Copy, Debug, PartialEq, Eq)]
pub struct WaitingBytes {
    /// All of them.
    pub all: usize,
    /// Those that are in memory as text, with the room of their pages. What isn't made yet mostly takes about a tenth of
    /// its bytes.
    pub made: usize,
}

impl WaitingBytes {
    /// Counts nothing.
    pub const NONE: WaitingBytes = WaitingBytes { all: 0, made: 0 };

    /// Returns these counts and others together. A sum stays at the greatest number.
    pub fn and(self, other: WaitingBytes) -> WaitingBytes
        ensures all { result.all ≡ min (self.all + other.all) (2 ^ 64 - 1) }
        ensures made { result.made ≡ min (self.made + other.made) (2 ^ 64 - 1) }
    {
        WaitingBytes {
            all: self.all.saturating_add(other.all),
            made: self.made.saturating_add(other.made),
        }
    }

    /// Returns these counts without others. A difference stays at 0.
    pub fn without(self, other: WaitingBytes) -> WaitingBytes
        ensures all { result.all ≡ self.all - other.all }
        ensures made { result.made ≡ self.made - other.made }
    {
        WaitingBytes {
            all: self.all.saturating_sub(other.all),
            made: self.made.saturating_sub(other.made),
        }
    }
}
