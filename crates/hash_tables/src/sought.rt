ghost use Rattle.std.specs.Prelude.{◌≡◌, ◌<◌, length, get_or};

/// The key to find, and the rows that are searched.
pub trait Sought {
    ghost use Rattle.std.specs.Prelude.{ℕ, List, Bool};

    /// The rows may be read.
    ghost can_read: { Self → Type 0 };

    /// The hash of each row.
    ghost hashes: { Self → List ℕ };

    /// Whether a row is sought.
    ghost is_sought: { Self → ℕ → Bool };

    /// Returns the number of rows.
    fn rows(&self) -> usize
        requires { can_read self.now }
        ensures { result ≡ length (hashes self.now) };

    /// Returns the hash of a row.
    fn hash_at(&self, row: usize) -> u64
        requires can_read { can_read self.now }
        requires row { row < length (hashes self.now) }
        ensures { result ≡ get_or (hashes self.now) row 0 };

    /// Returns whether a row is sought.
    fn is_sought(&self, row: usize) -> bool
        requires can_read { can_read self.now }
        requires row { row < length (hashes self.now) }
        ensures { result ≡ is_sought self.now row };
}
