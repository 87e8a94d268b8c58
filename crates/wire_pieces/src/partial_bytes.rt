ghost use Rattle.std.specs.Prelude.{◌≡◌, ◌<◌, ◌≤◌, List, ℕ, [], ◌∷◌, ◌++◌, length, take, MatchOption};
ghost use Rattle.wire_pieces.specs.Pieces.{TakesBytes};

use std::marker::Model;
use thrift_binary::Cursor;

/// A buffer for N bytes; fewer have arrived. Contracts see those that have.
#[derive(Drop)]
pub struct PartialBytes<const N: usize> {
    bytes: [u8; N],
    len: usize,
}

impl<const N: usize> Model for PartialBytes<N> {
    ghost Value = { List ℕ };

    ghost view = { λ g. take g.len g.bytes };

    ghost invariant = { λ g. g.len < N };
}

impl<const N: usize> PartialBytes<N> {
    /// Returns the buffer before the first byte.
    #[inline]
    pub fn new() -> Self
        requires some { 0 < N }
        ensures nothing { result ≡ [] }
    {
        PartialBytes {
            bytes: [0; N],
            len: 0,
        }
    }

    #[inline]
    fn len(&self) -> usize
        ensures len { result ≡ length self.now }
        ensures short { length self.now < N }
    {
        self.len
    }

    /// Adds a byte. Returns all N bytes if it is the last one, and empties the buffer.
    #[inline]
    fn push(&mut self, byte: u8) -> Option<[u8; N]>
        ensures parts { MatchOption result (self.new ≡ self.old ++ byte ∷ [])
            (λ g. (g ≡ self.old ++ byte ∷ []) × (self.new ≡ [])) }
        ensures size { MatchOption result (length self.new < N) (λ g. length g ≡ N) }
    {
        self.bytes[self.len] = byte;
        if self.len + 1 < N {
            self.len += 1;
            return None;
        }
        self.len = 0;
        Some(self.bytes)
    }

    /// Continues with a piece. Returns the N bytes once all have arrived, and empties the buffer.
    #[inline]
    pub fn more(&mut self, piece: &mut Cursor<'_>) -> Option<[u8; N]>
        ensures parts { MatchOption result ((self.new ≡ self.old ++ piece.old) × (piece.new ≡ []))
            (λ g. (g ++ piece.new ≡ self.old ++ piece.old) × (self.new ≡ [])) }
        ensures size { MatchOption result (length self.new < N) (λ g. length g ≡ N) }
        ensures taken { TakesBytes piece.old piece.new result }
    {
        if self.len() == 0 {
            if let Some(prefix) = piece.prefix(N) {
                let mut whole = [0; N];
                whole.copy_from_slice(prefix);
                return Some(whole);
            }
        }
        self.more_by_bytes(piece)
    }

    /// Continues with a piece, a byte at a time.
    fn more_by_bytes(&mut self, piece: &mut Cursor<'_>) -> Option<[u8; N]>
        requires short { length self.old < N }
        ensures parts { MatchOption result ((self.new ≡ self.old ++ piece.old) × (piece.new ≡ []))
            (λ g. (g ++ piece.new ≡ self.old ++ piece.old) × (self.new ≡ [])) }
        ensures size { MatchOption result (length self.new < N) (λ g. length g ≡ N) }
        ensures taken { TakesBytes piece.old piece.new result }
    {
        while let Some(byte) = piece.next() {
            if let Some(whole) = self.push(byte) {
                return Some(whole);
            }
        }
        None
    }
}
