ghost use Rattle.std.specs.Prelude.{ℕ, List};
ghost use Rattle.session_devices.specs.ByteTransfers.{TakesNothing, TakesJoined};

/// Takes a body piece by piece as it is read.
pub trait Sink {
    /// Relates the states before and after these bytes.
    ghost takes: { Self → List ℕ → Self → Type 0 };

    /// Takes the next piece of the body. It can't fail: the sink remembers what is wrong with the bytes.
    fn put(&mut self, piece: &[u8])
        ensures { takes self.old piece.now self.new };

    /// Taking no bytes changes nothing.
    ghost takes_nothing: { TakesNothing Self takes };

    /// The body may come in any number of pieces.
    ghost takes_joined: { TakesJoined Self takes };
}
