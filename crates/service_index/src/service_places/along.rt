ghost use Rattle.std.specs.Iterator.{YieldsFirst, item_count};

use std::marker::Model;

/// The places of the entries of one service, the newest first.
#[derive(Drop)]
pub struct Places<'a> {
    /// For each entry the place of the one before it of the same service, 0 if it is the first.
    pub(crate) earlier: &'a [u32],
    /// The next place; 0 at the end.
    pub(crate) at: u32,
}

impl<'a> Model for Places<'a> {
    ghost use Rattle.std.specs.Prelude.{List, ℕ};
    ghost use Rattle.service_index.specs.PlaceChains.{along, IsBack};

    ghost Value = { List ℕ };

    ghost view = { λ p. along p.at p.earlier.now p.at };

    ghost invariant = { λ p. IsBack p.earlier.now p.at };
}

impl<'a> Iterator for Places<'a> {
    type Item = u64;

    ghost next_gives = { YieldsFirst (λ places. places) };

    ghost remaining = { item_count (λ places. places) };

    fn next(&mut self) -> Option<u64> {
        if self.at == 0 {
            return None;
        }
        let place = self.at;
        self.at = self.earlier[(place - 1) as usize];
        Some(u64::from(place))
    }
}
