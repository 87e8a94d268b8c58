//! The rows of an operation of a service, one for each kind.

ghost use Rattle.std.specs.Prelude.{◌≡◌, nat_lt};
ghost use Rattle.std.specs.List.{list_any};
ghost use Rattle.service_index.specs.OperationRows.{is_among, rows_in};

use jaeger_model::Kind;

/// The rows of an operation of a service, one for each kind. Where no such operation is known, a row is the number of
/// known operations, so it is right only until one is added, and only among arrivals of the service.
#[derive(Clone, Copy)]
pub struct OperationRows {
    /// The row of the operation with each kind, in the order of [`Kind::ALL`].
    pub(crate) rows: [u32; Kind::COUNT],
}

impl OperationRows {
    /// Returns whether a row is among these.
    pub fn contains(self, row: u32) -> bool
        ensures { result ≡ is_among (rows_in self) row }
    {
        self.rows.iter().any(|r| *r == row)
    }

    /// Returns whether one of the rows is below this number.
    pub(crate) fn has_row_below(self, end: usize) -> bool
        ensures { result ≡ list_any (λ r. nat_lt r end) (rows_in self) }
    {
        self.rows.iter().any(|r| (*r as usize) < end)
    }
}
