//! The laws of the rows of a net. Each is a function that does nothing when it runs: its contract
//! is the law.
ghost use Rattle.date_rows.specs.KeptRows.{NetsKeepBounds, NetsKeepShortBounds};

/// The ready dates and the input lists of each net keep the bounds that
/// [`Rows::with_next`](crate::Rows::with_next) asks of a source: so rows can be made by
/// [`NetInputs`](crate::NetInputs).
pub fn nets_keep_bounds()
    ensures { NetsKeepBounds }
{}

/// They keep those that [`Rows::with_next_in_cells`](crate::Rows::with_next_in_cells) asks, too.
pub fn nets_keep_short_bounds()
    ensures { NetsKeepShortBounds }
{}
