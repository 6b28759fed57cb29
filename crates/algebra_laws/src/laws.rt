//! The law of the weights of walks. It is a function that does nothing when it runs: its contract
//! is the law.
ghost use Rattle.algebra_laws.specs.WalkWeights.{StarsHaveGreatestWeights};

use dioid::Date;
use dioid_matrix::star_is_least;

/// The star of a square matrix of dates has the greatest weights of walks: each walk from a row to
/// a column, whose weight is the sum of its entries and 0 where it has none, weighs at most the
/// star's entry there, and what is at least all these weights is at least the entry (chapter 3).
///
/// The entry is `Early` where there is no walk, and `Never` where the walks pass a circuit of weight
/// above 0, or an entry that is `Never`: then no number is at least their weights.
pub fn stars_have_greatest_weights()
    ensures { StarsHaveGreatestWeights }
{
    star_is_least::<Date>();
}
