//! The law of transfers. It is a function that does nothing when it runs: its contract is the law.
ghost use Rattle.dioid_matrix.specs.MatrixStars.{StarsAreLeast};
ghost use Rattle.net_matrices.specs.TransferStars.{DatesAreOutputsOfStars, TransfersAreStars};
ghost use Rattle.teg_settle.specs.periodic_laws.Equations.{gains, gain_stars};

use dioid_matrix::star_is_least;
use io_laws::dates_are_outputs;
use periodic_laws::systems_settle;
use series_ops::Gain;

// The law of stars, of gains.
fn gain_stars_are_least()
    ensures { StarsAreLeast gains gain_stars }
{
    star_is_least::<Gain>();
}

/// H = C A* B (chapters 5 and 6): with A the matrix of series of the places of a live net, the
/// entry of the star of A in the row of a transition and the column of another is the transfer
/// between them, the greatest times of walks from the first firing of that one to the firings of
/// this one. So under any releases the least date of a firing is the latest of its date without
/// releases and of the responses by these entries, whose rows and columns C and B choose.
pub fn transfers_are_stars()
    ensures walks { TransfersAreStars }
    ensures outputs { DatesAreOutputsOfStars }
{
    gain_stars_are_least();
    systems_settle();
    dates_are_outputs();
}
