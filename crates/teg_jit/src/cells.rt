//! Where the dates of firings stand in a list with one row a number.
ghost use Rattle.std.specs.Prelude.{◌≡◌, ◌<◌, ◌≤◌, ◌*◌};
ghost use Rattle.teg_net.specs.Limits.{most_transitions};
ghost use Rattle.date_rows.specs.DateTables.{firing_position, most_numbers};

use teg_net::TransitionId;

// Where the date of a firing stands in a list of this width.
pub(crate) fn cell_of(width: usize, transition: TransitionId, number: u32) -> usize
    requires width { width ≤ most_transitions }
    requires transition { transition.index < width }
    requires number { 1 ≤ number }
    requires few { number ≤ most_numbers }
    ensures value { result ≡ firing_position width transition.index number }
    ensures within { result < number * width }
{
    (number as usize - 1) * width + transition.index as usize
}
