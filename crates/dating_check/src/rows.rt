//! Dates in rows that are told, and the numbers of the rows of a due list.
ghost use Rattle.std.specs.Prelude.{◌≡◌, ◌≤◌};
ghost use Rattle.teg_net.specs.Limits.{most_transitions};
ghost use Rattle.dating_certificates.specs.CheckedRows.{date_in_rows};
ghost use Rattle.dating_check.specs.DueNumbers.{IsGreatestNumber};

use dioid::Date;
use teg_due::DueRow;
use teg_net::TransitionId;

// The date of this firing in rows of this many dates from number 1 on, Early past their end.
pub(crate) fn date_in_rows(
    width: usize,
    dates: &[Date],
    transition: TransitionId,
    number: u32,
) -> Date
    requires width { width ≤ most_transitions }
    requires number { 1 ≤ number }
    ensures { result ≡ date_in_rows width dates.now transition.index number }
{
    let cell = (number as usize - 1) * width + transition.index as usize;
    match dates.get(cell) {
        Some(date) => *date,
        None => Date::Early,
    }
}

// The greatest number of the rows, 0 for none.
pub(crate) fn greatest_number(rows: &[DueRow]) -> u32
    ensures { IsGreatestNumber rows.now result }
{
    let mut greatest = 0;
    for row in rows {
        if greatest < row.number {
            greatest = row.number;
        }
    }
    greatest
}
