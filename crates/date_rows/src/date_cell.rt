//! What a row has for each of its dates.
ghost use Rattle.std.specs.Prelude.{◌≡◌, ◌≤◌};
ghost use Rattle.dioid.specs.declared.dates.Date.TheVariants.{Early};
ghost use Rattle.dioid.specs.Dates.{delayed, later_of};
ghost use Rattle.teg_model.specs.DateBounds.{IsDateWithin};
ghost use Rattle.teg_net.specs.Limits.{greatest_hold};

use dioid::Date;

/// A cell of a row, which holds a date. How many bytes it takes decides which dates it can hold. No
/// call takes memory.
pub trait DateCell: Copy {
    ghost use Rattle.std.specs.Prelude.{ℕ};
    ghost use Rattle.dioid.specs.declared.dates.Date.{Date};

    // the date that a cell holds
    ghost held: { Self → Date };

    // whether a cell can hold `Early`
    ghost early: { Type 0 };

    // up to here a cell can hold a number from 0 on, and be delayed
    ghost most: { ℕ };

    /// The cell of a date.
    fn of(date: Date) -> Self
        requires early { date ≡ Early → early }
        requires within { IsDateWithin most date }
        ensures { held result ≡ date };

    /// The date of the cell.
    fn date(self) -> Date
        ensures { result ≡ held self };

    /// The later of two cells.
    fn later(self, other: Self) -> Self
        ensures { held result ≡ later_of (held self) (held other) };

    /// The cell so many units later.
    fn delayed(self, hold: u64) -> Self
        requires within { IsDateWithin most (held self) }
        requires hold { hold ≤ greatest_hold }
        ensures { held result ≡ delayed hold (held self) };
}

/// Any date.
impl DateCell for Date {
    ghost use Rattle.std.specs.Prelude.{◌^◌, ⊤};

    ghost held = { λ d. d };

    ghost early = { ⊤ };

    ghost most = { 2 ^ 126 };

    fn of(date: Date) -> Date {
        date
    }

    fn date(self) -> Date {
        self
    }

    fn later(self, other: Date) -> Date {
        Date::later(self, other)
    }

    fn delayed(self, hold: u64) -> Date {
        match self {
            Date::At(date) => Date::At(date + hold as i128),
            other => other,
        }
    }
}

/// A number from 0 on in eight bytes, of which the greatest stands for `Never`.
impl DateCell for u64 {
    ghost use Rattle.std.specs.Prelude.{◌^◌};
    ghost use Rattle.date_rows.specs.DateCells.{date_of_cell};

    ghost held = { date_of_cell };

    ghost early = { ⊥ };

    ghost most = { 2 ^ 62 };

    fn of(date: Date) -> u64 {
        match date {
            Date::At(date) => date as u64,
            Date::Early | Date::Never => u64::MAX,
        }
    }

    fn date(self) -> Date {
        if self == u64::MAX {
            Date::Never
        } else {
            Date::At(self as i128)
        }
    }

    fn later(self, other: u64) -> u64 {
        if self < other { other } else { self }
    }

    fn delayed(self, hold: u64) -> u64 {
        self.saturating_add(hold)
    }
}

/// A number from 0 on in eight bytes, of which the greatest stands for `Never`, or one below 0,
/// which stands for `Early`.
impl DateCell for i64 {
    ghost use Rattle.std.specs.Prelude.{◌^◌, ⊤};
    ghost use Rattle.date_rows.specs.DateCells.{date_of_signed_cell};

    ghost held = { date_of_signed_cell };

    ghost early = { ⊤ };

    ghost most = { 2 ^ 62 };

    fn of(date: Date) -> i64 {
        match date {
            Date::Early => -1,
            Date::At(date) => date as i64,
            Date::Never => i64::MAX,
        }
    }

    fn date(self) -> Date {
        if self < 0 {
            Date::Early
        } else if self == i64::MAX {
            Date::Never
        } else {
            Date::At(self as i128)
        }
    }

    fn later(self, other: i64) -> i64 {
        if self < other { other } else { self }
    }

    fn delayed(self, hold: u64) -> i64 {
        if self < 0 || self == i64::MAX {
            self
        } else {
            self + hold as i64
        }
    }
}

// The later of a cell and a date.
pub(crate) fn later_date<C: DateCell>(cell: C, date: Date) -> C
    requires { IsDateWithin C.most date }
    ensures { C.held result ≡ later_of (C.held cell) date }
{
    match date {
        Date::Early => cell,
        _ => cell.later(C::of(date)),
    }
}
