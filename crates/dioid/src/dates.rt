//! Dates, and the calls on them that take no memory.
ghost use Rattle.dioid.specs.DateOrder.{IsOrderOfDates};

use std::cmp::Ordering;
use std::error::Error;
use std::fmt;

/// A date in the user's unit of time: before every number, a whole number, or never.
///
/// Dates are the complete max-plus dioid (chapters 3 and 4): the sum of two is the later one, their
/// product adds them, `Early` is zero and `At(0)` is one. They come in the order of time, which is
/// that of the variants and of the numbers: [`Date::compare`] says what `<` and its like tell.
#[derive(Clone, Copy, Debug, PartialEq, Eq, PartialOrd, Ord)]
pub enum Date {
    /// Minus infinity: earlier than every number.
    Early,
    /// This many units after date 0; before it where the number is below 0.
    At(i128),
    /// Plus infinity: later than every number.
    Never,
}

/// Two dates, in the order in which they were given, whose sum or difference is no `i128`.
#[derive(Clone, Copy, Debug, PartialEq, Eq)]
pub struct Misfit {
    /// The date that the call was made on.
    pub left: Date,
    /// The date that the call was given.
    pub right: Date,
}

impl fmt::Display for Misfit {
    fn fmt<W: fmt::Write>(&self, f: &mut fmt::Formatter<W>) -> fmt::Result {
        f.write_str("the sum or the difference of two dates is out of range")
    }
}

impl Error for Misfit {}

impl Date {
    ghost use Rattle.std.specs.Prelude.{◌≡◌};
    ghost use Rattle.dioid.specs.Dates.{later_of, earlier_of, date_product, DateProductFits, date_left, DateLeftFits, AnswersOrMisfit};
    ghost use Rattle.dioid.specs.DateOrder.{IsGreaterOf, IsLesserOf, IsDateOrdering};

    /// The later of two dates. Takes no memory.
    pub fn later(self, other: Date) -> Date
        ensures value { result ≡ later_of self other }
        ensures greater { IsGreaterOf self other result }
    {
        match (self, other) {
            (Date::Early, date) | (date, Date::Early) => date,
            (Date::At(s), Date::At(t)) => Date::At(if t < s { s } else { t }),
            _ => Date::Never,
        }
    }

    /// The earlier of two dates. Takes no memory.
    pub fn earlier(self, other: Date) -> Date
        ensures value { result ≡ earlier_of self other }
        ensures lesser { IsLesserOf self other result }
    {
        match (self, other) {
            (Date::Never, date) | (date, Date::Never) => date,
            (Date::At(s), Date::At(t)) => Date::At(if t < s { t } else { s }),
            _ => Date::Early,
        }
    }

    /// Which of two dates comes first: it is what `cmp` answers, and what `<` and its like go by.
    /// Takes no memory.
    pub fn compare(self, other: Date) -> Ordering
        ensures { IsDateOrdering result self other }
    {
        self.cmp(&other)
    }

    /// The product of two dates: two numbers are added, `Early` with anything is `Early`, and
    /// `Never` with a number or `Never` is `Never`. Takes no memory.
    ///
    /// Refused exactly where both are numbers and their sum is no `i128`.
    pub fn add(self, other: Date) -> Result<Date, Misfit>
        ensures { AnswersOrMisfit (DateProductFits self other) (date_product self other) self other
            result }
    {
        match (self, other) {
            (Date::Early, _) | (_, Date::Early) => Ok(Date::Early),
            (Date::At(s), Date::At(t)) => match s.checked_add(t) {
                Some(sum) => Ok(Date::At(sum)),
                None => Err(Misfit {
                    left: self,
                    right: other,
                }),
            },
            _ => Ok(Date::Never),
        }
    }

    /// The greatest date whose product with `other` is at most `self`: of two numbers the
    /// difference, `Never` where `other` is `Early`, `self` where only `other` is a number, and
    /// where `other` is `Never`, `Never` for `Never` and `Early` for all else. Takes no memory.
    ///
    /// Refused exactly where both are numbers and their difference is no `i128`.
    pub fn less(self, other: Date) -> Result<Date, Misfit>
        ensures { AnswersOrMisfit (DateLeftFits other self) (date_left other self) self other
            result }
    {
        match (other, self) {
            (Date::Early, _) => Ok(Date::Never),
            (Date::At(s), Date::At(t)) => match t.checked_sub(s) {
                Some(rest) => Ok(Date::At(rest)),
                None => Err(Misfit {
                    left: self,
                    right: other,
                }),
            },
            (Date::At(_), _) | (Date::Never, Date::Never) => Ok(self),
            (Date::Never, _) => Ok(Date::Early),
        }
    }
}

/// The law that dates are in one total order, the one that their sum gives. It does nothing when it
/// runs.
pub fn dates_are_ordered()
    ensures { IsOrderOfDates }
{}
