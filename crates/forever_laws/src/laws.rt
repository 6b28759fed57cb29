//! The laws of endless due dates. Each is a function that does nothing when it runs: its contract
//! is the law.
ghost use Rattle.forever_laws.specs.ColumnLaws.{ColumnsAreOne, ColumnsExist, RowsFitAlike, TransfersHaveOneLength};
ghost use Rattle.forever_laws.specs.EndlessDues.{DueSeriesFit, DuesAreSeries, FreeAtEachNumber, EndlessLateExcludesMeet, LateIsSoon, LateNumbersHaveLeast, LatestAtInputsAreLatest, LatestDatesFromZero, EndlessMeetOrLate, ResidualsAreFreeOrNumbers, ResidualsAreLatestDates, RowsGoOn, StepsAreFromZero, TransfersAreSeries, TurnsTellLate, WalkSeriesFit, ZeroInputsAreNoLists, ZeroMeetsWhereNoneLate};
ghost use Rattle.forever_laws.specs.PacedRows.{NoRowsAreMet, PacedLateIsSoon};

use walk_times::walk_times_settle;

/// In a live net each input has series of its walk times to the transitions of due rows, and these
/// rows have due series (chapter 5).
pub fn columns_exist()
    ensures { ColumnsExist }
{
    walk_times_settle();
}

/// The least dating of a net with all inputs at 0 is that of the net without its input lists
/// (chapter 5).
pub fn zero_inputs_are_no_lists()
    ensures { ZeroInputsAreNoLists }
{}

/// In a live net inputs at 0 meet endless due dates exactly where no number of any row is late
/// (chapter 5).
pub fn zero_meets_where_none_late()
    ensures { ZeroMeetsWhereNoneLate }
{}

/// Past its list an endless row goes on as it says: each firing is due by the gap later than the
/// firing `every` before it (chapter 5).
pub fn rows_go_on()
    ensures { RowsGoOn }
{}

/// In a live net, what a table of its dates with all inputs at 0 tells of all late numbers of a
/// row: up to a turn past the number from which the dates of its transition and the due dates
/// repeat together they are looked up, past that what a turn adds tells them (chapter 5). A turn is
/// of the transition's own dates; those of other transitions may take longer to repeat.
///
/// The step of each transition is a number from 0 on.
pub fn turns_tell_late()
    ensures turns { TurnsTellLate }
    ensures steps { StepsAreFromZero }
{}

/// In a live net a row with a late number has a least one (chapter 5).
pub fn late_numbers_have_least()
    ensures { LateNumbersHaveLeast }
{}

/// In a live net the least late number of a row is below 10^23, and its dates are below 10^35
/// (chapter 5).
pub fn late_is_soon()
    ensures { LateIsSoon }
{}

/// In a live net: where no circuit that leads to a row's transition has a greater ratio of time to
/// tokens than the row of gap to firings, a late number of the row comes up to a bound of the net's
/// own, if at all: the dates it lists, `every` times the tokens that so many places as transitions
/// can have, and those of one place more (chapters 3 and 5).
pub fn paced_late_is_soon()
    ensures { PacedLateIsSoon }
{}

/// In a live net inputs at 0 meet due dates that no row asks (chapter 5).
pub fn no_rows_are_met()
    ensures { NoRowsAreMet }
{}

/// In a live net inputs at 0 meet endless due dates, or some row is the first with a late number,
/// and not both (chapter 5).
pub fn meet_or_late()
    ensures one { EndlessMeetOrLate }
    ensures not_both { EndlessLateExcludesMeet }
{}

/// In a live net where inputs at 0 meet the due dates, the latest dates at the inputs are the
/// latest inputs that meet them (chapter 5).
pub fn latest_at_inputs_are_latest()
    ensures { LatestAtInputsAreLatest }
{}

/// In a live net where inputs at 0 meet endless due dates of at least one row, the latest dates of
/// a transition are the meet over the rows of the residuals of their due series by the series of
/// its walk times (chapter 5).
///
/// They are all never, where no walk leads to a due firing, or all numbers from 0 on.
pub fn residuals_are_latest_dates()
    ensures latest { ResidualsAreLatestDates }
    ensures numbers { ResidualsAreFreeOrNumbers }
{}

/// Under endless due dates a walk leads from one firing of a transition to a due one exactly where
/// one leads from each of its firings (chapter 5).
pub fn free_at_each_number()
    ensures { FreeAtEachNumber }
{}

/// Where inputs at 0 meet the due dates, each latest date is a number from 0 on, or never (chapter
/// 5).
pub fn latest_dates_from_zero()
    ensures { LatestDatesFromZero }
{}

/// The shortest settled form of walk times and the list of a due row give series of these dates
/// (chapter 5).
pub fn forms_are_series()
    ensures walks { TransfersAreSeries }
    ensures dues { DuesAreSeries }
{}

/// There is one such series each, so whether the residual of a row fits, and its meet with the meet
/// of those before it, does not depend on a choice; nor does the length of the shortest settled
/// form of the walk times (chapter 5).
pub fn columns_are_one()
    ensures columns { ColumnsAreOne }
    ensures fit { RowsFitAlike }
    ensures length { TransfersHaveOneLength }
{}

/// Due dates have a series of at most 20,000 values, with numbers of a magnitude up to 10^18; so
/// have walk times in a live net where their settled form is of at most 20,000 numbers (chapter 5).
pub fn series_fit()
    ensures dues { DueSeriesFit }
    ensures walks { WalkSeriesFit }
{}
