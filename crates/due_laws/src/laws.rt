//! The laws of due dates. Each is a function that does nothing when it runs: its contract is the
//! law.
ghost use Rattle.due_laws.specs.LatestInputs.{FreeWhereNoWalkLeads, LatestDatesAreLatestInputs, ZeroInputsMeet};

/// In a live net where inputs at 0 meet the due dates, the latest dates at the inputs are the
/// latest inputs that meet them (chapter 5).
pub fn latest_dates_are_latest_inputs()
    ensures { LatestDatesAreLatestInputs }
{}

/// In a live net where inputs at 0 do not meet the due dates, no inputs do (chapter 5).
pub fn zero_inputs_meet()
    ensures { ZeroInputsMeet }
{}

/// The latest date of a firing is never just where no walk leads from it to one that is due
/// (chapter 5).
pub fn free_where_no_walk_leads()
    ensures { FreeWhereNoWalkLeads }
{}
