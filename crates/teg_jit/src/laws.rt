//! What holds of plans, of late rows and of due lists. Each is a function that does nothing when it
//! runs: its contract is the law.
ghost use Rattle.teg_jit.specs.PlansAndLateness.{DuesAreKeptByRows, LateExcludesMeet, MeetOrLate, PlansLead};

/// From each firing that is not free the first steps of a plan lead to one that is due, by a tight
/// walk (chapter 5).
pub fn plans_lead()
    ensures { PlansLead }
{}

/// A dating keeps the due dates of a list just where it keeps each of its rows (chapter 5).
pub fn dues_are_kept_by_rows()
    ensures { DuesAreKeptByRows }
{}

/// A right refusal, and due dates that inputs at 0 meet, exclude each other (chapter 5).
pub fn late_excludes_meet()
    ensures { LateExcludesMeet }
{}

/// In a live net inputs at 0 meet the due dates, or some row is late (chapter 5).
pub fn meet_or_late()
    ensures { MeetOrLate }
{}
