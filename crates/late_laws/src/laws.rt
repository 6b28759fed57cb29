//! The laws of late numbers. Each is a function that does nothing when it runs: its contract is the
//! law.
ghost use Rattle.late_laws.specs.LateLines.{DuesPassLine, NoneLatePastLine};
ghost use Rattle.late_laws.specs.SlowDues.{SlowDuesAreLate};

/// In a live net with all inputs at 0, past the number at which the line that potentials draw over
/// the dates of a row's transition passes under its due dates, none is late: so the rows up to that
/// number tell all late numbers, though neither the dates nor their settled form are known past it
/// (chapter 3).
///
/// Where due dates rise by more than the line in each round, they pass it after as many rounds as
/// it takes to gain what each number of one round lacks.
pub fn none_late_past_line()
    ensures none { NoneLatePastLine }
    ensures passes { DuesPassLine }
{}

/// In a live net with all inputs at 0, where due dates rise by less than the dates of a circuit
/// that leads to their transition, some number is late (chapter 3).
///
/// Where they rise by as much, none may be: a place from a transition to itself that holds for 1
/// and has one token is in time for due dates 0, 1, 2 and so on.
pub fn slow_dues_are_late()
    ensures { SlowDuesAreLate }
{}
