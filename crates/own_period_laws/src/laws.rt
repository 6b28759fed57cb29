//! The laws of own periods. Each is a function that does nothing when it runs: its contract is the
//! law.
ghost use Rattle.own_period_laws.specs.OwnPeriods.{OwnPeriodsGoOn};
ghost use Rattle.own_period_laws.specs.OwnForms.{OwnPeriodsTellForms};

/// Where all dates of a live net without inputs are numbers, and each transition goes on by a step
/// in a period of its own in a window, all at one pace, it goes on so for ever if each place keeps
/// its slack wherever numbers of its ends meet, and each date of a period comes with the one before
/// or with the token of a place from a transition whose period divides its own (chapter 3). The
/// window has room for the tokens of each place before it and for a period of each transition. It
/// does nothing when it runs.
pub fn own_periods_go_on()
    ensures { OwnPeriodsGoOn }
{}

/// Where each transition goes on by a least period of its own past a number, all of them go on by
/// the least common multiple of the periods, and by no smaller period; and from the least number on
/// past which each goes on by its own, and from no number before (chapter 3). It does nothing when
/// it runs.
pub fn own_periods_tell_forms()
    ensures { OwnPeriodsTellForms }
{}
