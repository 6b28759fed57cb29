//! The laws of latest dates beside each other, and of inputs that meet due dates together. Each is a
//! function that does nothing when it runs: its contract is the law.
ghost use Rattle.due_changes.specs.JointInputs.{EarlierInputsMeet, InputsMeetUpToLatest, LaterInputsAreInputs, LaterInputsMeet};
ghost use Rattle.due_changes.specs.ShiftedDues.{LateDuesAreMet, LaterDuesLaterLatest, ShiftedDuesShiftLatest};

/// Inputs meet together: the later of two inputs that meet the due dates are inputs that meet them,
/// so there can be latest ones; and in a live net so do all inputs that come no later than some
/// that do (chapter 5). Liveness is asked for there to be a least dating under the earlier inputs.
pub fn inputs_meet_together()
    ensures inputs { LaterInputsAreInputs }
    ensures later { LaterInputsMeet }
    ensures earlier { EarlierInputsMeet }
{}

/// In a live net where inputs at 0 meet the due dates, inputs meet them just where they come no
/// later than the latest dates (chapter 5). Where those at 0 do not, none do, though some may come
/// before the latest dates: all do where just a transition that no input leads to is due, at 0 at
/// its second firing, on a circuit of hold 1 and one token.
pub fn inputs_meet_up_to_latest()
    ensures { InputsMeetUpToLatest }
{}

/// Latest dates move with the due dates: later due dates have later latest dates, and due dates so
/// much later have latest dates just so much later (chapter 5).
pub fn latest_dates_move_with_dues()
    ensures later { LaterDuesLaterLatest }
    ensures shifted { ShiftedDuesShiftLatest }
{}

/// Late due dates are met: due dates of a live net up to some number, each moved by the same far
/// enough, are met by inputs at 0 (chapter 5). Due dates without an end need not be, however late:
/// where each firing on a circuit of hold 1 and one token is due at one date, most are late.
pub fn late_due_dates_are_met()
    ensures { LateDuesAreMet }
{}
