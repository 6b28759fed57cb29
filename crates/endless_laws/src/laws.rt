//! The laws of endless due dates that are kept, and of walks to them. Each is a function that does
//! nothing when it runs: its contract is the law.
ghost use Rattle.endless_laws.specs.KeptRows.{RowsTellKept, WindowsTellKept};
ghost use Rattle.endless_laws.specs.WalksToDues.{FewWalksShowAll, ShownInputsAreLatest, WalksMoveOn};

/// A feasible dating that a settled form stands for keeps an endless row for every firing just where
/// it does up to the number past which both go on and a common turn past it, and where it rises in
/// the turn by no more than the row (chapters 3 and 5). So it keeps endless due dates just where it
/// keeps each row.
///
/// No smaller window would do: each number of the turn stands alone for those whole turns past it.
pub fn windows_tell_kept()
    ensures windows { WindowsTellKept }
    ensures rows { RowsTellKept }
{}

/// A walk to a firing that an endless row makes due past the start of its list, begun some rounds
/// later, leads to one that is due as many gaps later (chapter 5).
///
/// So finitely many walks show the dates of releases without end: one for each number up to the end
/// of their first turn, of which those of the turn lead to rows that rise in it as the releases do.
pub fn walks_move_on()
    ensures walks { WalksMoveOn }
    ensures few { FewWalksShowAll }
{}

/// Inputs that meet what is due are the latest inputs that do, and their dates the latest dates,
/// where a walk to a due firing shows each date that is not never: the due date less the time of the
/// walk is the date (chapter 5).
pub fn shown_inputs_are_latest()
    ensures { ShownInputsAreLatest }
{}
