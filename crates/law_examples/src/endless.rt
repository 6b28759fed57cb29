//! Endless due dates that releases keep, and releases that are the latest to keep them.
ghost use Rattle.std.specs.Prelude.{ℕ, ◌+◌, ◌*◌, ◌<◌, ◌≤◌, ◌≢◌, ◌↔◌, length, pos};
ghost use Rattle.due_laws.specs.LatestDates.{IsDateToDue};
ghost use Rattle.due_laws.specs.MeetingDueDates.{AreInputs, AreLatestInputs, InputsMeet};
ghost use Rattle.endless_due.specs.EndlessRows.{IsEndlessRow, due_on};
ghost use Rattle.endless_laws.specs.KeptRows.{IsCommonTurn, KeepsRow, KeepsRowTo, RisesNoFaster};
ghost use Rattle.endless_laws.specs.WalksToDues.{IsWalkToRow};
ghost use Rattle.settled_laws.specs.SettledForms.{StandsFor};
ghost use Rattle.teg_model.specs.Datings.{IsLeastDating};
ghost use Rattle.teg_model.specs.dioid.Dates.{move};
ghost use Rattle.teg_model.specs.dioid.declared.dates.Date.{Date};
ghost use Rattle.teg_model.specs.dioid.declared.dates.Date.TheVariants.{Never};
ghost use Rattle.teg_net.specs.Nets.{IsInput};

use endless_due::EndlessRow;
use endless_laws::{shown_inputs_are_latest, walks_move_on, windows_tell_kept};
use teg_net::{Net, Walk};
use teg_settle::Settled;

/// A window of its settled form tells whether a net keeps a row for ever.
pub fn row_is_kept(net: &Net, form: &Settled, row: &EndlessRow, past: u64, turn: u64)
    requires row { IsEndlessRow net.now row.now }
    ensures { (x : ℕ → ℕ → Date) (periods rounds : ℕ) → IsLeastDating net.now x
        → StandsFor (length net.now.transitions) form.now x
        → IsCommonTurn form.now row.now past turn periods rounds
        → KeepsRow x row.now ↔ (KeepsRowTo x row.now (past + turn)
        × RisesNoFaster form.now row.now periods rounds) }
{
    windows_tell_kept();
}

/// A walk that is begun some rounds of its row later leads to a firing that is due as many gaps
/// later.
pub fn walk_moves_on(net: &Net, row: &EndlessRow, walk: &Walk, rounds: u64)
    requires row { IsEndlessRow net.now row.now }
    ensures { (date : Date) (n : ℕ) → IsWalkToRow net.now row.now walk.now.start.index
        walk.now.number date walk.now.steps.items n → length row.now.dates < n + row.now.every
        → IsWalkToRow net.now row.now walk.now.start.index
        (walk.now.number + rounds * row.now.every) (move (pos (rounds * row.now.gap)) date)
        walk.now.steps.items (n + rounds * row.now.every) }
{
    walks_move_on();
}

/// Inputs that meet endless due dates, each date of which a walk shows, are the latest.
pub fn releases_are_latest(net: &Net, rows: &[EndlessRow])
    ensures { (v : ℕ → ℕ → Date) → AreInputs net.now v → InputsMeet net.now (due_on rows.now) v
        → ((t k : ℕ) → IsInput net.now t → 1 ≤ k → v t k ≢ Never
        → IsDateToDue net.now (due_on rows.now) t k (v t k))
        → AreLatestInputs net.now (due_on rows.now) v }
{
    net.rules();
    shown_inputs_are_latest();
}
