//! Counters, earliest runs and due dates without end.
ghost use Rattle.std.specs.Prelude.{ℕ, ℤ, Bool, IsTrue, ◌*◌, ◌<◌, ◌≤◌, ◌≡◌, ◌↔◌, List, Option, Some, length, count_by, nat_le};
ghost use Rattle.counter_laws.specs.CounterEquations.{AreCounted};
ghost use Rattle.counter_laws.specs.Counters.{AreCounters, IsUpTo, IsUpToLeast};
ghost use Rattle.endless_due.specs.EndlessRows.{IsEndlessRow};
ghost use Rattle.forever_laws.specs.Late.{IsLateAt};
ghost use Rattle.game_laws.specs.DatesByTheGame.{IsEarliestOfRuns};
ghost use Rattle.game_laws.specs.EarliestRunsExist.{IsNoLaterUpTo, IsWholeUpTo};
ghost use Rattle.growth_laws.specs.DateLines.{ArePotentialsInto, AreStartsBelow};
ghost use Rattle.late_laws.specs.LateLines.{IsLineUnderDues};
ghost use Rattle.run_laws.specs.EarliestRuns.{IsEarliestRun};
ghost use Rattle.run_laws.specs.Runs.{dates_of_transition};
ghost use Rattle.settled_laws.specs.SettledForms.{IsSettledFormOf};
ghost use Rattle.due_laws.specs.MeetingDueDates.{inputs_at_zero};
ghost use Rattle.teg_check.specs.Ranks.{IsRanking};
ghost use Rattle.teg_model.specs.Datings.{IsLeastDating, IsLeastUnder};
ghost use Rattle.teg_model.specs.dioid.declared.dates.Date.{Date};
ghost use Rattle.teg_model.specs.dioid.declared.dates.Date.TheVariants.{At};
ghost use Rattle.teg_model.specs.dioid.Dates.{IsAtMostDate};
ghost use Rattle.std.specs.Prelude.{pos};
ghost use Rattle.teg_net.specs.Circuits.{time_of, tokens_of, IsPathBetween};
ghost use Rattle.teg_replay.specs.Games.{IsGameOf};

use counter_laws::{counters_count_firings, counters_exist, counters_solve_min_plus_equations};
use date_counts::{count_by, live_nets_have_counters};
use endless_due::EndlessRow;
use game_laws::{
    earliest_runs_are_first, earliest_runs_are_whole, earliest_runs_exist,
    legal_runs_reach_least_dates,
};
use late_laws::{none_late_past_line, slow_dues_are_late};
use run_laws::Fired;
use teg_check::{Live, ranked_nets_are_live};
use teg_net::{Net, PlaceId, Ratio, TransitionId};
use teg_replay::Game;
use teg_settle::Settled;

/// Counts solve the equations of the net.
pub fn counts_are_least(net: &Net, transition: TransitionId, date: u64, number: u64)
    requires transition { transition.index < length net.now.transitions }
    requires number { 1 ≤ number }
    ensures { (u x : ℕ → ℕ → Date) (r c : ℕ → ℕ → Option ℕ) → AreCounted net.now u x r c
        → IsUpTo number (c transition.index date)
        ↔ IsUpToLeast net.now r c transition.index date number }
{
    counters_solve_min_plus_equations();
}

/// A dating has no two counters.
pub fn counts_are_one(net: &Net, transition: TransitionId, date: u64)
    requires transition { transition.index < length net.now.transitions }
    ensures { (x : ℕ → ℕ → Date) (c other : ℕ → ℕ → Option ℕ) → AreCounters net.now x c
        → AreCounters net.now x other → c transition.index date ≡ other transition.index date }
{
    counters_exist();
}

/// A live net has counters, and by its settled form what they are at a date.
pub fn count_of_counters(
    net: &Net,
    live: &Live,
    settled: &Settled,
    transition: TransitionId,
    date: u64,
) -> Option<u128>
    requires live { IsRanking net.now live.now }
    requires form { IsSettledFormOf net.now settled.now }
    requires transition { transition.index < length net.now.transitions }
    ensures { (x : ℕ → ℕ → Date) → IsLeastDating net.now x
        → (c : ℕ → ℕ → Option ℕ) × AreCounters net.now x c × (c transition.index date ≡ result) }
{
    net.rules();
    ranked_nets_are_live();
    live_nets_have_counters();
    count_by(net, settled, transition, date)
}

/// Counts tell the dates that are not before 0.
pub fn counts_tell_date(net: &Net, transition: TransitionId, number: u64)
    requires transition { transition.index < length net.now.transitions }
    requires number { 1 ≤ number }
    ensures { (x y : ℕ → ℕ → Date) (c : ℕ → ℕ → Option ℕ) → AreCounters net.now x c
        → AreCounters net.now y c → IsAtMostDate (At (pos 0)) (x transition.index number)
        → IsAtMostDate (At (pos 0)) (y transition.index number)
        → x transition.index number ≡ y transition.index number }
{
    live_nets_have_counters();
}

/// A count is that of the firings of an earliest run.
pub fn counts_are_of_runs(net: &Net, run: &[Fired], most: u64)
    ensures { (x : ℕ → ℕ → Date) (c : ℕ → ℕ → Option ℕ) → IsLeastDating net.now x
        → IsEarliestRun net.now x most run.now → AreCounters net.now x c
        → (t d n : ℕ) → t < length net.now.transitions → c t d ≡ Some n → n ≤ most
        → count_by (λ z. nat_le z d) (dates_of_transition run.now t) ≡ n }
{
    counters_count_firings();
}

/// A live net has earliest runs.
pub fn has_earliest_run(net: &Net, live: &Live, most: u64)
    requires live { IsRanking net.now live.now }
    ensures { (x : ℕ → ℕ → Date) → IsLeastDating net.now x
        → (run : List Fired) × IsEarliestRun net.now x most run }
{
    net.rules();
    ranked_nets_are_live();
    earliest_runs_exist();
}

/// An earliest run is whole.
pub fn run_is_whole(net: &Net, run: &[Fired], most: u64)
    ensures { (x : ℕ → ℕ → Date) → IsLeastDating net.now x → IsEarliestRun net.now x most run.now
        → IsWholeUpTo net.now x most run.now }
{
    earliest_runs_are_whole();
}

/// No game is ahead of an earliest run.
pub fn game_is_no_earlier(net: &Net, live: &Live, game: &Game, run: &[Fired], most: u64)
    requires live { IsRanking net.now live.now }
    requires game { IsGameOf net.now game.now }
    ensures { (x : ℕ → ℕ → Date) → IsLeastDating net.now x → IsEarliestRun net.now x most run.now
        → IsNoLaterUpTo net.now most run.now game.now.run }
{
    net.rules();
    ranked_nets_are_live();
    earliest_runs_are_first();
}

/// Least dates are the earliest of legal runs.
pub fn date_is_reached(net: &Net, live: &Live, transition: TransitionId, number: u64, date: u64)
    requires live { IsRanking net.now live.now }
    requires transition { transition.index < length net.now.transitions }
    requires number { 1 ≤ number }
    ensures { (x : ℕ → ℕ → Date) → IsLeastDating net.now x
        → x transition.index number ≡ At (pos date)
        ↔ IsEarliestOfRuns net.now transition.index number date }
{
    net.rules();
    ranked_nets_are_live();
    legal_runs_reach_least_dates();
}

/// Past the number at which a line passes under the due dates of a row none is late.
pub fn row_is_not_late(net: &Net, live: &Live, row: &EndlessRow, ratio: Ratio, last: u64)
    requires live { IsRanking net.now live.now }
    requires row { IsEndlessRow net.now row.now }
    ensures { (x : ℕ → ℕ → Date) (inside : ℕ → Bool) (c : ℤ) (v : ℕ → ℤ)
        → IsLeastUnder net.now inputs_at_zero x
        → ArePotentialsInto net.now inside ratio.time ratio.tokens v
        → AreStartsBelow net.now inputs_at_zero inside ratio.time ratio.tokens c v
        → IsTrue (inside row.now.transition.index)
        → IsLineUnderDues row.now ratio.time ratio.tokens c v last
        → (k due least : ℕ) → IsLateAt x row.now k due least → k ≤ last }
{
    net.rules();
    ranked_nets_are_live();
    none_late_past_line();
}

/// Due dates that rise by less than a circuit upstream are late at some number.
pub fn row_is_late(
    net: &Net,
    live: &Live,
    row: &EndlessRow,
    circuit: &[PlaceId],
    way: &[PlaceId],
    start: TransitionId,
)
    requires live { IsRanking net.now live.now }
    requires row { IsEndlessRow net.now row.now }
    requires start { start.index < length net.now.transitions }
    requires circuit { IsPathBetween net.now start.index circuit.now start.index }
    requires way { IsPathBetween net.now start.index way.now row.now.transition.index }
    requires slow { row.now.gap * tokens_of net.now circuit.now
        < time_of net.now circuit.now * row.now.every }
    ensures { (x : ℕ → ℕ → Date) → IsLeastUnder net.now inputs_at_zero x
        → (k : ℕ) × (due : ℕ) × (least : ℕ) × IsLateAt x row.now k due least }
{
    net.rules();
    ranked_nets_are_live();
    slow_dues_are_late();
}
