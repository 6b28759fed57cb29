//! Dates between two tables, dates that releases move, and waits in a place.
ghost use Rattle.std.specs.Prelude.{ℕ, ◌<◌, ◌≤◌, ◌≡◌, length};
ghost use Rattle.growth_laws.specs.Growth.{IsEndless};
ghost use Rattle.io_laws.specs.InputOutput.{no_releases};
ghost use Rattle.planning_laws.specs.MovedReleases.{moved, IsMovedDate};
ghost use Rattle.planning_laws.specs.Stability.{AreWaitsBySlopes};
ghost use Rattle.planning_laws.specs.VaryingHolds.{AreHoldsBetween, IsBetween, IsDatingWithHolds};
ghost use Rattle.settled_laws.specs.SettledForms.{settled_date, IsSettledFormOf};
ghost use Rattle.slope_laws.specs.Slopes.{IsSlope};
ghost use Rattle.teg_check.specs.Ranks.{IsRanking};
ghost use Rattle.teg_jit.specs.Plans.{dates_of_plan};
ghost use Rattle.teg_model.specs.Datings.{listed_releases, IsLeastDating, IsLeastUnder};
ghost use Rattle.teg_model.specs.dioid.declared.dates.Date.{Date};
ghost use Rattle.teg_net.specs.Circuits.{from_of, place_at};
ghost use Rattle.teg_net.specs.Parts.{to_of};

use planning_laws::{
    releases_move_dates, varying_holds_lie_between, waits_are_bounded_by_equal_slopes,
};
use settled_laws::forms_tell_dates;
use teg_check::{Live, ranked_nets_are_live};
use teg_jit::Plan;
use teg_net::{Net, PlaceId, Ratio};
use teg_settle::Settled;

/// However holding times turn out between those of two nets, no date is before the settled form of
/// the first, nor after that of the second.
pub fn dates_are_between_forms(
    low: &Net,
    high: &Net,
    live: &Live,
    earliest: &Settled,
    latest: &Settled,
)
    requires live { IsRanking high.now live.now }
    requires inputs { high.now.inputs ≡ low.now.inputs }
    requires earliest { IsSettledFormOf low.now earliest.now }
    requires latest { IsSettledFormOf high.now latest.now }
    ensures { (holds : ℕ → ℕ → ℕ) (x : ℕ → ℕ → Date) → AreHoldsBetween low.now high.now holds
        → IsDatingWithHolds low.now holds (listed_releases low.now) x
        → IsBetween (length low.now.transitions) (settled_date earliest.now) x
        (settled_date latest.now) }
{
    high.rules();
    ranked_nets_are_live();
    varying_holds_lie_between();
    forms_tell_dates();
}

/// Where all inputs of a plan come later by a number, each date is later by at most as much, and by
/// just as much where an input keeps it back.
pub fn plan_moves_dates(net: &Net, live: &Live, plan: &Plan, later: u64)
    requires live { IsRanking net.now live.now }
    ensures { (free x y : ℕ → ℕ → Date) → IsLeastUnder net.now no_releases free
        → IsLeastUnder net.now (dates_of_plan plan.now) x
        → IsLeastUnder net.now (moved later (dates_of_plan plan.now)) y
        → (t k : ℕ) → t < length net.now.transitions → 1 ≤ k
        → IsMovedDate later (free t k) (x t k) (y t k) }
{
    net.rules();
    ranked_nets_are_live();
    releases_move_dates();
}

/// The slopes of its ends tell whether the waits in a place are bounded.
pub fn waits_are_told(net: &Net, live: &Live, place: PlaceId, start: Ratio, end: Ratio)
    requires live { IsRanking net.now live.now }
    requires place { place.index < length net.now.places }
    requires endless { IsEndless net.now (to_of net.now place) }
    requires start_counts { 1 ≤ start.tokens }
    requires end_counts { 1 ≤ end.tokens }
    requires start { IsSlope net.now (from_of net.now place) start.tokens start.time }
    requires end { IsSlope net.now (to_of net.now place) end.tokens end.time }
    ensures { (x : ℕ → ℕ → Date) → IsLeastDating net.now x
        → AreWaitsBySlopes x (place_at net.now place) start.time start.tokens end.time end.tokens }
{
    net.rules();
    ranked_nets_are_live();
    waits_are_bounded_by_equal_slopes();
}
