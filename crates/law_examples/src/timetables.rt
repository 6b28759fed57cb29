//! What a timetable keeps besides the places of a net: greatest times, longer jobs, a clock; and the
//! earliest one of a period.
ghost use Rattle.std.specs.Prelude.{ℕ, ◌+◌, ◌*◌, ◌<◌, ◌≤◌, ◌≡◌, ◌↔◌, List, length, slice_index, All, IfOk};
ghost use Rattle.planning_laws.specs.Clocks.{each_period, HasClock};
ghost use Rattle.planning_laws.specs.GreatestTimes.{date_by, with_places, without_wait, ArePlacesBack, CanKeepAll, GreatestTime, KeepsGreatestTime};
ghost use Rattle.planning_laws.specs.LongerJobs.{IsLongerJob, IsWithinSlack};
ghost use Rattle.teg_check.specs.Ranks.{IsRanking};
ghost use Rattle.teg_net.specs.GreatestRatios.{IsAnyPlace, IsGreatestRatio};
ghost use Rattle.teg_net.specs.Limits.{most_target_tokens};
ghost use Rattle.timetable_calls.specs.Earliest.{AreLeastFirsts};
ghost use Rattle.timetable_calls.specs.FractionPeriods.{whole_date, AreLeastFirstsAt, KeepsPlace, LeavesCircuitsTimeAt};
ghost use Rattle.workable_laws.specs.WorkablePeriods.{LeavesCircuitsTime, LeavesPlaceTime};

use planning_laws::{
    clocks_tell_periods, greatest_times_are_places_back, jobs_may_take_longer,
    periods_between_keep_greatest_times,
};
use std::alloc::Global;
use teg_check::{Live, ranked_nets_are_live};
use teg_net::{Net, Place, PlaceId, Ratio, TransitionId};
use timetable_calls::{
    PeriodRefused, earliest_timetable, earliest_timetable_at, earliest_timetables_exist,
    whole_dates_keep_places,
};

/// Greatest times can be kept just at the periods from the cycle time of the net with their places
/// back on.
pub fn times_are_kept_by_ratio(
    net: &Net,
    backs: &[Place],
    backed: &Net,
    live: &Live,
    ratio: Ratio,
    period: u64,
)
    requires backed { backed.now ≡ with_places net.now backs.now }
    requires live { IsRanking backed.now live.now }
    requires greatest { IsGreatestRatio backed.now IsAnyPlace ratio }
    ensures { (times : List GreatestTime) → ArePlacesBack period times backs.now
        → CanKeepAll net.now period times ↔ (ratio.time ≤ period * ratio.tokens) }
{
    backed.rules();
    ranked_nets_are_live();
    greatest_times_are_places_back();
}

/// Where the hold of a place is its greatest time too, each token is taken when its hold ends.
pub fn no_token_waits(place: &Place, period: u64)
    ensures { (first : ℕ → ℕ) → LeavesPlaceTime period first place.now
        → KeepsGreatestTime period first (without_wait place.now)
        → (k : ℕ) → 1 ≤ k → date_by period first place.now.to.index (k + place.now.tokens)
        ≡ date_by period first place.now.from.index k + place.now.hold }
{
    greatest_times_are_places_back();
}

/// A period between two at which greatest times can be kept is one too.
pub fn period_between_is_kept(net: &Net, low: u64, between: u64, high: u64)
    requires low { low ≤ between }
    requires high { between ≤ high }
    ensures { (times : List GreatestTime) → CanKeepAll net.now low times
        → CanKeepAll net.now high times → CanKeepAll net.now between times }
{
    periods_between_keep_greatest_times();
}

/// The cycle time stays just where each place of a job is longer by at most its slack.
pub fn job_may_take_longer(net: &Net, longer: &Net, job: TransitionId, ratio: Ratio)
    requires greatest { IsGreatestRatio net.now IsAnyPlace ratio }
    ensures { (more : ℕ → ℕ) → IsLongerJob net.now longer.now job.index more
        → ((p : PlaceId) → p.index < length net.now.places → 1 ≤ more p.index
        → IsWithinSlack net.now ratio p (more p.index))
        ↔ IsGreatestRatio longer.now IsAnyPlace ratio }
{
    jobs_may_take_longer();
}

/// A net beside a clock has the period of the clock just where it leaves each circuit its time.
pub fn clock_tells_period(net: &Net, clocked: &Net, clock: TransitionId, period: u64)
    requires clock { HasClock net.now clocked.now clock.index period }
    ensures { IsGreatestRatio clocked.now IsAnyPlace (each_period period)
        ↔ LeavesCircuitsTime net.now period }
{
    clocks_tell_periods();
}

/// A period that leaves each circuit its time has a least list of first departures.
pub fn period_has_earliest(net: &Net, period: u64)
    requires { LeavesCircuitsTime net.now period }
    ensures { (first : ℕ → ℕ) × AreLeastFirsts net.now period first }
{
    net.rules();
    earliest_timetables_exist();
}

/// The earliest timetable of a period, whose first departures are those of each least list.
pub fn earliest_is_one(
    alloc: Global,
    net: &Net,
    live: &Live,
    period: u64,
) -> Result<Vec<u64>, PeriodRefused>
    requires { IsRanking net.now live.now }
    ensures { IfOk result (λ firsts. (other : ℕ → ℕ) → AreLeastFirsts net.now period other
        → (t : ℕ) → t < length net.now.transitions → slice_index firsts.items t ≡ other t) }
{
    earliest_timetables_exist();
    let firsts = earliest_timetable(alloc, net, live, period)?;
    Ok(firsts)
}

/// A period that is a fraction and leaves each circuit its time has a least list of first
/// departures too, in parts of the unit.
pub fn fraction_has_earliest(net: &Net, period: Ratio)
    requires { LeavesCircuitsTimeAt net.now period.tokens period.time }
    ensures { (first : ℕ → ℕ) × AreLeastFirstsAt net.now period.tokens period.time first }
{
    net.rules();
    earliest_timetables_exist();
}

/// The earliest timetable of a period that is a fraction: rounded down, its dates keep each place.
pub fn earliest_in_whole_dates(
    alloc: Global,
    net: &Net,
    live: &Live,
    period: Ratio,
) -> Result<Vec<u64>, PeriodRefused>
    requires live { IsRanking net.now live.now }
    requires some { 1 ≤ period.tokens }
    requires tokens { period.tokens ≤ most_target_tokens }
    ensures { IfOk result (λ firsts. All (KeepsPlace (λ t k. whole_date period.tokens period.time
        (slice_index firsts.items t) k)) net.now.places) }
{
    whole_dates_keep_places();
    let firsts = earliest_timetable_at(alloc, net, live, period)?;
    Ok(firsts)
}

/// And they repeat: `b` firings later they are `a` units later, at the period `a / b`.
pub fn whole_dates_go_on(period: Ratio, first: u64, number: u64)
    requires some { 1 ≤ period.tokens }
    requires number { 1 ≤ number }
    ensures { whole_date period.tokens period.time first (number + period.tokens)
        ≡ whole_date period.tokens period.time first number + period.time }
{
    whole_dates_keep_places();
}
