//! Calls of the program whose answers a law ties together.
ghost use Rattle.std.specs.Prelude.{ℕ, ◌*◌, ◌<◌, ◌≤◌, ◌≡◌, Some, IfOk, IsTrue, length};
ghost use Rattle.due_laws.specs.MeetingDueDates.{KeepsDues};
ghost use Rattle.growth_laws.specs.Growth.{GrowBy};
ghost use Rattle.io_laws.specs.InputOutput.{no_releases, IsOutput};
ghost use Rattle.settled_laws.specs.SettledForms.{settled_date};
ghost use Rattle.teg_certificates.specs.BestRatios.{best_ratio_of};
ghost use Rattle.teg_check.specs.Ranks.{IsRanking};
ghost use Rattle.teg_due.specs.RowRules.{due_in, IsDueOf};
ghost use Rattle.teg_jit.specs.Plans.{dates_of_plan};
ghost use Rattle.teg_model.specs.Datings.{IsFeasibleUnder, IsLeastDating, IsLeastUnder};
ghost use Rattle.teg_model.specs.dioid.Dates.{IsAtMostDate};
ghost use Rattle.teg_model.specs.dioid.declared.dates.Date.{Date};
ghost use Rattle.teg_net.specs.Certificates.{IsCertificate};
ghost use Rattle.teg_net.specs.Circuits.{place_at};
ghost use Rattle.teg_net.specs.GreatestRatios.{IsAnyPlace, IsCycleTime, IsGreatestRatio};
ghost use Rattle.teg_net.specs.Limits.{greatest_hold};
ghost use Rattle.teg_net.specs.Nets.{IsInput};
ghost use Rattle.teg_net.specs.Ratios.{Fraction};
ghost use Rattle.teg_parts.specs.Partitions.{AreParts};
ghost use Rattle.teg_settle.specs.LimitRefusals.{greatest_limit};

use change_laws::{longer_holds_make_slower_nets, slower_nets_have_slower_places};
use cyclicity_laws::dates_grow_by_cycle_time;
use dating_laws::dates_rise_with_the_net;
use io_laws::dates_are_outputs;
use latest_laws::latest_dates_are_feasible;
use pace_laws::pace_rises_with_the_net;
use settled_laws::forms_tell_dates;
use std::alloc::Global;
use teg_bound::{BoundAnswer, settling_bound};
use teg_check::{Live, LiveNet, ranked_nets_are_live};
use teg_cycle::cycle;
use teg_due::Due;
use teg_jit::{JitRefusal, Plan, latest_inputs};
use teg_net::{CycleAnswer, Net, OutOfMemory, PlaceId, TransitionId};
use teg_parts::{Parts, split};
use teg_settle::{SettleRefusal, Settled, settle, transfer};

/// The settled forms before and after a place gets a longer hold: no date is earlier after it.
pub fn settle_with_longer_hold(
    alloc: Global,
    net: &mut LiveNet,
    place: PlaceId,
    hold: u64,
) -> Result<(Settled, Settled), OutOfMemory>
    requires place { place.index < length net.old.places }
    requires hold { hold ≤ greatest_hold }
    requires longer { (place_at net.old place).hold ≤ hold }
    ensures { IfOk result (λ w. (t k : ℕ) → t < length net.old.transitions → 1 ≤ k
        → IsAtMostDate (settled_date w.0 t k) (settled_date w.1 t k)) }
{
    longer_holds_make_slower_nets();
    dates_rise_with_the_net();
    forms_tell_dates();
    let before = settle(alloc, net.net(), net.live())?;
    net.set_hold(place, hold);
    net.net().rules();
    let after = settle(alloc, net.net(), net.live())?;
    Ok((before, after))
}

// The answer on cycle times of a live net.
fn cycle_of(alloc: Global, net: &Net, live: &Live) -> Result<CycleAnswer, OutOfMemory>
    requires live { IsRanking net.now live.now }
    ensures { IfOk result (λ a. IsCycleTime net.now a.parts.items a.best) }
{
    let parts = split(alloc, net)?;
    Ok(cycle(alloc, net, live, &parts)?)
}

/// The cycle times before and after a place gets a longer hold: it is no better after it.
pub fn cycle_with_longer_hold(
    alloc: Global,
    net: &mut LiveNet,
    place: PlaceId,
    hold: u64,
) -> Result<(CycleAnswer, CycleAnswer), OutOfMemory>
    requires place { place.index < length net.old.places }
    requires hold { hold ≤ greatest_hold }
    requires longer { (place_at net.old place).hold ≤ hold }
    ensures { IfOk result (λ w. (r s : Fraction) → best_ratio_of w.0 ≡ Some r
        → best_ratio_of w.1 ≡ Some s → r.time * s.tokens ≤ s.time * r.tokens) }
{
    ranked_nets_are_live();
    longer_holds_make_slower_nets();
    slower_nets_have_slower_places();
    pace_rises_with_the_net();
    let before = cycle_of(alloc, net.net(), net.live())?;
    net.set_hold(place, hold);
    let after = cycle_of(alloc, net.net(), net.live())?;
    Ok((before, after))
}

/// The plan of due dates, whose dates are a feasible dating under its own inputs.
pub fn feasible_plan(alloc: Global, net: &Net, live: &Live, due: &Due) -> Result<Plan, JitRefusal>
    requires stands { IsRanking net.now live.now }
    requires due { IsDueOf net.now due.now.rows.items }
    ensures feasible { IfOk result (λ plan. IsFeasibleUnder net.now (dates_of_plan plan)
        (dates_of_plan plan)) }
    ensures keeps { IfOk result (λ plan. KeepsDues net.now (due_in due.now.rows.items)
        (dates_of_plan plan)) }
{
    net.rules();
    latest_dates_are_feasible();
    let plan = latest_inputs(alloc, net, live, due)?;
    Ok(plan)
}

/// The transfer of the only input of a net, by which its releases tell all dates.
pub fn transfer_of_only_input(
    alloc: Global,
    net: &Net,
    live: &Live,
    input: TransitionId,
    limit: u32,
) -> Result<Settled, SettleRefusal>
    requires live { IsRanking net.now live.now }
    requires input { IsInput net.now input.index }
    requires only { (t : ℕ) → IsInput net.now t → t ≡ input.index }
    requires few { limit ≤ greatest_limit }
    ensures { IfOk result (λ form. (x u y : ℕ → ℕ → Date)
        → IsLeastUnder net.now no_releases x → IsLeastUnder net.now u y
        → (t k : ℕ) → t < length net.now.transitions → 1 ≤ k
        → IsOutput net.now x u (λ i. settled_date form) t k (y t k)) }
{
    net.rules();
    ranked_nets_are_live();
    dates_are_outputs();
    let form = transfer(alloc, net, live, input, limit)?;
    Ok(form)
}

/// Whether a number is told past which the dates go on by steps; if so they all grow by the cycle
/// time of the net.
pub fn grows_by_cycle_time(net: &Net, live: &Live, parts: &Parts, answer: &CycleAnswer) -> bool
    requires live { IsRanking net.now live.now }
    requires parts { AreParts net.now parts.now }
    requires certificate { IsCertificate net.now answer.now }
    ensures { IsTrue result → (r : Fraction) × IsGreatestRatio net.now IsAnyPlace r
        × ((x : ℕ → ℕ → Date) → IsLeastDating net.now x
        → (t : ℕ) → t < length net.now.transitions → GrowBy (x t) r.time r.tokens) }
{
    net.rules();
    ranked_nets_are_live();
    dates_grow_by_cycle_time();
    matches!(
        settling_bound(net, live, parts, answer),
        BoundAnswer::Bound { .. }
    )
}
