//! The period of dates, by what leads to them.
ghost use Rattle.std.specs.Prelude.{ℕ, ℤ, pos, ◌<◌, ◌≤◌, length};
ghost use Rattle.std.specs.Int.{◌∣◌};
ghost use Rattle.cyclicity_laws.specs.CriticalParts.{IsCommonByParts, IsStronglyConnected};
ghost use Rattle.cyclicity_laws.specs.PartsTowards.{IsCommonTowards, RepeatBy};
ghost use Rattle.cyclicity_laws.specs.Reached.{common_number};
ghost use Rattle.growth_laws.specs.Growth.{IsEndless};
ghost use Rattle.own_period_laws.specs.OwnForms.{IsBegun, IsLeastCommon, IsLeastForm, IsOwnPeriod};
ghost use Rattle.own_period_laws.specs.OwnPeriods.{AreNumbers, GoesOn, GoOnByOwnPeriods};
ghost use Rattle.settled_laws.specs.SettledForms.{IsSettledFormOf};
ghost use Rattle.slope_laws.specs.Slopes.{IsSlope};
ghost use Rattle.teg_check.specs.Ranks.{IsRanking};
ghost use Rattle.teg_model.specs.Datings.{IsLeastDating};
ghost use Rattle.teg_model.specs.dioid.declared.dates.Date.{Date};
ghost use Rattle.teg_net.specs.Limits.{most_place_tokens};
ghost use Rattle.teg_net.specs.Nets.{IsInput};
ghost use Rattle.teg_settle.specs.walk_times.Transfers.{IsTransferOf};

use cyclicity_laws::{
    common_numbers_exist, cyclicity_is_by_parts, dates_repeat_by_parts, transfers_repeat_by_parts,
};
use own_period_laws::{own_periods_go_on, own_periods_tell_forms};
use teg_check::{Live, ranked_nets_are_live};
use teg_net::{Net, Ratio, TransitionId};
use teg_settle::Settled;

/// The dates of a transition repeat by what is common to the parts and lists that lead to it.
pub fn dates_repeat(net: &Net, live: &Live, transition: TransitionId, slope: Ratio, multiple: u64)
    requires live { IsRanking net.now live.now }
    requires transition { transition.index < length net.now.transitions }
    requires endless { IsEndless net.now transition.index }
    requires counts { 1 ≤ slope.tokens }
    requires slope { IsSlope net.now transition.index slope.tokens slope.time }
    requires some { 1 ≤ multiple }
    requires common { 1 ≤ slope.time
        → IsCommonTowards net.now transition.index slope.time slope.tokens multiple }
    ensures { (x : ℕ → ℕ → Date) → IsLeastDating net.now x
        → RepeatBy (x transition.index) slope.time slope.tokens multiple }
{
    net.rules();
    ranked_nets_are_live();
    dates_repeat_by_parts();
}

/// The period of the settled form of a live net divides a number that its size tells.
pub fn period_divides_by_size(net: &Net, live: &Live, form: &Settled)
    requires live { IsRanking net.now live.now }
    requires form { IsSettledFormOf net.now form.now }
    ensures { form.now.period ∣ common_number net.now most_place_tokens }
{
    net.rules();
    ranked_nets_are_live();
    common_numbers_exist();
    dates_repeat_by_parts();
}

/// The period of each transfer of a strongly connected net divides what is common by its parts.
pub fn transfer_divides(
    net: &Net,
    ratio: Ratio,
    start: TransitionId,
    transfer: &Settled,
    multiple: u64,
)
    requires strong { IsStronglyConnected net.now ratio.time ratio.tokens }
    requires start { start.index < length net.now.transitions }
    requires transfer { IsTransferOf net.now start.index transfer.now }
    requires some { 1 ≤ multiple }
    requires common { IsCommonByParts net.now ratio.time ratio.tokens multiple }
    ensures { transfer.now.period ∣ multiple }
{
    cyclicity_is_by_parts();
}

/// The period of each transfer of a live net divides a number that its size tells.
pub fn transfer_divides_by_size(net: &Net, live: &Live, start: TransitionId, transfer: &Settled)
    requires live { IsRanking net.now live.now }
    requires start { start.index < length net.now.transitions }
    requires transfer { IsTransferOf net.now start.index transfer.now }
    ensures { transfer.now.period ∣ common_number net.now most_place_tokens }
{
    net.rules();
    ranked_nets_are_live();
    common_numbers_exist();
    transfers_repeat_by_parts();
}

/// What rows tell of a transition's own period is so for ever, at the pace of this period and time.
pub fn own_period_goes_on(
    net: &Net,
    live: &Live,
    transition: TransitionId,
    count: u64,
    time: u64,
    from: u64,
    base: u64,
    last: u64,
)
    requires live { IsRanking net.now live.now }
    requires transition { transition.index < length net.now.transitions }
    requires alone { (t : ℕ) → IsInput net.now t → ⊥ }
    ensures { (x : ℕ → ℕ → Date) (period : ℕ → ℕ) (step : ℕ → ℤ) → IsLeastDating net.now x
        → AreNumbers (length net.now.transitions) x
        → GoOnByOwnPeriods net.now x count (pos time) from base last period step
        → GoesOn (x transition.index) from (period transition.index) (step transition.index) }
{
    net.rules();
    ranked_nets_are_live();
    own_periods_go_on();
}

/// The least common multiple of own periods is the period of all.
pub fn own_periods_tell(net: &Net, from: u64, after: u64, whole: u64)
    ensures { (x : ℕ → ℕ → Date) (period : ℕ → ℕ) (step : ℕ → ℤ)
        → ((t : ℕ) → t < length net.now.transitions → IsOwnPeriod (x t) from (period t) (step t))
        → IsLeastCommon (length net.now.transitions) period whole
        → IsBegun (length net.now.transitions) x period step after
        → IsLeastForm (length net.now.transitions) x after whole }
{
    own_periods_tell_forms();
}
