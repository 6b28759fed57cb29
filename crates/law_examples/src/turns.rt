//! Dates that move by turns: how far they go on so, and what rows near the overtakings tell.
ghost use Rattle.std.specs.Prelude.{ℕ, ℤ, pos, ◌+◌, ◌*◌, ◌*ℤ◌, ◌+ℤ◌, ◌<◌, ◌≤◌, ◌≡◌, ◌↔◌, List, length};
ghost use Rattle.jump_laws.specs.Jumps.{AreInTimeAfter, AreStepsOfResidues, IsJump, IsJumpIn, MovesInTurns, MovesTo, MovesUpTo, NoneFalls, ReleasesMoveFor};
ghost use Rattle.jump_laws.specs.ListedJumps.{IsListedJump};
ghost use Rattle.jump_laws.specs.Runs.{date_by_runs, AreRunsUpTo, Run};
ghost use Rattle.settled_laws.specs.SettledForms.{step_of_form, IsSettledFormOf, NetSettlesPast, RepeatsAfter};
ghost use Rattle.state_laws.specs.NetsLeft.{system_from};
ghost use Rattle.teg_check.specs.Ranks.{IsRanking};
ghost use Rattle.teg_jit.specs.Plans.{dates_of_plan};
ghost use Rattle.teg_model.specs.Datings.{listed_releases, IsLeastDating, IsLeastUnder};
ghost use Rattle.teg_model.specs.Systems.{IsLeastIn};
ghost use Rattle.teg_model.specs.dioid.Dates.{move, IsAtMostDate};
ghost use Rattle.teg_model.specs.dioid.declared.dates.Date.{Date};
ghost use Rattle.teg_model.specs.dioid.declared.dates.Date.TheVariants.{At};

use jump_laws::{
    dates_jump, dates_jump_in, forms_come_after_jumps, forms_reach_back, listed_dates_jump,
    no_fall_is_for_ever, runs_keep_dues, runs_tell_dates, turns_are_read_off, turns_are_told,
};
use teg_check::{Live, ranked_nets_are_live};
use teg_jit::Plan;
use teg_net::{Net, TransitionId};
use teg_settle::Settled;

/// The numbers past `after` and up to `last`, in turns of so many.
pub struct Window {
    /// The number before the first.
    pub after: u64,
    /// How many numbers a turn has.
    pub turn: u64,
    /// The last number.
    pub last: u64,
}

/// Dates that move by turns do so for as many turns as all tokens are in time.
pub fn dates_move_on(net: &Net, live: &Live, window: &Window, turns: u64)
    requires live { IsRanking net.now live.now }
    ensures { (x : ℕ → ℕ → Date) (step : ℕ → ℕ → ℤ) → IsLeastDating net.now x
        → IsListedJump net.now x window.now.after window.now.turn window.now.last turns step
        → MovesUpTo (length net.now.transitions) x window.now.after window.now.turn
        (window.now.last + turns * window.now.turn) step }
{
    net.rules();
    ranked_nets_are_live();
    listed_dates_jump();
}

/// So do the dates where the inputs follow a plan.
pub fn planned_dates_move_on(net: &Net, live: &Live, plan: &Plan, window: &Window, turns: u64)
    requires live { IsRanking net.now live.now }
    ensures { (x : ℕ → ℕ → Date) (step pace : ℕ → ℕ → ℤ)
        → IsLeastUnder net.now (dates_of_plan plan.now) x
        → IsJump net.now (dates_of_plan plan.now) x window.now.after window.now.turn
        window.now.last turns step pace
        → MovesUpTo (length net.now.transitions) x window.now.after window.now.turn
        (window.now.last + turns * window.now.turn) step }
{
    net.rules();
    ranked_nets_are_live();
    dates_jump();
}

/// And so the dates of a net in which nothing is released before now.
pub fn dates_move_on_from(net: &Net, live: &Live, now: u64, window: &Window, turns: u64)
    requires live { IsRanking net.now live.now }
    ensures { (x : ℕ → ℕ → Date) (step pace : ℕ → ℕ → ℤ) → IsLeastIn (system_from net.now now) x
        → IsJumpIn (system_from net.now now) x window.now.after window.now.turn window.now.last
        turns step pace
        → (t : ℕ) → MovesTo (x t) window.now.after window.now.turn
        (window.now.last + turns * window.now.turn) (step t) }
{
    net.rules();
    ranked_nets_are_live();
    dates_jump_in();
}

/// Where no step falls along a place, the dates have settled with the turn as their period.
pub fn dates_settle_where_none_falls(net: &Net, live: &Live, window: &Window)
    requires live { IsRanking net.now live.now }
    ensures { (x : ℕ → ℕ → Date) (step pace : ℕ → ℕ → ℤ) → IsLeastDating net.now x
        → MovesInTurns net.now x window.now.after window.now.turn window.now.last step
        → AreStepsOfResidues window.now.turn pace
        → ((turns : ℕ) → ReleasesMoveFor turns net.now (listed_releases net.now) window.now.turn
        window.now.last pace)
        → NoneFalls net.now (listed_releases net.now) x window.now.turn window.now.last step pace
        → RepeatsAfter (length net.now.transitions) x window.now.after window.now.turn
        (λ t. step t window.now.last) }
{
    net.rules();
    ranked_nets_are_live();
    no_fall_is_for_ever();
}

/// A token that will be late tells that the settled form of a net is longer than a limit.
pub fn form_is_past_limit(net: &Net, window: &Window, turns: u64, limit: u32)
    requires wide { window.now.after + limit + window.now.turn + window.now.turn
        ≤ window.now.last }
    ensures { (x : ℕ → ℕ → Date) (step : ℕ → ℕ → ℤ) → IsLeastDating net.now x
        → MovesInTurns net.now x window.now.after window.now.turn window.now.last step
        → (AreInTimeAfter turns net.now x window.now.turn window.now.last step → ⊥)
        → NetSettlesPast net.now limit }
{
    net.rules();
    forms_come_after_jumps();
}

/// For how many turns a token is in time that gains so much in each turn on a date so much later.
pub fn turns_in_time(gain: u64, slack: u64) -> u64
    requires gain { 1 ≤ gain }
    ensures { (token step : ℤ) (turns : ℕ)
        → IsAtMostDate (move (pos turns *ℤ (step +ℤ pos gain)) (At token))
        (move (pos turns *ℤ step) (At (token +ℤ pos slack))) ↔ (turns ≤ result) }
{
    turns_are_read_off();
    slack / gain
}

/// Past its begin, a settled form tells each date some periods on.
pub fn date_some_periods_on(net: &Net, form: &Settled, transition: TransitionId)
    requires form { IsSettledFormOf net.now form.now }
    requires transition { transition.index < length net.now.transitions }
    ensures { (x : ℕ → ℕ → Date) × IsLeastDating net.now x
        × ((k j : ℕ) → form.now.after < k
        → x transition.index (k + j * form.now.period)
        ≡ move (pos j *ℤ step_of_form form.now transition.index) (x transition.index k)) }
{
    turns_are_told();
}

/// What goes on by another period at two numbers, one period of the form apart, does so at all that
/// are whole periods from them.
pub fn other_period_goes_on(net: &Net, form: &Settled, transition: TransitionId, period: u64)
    requires form { IsSettledFormOf net.now form.now }
    requires transition { transition.index < length net.now.transitions }
    ensures { (x : ℕ → ℕ → Date) × IsLeastDating net.now x
        × ((k j : ℕ) (by : ℤ) → form.now.after < k
        → x transition.index (k + 0 * form.now.period + period)
        ≡ move by (x transition.index (k + 0 * form.now.period))
        → x transition.index (k + 1 * form.now.period + period)
        ≡ move by (x transition.index (k + 1 * form.now.period))
        → x transition.index (k + j * form.now.period + period)
        ≡ move by (x transition.index (k + j * form.now.period))) }
{
    forms_reach_back();
}

/// Due dates that go on by the period of a form are kept in each period between two that keep them.
pub fn dues_are_kept_between(net: &Net, form: &Settled, transition: TransitionId)
    requires form { IsSettledFormOf net.now form.now }
    requires transition { transition.index < length net.now.transitions }
    ensures { (x : ℕ → ℕ → Date) × IsLeastDating net.now x
        × ((due : ℕ → Date) (gap : ℤ) (k q j : ℕ) → form.now.after < k → j ≤ q
        → MovesTo due form.now.after form.now.period (k + q * form.now.period) (λ _. gap)
        → IsAtMostDate (x transition.index k) (due k)
        → IsAtMostDate (x transition.index (k + q * form.now.period))
        (due (k + q * form.now.period))
        → IsAtMostDate (x transition.index (k + j * form.now.period))
        (due (k + j * form.now.period))) }
{
    runs_keep_dues();
}

/// Runs that have each number up to a last tell each date of a net up to there.
pub fn runs_tell(net: &Net, last: u64)
    ensures { (x : ℕ → ℕ → Date) (runs : List Run)
        → AreRunsUpTo (length net.now.transitions) x last runs
        → (t k : ℕ) → t < length net.now.transitions → 1 ≤ k → k ≤ last
        → date_by_runs runs t k ≡ x t k }
{
    runs_tell_dates();
}
