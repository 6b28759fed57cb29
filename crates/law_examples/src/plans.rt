//! Plans as datings: the latest dates beside the earliest.
ghost use Rattle.std.specs.Prelude.{ℕ, pos, ◌<◌, ◌≤◌, ◌≡◌, ◌↔◌, Some, length};
ghost use Rattle.due_changes.specs.ShiftedDues.{later_due};
ghost use Rattle.due_laws.specs.LatestDates.{AreLatestDates, IsLateWalk, IsTightWalk};
ghost use Rattle.due_laws.specs.MeetingDueDates.{inputs_at_zero, AreInputs, InputsMeet, KeepsDues};
ghost use Rattle.latest_laws.specs.BackwardEquations.{IsLeastAhead};
ghost use Rattle.latest_laws.specs.BackwardSolutions.{AreDueUpTo};
ghost use Rattle.latest_laws.specs.Floats.{IsAtMostOn};
ghost use Rattle.planning_laws.specs.GivenInputs.{AreGiven, AreInTime, MeetsFrom};
ghost use Rattle.latest_laws.specs.MetByStarts.{StartsAreKept};
ghost use Rattle.teg_check.specs.Ranks.{IsRanking};
ghost use Rattle.teg_due.specs.RowRules.{due_in};
ghost use Rattle.teg_jit.specs.Plans.{dates_of_plan, IsPlanFor};
ghost use Rattle.teg_model.specs.Datings.{IsFeasibleUnder, IsLeastUnder};
ghost use Rattle.teg_model.specs.dioid.Dates.{delayed, earlier_of, later_of, IsAtMostDate};
ghost use Rattle.teg_model.specs.dioid.declared.dates.Date.{Date};
ghost use Rattle.teg_model.specs.dioid.declared.dates.Date.TheVariants.{At};
ghost use Rattle.teg_net.specs.Nets.{IsInput};

use dating_laws::{
    feasible_datings_meet, later_releases_lead_to_later_dates, no_shift_grows,
    releases_are_superposed,
};
use due_changes::{
    inputs_meet_together, inputs_meet_up_to_latest, late_due_dates_are_met,
    latest_dates_move_with_dues,
};
use latest_laws::{
    inputs_meet_by_floats, late_walks_refuse, latest_dates_are_feasible,
    latest_dates_are_solutions, latest_dates_solve_backwards, tight_walks_bound,
    zero_inputs_meet_by_starts,
};
use planning_laws::given_inputs_meet_in_time;
use teg_check::{Live, ranked_nets_are_live};
use teg_due::Due;
use teg_jit::Plan;
use teg_net::{Net, TransitionId, Walk};

/// No date comes earlier where the inputs follow the plan than with all of them at 0.
pub fn plan_is_later(net: &Net, due: &Due, plan: &Plan)
    requires inputs { AreInputs net.now (dates_of_plan plan.now) }
    ensures { (x y : ℕ → ℕ → Date) → IsLeastUnder net.now inputs_at_zero x
        → IsLeastUnder net.now (dates_of_plan plan.now) y
        → (t k : ℕ) → t < length net.now.transitions → 1 ≤ k → IsAtMostDate (x t k) (y t k) }
{
    later_releases_lead_to_later_dates();
}

/// The later of the inputs of two plans lead to the later of their dates.
pub fn plans_are_superposed(net: &Net, first: &Plan, second: &Plan)
    ensures { (x y : ℕ → ℕ → Date) → IsLeastUnder net.now (dates_of_plan first.now) x
        → IsLeastUnder net.now (dates_of_plan second.now) y
        → IsLeastUnder net.now
        (λ t k. later_of (dates_of_plan first.now t k) (dates_of_plan second.now t k))
        (λ t k. later_of (x t k) (y t k)) }
{
    releases_are_superposed();
}

/// The earlier of two feasible datings is feasible.
pub fn feasible_meet(net: &Net)
    ensures { (u x y : ℕ → ℕ → Date) → IsFeasibleUnder net.now u x → IsFeasibleUnder net.now u y
        → IsFeasibleUnder net.now u (λ t k. earlier_of (x t k) (y t k)) }
{
    feasible_datings_meet();
}

/// Inputs that come at most so much later lead to dates at most so much later.
pub fn shift_does_not_grow(net: &Net, shift: u64)
    ensures { (u v x y : ℕ → ℕ → Date)
        → ((t k : ℕ) → 1 ≤ k → IsInput net.now t → IsAtMostDate (v t k) (delayed shift (u t k)))
        → IsLeastUnder net.now u x → IsLeastUnder net.now v y
        → (t k : ℕ) → t < length net.now.transitions → 1 ≤ k
        → IsAtMostDate (y t k) (delayed shift (x t k)) }
{
    no_shift_grows();
}

/// The dates of a plan are feasible where its inputs meet the due dates.
pub fn plan_is_feasible(net: &Net, due: &Due, plan: &Plan)
    requires plan { IsPlanFor net.now (due_in due.now.rows.items) plan.now }
    requires meets { InputsMeet net.now (due_in due.now.rows.items) (dates_of_plan plan.now) }
    ensures feasible { IsFeasibleUnder net.now (dates_of_plan plan.now) (dates_of_plan plan.now) }
    ensures keeps { KeepsDues net.now (due_in due.now.rows.items) (dates_of_plan plan.now) }
{
    net.rules();
    latest_dates_are_feasible();
}

/// Inputs meet the due dates just where no float is negative.
pub fn meets_by_floats(net: &Net, due: &Due, plan: &Plan)
    requires plan { IsPlanFor net.now (due_in due.now.rows.items) plan.now }
    ensures { (v x : ℕ → ℕ → Date) → IsLeastUnder net.now v x
        → InputsMeet net.now (due_in due.now.rows.items) v
        ↔ IsAtMostOn net.now x (dates_of_plan plan.now) }
{
    net.rules();
    inputs_meet_by_floats();
}

/// Each date of the plan is the least of what is ahead of it.
pub fn plan_is_least_ahead(net: &Net, due: &Due, plan: &Plan, transition: TransitionId, number: u64)
    requires plan { IsPlanFor net.now (due_in due.now.rows.items) plan.now }
    requires transition { transition.index < length net.now.transitions }
    requires number { 1 ≤ number }
    ensures { IsLeastAhead net.now (due_in due.now.rows.items) (dates_of_plan plan.now)
        transition.index number (dates_of_plan plan.now transition.index number) }
{
    net.rules();
    latest_dates_solve_backwards();
}

/// Inputs meet the due dates just where they come no later than the plan.
pub fn meets_up_to_plan(net: &Net, live: &Live, due: &Due, plan: &Plan)
    requires live { IsRanking net.now live.now }
    requires plan { IsPlanFor net.now (due_in due.now.rows.items) plan.now }
    requires zero { InputsMeet net.now (due_in due.now.rows.items) inputs_at_zero }
    ensures { (v : ℕ → ℕ → Date) → InputsMeet net.now (due_in due.now.rows.items) v
        ↔ ((t k : ℕ) → 1 ≤ k → IsInput net.now t
        → IsAtMostDate (v t k) (dates_of_plan plan.now t k)) }
{
    net.rules();
    ranked_nets_are_live();
    inputs_meet_up_to_latest();
}

/// Where the first inputs are given, some meet the due dates just where each is in time by the plan.
pub fn given_meet_by_plan(net: &Net, live: &Live, due: &Due, plan: &Plan)
    requires live { IsRanking net.now live.now }
    requires plan { IsPlanFor net.now (due_in due.now.rows.items) plan.now }
    requires zero { InputsMeet net.now (due_in due.now.rows.items) inputs_at_zero }
    ensures { (n : ℕ → ℕ) (given : ℕ → ℕ → Date) → AreGiven net.now n given
        → ((v : ℕ → ℕ → Date) × MeetsFrom net.now (due_in due.now.rows.items) n given v)
        ↔ AreInTime net.now n given (dates_of_plan plan.now) }
{
    net.rules();
    ranked_nets_are_live();
    given_inputs_meet_in_time();
}

/// Inputs at 0 meet the due dates just where no date of the plan is before its start.
pub fn zero_inputs_by_plan(net: &Net, live: &Live, due: &Due, plan: &Plan, last: u64)
    requires live { IsRanking net.now live.now }
    requires plan { IsPlanFor net.now (due_in due.now.rows.items) plan.now }
    requires last { AreDueUpTo net.now (due_in due.now.rows.items) last }
    ensures { InputsMeet net.now (due_in due.now.rows.items) inputs_at_zero
        ↔ StartsAreKept net.now last (dates_of_plan plan.now) }
{
    net.rules();
    ranked_nets_are_live();
    zero_inputs_meet_by_starts();
}

/// The later of two inputs that meet the due dates meet them.
pub fn later_inputs_meet(net: &Net, due: &Due)
    ensures { (v w : ℕ → ℕ → Date) → InputsMeet net.now (due_in due.now.rows.items) v
        → InputsMeet net.now (due_in due.now.rows.items) w
        → InputsMeet net.now (due_in due.now.rows.items) (λ t k. later_of (v t k) (w t k)) }
{
    inputs_meet_together();
}

/// The dates of a plan move with the due dates.
pub fn plan_moves(net: &Net, due: &Due, plan: &Plan, later: u64)
    requires plan { IsPlanFor net.now (due_in due.now.rows.items) plan.now }
    ensures { AreLatestDates net.now (λ t k. later_due later (due_in due.now.rows.items t k))
        (λ t k. delayed later (dates_of_plan plan.now t k)) }
{
    latest_dates_move_with_dues();
}

/// Rows have latest dates.
pub fn has_latest_dates(net: &Net, live: &Live, due: &Due, last: u64)
    requires live { IsRanking net.now live.now }
    requires last { AreDueUpTo net.now (due_in due.now.rows.items) last }
    ensures { (y : ℕ → ℕ → Date) × AreLatestDates net.now (due_in due.now.rows.items) y }
{
    net.rules();
    ranked_nets_are_live();
    latest_dates_are_solutions();
}

/// Due dates are met where they are moved far enough.
pub fn met_when_later(net: &Net, live: &Live, due: &Due, last: u64)
    requires live { IsRanking net.now live.now }
    requires last { AreDueUpTo net.now (due_in due.now.rows.items) last }
    ensures { (enough : ℕ) × ((c : ℕ) → enough ≤ c
        → InputsMeet net.now (λ t k. later_due c (due_in due.now.rows.items t k)) inputs_at_zero) }
{
    net.rules();
    ranked_nets_are_live();
    late_due_dates_are_met();
}

/// A late walk refuses the due dates.
pub fn walk_refuses(
    net: &Net,
    due: &Due,
    transition: TransitionId,
    number: u64,
    start: u64,
    date: u64,
    row: u64,
    walk: &Walk,
)
    requires late { IsLateWalk net.now transition.index number start date walk.now }
    requires row { due_in due.now.rows.items transition.index number ≡ Some row }
    requires past { row < date }
    ensures { (v : ℕ → ℕ → Date) → InputsMeet net.now (due_in due.now.rows.items) v → ⊥ }
{
    net.rules();
    late_walks_refuse();
}

/// A tight walk bounds each dating that keeps the due dates.
pub fn walk_bounds(
    net: &Net,
    due: &Due,
    transition: TransitionId,
    number: u64,
    date: u64,
    walk: &Walk,
)
    requires tight { IsTightWalk net.now (due_in due.now.rows.items) transition.index number
        (At (pos date)) walk.now }
    ensures { (u x : ℕ → ℕ → Date) → IsFeasibleUnder net.now u x
        → KeepsDues net.now (due_in due.now.rows.items) x
        → IsAtMostDate (x transition.index number) (At (pos date)) }
{
    net.rules();
    tight_walks_bound();
}
