//! Settled forms, transfers and lines.
ghost use Rattle.std.specs.Prelude.{ℕ, ◌<◌, ◌≤◌, ◌≡◌, ◌+◌, ℤ, Bool, IsTrue, length};
ghost use Rattle.dioid_matrix.specs.Tables.{entry_of};
ghost use Rattle.bound_laws.specs.Critical.{AllReadyAtZero, IsStrong};
ghost use Rattle.cyclicity_laws.specs.CriticalParts.{IsCommonByParts, IsStronglyConnected};
ghost use Rattle.growth_laws.specs.CertifiedLines.{lifted_potential, IsLiftInto};
ghost use Rattle.growth_laws.specs.DateLines.{line_at, ArePotentialsInto, AreStartsBelow, IsBelowLine};
ghost use Rattle.growth_laws.specs.Growth.{GrowBy, IsEndless};
ghost use Rattle.io_laws.specs.InputOutput.{no_releases, AreTransferTimes, IsOutput};
ghost use Rattle.net_matrices.specs.NetEntries.{IsMatrixOfNet};
ghost use Rattle.net_matrices.specs.TransferStars.{star_date};
ghost use Rattle.realization_laws.specs.Realizations.{IsCausalPeriodic, IsRealized};
ghost use Rattle.slope_laws.specs.Slopes.{IsSlope};
ghost use Rattle.still_laws.specs.StillNets.{IsStill};
ghost use Rattle.std.specs.Int.{◌∣◌};
ghost use Rattle.settled_laws.specs.SettledForms.{settled_date, IsSettledFormOf};
ghost use Rattle.teg_check.specs.Ranks.{IsRanking};
ghost use Rattle.teg_model.specs.Datings.{IsLeastDating, IsLeastUnder};
ghost use Rattle.teg_model.specs.dioid.declared.dates.Date.{Date};
ghost use Rattle.teg_net.specs.Certificates.{IsCertificate};
ghost use Rattle.teg_net.specs.GreatestRatios.{IsAnyPlace, IsGreatestRatio};
ghost use Rattle.teg_net.specs.Limits.{greatest_hold, most_place_tokens};
ghost use Rattle.teg_net.specs.Nets.{IsInput};
ghost use Rattle.teg_net.specs.Parts.{Reaches};
ghost use Rattle.teg_settle.specs.walk_times.Transfers.{AreWalkTimes, IsTransferOf};
ghost use Rattle.teg_settle.specs.periodic_laws.Equations.{gains};

use cyclicity_laws::{dates_grow_by_cycle_time, periods_divide_by_parts};
use dioid_matrix::Matrix;
use growth_laws::{certificates_draw_lines, dates_grow_by_slopes, potentials_bound_dates};
use io_laws::dates_are_outputs;
use net_matrices::transfers_are_stars;
use realization_laws::{series_are_realized, transfers_are_periodic};
use series_ops::Gain;
use still_laws::{other_nets_are_strong, still_nets_settle_at_once};
use teg_check::{Live, ranked_nets_are_live};
use teg_net::{CycleAnswer, Net, Place, Ratio, Transition, TransitionId};
use teg_settle::Settled;

/// The dates of a net are its outputs.
pub fn dates_are_responses(net: &Net, live: &Live)
    requires live { IsRanking net.now live.now }
    ensures { (x u y : ℕ → ℕ → Date) (h : ℕ → ℕ → ℕ → Date)
        → IsLeastUnder net.now no_releases x → IsLeastUnder net.now u y → AreTransferTimes net.now h
        → (t k : ℕ) → t < length net.now.transitions → 1 ≤ k → IsOutput net.now x u h t k (y t k) }
{
    net.rules();
    ranked_nets_are_live();
    dates_are_outputs();
}

/// The dates of a net are the responses by the star of its matrix, which is not computed for it.
pub fn dates_are_responses_of_stars(net: &Net, live: &Live, _matrix: &Matrix<Gain>)
    requires live { IsRanking net.now live.now }
    requires matrix { IsMatrixOfNet net.now _matrix.now }
    ensures { (x u y : ℕ → ℕ → Date)
        → IsLeastUnder net.now no_releases x → IsLeastUnder net.now u y
        → (t k : ℕ) → t < length net.now.transitions → 1 ≤ k
        → IsOutput net.now x u (star_date net.now (entry_of gains _matrix.now)) t k (y t k) }
{
    net.rules();
    ranked_nets_are_live();
    transfers_are_stars();
}

/// The dates of a net with one input are the responses to its releases, by its transfer.
pub fn transfer_tells_dates(net: &Net, live: &Live, input: TransitionId, transfer: &Settled)
    requires live { IsRanking net.now live.now }
    requires only { (t : ℕ) → IsInput net.now t → t ≡ input.index }
    requires transfer { IsTransferOf net.now input.index transfer.now }
    ensures { (x u y : ℕ → ℕ → Date)
        → IsLeastUnder net.now no_releases x → IsLeastUnder net.now u y
        → (t k : ℕ) → t < length net.now.transitions → 1 ≤ k
        → IsOutput net.now x u (λ i. settled_date transfer.now) t k (y t k) }
{
    net.rules();
    ranked_nets_are_live();
    dates_are_outputs();
}

/// The transfer times of an input are causal periodic series.
pub fn transfer_is_periodic(net: &Net, live: &Live, input: TransitionId)
    requires live { IsRanking net.now live.now }
    requires input { IsInput net.now input.index }
    ensures { (x : ℕ → ℕ → Date) × AreWalkTimes net.now input.index x
        × ((t : ℕ) → t < length net.now.transitions → IsCausalPeriodic (λ k. x t (k + 1))) }
{
    net.rules();
    ranked_nets_are_live();
    transfers_are_periodic();
}

/// The dates of a transition that no ended list reaches grow by a slope.
pub fn has_slope(net: &Net, live: &Live, transition: TransitionId)
    requires live { IsRanking net.now live.now }
    requires transition { transition.index < length net.now.transitions }
    requires endless { IsEndless net.now transition.index }
    ensures { (x : ℕ → ℕ → Date) → IsLeastDating net.now x
        → (a : ℕ) × (b : ℕ) × (1 ≤ b) × IsSlope net.now transition.index b a }
{
    net.rules();
    ranked_nets_are_live();
    dates_grow_by_slopes();
}

/// Where the starts are below the lines of potentials, the dates are.
pub fn dates_stay_below(net: &Net, live: &Live, ratio: Ratio)
    requires live { IsRanking net.now live.now }
    ensures { (u x : ℕ → ℕ → Date) (inside : ℕ → Bool) (c : ℤ) (v : ℕ → ℤ)
        → IsLeastUnder net.now u x → ArePotentialsInto net.now inside ratio.time ratio.tokens v
        → AreStartsBelow net.now u inside ratio.time ratio.tokens c v
        → (t k : ℕ) → t < length net.now.transitions → 1 ≤ k → IsTrue (inside t)
        → IsBelowLine ratio.tokens (line_at ratio.time c v t k) (x t k) }
{
    net.rules();
    ranked_nets_are_live();
    potentials_bound_dates();
}

/// Each causal periodic series is realized by a net, with the labels of these.
pub fn series_is_realized(transition: &Transition, place: &Place)
    ensures { (s : ℕ → Date) → IsCausalPeriodic s → IsRealized s }
{
    series_are_realized();
}

/// A strongly connected net that is not still is strong in the sense of its bound.
pub fn net_is_strong(net: &Net, live: &Live, ratio: Ratio)
    requires live { IsRanking net.now live.now }
    requires no_input { (t : ℕ) → IsInput net.now t → ⊥ }
    requires reaches { (s t : ℕ) → s < length net.now.transitions → t < length net.now.transitions
        → Reaches net.now s t }
    requires ready { AllReadyAtZero net.now }
    requires greatest { IsGreatestRatio net.now IsAnyPlace ratio }
    requires some { 1 ≤ ratio.time }
    ensures { IsStrong net.now greatest_hold most_place_tokens ratio.time ratio.tokens }
{
    net.rules();
    ranked_nets_are_live();
    other_nets_are_strong();
}

/// Lines over the dates by the potentials of a certificate.
pub fn answer_draws_lines(net: &Net, answer: &CycleAnswer)
    requires certificate { IsCertificate net.now answer.now }
    ensures { (inside : ℕ → Bool) (a b lift : ℕ) → IsLiftInto net.now answer.now inside a b lift
        → ArePotentialsInto net.now inside a b (lifted_potential b lift answer.now) }
{
    net.rules();
    certificates_draw_lines();
}

/// The settled form of a still net begins with the first firing and has period 1.
pub fn still_form(net: &Net, form: &Settled)
    requires form { IsSettledFormOf net.now form.now }
    requires no_input { (t : ℕ) → IsInput net.now t → ⊥ }
    requires reaches { (s t : ℕ) → s < length net.now.transitions → t < length net.now.transitions
        → Reaches net.now s t }
    requires still { IsStill net.now }
    requires ready { AllReadyAtZero net.now }
    ensures after { form.now.after ≡ 0 }
    ensures period { form.now.period ≡ 1 }
{
    net.rules();
    still_nets_settle_at_once();
}

/// The dates of a strongly connected net grow by its cycle time.
pub fn grows_by_ratio(net: &Net, ratio: Ratio, transition: TransitionId)
    requires strong { IsStronglyConnected net.now ratio.time ratio.tokens }
    requires transition { transition.index < length net.now.transitions }
    ensures { (x : ℕ → ℕ → Date) → IsLeastDating net.now x
        → GrowBy (x transition.index) ratio.time ratio.tokens }
{
    dates_grow_by_cycle_time();
}

/// The period of its form divides each common multiple by parts.
pub fn period_divides(net: &Net, ratio: Ratio, form: &Settled, multiple: u64)
    requires strong { IsStronglyConnected net.now ratio.time ratio.tokens }
    requires form { IsSettledFormOf net.now form.now }
    requires some { 1 ≤ multiple }
    requires common { IsCommonByParts net.now ratio.time ratio.tokens multiple }
    ensures { form.now.period ∣ multiple }
{
    periods_divide_by_parts();
}
