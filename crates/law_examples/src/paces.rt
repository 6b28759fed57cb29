//! The pace of a net and of its parts, from the answers of calls.
ghost use Rattle.std.specs.Prelude.{ℕ, ℤ, ◌+ℤ◌, ◌*◌, ◌≤◌, ◌≡◌, ◌⊎◌, ◌↔◌, List, length, All, Contains};
ghost use Rattle.delay_laws.specs.PlannedTimetables.{IsWorkable};
ghost use Rattle.pace_laws.specs.Eigenspaces.{AreBegunAt, AreGreatestFrom, AreInOneCriticalPart, IsCriticalTransition, IsSpannedAt};
ghost use Rattle.pace_laws.specs.TightPotentials.{ArePacedDates, AreTightPotentials, IsCriticalIn, IsTightInto};
ghost use Rattle.policy_laws.specs.RoundCounts.{most_ratios};
ghost use Rattle.teg_check.specs.Ranks.{IsRanking};
ghost use Rattle.policy_rounds.specs.PolicyRounds.{IsPolicyRun};
ghost use Rattle.teg_net.specs.Certificates.{potential_at};
ghost use Rattle.teg_net.specs.GreatestRatios.{HasNoCircuit, IsAnyPlace, IsGreatestRatio};
ghost use Rattle.teg_net.specs.PartAnswers.{IsBestOfPart};
ghost use Rattle.teg_net.specs.Parts.{to_of, IsMember, IsPlaceOfPart, ListsMembers};
ghost use Rattle.teg_net.specs.Ratios.{Fraction};
ghost use Rattle.teg_parts.specs.Partitions.{AreParts};
ghost use Rattle.workable_laws.specs.WorkablePeriods.{AreWorkableFirsts, LeavesCircuitsTime};

use delay_laws::Timetable;
use pace_laws::{
    critical_circuits_tell_potentials, critical_parts_are_a_basis, critical_parts_tell_potentials,
    greatest_ratios_exist, potentials_are_spanned, tight_potentials_exist,
    tight_potentials_tell_the_ratio,
};
use policy_laws::rounds_are_few;
use teg_check::{Live, ranked_nets_are_live};
use teg_net::{Net, PlaceId, Potential, Ratio, Round};
use teg_parts::Parts;
use workable_laws::{periods_from_the_ratio_are_workable, workable_periods_leave_time};

/// A live net has a greatest ratio, or no circuit.
pub fn has_pace(net: &Net, live: &Live)
    requires live { IsRanking net.now live.now }
    ensures { HasNoCircuit net.now IsAnyPlace ⊎ ((r : Fraction) × IsGreatestRatio net.now IsAnyPlace r) }
{
    ranked_nets_are_live();
    greatest_ratios_exist();
}

/// The potentials that are told of a part are tight at its ratio.
pub fn potentials_are_tight(
    net: &Net,
    parts: &Parts,
    part: u32,
    ratio: Ratio,
    circuit: &[PlaceId],
    potentials: &[Potential],
)
    requires best { IsBestOfPart net.now parts.now.part_of part ratio circuit.now potentials.now }
    ensures { AreTightPotentials net.now parts.now.part_of part ratio.time ratio.tokens
        (potential_at potentials.now) }
{
    tight_potentials_tell_the_ratio();
}

/// And the first of dates that go on by the ratio.
pub fn potentials_are_paced(
    net: &Net,
    parts: &Parts,
    part: u32,
    ratio: Ratio,
    potentials: &[Potential],
)
    requires tight { AreTightPotentials net.now parts.now.part_of part ratio.time ratio.tokens
        (potential_at potentials.now) }
    ensures { ArePacedDates net.now parts.now.part_of part ratio.time ratio.tokens
        (potential_at potentials.now) }
{
    tight_potentials_tell_the_ratio();
}

/// A part with a greatest ratio has tight potentials.
pub fn has_tight_potentials(net: &Net, parts: &Parts, part: u32, ratio: Ratio)
    requires parts { AreParts net.now parts.now }
    requires greatest { IsGreatestRatio net.now (IsPlaceOfPart net.now parts.now.part_of part) ratio }
    ensures { (v : ℕ → ℤ) × AreTightPotentials net.now parts.now.part_of part ratio.time ratio.tokens v }
{
    net.rules();
    tight_potentials_exist();
}

/// Potentials that no place exceeds are just met along a critical circuit.
pub fn circuit_is_tight(
    net: &Net,
    parts: &Parts,
    part: u32,
    ratio: Ratio,
    circuit: &[PlaceId],
    potentials: &[Potential],
)
    requires tight { AreTightPotentials net.now parts.now.part_of part ratio.time ratio.tokens
        (potential_at potentials.now) }
    requires critical { IsCriticalIn net.now parts.now.part_of part ratio.time ratio.tokens
        circuit.now }
    ensures { All (λ p. IsTightInto net.now parts.now.part_of part ratio.time ratio.tokens
        (potential_at potentials.now) (to_of net.now p) p) circuit.now }
{
    critical_circuits_tell_potentials();
}

/// Each potential is spanned by those that begin at critical transitions.
pub fn potential_is_spanned(
    net: &Net,
    parts: &Parts,
    part: u32,
    ratio: Ratio,
    potentials: &[Potential],
    transition: u32,
)
    requires tight { AreTightPotentials net.now parts.now.part_of part ratio.time ratio.tokens
        (potential_at potentials.now) }
    requires member { IsMember parts.now.part_of part transition }
    ensures { IsSpannedAt net.now parts.now.part_of part ratio.time ratio.tokens
        (potential_at potentials.now) transition }
{
    potentials_are_spanned();
}

/// In one critical part all tight potentials of a part differ by the same.
pub fn potentials_move_as_one(
    net: &Net,
    parts: &Parts,
    part: u32,
    ratio: Ratio,
    first: &[Potential],
    second: &[Potential],
    from: u32,
    to: u32,
)
    requires first { AreTightPotentials net.now parts.now.part_of part ratio.time ratio.tokens
        (potential_at first.now) }
    requires second { AreTightPotentials net.now parts.now.part_of part ratio.time ratio.tokens
        (potential_at second.now) }
    requires together { AreInOneCriticalPart net.now parts.now.part_of part ratio.time ratio.tokens
        from to }
    ensures { (potential_at first.now to +ℤ potential_at second.now from)
        ≡ (potential_at second.now to +ℤ potential_at first.now from) }
{
    critical_parts_tell_potentials();
}

/// Potentials that begin at a critical transition are the greatest of others only where one of these
/// begins in its critical part.
pub fn none_is_left_out(
    net: &Net,
    parts: &Parts,
    part: u32,
    ratio: Ratio,
    transition: u32,
    starts: &[u32],
)
    requires critical { IsCriticalTransition net.now parts.now.part_of part ratio.time ratio.tokens
        transition }
    ensures { (moved v : ℕ → ℤ)
        → AreBegunAt net.now parts.now.part_of part ratio.time ratio.tokens transition v
        → AreGreatestFrom net.now parts.now.part_of part ratio.time ratio.tokens starts.now moved v
        → (u : ℕ) × Contains starts.now u
        × AreInOneCriticalPart net.now parts.now.part_of part ratio.time ratio.tokens transition u }
{
    critical_parts_are_a_basis();
}

/// Some potentials begin at each member of a part.
pub fn potentials_begin(net: &Net, parts: &Parts, part: u32, ratio: Ratio, transition: u32)
    requires parts { AreParts net.now parts.now }
    requires greatest { IsGreatestRatio net.now (IsPlaceOfPart net.now parts.now.part_of part) ratio }
    requires member { IsMember parts.now.part_of part transition }
    ensures { (v : ℕ → ℤ) × AreBegunAt net.now parts.now.part_of part ratio.time ratio.tokens transition v }
{
    net.rules();
    potentials_are_spanned();
}

/// A timetable that a net can keep leaves each circuit its time.
pub fn period_leaves_time(net: &Net, period: u64, table: &Timetable)
    requires workable { IsWorkable net.now period table.now }
    ensures { LeavesCircuitsTime net.now period }
{
    workable_periods_leave_time();
}

/// A live net has a workable timetable just at the periods from its cycle time on.
pub fn period_is_workable(net: &Net, live: &Live, ratio: Ratio, period: u64)
    requires live { IsRanking net.now live.now }
    requires greatest { IsGreatestRatio net.now IsAnyPlace ratio }
    ensures { ((f : ℕ → ℕ) × AreWorkableFirsts net.now period f) ↔ (ratio.time ≤ period * ratio.tokens) }
{
    net.rules();
    ranked_nets_are_live();
    periods_from_the_ratio_are_workable();
}

/// Policy iteration takes few rounds, by the members of the part.
pub fn rounds_are_within(
    net: &Net,
    live: &Live,
    parts: &Parts,
    part: u32,
    rounds: &[Round],
    hold: u64,
    tokens: u32,
)
    requires live { IsRanking net.now live.now }
    requires run { IsPolicyRun net.now parts.now.part_of part rounds.now }
    requires holds { All (λ p. p.hold ≤ hold) net.now.places }
    requires tokens { All (λ p. p.tokens ≤ tokens) net.now.places }
    ensures { (members : List ℕ) → ListsMembers parts.now.part_of part members
        → length rounds.now ≤ length members
        * most_ratios (length members * hold) (length members * tokens) }
{
    ranked_nets_are_live();
    rounds_are_few();
}
