//! What shows the slack of one place, by itself: a circuit, potentials and a circuit, or numbers.
ghost use Rattle.std.specs.Prelude.{◌≡◌, ◌≤◌, ◌<◌, ◌↔◌, length, IfOk, IsTrue, Some};
ghost use Rattle.teg_net.specs.Nets.{IsNet};
ghost use Rattle.teg_net.specs.Circuits.{IsLive};
ghost use Rattle.teg_net.specs.Certificates.{IsCertificate};
ghost use Rattle.teg_certificates.specs.BestRatios.{best_ratio_of};
ghost use Rattle.teg_certificates.specs.SlackWitnesses.{RiseAtPlace};
ghost use Rattle.teg_critical.specs.Slacks.{IsOnCircuit};
ghost use Rattle.teg_critical.specs.Hops.{reached_number};
ghost use Rattle.teg_critical.specs.Heights.{CanRaise, CanPass, AreHeights, AreFinal, IsTightBy, AreTight, LacksGap};
ghost use Rattle.teg_critical.specs.SlackWitnessed.{IsSlackWitness, IsWitnessAt};

use crate::each_place::gap_from;
use crate::endings::Ending;
use crate::heights::{Raised, cost_of, gain_of, heights_of, potentials_by};
use crate::hops::{Hop, circuit_back, end_of, hops_from, start_of};
use crate::losses::losses_of;
use crate::searches::{NetLosses, least_losses};
use std::alloc::{AllocError, Global};
use teg_certificates::{RiseWitness, best_ratio};
use teg_net::{Circuit, CycleAnswer, Net, OutOfMemory, Place, PlaceEnd, PlaceId, PlacesOf, Ratio};

/// What shows the slack of a place (chapters 2 and 3). Each circuit begins with the place.
#[derive(Debug, Drop)]
pub enum SlackWitness {
    /// No circuit passes the place: numbers of the transitions, in order, which never fall along a
    /// place and rise along this one.
    NoCircuit { numbers: Vec<u32> },
    /// A circuit of the net's greatest ratio passes the place.
    Critical { circuit: Circuit },
    /// Its hold can rise by so much and no more.
    Rise { rise: RiseWitness },
}

// 1 for a transition that is reached, 0 for another.
fn number_of(hop: Option<Hop>) -> u32
    ensures { result ≡ reached_number hop }
{
    match hop {
        None => 0,
        Some(_) => 1,
    }
}

// 1 for each transition that is reached from the end of the place, and 0 for the others.
fn numbers_from(alloc: Global, net: &Net, place: PlaceId) -> Result<Vec<u32>, AllocError>
    requires place { place.index < length net.now.places }
    requires none { IsNet net.now → IsOnCircuit net.now place → ⊥ }
    ensures { IfOk result (λ numbers. RiseAtPlace net.now numbers.items place) }
{
    let usable = vec![in alloc; true; net.places().len()]?;
    let hops = hops_from(alloc, net, &usable, place)?;
    let mut numbers = Vec::new(alloc);
    for hop in &hops {
        numbers.push(number_of(*hop))?;
    }
    Ok(numbers)
}

// Whether a place makes of the height of its start just that of its end.
fn is_tight(raised: &Raised, heights: &[u64], number: usize, place: &Place) -> bool
    requires { CanPass raised.now place.now heights.now }
    ensures { IsTrue result ↔ IsTightBy raised.now number place.now heights.now }
{
    let from = heights[place.from.index as usize] + gain_of(raised, number, place);
    from == heights[place.to.index as usize] + cost_of(raised, place)
}

// Which places are tight.
fn tight_places(
    alloc: Global,
    net: &Net,
    raised: &Raised,
    heights: &[u64],
) -> Result<Vec<bool>, AllocError>
    requires can { CanRaise net.now raised.now }
    requires heights { AreHeights net.now raised.now heights.now }
    ensures { IfOk result (λ tight. AreTight net.now raised.now heights.now tight.items) }
{
    let mut tight = Vec::new(alloc);
    for (number, place) in net.places().iter().enumerate() {
        tight.push(is_tight(raised, heights, number, place))?;
    }
    Ok(tight)
}

// A circuit of tight places that passes the place.
fn tight_circuit(
    alloc: Global,
    net: &Net,
    raised: &Raised,
    heights: &[u64],
) -> Result<Circuit, AllocError>
    requires can { CanRaise net.now raised.now }
    requires heights { AreHeights net.now raised.now heights.now }
    requires settled { AreFinal net.now raised.now heights.now }
    ensures { IfOk result (λ c. LacksGap net.now raised.now c.places.items) }
{
    let tight = tight_places(alloc, net, raised, heights)?;
    let hops = hops_from(alloc, net, &tight, raised.place)?;
    let places = circuit_back(alloc, net, &tight, &hops, raised.place)?;
    Ok(Circuit { places })
}

// What shows the slack of a place that such a circuit passes.
fn witness_by(alloc: Global, net: &Net, raised: &Raised) -> Result<SlackWitness, AllocError>
    requires can { CanRaise net.now raised.now }
    ensures { IfOk result (IsWitnessAt net.now raised.now.ratio raised.now.place) }
{
    let heights = heights_of(alloc, net, raised)?;
    let circuit = tight_circuit(alloc, net, raised, &heights)?;
    if raised.gap == 0 {
        return Ok(SlackWitness::Critical { circuit });
    }
    let potentials = potentials_by(alloc, &heights)?;
    let rise = RiseWitness {
        by: raised.gap / raised.ratio.tokens(),
        circuit,
        potentials,
    };
    Ok(SlackWitness::Rise { rise })
}

// What shows the slack of a place, at the greatest ratio.
fn witness_at(
    alloc: Global,
    net: &Net,
    answer: &CycleAnswer,
    best: Ratio,
    place: PlaceId,
) -> Result<SlackWitness, OutOfMemory>
    requires certificate { IsCertificate net.now answer.now }
    requires live { IsLive net.now }
    requires best { best_ratio_of answer.now ≡ Some best }
    requires place { place.index < length net.now.places }
    ensures { IfOk result (IsWitnessAt net.now best place) }
{
    let losses = losses_of(alloc, net, answer, best)?;
    let leaving = PlacesOf::new(alloc, net, PlaceEnd::From)?;
    let known = NetLosses {
        net,
        losses: &losses,
        leaving: &leaving,
    };
    let ending = Ending {
        start: start_of(net, place),
        end: end_of(net, place),
        place,
    };
    let back = least_losses(alloc, &known, ending.end, &[ending])?;
    let Some(gap) = gap_from(&known, best, &back, ending) else {
        let numbers = numbers_from(alloc, net, place)?;
        return Ok(SlackWitness::NoCircuit { numbers });
    };
    let raised = Raised {
        ratio: best,
        place,
        gap,
    };
    Ok(witness_by(alloc, net, &raised)?)
}

/// What shows the slack of a place of a live net, so that the checkers of `teg_certificates` say
/// yes to it, by an answer on cycle times that `check_cycle` accepts (chapters 2 and 3).
///
/// `NoCircuit` comes with numbers for `shows_no_circuit`, `Critical` with a circuit for
/// `shows_critical`, and `Rise` with potentials and a circuit for `shows_rise`. That the place has
/// that slack, which `critical` tells, is the law `witnesses_tell_slacks`. With which of its places
/// a circuit begins, no clause says. `OutOfMemory` comes only where no memory is found. It takes
/// time of order n p for n transitions and p places.
pub fn slack_witness(
    alloc: Global,
    net: &Net,
    answer: &CycleAnswer,
    place: PlaceId,
) -> Result<SlackWitness, OutOfMemory>
    requires certificate { IsCertificate net.now answer.now }
    requires live { IsLive net.now }
    requires place { place.index < length net.now.places }
    ensures { IfOk result (IsSlackWitness net.now answer.now place) }
{
    match best_ratio(answer) {
        Some(best) => witness_at(alloc, net, answer, best, place),
        None => Ok(SlackWitness::NoCircuit {
            numbers: numbers_from(alloc, net, place)?,
        }),
    }
}
