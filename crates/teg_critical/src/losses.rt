//! What places lose against the net's greatest ratio: by the potentials of the answer no place
//! gains, so that the best path back is one that loses least (chapter 3).
ghost use Rattle.std.specs.Prelude.{◌≡◌, ◌≤◌, ◌<◌, ◌*◌, length, IfOk, IfSome, IfNone, Some};
ghost use Rattle.teg_net.specs.Limits.{greatest_hold, most_place_tokens};
ghost use Rattle.teg_net.specs.Certificates.{potential_at, IsCertificate};
ghost use Rattle.teg_net.specs.Parts.{IsPlaceOfPart};
ghost use Rattle.teg_net.specs.ReducedTimes.{reduced_time_of_place};
ghost use Rattle.teg_net.specs.Ratios.{IsRatioWithin};
ghost use Rattle.teg_certificates.specs.BestRatios.{best_ratio_of};
ghost use Rattle.teg_critical.specs.Losses.{most_lost, most_loss, IsLost, CanLose, CanLoseBy, CanLoseIn, loss_at_best, IsLossOf, IsLossIn, part_of_transition, IsBetweenParts, IsPlaceLoss, AreLosses};

use std::alloc::{AllocError, Global};
use teg_net::{CycleAnswer, Net, PartAnswer, Place, PlaceId, Potential, Ratio, TransitionId};

// What a place loses against the greatest ratio, times `scale`, the tokens of its part's ratio.
#[derive(Clone, Copy)]
pub(crate) struct Loss {
    pub(crate) amount: u128,
    pub(crate) scale: u64,
}

// The potential of a transition, 0 where none is told.
fn potential_of(potentials: &[Potential], transition: TransitionId) -> i128
    ensures { result ≡ potential_at potentials.now transition.index }
{
    for potential in potentials {
        if potential.transition.index == transition.index {
            return potential.value;
        }
    }
    0
}

// The reduced time of a place at a ratio: the ratio's tokens times its hold, less the ratio's time
// times its tokens.
fn count_at(ratio: Ratio, place: &Place) -> i128
    requires ratio { IsRatioWithin ratio }
    requires hold { place.now.hold ≤ greatest_hold }
    requires tokens { place.now.tokens ≤ most_place_tokens }
    ensures { result ≡ reduced_time_of_place ratio place.now }
{
    let gain = i128::from(ratio.tokens()) * i128::from(place.hold);
    let cost = i128::from(ratio.time()) * i128::from(place.tokens);
    gain - cost
}

// By how much a count, from one potential on, stays below another.
fn lost_between(count: i128, start: i128, end: i128) -> u128
    requires { CanLose count start end }
    ensures lost { IsLost count start end result }
    ensures small { result ≤ most_lost }
{
    (end - start - count) as u128
}

// What a place loses at the greatest ratio, times the tokens of its part's, where it loses so much
// at that.
fn loss_against(best: Ratio, own: Ratio, lost: u128, tokens: u32) -> u128
    requires best { IsRatioWithin best }
    requires own { IsRatioWithin own }
    requires below { own.time * best.tokens ≤ best.time * own.tokens }
    requires lost { lost ≤ most_lost }
    requires tokens { tokens ≤ most_place_tokens }
    ensures amount { result ≡ loss_at_best best own lost tokens }
    ensures small { result ≤ most_loss }
{
    let greatest = u128::from(best.time()) * u128::from(own.tokens());
    let slower = greatest - u128::from(own.time()) * u128::from(best.tokens());
    u128::from(best.tokens()) * lost + slower * u128::from(tokens)
}

// What a place loses whose ends lie in a part with this ratio and these potentials.
fn loss_by(best: Ratio, own: Ratio, potentials: &[Potential], place: &Place) -> Loss
    requires { CanLoseBy best own potentials.now place.now }
    ensures { IsLossOf best own (potential_at potentials.now place.now.from.index)
        (potential_at potentials.now place.now.to.index) place.now result }
{
    let start = potential_of(potentials, place.from);
    let end = potential_of(potentials, place.to);
    let lost = lost_between(count_at(own, place), start, end);
    Loss {
        amount: loss_against(best, own, lost, place.tokens),
        scale: own.tokens(),
    }
}

// What a place loses in a part with this answer.
fn loss_in(best: Ratio, part: &PartAnswer, place: &Place) -> Option<Loss>
    requires { CanLoseIn best part.now place.now }
    ensures { IsLossIn best part.now place.now result }
{
    match part {
        PartAnswer::NoCircuit => None,
        PartAnswer::Best {
            ratio,
            potentials,
            ..
        } => Some(loss_by(best, *ratio, potentials, place)),
    }
}

// The number of a transition's part.
fn part_of_transition(answer: &CycleAnswer, transition: TransitionId) -> u32
    requires { transition.index < length answer.now.part_of.items }
    ensures { result ≡ part_of_transition answer.now transition.index }
{
    answer.part_of[transition.index as usize]
}

// The number of the part in which a place lies; none where its ends lie in two.
fn part_of_place(net: &Net, answer: &CycleAnswer, place: PlaceId) -> Option<u32>
    requires certificate { IsCertificate net.now answer.now }
    requires place { place.index < length net.now.places }
    ensures inside { IfSome result (λ part.
        IsPlaceOfPart net.now answer.now.part_of.items part place) }
    ensures apart { IfNone result (IsBetweenParts net.now answer.now place) }
{
    let place = &net.places()[place.index as usize];
    let part = part_of_transition(answer, place.from);
    if part_of_transition(answer, place.to) == part {
        Some(part)
    } else {
        None
    }
}

// What a place loses; none where its ends lie in two parts.
fn loss_of(net: &Net, answer: &CycleAnswer, best: Ratio, place: PlaceId) -> Option<Loss>
    requires certificate { IsCertificate net.now answer.now }
    requires best { best_ratio_of answer.now ≡ Some best }
    requires place { place.index < length net.now.places }
    ensures { IsPlaceLoss net.now answer.now best place result }
{
    let part = part_of_place(net, answer, place)?;
    loss_in(
        best,
        &answer.parts[part as usize],
        &net.places()[place.index as usize],
    )
}

// What each place loses.
pub(crate) fn losses_of(
    alloc: Global,
    net: &Net,
    answer: &CycleAnswer,
    best: Ratio,
) -> Result<Vec<Option<Loss>>, AllocError>
    requires certificate { IsCertificate net.now answer.now }
    requires best { best_ratio_of answer.now ≡ Some best }
    ensures { IfOk result (λ losses. AreLosses net.now answer.now best losses.items) }
{
    let mut losses = Vec::new(alloc);
    for index in 0..net.places().len() {
        let place = PlaceId {
            index: index as u32,
        };
        losses.push(loss_of(net, answer, best, place))?;
    }
    Ok(losses)
}
