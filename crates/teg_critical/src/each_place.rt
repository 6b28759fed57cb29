//! The slack of each place, by what the best path back from its end to its start lacks.
ghost use Rattle.std.specs.Prelude.{◌≡◌, ◌<◌, ◌≤◌, ◌/◌, length, All, IfOk, IfNone, IfSome, Some};
ghost use Rattle.teg_net.specs.Ratios.{Fraction};
ghost use Rattle.teg_net.specs.Nets.{IsNet};
ghost use Rattle.teg_net.specs.Circuits.{IsLive};
ghost use Rattle.teg_net.specs.GreatestRatios.{IsGreatestRatio, IsAnyPlace, HasNoCircuit};
ghost use Rattle.teg_net.specs.Certificates.{IsCertificate};
ghost use Rattle.teg_certificates.specs.BestRatios.{best_ratio_of};
ghost use Rattle.teg_critical.specs.declared.slacks.Slack.TheVariants.{NoCircuit};
ghost use Rattle.teg_critical.specs.Slacks.{IsOnCircuit, AreSlacks};
ghost use Rattle.teg_critical.specs.LossEndings.{IsEnding};
ghost use Rattle.teg_critical.specs.Losses.{LeavesGap};
ghost use Rattle.teg_critical.specs.LeastLosses.{CanSearch, AreToldBack, IsToldBack};
ghost use Rattle.teg_critical.specs.Told.{IsSlackOfGap, IsGapWithin, CanTellSlack, AreToldMore, AreUntold};

use crate::endings::{Ending, by_end, group_length};
use crate::losses::losses_of;
use crate::searches::{NetLosses, least_losses};
use crate::slacks::{Slack, Slacks};
use std::alloc::{AllocError, Global};
use teg_certificates::best_ratio;
use teg_net::{CycleAnswer, Net, OutOfMemory, PlaceEnd, PlacesOf, Ratio};

// The gap that a loss of the whole round tells.
fn gap_by(total: u128, scale: u64) -> u64
    requires { LeavesGap total scale }
    ensures { result ≡ total / scale }
{
    (total / u128::from(scale)) as u64
}

// What the best circuit that passes a place lacks to the greatest ratio, given the least that the
// paths back from its end to its start lose; none where no circuit passes it.
pub(crate) fn gap_from(
    known: &NetLosses,
    best: Ratio,
    back: &[Option<u128>],
    ending: Ending,
) -> Option<u64>
    requires can { CanTellSlack known.now.net.now best known.now.losses.now }
    requires ending { IsEnding known.now.net.now ending }
    requires count { length back.now ≡ length known.now.net.now.transitions }
    requires back { IsToldBack known.now.net.now known.now.losses.now back.now ending }
    ensures none { IfNone result (IsOnCircuit known.now.net.now ending.place → ⊥) }
    ensures some { IfSome result (IsGapWithin known.now.net.now best ending.place) }
{
    let _best = best;
    let Some(loss) = known.losses[ending.place.index as usize] else {
        return None;
    };
    let Some(rest) = back[ending.start] else {
        return None;
    };
    Some(gap_by(loss.amount + rest, loss.scale))
}

// The slack that a gap tells; no circuit where there is none.
fn slack_by(gap: Option<u64>, best: Ratio) -> Slack
    requires { 1 ≤ best.tokens }
    ensures { IsSlackOfGap gap best result }
{
    let Some(gap) = gap else {
        return Slack::NoCircuit;
    };
    if gap == 0 {
        Slack::Critical
    } else {
        Slack::Rise {
            by: gap / best.tokens(),
        }
    }
}

// Tells these places, given the least that the paths back from their ends to their starts lose.
fn tell_places(
    known: &NetLosses,
    best: Ratio,
    endings: &[Ending],
    back: &[Option<u128>],
    slacks: &mut [Slack],
)
    requires can { CanTellSlack known.now.net.now best known.now.losses.now }
    requires endings { All (IsEnding known.now.net.now) endings.now }
    requires back { AreToldBack known.now.net.now known.now.losses.now back.now endings.now }
    requires count { length slacks.old ≡ length known.now.net.now.places }
    ensures { AreToldMore known.now.net.now best endings.now slacks.old slacks.new }
{
    for ending in endings {
        let gap = gap_from(known, best, back, *ending);
        slacks[ending.place.index as usize] = slack_by(gap, best);
    }
}

// Tells each place, those that end at one transition after one search from there.
fn tell_all(
    alloc: Global,
    known: &NetLosses,
    best: Ratio,
    slacks: &mut [Slack],
) -> Result<(), AllocError>
    requires can { CanTellSlack known.now.net.now best known.now.losses.now }
    requires search { CanSearch known.now.net.now known.now.losses.now known.now.leaving.now }
    requires untold { AreUntold known.now.net.now slacks.old }
    ensures { IfOk result (λ _. AreSlacks known.now.net.now best slacks.new) }
{
    let order = by_end(alloc, known.net, known.losses)?;
    let mut rest = order.as_slice();
    'tell: while !rest.is_empty() {
        let count = group_length(rest);
        let group = &rest[..count];
        let back = least_losses(alloc, known, rest[0].end, group)?;
        tell_places(known, best, group, &back, slacks);
        rest = &rest[count..];
    }
    Ok(())
}

// The slack of each place at the greatest ratio.
fn slacks_at(
    alloc: Global,
    net: &Net,
    answer: &CycleAnswer,
    best: Ratio,
) -> Result<Vec<Slack>, OutOfMemory>
    requires certificate { IsCertificate net.now answer.now }
    requires live { IsLive net.now }
    requires best { best_ratio_of answer.now ≡ Some best }
    ensures slacks { IfOk result (λ slacks. AreSlacks net.now best slacks.items) }
    ensures greatest { IfOk result (λ _. IsGreatestRatio net.now IsAnyPlace best) }
{
    let losses = losses_of(alloc, net, answer, best)?;
    let leaving = PlacesOf::new(alloc, net, PlaceEnd::From)?;
    let mut slacks = vec![in alloc; Slack::NoCircuit; net.places().len()]?;
    let known = NetLosses {
        net,
        losses: &losses,
        leaving: &leaving,
    };
    tell_all(alloc, &known, best, &mut slacks)?;
    Ok(slacks)
}

// Of a net without circuits: no circuit passes any place.
fn no_slacks(alloc: Global, net: &Net) -> Result<Vec<Slack>, AllocError>
    ensures each { IfOk result (λ slacks. length slacks.items ≡ length net.now.places) }
    ensures none { IfOk result (λ slacks. All (λ s. s ≡ NoCircuit) slacks.items) }
    ensures rules { IfOk result (λ _. IsNet net.now) }
{
    vec![in alloc; Slack::NoCircuit; net.places().len()]
}

/// The slack of each place of a live net (chapters 2 and 3), by an answer on its cycle times that
/// `check_cycle` accepts.
///
/// Of the circuits of a live net some is the slowest, with the greatest ratio of holding time to
/// tokens. A place is told `Critical` exactly where a circuit of that ratio passes it, `NoCircuit`
/// exactly where no circuit does, and otherwise the greatest rise of its hold after which the net
/// has the same greatest ratio, whatever the limit on holds. In a net without circuits each place
/// is told `NoCircuit`. `OutOfMemory` comes only where no memory is found. It takes time of order
/// n p log p for n transitions and p places.
pub fn critical(alloc: Global, net: &Net, answer: &CycleAnswer) -> Result<Slacks, OutOfMemory>
    requires certificate { IsCertificate net.now answer.now }
    requires live { IsLive net.now }
    ensures each { IfOk result (λ slacks. length slacks ≡ length net.now.places) }
    ensures slacks { IfOk result (λ slacks. (r : Fraction) → IsGreatestRatio net.now IsAnyPlace r
        → AreSlacks net.now r slacks) }
    ensures none { IfOk result (λ slacks. HasNoCircuit net.now IsAnyPlace
        → All (λ s. s ≡ NoCircuit) slacks) }
{
    match best_ratio(answer) {
        Some(best) => Ok(Slacks::new(slacks_at(alloc, net, answer, best)?)),
        None => Ok(Slacks::new(no_slacks(alloc, net)?)),
    }
}
