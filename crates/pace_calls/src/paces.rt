//! The pace of a net, alone or with a circuit that holds it.
ghost use Rattle.std.specs.Prelude.{◌≡◌, IfOk};
ghost use Rattle.teg_check.specs.Ranks.{IsRanking};
ghost use Rattle.teg_certificates.specs.BestRatios.{best_ratio_of};
ghost use Rattle.teg_net.specs.Certificates.{IsCertificate};
ghost use Rattle.teg_net.specs.GreatestRatios.{IsCycleTime};
ghost use Rattle.pace_calls.specs.Paces.{IsCircuitOfPace, IsPace, IsPaceWithCircuit};

use std::alloc::Global;
use teg_check::Live;
use teg_cycle::{best_ratio, cycle, cycle_from};
use teg_net::{Circuit, CycleAnswer, Net, OutOfMemory, PartAnswer, Ratio};
use teg_parts::split;

/// The pace of a net and its bottleneck (chapter 2).
#[derive(Debug, Drop)]
pub struct PaceWithCircuit {
    /// The greatest ratio of holding time, in the user's unit, to tokens over the circuits of the
    /// net.
    pub ratio: Ratio,
    /// A circuit that has this ratio.
    pub bottleneck: Circuit,
}

/// The cycle times of a live net and of each of its parts (chapters 2 and 3), to be told once, for
/// [`pace_from`] to begin with where the net is changed and asked again. It answers `OutOfMemory`
/// only where no memory is found. It takes the time of `split` and of `cycle`.
pub fn cycle_times(alloc: Global, net: &Net, live: &Live) -> Result<CycleAnswer, OutOfMemory>
    requires { IsRanking net.now live.now }
    ensures net { IfOk result (λ answer. IsCycleTime net.now answer.parts.items answer.best) }
    ensures certificate { IfOk result (IsCertificate net.now) }
{
    let parts = split(alloc, net)?;
    cycle(alloc, net, live, &parts)
}

// The pace that an answer on the cycle times of the net tells.
fn told_pace(net: &Net, answer: &CycleAnswer) -> Option<Ratio>
    requires { IsCycleTime net.now answer.now.parts.items answer.now.best }
    ensures pace { IsPace net.now result }
    ensures told { result ≡ best_ratio_of answer.now }
{
    let _net = net;
    best_ratio(answer)
}

/// The greatest ratio of time to tokens over the circuits of a live net, in the user's unit for a
/// token; none where it has no circuit (chapter 2). It answers `OutOfMemory` only where no memory
/// is found. It takes the time of `split` and of `cycle`.
pub fn pace(alloc: Global, net: &Net, live: &Live) -> Result<Option<Ratio>, OutOfMemory>
    requires { IsRanking net.now live.now }
    ensures { IfOk result (IsPace net.now) }
{
    let answer = cycle_times(alloc, net, live)?;
    Ok(told_pace(net, &answer))
}

/// The pace of a live net, as [`pace`] tells it, by rounds that begin with an earlier answer, as
/// that on the net before a change (chapter 2): the pace is right whatever `before` tells. It
/// answers `OutOfMemory` only where no memory is found. It takes the time of `split` and of
/// `cycle_from`.
pub fn pace_from(
    alloc: Global,
    net: &Net,
    live: &Live,
    before: &CycleAnswer,
) -> Result<Option<Ratio>, OutOfMemory>
    requires { IsRanking net.now live.now }
    ensures { IfOk result (IsPace net.now) }
{
    let parts = split(alloc, net)?;
    let answer = cycle_from(alloc, net, live, &parts, before)?;
    Ok(told_pace(net, &answer))
}

// The circuit of the best part of an answer on the cycle times of the net.
fn best_circuit(net: &Net, mut answer: CycleAnswer) -> Option<Circuit>
    requires best { IsCycleTime net.now answer.parts.items answer.best }
    requires certificate { IsCertificate net.now answer }
    ensures { IsCircuitOfPace net.now (best_ratio_of answer) result }
{
    let Some(best) = answer.best else {
        return None;
    };
    let best = best as usize;
    if answer.parts.len() <= best {
        return None;
    }
    match answer.parts.swap_remove(best) {
        PartAnswer::NoCircuit => None,
        PartAnswer::Best { circuit, .. } => Some(circuit),
    }
}

// The pace and its circuit, where there is one.
fn joined(net: &Net, ratio: Option<Ratio>, circuit: Option<Circuit>) -> Option<PaceWithCircuit>
    requires pace { IsPace net.now ratio }
    requires circuit { IsCircuitOfPace net.now ratio circuit }
    ensures { IsPaceWithCircuit net.now result }
{
    let _net = net;
    let ratio = ratio?;
    let bottleneck = circuit?;
    Some(PaceWithCircuit { ratio, bottleneck })
}

/// The pace of a live net with its bottleneck, a circuit that has this ratio; none where the net
/// has no circuit (chapter 2). It answers `OutOfMemory` only where no memory is found. It takes the
/// time of `split` and of `cycle`.
pub fn bottleneck(
    alloc: Global,
    net: &Net,
    live: &Live,
) -> Result<Option<PaceWithCircuit>, OutOfMemory>
    requires { IsRanking net.now live.now }
    ensures { IfOk result (IsPaceWithCircuit net.now) }
{
    let answer = cycle_times(alloc, net, live)?;
    let ratio = told_pace(net, &answer);
    let circuit = best_circuit(net, answer);
    Ok(joined(net, ratio, circuit))
}
