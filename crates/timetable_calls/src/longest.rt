//! A circuit of greatest ratio of a live net.
ghost use Rattle.std.specs.Prelude.{◌≡◌, IfOk};
ghost use Rattle.teg_net.specs.GreatestRatios.{IsCycleTime};
ghost use Rattle.teg_net.specs.PartAnswers.{ArePartAnswers};
ghost use Rattle.teg_check.specs.Ranks.{IsRanking};
ghost use Rattle.timetable_calls.specs.Earliest.{IsBusiest};

use std::alloc::Global;
use teg_check::Live;
use teg_cycle::cycle;
use teg_net::{Circuit, CycleAnswer, Net, OutOfMemory, PartAnswer, Ratio};
use teg_parts::split;

// A circuit and its ratio.
#[derive(Drop)]
pub(crate) struct Busiest {
    pub(crate) ratio: Ratio,
    pub(crate) circuit: Circuit,
}

// The circuit of the best part of an answer.
fn best_of(net: &Net, answer: CycleAnswer, part_of: &[u32]) -> Option<Busiest>
    requires parts { ArePartAnswers net.now part_of.now answer.parts.items }
    requires best { IsCycleTime net.now answer.parts.items answer.best }
    ensures { IsBusiest net.now result }
{
    let _net = net;
    let _part_of = part_of;
    let mut answer = answer;
    let best = answer.best? as usize;
    if answer.parts.len() <= best {
        return None;
    }
    match answer.parts.swap_remove(best) {
        PartAnswer::NoCircuit => None,
        PartAnswer::Best { ratio, circuit, .. } => Some(Busiest { ratio, circuit }),
    }
}

// A circuit of greatest ratio, told from its lowest numbered transition on; none where the net has
// no circuit.
pub(crate) fn greatest_circuit(
    alloc: Global,
    net: &Net,
    live: &Live,
) -> Result<Option<Busiest>, OutOfMemory>
    requires { IsRanking net.now live.now }
    ensures { IfOk result (IsBusiest net.now) }
{
    let parts = split(alloc, net)?;
    let numbers = parts.numbers()?;
    let answer = cycle(alloc, net, live, &parts)?;
    Ok(best_of(net, answer, &numbers))
}
