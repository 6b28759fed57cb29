//! Ranks from the sinks upwards: each round ranks one transition all of whose places without
//! tokens lead to ranked ones. Where none is left to rank so, exits close a circuit.
ghost use Rattle.std.specs.Prelude.{ℕ, IfOk, IfErr, IfSome, IfNone};
ghost use Rattle.teg_net.specs.Circuits.{IsLive};
ghost use Rattle.teg_check.specs.Ranks.{IsRanking};
ghost use Rattle.teg_check.specs.CheckRefusals.{IsRightCheckRefusal};
ghost use Rattle.teg_check.specs.Exits.{IsUnranked};

use crate::exits::{Exits, circuit_from};
use crate::live::Live;
use crate::refusal::CheckRefusal;
use std::alloc::Global;
use teg_net::{Circuit, Net, OutOfMemory};

// The first transition that has no rank.
fn first_unranked(ranked: &[bool]) -> Option<usize>
    ensures some { IfSome result (λ t. IsUnranked ranked.now t) }
    ensures none { IfNone result ((t : ℕ) → IsUnranked ranked.now t → ⊥) }
{
    for (t, is_ranked) in ranked.iter().enumerate() {
        if !*is_ranked {
            return Some(t);
        }
    }
    None
}

/// Whether the net is live (chapter 2): ranks exactly where no circuit is without tokens.
///
/// `TokenFree` comes exactly where some circuit has no tokens, and names one, beginning with the
/// place that leaves its lowest numbered transition. `OutOfMemory` comes only where no memory is
/// found. It takes time of order n^2 + p for n transitions and p places.
pub fn check(alloc: Global, net: &Net) -> Result<Live, CheckRefusal>
    ensures ranks { IfOk result (λ live. IsRanking net.now live) }
    ensures live { IfOk result (λ _. IsLive net.now) }
    ensures token_free { IfErr result (λ refusal. IsRightCheckRefusal net.now refusal) }
{
    let count = net.transitions().len();
    let mut ranks = vec![in alloc; 0u32; count]?;
    let mut ranked = vec![in alloc; false; count]?;
    let mut exits = Exits::new(alloc, net)?;
    for rank in (0..count).rev() {
        if let Some(sink) = exits.first_sink(net, &ranked) {
            ranks[sink] = rank as u32;
            ranked[sink] = true;
        } else {
            let start = first_unranked(&ranked).unwrap();
            let places = circuit_from(alloc, net, &mut exits, &ranked, start)?;
            let mut circuit = Circuit { places };
            circuit.begin_lowest(net);
            return Err(CheckRefusal::TokenFree { circuit });
        }
    }
    Ok(Live::new(ranks))
}

/// The ranks of a net that is known to be live.
///
/// `OutOfMemory` comes only where no memory is found. It takes the time of [`check`].
pub fn ranks_of(alloc: Global, net: &Net) -> Result<Live, OutOfMemory>
    requires { IsLive net.now }
    ensures { IfOk result (IsRanking net.now) }
{
    match check(alloc, net) {
        Ok(live) => Ok(live),
        Err(CheckRefusal::TokenFree { .. }) => unreachable!(),
        Err(CheckRefusal::OutOfMemory) => Err(OutOfMemory),
    }
}
