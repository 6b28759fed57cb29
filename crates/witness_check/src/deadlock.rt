//! The witness of `teg check` where a net is not live: a circuit without tokens.
ghost use Rattle.std.specs.Prelude.{◌↔◌, IfOk, IsTrue};
ghost use Rattle.teg_net.specs.Circuits.{IsLive};
ghost use Rattle.witness_check.specs.Liveness.{TellsDeadlock};

use crate::names::places_named;
use std::alloc::Global;
use teg_certificates::shows_deadlock as is_deadlock;
use teg_net::{Net, OutOfMemory};

/// Whether the text is that of `teg check` for a circuit of the net without tokens, told from any of
/// its places on, which shows that the net is not live (chapter 2). `OutOfMemory` comes only where
/// no memory is found.
pub fn shows_deadlock(alloc: Global, net: &Net, text: &str) -> Result<bool, OutOfMemory>
    ensures told { IfOk result (λ yes. IsTrue yes ↔ TellsDeadlock net.now text.now) }
    ensures not_live { IfOk result (λ yes. IsTrue yes → IsLive net.now → ⊥) }
{
    net.rules();
    let Some(words) = text.strip_prefix("refused: token-free circuit") else {
        return Ok(false);
    };
    let Some(names) = words.strip_suffix('\n') else {
        return Ok(false);
    };
    let Some(places) = places_named(alloc, net, names)? else {
        return Ok(false);
    };
    Ok(is_deadlock(net, &places))
}
