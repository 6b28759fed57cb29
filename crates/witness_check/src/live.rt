//! What shows that a net is live: ranks of its transitions, which its text does not name.
ghost use Rattle.std.specs.Prelude.{◌≡◌, ◌↔◌, IfOk, IsTrue, string_bytes};
ghost use Rattle.teg_net.specs.Circuits.{IsLive};
ghost use Rattle.teg_text.specs.Lines.{written};
ghost use Rattle.witness_check.specs.Liveness.{TellsLive, live_words};

use crate::climbs::rising_numbers;
use std::alloc::{AllocError, Global};
use teg_net::{Net, OutOfMemory};

// The lines of a live net of so many transitions and places.
fn told(alloc: Global, transitions: usize, places: usize) -> Result<String, AllocError>
    ensures { IfOk result (λ text. string_bytes text ≡ written (live_words transitions places)) }
{
    format!(in alloc; "live\ntransitions {transitions}\nplaces {places}\n")
}

/// Whether the net is live (chapter 2). Where it is, ranks are found that rise along each place
/// without tokens, and where it is not, a circuit of such places is met ([`rising_numbers`]). It
/// takes memory for the ranks, and time of the order transitions times places. `OutOfMemory` comes
/// only where no memory is found.
pub fn is_seen_live(alloc: Global, net: &Net) -> Result<bool, OutOfMemory>
    ensures { IfOk result (λ yes. IsTrue yes ↔ IsLive net.now) }
{
    let found = rising_numbers(alloc, net, false)?;
    Ok(found.is_some())
}

/// Whether the text is that of `teg check` for a live net with so many transitions and places, and
/// the net is live ([`is_seen_live`]; chapter 2). It takes time of the order transitions times
/// places. `OutOfMemory` comes only where no memory is found.
pub fn shows_live(alloc: Global, net: &Net, text: &str) -> Result<bool, OutOfMemory>
    ensures told { IfOk result (λ yes. IsTrue yes → TellsLive net.now text.now) }
    ensures live { IfOk result (λ yes. IsTrue yes → IsLive net.now) }
    ensures all { IfOk result (λ yes. IsLive net.now → TellsLive net.now text.now → IsTrue yes) }
{
    if !is_seen_live(alloc, net)? {
        return Ok(false);
    }
    let lines = told(alloc, net.transitions().len(), net.places().len())?;
    Ok(text == lines.as_str())
}
