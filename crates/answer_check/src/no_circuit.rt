//! What shows that a net has no circuit: numbers of its transitions, which its text does not name.
ghost use Rattle.std.specs.Prelude.{◌≡◌, ◌↔◌, IfOk, IsTrue};
ghost use Rattle.answer_check.specs.NoCircuits.{IsShownNoCircuit, TellsNoCircuit};

use std::alloc::Global;
use teg_net::{Net, OutOfMemory};
use witness_check::rising_numbers;

// Whether the whole text is the line that a net has no circuit.
fn tells_no_circuit(text: &str) -> bool
    ensures { IsTrue result ↔ TellsNoCircuit text.now }
{
    text == "no circuit\n"
}

/// Whether the text is that of `teg cycle` and of `teg slack` for a net without a circuit, and the
/// net has none (chapter 2), so that it is live. Where it has none, numbers are found that rise along
/// each place, and where it has one, a circuit is met. It takes memory for the numbers, and time of
/// the order transitions times places. `OutOfMemory` comes only where no memory is found.
pub fn shown_no_circuit(alloc: Global, net: &Net, text: &str) -> Result<bool, OutOfMemory>
    ensures { IfOk result (λ yes. IsTrue yes ↔ IsShownNoCircuit net.now text.now) }
{
    net.rules();
    if !tells_no_circuit(text) {
        return Ok(false);
    }
    let found = rising_numbers(alloc, net, true)?;
    Ok(found.is_some())
}
