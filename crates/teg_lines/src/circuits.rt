//! The text of a circuit without tokens.
ghost use Rattle.std.specs.Prelude.{◌≡◌, ◌∷◌, [], IfOk};
ghost use Rattle.teg_lines.specs.CircuitLines.{token_free_line};
ghost use Rattle.teg_net.specs.Circuits.{AreInRange};
ghost use Rattle.teg_text.specs.Lines.{written};

use std::alloc::Global;
use teg_net::{Circuit, Net, OutOfMemory};
use teg_text::push_places;

/// The text that refuses a net which is not live: one line with the names of the places of a
/// circuit without tokens, in their order (chapter 2).
///
/// The places of the circuit are places of the net. `OutOfMemory` comes only where no memory is
/// found. It takes time of the order of the text.
pub fn token_free_text(alloc: Global, net: &Net, circuit: &Circuit) -> Result<Vec<u8>, OutOfMemory>
    requires { AreInRange net.now circuit.now.places.items }
    ensures { IfOk result (λ text. text.items ≡ written
        (token_free_line net.now circuit.now.places.items ∷ [])) }
{
    let mut text = String::from_str(alloc, "refused: token-free circuit")?;
    push_places(&mut text, net, circuit)?;
    text.push('\n')?;
    Ok(text.into_bytes())
}
