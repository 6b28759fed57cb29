//! Circuits by the names of their places, and the line of a settled form.
ghost use Rattle.std.specs.Prelude.{◌≡◌, ◌++◌, ◌∷◌, [], IfOk, flat_map, string_bytes};
ghost use Rattle.teg_net.specs.Circuits.{AreInRange};
ghost use Rattle.teg_text.specs.Lines.{line_then};
ghost use Rattle.teg_text.specs.WordsOfNames.{circuit_line, name_of_place, settled_words};

use std::alloc::AllocError;
use teg_net::{Circuit, Net};

/// Appends the names of the places of a circuit in their order, each behind a blank. `AllocError`
/// comes only where no memory is found.
pub fn push_places(text: &mut String, net: &Net, circuit: &Circuit) -> Result<(), AllocError>
    requires { AreInRange net.now circuit.now.places.items }
    ensures { IfOk result (λ _. string_bytes text.new ≡
        string_bytes text.old
        ++ flat_map (λ id. 32 ∷ name_of_place net.now id) circuit.now.places.items) }
{
    let places = net.places();
    for id in &circuit.places {
        text.push(' ')?;
        text.push_str(places[id.index as usize].name.as_str())?;
    }
    Ok(())
}

/// Appends the line of a circuit: `circuit`, and the names of its places in their order.
/// `AllocError` comes only where no memory is found.
pub fn push_circuit(text: &mut String, net: &Net, circuit: &Circuit) -> Result<(), AllocError>
    requires { AreInRange net.now circuit.now.places.items }
    ensures { IfOk result (λ _. string_bytes text.new ≡
        string_bytes text.old ++ line_then (circuit_line net.now circuit.now.places.items) []) }
{
    text.push_str("circuit")?;
    push_places(text, net, circuit)?;
    text.push('\n')?;
    Ok(())
}

/// Appends the line of a settled form: the number past which its dates go on, and their period,
/// both in firings. `AllocError` comes only where no memory is found.
pub fn push_settled(text: &mut String, after: u64, period: u64) -> Result<(), AllocError>
    ensures { IfOk result (λ _. string_bytes text.new ≡ string_bytes text.old ++ line_then
        (settled_words after period) []) }
{
    write!(text, "settled after {after} period {period}\n")
}
