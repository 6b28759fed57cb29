//! The sums of a circuit, and its ratio.
ghost use Rattle.std.specs.Prelude.{◌≡◌, ◌↔◌, ◌≤◌, ◌*◌, IsTrue};
ghost use Rattle.teg_net.specs.Circuits.{IsCircuit, time_of, tokens_of};
ghost use Rattle.teg_net.specs.Limits.{greatest_circuit_time, most_circuit_tokens};

use teg_net::{Net, PlaceId, Ratio, time_of, tokens_of};

// The holding time and the tokens of a circuit.
#[derive(Clone, Copy)]
pub(crate) struct CircuitSums {
    pub(crate) time: u128,
    pub(crate) tokens: u128,
}

// The sums of the circuit, which passes each transition once at most, so that they are small.
pub(crate) fn circuit_sums(net: &Net, circuit: &[PlaceId]) -> CircuitSums
    requires { IsCircuit net.now circuit.now }
    ensures time { result.time ≡ time_of net.now circuit.now }
    ensures tokens { result.tokens ≡ tokens_of net.now circuit.now }
    ensures short { result.time ≤ greatest_circuit_time }
    ensures few { result.tokens ≤ most_circuit_tokens }
{
    net.rules();
    CircuitSums {
        time: time_of(net, circuit),
        tokens: tokens_of(net, circuit),
    }
}

// Whether the sums have the ratio.
fn is_ratio_of(ratio: Ratio, sums: CircuitSums) -> bool
    requires time { sums.time ≤ greatest_circuit_time }
    requires tokens { sums.tokens ≤ most_circuit_tokens }
    ensures { IsTrue result ↔ (sums.time * ratio.tokens ≡ ratio.time * sums.tokens) }
{
    sums.time * u128::from(ratio.tokens()) == u128::from(ratio.time()) * sums.tokens
}

// Whether the circuit has a token.
pub(crate) fn has_token(net: &Net, circuit: &[PlaceId]) -> bool
    requires { IsCircuit net.now circuit.now }
    ensures { IsTrue result ↔ (1 ≤ tokens_of net.now circuit.now) }
{
    circuit_sums(net, circuit).tokens >= 1
}

// Whether the circuit has the ratio.
pub(crate) fn attains(net: &Net, ratio: Ratio, circuit: &[PlaceId]) -> bool
    requires { IsCircuit net.now circuit.now }
    ensures { IsTrue result ↔ (time_of net.now circuit.now * ratio.tokens
        ≡ ratio.time * tokens_of net.now circuit.now) }
{
    is_ratio_of(ratio, circuit_sums(net, circuit))
}
