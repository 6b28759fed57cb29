//! Circuits that are kept: which numbers of further tokens leave them above the target.
ghost use Rattle.std.specs.Prelude.{◌+◌, ◌*◌, ◌≡◌, ◌≤◌, ◌<◌, ◌↔◌, All, IfOk, IsTrue, length, map};
ghost use Rattle.teg_net.specs.Circuits.{IsCircuit};
ghost use Rattle.teg_sizing.specs.ValueRounds.{IsTarget};
ghost use Rattle.token_shares.specs.KeptCuts.{IsCut, IsShortCut, further_by, times_passed};

use std::alloc::Global;
use teg_net::{Circuit, Net, OutOfMemory, PlaceId, Ratio, time_of, tokens_of};

// A circuit of the net: its time, its tokens, and how often it passes each of the places.
#[derive(Drop)]
pub(crate) struct Cut {
    pub(crate) time: u64,
    pub(crate) tokens: u64,
    pub(crate) passes: Vec<u64>,
}

// How often the path passes the place.
fn times_passed(place: PlaceId, path: &[PlaceId]) -> u64
    ensures times { result ≡ times_passed place path.now }
    ensures most { result ≤ length path.now }
{
    let mut times: u64 = 0;
    for id in path {
        if id.index == place.index {
            times += 1;
        }
    }
    times
}

// How often it passes each place of the list.
fn all_passed(alloc: Global, places: &[PlaceId], path: &[PlaceId]) -> Result<Vec<u64>, OutOfMemory>
    ensures passes { IfOk result (λ passes. passes.items ≡ map (λ p. times_passed p path.now)
        places.now) }
    ensures most { IfOk result (λ passes. All (λ n. n ≤ length path.now) passes.items) }
{
    let mut passes = Vec::new(alloc);
    for place in places {
        passes.push(times_passed(*place, path))?;
    }
    Ok(passes)
}

// What is kept of a circuit.
pub(crate) fn cut_of(
    alloc: Global,
    net: &Net,
    places: &[PlaceId],
    circuit: &Circuit,
) -> Result<Cut, OutOfMemory>
    requires { IsCircuit net.now circuit.now.places.items }
    ensures { IfOk result (IsCut net.now places.now) }
{
    net.rules();
    let path = &circuit.places;
    let passes = all_passed(alloc, places, path)?;
    Ok(Cut {
        time: time_of(net, path) as u64,
        tokens: tokens_of(net, path) as u64,
        passes,
    })
}

// The further tokens of the circuit.
fn further(cut: &Cut, numbers: &[u32]) -> u64
    requires short { IsShortCut cut.now }
    requires count { length numbers.now ≡ length cut.now.passes.items }
    requires few { length numbers.now ≤ 6 }
    ensures further { result ≡ further_by cut.now.passes.items numbers.now }
    ensures most { result ≤ 10307921510400 }
{
    let mut further: u64 = 0;
    for (index, number) in numbers.iter().enumerate() {
        further += cut.passes[index] * u64::from(*number);
    }
    further
}

// Whether the numbers leave the circuit above the target.
pub(crate) fn is_above(cut: &Cut, target: Ratio, numbers: &[u32]) -> bool
    requires target { IsTarget target }
    requires short { IsShortCut cut.now }
    requires count { length numbers.now ≡ length cut.now.passes.items }
    requires few { length numbers.now ≤ 6 }
    ensures { IsTrue result ↔ (target.time * (cut.now.tokens
        + further_by cut.now.passes.items numbers.now) < cut.now.time * target.tokens) }
{
    let tokens = cut.tokens + further(cut, numbers);
    let allowed = u128::from(target.time()) * u128::from(tokens);
    allowed < u128::from(cut.time) * u128::from(target.tokens())
}
