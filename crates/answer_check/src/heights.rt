//! Potentials that no place lifts at a ratio, and what each place loses against them. Nothing rests on
//! it: what is found is checked.
use std::alloc::{AllocError, Global};
use teg_net::{Net, Place, Ratio};

// What the place lifts the potential of its end to, from that of its start.
fn lifted(ratio: Ratio, place: &Place, potential: i128) -> i128 {
    let gain = i128::from(ratio.tokens()).saturating_mul(i128::from(place.hold));
    let loss = i128::from(ratio.time()).saturating_mul(i128::from(place.tokens));
    potential.saturating_add(gain).saturating_sub(loss)
}

// Lifts the potentials of the ends of the places, each once in order. Whether one was lifted.
fn lift_each(net: &Net, ratio: Ratio, potentials: &mut [i128]) -> bool {
    let mut any = false;
    for place in net.places() {
        let (from, to) = (place.from.index(), place.to.index());
        if from < potentials.len() && to < potentials.len() {
            let value = lifted(ratio, place, potentials[from]);
            if potentials[to] < value {
                potentials[to] = value;
                any = true;
            }
        }
    }
    any
}

// Potentials that no place lifts, where no circuit is above the ratio; else those that as many rounds
// over all places leave as there are transitions.
pub(crate) fn heights_at(alloc: Global, net: &Net, ratio: Ratio) -> Result<Vec<i128>, AllocError> {
    let count = net.transitions().len();
    let mut potentials = vec![in alloc; 0i128; count]?;
    for _ in 0..count {
        if !lift_each(net, ratio, &mut potentials) {
            break;
        }
    }
    Ok(potentials)
}

// How much more each place could lift its end by to just its potential: 0 or more, where none lifts.
pub(crate) fn losses_of(
    alloc: Global,
    net: &Net,
    ratio: Ratio,
    potentials: &[i128],
) -> Result<Vec<i128>, AllocError> {
    let mut losses = Vec::new(alloc);
    for place in net.places() {
        let from = potentials.get(place.from.index()).copied().unwrap_or(0);
        let to = potentials.get(place.to.index()).copied().unwrap_or(0);
        losses.push(to.saturating_sub(lifted(ratio, place, from)))?;
    }
    Ok(losses)
}
