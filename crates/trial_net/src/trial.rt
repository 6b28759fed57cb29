//! The net of the line.
ghost use Rattle.std.specs.Prelude.{◌≡◌, ◌≤◌, ◌++◌, ◌∷◌, [], IfOk, map};
ghost use Rattle.std.specs.List.{range_with_len};
ghost use Rattle.trial_net.specs.Trials.{card_place, feed_place, machine, own_place, trial};

use crate::entries::{card_place, feed_place, machine, own_place};
use std::alloc::Global;
use teg_net::{Net, OutOfMemory, Place, Transition};

// Appends an entry.
fn keep<T: Drop>(list: &mut Vec<T>, entry: T) -> Result<(), OutOfMemory>
    ensures { IfOk result (λ _. list.new.items ≡ list.old.items ++ entry ∷ []) }
{
    match list.push(entry) {
        Ok(()) => Ok(()),
        Err(_) => Err(OutOfMemory),
    }
}

// The machines, in order.
fn machines(alloc: Global, count: u32) -> Result<Vec<Transition>, OutOfMemory>
    requires { count ≤ 400 }
    ensures { IfOk result (λ line. line.items ≡ map machine (range_with_len 1 count)) }
{
    let mut line = Vec::new(alloc);
    for before in 0..count {
        let machine = machine(alloc, before + 1)?;
        keep(&mut line, machine)?;
    }
    Ok(line)
}

// Appends the own places of the first machines.
fn push_own(alloc: Global, places: &mut Vec<Place>, count: u32) -> Result<(), OutOfMemory>
    requires { count ≤ 400 }
    ensures { IfOk result (λ _. places.new.items ≡ places.old.items ++ map own_place
        (range_with_len 1 count)) }
{
    for before in 0..count {
        let place = own_place(alloc, before + 1)?;
        keep(places, place)?;
    }
    Ok(())
}

// Appends the places by which the first machines hand on.
fn push_feeds(alloc: Global, places: &mut Vec<Place>, count: u32) -> Result<(), OutOfMemory>
    requires { count ≤ 400 }
    ensures { IfOk result (λ _. places.new.items ≡ places.old.items ++ map feed_place
        (range_with_len 1 count)) }
{
    for before in 0..count {
        let place = feed_place(alloc, before + 1)?;
        keep(places, place)?;
    }
    Ok(())
}

// Appends the places of the cards of the first machines.
fn push_cards(alloc: Global, places: &mut Vec<Place>, count: u32) -> Result<(), OutOfMemory>
    requires { count ≤ 400 }
    ensures { IfOk result (λ _. places.new.items ≡ places.old.items ++ map card_place
        (range_with_len 1 count)) }
{
    for before in 0..count {
        let place = card_place(alloc, before + 1)?;
        keep(places, place)?;
    }
    Ok(())
}

/// The line of so many machines, from 1 to 400.
///
/// Machine `mi` works `10 + (37 i mod 23)` units on each piece, one piece at a time (`si`), and
/// hands it on to the next (`fi`); it may be ahead of the next by `2 + (i mod 2)` pieces (`ci`).
/// All are internal, and all tokens are ready at 0. The lists are tested to be a net, as those of
/// each line are. `OutOfMemory` comes only where no memory is found. It takes time of the order of
/// the square of the machines, as the names of a net are compared.
pub fn make_trial(alloc: Global, machines: u32) -> Result<Net, OutOfMemory>
    requires some { 1 ≤ machines }
    requires few { machines ≤ 400 }
    ensures { IfOk result (λ net. net ≡ trial machines) }
{
    let line = self::machines(alloc, machines)?;
    let mut places = Vec::new(alloc);
    push_own(alloc, &mut places, machines)?;
    push_feeds(alloc, &mut places, machines - 1)?;
    push_cards(alloc, &mut places, machines - 1)?;
    match Net::checked(line, places, Vec::new(alloc)) {
        Ok(net) => Ok(net),
        // No line breaks a rule of nets; a fault, if there were one, would be told so.
        Err(_) => Err(OutOfMemory),
    }
}
