//! The machines of the line, and the places of each.
ghost use Rattle.std.specs.Prelude.{◌≡◌, ◌≤◌, ◌<◌, ◌-◌, IfOk};
ghost use Rattle.trial_net.specs.Trials.{card_place, feed_place, machine_hold, machine, numbered, own_place, trial_place};

use std::alloc::Global;
use teg_net::{DateList, Name, OutOfMemory, Place, Role, Transition, TransitionId};

// The name of this letter and number.
fn numbered(alloc: Global, letter: &str, number: u32) -> Result<Name, OutOfMemory>
    ensures { IfOk result (λ name. name ≡ numbered letter.now number) }
{
    let text = format!(in alloc; "{letter}{number}")?;
    match Name::new(alloc, text.as_str()) {
        Ok(name) => Ok(name),
        Err(_) => Err(OutOfMemory),
    }
}

// The place from one machine to another, counted from 1, whose tokens are ready at 0.
fn place(alloc: Global, name: Name, ends: (u32, u32), hold: u64, tokens: u32) -> Place
    requires from { 1 ≤ ends.0 }
    requires to { 1 ≤ ends.1 }
    ensures { result ≡ trial_place name ends.0 ends.1 hold tokens }
{
    Place {
        name,
        from: TransitionId { index: ends.0 - 1 },
        to: TransitionId { index: ends.1 - 1 },
        hold,
        tokens,
        ready: DateList::new(Vec::new(alloc)),
    }
}

// For how long machine i works on a piece.
fn hold(i: u32) -> u64
    requires { i ≤ 400 }
    ensures { result ≡ machine_hold i }
{
    u64::from(10 + 37 * i % 23)
}

/// Machine i.
pub fn machine(alloc: Global, i: u32) -> Result<Transition, OutOfMemory>
    ensures { IfOk result (λ t. t ≡ machine i) }
{
    let name = numbered(alloc, "m", i)?;
    Ok(Transition {
        name,
        role: Role::Internal,
    })
}

/// Machine i works on one piece at a time.
pub fn own_place(alloc: Global, i: u32) -> Result<Place, OutOfMemory>
    requires from { 1 ≤ i }
    requires to { i ≤ 400 }
    ensures { IfOk result (λ p. p ≡ own_place i) }
{
    let name = numbered(alloc, "s", i)?;
    Ok(place(alloc, name, (i, i), hold(i), 1))
}

/// Machine i hands its pieces on.
pub fn feed_place(alloc: Global, i: u32) -> Result<Place, OutOfMemory>
    requires from { 1 ≤ i }
    requires to { i ≤ 400 }
    ensures { IfOk result (λ p. p ≡ feed_place i) }
{
    let name = numbered(alloc, "f", i)?;
    Ok(place(alloc, name, (i, i + 1), hold(i), 0))
}

/// The cards come back to machine i.
pub fn card_place(alloc: Global, i: u32) -> Result<Place, OutOfMemory>
    requires from { 1 ≤ i }
    requires to { i ≤ 400 }
    ensures { IfOk result (λ p. p ≡ card_place i) }
{
    let name = numbered(alloc, "c", i)?;
    Ok(place(alloc, name, (i + 1, i), 0, 2 + i % 2))
}
