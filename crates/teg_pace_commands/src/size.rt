//! The fewest further tokens of a place of a live net for a target ratio.
ghost use Rattle.std.specs.Prelude.{◌<◌, length};
ghost use Rattle.teg_outcome.specs.CommandOutcomes.{Tells, outcome_of};
ghost use Rattle.teg_pace_commands.specs.Size.{SaysSize, SaysSizeOf, TellsNoPlace};
ghost use Rattle.teg_sizing.specs.ValueRounds.{IsTarget};

use std::alloc::Global;
use teg_check::LiveNet;
use teg_net::{OutOfMemory, PlaceId, Ratio};
use teg_outcome::{CommandOutcome, Target, Verdict};
use teg_sizing::{no_place_text, size, sizing_text};

// The answer about this place, and its text.
fn tell_size_of(
    alloc: Global,
    net: &LiveNet,
    place: PlaceId,
    target: Ratio,
) -> Result<CommandOutcome, OutOfMemory>
    requires place { place.index < length net.now.places }
    requires target { IsTarget target }
    ensures { Tells (SaysSizeOf place target net.now) (outcome_of result) }
{
    let sizing = size(alloc, net.net(), net.live(), place, &target)?;
    let text = sizing_text(alloc, net.net(), place, &target, &sizing)?;
    Ok(CommandOutcome::told(Verdict::Done, text))
}

// That no place has the name that was asked for.
fn tell_no_place(alloc: Global, word: &str) -> Result<CommandOutcome, OutOfMemory>
    ensures { Tells (TellsNoPlace word.now) (outcome_of result) }
{
    let text = no_place_text(alloc, word)?;
    Ok(CommandOutcome::told(Verdict::Name, text))
}

/// The fewest further tokens of the place of this name with which no circuit of a live net has a
/// greater ratio than the target (chapter 3), told in lowest terms, with a circuit that shows it;
/// or that no place has the name. It takes time of order n p for n transitions and p places.
pub fn tell_size(
    alloc: Global,
    net: &LiveNet,
    word: &str,
    target: Target,
) -> Result<CommandOutcome, OutOfMemory>
    ensures { Tells (SaysSize word.now target.0 target.1 net.now) (outcome_of result) }
{
    let (time, tokens) = (target.time(), target.tokens());
    match net.net().find_place(word) {
        Some(place) => tell_size_of(alloc, net, place, Ratio::of(time, tokens)),
        None => tell_no_place(alloc, word),
    }
}
