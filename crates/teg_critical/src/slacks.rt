//! What each place is told of its slack.
ghost use Rattle.std.specs.Prelude.{◌≡◌, ◌<◌, length, slice_index_or};
ghost use Rattle.teg_critical.specs.declared.slacks.Slack.TheVariants.{NoCircuit};

use std::marker::Model;
use teg_net::PlaceId;

/// What a place is told of its slack (chapters 2 and 3).
#[derive(Clone, Copy, Debug, PartialEq, Eq)]
pub enum Slack {
    /// No circuit passes the place.
    NoCircuit,
    /// A circuit of the net's greatest ratio passes it.
    Critical,
    /// Its hold can rise by so much, and no more, so that the net keeps its greatest ratio; in the
    /// user's unit, perhaps 0.
    Rise { by: u64 },
}

/// The slack of each place of a net, by number of place (chapters 2 and 3). Contracts see the list;
/// it stands for each net of which it has the slacks (`AreSlacks`).
#[derive(Debug, Drop)]
pub struct Slacks {
    slacks: Vec<Slack>,
}

impl Model for Slacks {
    ghost use Rattle.std.specs.Prelude.{List};
    ghost use Rattle.teg_critical.specs.declared.slacks.Slack.{Slack};

    ghost Value = { List Slack };

    ghost view = { λ s. s.slacks.items };
}

impl Slacks {
    // The value with these slacks, one for each place. It takes no memory.
    pub(crate) fn new(slacks: Vec<Slack>) -> Slacks
        ensures { result ≡ slacks.items }
    {
        Slacks { slacks }
    }

    /// How many places have a slack: those of the net. It takes no memory.
    pub fn width(&self) -> usize
        ensures { result ≡ length self.now }
    {
        self.slacks.len()
    }

    /// The slack of a place, a rise in the user's unit. It takes no memory.
    pub fn slack(&self, place: PlaceId) -> Slack
        requires { place.index < length self.now }
        ensures { result ≡ slice_index_or self.now place.index NoCircuit }
    {
        self.slacks[place.index as usize]
    }
}
