//! Why lists are no net: the first rule of nets that they break, and where.
use crate::entries::{PlaceId, TransitionId};
use std::error::Error;
use std::fmt;

/// The first rule of nets that lists break: the rules stand in the order of the variants, and of
/// entries that break the same rule the first is told, counted from 0. That names are names is no
/// rule here: a [`crate::Name`] is one by its type.
#[derive(Clone, Copy, Debug, PartialEq, Eq)]
pub enum NetFault {
    /// There is no transition.
    NoTransition,
    /// There are more than 400 transitions.
    ManyTransitions,
    /// There are more than 4,000 places.
    ManyPlaces,
    /// This transition has the name of an earlier one.
    SameTransition(TransitionId),
    /// This place has the name of an earlier one.
    SamePlace(PlaceId),
    /// This place may not stand in a net of these transitions.
    BadPlace(PlaceId, PlaceFault),
    /// The input list at this position is of a transition that has an earlier list.
    SameInput(usize),
    /// The input list at this position may not stand in a net of these transitions.
    BadInput(usize, InputFault),
}

/// The first rule that a place breaks, in the order of the variants. Times and dates are in the
/// user's unit.
#[derive(Clone, Copy, Debug, PartialEq, Eq)]
pub enum PlaceFault {
    /// The transition that it leaves is none of the net.
    UnknownFrom,
    /// The transition that it enters is none of the net.
    UnknownTo,
    /// It enters an input transition.
    EntersInput,
    /// Its holding time is past 1,000,000,000.
    LongHold,
    /// It has more than 1,000 tokens.
    ManyTokens,
    /// It has ready dates, but not one for each token.
    ReadyCount,
    /// A ready date is past 10^12.
    LateReady,
}

/// The first rule that an input list breaks, in the order of the variants. Dates are in the user's
/// unit.
#[derive(Clone, Copy, Debug, PartialEq, Eq)]
pub enum InputFault {
    /// Its transition is no input of the net.
    NoInput,
    /// It has more than 100,000 dates.
    ManyDates,
    /// A date is past 10^12.
    LateDate,
    /// A date is before the one that it follows.
    FallingDates,
    /// It goes on by each date of 0 firings before.
    EveryZero,
    /// It goes on by dates of more than 1,000 firings before.
    GreatEvery,
    /// It goes on by a gap past 10^12.
    GreatGap,
    /// It goes on by dates of more firings before than it has dates.
    FewDates,
    /// The first date past its end would be before its last one.
    EarlyNext,
}

// What is told of an entry whose name is taken.
const SAME_NAME: &str = "has the name of an earlier one";

// What is told of a second list of one transition.
const SECOND_LIST: &str = "is of a transition that has an earlier one";

impl PlaceFault {
    // What is told of the place.
    fn text(self) -> &'static str {
        match self {
            PlaceFault::UnknownFrom => "leaves no transition of the net",
            PlaceFault::UnknownTo => "enters no transition of the net",
            PlaceFault::EntersInput => "enters an input",
            PlaceFault::LongHold => "has a hold past 1000000000",
            PlaceFault::ManyTokens => "has more than 1000 tokens",
            PlaceFault::ReadyCount => "has ready dates, but not one for each token",
            PlaceFault::LateReady => "has a ready date past 1000000000000",
        }
    }
}

impl InputFault {
    // What is told of the list.
    fn text(self) -> &'static str {
        match self {
            InputFault::NoInput => "is of no input of the net",
            InputFault::ManyDates => "has more than 100000 dates",
            InputFault::LateDate => "has a date past 1000000000000",
            InputFault::FallingDates => "has dates that fall",
            InputFault::EveryZero => "goes on every 0 firings",
            InputFault::GreatEvery => "goes on every more than 1000 firings",
            InputFault::GreatGap => "goes on by a gap past 1000000000000",
            InputFault::FewDates => "goes on every more firings than it has dates",
            InputFault::EarlyNext => "goes on with a date before its last",
        }
    }
}

impl fmt::Display for PlaceFault {
    fn fmt<W: fmt::Write>(&self, f: &mut fmt::Formatter<W>) -> fmt::Result {
        write!(f, "the place {}", self.text())
    }
}

impl fmt::Display for InputFault {
    fn fmt<W: fmt::Write>(&self, f: &mut fmt::Formatter<W>) -> fmt::Result {
        write!(f, "the input list {}", self.text())
    }
}

impl fmt::Display for NetFault {
    fn fmt<W: fmt::Write>(&self, f: &mut fmt::Formatter<W>) -> fmt::Result {
        let (entry, number, fault) = match self {
            NetFault::NoTransition => return f.write_str("no transition"),
            NetFault::ManyTransitions => return f.write_str("more than 400 transitions"),
            NetFault::ManyPlaces => return f.write_str("more than 4000 places"),
            NetFault::SameTransition(id) => ("transition", id.index as usize, SAME_NAME),
            NetFault::SamePlace(id) => ("place", id.index as usize, SAME_NAME),
            NetFault::BadPlace(id, fault) => ("place", id.index as usize, fault.text()),
            NetFault::SameInput(position) => ("input list", *position, SECOND_LIST),
            NetFault::BadInput(position, fault) => ("input list", *position, fault.text()),
        };
        write!(f, "{entry} {number} {fault}")
    }
}

impl Error for PlaceFault {}

impl Error for InputFault {}

impl Error for NetFault {}
