//! Timetables with delays, and what becomes of the delays.
use teg_net::{Circuit, TransitionId};

/// A delay that is given for one departure.
#[derive(Clone, Copy, Debug, PartialEq, Eq)]
pub struct Delay {
    /// The number of the row in the file, from 1, a header included.
    pub row: u32,
    /// The transition that departs late.
    pub transition: TransitionId,
    /// The number of the departure: 1 to 10,000.
    pub number: u32,
    /// By how much the departure is late, in the user's unit: 1 to 50,000.
    pub by: u64,
}

/// The first departure of each transition in order, in the user's unit, 0 to 10^9, and the delays
/// in order of the rows. No two delays have the same transition and number.
#[derive(Debug, Drop)]
pub struct Timetable {
    pub firsts: Vec<u64>,
    pub delays: Vec<Delay>,
}

/// What becomes of the delays.
#[derive(Debug, Drop)]
pub enum Outcome {
    /// No delay is left after this number of departures, the least such number.
    Recovered { after: u64 },
    /// There is no such number. The circuit takes just the time that the plan gives it, and each of
    /// its transitions is late at numbers past every bound.
    Kept { circuit: Circuit },
}
