//! What shows that delays stay (chapters 2 and 3).
ghost use Rattle.std.specs.Prelude.{◌≡◌, ◌↔◌, ◌*◌, IsTrue};
ghost use Rattle.teg_net.specs.Circuits.{AreInRange, time_of, tokens_of};
ghost use Rattle.delay_laws.specs.TightCircuits.{GivenDelaysAreLeft, IsTightCircuit, PathsPassDelaysOn, TightCircuitsKeepDelays, TightCircuitsPassDelaysRound};

use teg_net::{Net, PlaceId, is_circuit, time_of, tokens_of};

// Whether the places take just the time that a timetable of this period gives their tokens.
fn takes_planned_time(net: &Net, period: u64, places: &[PlaceId]) -> bool
    requires { AreInRange net.now places.now }
    ensures { IsTrue result ↔ (time_of net.now places.now
        ≡ period * tokens_of net.now places.now) }
{
    let time = time_of(net, places);
    match u128::from(period).checked_mul(tokens_of(net, places)) {
        Some(planned) => time == planned,
        None => false,
    }
}

/// Whether the places are a circuit of the net to which a timetable that departs again every
/// `period`, in the user's unit, leaves no spare time: its holding time is the period times its
/// tokens (chapters 2 and 3).
///
/// A delay that one of its transitions once has stays on it for ever, by the law
/// [`tight_circuits_keep_delays`]. So it shows the line `kept` of an answer about a timetable,
/// where one of its transitions is late at some number, as it is where the timetable gives it a
/// delay. It takes no memory, and time of the order of the places times the net's transitions.
pub fn shows_kept(net: &Net, period: u64, circuit: &[PlaceId]) -> bool
    ensures { IsTrue result ↔ IsTightCircuit net.now period circuit.now }
{
    is_circuit(net, circuit) && takes_planned_time(net, period, circuit)
}

/// A circuit without spare time keeps delays: where the plan leaves time for each place of a live
/// net, and one of the circuit's transitions is late at some number, each is so late at numbers
/// past every bound (chapters 2 and 3). It does nothing when it runs.
///
/// The plan has to leave time for each place: without that a departure may come late at one place
/// and be early again at the next.
pub fn tight_circuits_keep_delays()
    ensures round { TightCircuitsPassDelaysRound }
    ensures keep { TightCircuitsKeepDelays }
{}

/// A path passes a delay on, less at most the spare time that the plan leaves along it, to as many
/// numbers later as it has tokens; and a departure is at least as late as the delay that it is
/// given. So a given delay and a path to a circuit without spare time show that the circuit is
/// late, where the path leaves less spare time than the delay (chapters 2 and 3). It does nothing
/// when it runs.
pub fn paths_pass_delays_on()
    ensures path { PathsPassDelaysOn }
    ensures given { GivenDelaysAreLeft }
{}
