//! The witness of `teg timetable` where delays stay: a circuit without spare time.
ghost use Rattle.std.specs.Prelude.{◌≡◌, ◌<◌, ◌≤◌, Contains, IfOk, IfSome, IsTrue, length, slice_index_or, string_bytes};
ghost use Rattle.teg_net.specs.Circuits.{AreInRange, from_of};
ghost use Rattle.teg_net.specs.declared.entries.PlaceId.{PlaceId};
ghost use Rattle.teg_text.specs.Lines.{written};
ghost use Rattle.delay_check.specs.ShownDelays.{AreSomewhereLeft, IsShownKept, KeepsWhatIsLeft, TellsDelays, kept_lines};

use crate::form_rows::planned_net;
use crate::left::left_somewhere;
use crate::telling::tells_delays;
use crate::told_delays::{ToldKept, kept_in};
use delay_laws::{Timetable, shows_kept, tight_circuits_keep_delays};
use release_nets::Planned;
use std::alloc::{AllocError, Global};
use teg_net::{Circuit, Net, OutOfMemory, PlaceId, is_circuit};
use teg_text::push_circuit;
use witness_check::begins_lowest;

// Whether one of the transitions that the places leave is late where so much is left.
fn is_late(net: &Net, left: &[u64], places: &[PlaceId]) -> bool
    requires range { AreInRange net.now places.now }
    requires left { length left.now ≡ length net.now.transitions }
    ensures { IsTrue result → (p : PlaceId) × Contains places.now p
        × (from_of net.now p < length net.now.transitions)
        × (1 ≤ slice_index_or left.now (from_of net.now p) 0) }
{
    net.rules();
    for place in places {
        if left[net.places()[place.index()].from.index()] >= 1 {
            return true;
        }
    }
    false
}

// Whether the places are a circuit that keeps some of the delays of the timetable: it has no time to
// spare, and one of its transitions is late.
fn keeps_delays(planned: &Planned<'_>, left: &[u64], places: &[PlaceId]) -> bool
    requires range { AreInRange planned.now.net.now places.now }
    requires left { AreSomewhereLeft planned.now.net.now planned.now.period planned.now.table.now
        left.now }
    ensures { IsTrue result → KeepsWhatIsLeft planned.now.net.now planned.now.period
        planned.now.table.now places.now }
{
    let net = planned.net;
    tight_circuits_keep_delays();
    if !shows_kept(net, planned.period, places) || !begins_lowest(net, places) {
        return false;
    }
    is_late(net, left, places)
}

// The lines that delays are kept, and of the circuit.
fn kept_text(alloc: Global, net: &Net, circuit: &Circuit) -> Result<String, AllocError>
    requires { AreInRange net.now circuit.now.places.items }
    ensures { IfOk result (λ text. string_bytes text
        ≡ written (kept_lines net.now circuit.now.places.items)) }
{
    let mut text = String::from_str(alloc, "kept\n")?;
    push_circuit(&mut text, net, circuit)?;
    Ok(text)
}

// Whether the text tells the delays of the timetable that are left, as those that the circuit keeps.
fn tells_kept(
    alloc: Global,
    planned: &Planned<'_>,
    told: &ToldKept,
    text: &str,
) -> Result<bool, OutOfMemory>
    requires { AreInRange planned.now.net.now told.now.circuit.places.items }
    ensures { IfOk result (λ yes. IsTrue yes → TellsDelays planned.now.net.now planned.now.period
        planned.now.table.now text.now (kept_lines planned.now.net.now
        told.now.circuit.places.items)) }
{
    let outcome = kept_text(alloc, planned.net, &told.circuit)?;
    let tells = tells_delays(alloc, planned, &told.spread, None, outcome.as_str(), text)?;
    Ok(tells)
}

// Whether the text shows that the circuit that it tells keeps delays.
fn shows(
    alloc: Global,
    planned: &Planned<'_>,
    told: &ToldKept,
    text: &str,
) -> Result<bool, OutOfMemory>
    ensures { IfOk result (λ yes. IsTrue yes → IsShownKept planned.now.net.now planned.now.period
        planned.now.table.now text.now told.now.circuit.places.items) }
{
    let places = told.circuit.places.as_slice();
    if !is_circuit(planned.net, places) {
        return Ok(false);
    }
    let left = left_somewhere(alloc, planned.net, planned.period, planned.table)?;
    if !keeps_delays(planned, &left, places) {
        return Ok(false);
    }
    let tells = tells_kept(alloc, planned, told, text)?;
    Ok(tells)
}

/// The circuit that the text of `teg timetable` tells for delays that are kept, where the whole text
/// is shown to be right for this timetable that departs again every `period`, in the user's unit
/// (chapters 2 and 3): the net is seen to be live, the timetable leaves time for each place, number
/// and period are those of the shortest settled form of delayed dates and releases together, the
/// delays of each line are those that are left, and the circuit keeps some for ever: it takes just
/// the time that the plan gives it, and one of its transitions is late at some number. Which of
/// several such circuits is told is free. It takes memory for the dates up to a period and the
/// tokens of a place past those that are told, for the text, and 10,001 bytes for each transition;
/// and time of the order of those dates with the places, for each number that divides the period
/// once more, and of the order transitions times places and delays. `OutOfMemory` comes only where
/// no memory is found.
pub fn shown_kept(
    alloc: Global,
    net: &Net,
    period: u64,
    table: &Timetable,
    text: &str,
) -> Result<Option<Circuit>, OutOfMemory>
    ensures { IfOk result (λ shown. IfSome shown (λ circuit.
        IsShownKept net.now period table.now text.now circuit.places.items)) }
{
    let Some(told) = kept_in(alloc, net, text)? else {
        return Ok(None);
    };
    let Some(planned) = planned_net(alloc, net, period, table)? else {
        return Ok(None);
    };
    if !shows(alloc, &planned, &told, text)? {
        return Ok(None);
    }
    Ok(Some(told.circuit))
}
