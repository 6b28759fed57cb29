//! The texts of answers about timetables.
ghost use Rattle.std.specs.Prelude.{◌≡◌, ◌++◌, ◌<◌, ◌≤◌, [], IfOk, codes, IfSome, length, string_bytes};
ghost use Rattle.teg_net.specs.Circuits.{AreInRange};
ghost use Rattle.teg_net.specs.Limits.{greatest_firing_number};
ghost use Rattle.teg_text.specs.Lines.{line_then, written};
ghost use Rattle.teg_text.specs.WordsOfNames.{name_of_transition};
ghost use Rattle.teg_timetable.specs.DelayAnswers.{IsOutcomeIn, IsDelayRefusalIn};
ghost use Rattle.teg_timetable.specs.Spreads.{delay_by_spread, outcome_told};
ghost use Rattle.timetable_files.specs.TimetableFiles.{IsTableRefusalIn};
ghost use Rattle.teg_timetable.specs.TimetableTexts.{AreLeftDelaysShort, IsOutcomeToldOf, IsTimetableText, IsTimetableTold, TextsOfTimetablesDiffer, delay_told, delays_line, delays_up_to, kept_lines, outcome_lines, spread_told, table_told, told_lines};

use crate::delayed::Delayed;
use crate::refusals::DelayRefusal;
use delay_laws::Outcome;
use std::alloc::{AllocError, Global};
use teg_net::{Circuit, Net, OutOfMemory, TransitionId};
use teg_text::{push_circuit, row_fault};
use timetable_files::TableRefusal;

// Begins the line of the delays of the transition of this number, counted from 0.
fn begin_line(text: &mut String, net: &Net, index: usize) -> Result<(), AllocError>
    requires { index < length net.now.transitions }
    ensures { IfOk result (λ _. string_bytes text.new ≡
        string_bytes text.old
        ++ (codes "delays " ++ name_of_transition net.now (record { index = index }))) }
{
    let name = net.transitions()[index].name.as_str();
    write!(text, "delays {name}")
}

// Appends the line of the delays of the transition of this number, counted from 0.
fn push_line(
    text: &mut String,
    net: &Net,
    delayed: &Delayed,
    index: usize,
    count: u64,
) -> Result<(), AllocError>
    requires index { index < length net.now.transitions }
    requires width { length delayed.now.firsts ≡ length net.now.transitions }
    requires count { count ≤ greatest_firing_number }
    ensures text { IfOk result (λ _. string_bytes text.new ≡
        string_bytes text.old
        ++ line_then (delays_line net.now index
        (delays_up_to (delay_by_spread delayed.now index) count)) []) }
    ensures small { IfOk result (λ _. AreLeftDelaysShort delayed.now index count) }
{
    // That the net keeps its rules, and so has few transitions.
    net.rules();
    let transition = TransitionId {
        index: index as u32,
    };
    begin_line(text, net, index)?;
    for done in 0..count {
        let delay = delayed.delay(transition, done + 1);
        write!(text, " {delay}")?;
    }
    text.push('\n')?;
    Ok(())
}

// Appends the two lines of the circuit that keeps delays.
fn push_kept(text: &mut String, net: &Net, circuit: &Circuit) -> Result<(), AllocError>
    requires { AreInRange net.now circuit.now.places.items }
    ensures { IfOk result (λ _. string_bytes text.new ≡
        string_bytes text.old ++ written (kept_lines net.now circuit.now.places.items)) }
{
    text.push_str("kept\n")?;
    push_circuit(text, net, circuit)?;
    Ok(())
}

// Appends what becomes of the delays.
fn push_outcome(text: &mut String, net: &Net, outcome: &Outcome) -> Result<(), AllocError>
    requires { IsOutcomeIn net.now (outcome_told outcome.now) }
    ensures text { IfOk result (λ _. string_bytes text.new ≡
        string_bytes text.old ++ written (outcome_lines net.now (outcome_told outcome.now))) }
    ensures told { IfOk result (λ _. IsOutcomeToldOf net.now (outcome_told outcome.now)) }
{
    match outcome {
        Outcome::Recovered { after } => {
            let after = *after;
            write!(text, "recovered after {after}\n")
        }
        Outcome::Kept { circuit } => push_kept(text, net, circuit),
    }
}

/// The text of how delays spread: a line of the number past which dates go on, and of the period;
/// one that the delays are over after a number, or two of the circuit that keeps them; and for each
/// transition a line of its delays at the numbers up to the end of the first period, in the user's
/// unit. It takes the memory of the text, and time of its order; `OutOfMemory` comes only where no
/// memory is found.
pub fn spread_text(alloc: Global, net: &Net, delayed: &Delayed) -> Result<String, OutOfMemory>
    requires width { length delayed.now.firsts ≡ length net.now.transitions }
    requires outcome { IsOutcomeIn net.now delayed.now.outcome }
    ensures text { IfOk result (λ text. string_bytes text
        ≡ written (told_lines net.now (spread_told delayed.now))) }
    ensures told { IfOk result (λ _. IsTimetableTold net.now (spread_told delayed.now)) }
{
    let after = delayed.after();
    let period = delayed.period();
    let mut text = format!(in alloc; "settled after {after} period {period}\n")?;
    push_outcome(&mut text, net, delayed.outcome())?;
    let count = after + period;
    for index in 0..net.transitions().len() {
        push_line(&mut text, net, delayed, index, count)?;
    }
    Ok(text)
}

/// The text of why a file is no timetable. [`TableRefusal::OutOfMemory`] has no text: it is
/// answered by `OutOfMemory`, which else comes only where no memory is found.
pub fn table_refusal_text(
    alloc: Global,
    net: &Net,
    refusal: &TableRefusal,
) -> Result<String, OutOfMemory>
    requires { IsTableRefusalIn net.now refusal.now }
    ensures text { IfOk result (λ text. IsTimetableText net.now (table_told refusal.now)
        (string_bytes text)) }
    ensures told { IfOk result (λ _. IfSome (table_told refusal.now) (IsTimetableTold net.now)) }
{
    let text = match *refusal {
        TableRefusal::BadRow { row } => row_fault(alloc, "timetable", row, "is not an entry")?,
        TableRefusal::UnknownTransition { row } => {
            row_fault(alloc, "timetable", row, "unknown transition")?
        }
        TableRefusal::Repeated { row } => row_fault(alloc, "timetable", row, "repeated")?,
        TableRefusal::OutOfRange { row } => row_fault(alloc, "timetable", row, "out of range")?,
        TableRefusal::Missing { transition } => {
            let name = net.transitions()[transition.index as usize].name.as_str();
            format!(in alloc; "refused: no departure of {name}\n")?
        }
        TableRefusal::OutOfMemory => return Err(OutOfMemory),
    };
    Ok(text)
}

/// The text of why the delays of a timetable are not followed. [`DelayRefusal::OutOfMemory`] has no
/// text: it is answered by `OutOfMemory`, which else comes only where no memory is found.
pub fn delay_refusal_text(
    alloc: Global,
    net: &Net,
    refusal: &DelayRefusal,
) -> Result<String, OutOfMemory>
    requires { IsDelayRefusalIn net.now refusal.now }
    ensures text { IfOk result (λ text. IsTimetableText net.now (delay_told refusal.now)
        (string_bytes text)) }
    ensures told { IfOk result (λ _. IfSome (delay_told refusal.now) (IsTimetableTold net.now)) }
{
    match *refusal {
        DelayRefusal::TooLarge {
            transitions,
            places,
        } => {
            Ok(format!(in alloc;
                "refused: timetable of {transitions} transitions and {places} places\n"
            )?)
        }
        DelayRefusal::Unworkable { place } => {
            let name = net.places()[place.index as usize].name.as_str();
            Ok(format!(in alloc; "refused: place {name} does not fit the timetable\n")?)
        }
        DelayRefusal::TooLong { limit } => {
            Ok(format!(in alloc; "too long: no settled form within {limit}\n")?)
        }
        DelayRefusal::OutOfMemory => Err(OutOfMemory),
    }
}

/// The law that different answers and refusals about one net have different texts, those of a file
/// that is too long or cannot be read among them. It does nothing when it runs.
pub fn texts_of_timetables_differ()
    ensures { TextsOfTimetablesDiffer }
{}
