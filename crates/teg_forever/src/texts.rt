//! The texts of the answers about endless due dates.
ghost use Rattle.std.specs.Prelude.{◌≡◌, ◌≢◌, ◌<◌, ◌++◌, [], Ok, Err, All, length, map, IfOk, string_bytes};
ghost use Rattle.series_form.specs.NumberBounds.{IsSeries};
ghost use Rattle.teg_net.specs.Nets.{NetLists};
ghost use Rattle.teg_text.specs.Lines.{further_then, line_then, written};
ghost use Rattle.teg_forever.specs.LatestReleases.{inputs_of};
ghost use Rattle.teg_forever.specs.EndlessTexts.{IsRefusalIn, IsReleaseTold, IsEndlessTold, TextsOfEndlessDiffer, Faulty, Answered, answer_lines, endless_lines_of, release_line, series_words};

use crate::releases::{ForeverRefusal, Release};
use endless_due::EndlessRefusal;
use series_form::Series;
use std::alloc::{AllocError, Global};
use teg_due::is_input;
use teg_net::{Net, OutOfMemory, TransitionId};
use teg_text::{push_dates, row_fault};

// Appends the end of the line of an input: the values of its series, its period and its step.
fn push_series(text: &mut String, series: &Series) -> Result<(), AllocError>
    ensures text { IfOk result (λ _. string_bytes text.new
        ≡ string_bytes text.old ++ further_then (series_words series.now) []) }
    ensures told { IsSeries series.now }
{
    push_dates(text, series.values())?;
    let period = series.period();
    let step = series.step();
    write!(text, " period {period} step {step}\n")
}

// Appends the line of the release of an input.
fn push_release(
    text: &mut String,
    net: &Net,
    input: TransitionId,
    release: &Release,
) -> Result<(), AllocError>
    requires { input.index < length net.now.transitions }
    ensures text { IfOk result (λ _. string_bytes text.new
        ≡ string_bytes text.old ++ line_then (release_line net.now input.index release.now) []) }
    ensures told { IfOk result (λ _. IsReleaseTold release.now) }
{
    let name = net.transitions()[input.index as usize].name.as_str();
    match release {
        Release::Free => write!(text, "input {name} free\n"),
        Release::Latest { series } => {
            write!(text, "input {name}")?;
            push_series(text, series)
        }
    }
}

// The inputs in order.
fn inputs_of(alloc: Global, net: &Net) -> Result<Vec<TransitionId>, AllocError>
    ensures inputs { IfOk result (λ inputs. map (λ t. t.index) inputs.items ≡ inputs_of net.now) }
    ensures within { IfOk result (λ inputs. All (λ t. t.index < length net.now.transitions)
        inputs.items) }
{
    let mut inputs = Vec::new(alloc);
    for index in 0..net.transitions().len() as u32 {
        let transition = TransitionId { index };
        if is_input(net, transition) {
            inputs.push(transition)?;
        }
    }
    Ok(inputs)
}

// The lines of the releases of the inputs.
fn push_releases(
    text: &mut String,
    net: &Net,
    inputs: &[TransitionId],
    releases: &[Release],
) -> Result<(), AllocError>
    requires within { All (λ t. t.index < length net.now.transitions) inputs.now }
    requires each_input { length releases.now ≡ length inputs.now }
    ensures text { IfOk result (λ _. string_bytes text.new
        ≡ string_bytes text.old ++ written (endless_lines_of net.now (map (λ t. t.index) inputs.now)
        releases.now)) }
    ensures told { IfOk result (λ _. All IsReleaseTold releases.now) }
{
    for index in 0..inputs.len() {
        push_release(text, net, inputs[index], &releases[index])?;
    }
    Ok(())
}

/// The text of the releases of the inputs in order: a line `latest inputs forever`, and for each
/// input a line with `free`, or with the values of its series, its period and its step. It takes
/// the memory of the text, and time of its order; `OutOfMemory` comes only where no memory is
/// found.
pub fn releases_text(alloc: Global, net: &Net, releases: &[Release]) -> Result<String, OutOfMemory>
    requires { length releases.now ≡ length (inputs_of net.now) }
    ensures text { IfOk result (λ text. string_bytes text
        ≡ written (answer_lines net.now (Answered (Ok releases.now)))) }
    ensures told { IfOk result (λ _. IsEndlessTold net.now (Answered (Ok releases.now))) }
{
    let inputs = inputs_of(alloc, net)?;
    let mut text = String::from_str(alloc, "latest inputs forever\n")?;
    push_releases(&mut text, net, inputs.as_slice(), releases)?;
    Ok(text)
}

/// The text of why the releases are not told: the late firing with its due date and its least date,
/// or the input, and the row where it is too wide at one. `OutOfMemory` comes only where no memory
/// is found.
pub fn forever_refusal_text(
    alloc: Global,
    net: &Net,
    refusal: &ForeverRefusal,
) -> Result<String, OutOfMemory>
    requires { IsRefusalIn net.now refusal.now }
    ensures text { IfOk result (λ text. string_bytes text
        ≡ written (answer_lines net.now (Answered (Err refusal.now)))) }
    ensures told { IfOk result (λ _. IsEndlessTold net.now (Answered (Err refusal.now))) }
{
    match *refusal {
        ForeverRefusal::Late {
            transition,
            number,
            due,
            least,
        } => {
            let name = net.transitions()[transition.index as usize].name.as_str();
            Ok(format!(in alloc; "late {name} {number} due {due} least {least}\n")?)
        }
        ForeverRefusal::TooLong { input } => {
            let name = net.transitions()[input.index as usize].name.as_str();
            Ok(format!(in alloc; "too long: input {name}\n")?)
        }
        ForeverRefusal::TooWide { input, row } => {
            let name = net.transitions()[input.index as usize].name.as_str();
            Ok(format!(in alloc; "too long: input {name} at due row {row}\n")?)
        }
        ForeverRefusal::OutOfMemory => unreachable!(),
    }
}

/// The text of the first fault of a file of due dates without end. `OutOfMemory` comes only where
/// no memory is found.
pub fn endless_refusal_text(alloc: Global, refusal: &EndlessRefusal) -> Result<String, OutOfMemory>
    requires { refusal.now ≢ EndlessRefusal.OutOfMemory }
    ensures text { IfOk result (λ text. (net : NetLists) → string_bytes text
        ≡ written (answer_lines net (Faulty refusal.now))) }
    ensures told { IfOk result (λ _. (net : NetLists) → IsEndlessTold net (Faulty refusal.now)) }
{
    let text = match refusal {
        EndlessRefusal::BadRow { row } => row_fault(
            alloc,
            "due",
            *row,
            "is not an endless due row",
        )?,
        EndlessRefusal::UnknownTransition { row } => {
            row_fault(alloc, "due", *row, "unknown transition")?
        }
        EndlessRefusal::NotDue { row } => row_fault(alloc, "due", *row, "input transition")?,
        EndlessRefusal::RepeatedDue { row } => row_fault(alloc, "due", *row, "repeated")?,
        EndlessRefusal::OutOfRange { row } => row_fault(alloc, "due", *row, "out of range")?,
        EndlessRefusal::Falls { row } => row_fault(alloc, "due", *row, "falls")?,
        EndlessRefusal::OutOfMemory => unreachable!(),
    };
    Ok(text)
}

/// The law that different answers about one net have different texts, together: that a file is too
/// long or cannot be read, the faults of files, the releases, and their refusals. It does nothing
/// when it runs.
pub fn texts_of_endless_differ()
    ensures { TextsOfEndlessDiffer }
{}
