//! The text of a firing that is later than due.
ghost use Rattle.std.specs.Prelude.{◌≡◌, ◌++◌, ◌<◌, ◌≤◌, ◌^◌, ◌∷◌, [], IfOk, flat_map, length, string_bytes};
ghost use Rattle.teg_net.specs.Limits.{greatest_firing_number};
ghost use Rattle.teg_net.specs.Walks.{IsStepOf};
ghost use Rattle.late_lines.specs.LateLines.{AreLateNumbers, IsLateIn, IsPathIn, late_by_walk, late_line, late_walk_lines, path_line, start_lines, step_number, step_to, step_words, steps_words};
ghost use Rattle.teg_text.specs.Lines.{further_then, line_then, written};

use std::alloc::{AllocError, Global};
use teg_net::{Net, OutOfMemory, Step, TransitionId, Walk};

/// A firing that comes after it is due, whatever the inputs do (chapter 5). Dates are in the user's
/// unit.
#[derive(Clone, Copy, Debug, PartialEq, Eq)]
pub struct LateFiring {
    pub transition: TransitionId,
    /// The number of the firing, from 1.
    pub number: u32,
    /// When it is due.
    pub due: u64,
    /// Before this date it does not come.
    pub least: u128,
    /// When the first firing of the walk that shows it begins at the earliest.
    pub start: u64,
}

// Appends a step, and gives the firing to which it leads.
fn push_step(
    text: &mut String,
    net: &Net,
    at: TransitionId,
    number: u64,
    step: Step,
) -> Result<(TransitionId, u64), AllocError>
    requires at { at.index < length net.now.transitions }
    requires few { number ≤ greatest_firing_number }
    requires step { IsStepOf net.now step }
    ensures to { IfOk result (λ end. end.0 ≡ step_to net.now at step) }
    ensures number { IfOk result (λ end. end.1 ≡ step_number net.now number step) }
    ensures text { IfOk result (λ _. string_bytes text.new ≡
        string_bytes text.old ++ flat_map (λ word. 32 ∷ word) (step_words net.now at number step)) }
{
    match step {
        Step::By(id) => {
            let place = &net.places()[id.index as usize];
            let by = place.name.as_str();
            let name = net.transitions()[place.to.index as usize].name.as_str();
            let next = number + u64::from(place.tokens);
            write!(text, " by {by} {name} {next}")?;
            Ok((place.to, next))
        }
        Step::Next => {
            let name = net.transitions()[at.index as usize].name.as_str();
            let next = number + 1;
            write!(text, " next {name} {next}")?;
            Ok((at, next))
        }
    }
}

// Ends a line with the steps of a walk.
fn end_steps(text: &mut String, net: &Net, walk: &Walk) -> Result<(), AllocError>
    requires { IsPathIn net.now walk.now.start walk.now.number walk.now.steps.items }
    ensures { IfOk result (λ _. string_bytes text.new ≡
        string_bytes text.old
        ++ further_then (steps_words net.now walk.now.start walk.now.number
        walk.now.steps.items) []) }
{
    // The rules of the net, by which each step leads to one of its transitions.
    net.rules();
    let mut at = walk.start;
    let mut number = walk.number;
    for step in &walk.steps {
        (at, number) = push_step(text, net, at, number, *step)?;
    }
    text.push('\n')?;
    Ok(())
}

// Appends the line of a walk.
fn push_path(text: &mut String, net: &Net, walk: &Walk) -> Result<(), AllocError>
    requires { IsPathIn net.now walk.now.start walk.now.number walk.now.steps.items }
    ensures text { IfOk result (λ _. string_bytes text.new ≡
        string_bytes text.old
        ++ line_then (path_line net.now walk.now.start walk.now.number walk.now.steps.items)
        []) }
    ensures first { IfOk result (λ _. walk.now.number < 2 ^ 64) }
{
    let name = net.transitions()[walk.start.index as usize].name.as_str();
    let number = walk.number;
    write!(text, "path {name} {number}")?;
    end_steps(text, net, walk)?;
    Ok(())
}

// Appends the line of a start, where it is above 0.
fn push_start(text: &mut String, start: u64) -> Result<(), AllocError>
    ensures text { IfOk result (λ _. string_bytes text.new
        ≡ string_bytes text.old ++ written (start_lines start)) }
    ensures kept { start < 2 ^ 64 }
{
    if start == 0 {
        return Ok(());
    }
    write!(text, "from date {start}\n")
}

// The line of a firing that is later than due.
fn late_line(
    alloc: Global,
    net: &Net,
    firing: (TransitionId, u32),
    due: u64,
    least: u128,
) -> Result<String, AllocError>
    requires { firing.0.index < length net.now.transitions }
    ensures text { IfOk result (λ text. string_bytes text
        ≡ line_then (late_line net.now firing.0 firing.1 due least) []) }
    ensures kept { (firing.1 < 2 ^ 32) × (due < 2 ^ 64) × (least < 2 ^ 128) }
{
    let (transition, number) = firing;
    let name = net.transitions()[transition.index as usize].name.as_str();
    format!(in alloc; "late {name} {number} due {due} least {least}\n")
}

/// The text of a firing that is later than due, and of a walk that shows it (chapter 5): the line of
/// the firing, where the walk does not start at 0 the line of its start, and the line of its steps,
/// each with the firing to which it leads.
///
/// The firing and the walk are those of the net. `OutOfMemory` comes only where no memory is found.
/// It takes time of the order of the text.
pub fn late_text(
    alloc: Global,
    net: &Net,
    late: LateFiring,
    walk: &Walk,
) -> Result<Vec<u8>, OutOfMemory>
    requires { IsLateIn net.now (late_by_walk late walk.now) }
    ensures text { IfOk result (λ text. text.items ≡ written
        (late_walk_lines net.now (late_by_walk late walk.now))) }
    ensures kept { IfOk result (λ _. AreLateNumbers (late_by_walk late walk.now)) }
{
    let firing = (late.transition, late.number);
    let mut text = late_line(alloc, net, firing, late.due, late.least)?;
    push_start(&mut text, late.start)?;
    push_path(&mut text, net, walk)?;
    Ok(text.into_bytes())
}
