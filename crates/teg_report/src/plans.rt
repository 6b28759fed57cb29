//! The texts of latest dates, and of due dates that no inputs can meet.
ghost use Rattle.std.specs.Prelude.{ℕ, ◌≡◌, ◌++◌, ◌<◌, ◌≤◌, ◌^◌, ◌∷◌, ◌+◌, [], IfOk, flat_map, length, string_bytes};
ghost use Rattle.teg_jit.specs.Plans.{latest_at};
ghost use Rattle.teg_net.specs.Limits.{greatest_firing_number};
ghost use Rattle.teg_net.specs.Walks.{IsStepOf};
ghost use Rattle.teg_report.specs.AnswerMeanings.{late_lists};
ghost use Rattle.teg_report.specs.PlanLines.{AreLatestKept, IsLateKept, IsLatePlanTold, IsLatestIn, IsLatestKept, IsOnwardIn, IsPathIn, IsPlanIn, late_line, late_lines, latest_line, onward_words, path_line, plan_lines, planned_lines, role_word, start_lines, step_number, step_to, step_words, steps_words};
ghost use Rattle.teg_lines.specs.Widths.{IsWord32, IsWord64};
ghost use Rattle.teg_text.specs.Lines.{further_then, line_then, written};

use std::alloc::{AllocError, Global};
use teg_jit::{JitRefusal, LatestDate, Onward, Plan};
use teg_net::{Net, OutOfMemory, Role, Step, TransitionId, Walk};

// How lines of a transition begin.
fn role_word(role: Role) -> &'static str
    ensures { result.now ≡ role_word role }
{
    match role {
        Role::Input => "input",
        Role::Internal | Role::Output => "latest",
    }
}

// Ends a line with the first step by which a latest date is attained.
fn end_onward(text: &mut String, net: &Net, onward: Onward) -> Result<(), AllocError>
    requires { IsOnwardIn net.now onward }
    ensures { IfOk result (λ _. string_bytes text.new ≡
        string_bytes text.old ++ further_then (onward_words net.now onward) []) }
{
    match onward {
        Onward::Due => text.push_str(" due\n"),
        Onward::Next => text.push_str(" next\n"),
        Onward::By(id) => {
            let place = net.places()[id.index as usize].name.as_str();
            write!(text, " by {place}\n")
        }
    }
}

// Appends the line of a firing of the transition of this number, counted from 0.
fn push_latest(
    text: &mut String,
    net: &Net,
    index: usize,
    number: u32,
    latest: LatestDate,
) -> Result<(), AllocError>
    requires index { index < length net.now.transitions }
    requires latest { IsLatestIn net.now latest }
    ensures text { IfOk result (λ _. string_bytes text.new ≡
        string_bytes text.old ++ line_then (latest_line net.now index number latest) []) }
    ensures kept { IfOk result (λ _. IsLatestKept latest) }
{
    let transition = &net.transitions()[index];
    let name = transition.name.as_str();
    let word = role_word(transition.role);
    match latest {
        LatestDate::Free => write!(text, "{word} {name} {number} free\n"),
        LatestDate::At { date, onward } => {
            write!(text, "{word} {name} {number} {date}")?;
            end_onward(text, net, onward)
        }
    }
}

// Appends the lines of a transition, one for each number.
fn push_transition(
    text: &mut String,
    net: &Net,
    plan: &Plan,
    index: usize,
) -> Result<(), AllocError>
    requires index { index < length net.now.transitions }
    requires plan { IsPlanIn net.now plan.now }
    ensures text { IfOk result (λ _. string_bytes text.new ≡
        string_bytes text.old ++ written (planned_lines net.now plan.now index)) }
    ensures kept { IfOk result (λ _. (k : ℕ) → k < plan.now.numbers
        → IsLatestKept (latest_at plan.now index (k + 1))) }
{
    // The rules of the net, by which its transitions are few.
    net.rules();
    let transition = TransitionId {
        index: index as u32,
    };
    for number in 0..plan.numbers() {
        let latest = plan.latest(transition, number + 1);
        push_latest(text, net, index, number + 1, latest)?;
    }
    Ok(())
}

// How many numbers there are, and then the latest dates of each transition.
pub(crate) fn jit(alloc: Global, net: &Net, plan: &Plan) -> Result<Vec<u8>, OutOfMemory>
    requires { IsPlanIn net.now plan.now }
    ensures text { IfOk result (λ text. text.items ≡ written (plan_lines net.now plan.now)) }
    ensures kept { IfOk result (λ _. AreLatestKept plan.now) }
{
    let numbers = plan.numbers();
    let mut text = format!(in alloc; "latest inputs for {numbers} firings\n")?;
    for index in 0..net.transitions().len() {
        push_transition(&mut text, net, plan, index)?;
    }
    Ok(text.into_bytes())
}

// Appends a step, and gives the firing to which it leads.
fn push_step(
    text: &mut String,
    net: &Net,
    at: TransitionId,
    number: u64,
    step: Step,
) -> Result<(TransitionId, u64), AllocError>
    requires at { at.index < length net.now.transitions }
    requires few { number ≤ greatest_firing_number }
    requires step { IsStepOf net.now step }
    ensures to { IfOk result (λ end. end.0 ≡ step_to net.now at step) }
    ensures number { IfOk result (λ end. end.1 ≡ step_number net.now number step) }
    ensures text { IfOk result (λ _. string_bytes text.new ≡
        string_bytes text.old ++ flat_map (λ word. 32 ∷ word) (step_words net.now at number step)) }
{
    match step {
        Step::By(id) => {
            let place = &net.places()[id.index as usize];
            let by = place.name.as_str();
            let name = net.transitions()[place.to.index as usize].name.as_str();
            let next = number + u64::from(place.tokens);
            write!(text, " by {by} {name} {next}")?;
            Ok((place.to, next))
        }
        Step::Next => {
            let name = net.transitions()[at.index as usize].name.as_str();
            let next = number + 1;
            write!(text, " next {name} {next}")?;
            Ok((at, next))
        }
    }
}

// Ends a line with the steps of a walk.
fn end_steps(text: &mut String, net: &Net, walk: &Walk) -> Result<(), AllocError>
    requires { IsPathIn net.now walk.now.start walk.now.number walk.now.steps.items }
    ensures { IfOk result (λ _. string_bytes text.new ≡
        string_bytes text.old
        ++ further_then (steps_words net.now walk.now.start walk.now.number
        walk.now.steps.items) []) }
{
    // The rules of the net, by which each step leads to one of its transitions.
    net.rules();
    let mut at = walk.start;
    let mut number = walk.number;
    for step in &walk.steps {
        (at, number) = push_step(text, net, at, number, *step)?;
    }
    text.push('\n')?;
    Ok(())
}

// Appends the line of a walk.
fn push_path(text: &mut String, net: &Net, walk: &Walk) -> Result<(), AllocError>
    requires { IsPathIn net.now walk.now.start walk.now.number walk.now.steps.items }
    ensures text { IfOk result (λ _. string_bytes text.new ≡
        string_bytes text.old
        ++ line_then (path_line net.now walk.now.start walk.now.number walk.now.steps.items)
        []) }
    ensures first { IfOk result (λ _. IsWord64 walk.now.number) }
{
    let name = net.transitions()[walk.start.index as usize].name.as_str();
    let number = walk.number;
    write!(text, "path {name} {number}")?;
    end_steps(text, net, walk)?;
    Ok(())
}

// Appends the line of a start, where it is above 0.
fn push_start(text: &mut String, start: u64) -> Result<(), AllocError>
    ensures text { IfOk result (λ _. string_bytes text.new
        ≡ string_bytes text.old ++ written (start_lines start)) }
    ensures kept { IsWord64 start }
{
    if start == 0 {
        return Ok(());
    }
    write!(text, "from date {start}\n")
}

// The line of a firing that is later than due.
fn late_line(
    alloc: Global,
    net: &Net,
    firing: (TransitionId, u32),
    due: u64,
    least: u128,
) -> Result<String, AllocError>
    requires { firing.0.index < length net.now.transitions }
    ensures text { IfOk result (λ text. string_bytes text
        ≡ line_then (late_line net.now firing.0 firing.1 due least) []) }
    ensures kept { IsWord32 firing.1 × IsWord64 due × (least < 2 ^ 128) }
{
    let (transition, number) = firing;
    let name = net.transitions()[transition.index as usize].name.as_str();
    format!(in alloc; "late {name} {number} due {due} least {least}\n")
}

// A firing that is later than due, and a walk that shows it.
pub(crate) fn late(alloc: Global, net: &Net, refusal: &JitRefusal) -> Result<Vec<u8>, OutOfMemory>
    requires { IsLatePlanTold net.now (late_lists refusal.now) }
    ensures text { IfOk result (λ text. text.items ≡ written
        (late_lines net.now (late_lists refusal.now))) }
    ensures kept { IfOk result (λ _. IsLateKept (late_lists refusal.now)) }
{
    match refusal {
        JitRefusal::Late {
            transition,
            number,
            due,
            least,
            start,
            walk,
        } => {
            let mut text = late_line(alloc, net, (*transition, *number), *due, *least)?;
            push_start(&mut text, *start)?;
            push_path(&mut text, net, walk)?;
            Ok(text.into_bytes())
        }
        JitRefusal::OutOfMemory => unreachable!(),
    }
}
