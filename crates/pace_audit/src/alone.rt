//! What is found of an answer that is shown on the net alone: a function for each kind.
ghost use Rattle.std.specs.Prelude.{ℕ, ◌<◌, ◌^◌, IfOk};
ghost use Rattle.teg_net.specs.Circuits.{IsLive};
ghost use Rattle.answer_check.specs.ShownLists.{IsShownList};
ghost use Rattle.pace_audit.specs.PaceFindings.{IsDecided, IsDecidedWhereLive, IsFound, IsFoundAlone, IsListFound, IsShownAlone};

use answer_check::{refutes_list, shown_list, shown_no_circuit, shown_slack};
use audit_calls::{Alone, Finding};
use pace_check::{shown_pace, shown_size};
use std::alloc::Global;
use teg_net::{Net, OutOfMemory};
use witness_check::{is_seen_live, shows_deadlock, shows_live};

// Of `check`, that the net is live.
fn live_finding(alloc: Global, net: &Net, text: &str) -> Result<Finding, OutOfMemory>
    ensures { IfOk result (IsDecided (IsShownAlone net.now Alone.Live text.now)) }
{
    if shows_live(alloc, net, text)? {
        Ok(Finding::Shown)
    } else {
        Ok(Finding::Refuted)
    }
}

// Of `check`, that the net is not live.
fn deadlock_finding(alloc: Global, net: &Net, text: &str) -> Result<Finding, OutOfMemory>
    ensures { IfOk result (IsDecided (IsShownAlone net.now Alone.Deadlock text.now)) }
{
    if shows_deadlock(alloc, net, text)? {
        Ok(Finding::Shown)
    } else {
        Ok(Finding::Refuted)
    }
}

// Of `list`, which is not shown.
fn wrong_list_finding(alloc: Global, net: &Net, text: &str) -> Result<Finding, OutOfMemory>
    requires { (count : ℕ) → count < 2 ^ 32 → IsShownList net.now text.now count → ⊥ }
    ensures { IfOk result (IsListFound net.now text.now) }
{
    match refutes_list(alloc, net, text)? {
        Some(row) => Ok(Finding::WrongLine(u64::from(row) + 1)),
        None => Ok(Finding::NotShown),
    }
}

// Of `list`.
fn list_finding(alloc: Global, net: &Net, text: &str) -> Result<Finding, OutOfMemory>
    ensures { IfOk result (IsListFound net.now text.now) }
{
    match shown_list(alloc, net, text)? {
        Some(_) => Ok(Finding::Shown),
        None => wrong_list_finding(alloc, net, text),
    }
}

// Of `cycle` and `slack`, that there is no circuit.
fn no_circuit_finding(alloc: Global, net: &Net, text: &str) -> Result<Finding, OutOfMemory>
    ensures { IfOk result (IsDecided (IsShownAlone net.now Alone.NoCircuit text.now)) }
{
    if shown_no_circuit(alloc, net, text)? {
        Ok(Finding::Shown)
    } else {
        Ok(Finding::Refuted)
    }
}

// Of `slack`.
fn slack_finding(alloc: Global, net: &Net, text: &str) -> Result<Finding, OutOfMemory>
    ensures { IfOk result (IsFound net.now (IsShownAlone net.now Alone.Slack text.now)) }
{
    match shown_slack(alloc, net, text)? {
        Some(_) => Ok(Finding::Shown),
        None => Ok(Finding::NotShown),
    }
}

// Of `cycle`.
fn cycle_finding(alloc: Global, net: &Net, text: &str) -> Result<Finding, OutOfMemory>
    ensures { IfOk result (IsFound net.now (IsShownAlone net.now Alone.Cycle text.now)) }
{
    match shown_pace(alloc, net, text)? {
        Some(_) => Ok(Finding::Shown),
        None => Ok(Finding::NotShown),
    }
}

// Of `size`.
fn size_finding(alloc: Global, net: &Net, text: &str) -> Result<Finding, OutOfMemory>
    requires { IsLive net.now }
    ensures { IfOk result (IsDecidedWhereLive net.now (IsShownAlone net.now Alone.Size text.now)) }
{
    match shown_size(alloc, net, text)? {
        Some(_) => Ok(Finding::Shown),
        None => Ok(Finding::Refuted),
    }
}

// What is found in a live net.
fn live_net_finding(
    alloc: Global,
    net: &Net,
    kind: Alone,
    text: &str,
) -> Result<Finding, OutOfMemory>
    requires { IsLive net.now }
    ensures { IfOk result (IsFoundAlone net.now kind text.now) }
{
    match kind {
        Alone::Live => live_finding(alloc, net, text),
        Alone::Deadlock => deadlock_finding(alloc, net, text),
        Alone::Listed => list_finding(alloc, net, text),
        Alone::NoCircuit => no_circuit_finding(alloc, net, text),
        Alone::Slack => slack_finding(alloc, net, text),
        Alone::Cycle => cycle_finding(alloc, net, text),
        Alone::Size => size_finding(alloc, net, text),
    }
}

// What is found in a net that is not live.
fn other_net_finding(
    alloc: Global,
    net: &Net,
    kind: Alone,
    text: &str,
) -> Result<Finding, OutOfMemory>
    requires { IsLive net.now → ⊥ }
    ensures { IfOk result (IsFoundAlone net.now kind text.now) }
{
    match kind {
        Alone::Live => live_finding(alloc, net, text),
        Alone::Deadlock => deadlock_finding(alloc, net, text),
        Alone::NoCircuit => no_circuit_finding(alloc, net, text),
        _ => Ok(Finding::NotShown),
    }
}

/// What is found of an answer of this kind, on the net alone. Whether a net is live, whether a circuit
/// without tokens is one of it, and whether it has no circuit is known in each net, and whether a number
/// of tokens is enough in each live one: such an answer is shown or refuted. In a net that is not live
/// nothing else is found. It takes memory.
pub fn alone_finding(
    alloc: Global,
    net: &Net,
    kind: Alone,
    text: &str,
) -> Result<Finding, OutOfMemory>
    ensures { IfOk result (IsFoundAlone net.now kind text.now) }
{
    if !is_seen_live(alloc, net)? {
        return other_net_finding(alloc, net, kind, text);
    }
    live_net_finding(alloc, net, kind, text)
}
