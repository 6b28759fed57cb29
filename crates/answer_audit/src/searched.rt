//! What is found of an answer that is shown on the net alone by what a search goes through: a
//! function for each kind.
ghost use Rattle.std.specs.Prelude.{IfOk};
ghost use Rattle.pace_audit.specs.PaceFindings.{IsFound};
ghost use Rattle.answer_audit.specs.AnswerFindings.{IsFoundSearched, IsRoundsFound, IsShownSearched};

use audit_calls::{Finding, Searched};
use bound_check::{refutes_bound, shown_bound};
use round_check::{refutes_rounds, shown_rounds};
use settled_check::shown_settled;
use std::alloc::Global;
use teg_net::{Net, OutOfMemory};
use witness_check::is_seen_live;

// Of `cycle` with the rounds.
fn rounds_finding(alloc: Global, net: &Net, text: &str) -> Result<Finding, OutOfMemory>
    ensures { IfOk result (IsRoundsFound net.now text.now) }
{
    if shown_rounds(alloc, net, text)?.is_some() {
        return Ok(Finding::Shown);
    }
    match refutes_rounds(alloc, net, text)? {
        Some(other) => Ok(Finding::WrongLine(other.line)),
        None => Ok(Finding::NotShown),
    }
}

// Of `dates`.
fn settled_finding(alloc: Global, net: &Net, text: &str) -> Result<Finding, OutOfMemory>
    ensures { IfOk result (IsFound net.now (IsShownSearched net.now Searched.Settled text.now)) }
{
    match shown_settled(alloc, net, text)? {
        Some(_) => Ok(Finding::Shown),
        None => Ok(Finding::NotShown),
    }
}

// Of `bound`.
fn bound_finding(alloc: Global, net: &Net, text: &str) -> Result<Finding, OutOfMemory>
    ensures { IfOk result (IsFound net.now (IsShownSearched net.now Searched.Bound text.now)) }
{
    if shown_bound(alloc, net, text)?.is_some() {
        Ok(Finding::Shown)
    } else if refutes_bound(alloc, net, text)? {
        Ok(Finding::Refuted)
    } else {
        Ok(Finding::NotShown)
    }
}

// What is found of an answer of this kind. In a net that is not seen to be live nothing is shown.
pub(crate) fn searched_finding(
    alloc: Global,
    net: &Net,
    kind: Searched,
    text: &str,
) -> Result<Finding, OutOfMemory>
    ensures { IfOk result (IsFoundSearched net.now kind text.now) }
{
    if !is_seen_live(alloc, net)? {
        return Ok(Finding::NotShown);
    }
    match kind {
        Searched::Rounds => rounds_finding(alloc, net, text),
        Searched::Settled => settled_finding(alloc, net, text),
        Searched::Bound => bound_finding(alloc, net, text),
    }
}
