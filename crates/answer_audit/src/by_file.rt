//! What is found of an answer that was asked with a file: a function for each kind.
ghost use Rattle.std.specs.Prelude.{IfOk};
ghost use Rattle.csv_records.specs.Records.{most_file_bytes};
ghost use Rattle.audit_calls.specs.AnswerAudits.{FindsByFile};
ghost use Rattle.pace_audit.specs.PaceFindings.{IsFound};
ghost use Rattle.answer_audit.specs.AnswerFindings.{IsPlanFound, IsShownKeptFor, IsShownLateFor, IsShownLateOrderFor, IsShownRecoveredFor, IsShownReleasesFor};
ghost use Rattle.answer_audit.specs.Audits.{FindsKept, FindsLate, FindsLateOrder, FindsPlan, FindsRecovered, FindsReleases};
ghost use Rattle.answer_audit.specs.RowFiles.{SaysDue, SaysEndlessDue, SaysTable};

use crate::files::{EndlessDue, open_due, open_endless, open_table};
use audit_calls::{Beside, Finding};
use dating_check::{TableFault, shown_first_late, shown_table, table_fault};
use delay_check::{shown_kept, shown_recovered};
use delay_laws::Timetable;
use forever_check::{shown_endless_late, shown_forever};
use std::alloc::Global;
use teg_due::Due;
use teg_net::{Net, OutOfMemory};
use teg_outside::Shelf;

// Of `jit`, a table of latest dates that is not shown.
fn wrong_plan_finding(
    alloc: Global,
    net: &Net,
    due: &Due,
    text: &str,
) -> Result<Finding, OutOfMemory>
    ensures { IfOk result (IsPlanFound net.now text.now due.now) }
{
    match table_fault(alloc, net, due, text)? {
        Some(TableFault::OtherNumbers) => Ok(Finding::WrongLine(0)),
        Some(TableFault::Line { line, .. }) => Ok(Finding::WrongLine(line)),
        Some(TableFault::Late) => Ok(Finding::Refuted),
        None => Ok(Finding::NotShown),
    }
}

// Of `jit`, a table of latest dates.
fn plan_finding(alloc: Global, net: &Net, due: &Due, text: &str) -> Result<Finding, OutOfMemory>
    ensures { IfOk result (IsPlanFound net.now text.now due.now) }
{
    match shown_table(alloc, net, due, text)? {
        Some(_) => Ok(Finding::Shown),
        None => wrong_plan_finding(alloc, net, due, text),
    }
}

// The same by the due file of this name.
fn plan_by_file<S: Shelf>(
    alloc: Global,
    net: &Net,
    name: &str,
    text: &str,
    shelf: &mut S,
) -> Result<Option<Finding>, OutOfMemory>
    ensures { IfOk result (FindsByFile (SaysDue net.now) (IsPlanFound net.now text.now)
        name.now most_file_bytes (S.state shelf.old) (S.state shelf.new)) }
{
    let Some(due) = open_due(alloc, net, name, shelf)? else {
        return Ok(None);
    };
    let finding = plan_finding(alloc, net, &due, text)?;
    Ok(Some(finding))
}

// The same by what it was asked with.
pub(crate) fn find_plan<S: Shelf>(
    alloc: Global,
    net: &Net,
    beside: &Beside,
    text: &str,
    shelf: &mut S,
) -> Result<Option<Finding>, OutOfMemory>
    ensures { IfOk result (FindsPlan net.now beside.now text.now
        (S.state shelf.old) (S.state shelf.new)) }
{
    match beside {
        Beside::File { name } => plan_by_file(alloc, net, name.as_str(), text, shelf),
        _ => Ok(Some(Finding::NoChecker)),
    }
}

// Of `forever`, releases without end.
fn releases_finding(
    alloc: Global,
    net: &Net,
    due: &EndlessDue,
    text: &str,
) -> Result<Finding, OutOfMemory>
    ensures { IfOk result (IsFound net.now (IsShownReleasesFor net.now text.now due.now)) }
{
    if shown_forever(alloc, net, &due.rows, text)? {
        Ok(Finding::Shown)
    } else {
        Ok(Finding::NotShown)
    }
}

// The same by the due file of this name.
fn releases_by_file<S: Shelf>(
    alloc: Global,
    net: &Net,
    name: &str,
    text: &str,
    shelf: &mut S,
) -> Result<Option<Finding>, OutOfMemory>
    ensures { IfOk result (FindsByFile (SaysEndlessDue net.now)
        (λ due. IsFound net.now (IsShownReleasesFor net.now text.now due))
        name.now most_file_bytes (S.state shelf.old) (S.state shelf.new)) }
{
    let Some(due) = open_endless(alloc, net, name, shelf)? else {
        return Ok(None);
    };
    let finding = releases_finding(alloc, net, &due, text)?;
    Ok(Some(finding))
}

// The same by what it was asked with.
pub(crate) fn find_releases<S: Shelf>(
    alloc: Global,
    net: &Net,
    beside: &Beside,
    text: &str,
    shelf: &mut S,
) -> Result<Option<Finding>, OutOfMemory>
    ensures { IfOk result (FindsReleases net.now beside.now text.now
        (S.state shelf.old) (S.state shelf.new)) }
{
    match beside {
        Beside::File { name } => releases_by_file(alloc, net, name.as_str(), text, shelf),
        _ => Ok(Some(Finding::NoChecker)),
    }
}

// Of `forever`, the first firing that comes late.
fn late_order_finding(
    alloc: Global,
    net: &Net,
    due: &EndlessDue,
    text: &str,
) -> Result<Finding, OutOfMemory>
    ensures { IfOk result (IsFound net.now (IsShownLateOrderFor net.now text.now due.now)) }
{
    if shown_endless_late(alloc, net, &due.rows, text)? {
        Ok(Finding::Shown)
    } else {
        Ok(Finding::NotShown)
    }
}

// The same by the due file of this name.
fn late_order_by_file<S: Shelf>(
    alloc: Global,
    net: &Net,
    name: &str,
    text: &str,
    shelf: &mut S,
) -> Result<Option<Finding>, OutOfMemory>
    ensures { IfOk result (FindsByFile (SaysEndlessDue net.now)
        (λ due. IsFound net.now (IsShownLateOrderFor net.now text.now due))
        name.now most_file_bytes (S.state shelf.old) (S.state shelf.new)) }
{
    let Some(due) = open_endless(alloc, net, name, shelf)? else {
        return Ok(None);
    };
    let finding = late_order_finding(alloc, net, &due, text)?;
    Ok(Some(finding))
}

// The same by what it was asked with.
pub(crate) fn find_late_order<S: Shelf>(
    alloc: Global,
    net: &Net,
    beside: &Beside,
    text: &str,
    shelf: &mut S,
) -> Result<Option<Finding>, OutOfMemory>
    ensures { IfOk result (FindsLateOrder net.now beside.now text.now
        (S.state shelf.old) (S.state shelf.new)) }
{
    match beside {
        Beside::File { name } => late_order_by_file(alloc, net, name.as_str(), text, shelf),
        _ => Ok(Some(Finding::NoChecker)),
    }
}

// Of `jit`, the first row that comes late.
fn late_finding(alloc: Global, net: &Net, due: &Due, text: &str) -> Result<Finding, OutOfMemory>
    ensures { IfOk result (IsFound net.now (IsShownLateFor net.now text.now due.now)) }
{
    match shown_first_late(alloc, net, due, text)? {
        Some(_) => Ok(Finding::Shown),
        None => Ok(Finding::NotShown),
    }
}

// The same by the due file of this name.
fn late_by_file<S: Shelf>(
    alloc: Global,
    net: &Net,
    name: &str,
    text: &str,
    shelf: &mut S,
) -> Result<Option<Finding>, OutOfMemory>
    ensures { IfOk result (FindsByFile (SaysDue net.now)
        (λ due. IsFound net.now (IsShownLateFor net.now text.now due))
        name.now most_file_bytes (S.state shelf.old) (S.state shelf.new)) }
{
    let Some(due) = open_due(alloc, net, name, shelf)? else {
        return Ok(None);
    };
    let finding = late_finding(alloc, net, &due, text)?;
    Ok(Some(finding))
}

// The same by what it was asked with.
pub(crate) fn find_late<S: Shelf>(
    alloc: Global,
    net: &Net,
    beside: &Beside,
    text: &str,
    shelf: &mut S,
) -> Result<Option<Finding>, OutOfMemory>
    ensures { IfOk result (FindsLate net.now beside.now text.now
        (S.state shelf.old) (S.state shelf.new)) }
{
    match beside {
        Beside::File { name } => late_by_file(alloc, net, name.as_str(), text, shelf),
        _ => Ok(Some(Finding::NoChecker)),
    }
}

// Of `timetable`, which delays are left, and that they are kept.
fn kept_finding(
    alloc: Global,
    net: &Net,
    period: u64,
    table: &Timetable,
    text: &str,
) -> Result<Finding, OutOfMemory>
    ensures { IfOk result (IsFound net.now (IsShownKeptFor net.now period text.now table.now)) }
{
    match shown_kept(alloc, net, period, table, text)? {
        Some(_) => Ok(Finding::Shown),
        None => Ok(Finding::NotShown),
    }
}

// The same by the timetable's file of this name.
fn kept_by_file<S: Shelf>(
    alloc: Global,
    net: &Net,
    period: u64,
    name: &str,
    text: &str,
    shelf: &mut S,
) -> Result<Option<Finding>, OutOfMemory>
    ensures { IfOk result (FindsByFile (SaysTable net.now)
        (λ table. IsFound net.now (IsShownKeptFor net.now period text.now table))
        name.now most_file_bytes (S.state shelf.old) (S.state shelf.new)) }
{
    let Some(table) = open_table(alloc, net, name, shelf)? else {
        return Ok(None);
    };
    let finding = kept_finding(alloc, net, period, &table, text)?;
    Ok(Some(finding))
}

// The same by what it was asked with.
pub(crate) fn find_kept<S: Shelf>(
    alloc: Global,
    net: &Net,
    beside: &Beside,
    text: &str,
    shelf: &mut S,
) -> Result<Option<Finding>, OutOfMemory>
    ensures { IfOk result (FindsKept net.now beside.now text.now
        (S.state shelf.old) (S.state shelf.new)) }
{
    match beside {
        Beside::Timetable { period, name } => {
            kept_by_file(alloc, net, *period, name.as_str(), text, shelf)
        }
        _ => Ok(Some(Finding::NoChecker)),
    }
}

// Of `timetable`, which delays are left, and that they die out.
fn recovered_finding(
    alloc: Global,
    net: &Net,
    period: u64,
    table: &Timetable,
    text: &str,
) -> Result<Finding, OutOfMemory>
    ensures { IfOk result (IsFound net.now (IsShownRecoveredFor net.now period text.now table.now)) }
{
    match shown_recovered(alloc, net, period, table, text)? {
        Some(_) => Ok(Finding::Shown),
        None => Ok(Finding::NotShown),
    }
}

// The same by the timetable's file of this name.
fn recovered_by_file<S: Shelf>(
    alloc: Global,
    net: &Net,
    period: u64,
    name: &str,
    text: &str,
    shelf: &mut S,
) -> Result<Option<Finding>, OutOfMemory>
    ensures { IfOk result (FindsByFile (SaysTable net.now)
        (λ table. IsFound net.now (IsShownRecoveredFor net.now period text.now table))
        name.now most_file_bytes (S.state shelf.old) (S.state shelf.new)) }
{
    let Some(table) = open_table(alloc, net, name, shelf)? else {
        return Ok(None);
    };
    let finding = recovered_finding(alloc, net, period, &table, text)?;
    Ok(Some(finding))
}

// The same by what it was asked with.
pub(crate) fn find_recovered<S: Shelf>(
    alloc: Global,
    net: &Net,
    beside: &Beside,
    text: &str,
    shelf: &mut S,
) -> Result<Option<Finding>, OutOfMemory>
    ensures { IfOk result (FindsRecovered net.now beside.now text.now
        (S.state shelf.old) (S.state shelf.new)) }
{
    match beside {
        Beside::Timetable { period, name } => {
            recovered_by_file(alloc, net, *period, name.as_str(), text, shelf)
        }
        _ => Ok(Some(Finding::NoChecker)),
    }
}
