//! What is found of one date, by a list of dates.
ghost use Rattle.std.specs.Prelude.{IfOk, None, string_bytes};
ghost use Rattle.answer_check.specs.ShownDates.{ShowsDate};
ghost use Rattle.audit_calls.specs.AuditFiles.{SaysText, most_answer_bytes};
ghost use Rattle.audit_calls.specs.AnswerAudits.{FindsByFile};
ghost use Rattle.pace_audit.specs.PaceAudits.{FindsDate};
ghost use Rattle.pace_audit.specs.PaceFindings.{IsDateFound};

use answer_check::{refutes_date, shown_date};
use audit_calls::{Beside, Finding, open_text};
use std::alloc::Global;
use teg_net::{Net, OutOfMemory};
use teg_outside::Shelf;

// Of `date` that is not shown, by the text of a list.
fn other_date_finding(
    alloc: Global,
    net: &Net,
    list: &str,
    text: &str,
) -> Result<Finding, OutOfMemory>
    requires { ShowsDate net.now list.now text.now None }
    ensures { IfOk result (IsDateFound net.now list.now text.now) }
{
    net.rules();
    if refutes_date(alloc, net, list, text)? {
        Ok(Finding::Refuted)
    } else {
        Ok(Finding::NotShown)
    }
}

// Of `date`, by the text of a list.
fn date_finding(alloc: Global, net: &Net, list: &str, text: &str) -> Result<Finding, OutOfMemory>
    ensures { IfOk result (IsDateFound net.now list.now text.now) }
{
    match shown_date(alloc, net, list, text)? {
        Some(_) => Ok(Finding::Shown),
        None => other_date_finding(alloc, net, list, text),
    }
}

// The same by the file of this name, which has the list.
fn date_by_file<S: Shelf>(
    alloc: Global,
    net: &Net,
    name: &str,
    text: &str,
    shelf: &mut S,
) -> Result<Option<Finding>, OutOfMemory>
    ensures { IfOk result (FindsByFile SaysText (λ list. IsDateFound net.now (string_bytes list) text.now)
        name.now most_answer_bytes (S.state shelf.old) (S.state shelf.new)) }
{
    let Some(list) = open_text(alloc, name, shelf)? else {
        return Ok(None);
    };
    let finding = date_finding(alloc, net, list.as_str(), text)?;
    Ok(Some(finding))
}

/// What is found of one date, by the file of a list of dates that it was asked with; none where that
/// is not read or is no text. It takes memory.
pub fn find_date<S: Shelf>(
    alloc: Global,
    net: &Net,
    beside: &Beside,
    text: &str,
    shelf: &mut S,
) -> Result<Option<Finding>, OutOfMemory>
    ensures { IfOk result (FindsDate net.now beside.now text.now
        (S.state shelf.old) (S.state shelf.new)) }
{
    match beside {
        Beside::File { name } => date_by_file(alloc, net, name.as_str(), text, shelf),
        _ => Ok(Some(Finding::NoChecker)),
    }
}
