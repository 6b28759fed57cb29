//! The audit of all answers.
ghost use Rattle.answer_audit.specs.Audits.{AuditsWords, FindsOf};

use crate::by_file::{
    find_kept, find_late, find_late_order, find_plan, find_recovered, find_releases,
};
use crate::searched::searched_finding;
use audit_calls::{AuditStatus, Auditor, Beside, Finding, Kind, audit_words};
use pace_audit::{alone_finding, find_date};
use std::alloc::Global;
use teg_net::{Net, OutOfMemory};
use teg_outside::{Shelf, Sink};

// The auditor of all answers.
struct AllAnswers;

impl Auditor for AllAnswers {
    ghost finds = { FindsOf };

    fn find<S: Shelf>(
        alloc: Global,
        net: &Net,
        beside: &Beside,
        kind: Option<Kind>,
        text: &str,
        shelf: &mut S,
    ) -> Result<Option<Finding>, OutOfMemory> {
        match kind {
            Some(Kind::OfNet(kind)) => {
                let finding = alone_finding(alloc, net, kind, text)?;
                Ok(Some(finding))
            }
            Some(Kind::OfSearch(kind)) => {
                let finding = searched_finding(alloc, net, kind, text)?;
                Ok(Some(finding))
            }
            Some(Kind::Plan) => find_plan(alloc, net, beside, text, shelf),
            Some(Kind::Releases) => find_releases(alloc, net, beside, text, shelf),
            Some(Kind::LateRow) => find_late(alloc, net, beside, text, shelf),
            Some(Kind::LateOrder) => find_late_order(alloc, net, beside, text, shelf),
            Some(Kind::OneDate) => find_date(alloc, net, beside, text, shelf),
            Some(Kind::Kept) => find_kept(alloc, net, beside, text, shelf),
            Some(Kind::Recovered) => find_recovered(alloc, net, beside, text, shelf),
            None => Ok(Some(Finding::NoChecker)),
        }
    }
}

/// Audits the answers that the words ask of, of all kinds, and writes what is found of each.
///
/// Words, files, what is written and how the call ends are those of `audit_words` in `audit_calls`;
/// the file that an answer was asked with is read only where its kind wants it. Time: that of the
/// checkers.
///
/// What it promises is `AuditsWords` (`specs/Audits.antt`): `shown` is written of an answer only
/// where its text is what that kind of answer says of the net that its file says (`IsShownAlone` of
/// `pace_audit`, `IsShownSearched` and its like in `specs/AnswerFindings.antt`), and `refuted` only
/// where it is not (`IsFound` of `pace_audit`). Of a list and of a table it says
/// more (`IsListFound` of `pace_audit`, `IsPlanFound`): the line that is told is the first that is
/// wrong, and in a live net neither is written of a list only where the text is none, of a table only
/// where it is none, where the rows are no due list, or where its dates are all right and there is a
/// plan. Of `check`, of no circuit, of a size in a live net, and of a date whose list is shown and has
/// its firing, one of both is always written (`IsDecided`, `IsDecidedWhereLive`, `IsDateFound` of
/// `pace_audit`). Of cycle times with rounds the line that is told is the first of the first round
/// that is another (`IsRoundsFound`).
pub fn audit<S: Shelf, W: Sink>(
    alloc: Global,
    words: &[String],
    shelf: &mut S,
    out: &mut W,
) -> AuditStatus
    ensures { AuditsWords words.now (S.state shelf.old) (S.state shelf.new)
        (W.state out.old) (W.state out.new) result }
{
    audit_words::<AllAnswers, S, W>(alloc, words, shelf, out)
}
