//! The audit of the answers that are asked first.
ghost use Rattle.pace_audit.specs.PaceAudits.{AuditsFirstWords, FindsFirst};

use crate::alone::alone_finding;
use crate::one_date::find_date;
use audit_calls::{AuditStatus, Auditor, Beside, Finding, Kind, audit_words};
use std::alloc::Global;
use teg_net::{Net, OutOfMemory};
use teg_outside::{Shelf, Sink};

// The auditor of the answers that are asked first; no checker reads one of another kind.
struct FirstAnswers;

impl Auditor for FirstAnswers {
    ghost finds = { FindsFirst };

    fn find<S: Shelf>(
        alloc: Global,
        net: &Net,
        beside: &Beside,
        kind: Option<Kind>,
        text: &str,
        shelf: &mut S,
    ) -> Result<Option<Finding>, OutOfMemory> {
        match kind {
            Some(Kind::OfNet(kind)) => {
                let finding = alone_finding(alloc, net, kind, text)?;
                Ok(Some(finding))
            }
            Some(Kind::OneDate) => find_date(alloc, net, beside, text, shelf),
            _ => Ok(Some(Finding::NoChecker)),
        }
    }
}

/// Audits those answers that the words ask of which are asked first: of `check`, `list`, `date`,
/// `cycle` without the rounds, `slack` and `size`, that there is no circuit, and why a net cannot
/// run. What is found of each is written.
///
/// Words, files, what is written and how the call ends are those of `audit_words` in `audit_calls`;
/// of an answer of another kind it is written that no checker reads it, and the file that it was
/// asked with is not read. Time: that of the checkers.
///
/// What it promises is `AuditsFirstWords` (`specs/PaceAudits.antt`): `shown` is written of an answer
/// only where its text is what that kind of answer says of the net that its file says
/// (`IsShownAlone`, `IsShownDateOf` in `specs/PaceFindings.antt`), and `refuted` only where it is not.
/// Neither may be written of a pace and of slacks (`IsFound`); it is of a size only where the net is
/// not live (`IsDecidedWhereLive`); of one date only where the list is not shown or does not have the firing
/// (`IsDateFound`); of a list only where the net is not live or the text is no list, and the line that
/// is told is the first that is wrong (`IsListFound`); and never of whether the net is live or has no
/// circuit (`IsDecided`).
pub fn audit_first<S: Shelf, W: Sink>(
    alloc: Global,
    words: &[String],
    shelf: &mut S,
    out: &mut W,
) -> AuditStatus
    ensures { AuditsFirstWords words.now (S.state shelf.old) (S.state shelf.new)
        (W.state out.old) (W.state out.new) result }
{
    audit_words::<FirstAnswers, S, W>(alloc, words, shelf, out)
}
