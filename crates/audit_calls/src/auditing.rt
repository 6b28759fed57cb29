//! The audit of one answer: its files are read, and its checker is asked.
ghost use Rattle.std.specs.Prelude.{◌≡◌, IfOk, Some, map};
ghost use Rattle.audit_calls.specs.AnswerAudits.{Audits, AuditsNet, AuditsText, told_by};
ghost use Rattle.audit_calls.specs.AuditMeanings.{told_meant};

use crate::auditor::Auditor;
use crate::claims::claims_of;
use crate::files::{open_net, open_text};
use crate::finding::Finding;
use crate::kinds::{Kind, kind_of};
use crate::question::{Beside, Question};
use crate::words::lines_of;
use std::alloc::Global;
use teg_net::{Net, OutOfMemory};
use teg_outside::Shelf;

// What is found of an answer, and the lines that tell it.
#[derive(Drop)]
pub(crate) struct Told {
    pub(crate) finding: Finding,
    pub(crate) text: String,
}

// What is told where this is found.
fn told_of(
    alloc: Global,
    kind: Option<Kind>,
    found: Option<Finding>,
    lines: &[&str],
) -> Result<Option<Told>, OutOfMemory>
    ensures { IfOk result (λ told. told_meant told
        ≡ told_by kind (map (λ x. x.now) lines.now) found) }
{
    match found {
        Some(finding) => {
            let text = claims_of(alloc, kind, finding, lines)?;
            Ok(Some(Told { finding, text }))
        }
        None => Ok(None),
    }
}

// What is told of this text.
fn audit_text<A: Auditor, S: Shelf>(
    alloc: Global,
    net: &Net,
    beside: &Beside,
    text: &str,
    shelf: &mut S,
) -> Result<Option<Told>, OutOfMemory>
    ensures { IfOk result (λ told. AuditsText A.finds net.now beside.now text.now
        (S.state shelf.old) (S.state shelf.new) (told_meant told)) }
{
    let lines = lines_of(alloc, text)?;
    let kind = kind_of(beside, &lines);
    let found = A::find(alloc, net, beside, kind, text, shelf)?;
    let told = told_of(alloc, kind, found, &lines)?;
    Ok(told)
}

// What is told of the answer, by its net.
fn audit_answer<A: Auditor, S: Shelf>(
    alloc: Global,
    net: &Net,
    question: &Question,
    shelf: &mut S,
) -> Result<Option<Told>, OutOfMemory>
    ensures { IfOk result (λ told. AuditsNet A.finds question.now (Some net.now)
        (S.state shelf.old) (S.state shelf.new) (told_meant told)) }
{
    let Some(text) = open_text(alloc, question.answer.as_str(), shelf)? else {
        return Ok(None);
    };
    let told = audit_text::<A, S>(alloc, net, &question.beside, text.as_str(), shelf)?;
    Ok(told)
}

// What is told of the answer; none where one of its files is not read, or does not say what it
// should.
pub(crate) fn audit_question<A: Auditor, S: Shelf>(
    alloc: Global,
    question: &Question,
    shelf: &mut S,
) -> Result<Option<Told>, OutOfMemory>
    ensures { IfOk result (λ told. Audits A.finds question.now
        (S.state shelf.old) (S.state shelf.new) (told_meant told)) }
{
    let Some(net) = open_net(alloc, question.net.as_str(), shelf)? else {
        return Ok(None);
    };
    let told = audit_answer::<A, S>(alloc, &net, question, shelf)?;
    Ok(told)
}
