//! The call: the words ask of answers, each is audited, and what is found is written.
ghost use Rattle.std.specs.Prelude.{◌≡◌, ◌++◌, IfOk, Some, length, map, string_bytes};
ghost use Rattle.audit_calls.specs.AuditCalls.{AnswersAll, AnswersUpTo, AppendsAnswer, CallsAudit, WritesAudit, audit_status, audit_text};
ghost use Rattle.audit_calls.specs.AuditMeanings.{ending_meant, told_meant};
ghost use Rattle.audit_calls.specs.Questions.{words_of_questions};

use crate::auditing::{Told, audit_question};
use crate::auditor::Auditor;
use crate::question::{Question, question_of};
use crate::status::{AuditStatus, graver, status_of};
use crate::writing::write_all;
use std::alloc::{AllocError, Global};
use teg_net::OutOfMemory;
use teg_outside::{Shelf, Sink, SinkFault};

// The gravest ending of the answers, and all that is told of them.
#[derive(Drop)]
struct Ending {
    status: AuditStatus,
    text: String,
}

// Appends what is told of an answer, and gives how a call ends that tells this alone.
fn push_told(
    text: &mut String,
    question: &Question,
    told: Option<Told>,
) -> Result<AuditStatus, AllocError>
    ensures status { IfOk result (λ status. status ≡ audit_status (told_meant told)) }
    ensures told { IfOk result (λ _. string_bytes text.new
        ≡ string_bytes text.old ++ audit_text question.now (told_meant told)) }
{
    match told {
        Some(told) => {
            text.push_str(told.text.as_str())?;
            Ok(status_of(told.finding))
        }
        None => {
            let answer = question.answer.as_str();
            write!(text, "not read {answer}\n")?;
            Ok(AuditStatus::NotRead)
        }
    }
}

// Answers the words of one question, and appends what is told.
fn answer_words<A: Auditor, S: Shelf>(
    alloc: Global,
    words: &[String],
    text: &mut String,
    shelf: &mut S,
) -> Result<AuditStatus, OutOfMemory>
    ensures { IfOk result (AppendsAnswer A.finds words.now (S.state shelf.old) (S.state shelf.new)
        (string_bytes text.old) (string_bytes text.new)) }
{
    let Some(question) = question_of(alloc, words)? else {
        return Ok(AuditStatus::Words);
    };
    let told = audit_question::<A, S>(alloc, &question, shelf)?;
    let status = push_told(text, &question, told)?;
    Ok(status)
}

// Answers the questions one after another.
fn answer_each<A: Auditor, S: Shelf>(
    alloc: Global,
    questions: &[&[String]],
    shelf: &mut S,
) -> Result<Ending, OutOfMemory>
    ensures { IfOk result (λ ending. AnswersUpTo A.finds
        (map (λ x. x.now) questions.now) (length questions.now) (S.state shelf.old) (S.state shelf.new)
        ending.status (string_bytes ending.text)) }
{
    let mut text = String::new(alloc);
    let mut status = AuditStatus::Shown;
    for index in 0..questions.len() {
        let last = answer_words::<A, S>(alloc, questions[index], &mut text, shelf)?;
        status = graver(status, last);
    }
    Ok(Ending { status, text })
}

// The words of each question.
fn questions_of<'w>(alloc: Global, words: &'w [String]) -> Result<Vec<&'w [String]>, AllocError>
    ensures { IfOk result (λ found. map (λ x. x.now) found.items
        ≡ words_of_questions words.now) }
{
    words.split(|word| word.as_str() == "--").collect(alloc)
}

// Answers all questions of the words.
fn answer_all<A: Auditor, S: Shelf>(
    alloc: Global,
    words: &[String],
    shelf: &mut S,
) -> Result<Ending, OutOfMemory>
    ensures { AnswersAll A.finds words.now (S.state shelf.old) (S.state shelf.new)
        (ending_meant result) }
{
    let questions = questions_of(alloc, words)?;
    let ending = answer_each::<A, S>(alloc, &questions, shelf)?;
    Ok(ending)
}

// Writes what is told, and gives how the call ends.
fn finish<W: Sink>(out: &mut W, ending: Result<Ending, OutOfMemory>) -> AuditStatus
    ensures { WritesAudit (W.state out.old) (W.state out.new) (ending_meant ending) result }
{
    match ending {
        Ok(ending) => match write_all(out, ending.text.as_bytes()) {
            Ok(()) => ending.status,
            Err(SinkFault::Failed) => AuditStatus::WriteFault,
        },
        Err(_) => AuditStatus::NoMemory,
    }
}

/// Audits the answers that the words ask of by an auditor, and writes what is found of each.
///
/// The words of a question are the files of a net and of an answer, and what it was asked with: the
/// due file of `jit`, the list of dates of `date`, the period and the file of `timetable`. Between
/// two questions stands `--`; `-` is standard input. Each file is read once, in this order, and that
/// which an answer was asked with only where the auditor reads it. Of an answer its first line is
/// written, of a table of latest dates each line that tells a date, of delays that are kept that line
/// and the circuit, and of delays that die out the line that says so, each behind what is found of
/// it. Of a list or a table with a wrong line its first line is written and the first that is wrong,
/// of rounds of which one is another the first line and that with which this one begins, of a table that does not go up to the greatest number that is due the first line alone. Of an
/// answer that is not read with its files it is written that this is so. The gravest of all is how
/// the call ends. The text is whole before its first byte is written, so nothing is written where no
/// memory is found.
///
/// What it promises is `CallsAudit` (`specs/AuditCalls.antt`) over what the auditor finds: the words,
/// the files that are read, what is found of each answer, and how that is written belong together.
pub fn audit_words<A: Auditor, S: Shelf, W: Sink>(
    alloc: Global,
    words: &[String],
    shelf: &mut S,
    out: &mut W,
) -> AuditStatus
    ensures { CallsAudit A.finds words.now (S.state shelf.old) (S.state shelf.new)
        (W.state out.old) (W.state out.new) result }
{
    let ending = answer_all::<A, S>(alloc, words, shelf);
    finish(out, ending)
}
