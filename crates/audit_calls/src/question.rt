//! The question that words ask: an answer, its net, and what it was asked with.
ghost use Rattle.std.specs.Prelude.{◌≡◌, ◌∷◌, [], IfOk, map, string_bytes};
ghost use Rattle.audit_calls.specs.Questions.{beside_asked, period_asked, question_asked};

use csv_records::{is_number, number_up_to};
use std::alloc::Global;
use teg_net::{Label, OutOfMemory};

// The greatest period of a timetable.
const GREATEST_PERIOD: u64 = 1_000_000;

/// What an answer was asked with beside the net, by the names of files.
#[derive(Drop)]
pub enum Beside {
    /// Nothing.
    Nothing,
    /// A file: rows that are due, or, of one date, a list of dates.
    File { name: Label },
    /// A timetable that departs again every so many units.
    Timetable { period: u64, name: Label },
}

/// An answer, its net, and what it was asked with, by the names of files.
#[derive(Drop)]
pub struct Question {
    pub net: Label,
    pub answer: Label,
    pub beside: Beside,
}

// The period that the word tells.
fn period_of(word: &str) -> Option<u64>
    ensures { result ≡ period_asked word.now }
{
    let digits = word.as_bytes();
    if !is_number(digits) {
        return None;
    }
    number_up_to(digits, GREATEST_PERIOD)
}

// The timetable of a period and the name of a file.
fn timetable_of(alloc: Global, word: &str, name: &str) -> Result<Option<Beside>, OutOfMemory>
    ensures { IfOk result (λ beside. beside ≡ beside_asked (word.now ∷ name.now ∷ [])) }
{
    match period_of(word) {
        Some(period) => {
            let name = Label::new(alloc, name)?;
            Ok(Some(Beside::Timetable { period, name }))
        }
        None => Ok(None),
    }
}

// What an answer was asked with, by the words behind its own.
fn beside_of(alloc: Global, words: &[String]) -> Result<Option<Beside>, OutOfMemory>
    ensures { IfOk result (λ beside. beside ≡ beside_asked (map string_bytes words.now)) }
{
    match words {
        [] => Ok(Some(Beside::Nothing)),
        [file] => {
            let name = Label::new(alloc, file.as_str())?;
            Ok(Some(Beside::File { name }))
        }
        [word, table] => timetable_of(alloc, word.as_str(), table.as_str()),
        _ => Ok(None),
    }
}

// The names of a net and of its answer.
fn named(alloc: Global, net: &str, answer: &str, beside: Beside) -> Result<Question, OutOfMemory>
    ensures { IfOk result (λ question. question
        ≡ record { net = net.now; answer = answer.now; beside = beside }) }
{
    let net = Label::new(alloc, net)?;
    let answer = Label::new(alloc, answer)?;
    Ok(Question {
        net,
        answer,
        beside,
    })
}

// The question that the words ask, if they ask one.
pub(crate) fn question_of(alloc: Global, words: &[String]) -> Result<Option<Question>, OutOfMemory>
    ensures { IfOk result (λ asked. asked ≡ question_asked (map string_bytes words.now)) }
{
    match words {
        [net, answer, more @ ..] => match beside_of(alloc, more)? {
            Some(beside) => {
                let asked = named(alloc, net.as_str(), answer.as_str(), beside)?;
                Ok(Some(asked))
            }
            None => Ok(None),
        },
        _ => Ok(None),
    }
}
