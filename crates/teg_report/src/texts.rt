//! The texts of the short answers. Each line ends with a line feed.
ghost use Rattle.std.specs.Prelude.{◌≡◌, ◌<◌, [], ◌∷◌, IfOk, length};
ghost use Rattle.teg_report.specs.ShortAnswers.{date_line, live_lines, no_circuit_line, no_transition_line, read_fault_line, too_large_line, too_long_line};
ghost use Rattle.teg_lines.specs.Widths.{IsWord32, IsWord64};
ghost use Rattle.teg_text.specs.Lines.{written};
ghost use Rattle.teg_text.specs.WordsOfNames.{name_of_transition};
ghost use Rattle.teg_text.specs.ValueWords.{AreBytes, IsDate};

use crate::answer::Which;
use dioid::Date;
use std::alloc::Global;
use teg_net::{Label, Net, OutOfMemory, TransitionId};
use teg_text::{push_date, push_label};

// The bytes of a text.
pub(crate) fn bytes_of(alloc: Global, text: &str) -> Result<Vec<u8>, OutOfMemory>
    ensures { IfOk result (λ bytes. bytes.items ≡ text.now) }
{
    Ok(Vec::from_slice(alloc, text.as_bytes())?)
}

// That a net of this size is live.
pub(crate) fn live(alloc: Global, transitions: u32, places: u32) -> Result<Vec<u8>, OutOfMemory>
    ensures text { IfOk result (λ text. text.items ≡ written (live_lines transitions places)) }
    ensures kept { IsWord32 transitions × IsWord32 places }
{
    let text = format!(in alloc; "live\ntransitions {transitions}\nplaces {places}\n")?;
    Ok(text.into_bytes())
}

// That a net has no circuit.
pub(crate) fn no_circuit(alloc: Global) -> Result<Vec<u8>, OutOfMemory>
    ensures { IfOk result (λ text. text.items ≡ written (no_circuit_line ∷ [])) }
{
    bytes_of(alloc, "no circuit\n")
}

// That a file is longer than a file may be.
pub(crate) fn too_large(alloc: Global, file: Which) -> Result<Vec<u8>, OutOfMemory>
    ensures { IfOk result (λ text. text.items ≡ written (too_large_line file ∷ [])) }
{
    match file {
        Which::Net => bytes_of(alloc, "refused: the net is longer than 4194304 bytes\n"),
        Which::Due => bytes_of(
            alloc,
            "refused: the due file is longer than 4194304 bytes\n",
        ),
        Which::Log => bytes_of(alloc, "refused: the log is longer than 4194304 bytes\n"),
        Which::Timetable => bytes_of(
            alloc,
            "refused: the timetable is longer than 4194304 bytes\n",
        ),
    }
}

// That a file could not be read.
pub(crate) fn fault(alloc: Global, file: Which) -> Result<Vec<u8>, OutOfMemory>
    ensures { IfOk result (λ text. text.items ≡ written (read_fault_line file ∷ [])) }
{
    match file {
        Which::Net => bytes_of(alloc, "fault: cannot read the net\n"),
        Which::Due => bytes_of(alloc, "fault: cannot read the due file\n"),
        Which::Log => bytes_of(alloc, "fault: cannot read the log\n"),
        Which::Timetable => bytes_of(alloc, "fault: cannot read the timetable\n"),
    }
}

// That no transition has this name.
pub(crate) fn no_transition(alloc: Global, word: &Label) -> Result<Vec<u8>, OutOfMemory>
    ensures text { IfOk result (λ text. text.items ≡ written (no_transition_line word.now ∷ [])) }
    ensures kept { IfOk result (λ _. AreBytes word.now) }
{
    let mut text = String::from_str(alloc, "refused: no transition ")?;
    push_label(&mut text, word.as_str())?;
    text.push('\n')?;
    Ok(text.into_bytes())
}

// That no settled form is as short as this.
pub(crate) fn too_long(alloc: Global, limit: u32) -> Result<Vec<u8>, OutOfMemory>
    ensures text { IfOk result (λ text. text.items ≡ written (too_long_line limit ∷ [])) }
    ensures kept { IsWord32 limit }
{
    let text = format!(in alloc; "too long: no settled form within {limit}\n")?;
    Ok(text.into_bytes())
}

// The date of a firing.
pub(crate) fn date(
    alloc: Global,
    net: &Net,
    transition: TransitionId,
    number: u64,
    date: Date,
) -> Result<Vec<u8>, OutOfMemory>
    requires { transition.index < length net.now.transitions }
    ensures text { IfOk result (λ text. text.items ≡ written
        (date_line (name_of_transition net.now transition) number date ∷ [])) }
    ensures number { IsWord64 number }
    ensures date { IfOk result (λ _. IsDate date) }
{
    let name = net.transitions()[transition.index as usize].name.as_str();
    let mut text = format!(in alloc; "date {name} {number} ")?;
    push_date(&mut text, date)?;
    text.push('\n')?;
    Ok(text.into_bytes())
}
