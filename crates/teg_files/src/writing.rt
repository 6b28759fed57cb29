//! Writing an answer.
ghost use Rattle.teg_files.specs.CallMeanings.{ended};
ghost use Rattle.teg_files.specs.Finishing.{Finished};
ghost use Rattle.teg_files.specs.Writing.{WritesText};

use crate::ending::Ending;
use crate::status::Status;
use teg_outside::{Sink, SinkFault};

/// Writes a text in pieces, until the sink has taken all of it. Each turn takes at least one byte.
pub fn write_all<W: Sink>(out: &mut W, text: &[u8]) -> Result<(), SinkFault>
    ensures { WritesText (W.state out.old) (W.state out.new) text.now result }
{
    let mut written = 0;
    while written < text.len() {
        written += out.write(&text[written..])?;
    }
    Ok(())
}

/// Writes how the work ended, and tells how the call ends.
pub fn finish<W: Sink>(out: &mut W, ending: Ending) -> Status
    ensures { Finished (W.state out.old) (W.state out.new) (ended ending) result }
{
    match ending {
        Ending::Whole { status, text } => match write_all(out, &text) {
            Ok(()) => status,
            Err(SinkFault::Failed) => Status::WriteFault,
        },
        Ending::Lost => Status::NoMemory,
    }
}
