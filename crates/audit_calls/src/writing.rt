//! Writing a text.
ghost use Rattle.audit_calls.specs.AuditWriting.{WritesWhole};

use teg_outside::{Sink, SinkFault};

// Writes a text in pieces, until the sink has taken all of it. Each turn takes at least one byte.
pub(crate) fn write_all<W: Sink>(out: &mut W, text: &[u8]) -> Result<(), SinkFault>
    ensures { WritesWhole (W.state out.old) (W.state out.new) text.now result }
{
    let mut written = 0;
    while written < text.len() {
        written += out.write(&text[written..])?;
    }
    Ok(())
}
