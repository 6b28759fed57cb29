//! What an example has before it asks its question: a net that is held, rows that are due, and the
//! transitions and places of these names; and questions to the net of a file, which are handed in, so
//! that the net is let go at one place for all of them.
ghost use Rattle.std.specs.Prelude.{◌<◌, IfOk, length};
ghost use Rattle.teg_due.specs.RowRules.{IsDueOf};

use std::alloc::Global;
use std::test::Fail;
use teg_check::LiveNet;
use teg_due::{Due, read_due};
use teg_net::{Net, OutOfMemory, PlaceId, TransitionId};
use teg_reader::read_net;

/// The net of the file.
pub fn read(alloc: Global, file: &[u8]) -> Result<Net, Fail> {
    Ok(read_net(alloc, file)?)
}

/// The net of the file, held.
pub fn held(alloc: Global, file: &[u8]) -> Result<LiveNet, Fail> {
    Ok(LiveNet::new(alloc, read(alloc, file)?)?)
}

/// What the question answers of the net of the file.
pub fn ask_net<T, F: FnOnce(Global, &Net) -> Result<T, Fail> + Drop>(
    alloc: Global,
    file: &[u8],
    ask: F,
) -> Result<T, Fail>
    requires { F.IsAlwaysCallable ask }
{
    let net = read(alloc, file)?;
    ask(alloc, &net)
}

/// What the question answers of the net of the file, held.
pub fn ask_held<T, F: FnOnce(Global, &LiveNet) -> Result<T, Fail> + Drop>(
    alloc: Global,
    file: &[u8],
    ask: F,
) -> Result<T, Fail>
    requires { F.IsAlwaysCallable ask }
{
    let held = held(alloc, file)?;
    ask(alloc, &held)
}

/// What the question answers of the net of the file, held, which it may change.
pub fn ask_changed<T, F: FnOnce(Global, &mut LiveNet) -> Result<T, Fail> + Drop>(
    alloc: Global,
    file: &[u8],
    ask: F,
) -> Result<T, Fail>
    requires { F.IsAlwaysCallable ask }
{
    let mut held = held(alloc, file)?;
    ask(alloc, &mut held)
}

// What the reader of an answer's text tells of the net of the file and of this text.
fn told_of<T, F: Fn(Global, &Net, &str) -> Result<T, OutOfMemory>>(
    alloc: Global,
    file: &[u8],
    text: &str,
    reader: &F,
) -> Result<T, Fail>
    requires { F.IsAlwaysCallable reader.now }
{
    let net = read(alloc, file)?;
    let told = reader(alloc, &net, text);
    Ok(told?)
}

/// Whether the reader of an answer's text tells this of the net of the file and of this text.
pub fn tells<T, F>(
    alloc: Global,
    file: &[u8],
    text: &str,
    reader: &F,
    wanted: &T,
) -> Result<bool, Fail>
where
    T: PartialEq + Drop,
    F: Fn(Global, &Net, &str) -> Result<T, OutOfMemory>,
    requires { F.IsAlwaysCallable reader.now }
{
    Ok(told_of(alloc, file, text, reader)? == *wanted)
}

/// Files, texts, and what the reader of an answer's text tells of the net of each file and of its
/// text; a failure with the first text of which it tells something else.
pub fn tells_all<T, F>(alloc: Global, rows: &[(&[u8], &str, T)], reader: &F) -> Result<(), Fail>
where
    T: PartialEq + Drop,
    F: Fn(Global, &Net, &str) -> Result<T, OutOfMemory>,
    requires { F.IsAlwaysCallable reader.now }
{
    for (file, text, wanted) in rows {
        if !tells(alloc, file, text, reader, wanted)? {
            return Err(Fail::new(*text));
        }
    }
    Ok(())
}

/// The rows of a due file of at most 1,000 bytes.
pub fn due_rows(alloc: Global, net: &Net, file: &[u8]) -> Result<Due, Fail>
    ensures { IfOk result (λ due. IsDueOf net.now due.rows.items) }
{
    if 1_000 < file.len() {
        return Err(Fail::new("a long due file"));
    }
    Ok(read_due(alloc, net, file)?)
}

/// The transition of this name.
pub fn transition_named(net: &Net, name: &str) -> Result<TransitionId, Fail>
    ensures { IfOk result (λ id. id.index < length net.now.transitions) }
{
    Ok(net.find(name).ok_or("no such transition")?)
}

/// The place of this name.
pub fn place_named(net: &Net, name: &str) -> Result<PlaceId, Fail>
    ensures { IfOk result (λ id. id.index < length net.now.places) }
{
    Ok(net.find_place(name).ok_or("no such place")?)
}
