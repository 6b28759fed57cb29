//! How the commands are used: one table, from which the usage is written.
ghost use Rattle.std.specs.Prelude.{◌≡◌, ◌++◌, ◌∷◌, [], IfOk, codes, map, string_bytes};
ghost use Rattle.teg_report.specs.UsageLines.{commands, usage_from, usage_lines};
ghost use Rattle.teg_text.specs.Lines.{line_then, phrase, written};

use std::alloc::{AllocError, Global};
use teg_net::OutOfMemory;

/// The commands, in the order of the usage: the name of each, and what follows it.
pub const COMMANDS: [(&str, &str); 17] = [
    ("check", "NET"),
    ("list", "NET K"),
    ("form", "NET"),
    ("cycle", "NET [--rounds]"),
    ("dates", "NET [--limit N|none]"),
    ("date", "NET TRANSITION K [--limit N|none]"),
    ("jit", "NET DUE"),
    ("calc", "EXPR"),
    ("replay", "NET LOG"),
    ("slack", "NET"),
    ("transfer", "NET [--limit N]"),
    ("trial", "N"),
    ("migrate", "NET"),
    ("forever", "NET DUE"),
    ("size", "NET PLACE A/B"),
    ("timetable", "NET A FILE [--limit N|none]"),
    ("bound", "NET"),
];

// Appends the line of a command, which begins with this word.
#[tactic(auto, using(crate::proofs::TextsWritten::use_written))]
fn push_use(text: &mut String, begin: &str, name: &str, follows: &str) -> Result<(), AllocError>
    ensures { IfOk result (λ _. string_bytes text.new ≡ string_bytes text.old
        ++ line_then (phrase (begin.now ++ (codes " teg " ++ (name.now ++ 32 ∷ follows.now)))) []) }
{
    write!(text, "{begin} teg {name} {follows}\n")
}

// Appends the lines of all commands but the first.
fn push_uses(text: &mut String, mut commands: &[(&str, &str)]) -> Result<(), AllocError>
    ensures { IfOk result (λ _. string_bytes text.new ≡ string_bytes text.old ++ written
        (usage_from (codes "      ") (map (λ c. c.0.now ++ 32 ∷ c.1.now) commands.entry.now))) }
{
    while let [command, rest @ ..] = commands {
        push_use(text, "      ", command.0, command.1)?;
        commands = rest;
    }
    Ok(())
}

// One line for each command.
pub(crate) fn usage(alloc: Global) -> Result<Vec<u8>, OutOfMemory>
    ensures { IfOk result (λ text. text.items ≡ written usage_lines) }
{
    let mut text = String::new(alloc);
    push_use(&mut text, "usage:", COMMANDS[0].0, COMMANDS[0].1)?;
    push_uses(&mut text, &COMMANDS[1..])?;
    Ok(text.into_bytes())
}

/// The law that the table [`COMMANDS`] has just the commands of the usage, in its order: their
/// names, and what follows each. It does nothing when it runs.
pub fn commands_are_told()
    ensures { map (λ command. (command.0.now, command.1.now)) COMMANDS ≡ commands }
{}
