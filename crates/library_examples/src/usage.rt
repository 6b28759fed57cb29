//! The usage, read back by the table of commands.
use std::alloc::{AllocError, Global};
use std::test::Fail;
use teg_report::{Answer, COMMANDS, report};

// The usage.
fn usage(alloc: Global) -> Result<String, Fail> {
    let bytes = report(alloc, None, &Answer::Usage)?;
    Ok(String::from_utf8(bytes)?)
}

// Whether the usage has the line of this command.
fn has_line(alloc: Global, usage: &str, name: &str, follows: &str) -> Result<bool, AllocError> {
    let line = format!(in alloc; " teg {name} {follows}\n")?;
    Ok(usage.contains(line.as_str()))
}

// The command whose line the usage lacks.
fn lacking(alloc: Global, usage: &str) -> Result<Option<&'static str>, AllocError> {
    for (name, follows) in COMMANDS {
        if !has_line(alloc, usage, name, follows)? {
            return Ok(Some(name));
        }
    }
    Ok(None)
}

#[test]
fn the_usage_has_a_line_for_each_command(rt: HostRuntime) -> Result<(), Fail> {
    let usage = usage(rt.alloc())?;
    assert!(rt; usage.as_str().lines().count() == COMMANDS.len());
    let lacking = lacking(rt.alloc(), usage.as_str());
    assert!(rt; lacking?.is_none());
    Ok(())
}
