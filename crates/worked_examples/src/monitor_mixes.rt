//! Monitors in any mix: those of the program in any order and number, and one that finds no memory
//! for its line.
use crate::bench::{Bench, WIDE};
use crate::nets::LOOP;
use std::alloc::Global;
use std::test::Fail;
use teg_outside::{FiringCount, HighWater, Lateness, Monitor, NoLine};
use teg_run::Status;

// A monitor of the mix.
#[derive(Clone, Copy, Drop)]
enum Watch {
    Firings,
    Tokens,
    Late,
    NoLine,
}

// A log of the loop, the monitors, how its replay ends, and what it writes.
type Mix<'a> = (&'a str, &'a [Watch], Status, &'a str);

const RUN: &str = "a,1\nb,4\n";

const MIXES: [Mix<'static>; 7] = [
    (RUN, &[], Status::Done, "replayed 2 firings\n"),
    (
        RUN,
        &[Watch::Late, Watch::Tokens, Watch::Firings],
        Status::Done,
        "replayed 2 firings\ngreatest lateness 1\nhigh water 1\nfirings 2\n",
    ),
    (
        RUN,
        &[Watch::Firings, Watch::Late, Watch::Firings],
        Status::Done,
        "replayed 2 firings\nfirings 2\ngreatest lateness 1\nfirings 2\n",
    ),
    (RUN, &[Watch::NoLine, Watch::Firings], Status::NoMemory, ""),
    (
        "a,1\nb,3\n",
        &[Watch::Late],
        Status::Log,
        "refused: log row 2 illegal place ab\ngreatest lateness 1\n",
    ),
    (
        "a,1\nb,3\n",
        &[Watch::Late, Watch::NoLine],
        Status::NoMemory,
        "",
    ),
    (
        "a,x\n",
        &[Watch::NoLine],
        Status::Log,
        "refused: log row 1 is not a firing\n",
    ),
];

// The monitors of a mix.
fn monitors_of(alloc: Global, mix: &[Watch]) -> Result<Vec<Box<dyn Monitor>>, Fail> {
    let mut monitors: Vec<Box<dyn Monitor>> = Vec::new(alloc);
    for watch in mix {
        let monitor: Box<dyn Monitor> = match watch {
            Watch::Firings => Box::new(alloc, FiringCount::new())?,
            Watch::Tokens => Box::new(alloc, HighWater::new())?,
            Watch::Late => Box::new(alloc, Lateness::new())?,
            Watch::NoLine => Box::new(alloc, NoLine::new())?,
        };
        monitors.push(monitor)?;
    }
    Ok(monitors)
}

// Whether the call with the monitors of a mix ends as it says and writes just its text.
fn ends_so(alloc: Global, bench: &mut Bench, mix: &Mix<'_>) -> Result<bool, Fail> {
    let (_, watches, status, text) = *mix;
    let monitors = monitors_of(alloc, watches)?;
    Ok(bench.run(alloc, monitors) == status && bench.written() == text.as_bytes())
}

// The same of a replay of its log.
fn is_answered(alloc: Global, mix: &Mix<'_>) -> Result<bool, Fail> {
    let files = (LOOP.as_bytes(), mix.0.as_bytes());
    let words = ["replay", "net", "second"];
    let mut bench = Bench::new(alloc, &words, files, &[], WIDE)?;
    ends_so(alloc, &mut bench, mix)
}

#[test]
fn each_mix_has_its_lines(rt: HostRuntime) -> Result<(), Fail> {
    for mix in &MIXES {
        assert!(rt; is_answered(rt.alloc(), mix)?);
    }
    Ok(())
}
