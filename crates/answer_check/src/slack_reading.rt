//! What a text of `teg slack` tells. Nothing rests on it: what is read is checked.
use crate::slack::ShownSlack;
use std::alloc::{AllocError, Global};
use teg_net::Ratio;
use witness_check::ratio_in;

// The ratio of the first line.
fn pace_in(alloc: Global, line: &str) -> Result<Option<Ratio>, AllocError> {
    let words: Vec<&str> = line.split_whitespace().collect(alloc)?;
    let ["cycle", "time", ratio] = words.as_slice() else {
        return Ok(None);
    };
    Ok(ratio_in(ratio))
}

// What the line of a place tells.
fn place_in(alloc: Global, line: &str) -> Result<Option<ShownSlack>, AllocError> {
    let words: Vec<&str> = line.split_whitespace().collect(alloc)?;
    let slack = match words.as_slice() {
        ["place", _, "no", "circuit"] => ShownSlack::NoCircuit,
        ["place", _, "critical"] => ShownSlack::Critical,
        ["place", _, "slack", by] => match by.parse::<u64>() {
            Ok(by) => ShownSlack::Rise { by },
            Err(_) => return Ok(None),
        },
        _ => return Ok(None),
    };
    Ok(Some(slack))
}

// The ratio that the text tells, and what it tells of each place in order; none where a line is
// none of its lines.
pub(crate) fn slack_in(
    alloc: Global,
    text: &str,
) -> Result<Option<(Ratio, Vec<ShownSlack>)>, AllocError> {
    let (first, rest) = text.split_once('\n').unwrap_or((text, ""));
    let Some(ratio) = pace_in(alloc, first)? else {
        return Ok(None);
    };
    let mut slacks = Vec::new(alloc);
    for line in rest.lines() {
        match place_in(alloc, line)? {
            Some(slack) => slacks.push(slack)?,
            None => return Ok(None),
        }
    }
    Ok(Some((ratio, slacks)))
}
