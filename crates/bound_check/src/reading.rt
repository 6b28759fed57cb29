//! The numbers that a text of `teg bound` tells. Nothing rests on them: they are looked at.
use std::alloc::{AllocError, Global};
use witness_check::settled_in_line;

// A bound, and the number and the period of a settled form.
#[derive(Clone, Copy)]
pub(crate) struct ToldNumbers {
    pub(crate) number: u128,
    pub(crate) after: u64,
    pub(crate) period: u64,
}

// The numbers of the text; none where it tells none.
pub(crate) fn numbers_in(alloc: Global, text: &str) -> Result<Option<ToldNumbers>, AllocError> {
    let (first, rest) = text.split_once('\n').unwrap_or((text, ""));
    let word = first.strip_prefix("bound ").unwrap_or("");
    let Ok(number) = word.parse::<u128>() else {
        return Ok(None);
    };
    let second = rest.lines().next().unwrap_or("");
    match settled_in_line(alloc, second)? {
        Some((after, period)) => Ok(Some(ToldNumbers {
            number,
            after,
            period,
        })),
        None => Ok(None),
    }
}
