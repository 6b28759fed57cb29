//! What an example tells: that something is so.
use std::test::Fail;

/// Nothing where it is so; a failure with these words where it is not.
pub fn so(is_so: bool, words: &str) -> Result<(), Fail> {
    if is_so { Ok(()) } else { Err(Fail::new(words)) }
}
