//! The line of a refusal, as a program prints it.
use std::alloc::Global;
use std::fmt::Display;

/// Whether this is the line of the refusal.
pub fn says<T: Drop, E: Display + Drop>(alloc: Global, answer: Result<T, E>, line: &str) -> bool {
    match answer {
        Ok(_) => false,
        Err(refusal) => match format!(in alloc; "{refusal}") {
            Ok(text) => text.as_str() == line,
            Err(_) => false,
        },
    }
}
