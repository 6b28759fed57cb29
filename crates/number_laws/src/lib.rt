//! Laws of whole numbers that crates of several subjects need: among more numbers than there are
//! values two are equal (pigeons), a run of n lengths adds up to a multiple of n, divisors and
//! fractions in lowest terms, and what tests of numbers tell.
//!
//! It has no code and no definitions: its lemmas stand in `proofs/`, and proofs above cite them.
//! The crate stands on nothing.
#![tactic(auto)]
