//! How soon the least dates of a net become periodic (chapter 3, cyclicity).
//!
//! For a strongly connected live net without inputs, whose tokens are all ready at 0, a number read
//! off the net bounds the number past which its dates go on by steps, and the period divides every
//! common multiple of the tokens of critical circuits, one through each critical transition. The
//! one contract: each law is the contract of a function that does nothing when it runs. The crate
//! stands on `settled_laws` for settled forms, on `teg_loops` for loops of paths, on `teg_model`
//! for datings, on `teg_net` for nets, and on `dioid` for dates.
//!
//! With n transitions, holds at most H, tokens at most M (at least 1) and greatest ratio a/b above
//! 0, let T = (n - 1) M, C = n M and P = (n - 1) H: the bound is T + C (b P + a (T + C)) + 1.
#![tactic(auto)]

mod laws;

pub use laws::{
    common_multiples_exist, dates_go_on_past_the_bound, forms_keep_the_bound,
    still_nets_stay_at_zero,
};
