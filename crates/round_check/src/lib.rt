//! Checks of rounds of policy iteration: whether a round is that of its policy, whether rounds follow
//! by the rule of the search, and whether a printed text tells them.
//!
//! [`check_round`] looks at a round as a value, exactly by its definition (`IsRound`): its choices,
//! its circuit, its ratio and its potentials. [`check_run`] looks at all rounds of a part: whether
//! they are a policy run (`IsPolicyRun`), in a live net exactly. [`shown_rounds`] reads the text of `cycle --rounds`
//! without a promise, lets [`check_run`] and the checks of `pace_check` look at what was read, prints
//! the text anew, and compares (`IsShownRounds`). [`refutes_rounds`] tells the first round of such a text that
//! is another than that of the net, with its line (`TellsOther`). Whatever found the rounds, nothing is
//! believed but the net and these.
//!
//! The crate stands on `policy_rounds` for what a round and a run are and for lemmas on choices,
//! policies and their circuits, and on no crate that finds rounds; on `pace_check` and
//! `witness_check` for cycle times and names in texts, on `teg_lines`, `teg_text` and `word_lines` for lines, on
//! `teg_parts` for what is marked, on `teg_certificates` for certificates and how short circuits are,
//! and on `teg_net` for nets. Its examples stand in `net_examples` and `witness_examples`.
#![tactic(auto)]

mod choices;
mod circuits;
mod others;
mod parts;
mod policies;
mod reading;
mod refuted;
mod rounds;
mod routing;
mod runs;
mod shown;
mod told;

pub use refuted::{OtherRound, refutes_rounds};
pub use rounds::check_round;
pub use runs::check_run;
pub use shown::shown_rounds;
