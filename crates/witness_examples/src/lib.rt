//! Examples of the checkers of printed answers: texts of the guide that show that a net is live or
//! not, paces, rounds, sizes, bounds, dates, latest dates, late rows, lists, slacks, delays that stay
//! or die out, and releases without end, and the same texts with a digit changed, which show nothing;
//! of `word_lines`, by texts that are read; of `release_nets`, by the dates of such a net; and whole
//! calls of `answer_audit` and of `pace_audit`, the auditors of `audit_calls`. The crate has tests alone.
#![tactic(auto)]

#[cfg(test)]
mod answers;
#[cfg(test)]
mod audits;
#[cfg(test)]
mod bound_audits;
#[cfg(test)]
mod bounds;
#[cfg(test)]
mod first_audits;
#[cfg(test)]
mod forever;
#[cfg(test)]
mod kept_delays;
#[cfg(test)]
mod late_rows;
#[cfg(test)]
mod planned_nets;
#[cfg(test)]
mod recovered_delays;
#[cfg(test)]
mod rounds_told;
#[cfg(test)]
mod settled_texts;
#[cfg(test)]
mod tables;
#[cfg(test)]
mod texts_read;
#[cfg(test)]
mod witnesses;
