//! Examples of nets: files at their limits, lists of a program that break a rule, answers that were
//! worked out by hand, conditions of calls, slacks with what shows them, rounds of policy iteration
//! that are looked at, and nets that are changed and asked again. The crate has tests alone: they
//! show what no contract says, that memory is found, also at the limits. What a file is answered is
//! told by the rows of `tools/rows`.
#![tactic(auto)]

#[cfg(test)]
mod by_hand;
#[cfg(test)]
mod changed_nets;
#[cfg(test)]
mod conditions;
#[cfg(test)]
mod net_faults;
#[cfg(test)]
mod net_files;
#[cfg(test)]
mod rounds;
#[cfg(test)]
mod slack_witnesses;
