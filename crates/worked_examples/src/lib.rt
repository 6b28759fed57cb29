//! Worked examples: whole calls of `workbench` over a shelf and a sink in memory. Each command,
//! with answers that were worked out by hand; texts of the calculator that mean one series; reads
//! and writes that fail, each in turn; monitors in any mix; and files and writers of std. The crate
//! has tests alone, since what it shows is what no contract says: that the texts are the ones that
//! users read, and that memory is found. It stands on `teg_run`, `teg_outside` and `example_nets`.
//! Commands at the limits are rows of `tools/rows/limits.rows`.
#![tactic(auto)]

#[cfg(test)]
mod bench;
#[cfg(test)]
mod commands;
#[cfg(test)]
mod failing_calls;
#[cfg(test)]
mod monitor_mixes;
#[cfg(test)]
mod monitors;
#[cfg(test)]
mod nets;
#[cfg(test)]
mod one_series;
#[cfg(test)]
mod shelves;
#[cfg(test)]
mod sinks;
