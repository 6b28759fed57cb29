//! The whole workbench as one call: words in, the named files read, an answer written.
//!
//! The one contract is that of [`workbench`]: `Runs` in `specs/WholeCalls.antt`, of one call as the
//! record `Call` has it (the words, the monitors, the shelf and the sink before and after, the
//! status). It ties these in three parts: what the words ask for, what the reads gave and what
//! answer they lead to, and how that answer was written. The law [`runs_keep_promises`] says what
//! follows, one promise each, in the record `KeepsPromises` in `specs/Headline.antt`. [`serve`]
//! promises the same of monitors that are lent to it, and says what they are shown: by the replies
//! of the shelf (`ShowsJust` in `specs/ShownFirings.antt`), and by the files, where they are told
//! (`ShowsTold`). It stands on `teg_request` for what words ask for, on `teg_files` for what is read
//! and written, on `teg_commands` and the crates of commands below it for what each comes to, on
//! `teg_report` for the usage, on `teg_outside` for files and output, and on `trial_net` for the net
//! of `trial`, which it hands on. Its examples stand in `worked_examples`.
#![tactic(auto)]

mod call;
mod carry_out;
mod file_commands;
mod laws;
mod net_commands;
mod watched;

pub use call::{serve, workbench};
pub use laws::runs_keep_promises;
pub use teg_files::Status;
pub use trial_net::make_trial;
pub use watched::run_watched;
