//! Audits of printed answers of all kinds: words in, the named files read, what is found of each
//! answer written.
//!
//! The one contract is that of [`audit`]: `AuditsWords` in `specs/Audits.antt`. It is `CallsAudit`
//! of `audit_calls`, of words, files and what is written, over what is found of an answer
//! (`FindsOf`): it is told as shown only where its text is what that kind of answer says of the net
//! (`IsShownSearched` and its like in `specs/AnswerFindings.antt`, which are those of the
//! checkers), as refuted only where it is not, of a list or a table of latest dates by its first
//! wrong line (`IsListFound` of `pace_audit`, `IsPlanFound`), and of cycle times with rounds by the
//! first round that is another (`IsRoundsFound`). Each kind has a function of its own, which asks
//! the checker: those of answers that are asked first in `pace_audit`, of what a search goes
//! through in `searched.rt`, those with a file in `by_file.rt`. That a right answer is shown is
//! said of lists, of one date, of sizes, and of whether a net is live or has no circuit: another
//! checker may also not say yes.
//!
//! It stands on `audit_calls` for calls, on `pace_audit` for the answers that are asked first, on
//! `witness_check`, `round_check`, `settled_check`, `dating_check`, `delay_check`, `forever_check`
//! and `bound_check` for what the others show, on `teg_due`, `endless_due` and `timetable_files`
//! for files, on `csv_records` for their length, on `teg_outside` for the shelf and the sink, and
//! on `teg_net` for nets. Its examples stand in `witness_examples`.
#![tactic(auto)]

mod all_answers;
mod by_file;
mod files;
mod searched;

pub use all_answers::audit;
pub use audit_calls::AuditStatus;
