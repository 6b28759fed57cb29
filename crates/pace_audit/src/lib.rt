//! Audits of the printed answers that are asked first: of `check`, `list`, `date`, `cycle`, `slack`
//! and `size`.
//!
//! The one contract is that of [`audit_first`]: `AuditsFirstWords` in `specs/PaceAudits.antt`. It is
//! `CallsAudit` of `audit_calls`, of words, files and what is written, over what is found here of an
//! answer: it is told as shown only where its text is what that kind of answer says of the net
//! (`IsShownAlone`, `IsShownDateOf` in `specs/PaceFindings.antt`, which are those of the checkers), as
//! refuted only where it is not, and of a list by its first wrong line (`IsListFound`). Each kind has a
//! function of its own, which asks the checker: those on the net alone in `alone.rt`, one date in
//! `one_date.rt`. That a right answer is shown, and a false one refuted, is said of all kinds
//! (`IsDecided`, `IsDecidedWhereLive`, `IsDateFound`, `IsListFound`) but paces and slacks (`IsFound`):
//! of these the checker may also not say yes. `answer_audit` takes [`alone_finding`] and
//! [`find_date`] for an audit of all answers, which waits for more proofs.
//!
//! It stands on `audit_calls` for calls, on `witness_check`, `pace_check` and `answer_check` for what
//! answers show, on `teg_outside` for the shelf and the sink, and on `teg_net` for nets. Its examples
//! stand in `witness_examples`.
#![tactic(auto)]

mod alone;
mod audit;
mod one_date;

pub use alone::alone_finding;
pub use audit::audit_first;
pub use audit_calls::AuditStatus;
pub use one_date::find_date;
