//! Calls that audit printed answers: words in, the named files read, what an auditor finds of each
//! answer written.
//!
//! The one contract is that of [`audit_words`]: `CallsAudit` in `specs/AuditCalls.antt`. It ties the
//! words, what the reads gave, what is found of each answer, and how that is written. What is found
//! is left to an [`Auditor`], whose ghost member `finds` tells it: `pace_audit` has one of the answers
//! that are asked first, `answer_audit` one of all. An answer is known by its first words and by what
//! it was asked with (`kind_of_text` in `specs/AnswerWords.antt`). For auditors stand here the
//! findings ([`Finding`]), and how a file is read that an answer was asked with ([`fetch_file`],
//! [`open_text`], `FindsByFile` in `specs/Audits.antt`).
//!
//! It stands on `teg_reader` for net files, on `csv_records` for numbers, on `word_lines` for lines,
//! on `teg_outside` for the shelf and the sink, and on `teg_net` for nets; no checker is below it.
//! Its examples stand in `witness_examples`, as calls of its auditors.
#![tactic(auto)]

mod auditing;
mod auditor;
mod call;
mod claims;
mod files;
mod finding;
mod kinds;
mod question;
mod status;
mod words;
mod writing;

pub use auditor::Auditor;
pub use call::audit_words;
pub use files::{fetch_file, open_text};
pub use finding::Finding;
pub use kinds::{Alone, Kind, Searched};
pub use question::Beside;
pub use status::AuditStatus;
