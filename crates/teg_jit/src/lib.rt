//! Latest inputs of a timed event graph: the latest dates of firings that still meet every due date
//! (chapter 5).
//!
//! [`latest_inputs`] answers a [`Plan`]: the latest date of each firing up to the greatest number
//! that is due, each with the first step of a walk by which it is attained. At the inputs these are
//! the latest inputs, whose input lists play no part. It answers `Late` exactly where inputs at 0
//! do not meet the due dates, with the first such row and a walk that shows it. [`latest`] is the
//! same call for a caller that has the standard form, which it does not read. What latest dates and
//! latest inputs are stands in `due_laws`, over walks and datings; what plans keep beside it is
//! proved by functions that do nothing when they run. The crate stands on `teg_net`, on `teg_check`
//! for ranks, on `teg_form` for the signature of `latest` alone, on `date_rows` for the least
//! dates, on `teg_due` for due lists, and on `due_laws`, `teg_model` and `dioid` for what the
//! answers mean. Its examples stand in `library_examples`, in `chapters_plans.rt` and `plans.rt`.
//!
//! ## How it works
//!
//! The latest dates are found going back, one number at a time from the greatest that is due. A
//! number begins with its due dates; each date is lowered to that of the transition's next number,
//! and then, by one pass over the places in falling order of the ranks of their upstream
//! transitions, to what each place leaves of the date at its end. A date is lowered only where the
//! new one comes strictly before, so of equal steps the first stays: Due, then Next, then a place.
//! That inputs at 0 keep the due dates is tested first, by rows of which only the last are kept; so
//! the subtractions stay at or above 0. A date and its first step are one number of eight bytes.
//! Where a row is late, its walk comes from a plan for this row alone, due at its least date: some
//! firing's latest date is then its start, and the walk of the first steps from there is late.
//!
//! ## Call it
//!
//! `NET` is the file of a machine, `work`, that takes 3 units for each part: one comes `in` every 4
//! units, and is 2 units on a belt. From
//! `library_examples::chapters_plans::due_dates_have_latest_inputs`:
//!
//! ```rust
//! let held = LiveNet::new(alloc, read_net(alloc, NET)?)?;
//! let due = read_due(alloc, held.net(), b"work,1,10\nwork,2,11\n")?;
//! let plan = latest_inputs(alloc, held.net(), held.live(), &due)?;
//! let entry = held.net().find("in").ok_or("no such transition")?;
//! assert!(rt; plan.numbers() == 2);
//! let first = plan.latest(entry, 1);
//! assert!(rt; matches!(first, LatestDate::At { date: 6, .. }));
//! ```
#![tactic(auto)]

mod answers;
mod cells;
mod due_dates;
mod due_numbers;
mod late;
mod latest_list;
mod laws;
mod meeting;
mod order;
mod passes;
mod plan;
mod planning;
mod starts;
mod transposed_list;

pub use answers::{JitRefusal, LatestDate, Onward};
pub use laws::{dues_are_kept_by_rows, late_excludes_meet, meet_or_late, plans_lead};
pub use plan::Plan;
pub use planning::{latest, latest_inputs};
