//! Residuals of steady series: of those that rise by the same step from each shift to the next, as
//! due dates mostly do.
//!
//! A series that takes time before a steady one takes as much as one value everywhere: by how much
//! its values are later than the steps up to their shifts, at most. So [`left`] is found by one
//! look at each value of the list, where `Gain::left` of `series_ops` goes through many lists of
//! that length. Where the second series is not steady, or is outrun by the first, `Gain::left`
//! answers. A series that goes on so after a list may fall behind its steps there, but by no more
//! than its greatest drop: values of the first that are earlier than one before them and the steps
//! since by that much add nothing. Where these are all but the first few, [`left_by_first`] asks for
//! these few alone. The crate stands on `series_laws`, `series_form` and `series_ops` for series and their
//! residuals, and on `dioid` for dates. It is tried by what is asked of `forever`, in
//! `date_examples`.
#![tactic(auto)]

mod cuts;
mod leads;

pub use cuts::left_by_first;
pub use leads::left;
