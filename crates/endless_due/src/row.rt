//! A row of due dates without end.
use teg_net::{DateList, TransitionId};

/// The due dates of one transition: the k-th is that of firing k. Past the list each is that of
/// `every` firings before, plus `gap`.
#[derive(Debug, Drop)]
pub struct EndlessRow {
    /// The number of the row in the file, from 1, a header included.
    pub row: u32,
    /// A transition that is no input.
    pub transition: TransitionId,
    /// The firings after which the dates repeat: 1 to 1,000, and at most the length of the list.
    pub every: u32,
    /// In the user's unit: 0 to 10^12.
    pub gap: u64,
    /// 1 to 10,000 dates, in the user's unit, each 0 to 10^12, which never fall.
    pub dates: DateList,
}
