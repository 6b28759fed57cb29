//! An element of a run.
use teg_net::TransitionId;

/// A firing of a run.
#[derive(Clone, Copy, Debug, PartialEq, Eq)]
pub struct Fired {
    pub transition: TransitionId,
    /// When it fired, in the user's unit of time.
    pub date: u64,
}
