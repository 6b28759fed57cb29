//! What if: the pace of a live net with another holding time of a place, and the cut of a list that
//! makes the net quickest.
//!
//! Each trial changes a copy (`LiveNet::copy`), so the net is afterwards as it was, and no caller
//! has to show it. [`pace_with_hold`] tells the pace of the net with the change (`IsPace`), and
//! [`bottleneck_with_hold`] a circuit with it; [`best_of`] the cut with the lowest one, and that no
//! cut of the list gives a lower (`IsBestCut`); [`pace_with_tokens`] what further tokens of a place
//! are worth, where [`may_add_tokens`] says that it may have them. [`paces_with`] answers for a list
//! of changes of both kinds, one pace a change and in their order (`ArePaces`), where [`may_change`]
//! says that the net may be changed so, and [`changed`] is the net with one of them. Of many trials
//! each begins with the answer on the net itself ([`pace_with_hold_from`], [`pace_with_cut_from`]),
//! and so takes few rounds. The crate stands on `pace_calls` for the pace, on `teg_check` for live
//! nets and on `teg_net` for nets.
#![tactic(auto)]

mod changes;
mod cuts;
mod trials;

pub use changes::{Change, changed, may_change, paces_with};
pub use cuts::{BestCut, Cut, best_of, pace_with_cut, pace_with_cut_from};
pub use trials::{
    bottleneck_with_hold, may_add_tokens, pace_with_hold, pace_with_hold_from, pace_with_tokens,
};
