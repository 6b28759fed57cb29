//! The entries of a net: transitions, places and input lists.
ghost use Rattle.std.specs.Prelude.{◌≡◌, ◌↔◌, IfOk, IsTrue, nat_eq};
ghost use Rattle.std.specs.Cmp.{partial_equiv_from_equiv};
ghost use Rattle.std.specs.Cmp.Lexicographic.{pointwise, nat_list_eq_equiv};

use crate::names::Name;
use std::alloc::{AllocError, Global};
use std::marker::Model;

/// What a transition is to the outside (chapter 2).
#[derive(Clone, Copy, Debug, PartialEq, Eq)]
pub enum Role {
    /// It fires as soon as its places allow.
    Internal,
    /// It also waits for dates from outside, and no place enters it.
    Input,
    /// Its firings are what the net delivers.
    Output,
}

/// The number of a transition, counted from 0 in the order of the net's list.
#[derive(Clone, Copy, Debug, PartialEq, Eq, PartialOrd, Ord, Hash)]
pub struct TransitionId {
    pub index: u32,
}

impl TransitionId {
    /// The transition of this number, counted from 0. It takes no memory.
    pub fn new(index: u32) -> TransitionId
        ensures { result.index ≡ index }
    {
        TransitionId { index }
    }

    /// The number, counted from 0, to index a list with. It takes no memory.
    pub fn index(self) -> usize
        ensures { result ≡ self.index }
    {
        self.index as usize
    }
}

/// The number of a place, counted from 0 in the order of the net's list.
#[derive(Clone, Copy, Debug, PartialEq, Eq, PartialOrd, Ord, Hash)]
pub struct PlaceId {
    pub index: u32,
}

impl PlaceId {
    /// The place of this number, counted from 0. It takes no memory.
    pub fn new(index: u32) -> PlaceId
        ensures { result.index ≡ index }
    {
        PlaceId { index }
    }

    /// The number, counted from 0, to index a list with. It takes no memory.
    pub fn index(self) -> usize
        ensures { result ≡ self.index }
    {
        self.index as usize
    }
}

/// A transition (chapter 2).
#[derive(Debug, Drop, PartialEq, Eq)]
pub struct Transition {
    pub name: Name,
    pub role: Role,
}

/// A place with one upstream and one downstream transition (chapter 2).
#[derive(Debug, Drop, PartialEq, Eq)]
pub struct Place {
    pub name: Name,
    /// The upstream transition, which it leaves.
    pub from: TransitionId,
    /// The downstream transition, which it enters.
    pub to: TransitionId,
    /// The holding time, in the user's unit: 0 to 1,000,000,000.
    pub hold: u64,
    /// The initial tokens: 0 to 1,000.
    pub tokens: u32,
    /// From when each initial token is ready, in the user's unit: one date for each token, 0 to
    /// 10^12, in any order, or none, which means that all are ready at 0. Token 1 is the one that
    /// the first firing of the downstream transition takes.
    pub ready: DateList,
}

/// How an input list goes on past its end: each date is that of `every` firings before, plus `gap`.
#[derive(Clone, Copy, Debug, PartialEq, Eq)]
pub struct Again {
    /// 1 to 1,000, and at most the length of the list.
    pub every: u32,
    /// In the user's unit: 0 to 10^12.
    pub gap: u64,
}

/// Dates in the user's unit, in order of the numbers of firings, or of tokens. Contracts see the
/// list, and two are equal where their lists are; it costs no memory beside it.
#[derive(Debug, Drop)]
pub struct DateList {
    dates: Vec<u64>,
}

impl Model for DateList {
    ghost use Rattle.std.specs.Prelude.{List, ℕ};

    ghost Value = { List ℕ };

    ghost view = { λ l. l.dates.items };
}

impl PartialEq for DateList {
    ghost eq = { pointwise nat_eq };

    ghost laws = { partial_equiv_from_equiv nat_list_eq_equiv };

    #[tactic(auto, using(crate::proofs::SameLists::equal_lists_told))]
    fn eq(&self, other: &DateList) -> bool
        ensures value { result ≡ pointwise nat_eq self.now other.now }
        ensures same { IsTrue result ↔ (self.now ≡ other.now) }
    {
        self.dates.as_slice() == other.dates.as_slice()
    }
}

impl Eq for DateList {
    ghost laws = { nat_list_eq_equiv };
}

impl DateList {
    // The same dates once more.
    pub(crate) fn copy(&self, alloc: Global) -> Result<DateList, AllocError>
        ensures { IfOk result (λ copy. copy ≡ self.now) }
    {
        let dates = Vec::from_slice(alloc, &self.dates)?;
        Ok(DateList { dates })
    }

    /// The dates, in the user's unit, as a list. It takes no memory.
    pub fn new(dates: Vec<u64>) -> DateList
        ensures { result ≡ dates.items }
    {
        DateList { dates }
    }

    /// The dates, in the user's unit. It takes no memory.
    pub fn as_slice(&self) -> &[u64]
        ensures { result.now ≡ self.now }
    {
        &self.dates
    }
}

/// The dates before which an input transition cannot fire: the k-th is that of firing k.
/// Past the list the dates go on by `again`, or the firing never comes.
#[derive(Debug, Drop, PartialEq, Eq)]
pub struct InputList {
    pub transition: TransitionId,
    /// At most 100,000 dates in the user's unit, each 0 to 10^12, which never fall.
    pub dates: DateList,
    /// How the list goes on; none where it ends.
    pub again: Option<Again>,
}
