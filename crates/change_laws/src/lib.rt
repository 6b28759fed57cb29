//! Which changes make a timed event graph slower, and changes that are changed back (chapter 2).
//!
//! A net is slower where its places hold longer or have fewer tokens, or where it has further
//! places. What a slower net does to dates is told by `dating_laws`, and to the pace by `pace_laws`.
//! Who tries a holding time or a number of tokens and then takes the old one again has the net that
//! he had. Each law is the contract of a function that does nothing when it runs. The crate stands on
//! `teg_net` alone; no crate of the program stands on it.
#![tactic(auto)]

mod laws;

pub use laws::{
    fewer_tokens_make_slower_nets, further_places_make_slower_nets, holds_go_back,
    longer_holds_make_slower_nets, slower_nets_are_ordered, slower_nets_have_slower_places,
    tokens_go_back,
};
