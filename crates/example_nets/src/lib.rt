//! What the crates of examples share: nets as files, nets that are held and what is asked of them,
//! the parts of a net that a program makes, the words, files and sinks of whole calls, tables of rows
//! that are so, and whether a refusal has a line. It stands on `teg_net` for nets, on `teg_reader` and
//! `teg_due` for files, on `teg_check` for live nets, and on `teg_outside` for shelves and sinks.
#![tactic(auto)]

mod asked;
mod lines;
mod made;
mod nets;
mod outside;
mod rows;

pub use asked::{
    ask_changed, ask_held, ask_net, due_rows, held, place_named, read, tells, tells_all,
    transition_named,
};
pub use lines::says;
pub use made::{place, transition, transitions};
pub use nets::{KANBAN, LOOP, SHOP};
pub use outside::{shelf_of, sink_of, words_of};
pub use rows::all_so;
