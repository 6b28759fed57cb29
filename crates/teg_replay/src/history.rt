//! The run so far, with the dates of each transition beside it.
ghost use Rattle.std.specs.Prelude.{◌≡◌, ◌<◌, ◌+◌, ◌++◌, ◌∷◌, [], IfOk, is_ok, if◌then◌else◌, length};
ghost use Rattle.teg_replay.specs.Games.{Past, AreDateColumns};
ghost use Rattle.run_laws.specs.Runs.{dates_of_transition, last_date};

use crate::column::{Column, empty_columns};
use run_laws::Fired;
use std::alloc::{AllocError, Global};
use std::marker::Model;
use teg_net::TransitionId;

// A run over a number of transitions. Contracts see that number and the run.
#[derive(Debug, Drop)]
pub(crate) struct History {
    run: Vec<Fired>,
    columns: Vec<Column>,
}

impl Model for History {
    ghost use Rattle.std.specs.Prelude.{length};
    ghost use Rattle.teg_replay.specs.Games.{Past, AreDateColumns};

    ghost Value = { Past };

    ghost view = { λ h. record { width = length h.columns.items; run = h.run.items } };

    ghost invariant = { λ h. AreDateColumns h.run.items h.columns.items };
}

impl History {
    // No firing yet.
    pub(crate) fn new(alloc: Global, width: usize) -> Result<History, AllocError>
        ensures { IfOk result (λ history. history ≡ record { width = width; run = [] }) }
    {
        let columns = empty_columns(alloc, width)?;
        Ok(History {
            run: Vec::new(alloc),
            columns,
        })
    }

    // The run.
    pub(crate) fn run(&self) -> &[Fired]
        ensures { result.now ≡ self.now.run }
    {
        &self.run
    }

    // The dates of the firings of the transition, in order.
    pub(crate) fn dates_of(&self, transition: TransitionId) -> &[u64]
        requires { transition.index < self.now.width }
        ensures { result.now ≡ dates_of_transition self.now.run transition.index }
    {
        self.columns[transition.index as usize].as_slice()
    }

    // The date of the last firing.
    pub(crate) fn last_date(&self) -> Option<u64>
        ensures { result ≡ last_date self.now.run }
    {
        let last = self.run.last()?;
        Some(last.date)
    }

    // Appends a firing. It makes all its growths first, so that it changes nothing where one is
    // refused.
    pub(crate) fn push(&mut self, fired: Fired) -> Result<(), AllocError>
        requires { fired.transition.index < self.old.width }
        ensures { self.new ≡ (if is_ok result then record self.old
            { run = self.old.run ++ fired ∷ [] } else self.old) }
    {
        self.run.reserve(1)?;
        self.columns[fired.transition.index as usize].push(fired.date)?;
        self.run.push_reserved(fired);
        Ok(())
    }
}
