//! Who audits: what is found of an answer, by its kind.
ghost use Rattle.std.specs.Prelude.{IfOk};

use crate::finding::Finding;
use crate::kinds::Kind;
use crate::question::Beside;
use std::alloc::Global;
use teg_net::{Net, OutOfMemory};
use teg_outside::Shelf;

/// An auditor: what it finds of an answer of each kind. A call of words is audited by any.
pub trait Auditor {
    ghost use Rattle.std.specs.Prelude.{ℕ, List, Option};
    ghost use Rattle.teg_net.specs.Nets.{NetLists};
    ghost use Rattle.teg_outside.specs.Shelves.{ShelfState};
    ghost use Rattle.audit_calls.specs.declared.finding.Finding.{Finding};
    ghost use Rattle.audit_calls.specs.declared.kinds.Kind.{Kind};
    ghost use Rattle.audit_calls.specs.declared.question.Beside.{Beside};

    // of an answer about the net, asked with this, of this kind and text, this is found by the files
    // that are read for it; nothing where one of them is not read
    ghost finds: { NetLists → Beside → Option Kind → List ℕ → ShelfState → ShelfState
        → Option Finding → Type 0 };

    /// What is found of an answer; none where a file that it was asked with is not read, or does not
    /// say what it should. It takes memory.
    fn find<S: Shelf>(
        alloc: Global,
        net: &Net,
        beside: &Beside,
        kind: Option<Kind>,
        text: &str,
        shelf: &mut S,
    ) -> Result<Option<Finding>, OutOfMemory>
        ensures { IfOk result (finds net.now beside.now kind text.now
            (S.state shelf.old) (S.state shelf.new)) };
}
