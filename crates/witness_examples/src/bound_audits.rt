//! Whole audits of texts of bounds, over a shelf and a sink in memory.
use answer_audit::{AuditStatus, audit};
use example_nets::{KANBAN, SHOP, shelf_of, sink_of, words_of};
use std::alloc::Global;
use std::test::Fail;

// The files of the shelf, by name.
const FILES: [(&str, &[u8]); 6] = [
    ("kanban", KANBAN),
    ("shop", SHOP),
    ("bound", b"bound 437\nsettled after 4 period 1\n"),
    ("other bound", b"bound 438\nsettled after 4 period 1\n"),
    ("inputs", b"no bound: has inputs\n"),
    ("apart", b"no bound: not strongly connected\n"),
];

// The words of a call, how it ends, and what it writes.
const CALLS: [(&[&str], AuditStatus, &str); 6] = [
    (
        &["kanban", "bound"],
        AuditStatus::Shown,
        "shown bound 437\nshown settled after 4 period 1\n",
    ),
    (
        &["kanban", "other bound"],
        AuditStatus::NotShown,
        "not shown bound 438\nnot shown settled after 4 period 1\n",
    ),
    (
        &["shop", "inputs"],
        AuditStatus::Shown,
        "shown no bound: has inputs\n",
    ),
    (
        &["shop", "apart"],
        AuditStatus::Refuted,
        "refuted no bound: not strongly connected\n",
    ),
    (
        &["shop", "bound"],
        AuditStatus::Refuted,
        "refuted bound 437\nrefuted settled after 4 period 1\n",
    ),
    (
        &["kanban", "bound", "shop"],
        AuditStatus::NoChecker,
        "no checker bound 437\n",
    ),
];

// Whether the call with these words ends and writes so.
fn is_so(alloc: Global, words: &[&str], status: AuditStatus, text: &str) -> Result<bool, Fail> {
    let words = words_of(alloc, words)?;
    let mut shelf = shelf_of(alloc, &FILES, &[])?;
    let mut out = sink_of(alloc, 7, 4096, &[])?;
    let ended = audit(alloc, &words, &mut shelf, &mut out);
    Ok(ended == status && out.contents() == text.as_bytes())
}

#[test]
fn bounds_are_audited(rt: HostRuntime) -> Result<(), Fail> {
    for call in &CALLS {
        let (words, status, text) = *call;
        assert!(rt; is_so(rt.alloc(), words, status, text)?, "{text}");
    }
    Ok(())
}
