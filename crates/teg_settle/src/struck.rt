//! Periods that are struck off at once: those in which the last dates of one transition do not go
//! on.
ghost use Rattle.std.specs.Prelude.{◌≡◌, ◌+◌, ◌-◌, ◌*◌, ◌<◌, ◌≤◌, length, OnOk};
ghost use Rattle.teg_settle.specs.ComparedRows.{AreRowsOf, IsReady};
ghost use Rattle.teg_settle.specs.Struck.{AreStruck};

use crate::asked::Asked;
use crate::prefixes::common_lengths;
use crate::witness::Witness;
use date_rows::Rows;
use std::alloc::{AllocError, Global};
use teg_net::TransitionId;

// Strikes off each period in which the dates of the transition do not move alike in as many of the
// last rows as a form of this period has to show.
fn strike(
    alloc: Global,
    asked: &Asked<'_>,
    rows: &Rows,
    transition: TransitionId,
    struck: &mut [bool],
) -> Result<(), AllocError>
    requires ready { IsReady asked.now.net.now asked.now.releases.now asked.now.most }
    requires rows { AreRowsOf asked.now.net.now asked.now.releases.now rows.now }
    requires some { 2 ≤ length struck.old }
    requires fits { asked.now.most + 2 * (length struck.old - 1) ≤ rows.now.count }
    requires struck { AreStruck asked.now.net.now asked.now.releases.now asked.now.most
        rows.now.count struck.old }
    ensures length { length struck.new ≡ length struck.old }
    ensures struck { OnOk result (AreStruck asked.now.net.now asked.now.releases.now asked.now.most
        rows.now.count struck.new) }
{
    if transition.index as usize >= asked.net.transitions().len() {
        return Ok(());
    }
    let lengths = common_lengths(alloc, rows, transition, struck.len() as u64)?;
    for period in 1..struck.len() {
        if lengths[period] + 1 >= asked.most + period as u64 {
            continue;
        }
        struck[period] = true;
    }
    Ok(())
}

// The same by the transition of the firing that refuted a period, if a firing did.
pub(crate) fn strike_by(
    alloc: Global,
    asked: &Asked<'_>,
    rows: &Rows,
    witness: Option<Witness>,
    struck: &mut [bool],
) -> Result<(), AllocError>
    requires ready { IsReady asked.now.net.now asked.now.releases.now asked.now.most }
    requires rows { AreRowsOf asked.now.net.now asked.now.releases.now rows.now }
    requires some { 2 ≤ length struck.old }
    requires fits { asked.now.most + 2 * (length struck.old - 1) ≤ rows.now.count }
    requires struck { AreStruck asked.now.net.now asked.now.releases.now asked.now.most
        rows.now.count struck.old }
    ensures length { length struck.new ≡ length struck.old }
    ensures struck { OnOk result (AreStruck asked.now.net.now asked.now.releases.now asked.now.most
        rows.now.count struck.new) }
{
    match witness {
        Some(Witness::Firing(transition, _)) => strike(alloc, asked, rows, transition, struck),
        _ => Ok(()),
    }
}
