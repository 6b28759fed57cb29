//! Rows of a net's least dating, one after another, of which the stream keeps the last.
ghost use Rattle.std.specs.Prelude.{◌≡◌, ◌+◌, ◌<◌, ◌≤◌, IfOk};
ghost use Rattle.teg_check.specs.Ranks.{IsRanking};
ghost use Rattle.teg_net.specs.Limits.{greatest_firing_number};
ghost use Rattle.date_rows.specs.Streams.{rows_given};
ghost use Rattle.teg_bound.specs.MadeRows.{AreMadeOf};

use date_rows::LeastRows;
use dioid::Date;
use std::alloc::Global;
use teg_check::Live;
use teg_net::{Net, OutOfMemory};

// A stream of rows, and room for the next.
#[derive(Drop)]
pub(crate) struct MadeRows {
    pub(crate) stream: LeastRows,
    row: Vec<Date>,
}

// Before the first row.
pub(crate) fn no_rows(alloc: Global, net: &Net, live: &Live) -> Result<MadeRows, OutOfMemory>
    requires { IsRanking net.now live.now }
    ensures made { IfOk result (AreMadeOf net.now) }
    ensures none { IfOk result (λ rows. rows_given rows.stream ≡ 0) }
{
    let stream = LeastRows::new(alloc, net, live)?;
    let row = vec![in alloc; Date::Early; net.transitions().len()]?;
    Ok(MadeRows { stream, row })
}

// Makes the next row.
pub(crate) fn make_row(net: &Net, rows: &mut MadeRows)
    requires made { AreMadeOf net.now rows.old }
    requires few { rows_given rows.old.stream < greatest_firing_number }
    ensures made { AreMadeOf net.now rows.new }
    ensures next { rows_given rows.new.stream ≡ rows_given rows.old.stream + 1 }
{
    rows.stream.write_next(net, rows.row.as_mut_slice());
}

// Makes rows until there were so many.
pub(crate) fn make_rows(net: &Net, rows: &mut MadeRows, count: u64)
    requires made { AreMadeOf net.now rows.old }
    requires more { rows_given rows.old.stream ≤ count }
    requires few { count ≤ greatest_firing_number }
    ensures made { AreMadeOf net.now rows.new }
    ensures count { rows_given rows.new.stream ≡ count }
{
    while rows.stream.number() < count {
        make_row(net, rows);
    }
}
