//! What is left to do in a plant, as a net that is asked.
ghost use Rattle.std.specs.Prelude.{◌≡◌, ◌<◌, ◌≤◌, IfErr, IfOk, length};
ghost use Rattle.std.specs.List.{filter};
ghost use Rattle.date_rows.specs.DateTables.{HasLeastDates, most_numbers};
ghost use Rattle.dispatch.specs.Outlooks.{is_missed};
ghost use Rattle.due_laws.specs.MeetingDueDates.{AreLatestInputs};
ghost use Rattle.pace_calls.specs.Paces.{IsPaceWithCircuit};
ghost use Rattle.settled_laws.specs.SettledForms.{IsSettledFormOf};
ghost use Rattle.teg_check.specs.Ranks.{IsRanking};
ghost use Rattle.teg_due.specs.RowRules.{IsDueOf, due_in};
ghost use Rattle.teg_jit.specs.LateRefusals.{LateIsRight};
ghost use Rattle.teg_jit.specs.Plans.{dates_of_plan};
ghost use Rattle.teg_net.specs.Circuits.{IsLive};
ghost use Rattle.teg_sizing.specs.Sizings.{IsSizing};
ghost use Rattle.teg_sizing.specs.ValueRounds.{IsTarget};

use date_rows::{Table, first_dates};
use dispatch::is_after;
use pace_calls::{PaceWithCircuit, bottleneck};
use std::alloc::{AllocError, Global};
use std::marker::Model;
use teg_check::{Live, LiveNet};
use teg_due::{Due, DueRow};
use teg_jit::{JitRefusal, Plan, latest_inputs};
use teg_net::{Net, OutOfMemory, PlaceId, Ratio};
use teg_settle::{Settled, settle};
use teg_sizing::{Sizing, size};

/// The net of what is left to do. Contracts see the net; its firing numbers begin with 1 again.
#[derive(Drop)]
pub struct Outlook {
    rest: LiveNet,
}

impl Model for Outlook {
    ghost use Rattle.teg_net.specs.Nets.{NetLists};

    ghost Value = { NetLists };

    ghost view = { λ o. o.rest };
}

// Whether the table has the firing of the row, and at a date after it is due.
fn is_missed(table: &Table, row: DueRow) -> bool
    requires width { row.transition.index < table.now.width }
    requires number { 1 ≤ row.number }
    ensures { result ≡ is_missed table.now row }
{
    row.number <= table.count()
        && is_after(table.date(row.transition, u64::from(row.number)), row.date)
}

impl Outlook {
    // The outlook of this net.
    pub(crate) fn of(rest: LiveNet) -> Outlook
        ensures { result ≡ rest }
    {
        Outlook { rest }
    }

    /// The net, for its names and for rows of due dates that are read against it. It takes no
    /// memory.
    pub fn net(&self) -> &Net
        ensures net { result.now ≡ self.now }
        ensures live { IsLive self.now }
    {
        self.rest.net()
    }

    /// The ranks of the net, for calls on live nets that an outlook has not. It takes no memory.
    pub fn live(&self) -> &Live
        ensures { IsRanking self.now result.now }
    {
        self.rest.live()
    }

    /// The pace from now on, in the user's unit for a token, with its bottleneck; none where the net
    /// has no circuit (chapter 2). It is told as [`pace_calls::bottleneck`] tells it.
    pub fn bottleneck(&self, alloc: Global) -> Result<Option<PaceWithCircuit>, OutOfMemory>
        ensures { IfOk result (IsPaceWithCircuit self.now) }
    {
        bottleneck(alloc, self.rest.net(), self.rest.live())
    }

    /// The least dates of the first firings from now on (chapter 2), as [`date_rows::first_dates`]
    /// tells them.
    pub fn first_dates(&self, alloc: Global, count: u32) -> Result<Table, OutOfMemory>
        requires few { count ≤ most_numbers }
        ensures width { IfOk result (λ table. table.width ≡ length self.now.transitions) }
        ensures count { IfOk result (λ table. table.count ≡ count) }
        ensures least { IfOk result (λ table. HasLeastDates self.now table) }
    {
        first_dates(alloc, self.rest.net(), self.rest.live(), count)
    }

    /// The due rows, in their order, whose firing this table of [`Outlook::first_dates`] tells at a
    /// later date than it is due; a firing past its last number is not told (chapter 5). Table and
    /// rows count from now on, as those of [`crate::Plant::due_left`] do. `AllocError` comes only
    /// where no memory is found. It takes a step for each due row.
    pub fn missed(&self, alloc: Global, table: &Table, due: &Due) -> Result<Vec<DueRow>, AllocError>
        requires width { table.now.width ≡ length self.now.transitions }
        requires due { IsDueOf self.now due.now.rows.items }
        ensures { IfOk result (λ missed. missed.items
            ≡ filter (is_missed table.now) due.now.rows.items) }
    {
        due.rows
            .iter()
            .copied()
            .filter(|row| is_missed(table, *row))
            .collect(alloc)
    }

    /// The shortest settled form of the least dates from now on (chapter 3), as
    /// [`teg_settle::settle`] tells it.
    pub fn settle(&self, alloc: Global) -> Result<Settled, OutOfMemory>
        ensures { IfOk result (IsSettledFormOf self.now) }
    {
        settle(alloc, self.rest.net(), self.rest.live())
    }

    /// The latest inputs from now on that meet the due dates (chapter 5), as
    /// [`teg_jit::latest_inputs`] tells them. They are found whatever the input lists say: a plan
    /// whose first date of an input is before now cannot be kept.
    pub fn latest_inputs(&self, alloc: Global, due: &Due) -> Result<Plan, JitRefusal>
        requires { IsDueOf self.now due.now.rows.items }
        ensures inputs { IfOk result (λ plan. AreLatestInputs self.now (due_in due.now.rows.items)
            (dates_of_plan plan)) }
        ensures late { IfErr result (LateIsRight self.now due.now.rows.items) }
    {
        latest_inputs(alloc, self.rest.net(), self.rest.live(), due)
    }

    /// The fewest further tokens of a place for a pace (chapters 2 and 3), as
    /// [`teg_sizing::size`] tells them, beside those that are left in it.
    pub fn size(&self, alloc: Global, place: PlaceId, target: &Ratio) -> Result<Sizing, OutOfMemory>
        requires place { place.index < length self.now.places }
        requires target { IsTarget target.now }
        ensures { IfOk result (IsSizing self.now target.now place) }
    {
        size(alloc, self.rest.net(), self.rest.live(), place, target)
    }
}
