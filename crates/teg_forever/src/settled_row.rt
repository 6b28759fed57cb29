//! A row of due dates beside the settled form of the least dates with all inputs at 0.
ghost use Rattle.std.specs.Prelude.{◌≡◌, ◌≤◌, pos};
ghost use Rattle.dioid.specs.declared.dates.Date.TheVariants.{At};
ghost use Rattle.teg_net.specs.Limits.{greatest_firing_number};
ghost use Rattle.forever_laws.specs.teg_model.DateBounds.{greatest_least_date};
ghost use Rattle.forever_laws.specs.settled_laws.SettledForms.{settled_date};
ghost use Rattle.teg_forever.specs.LateFirings.{IsClimbing, IsGoingRow, IsRowAtZero, IsSettledRow, row_at_zero};

use dioid::Date;
use endless_due::EndlessRow;
use std::marker::Model;
use teg_net::TransitionId;
use teg_settle::SettledDates;

// So many firings on, the least dates of a transition have risen by so much.
#[derive(Clone, Copy)]
pub(crate) struct Cycle {
    pub firings: u64,
    pub rise: u128,
}

// The least date of a firing.
fn least_at(settled: &SettledDates, transition: TransitionId, number: u64) -> u128
    requires climbing { IsClimbing settled.now transition.index }
    requires first { 1 ≤ number }
    requires last { number ≤ greatest_firing_number }
    ensures least { settled_date settled.now transition.index number ≡ At (pos result) }
    ensures low { result ≤ greatest_least_date }
{
    settled.after();
    match settled.date(transition, number) {
        Date::At(date) => date as u128,
        _ => 0,
    }
}

// The form, and the row.
#[derive(Drop)]
pub(crate) struct SettledRow<'a> {
    settled: &'a SettledDates,
    row: &'a EndlessRow,
}

impl<'a> Model for SettledRow<'a> {
    ghost use Rattle.teg_forever.specs.LateFirings.{IsSettledRow, RowAtZero, row_at_zero};

    ghost Value = { RowAtZero };

    ghost view = { λ a. row_at_zero a.settled.now a.row.now };

    ghost invariant = { λ a. IsSettledRow a.settled.now a.row.now };
}

impl<'a> SettledRow<'a> {
    // This row beside this form.
    pub(crate) fn new(settled: &'a SettledDates, row: &'a EndlessRow) -> SettledRow<'a>
        requires { IsSettledRow settled.now row.now }
        ensures { result ≡ row_at_zero settled.now row.now }
    {
        SettledRow { settled, row }
    }

    // The form.
    pub(crate) fn settled(&self) -> &SettledDates
        ensures value { result.now ≡ self.now.settled }
        ensures told { IsRowAtZero self.now }
    {
        self.settled
    }

    // The row.
    pub(crate) fn row(&self) -> &EndlessRow
        ensures value { result.now ≡ self.now.row }
        ensures told { IsRowAtZero self.now }
        ensures goes_on { IsGoingRow result.now }
    {
        self.row
    }

    // The least date of a firing of the row's transition.
    pub(crate) fn least(&self, number: u64) -> u128
        requires first { 1 ≤ number }
        requires last { number ≤ greatest_firing_number }
        ensures least { settled_date self.now.settled self.now.row.transition.index number
            ≡ At (pos result) }
        ensures low { result ≤ greatest_least_date }
    {
        least_at(self.settled, self.row.transition, number)
    }
}
