//! One number after another: the dates of a number begin as those of the number before, and one
//! pass over the places in the order of their turns makes them the least. It stands on what is kept
//! of the rows before, however that is kept, and on cells that hold the dates.
ghost use Rattle.std.specs.Prelude.{◌≡◌, ◌<◌, [], length, map, slice_index_or};
ghost use Rattle.dioid.specs.declared.dates.Date.TheVariants.{Early};
ghost use Rattle.dioid.specs.Dates.{later_of};
ghost use Rattle.teg_net.specs.Circuits.{place_at};
ghost use Rattle.teg_model.specs.Systems.{available_in};
ghost use Rattle.teg_model.specs.Datings.{implicit_place};
ghost use Rattle.date_rows.specs.PlaceOrder.{IsOrderedPlaceOf};
ghost use Rattle.date_rows.specs.Sources.{system_by};
ghost use Rattle.date_rows.specs.KeptRows.{HasLeastDating};
ghost use Rattle.date_rows.specs.Passes.{seen_at, HasBegun, IsSourceWithin, IsRowOfLeast};
ghost use Rattle.date_rows.specs.RowPasses.{CanMakeRow, pass_over};

use crate::date_cell::{DateCell, later_date};
use crate::order::OrderedPlace;
use crate::past::Past;
use crate::sources::Source;
use std::marker::{Model, PhantomData};
use teg_net::{Net, TransitionId};

// A pass over the places of a net for the row of one number: the net, its places in the order of
// their turns, where the dates come from that no earlier firing gives, the rows before, and the
// number. Its cells can hold the dates up to the number.
#[derive(Drop)]
pub(crate) struct RowPass<'a, C: DateCell, P: Past<C>, S: Source> {
    net: &'a Net,
    order: &'a [OrderedPlace],
    source: &'a S,
    past: &'a P,
    number: u64,
    cell: PhantomData<C>,
}

impl<'a, C: DateCell, P: Past<C>, S: Source> Model for RowPass<'a, C, P, S> {
    ghost use Rattle.date_rows.specs.Sources.{system_by};
    ghost use Rattle.date_rows.specs.RowPasses.{CanMakeRow, PassOver, pass_over};

    ghost Value = { PassOver P S };

    ghost view = { λ a. pass_over a.net.now a.order.now a.source.now a.past.now a.number };

    ghost invariant = { λ a. CanMakeRow a.net.now a.order.now
        (system_by S.Source a.source.now a.net.now) C.most C.early (P.rows a.past.now) a.number };
}

impl<'a, C: DateCell, P: Past<C>, S: Source> RowPass<'a, C, P, S> {
    // The pass for the row of this number.
    pub(crate) fn new(
        net: &'a Net,
        order: &'a [OrderedPlace],
        source: &'a S,
        past: &'a P,
        number: u64,
    ) -> RowPass<'a, C, P, S>
        requires { CanMakeRow net.now order.now (system_by S.Source source.now net.now) C.most
            C.early (P.rows past.now) number }
        ensures { result ≡ pass_over net.now order.now source.now past.now number }
    {
        RowPass {
            net,
            order,
            source,
            past,
            number,
            cell: PhantomData,
        }
    }

    // The date of the place's downstream transition, but not before the place has its token for the
    // firing of this number.
    fn raised(&self, place: OrderedPlace, row: &[C]) -> C
        requires place { IsOrderedPlaceOf self.now.net place }
        requires full { length row.now ≡ length self.now.net.transitions }
        requires within { IsSourceWithin C.most (P.rows self.now.past).back (map C.held row.now)
            self.now.number (place_at self.now.net place.place) }
        ensures { C.held result
            ≡ later_of (slice_index_or (map C.held row.now) place.to.index Early)
            (available_in (S.initial self.now.source)
            (seen_at (P.rows self.now.past).back (map C.held row.now) self.now.number)
            (place_at self.now.net place.place) self.now.number) }
    {
        let number = self.number;
        let date = row[place.to.index as usize];
        let tokens = place.tokens as u64;
        if tokens == 0 {
            date.later(row[place.from.index as usize].delayed(place.hold as u64))
        } else if tokens < number {
            date.later(
                self.past
                    .back(place.from, tokens)
                    .delayed(place.hold as u64),
            )
        } else {
            later_date(
                date,
                self.source.initial(self.net, place.place, number as u32),
            )
        }
    }

    // The date of the firing before this one, and for the first that of the implicit place's token.
    fn date_before(&self, transition: TransitionId) -> C
        requires { transition.index < length self.now.net.transitions }
        ensures { C.held result ≡ available_in (S.initial self.now.source)
            (seen_at (P.rows self.now.past).back [] self.now.number)
            (implicit_place transition.index) self.now.number }
    {
        if self.number == 1 {
            C::of(self.source.first(self.net, transition))
        } else {
            self.past.back(transition, 1)
        }
    }

    // Writes the dates of the number as far as the firings before it and the releases have them.
    fn begin(&self, row: &mut [C])
        requires { length row.old ≡ length self.now.net.transitions }
        ensures { HasBegun self.now.net (system_by S.Source self.now.source self.now.net)
            (P.rows self.now.past).back self.now.number (map C.held row.new) }
    {
        let width = self.net.transitions().len();
        for index in 0..width {
            let id = TransitionId {
                index: index as u32,
            };
            let before = self.date_before(id);
            row[index] = later_date(before, self.source.release(self.net, id, self.number));
        }
    }

    // Raises the dates of the number to the least, by one pass over the places in the order of
    // their turns.
    fn raise(&self, row: &mut [C])
        requires { HasBegun self.now.net (system_by S.Source self.now.source self.now.net)
            (P.rows self.now.past).back self.now.number (map C.held row.old) }
        ensures least { IsRowOfLeast self.now.net
            (system_by S.Source self.now.source self.now.net) self.now.number
            (map C.held row.new) }
        ensures exists { HasLeastDating (system_by S.Source self.now.source self.now.net) }
    {
        for place in self.order {
            row[place.to.index as usize] = self.raised(*place, row);
        }
    }

    // Writes the row of the number: the dates of its firings by the least dating of the system that
    // the source makes of the net (chapter 2). It takes no memory, and time of order `n + p` for n
    // transitions and p places, and what the source takes.
    pub(crate) fn fill(&self, row: &mut [C])
        requires { length row.old ≡ length self.now.net.transitions }
        ensures full { length row.new ≡ length self.now.net.transitions }
        ensures least { IsRowOfLeast self.now.net
            (system_by S.Source self.now.source self.now.net) self.now.number
            (map C.held row.new) }
        ensures exists { HasLeastDating (system_by S.Source self.now.source self.now.net) }
    {
        self.begin(row);
        self.raise(row);
    }
}
