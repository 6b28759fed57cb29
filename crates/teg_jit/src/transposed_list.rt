//! Latest dates that stand transition by transition, as they are read, where the passes have them
//! number by number.
ghost use Rattle.std.specs.Prelude.{◌≡◌, ◌+◌, ◌*◌, ◌<◌, length, slice_index_or, IfOk};
ghost use Rattle.teg_jit.specs.declared.answers.LatestDate.TheVariants.{Free};
ghost use Rattle.teg_jit.specs.Transposed.{AreTransposedTo, HasShape};

use crate::answers::LatestDate;
use crate::latest_list::LatestList;
use std::alloc::{AllocError, Global};
use std::marker::Model;

// Puts the dates of a number, counted from 0, where they stand transition by transition.
fn transpose_number(
    width: usize,
    numbers: usize,
    dates: &LatestList,
    columns: &mut LatestList,
    number: usize,
)
    requires shape { HasShape width numbers dates.now }
    requires number { number < numbers }
    requires columns { AreTransposedTo width numbers dates.now columns.old (number * width) }
    ensures { AreTransposedTo width numbers dates.now columns.new ((number + 1) * width) }
{
    for transition in 0..width {
        columns.copy(
            transition * numbers + number,
            dates,
            number * width + transition,
        );
    }
}

// Latest dates that are read transition by transition. Contracts see the list of them number by
// number.
#[derive(Debug, Drop)]
pub(crate) struct TransposedList {
    width: usize,
    numbers: usize,
    columns: LatestList,
}

impl Model for TransposedList {
    ghost use Rattle.std.specs.Prelude.{List};
    ghost use Rattle.teg_jit.specs.declared.answers.LatestDate.{LatestDate};
    ghost use Rattle.teg_jit.specs.Transposed.{listed_back, HasShape};

    ghost Value = { List LatestDate };

    ghost view = { λ a. listed_back a.width a.numbers a.columns };

    ghost invariant = { λ a. HasShape a.width a.numbers a.columns };
}

impl TransposedList {
    // The same dates.
    pub(crate) fn new(
        alloc: Global,
        width: usize,
        numbers: usize,
        dates: &LatestList,
    ) -> Result<TransposedList, AllocError>
        requires { HasShape width numbers dates.now }
        ensures { IfOk result (λ list. list ≡ dates.now) }
    {
        let mut columns = LatestList::new(alloc, numbers * width)?;
        for number in 0..numbers {
            transpose_number(width, numbers, dates, &mut columns, number);
        }
        Ok(TransposedList {
            width,
            numbers,
            columns,
        })
    }

    // The date at this index. It takes no memory.
    pub(crate) fn get(&self, index: usize) -> LatestDate
        requires { index < length self.now }
        ensures { result ≡ slice_index_or self.now index Free }
    {
        let place = index % self.width * self.numbers + index / self.width;
        self.columns.get(place)
    }
}
