//! Dates as an instance of the traits: the complete max-plus dioid.
use crate::algebra::{Dioid, Kleene, Refused, Residuated};
use crate::dates::Date;
use std::alloc::Global;

impl Dioid for Date {
    ghost use Rattle.std.specs.Prelude.{false, pos, ⊤};
    ghost use Rattle.dioid.specs.declared.dates.Date.TheVariants.{Early, At};
    ghost use Rattle.dioid.specs.Dates.{later_of, date_product, DateProductFits};
    ghost use Rattle.dioid.specs.Proved.DateLaws.{dates_closed, date_laws};

    const TAKES_MEMORY: bool = false;

    ghost TAKES_MEMORY = { false };

    ghost is_element = { λ _. ⊤ };

    ghost zero = { Early };

    ghost one = { At (pos 0) };

    ghost sum = { later_of };

    ghost product = { date_product };

    ghost sum_fits = { λ _ _. ⊤ };

    ghost product_fits = { DateProductFits };

    ghost closed = { dates_closed };

    ghost laws = { date_laws };

    fn zero(_alloc: Global) -> Result<Date, Refused> {
        Ok(Date::Early)
    }

    fn one(_alloc: Global) -> Result<Date, Refused> {
        Ok(Date::At(0))
    }

    fn plus(&self, _alloc: Global, other: &Date) -> Result<Date, Refused> {
        Ok(self.later(*other))
    }

    fn times(&self, _alloc: Global, other: &Date) -> Result<Date, Refused> {
        self.add(*other).map_err(|_| Refused::Range)
    }

    fn duplicate(&self, _alloc: Global) -> Result<Date, Refused> {
        Ok(*self)
    }

    fn same(&self, other: &Date) -> bool {
        *self == *other
    }
}

impl Kleene for Date {
    ghost use Rattle.std.specs.Prelude.{⊤};
    ghost use Rattle.dioid.specs.Dates.{date_star};
    ghost use Rattle.dioid.specs.Proved.DateLaws.{date_star_laws};

    ghost star = { date_star };

    ghost star_fits = { λ _. ⊤ };

    ghost star_laws = { date_star_laws };

    fn star(&self, _alloc: Global) -> Result<Date, Refused> {
        match *self {
            Date::Early => Ok(Date::At(0)),
            Date::At(time) if time <= 0 => Ok(Date::At(0)),
            _ => Ok(Date::Never),
        }
    }
}

impl Residuated for Date {
    ghost use Rattle.std.specs.Prelude.{⊤};
    ghost use Rattle.dioid.specs.Dates.{date_left, DateLeftFits, earlier_of};
    ghost use Rattle.dioid.specs.Proved.DateLaws.{date_residual_laws};

    ghost left = { date_left };

    ghost meet = { earlier_of };

    ghost left_fits = { DateLeftFits };

    ghost meet_fits = { λ _ _. ⊤ };

    ghost residual_laws = { date_residual_laws };

    fn left(&self, _alloc: Global, other: &Date) -> Result<Date, Refused> {
        other.less(*self).map_err(|_| Refused::Range)
    }

    fn meet(&self, _alloc: Global, other: &Date) -> Result<Date, Refused> {
        Ok(self.earlier(*other))
    }
}
