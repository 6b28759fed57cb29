//! Series as a dioid with stars and residuals.
use crate::products::product;
use crate::residuals::left;
use crate::stars::star;
use dioid::{Date, Dioid, Kleene, Refused, Residuated};
use series_form::{Series, SeriesRefused, least, sum};
use std::alloc::Global;

/// A series as an element of a dioid with stars and residuals (chapter 5).
///
/// In the unbounded model it is a canonical form with a list of any length and numbers of any size.
/// Zero is Early everywhere, one is 0 everywhere. Operands fit exactly where the operation on
/// series answers neither TooLong nor TooGreat.
#[derive(Drop)]
pub struct Gain {
    /// The series.
    pub series: Series,
}

ghost use Rattle.series_ops.specs.ElementRefusals.{IsElementRefusal};

// TooLong and TooGreat become Range, want of memory stays itself.
fn refused(why: SeriesRefused) -> Refused
    ensures { IsElementRefusal why result }
{
    match why {
        SeriesRefused::OutOfMemory => Refused::OutOfMemory,
        _ => Refused::Range,
    }
}

impl Dioid for Gain {
    ghost use Rattle.std.specs.Prelude.{true};
    ghost use Rattle.series_ops.specs.Gains.{IsCanonicalGain, gain_zero, gain_one, gain_sum, gain_product, GainSumFits, ProductFits};
    ghost use Rattle.series_ops.specs.Proved.GainLaws.{gains_closed, gain_laws};

    const TAKES_MEMORY: bool = true;

    ghost TAKES_MEMORY = { true };

    ghost is_element = { IsCanonicalGain };

    ghost zero = { gain_zero };

    ghost one = { gain_one };

    ghost sum = { gain_sum };

    ghost product = { gain_product };

    ghost sum_fits = { GainSumFits };

    ghost product_fits = { ProductFits };

    ghost closed = { gains_closed };

    ghost laws = { gain_laws };

    fn zero(alloc: Global) -> Result<Gain, Refused> {
        match Series::constant(alloc, Date::Early) {
            Ok(series) => Ok(Gain { series }),
            Err(_) => Err(Refused::OutOfMemory),
        }
    }

    fn one(alloc: Global) -> Result<Gain, Refused> {
        match Series::constant(alloc, Date::At(0)) {
            Ok(series) => Ok(Gain { series }),
            Err(_) => Err(Refused::OutOfMemory),
        }
    }

    fn plus(&self, alloc: Global, other: &Gain) -> Result<Gain, Refused> {
        match sum(alloc, &self.series, &other.series) {
            Ok(series) => Ok(Gain { series }),
            Err(why) => Err(refused(why)),
        }
    }

    fn times(&self, alloc: Global, other: &Gain) -> Result<Gain, Refused> {
        match product(alloc, &self.series, &other.series) {
            Ok(series) => Ok(Gain { series }),
            Err(why) => Err(refused(why)),
        }
    }

    fn duplicate(&self, alloc: Global) -> Result<Gain, Refused> {
        match self.series.duplicate(alloc) {
            Ok(series) => Ok(Gain { series }),
            Err(_) => Err(Refused::OutOfMemory),
        }
    }

    fn same(&self, other: &Gain) -> bool {
        self.series.equals(&other.series)
    }
}

impl Kleene for Gain {
    ghost use Rattle.series_ops.specs.Gains.{gain_star, StarFits};
    ghost use Rattle.series_ops.specs.Proved.GainLaws.{gain_star_laws};

    ghost star = { gain_star };

    ghost star_fits = { StarFits };

    ghost star_laws = { gain_star_laws };

    fn star(&self, alloc: Global) -> Result<Gain, Refused> {
        match star(alloc, &self.series) {
            Ok(series) => Ok(Gain { series }),
            Err(why) => Err(refused(why)),
        }
    }
}

impl Residuated for Gain {
    ghost use Rattle.series_ops.specs.Gains.{gain_left, gain_meet, LeftFits, MeetFits};
    ghost use Rattle.series_ops.specs.Proved.GainLaws.{gain_residual_laws};

    ghost left = { gain_left };

    ghost meet = { gain_meet };

    ghost left_fits = { LeftFits };

    ghost meet_fits = { MeetFits };

    ghost residual_laws = { gain_residual_laws };

    fn left(&self, alloc: Global, other: &Gain) -> Result<Gain, Refused> {
        match left(alloc, &self.series, &other.series) {
            Ok(series) => Ok(Gain { series }),
            Err(why) => Err(refused(why)),
        }
    }

    fn meet(&self, alloc: Global, other: &Gain) -> Result<Gain, Refused> {
        match least(alloc, &self.series, &other.series) {
            Ok(series) => Ok(Gain { series }),
            Err(why) => Err(refused(why)),
        }
    }
}
