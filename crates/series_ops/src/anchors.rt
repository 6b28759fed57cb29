//! The anchor of a star: the part of the greatest ratio, and from where a star repeats by it.
ghost use Rattle.std.specs.Prelude.{◌≡◌, ◌≤◌, ◌<◌, ◌+◌, ◌-◌, int_lt, length};
ghost use Rattle.std.specs.Int.RustNames.{unsigned_abs};
ghost use Rattle.dioid.specs.declared.dates.Date.TheVariants.{At, Never};
ghost use Rattle.series_laws.specs.Periodic.{times};
ghost use Rattle.series_laws.specs.SeriesForms.{form_with, repeat_start};
ghost use Rattle.series_laws.specs.Needs.{greatest_int};
ghost use Rattle.series_laws.specs.ProductNeeds.{beats, anchor_of, loss_of_part, natural_of, own_plan};
ghost use Rattle.series_form.specs.SeriesLimits.{greatest_part_value, greatest_part_product, greatest_part_loss, greatest_star_need};
ghost use Rattle.series_ops.specs.ListFunctions.{AreUpTo, AreUpTo-prop, IsModest};

use dioid::Date;
use series_form::NeedPlan;
use series_laws::Anchor;

// A number many times over.
pub(crate) fn many(count: usize, number: i128) -> i128
    requires count { count ≤ 20000 }
    requires number { unsigned_abs number ≤ greatest_part_value }
    ensures value { result ≡ times count number }
    ensures bound { unsigned_abs result ≤ greatest_part_product }
{
    count as i128 * number
}

// Whether a part has the greater ratio than the anchor. The first may have an equal one.
fn is_better(anchor: Anchor, shift: usize, value: i128) -> bool
    requires anchor { IsModest anchor }
    requires shift { shift ≤ 20000 }
    requires value { unsigned_abs value ≤ greatest_part_value }
    ensures { result ≡ beats anchor shift value }
{
    let theirs = many(shift, anchor.value);
    let own = many(anchor.shift, value);
    if anchor.found {
        is_less(theirs, own)
    } else {
        !is_less(own, theirs)
    }
}

// Whether the first number is less.
fn is_less(first: i128, second: i128) -> bool
    ensures { result ≡ int_lt first second }
{
    first < second
}

// The parts of a star: a list of which the last `period` values go on by `step`, in moderate
// numbers.
#[derive(Drop)]
pub(crate) struct Parts<'a> {
    pub(crate) values: &'a [Date],
    pub(crate) period: usize,
    pub(crate) step: i128,
    ghost positive: { 0 < period },
    ghost short: { length values.now ≤ 20000 },
    ghost fits: { period ≤ length values.now },
    ghost small_step: { unsigned_abs step ≤ greatest_part_value },
    ghost up: { AreUpTo greatest_part_value values.now } by { AreUpTo-prop greatest_part_value values.now },
}

impl<'a> Parts<'a> {
    // The anchor among the shifts of the list from 1 on.
    fn anchor(&self) -> Anchor
        ensures value { result ≡ anchor_of (form_with self.now.values.now self.now.period self.now.step) }
        ensures modest { IsModest result }
    {
        let mut anchor = Anchor {
            found: false,
            shift: self.period,
            value: self.step,
        };
        for place in 0..self.values.len() - 1 {
            let shift = place + 1;
            if let Date::At(value) = self.values[shift] {
                if is_better(anchor, shift, value) {
                    anchor = Anchor {
                        found: true,
                        shift,
                        value,
                    };
                }
            }
        }
        anchor
    }

    // What a part of the list loses against steps.
    fn loss(&self, place: usize) -> i128
        requires place { place < length self.now.values.now }
        ensures value { result ≡ loss_of_part (form_with self.now.values.now self.now.period self.now.step) place }
        ensures bound { unsigned_abs result ≤ greatest_part_loss }
    {
        match self.values[place] {
            Date::At(value) => many(place, self.step) - many(self.period, value),
            _ => 0,
        }
    }

    // The greatest loss of one part that stands in the tail.
    fn greatest_loss(&self) -> i128
        ensures value { result ≡ greatest_int (λ i. loss_of_part (form_with self.now.values.now self.now.period self.now.step) (repeat_start (form_with self.now.values.now self.now.period self.now.step)
            + i)) (self.now.period - 1) }
        ensures bound { unsigned_abs result ≤ greatest_part_loss }
    {
        let start = self.values.len() - self.period;
        let mut worst = self.loss(start);
        for place in 0..self.period - 1 {
            worst = worst.max(self.loss(start + (place + 1)));
        }
        worst
    }

    // From where the star of the form repeats, the form at least 0 from shift 1 on. Where the tail
    // is a number: by the anchor if there is one, else past the greatest loss by the period.
    pub(crate) fn plan(&self) -> NeedPlan
        ensures value { result ≡ own_plan (form_with self.now.values.now self.now.period self.now.step) }
        ensures bound { result.from ≤ greatest_star_need }
    {
        let size = self.values.len();
        match self.values[size - self.period] {
            Date::Early => NeedPlan { from: 0, turn: 1 },
            Date::At(_) => {
                let anchor = self.anchor();
                if anchor.found {
                    return NeedPlan {
                        from: (anchor.shift * size + 1) as u128,
                        turn: anchor.shift,
                    };
                }
                let worst = at_least_zero(self.greatest_loss());
                let more = self.period as u128 + 1;
                let turns = if more < worst { worst } else { more };
                NeedPlan {
                    from: size as u128 * turns + 1,
                    turn: self.period,
                }
            }
            Date::Never => NeedPlan {
                from: size as u128,
                turn: 1,
            },
        }
    }
}

// A number, 0 where it is below.
fn at_least_zero(number: i128) -> u128
    requires { unsigned_abs number ≤ greatest_part_loss }
    ensures value { result ≡ natural_of number }
    ensures bound { result ≤ greatest_part_loss }
{
    if number < 0 { 0 } else { number as u128 }
}
