//! Rows of settled forms as series.
ghost use Rattle.std.specs.Prelude.{◌<◌, length};
ghost use Rattle.series_form.specs.SeriesAnswers.{AnswersOf};
ghost use Rattle.series_ops.specs.series_laws.SeriesForms.{HasValues};
ghost use Rattle.teg_settle.specs.walk_times.Transfers.{IsTransferOf};
ghost use Rattle.teg_settle.specs.settled_laws.SettledForms.{IsSettledFormOf, settled_length};
ghost use Rattle.net_matrices.specs.SettledSeries.{NeverFallsAnywhere, dates_from};

use series_form::{Series, SeriesRefused};
use std::alloc::Global;
use teg_net::{Net, TransitionId};
use teg_settle::Settled;

// The dates of a transition that a form tells, which never fall, as a series.
fn series_of_row(
    alloc: Global,
    form: &Settled,
    transition: TransitionId,
) -> Result<Series, SeriesRefused>
    requires transition { transition.index < length form.now.rows }
    requires rising { NeverFallsAnywhere form.now }
    ensures { AnswersOf (λ r. HasValues r (dates_from form.now transition.index))
        (settled_length form.now) (settled_length form.now) result }
{
    let period = form.period() as usize;
    let row = form.row(transition);
    Series::from_list(alloc, row, period, form.step(transition))
}

/// The least dates of a transition of a net, by its settled form, as a series (chapters 3 and 5):
/// the value at shift k is the date of firing k + 1, at every shift. So dates of a net can be
/// added, multiplied and divided as series are.
///
/// `TooLong` exactly where the form has more than 20,000 dates of a transition, with their number;
/// else `TooGreat` exactly where the canonical form of the series has a number of a magnitude above
/// 10^18; `OutOfMemory` comes only where no memory is found. It takes the time of
/// `Series::from_list`.
pub fn series_of_dates(
    alloc: Global,
    _net: &Net,
    form: &Settled,
    transition: TransitionId,
) -> Result<Series, SeriesRefused>
    requires form { IsSettledFormOf _net.now form.now }
    requires transition { transition.index < length _net.now.transitions }
    ensures { AnswersOf (λ r. HasValues r (dates_from form.now transition.index))
        (settled_length form.now) (settled_length form.now) result }
{
    series_of_row(alloc, form, transition)
}

/// The transfer of an input to a transition, by the settled form that `transfer` of `teg_settle`
/// answers, as a series (chapters 3 and 5): the value at shift k is the greatest time of a walk
/// from the first firing of the input to firing k + 1 of the transition. Its refusals are those of
/// [`series_of_dates`], and its time too.
pub fn series_of_transfer(
    alloc: Global,
    _net: &Net,
    _input: TransitionId,
    form: &Settled,
    transition: TransitionId,
) -> Result<Series, SeriesRefused>
    requires form { IsTransferOf _net.now _input.index form.now }
    requires transition { transition.index < length _net.now.transitions }
    ensures { AnswersOf (λ r. HasValues r (dates_from form.now transition.index))
        (settled_length form.now) (settled_length form.now) result }
{
    series_of_row(alloc, form, transition)
}
