//! Series as text.
ghost use Rattle.std.specs.Prelude.{◌≡◌, ◌∷◌, [], IfOk};
ghost use Rattle.teg_text.specs.Lines.{written};
ghost use Rattle.teg_calc.specs.Printing.{series_line};

use series_form::Series;
use std::alloc::Global;
use teg_net::OutOfMemory;
use teg_text::push_dates;

/// The line of a series: the word `series`, the values of its list, and its period and step, dates
/// in the user's unit. It ends with a line feed. `OutOfMemory` comes only where no memory is found.
/// It takes time of the order of the text.
pub fn print(alloc: Global, series: &Series) -> Result<Vec<u8>, OutOfMemory>
    ensures { IfOk result (λ text. text.items ≡ written (series_line series.now ∷ [])) }
{
    let mut text = String::from_str(alloc, "series")?;
    push_dates(&mut text, series.values())?;
    let period = series.period();
    let step = series.step();
    write!(text, " period {period} step {step}\n")?;
    Ok(text.into_bytes())
}
