//! The texts of the series calculator.
ghost use Rattle.std.specs.Prelude.{◌≡◌, ◌≢◌, ◌<◌, ◌^◌, [], ◌∷◌, IfOk};
ghost use Rattle.std.specs.Int.RustNames.{unsigned_abs};
ghost use Rattle.series_form.specs.declared.forms.SeriesRefused.TheVariants.{OutOfMemory as NoRoom, TooGreat, TooLong};
ghost use Rattle.teg_calc.specs.declared.refusals.ParseRefused.TheVariants.{OutOfMemory as NoText, Syntax, TooDeep};
ghost use Rattle.teg_calc.specs.Printing.{series_line};
ghost use Rattle.teg_report.specs.Series.{IsParseKept, IsSeriesKept, IsSeriesRefusalKept, parse_line, series_refused_line};
ghost use Rattle.teg_lines.specs.Widths.{IsWord32};
ghost use Rattle.teg_text.specs.Lines.{written};

use series_form::{Series, SeriesRefused};
use std::alloc::Global;
use teg_calc::{ParseRefused, print};
use teg_net::OutOfMemory;

// A series.
pub(crate) fn calc(alloc: Global, series: &Series) -> Result<Vec<u8>, OutOfMemory>
    ensures text { IfOk result (λ text. text.items ≡ written (series_line series.now ∷ [])) }
    ensures kept { IfOk result (λ _. IsSeriesKept series.now) }
{
    // The rules of the series, by which its numbers have the bits of their types.
    let _values = series.values();
    let text = print(alloc, series)?;
    Ok(text)
}

// That the text is no expression from here on.
fn syntax(alloc: Global, at: u32) -> Result<Vec<u8>, OutOfMemory>
    ensures text { IfOk result (λ text. text.items ≡ written (parse_line (Syntax at) ∷ [])) }
    ensures kept { IsWord32 at }
{
    let text = format!(in alloc; "refused: syntax at {at}\n")?;
    Ok(text.into_bytes())
}

// That the text opens a bracket too deep here.
fn too_deep(alloc: Global, at: u32) -> Result<Vec<u8>, OutOfMemory>
    ensures text { IfOk result (λ text. text.items ≡ written (parse_line (TooDeep at) ∷ [])) }
    ensures kept { IsWord32 at }
{
    let text = format!(in alloc; "refused: too deep at {at}\n")?;
    Ok(text.into_bytes())
}

// That a series needs so long a list.
fn too_long(alloc: Global, need: u128) -> Result<Vec<u8>, OutOfMemory>
    ensures text { IfOk result (λ text. text.items ≡ written
        (series_refused_line (TooLong need) ∷ [])) }
    ensures kept { need < 2 ^ 128 }
{
    let text = format!(in alloc; "refused: series needs {need}\n")?;
    Ok(text.into_bytes())
}

// That a series has so great a number.
fn too_great(alloc: Global, value: i128) -> Result<Vec<u8>, OutOfMemory>
    ensures text { IfOk result (λ text. text.items ≡ written
        (series_refused_line (TooGreat value) ∷ [])) }
    ensures kept { unsigned_abs value < 2 ^ 128 }
{
    let text = format!(in alloc; "refused: number {value}\n")?;
    Ok(text.into_bytes())
}

// Why a text is no expression.
pub(crate) fn parse(alloc: Global, refusal: &ParseRefused) -> Result<Vec<u8>, OutOfMemory>
    requires { refusal.now ≢ NoText }
    ensures text { IfOk result (λ text. text.items ≡ written (parse_line refusal.now ∷ [])) }
    ensures kept { IsParseKept refusal.now }
{
    match refusal {
        ParseRefused::Syntax { at } => syntax(alloc, *at),
        ParseRefused::TooDeep { at } => too_deep(alloc, *at),
        ParseRefused::OutOfMemory => unreachable!(),
    }
}

// Why an operation has no series.
pub(crate) fn refused(alloc: Global, refusal: &SeriesRefused) -> Result<Vec<u8>, OutOfMemory>
    requires { refusal.now ≢ NoRoom }
    ensures text { IfOk result (λ text. text.items ≡ written
        (series_refused_line refusal.now ∷ [])) }
    ensures kept { IsSeriesRefusalKept refusal.now }
{
    match refusal {
        SeriesRefused::TooLong { need } => too_long(alloc, *need),
        SeriesRefused::TooGreat { value } => too_great(alloc, *value),
        SeriesRefused::OutOfMemory => unreachable!(),
    }
}
