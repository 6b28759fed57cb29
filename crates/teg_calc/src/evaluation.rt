//! The meaning of expressions.
ghost use Rattle.std.specs.Prelude.{◌≡◌, ◌≤◌, ◌<◌, ◌^◌, IfOk};
ghost use Rattle.std.specs.Int.RustNames.{unsigned_abs};
ghost use Rattle.series_ops.specs.series_laws.SeriesForms.{value_at};
ghost use Rattle.series_form.specs.NumberBounds.{IsSeries};
ghost use Rattle.teg_calc.specs.ExpressionTrees.{HasShortNumbers, mono, node_count, tree_of_expression};
ghost use Rattle.teg_calc.specs.KnownSeries.{AreKnown};
ghost use Rattle.teg_calc.specs.Meaning.{Evaluates, Means, signed_date};

use crate::expressions::Expr;
use crate::known::Known;
use dioid::Date;
use series_form::{Series, SeriesRefused, least, sum};
use series_ops::{left, product, star};
use std::alloc::Global;

/// The series that an expression means (chapter 5), by its operands from left to right and then its
/// operator; or the first refusal in this order. The expression has at most 4,096 nodes, and each
/// shift and date in it is below 10^19. `OutOfMemory` comes only where no memory is found. It takes
/// the time of the operations, of equal ones that of the first alone as long as the series that are
/// kept for that have fewer than a million values, which take some 32 MB; and time of order n^2 at
/// most for n nodes.
pub fn evaluate(alloc: Global, expr: &Expr) -> Result<Series, SeriesRefused>
    requires nodes { node_count (tree_of_expression expr.now) ≤ 4096 }
    requires numbers { HasShortNumbers (tree_of_expression expr.now) }
    ensures answer { Evaluates (tree_of_expression expr.now) result }
    ensures meaning { IfOk result (λ series. Means (tree_of_expression expr.now) (value_at
        series)) }
    ensures series { IfOk result IsSeries }
{
    let mut known = Known::new(alloc);
    evaluate_with(alloc, expr, &mut known)
}

// The same beside the operations that were worked out: none equal to one of them is worked out.
#[cycle(evaluate)]
fn evaluate_with<'a>(
    alloc: Global,
    expr: &'a Expr,
    known: &mut Known<'a>,
) -> Result<Series, SeriesRefused>
    requires numbers { HasShortNumbers (tree_of_expression expr.now) }
    requires known { AreKnown known.old }
    ensures known { AreKnown known.new }
    ensures answer { Evaluates (tree_of_expression expr.now) result }
    ensures series { IfOk result IsSeries }
{
    if let Some(series) = known.find(alloc, expr) {
        return Ok(series);
    }
    let series = worked_out(alloc, expr, known)?;
    known.keep(alloc, expr, &series);
    Ok(series)
}

// The same of an expression that was not worked out yet.
#[cycle(evaluate)]
fn worked_out<'a>(
    alloc: Global,
    expr: &'a Expr,
    known: &mut Known<'a>,
) -> Result<Series, SeriesRefused>
    requires numbers { HasShortNumbers (tree_of_expression expr.now) }
    requires known { AreKnown known.old }
    ensures known { AreKnown known.new }
    ensures answer { Evaluates (tree_of_expression expr.now) result }
    ensures series { IfOk result IsSeries }
{
    match expr {
        Expr::Mono { shift, minus, date } => monomial(alloc, *shift, *minus, *date),
        Expr::Epsilon => Series::constant(alloc, Date::Early),
        Expr::Unit => Series::constant(alloc, Date::At(0)),
        Expr::Never => Series::constant(alloc, Date::Never),
        Expr::Plus(first, second) => {
            let first = evaluate_with(alloc, first, known)?;
            let second = evaluate_with(alloc, second, known)?;
            sum(alloc, &first, &second)
        }
        Expr::Times(first, second) => {
            let first = evaluate_with(alloc, first, known)?;
            let second = evaluate_with(alloc, second, known)?;
            product(alloc, &first, &second)
        }
        Expr::Star(operand) => {
            let operand = evaluate_with(alloc, operand, known)?;
            star(alloc, &operand)
        }
        Expr::Least(first, second) => {
            let first = evaluate_with(alloc, first, known)?;
            let second = evaluate_with(alloc, second, known)?;
            least(alloc, &first, &second)
        }
        Expr::Left(by, of) => {
            let by = evaluate_with(alloc, by, known)?;
            let of = evaluate_with(alloc, of, known)?;
            left(alloc, &by, &of)
        }
    }
}

// The monomial of a shift and a date with its sign.
fn monomial(alloc: Global, shift: u64, minus: bool, date: u64) -> Result<Series, SeriesRefused>
    requires shift { shift < 10 ^ 19 }
    requires date { date < 10 ^ 19 }
    ensures answer { Evaluates (mono shift minus date) result }
    ensures meaning { IfOk result (λ series. Means (mono shift minus date) (value_at series)) }
{
    let date = signed(minus, date);
    Series::monomial(alloc, shift, date)
}

// A date with its sign.
fn signed(minus: bool, date: u64) -> i128
    ensures value { result ≡ signed_date minus date }
    ensures size { unsigned_abs result ≡ date }
{
    if minus { -(date as i128) } else { date as i128 }
}
