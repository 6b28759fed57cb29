//! The values of expressions.
ghost use Rattle.std.specs.Prelude.{◌≤◌, ◌∷◌, []};
ghost use Rattle.teg_calc.specs.ExpressionTrees.{HasShortNumbers, node_count, tree_of_expression};
ghost use Rattle.teg_outcome.specs.CommandOutcomes.{Tells, TellsWhy, outcome_of};
ghost use Rattle.teg_report.specs.Series.{IsParseKept, IsSeriesRefusalKept, parse_line, series_refused_line};
ghost use Rattle.teg_net_commands.specs.Calc.{SaysSeries, SaysCalc};

use series_form::SeriesRefused;
use std::alloc::Global;
use teg_calc::{Expr, ParseRefused, evaluate, parse};
use teg_net::OutOfMemory;
use teg_outcome::{CommandOutcome, Expression, Verdict};
use teg_report::{Answer, report};

// Why a text is no expression.
fn refuse_text(alloc: Global, refusal: &ParseRefused) -> Result<CommandOutcome, OutOfMemory>
    ensures { Tells (TellsWhy (λ r. parse_line r ∷ []) IsParseKept ParseRefused.OutOfMemory Verdict.Calc refusal.now) (outcome_of result) }
{
    match refusal {
        ParseRefused::OutOfMemory => Err(OutOfMemory),
        ParseRefused::Syntax { .. } | ParseRefused::TooDeep { .. } => {
            let text = report(alloc, None, &Answer::Parse { refusal })?;
            let verdict = Verdict::Calc;
            Ok(CommandOutcome { verdict, text })
        }
    }
}

// Why an operation has no series.
fn refuse_series(alloc: Global, refusal: &SeriesRefused) -> Result<CommandOutcome, OutOfMemory>
    ensures { Tells (TellsWhy (λ r. series_refused_line r ∷ []) IsSeriesRefusalKept SeriesRefused.OutOfMemory Verdict.Calc refusal.now) (outcome_of result) }
{
    match refusal {
        SeriesRefused::OutOfMemory => Err(OutOfMemory),
        SeriesRefused::TooLong { .. } | SeriesRefused::TooGreat { .. } => {
            let text = report(alloc, None, &Answer::Series { refusal })?;
            let verdict = Verdict::Calc;
            Ok(CommandOutcome { verdict, text })
        }
    }
}

// The value of an expression that was read.
fn tell_series(alloc: Global, expr: &Expr) -> Result<CommandOutcome, OutOfMemory>
    requires nodes { node_count (tree_of_expression expr.now) ≤ 4096 }
    requires numbers { HasShortNumbers (tree_of_expression expr.now) }
    ensures { Tells (SaysSeries (tree_of_expression expr.now)) (outcome_of result) }
{
    match evaluate(alloc, expr) {
        Ok(series) => {
            let text = report(alloc, None, &Answer::Calc { series: &series })?;
            let verdict = Verdict::Done;
            Ok(CommandOutcome { verdict, text })
        }
        Err(refusal) => refuse_series(alloc, &refusal),
    }
}

/// The value of an expression (chapter 5), or its refusal. It takes the time of its operations.
pub fn tell_calc(alloc: Global, expression: &Expression) -> Result<CommandOutcome, OutOfMemory>
    ensures { Tells (SaysCalc expression.now) (outcome_of result) }
{
    match parse(alloc, expression.as_str().as_bytes()) {
        Ok(expr) => tell_series(alloc, &expr),
        Err(refusal) => refuse_text(alloc, &refusal),
    }
}
