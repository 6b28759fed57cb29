//! The series of operations that were worked out, so that of equal ones only the first is.
ghost use Rattle.std.specs.Prelude.{◌≡◌, Ok, IfSome, IsTrue};
ghost use Rattle.series_form.specs.NumberBounds.{IsSeries};
ghost use Rattle.teg_calc.specs.ExpressionTrees.{tree_of_expression};
ghost use Rattle.teg_calc.specs.KnownSeries.{AreKnown, IsWorked};
ghost use Rattle.teg_calc.specs.Meaning.{Evaluates};

use crate::expressions::Expr;
use series_form::Series;
use std::alloc::Global;

// The values of series that are kept, at most: 32 MB, and one series more.
const MOST_KEPT: usize = 1_000_000;

// As how many values an operation counts beside those of its series, so that there are few to look
// through.
const OPERATION: usize = 500;

// How many nodes an expression has.
fn count_nodes(expr: &Expr) -> usize {
    match expr {
        Expr::Mono { .. } | Expr::Epsilon | Expr::Unit | Expr::Never => 1,
        Expr::Star(operand) => count_nodes(operand).saturating_add(1),
        Expr::Plus(first, second)
        | Expr::Times(first, second)
        | Expr::Least(first, second)
        | Expr::Left(first, second) => {
            let below = count_nodes(first).saturating_add(count_nodes(second));
            below.saturating_add(1)
        }
    }
}

// Whether two expressions are one.
fn are_same(first: &Expr, second: &Expr) -> bool
    ensures { IsTrue result → tree_of_expression first.now ≡ tree_of_expression second.now }
{
    match (first, second) {
        (
            Expr::Mono { shift, minus, date },
            Expr::Mono {
                shift: other_shift,
                minus: other_minus,
                date: other_date,
            },
        ) => *shift == *other_shift && *minus == *other_minus && *date == *other_date,
        (Expr::Epsilon, Expr::Epsilon) => true,
        (Expr::Unit, Expr::Unit) => true,
        (Expr::Never, Expr::Never) => true,
        (Expr::Star(operand), Expr::Star(other)) => are_same(operand, other),
        (Expr::Plus(left, right), Expr::Plus(other_left, other_right)) => {
            are_same(left, other_left) && are_same(right, other_right)
        }
        (Expr::Times(left, right), Expr::Times(other_left, other_right)) => {
            are_same(left, other_left) && are_same(right, other_right)
        }
        (Expr::Least(left, right), Expr::Least(other_left, other_right)) => {
            are_same(left, other_left) && are_same(right, other_right)
        }
        (Expr::Left(left, right), Expr::Left(other_left, other_right)) => {
            are_same(left, other_left) && are_same(right, other_right)
        }
        _ => false,
    }
}

// An operation, how many nodes it has, and its series.
#[derive(Drop)]
struct Worked<'a> {
    expr: &'a Expr,
    nodes: usize,
    series: Series,
}

impl<'a> Worked<'a> {
    // The series, where an expression of so many nodes is equal and there is memory for it.
    fn answer(&self, alloc: Global, nodes: usize, expr: &Expr) -> Option<Series>
        requires { IsWorked self.now }
        ensures found { IfSome result (λ series. Evaluates (tree_of_expression expr.now)
            (Ok series)) }
        ensures series { IfSome result IsSeries }
    {
        if self.nodes != nodes {
            return None;
        }
        if !are_same(self.expr, expr) {
            return None;
        }
        match self.series.duplicate(alloc) {
            Ok(series) => Some(series),
            Err(_) => None,
        }
    }
}

// Operations that were worked out.
#[derive(Drop)]
pub(crate) struct Known<'a> {
    list: Vec<Worked<'a>>,
    // As how many values they count.
    values: usize,
}

impl<'a> Known<'a> {
    // None yet.
    pub(crate) fn new(alloc: Global) -> Known<'a>
        ensures { AreKnown result }
    {
        Known {
            list: Vec::new(alloc),
            values: 0,
        }
    }

    // The series of an expression, where an equal one was worked out.
    pub(crate) fn find(&self, alloc: Global, expr: &Expr) -> Option<Series>
        requires { AreKnown self.now }
        ensures found { IfSome result (λ series. Evaluates (tree_of_expression expr.now)
            (Ok series)) }
        ensures series { IfSome result IsSeries }
    {
        let nodes = count_nodes(expr);
        for worked in &self.list {
            if let Some(series) = worked.answer(alloc, nodes, expr) {
                return Some(series);
            }
        }
        None
    }

    // Keeps the series of an operation, where there is room and memory for it.
    pub(crate) fn keep(&mut self, alloc: Global, expr: &'a Expr, series: &Series)
        requires known { AreKnown self.old }
        requires series { Evaluates (tree_of_expression expr.now) (Ok series.now) }
        ensures { AreKnown self.new }
    {
        let nodes = count_nodes(expr);
        if nodes == 1 || MOST_KEPT < self.values {
            return;
        }
        let Ok(series) = series.duplicate(alloc) else {
            return;
        };
        let values = series.values().len().saturating_add(OPERATION);
        let worked = Worked {
            expr,
            nodes,
            series,
        };
        if self.list.push(worked).is_ok() {
            self.values = self.values.saturating_add(values);
        }
    }
}
