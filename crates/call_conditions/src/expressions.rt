//! What is asked of expressions.
ghost use Rattle.std.specs.Prelude.{◌≡◌, ◌↔◌, ◌+◌, ◌<◌, ◌≤◌, IsTrue, MatchOption};
ghost use Rattle.teg_calc.specs.ExpressionTrees.{HasShortNumbers, node_count, tree_of_expression};

use call_limits::{MONOMIAL_BOUND, MOST_EXPRESSION_NODES};
use teg_calc::Expr;

// What is left of room for so many nodes after those of the expression, where there is room.
fn room_after(room: u32, expr: &Expr) -> Option<u32>
    ensures { MatchOption result (room < node_count (tree_of_expression expr.now))
        (λ left. left + node_count (tree_of_expression expr.now) ≡ room) }
{
    if room == 0 {
        return None;
    }
    match expr {
        Expr::Mono { .. } | Expr::Epsilon | Expr::Unit | Expr::Never => Some(room - 1),
        Expr::Star(operand) => room_after(room - 1, operand),
        Expr::Plus(first, second)
        | Expr::Times(first, second)
        | Expr::Least(first, second)
        | Expr::Left(first, second) => {
            let left = room_after(room - 1, first)?;
            room_after(left, second)
        }
    }
}

/// Whether an expression has at most 4,096 nodes, as `evaluate` asks: monomials, words and
/// operations (chapter 5). It takes no memory, and a step a node, at most 4,097.
pub fn has_few_nodes(expr: &Expr) -> bool
    ensures { IsTrue result ↔ (node_count (tree_of_expression expr.now) ≤ 4096) }
{
    room_after(MOST_EXPRESSION_NODES, expr).is_some()
}

/// Whether each shift and each date in an expression is below 10^19, as `evaluate` asks (chapter
/// 5). It takes no memory, and a step a node.
pub fn has_short_numbers(expr: &Expr) -> bool
    ensures { IsTrue result ↔ HasShortNumbers (tree_of_expression expr.now) }
{
    match expr {
        Expr::Mono { shift, date, .. } => *shift < MONOMIAL_BOUND && *date < MONOMIAL_BOUND,
        Expr::Epsilon | Expr::Unit | Expr::Never => true,
        Expr::Star(operand) => has_short_numbers(operand),
        Expr::Plus(first, second)
        | Expr::Times(first, second)
        | Expr::Least(first, second)
        | Expr::Left(first, second) => has_short_numbers(first) && has_short_numbers(second),
    }
}
