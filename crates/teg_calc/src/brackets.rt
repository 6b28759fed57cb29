//! What stands in an open bracket before the operand that is read, and what operators make of it.
ghost use Rattle.std.specs.Prelude.{◌≡◌, IfOk, None};
ghost use Rattle.teg_calc.specs.ExpressionTrees.{tree_of_expression};
ghost use Rattle.teg_calc.specs.Readers.{closed, joined, level, level_of, multiplied, opened_level, takes_comma, tree_in};

use crate::expressions::Expr;
use std::alloc::{AllocError, Global};

// What a bracket is opened for. The whole text counts as a bracket that never closes.
#[derive(Clone, Copy)]
pub(crate) enum Call {
    Text,
    Group,
    Star,
    Least,
    Left,
}

// What stands in an open bracket before the operand that is read: the first operand of a call and
// its comma, the terms and their `+`, the factors and their `.`.
#[derive(Drop)]
pub(crate) struct Bracket {
    pub(crate) call: Call,
    pub(crate) first: Option<Expr>,
    pub(crate) sum: Option<Expr>,
    pub(crate) product: Option<Expr>,
}

// A bracket in which nothing stands.
pub(crate) fn opened(call: Call) -> Bracket
    ensures { level_of result ≡ opened_level call }
{
    Bracket {
        call,
        first: None,
        sum: None,
        product: None,
    }
}

// Drops a value by a call. What a function drops itself is written out in it at each way out, and a
// tree has nine kinds: so those that hold trees let them go before they return an error.
pub(crate) fn let_go<T: Drop>(_value: T) {}

// Two trees, each in a box.
fn boxed(alloc: Global, first: Expr, second: Expr) -> Result<(Box<Expr>, Box<Expr>), AllocError>
    ensures first { IfOk result (λ boxes. boxes.0.value ≡ first) }
    ensures second { IfOk result (λ boxes. boxes.1.value ≡ second) }
{
    let first = Box::new(alloc, first)?;
    let second = Box::new(alloc, second)?;
    Ok((first, second))
}

// The sum so far, with one more term.
pub(crate) fn joined(alloc: Global, sum: Option<Expr>, term: Expr) -> Result<Expr, AllocError>
    ensures { IfOk result (λ expr. tree_of_expression expr ≡ joined (tree_in sum)
        (tree_of_expression term)) }
{
    match sum {
        None => Ok(term),
        Some(sum) => {
            let (sum, term) = boxed(alloc, sum, term)?;
            Ok(Expr::Plus(sum, term))
        }
    }
}

// The product so far, with one more factor.
pub(crate) fn multiplied(
    alloc: Global,
    product: Option<Expr>,
    factor: Expr,
) -> Result<Expr, AllocError>
    ensures { IfOk result (λ e. tree_of_expression e ≡ multiplied (tree_in product)
        (tree_of_expression factor)) }
{
    match product {
        None => Ok(factor),
        Some(product) => {
            let (product, factor) = boxed(alloc, product, factor)?;
            Ok(Expr::Times(product, factor))
        }
    }
}

// The factor that a bracket is, closed behind its last operand; none where it does not close there.
pub(crate) fn closed(
    alloc: Global,
    call: Call,
    first: Option<Expr>,
    last: Expr,
) -> Result<Option<Expr>, AllocError>
    ensures { IfOk result (λ expr. tree_in expr ≡ closed call (tree_in first) (tree_of_expression
        last)) }
{
    match (call, first) {
        (Call::Group, None) => Ok(Some(last)),
        (Call::Star, None) => Ok(Some(Expr::Star(Box::new(alloc, last)?))),
        (Call::Least, Some(first)) => {
            let (first, last) = boxed(alloc, first, last)?;
            Ok(Some(Expr::Least(first, last)))
        }
        (Call::Left, Some(first)) => {
            let (first, last) = boxed(alloc, first, last)?;
            Ok(Some(Expr::Left(first, last)))
        }
        (_, first) => {
            let_go(first);
            let_go(last);
            Ok(None)
        }
    }
}

// What is read of a bracket behind a term: what it is opened for, its first operand, and its sum.
#[derive(Drop)]
pub(crate) struct Summed {
    pub(crate) call: Call,
    pub(crate) first: Option<Expr>,
    pub(crate) sum: Expr,
}

// A bracket with the term behind its sum.
pub(crate) fn with_term(alloc: Global, bracket: Bracket, term: Expr) -> Result<Summed, AllocError>
    ensures call { IfOk result (λ summed. summed.call ≡ bracket.call) }
    ensures first { IfOk result (λ summed. tree_in summed.first ≡ tree_in bracket.first) }
    ensures sum { IfOk result (λ summed. tree_of_expression summed.sum ≡ joined (tree_in bracket.sum)
        (tree_of_expression term)) }
{
    let Bracket {
        call,
        first,
        sum,
        product,
    } = bracket;
    let_go(product);
    match joined(alloc, sum, term) {
        Ok(sum) => Ok(Summed { call, first, sum }),
        Err(error) => {
            let_go(first);
            Err(error)
        }
    }
}

// A bracket, and the term that its product is with one more factor.
pub(crate) fn with_factor(
    alloc: Global,
    bracket: Bracket,
    factor: Expr,
) -> Result<(Bracket, Expr), AllocError>
    ensures bracket { IfOk result (λ made. level_of made.0
        ≡ level bracket.call (tree_in bracket.first) (tree_in bracket.sum) None) }
    ensures term { IfOk result (λ made. tree_of_expression made.1
        ≡ multiplied (tree_in bracket.product) (tree_of_expression factor)) }
{
    let Bracket {
        call,
        first,
        sum,
        product,
    } = bracket;
    match multiplied(alloc, product, factor) {
        Ok(term) => {
            let bracket = Bracket {
                call,
                first,
                sum,
                product: None,
            };
            Ok((bracket, term))
        }
        Err(error) => {
            let_go(first);
            let_go(sum);
            Err(error)
        }
    }
}

// Whether a comma may come in this bracket: behind the first operand of a call of two.
pub(crate) fn takes_comma(call: Call, first: &Option<Expr>) -> bool
    ensures { result ≡ takes_comma call (tree_in first.now) }
{
    match (call, first) {
        (Call::Least, None) => true,
        (Call::Left, None) => true,
        _ => false,
    }
}
