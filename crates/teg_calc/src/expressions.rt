//! Expressions as trees.

/// An expression of periodic series (chapter 5).
#[derive(Drop)]
pub enum Expr {
    /// The monomial of a shift and a date in the user's unit, which is below 0 where `minus` stands
    /// before it.
    Mono { shift: u64, minus: bool, date: u64 },
    /// Early everywhere, the zero of series.
    Epsilon,
    /// 0 everywhere, the one of series.
    Unit,
    /// Never everywhere.
    Never,
    /// The sum: at each shift the later date.
    Plus(Box<Expr>, Box<Expr>),
    /// The product.
    Times(Box<Expr>, Box<Expr>),
    /// The star.
    Star(Box<Expr>),
    /// The minimum: at each shift the earlier date.
    Least(Box<Expr>, Box<Expr>),
    /// The residual of the second by the first.
    Left(Box<Expr>, Box<Expr>),
}
