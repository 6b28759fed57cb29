//! Matrices over any semiring of the traits of `dioid`: sums, products, stars, least solutions and
//! residuals, proved once for every instance.
//!
//! Its one contract: a call answers the matrix of the unbounded model exactly where every operation
//! fits, and otherwise the first one that does not; a star, and `solve_least` by it, gives the
//! least solution of `x = a x + b`, a residual the greatest `x` with `a x` at most `b`. It stands
//! on `dioid` alone.
//! Its examples stand in `library_examples`.
#![tactic(auto)]

ghost use Rattle.dioid_matrix.specs.MatrixStars.{StarsAreLeast};

mod grid;
mod lists;
mod passes;
mod products;
mod refusals;
mod residues;
mod stars;

use dioid::Kleene;
pub use grid::Matrix;
pub use refusals::MatrixRefused;

/// The law that Kleene's recursion gives least solutions (chapter 4): over the values of the model,
/// so for square matrices of any size and with operands that need not fit, the star has elements,
/// and its product with a column `b` of elements is the least `x` with `a x + b` at most `x`. It
/// does nothing when it runs.
pub fn star_is_least<D: Kleene>()
    ensures { StarsAreLeast D.Dioid D.Kleene.own }
{}
