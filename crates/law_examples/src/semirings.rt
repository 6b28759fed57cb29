//! Laws of semirings at elements that a program has.
ghost use Rattle.std.specs.Prelude.{◌≡◌, ◌↔◌, ◌<◌, IfOk};
ghost use Rattle.algebra_laws.specs.WalkWeights.{dates, HasGreatestWeights};
ghost use Rattle.dioid.specs.Dates.{date_product};
ghost use Rattle.dioid.specs.DioidAxioms.{IsAtMost};
ghost use Rattle.dioid_matrix.specs.Tables.{entry_of};
ghost use Rattle.dioid_laws.specs.Commuting.{ProductsCommute};
ghost use Rattle.dioid_laws.specs.RightHand.{square_right, RightResidualLaws};
ghost use Rattle.dioid_laws.specs.SquareMatrices.{square_dioid, square_residuals, SquaresAreDioid, SquaresHaveResiduals, SquaresHaveStars};

use algebra_laws::stars_have_greatest_weights;
use dioid::{Date, Dioid, Kleene, Residuated};
use dioid_laws::{
    equations_are_solved_by_residuals, feedback_keeps_transfers, products_commute,
    residuals_are_lawful, residuals_divide_on_the_right, square_matrices_are_a_dioid,
    square_matrices_have_residuals, square_matrices_have_stars, stars_act_on_the_right,
    stars_are_lawful, stars_have_residuals, sums_are_ordered,
};
use dioid_matrix::{Matrix, MatrixRefused};
use std::alloc::Global;

/// Zero is at most each element.
pub fn zero_is_least<D: Dioid>(a: &D)
    requires element { D.is_element a.now }
    ensures { IsAtMost D.sum D.zero a.now }
{
    sums_are_ordered::<D>();
}

/// A star is its own square.
pub fn star_is_square<D: Kleene>(a: &D)
    requires element { D.is_element a.now }
    ensures { D.product (D.star a.now) (D.star a.now) ≡ D.star a.now }
{
    stars_are_lawful::<D>();
}

/// A residual times its divisor is within what was divided.
pub fn residual_is_within<D: Residuated>(a: &D, b: &D)
    requires first { D.is_element a.now }
    requires second { D.is_element b.now }
    ensures { IsAtMost D.sum (D.product a.now (D.left a.now b.now)) b.now }
{
    residuals_are_lawful::<D>();
}

/// Square matrices are a dioid.
pub fn matrices_are_a_dioid<D: Dioid>(rows: u32)
    ensures { SquaresAreDioid D.Dioid rows }
{
    square_matrices_are_a_dioid::<D>();
}

/// They have stars.
pub fn matrices_have_stars<D: Kleene>(rows: u32)
    ensures { SquaresHaveStars D.Dioid D.Kleene.own rows }
{
    square_matrices_have_stars::<D>();
}

/// They have residuals.
pub fn matrices_have_residuals<D: Residuated>(rows: u32)
    ensures { SquaresHaveResiduals D.Dioid D.Residuated.own rows }
{
    square_matrices_have_residuals::<D>();
}

/// Products of dates commute.
pub fn dates_commute(a: &Date, b: &Date)
    ensures { date_product a.now b.now ≡ date_product b.now a.now }
{
    products_commute();
}

/// A star divided by itself is the star.
pub fn star_divides_itself<D: Kleene + Residuated>(a: &D)
    requires element { D.is_element a.now }
    ensures { D.left (D.star a.now) (D.star a.now) ≡ D.star a.now }
{
    stars_have_residuals::<D>();
}

/// A feedback keeps a transfer just where a round through it is within the transfer.
pub fn feedback_keeps<D: Kleene + Residuated>(h: &D, f: &D)
    requires first { D.is_element h.now }
    requires second { D.is_element f.now }
    ensures { D.product (D.star (D.product h.now f.now)) h.now ≡ h.now
        ↔ IsAtMost D.sum (D.product (D.product h.now f.now) h.now) h.now }
{
    feedback_keeps_transfers::<D>();
}

/// An equation has a solution just where the residual is one.
pub fn solved_by_residual<D: Residuated>(a: &D, b: &D)
    requires first { D.is_element a.now }
    requires second { D.is_element b.now }
    ensures { ((x : D) × D.is_element x × (D.product a.now x ≡ b.now))
        ↔ (D.product a.now (D.left a.now b.now) ≡ b.now) }
{
    equations_are_solved_by_residuals::<D>();
}

/// Where products commute, a star on the right is within each solution.
pub fn star_is_least_on_the_right<D: Kleene>(a: &D, b: &D, x: &D)
    requires commute { ProductsCommute D.Dioid }
    requires first { D.is_element a.now }
    requires second { D.is_element b.now }
    requires third { D.is_element x.now }
    requires solves { IsAtMost D.sum (D.sum (D.product x.now a.now) b.now) x.now }
    ensures { IsAtMost D.sum (D.product b.now (D.star a.now)) x.now }
{
    stars_act_on_the_right::<D>();
}

/// Square matrices are divided on the right.
pub fn matrices_divide_on_the_right<D: Residuated>(rows: u32)
    requires commute { ProductsCommute D.Dioid }
    ensures { RightResidualLaws (square_dioid D.Dioid rows)
        (square_residuals D.Dioid D.Residuated.own rows) (square_right D.Dioid D.Residuated.own rows) }
{
    residuals_divide_on_the_right::<D>();
}

/// The greatest weight of the walks from a row to a column of a matrix of dates.
pub fn greatest_weight(
    alloc: Global,
    matrix: &Matrix<Date>,
    row: usize,
    column: usize,
) -> Result<Date, MatrixRefused>
    requires row { row < matrix.now.rows }
    requires column { column < matrix.now.columns }
    ensures { IfOk result (HasGreatestWeights matrix.now.rows (entry_of dates matrix.now) row column) }
{
    stars_have_greatest_weights();
    let star = matrix.star(alloc)?;
    Ok(*star.entry(row, column))
}
