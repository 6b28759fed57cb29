//! The laws of dioids. Each is a function that does nothing when it runs: its contract is the law.
//! It holds of each type that has the trait, so of dates, flags and series, and of any other.
ghost use Rattle.std.specs.Prelude.{ℕ};
ghost use Rattle.dioid_laws.specs.Commuting.{ProductsCommute};
ghost use Rattle.dioid_laws.specs.DioidOrder.{IsOrderOfSums};
ghost use Rattle.dioid_laws.specs.Feedback.{EquationsAreSolvedByResiduals, FeedbackLaws};
ghost use Rattle.dioid_laws.specs.ResidualIdentities.{ResidualIdentities};
ghost use Rattle.dioid_laws.specs.RightHand.{RightResidualLaws, RightStarLaws, square_right};
ghost use Rattle.dioid_laws.specs.SquareMatrices.{SquaresAreDioid, SquaresHaveResiduals, SquaresHaveStars, square_dioid, square_residuals, square_stars};
ghost use Rattle.dioid_laws.specs.StarIdentities.{StarIdentities};
ghost use Rattle.dioid_laws.specs.StarResiduals.{StarResiduals};

use dioid::{Date, Dioid, Flag, Kleene, Residuated};
use series_ops::Gain;

/// The sum orders a dioid: `a` is at most `b` where `a + b = b`. Zero is the least element, the sum
/// of two is their least upper bound, and the product rises with each factor (chapter 4).
pub fn sums_are_ordered<D: Dioid>()
    ensures { IsOrderOfSums D.Dioid }
{}

/// A star is one and a round before it, its own square and its own star, and rises with its
/// element: `1 + a a* = a*`, `a* a* = a*` and `a** = a*`; and `a (b a)* = (a b)* a` and
/// `(a + b)* = a* (b a*)*` (chapter 4).
///
/// They follow from one side: that `a* b` is the least `x` with `a x + b` at most `x`. That `b a*`
/// is the least `x` with `x a + b` at most `x` does not follow of every dioid; where products
/// commute it does, of matrices too, by `stars_act_on_the_right`.
pub fn stars_are_lawful<D: Kleene>()
    ensures { StarIdentities D.Dioid D.Kleene.own }
{}

/// What follows from the Galois law: `a (a\b)` is at most `b`, and `b` at most `a\(a b)`, but
/// `a\(a (a\b)) = a\b` and `a (a\(a b)) = a b`. Residuals rise with their bound and fall with their
/// divisor, `1\b = b`, `(a b)\c = b\(a\c)`, and with `^` for the meet `(a + b)\c = a\c ^ b\c` and
/// `a\(b ^ c) = a\b ^ a\c` (chapter 4).
pub fn residuals_are_lawful<D: Residuated>()
    ensures { ResidualIdentities D.Dioid D.Residuated.own }
{}

/// The square matrices of any size over a dioid are themselves a dioid, with its order (chapter 4).
///
/// They are functions of row and column that are zero outside so many rows and columns: else the
/// unit would not be neutral.
pub fn square_matrices_are_a_dioid<D: Dioid>()
    ensures laws { (n : ℕ) → SquaresAreDioid D.Dioid n }
    ensures order { (n : ℕ) → IsOrderOfSums (square_dioid D.Dioid n) }
{}

/// The square matrices of any size over a dioid with stars have stars, those of Kleene's recursion,
/// with all that holds of stars (chapters 3 and 4).
pub fn square_matrices_have_stars<D: Kleene>()
    ensures least { (n : ℕ) → SquaresHaveStars D.Dioid D.Kleene.own n }
    ensures identities { (n : ℕ) → StarIdentities (square_dioid D.Dioid n)
        (square_stars D.Dioid D.Kleene.own n) }
{}

/// The square matrices of any size over a dioid with residuals have residuals and meets, with all
/// that holds of them: the entry of `a\b` at a row and a column is the meet of the residuals of the
/// column of `b` by the row's column of `a` (chapter 4).
pub fn square_matrices_have_residuals<D: Residuated>()
    ensures greatest { (n : ℕ) → SquaresHaveResiduals D.Dioid D.Residuated.own n }
    ensures identities { (n : ℕ) → ResidualIdentities (square_dioid D.Dioid n)
        (square_residuals D.Dioid D.Residuated.own n) }
{}

/// Residuals by stars, of elements and of square matrices: that of `b` by the star of `a` is the
/// greatest `x` at most `b` with `a x` at most `x`, as latest dates are (chapters 4 and 5). It is
/// the meet of `b` and of its own residual by `a`; and `a\a` is its own star, and `a*\a*` is `a*`.
pub fn stars_have_residuals<D: Kleene + Residuated>()
    ensures elements { StarResiduals D.Dioid D.Kleene.own D.Residuated.own }
    ensures squares { (n : ℕ) → StarResiduals (square_dioid D.Dioid n)
        (square_stars D.Dioid D.Kleene.own n) (square_residuals D.Dioid D.Residuated.own n) }
{}

/// The products of dates, of flags and of series commute (chapters 4 and 5). Not every dioid's do:
/// those of square matrices do not, from two rows on.
pub fn products_commute()
    ensures dates { ProductsCommute ⟦<Date as Dioid>⟧ }
    ensures flags { ProductsCommute ⟦<Flag as Dioid>⟧ }
    ensures series { ProductsCommute ⟦<Gain as Dioid>⟧ }
{}

/// Feedback that keeps a transfer: `(h f)* h` is `h` just where `h f h` is at most `h`; where
/// products commute that is where `f` is at most `(h h)\h`, the greatest such feedback (chapter 6).
pub fn feedback_keeps_transfers<D: Kleene + Residuated>()
    ensures elements { FeedbackLaws D.Dioid D.Kleene.own D.Residuated.own }
    ensures squares { (n : ℕ) → FeedbackLaws (square_dioid D.Dioid n)
        (square_stars D.Dioid D.Kleene.own n) (square_residuals D.Dioid D.Residuated.own n) }
{}

/// Equations: some `x` has `a x = b` just where `a\b`, the greatest with `a x` at most `b`, has it
/// (chapter 4).
pub fn equations_are_solved_by_residuals<D: Residuated>()
    ensures elements { EquationsAreSolvedByResiduals D.Dioid D.Residuated.own }
    ensures squares { (n : ℕ) → EquationsAreSolvedByResiduals (square_dioid D.Dioid n)
        (square_residuals D.Dioid D.Residuated.own n) }
{}

/// Stars on the right, of elements and of square matrices, where the products of the elements
/// commute, though those of the matrices do not: `b a*` is the least `x` with `x a + b` at most `x`,
/// and `a a*` is `a* a` (chapter 4). Of dates, `a* b` has the greatest weights of walks that end by
/// `b`, and `b a*` those of walks that begin by it.
///
/// It follows from the left by changing rows and columns about, which changes the factors of a
/// product about.
pub fn stars_act_on_the_right<D: Kleene>()
    ensures elements { ProductsCommute D.Dioid → RightStarLaws D.Dioid D.Kleene.own }
    ensures squares { ProductsCommute D.Dioid → (n : ℕ) → RightStarLaws (square_dioid D.Dioid n)
        (square_stars D.Dioid D.Kleene.own n) }
{}

/// Residuals on the right, where the products of the elements commute: of square matrices `b/a` is
/// the greatest `x` with `x a` at most `b`, `b/(a c)` is `(b/c)/a`, and `(a\b)/c` is `a\(b/c)`; of
/// elements `b/a` is `a\b` (chapter 4). It is the residual of the matrices with rows and columns
/// changed about, as `right_residual` of `matrix_values` answers it.
pub fn residuals_divide_on_the_right<D: Residuated>()
    ensures elements { ProductsCommute D.Dioid → RightResidualLaws D.Dioid D.Residuated.own D.Residuated.own.left }
    ensures squares { ProductsCommute D.Dioid → (n : ℕ) → RightResidualLaws (square_dioid D.Dioid n)
        (square_residuals D.Dioid D.Residuated.own n) (square_right D.Dioid D.Residuated.own n) }
{}
