//! The traits of dioids, with the laws that each instance proves.
ghost use Rattle.std.specs.Prelude.{◌≡◌, ◌↔◌, Bool, true, IsTrue, IfOk, ⊤};

use std::alloc::Global;

/// Why a call of a semiring gives no value.
#[derive(Clone, Copy, Debug, PartialEq, Eq)]
pub enum Refused {
    /// The value of the unbounded model does not fit the type.
    Range,
    /// No memory was found.
    OutOfMemory,
}

/// A dioid, that is a semiring whose sum is idempotent (chapter 4), with its laws.
///
/// In ghost terms the numbers of a type have no bounds, so the type is its own unbounded model. Its
/// elements are the values of which `is_element` holds; the operations of the model lead from
/// elements to elements, and the laws hold for all elements. Each call tells of its operands and of
/// its result that they are elements. It answers the model's value exactly where its operands fit,
/// and `Refused::Range` exactly where they do not; `Refused::OutOfMemory` comes only where
/// `TAKES_MEMORY` is true. In the order of the dioid `a` is at most `b` where `a + b = b`.
pub trait Dioid: Sized + Drop {
    ghost use Rattle.dioid.specs.ElementAnswers.{Answers};
    ghost use Rattle.dioid.specs.DioidAxioms.{IsClosed, DioidLaws};

    /// Whether the calls take memory.
    const TAKES_MEMORY: bool;

    // `TAKES_MEMORY`, for clauses
    ghost TAKES_MEMORY: { Bool };

    // which values of the model are elements
    ghost is_element: { Self → Type 0 };

    ghost zero: { Self };

    ghost one: { Self };

    ghost sum: { Self → Self → Self };

    ghost product: { Self → Self → Self };

    // which operands fit
    ghost sum_fits: { Self → Self → Type 0 };

    ghost product_fits: { Self → Self → Type 0 };

    /// Zero, which is neutral for the sum and absorbs in the product.
    fn zero(alloc: Global) -> Result<Self, Refused>
        ensures answer { Answers TAKES_MEMORY ⊤ zero result }
        ensures element { IfOk result is_element };

    /// One, which is neutral for the product.
    fn one(alloc: Global) -> Result<Self, Refused>
        ensures answer { Answers TAKES_MEMORY ⊤ one result }
        ensures element { IfOk result is_element };

    /// The sum.
    fn plus(&self, alloc: Global, other: &Self) -> Result<Self, Refused>
        ensures answer { Answers TAKES_MEMORY (sum_fits self.now other.now) (sum self.now other.now)
            result }
        ensures element { IfOk result is_element }
        ensures left { is_element self.now }
        ensures right { is_element other.now };

    /// The product.
    fn times(&self, alloc: Global, other: &Self) -> Result<Self, Refused>
        ensures answer { Answers TAKES_MEMORY (product_fits self.now other.now)
            (product self.now other.now) result }
        ensures element { IfOk result is_element }
        ensures left { is_element self.now }
        ensures right { is_element other.now };

    /// The same value once more. It always fits.
    fn duplicate(&self, alloc: Global) -> Result<Self, Refused>
        ensures answer { Answers TAKES_MEMORY ⊤ self.now result }
        ensures element { IfOk result is_element }
        ensures operand { is_element self.now };

    /// Whether the two values are equal. Takes no memory.
    fn same(&self, other: &Self) -> bool
        ensures value { IsTrue result ↔ (self.now ≡ other.now) }
        ensures left { is_element self.now }
        ensures right { is_element other.now };

    ghost closed: { IsClosed is_element zero one sum product };

    ghost laws: { DioidLaws is_element zero one sum product };
}

/// A dioid with stars (chapter 4): for each `b`, `star(a) b` is the least `x` with `a x + b` at
/// most `x`.
pub trait Kleene: Dioid {
    ghost use Rattle.dioid.specs.ElementAnswers.{Answers};
    ghost use Rattle.dioid.specs.DioidAxioms.{StarLaws};

    ghost star: { Self → Self };

    // which operands fit
    ghost star_fits: { Self → Type 0 };

    /// The star.
    fn star(&self, alloc: Global) -> Result<Self, Refused>
        ensures answer { Answers Self.TAKES_MEMORY (star_fits self.now) (star self.now) result }
        ensures element { IfOk result Self.is_element }
        ensures operand { Self.is_element self.now };

    ghost star_laws: { StarLaws Self.is_element Self.sum Self.product star };
}

/// A dioid with residuals and meets: `left(a, b)` is the greatest `x` with `a x` at most `b`, and
/// the meet of two elements is their greatest lower bound (chapter 4).
pub trait Residuated: Dioid {
    ghost use Rattle.dioid.specs.ElementAnswers.{Answers};
    ghost use Rattle.dioid.specs.DioidAxioms.{ResidualLaws};

    ghost left: { Self → Self → Self };

    ghost meet: { Self → Self → Self };

    // which operands fit
    ghost left_fits: { Self → Self → Type 0 };

    ghost meet_fits: { Self → Self → Type 0 };

    /// The residual: the greatest `x` whose product `self x` is at most `other`.
    fn left(&self, alloc: Global, other: &Self) -> Result<Self, Refused>
        ensures answer { Answers Self.TAKES_MEMORY (left_fits self.now other.now)
            (left self.now other.now) result }
        ensures element { IfOk result Self.is_element }
        ensures divisor { Self.is_element self.now }
        ensures bound { Self.is_element other.now };

    /// The greatest lower bound of the two.
    fn meet(&self, alloc: Global, other: &Self) -> Result<Self, Refused>
        ensures answer { Answers Self.TAKES_MEMORY (meet_fits self.now other.now)
            (meet self.now other.now) result }
        ensures element { IfOk result Self.is_element }
        ensures operand { Self.is_element self.now }
        ensures right { Self.is_element other.now };

    ghost residual_laws: { ResidualLaws Self.is_element Self.sum Self.product left meet };
}
