//! The laws. Each is a function that does nothing when it runs: its contract is the law.
ghost use Rattle.series_laws.specs.FormFacts.{AreFormLaws};
ghost use Rattle.series_laws.specs.Closure.{OperationsHaveForms};

/// What a form's function is; that each function that never falls and repeats has a canonical form,
/// and one only; that the period of a canonical form divides each number of shifts by which its
/// function repeats, and its start is the least; and what the common period is (chapter 5).
pub fn forms_are_lawful()
    ensures { AreFormLaws }
{}

/// The operations lead from forms of any length and any numbers to canonical forms of the functions
/// that the book's definitions give, within their needs (chapter 5); a function has one canonical
/// form; the product with a monomial is a shift and a delay; and the anchor in the need of a star,
/// where its tail is a number, is the value of the greatest ratio to its shift, the least shift
/// among equals, or there is none where the step has a greater one.
pub fn series_are_closed()
    ensures { OperationsHaveForms }
{}
