//! The law of answers.
ghost use Rattle.teg_calc.specs.Meaning.{HaveOneAnswer};

/// What `evaluate` answers is determined by the tree, but for want of memory. It does nothing when
/// it runs.
pub fn trees_have_one_answer()
    ensures { HaveOneAnswer }
{}
