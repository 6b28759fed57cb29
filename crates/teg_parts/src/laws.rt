//! The law of parts: a function that does nothing when it runs, whose contract is the law.
ghost use Rattle.teg_parts.specs.Partitions.{PartsAreOne};

/// A net has no two lists of strong parts: the numbers, their order and the marks are determined by
/// it (chapter 2; the order of the numbers is this project's own).
pub fn parts_are_one()
    ensures { PartsAreOne }
{}
