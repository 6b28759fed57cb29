//! The laws of slopes. Each is a function that does nothing when it runs: its contract is the law.
//! Of a net they ask that its places begin and end at its transitions, that each input list is of
//! an input and no two of the same, and that each ends or goes on by the rule of a list.
ghost use Rattle.slope_laws.specs.SlopesExist.{FormsHaveSlopes, NeversComeFromEndedLists, SettledFormsHaveSlopes};

/// In a live net a date of a transition is `Never` only where an input whose list ends reaches it,
/// from then on all its dates are, and where such an input reaches it some date is (chapter 3).
pub fn nevers_come_from_ended_lists()
    ensures { NeversComeFromEndedLists }
{}

/// In a live net, where the dates of one transition repeat past some number, the last of them are
/// `Never` exactly where an input whose list ends reaches it, and otherwise its step over the
/// period is the slope of the transition (chapter 3).
pub fn forms_have_slopes()
    ensures { FormsHaveSlopes }
{}

/// Each transition has its slope in each settled form of the least dating of a live net (chapter
/// 3).
pub fn settled_forms_have_slopes()
    ensures { SettledFormsHaveSlopes }
{}
