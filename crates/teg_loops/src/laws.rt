//! The laws of loops. Each is a function that does nothing when it runs: its contract is the law.
ghost use Rattle.teg_loops.specs.PathSplitting.{LongPathsHaveLoops, PathsSplit, PathsCanBeShortened, LongPathsComeRound, CircuitsPassWherePathsLeadBack};

/// A path of at least as many places as there are transitions has a loop: a circuit stands in it
/// (chapter 2).
pub fn long_paths_have_loops()
    ensures { LongPathsHaveLoops }
{}

/// Each path splits into a straight one between the same transitions, and circuits; together they
/// have its places, each as often, and so each sum over them (chapter 2).
pub fn paths_split()
    ensures { PathsSplit }
{}

/// Where no circuit gains more than it costs, each path has a straight one between the same
/// transitions that weighs at least as much (chapter 3).
pub fn paths_can_be_shortened()
    ensures { PathsCanBeShortened }
{}

/// A path of at least n m places, over n transitions, comes back to one of them with a multiple of
/// m tokens, within its first n m places (chapter 2).
pub fn long_paths_come_round()
    ensures { LongPathsComeRound }
{}

/// A circuit passes a place exactly where a path leads back from its end to its start (chapter 2).
pub fn circuits_pass_where_paths_lead_back()
    ensures { CircuitsPassWherePathsLeadBack }
{}
