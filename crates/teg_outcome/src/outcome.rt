//! What a command comes to.
ghost use Rattle.std.specs.Prelude.{◌≡◌, string_bytes};

/// How a command on accepted files ends: refusals of words and nets, faults and want of memory are
/// none of its business.
#[derive(Clone, Copy, Debug, PartialEq, Eq)]
pub enum Verdict {
    /// The command was carried out.
    Done,
    /// A settled form is longer than its limit; or a series of `forever` is longer than it may be,
    /// or has a number above 10^18.
    TooLong,
    /// No transition, or place, has the name that was asked for.
    Name,
    /// A due file or a timetable has a faulty row; or a transition has no first departure, the net
    /// is too large for a timetable, or the plan leaves a place too little time.
    Schedule,
    /// A firing is later than due whatever the inputs are.
    Late,
    /// The log has a faulty row, or one that the net does not allow.
    Log,
    /// The text is no expression, or has no value within the limits.
    Calc,
}

/// What a command comes to on accepted files: how it ends, and its text.
#[derive(Drop)]
pub struct CommandOutcome {
    pub verdict: Verdict,
    pub text: Vec<u8>,
}

impl CommandOutcome {
    /// What a command comes to that ends so, with this text. It takes no memory.
    pub fn told(verdict: Verdict, text: String) -> CommandOutcome
        ensures verdict { result.verdict ≡ verdict }
        ensures text { result.text.items ≡ string_bytes text }
    {
        let text = text.into_bytes();
        CommandOutcome { verdict, text }
    }
}
