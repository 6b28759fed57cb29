//! How a call ends.
ghost use Rattle.std.specs.Prelude.{◌≡◌};
ghost use Rattle.teg_files.specs.Statuses.{code_of, status_of};

use teg_outcome::Verdict;

/// How a call of the workbench ends.
#[derive(Clone, Copy, Debug, PartialEq, Eq)]
pub enum Status {
    /// The command was carried out.
    Done,
    /// The words ask for nothing that the workbench does.
    Words,
    /// A file is too long, or the net file is no TOML.
    Text,
    /// The net file says no net, or a net that is not live.
    Net,
    /// A due file or a timetable has a faulty row; or a transition has no first departure, the net
    /// is too large for a timetable, or the plan leaves a place too little time.
    Schedule,
    /// A due date cannot be met.
    Late,
    /// Dates settle past the limit; or a series of `forever` is longer than it may be, or has a
    /// number above 10^18.
    TooLong,
    /// The log has a faulty row, or one that the net does not allow.
    Log,
    /// The text is no expression, or has no value within the limits.
    Calc,
    /// The net has no transition, or no place, of the name that was given.
    Name,
    /// A file could not be read.
    ReadFault,
    /// The answer could not be written.
    WriteFault,
    /// No memory was found; or `bound` made 10^17 rows, or a search for a settled form 2 x 10^13,
    /// which no machine does.
    NoMemory,
}

impl Status {
    /// The exit status of a program that ends so. It takes no memory.
    pub fn code(&self) -> u8
        ensures { result ≡ code_of self.now }
    {
        match self {
            Status::Done => 0,
            Status::Words => 2,
            Status::Text => 3,
            Status::Net => 4,
            Status::Schedule => 5,
            Status::Late => 6,
            Status::TooLong => 7,
            Status::Log => 8,
            Status::Calc => 9,
            Status::Name => 10,
            Status::ReadFault => 64,
            Status::WriteFault => 65,
            Status::NoMemory => 70,
        }
    }
}

/// The status of a call that ends with this verdict.
pub fn status_of(verdict: Verdict) -> Status
    ensures { result ≡ status_of verdict }
{
    match verdict {
        Verdict::Done => Status::Done,
        Verdict::TooLong => Status::TooLong,
        Verdict::Name => Status::Name,
        Verdict::Schedule => Status::Schedule,
        Verdict::Late => Status::Late,
        Verdict::Log => Status::Log,
        Verdict::Calc => Status::Calc,
    }
}
