//! What the words of the command line can ask for.
use teg_net::{FiringNumber, Label};
use teg_outcome::{Count, Expression, Limit, Machines, Period, Target};

/// A question about a net, whose answer is one text.
#[derive(Drop)]
pub enum Question {
    /// Whether the net is live, and its size.
    Check,
    /// The standard form.
    Form,
    /// The cycle times, with the rounds of policy iteration or without.
    Cycle {
        rounds: bool,
    },
    /// The slack of each place.
    Slack,
    /// The dates for ever, by a settled form of at most this length where there is a limit.
    Dates {
        limit: Option<Limit>,
    },
    /// The date of one firing: the name of its transition and its number; by such a form.
    Date {
        word: Label,
        number: FiringNumber,
        limit: Option<Limit>,
    },
    /// The times from the inputs to the outputs, by settled forms of at most this length.
    Transfer {
        limit: Limit,
    },
    /// The net as a file of the second version.
    Migrate,
    /// The fewest further tokens of the place of this name for this ratio.
    Size {
        word: Label,
        target: Target,
    },
    /// How soon the dates become periodic.
    Bound,
}

/// A command that reads a net and no other file.
#[derive(Drop)]
pub enum NetCommand {
    /// The dates of the firings of the numbers from 1 to this one.
    List { count: Count },
    /// A question, whose answer is whole before it is written.
    Asks(Question),
}

/// A command that reads a net and a second file.
#[derive(Drop)]
pub enum FileCommand {
    /// The latest inputs that meet the due dates of a due file.
    Jit,
    /// How a log is replayed.
    Replay,
    /// The latest inputs that meet the due dates without end of a due file.
    Forever,
    /// How the delays of a timetable spread that departs again after this period; by a settled form
    /// of at most this length where there is a limit.
    Timetable {
        period: Period,
        limit: Option<Limit>,
    },
}

/// What the words ask for.
#[derive(Drop)]
pub enum Request {
    /// A command on the net in the file of this name.
    OfNet {
        command: NetCommand,
        net: Label,
    },
    /// A command on the net and the second file of these names.
    OfFiles {
        command: FileCommand,
        net: Label,
        second: Label,
    },
    /// The value of this expression.
    ValueOf {
        expression: Expression,
    },
    /// The line of so many machines.
    TrialOf {
        machines: Machines,
    },
}
