//! The law of which commands words may ask for: a function that does nothing when it runs, whose
//! contract is the law.
ghost use Rattle.teg_request.specs.CommandNames.{CommandsAreThoseOfTheUsage};

/// The law that the usage tells just the commands that there are: with each name that it tells
/// something can be asked for, and with no other first word. It does nothing when it runs.
pub fn commands_are_those_of_the_usage()
    ensures { CommandsAreThoseOfTheUsage }
{}
