//! The simple command, and what words give by it.
ghost use Rattle.std.specs.Prelude.{◌≡◌, ◌≢◌, Some, None, [], false, map, IfOk, IsErrOf, string_bytes};
ghost use Rattle.clap.specs.Words.{app_of, fault_of, found_of, matches_of, rows_of, rule_of, with_rule};
ghost use Rattle.teg_words.specs.declared.simple_command.WordsRefusal.TheVariants.{OutOfMemory};
ghost use Rattle.teg_words.specs.WordMeanings.{given_by};
ghost use Rattle.teg_words.specs.CommandLineWords.{bare_command, command_rule, flag_of, given_from, given_of, limit_rule, rest_rule, rounds_rule, simple_command};

use clap::error::ErrorKind;
use clap::{Arg, ArgAction, ArgMatches, Command};
use std::alloc::{AllocError, Global};
use std::error::Error;
use std::fmt;

/// What the words give.
#[derive(Debug, PartialEq, Eq, Drop)]
pub struct GivenWords<'a> {
    /// The first positional word.
    pub command: &'a str,
    /// The positional words after it, in order.
    pub rest: Vec<&'a str>,
    /// The value of `--limit`, where it is given.
    pub limit: Option<&'a str>,
    /// Whether `--rounds` is given.
    pub rounds: bool,
}

/// Why words give nothing. Its line says the cause in words.
#[derive(Clone, Copy, Debug, PartialEq, Eq)]
pub enum WordsRefusal {
    /// The simple command refuses the words.
    Refused,
    /// No memory was found.
    OutOfMemory,
}

impl fmt::Display for WordsRefusal {
    fn fmt<W: fmt::Write>(&self, f: &mut fmt::Formatter<W>) -> fmt::Result {
        f.write_str(match self {
            WordsRefusal::Refused => "words refused",
            WordsRefusal::OutOfMemory => "out of memory",
        })
    }
}

impl Error for WordsRefusal {}

impl From<AllocError> for WordsRefusal {
    ghost from_gives = { λ _ e. e ≡ OutOfMemory };

    fn from(_error: AllocError) -> WordsRefusal {
        WordsRefusal::OutOfMemory
    }
}

// The first positional word, which must be there.
fn command_arg<'a>(alloc: Global) -> Arg<'a>
    ensures rule { rule_of result ≡ command_rule }
    ensures local { result.global ≡ false }
{
    Arg::new(alloc, "command").required(true)
}

// The other positional words, of any number.
fn rest_arg<'a>(alloc: Global) -> Arg<'a>
    ensures rule { rule_of result ≡ rest_rule }
    ensures local { result.global ≡ false }
{
    Arg::new(alloc, "rest").num_args(0..)
}

// The option `--limit VALUE`.
fn limit_arg<'a>(alloc: Global) -> Arg<'a>
    ensures rule { rule_of result ≡ limit_rule }
    ensures local { result.global ≡ false }
{
    Arg::new(alloc, "limit").long("limit")
}

// The flag `--rounds`.
fn rounds_arg<'a>(alloc: Global) -> Arg<'a>
    ensures rule { rule_of result ≡ rounds_rule }
    ensures local { result.global ≡ false }
{
    Arg::new(alloc, "rounds")
        .long("rounds")
        .action(ArgAction::SetTrue)
}

// The command before it has arguments.
fn bare_command<'a>(alloc: Global) -> Command<'a>
    ensures { app_of result ≡ bare_command }
{
    Command::new(alloc, "teg")
        .no_binary_name(true)
        .disable_help_flag(true)
        .disable_version_flag(true)
}

// The command with one argument more, the last.
fn with_arg<'a>(command: Command<'a>, arg: Arg<'a>) -> Result<Command<'a>, AllocError>
    requires { arg.global ≡ false }
    ensures { IfOk result (λ longer. app_of longer
        ≡ with_rule (app_of command.entry) (rule_of arg.entry)) }
{
    command.arg(arg)
}

// The command with its positional words.
fn positional_command<'a>(alloc: Global) -> Result<Command<'a>, AllocError>
    ensures { IfOk result (λ command. app_of command
        ≡ with_rule (with_rule bare_command command_rule) rest_rule) }
{
    let command = with_arg(bare_command(alloc), command_arg(alloc))?;
    with_arg(command, rest_arg(alloc))
}

fn simple_command<'a>(alloc: Global) -> Result<Command<'a>, AllocError>
    ensures { IfOk result (λ command. app_of command ≡ simple_command) }
{
    let command = positional_command(alloc)?;
    let command = with_arg(command, limit_arg(alloc))?;
    with_arg(command, rounds_arg(alloc))
}

// The reading of `clap`.
fn parse<'a>(alloc: Global, words: &'a [String]) -> Result<ArgMatches<'a>, WordsRefusal>
    ensures taken { IfOk result (λ _. fault_of simple_command (map string_bytes words.now) ≡ []) }
    ensures rows { IfOk result (λ matches. rows_of (found_of matches)
        ≡ matches_of simple_command (map string_bytes words.now)) }
    ensures refused { IsErrOf result WordsRefusal.Refused
        → fault_of simple_command (map string_bytes words.now) ≢ [] }
{
    let command = simple_command(alloc)?;
    match command.try_get_matches_from(words) {
        Ok(matches) => Ok(matches),
        Err(error) => {
            if error.kind() == ErrorKind::OutOfMemory {
                Err(WordsRefusal::OutOfMemory)
            } else {
                Err(WordsRefusal::Refused)
            }
        }
    }
}

// Whether `--rounds` is given.
fn has_rounds(matches: &ArgMatches<'_>) -> bool
    ensures { result ≡ flag_of (rows_of (found_of matches.now)) }
{
    match matches.get_str("rounds") {
        Some(text) => text == "true",
        None => false,
    }
}

// What the rows of `clap` give.
fn given<'a>(alloc: Global, matches: &ArgMatches<'a>) -> Result<GivenWords<'a>, WordsRefusal>
    ensures ok { IfOk result (λ words. given_from (rows_of (found_of matches.now))
        ≡ Some (given_by words)) }
    ensures refused { IsErrOf result WordsRefusal.Refused
        → given_from (rows_of (found_of matches.now)) ≡ None }
{
    let Some(command) = matches.get_str("command") else {
        return Err(WordsRefusal::Refused);
    };
    let rest = matches.get_strs("rest").unwrap_or(&[]);
    let rest = Vec::from_slice(alloc, rest)?;
    let limit = matches.get_str("limit");
    let rounds = has_rounds(matches);
    Ok(GivenWords {
        command,
        rest,
        limit,
        rounds,
    })
}

/// What the words give, by one simple command: a required positional, any number of others, the
/// option `--limit VALUE` and the flag `--rounds`, without help and version.
///
/// `words` are those after the name of the program. `--limit 5` and `--limit=5` mean the same, and
/// after `--` every word is positional. `Refused` comes exactly where `clap` refuses the words,
/// `OutOfMemory` only where no memory is found. What is given borrows the words.
pub fn read_words<'a>(alloc: Global, words: &'a [String]) -> Result<GivenWords<'a>, WordsRefusal>
    ensures ok { IfOk result (λ given. given_of (map string_bytes words.now) ≡ Some (given_by
        given)) }
    ensures refused { IsErrOf result WordsRefusal.Refused → given_of (map string_bytes words.now)
        ≡ None }
{
    let matches = parse(alloc, words)?;
    given(alloc, &matches)
}
