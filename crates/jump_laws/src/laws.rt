//! The laws of turns. Each is a function that does nothing when it runs: its contract is the law.
ghost use Rattle.jump_laws.specs.Jumps.{DatesJump, DatesJumpIn, FormsComeAfterJumps, FormsComeAfterJumpsIn, JumpsEndAtOvertakings, JumpsEndAtOvertakingsIn, NoFallIsForEver, NoFallIsForEverIn, NoFallSettles, TurnsAreReadOff, TurnsAreTold};
ghost use Rattle.jump_laws.specs.ListedJumps.{JumpsTellTooLong, ListedDatesJump, ListedReleasesMove};
ghost use Rattle.jump_laws.specs.Runs.{FormsReachBack, JumpsAreRuns, RunRowsTellDates, RunsKeepDues, RunsTellDates, TurnsAreGathered};

/// Where the least dating of a live net, under any releases, moves in a window by steps of its
/// residues, and so many turns on each token would still be there in time, it moves so for that
/// many turns more (`jump`), and no more turns than that are so (`end`) (chapter 3). The window has
/// room for two turns and for the tokens of each place, and the releases of the inputs move by
/// paces of their residues and would be in time as well. It does nothing when it runs.
///
/// Of two machines of holds 2 and 1, of which the second is 9 numbers ahead, the first 11 numbers
/// show that the faster keeps its own pace for 8 turns of one number more, and no longer.
pub fn dates_jump()
    ensures jump { DatesJump }
    ensures end { JumpsEndAtOvertakings }
{}

/// The same of a system, with any dates of its initial tokens and any releases, where ranks rise
/// along its places without tokens (`jump`, `end`); where no step falls it goes on so for ever
/// (`ever`), and where a token would be late no form has begun (`forms`) (chapter 3). It does
/// nothing when it runs.
pub fn dates_jump_in()
    ensures jump { DatesJumpIn }
    ensures end { JumpsEndAtOvertakingsIn }
    ensures ever { NoFallIsForEverIn }
    ensures forms { FormsComeAfterJumpsIn }
{}

/// Where in the last turn of such a window no step falls along a place, the implicit ones too,
/// unless from a token that is early or to a date that is never, nor from a release, the dates move
/// by the steps for ever (`ever`); and each transition has then one step for all its residues, so
/// that the dates have settled (`settled`) (chapter 3). It does nothing when it runs.
///
/// With one step for each transition it says what `windows_go_on` of `settled_certificates` says.
pub fn no_fall_is_for_ever()
    ensures ever { NoFallIsForEver }
    ensures settled { NoFallSettles }
{}

/// Where a feasible dating moves by such steps in a window, and some turns on a token would be
/// late, it has no settled form whose number and period together stand two turns before the end of
/// the window, unless the window is no longer than the period and two turns (`forms`). So a jump
/// tells that the form of a net is longer than a limit, without the rows up to there (`limit`)
/// (chapter 3). It does nothing when it runs.
pub fn forms_come_after_jumps()
    ensures forms { FormsComeAfterJumps }
    ensures limit { JumpsTellTooLong }
{}

/// Where dates move so up to a number, the date some turns on is that of the residue, moved by as
/// many steps (chapter 3). It does nothing when it runs.
pub fn turns_are_told()
    ensures { TurnsAreTold }
{}

/// A token that gains on the date to which its place leads in each turn is in time for just as many
/// turns as the gain goes into the slack (chapter 3). It does nothing when it runs.
pub fn turns_are_read_off()
    ensures { TurnsAreReadOff }
{}

/// The law of [`dates_jump`] for the input lists of the net: past its dates a list that goes on
/// moves by its gaps in each turn that is some times its `every`, and one that ends, and an input
/// without a list, stays (`lists`); so the least dating of a live net jumps where its lists have
/// been left before the last two turns of the window (`jump`) (chapters 2 and 3). Of the rules of a
/// net it asks those of its lists: one that repeated more dates than it has would go on by dates
/// that are not there. It does nothing when it runs.
pub fn listed_dates_jump()
    ensures lists { ListedReleasesMove }
    ensures jump { ListedDatesJump }
{}

/// A run, which keeps one turn of dates and by what each moves, tells all dates of its numbers
/// (`tell`); what is read off dates that move by steps of their residues is a run of them (`read`);
/// and runs of which some has each number up to a last tell each date up to there (`rows`)
/// (chapter 3). Rows are a run of one turn. It does nothing when it runs.
pub fn runs_tell_dates()
    ensures tell { RunsTellDates }
    ensures read { JumpsAreRuns }
    ensures rows { RunRowsTellDates }
{}

/// Within dates that move by turns, what goes on by some period and step at two numbers that are a
/// turn apart does so at all that are whole turns from them (chapter 3). So where a form is traced
/// back into a run, the last number at which it fails stands in the last turns of the run, or
/// before it. It does nothing when it runs.
pub fn forms_reach_back()
    ensures { FormsReachBack }
{}

/// Dates that move by turns move by some turns at once (`gathered`); so dates of a run and due
/// dates that go on evenly move by turns of one length, and what is in time in two turns is in time
/// in each turn between (`keep`) (chapter 3): of a run the first and the last such turn tell
/// whether some number is late. It does nothing when it runs.
pub fn runs_keep_dues()
    ensures gathered { TurnsAreGathered }
    ensures keep { RunsKeepDues }
{}
