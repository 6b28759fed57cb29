//! The laws of the settled forms of delayed timetables. Each is a function that does nothing when
//! it runs: its contract is the law.
ghost use Rattle.delay_laws.specs.OneDelayForm.{DelaysLeftAreOne, FormsAreOfEach, FormsOfDelaysAreOne};
ghost use Rattle.delay_laws.specs.SettlingLaws.{DelaysSettle, FormsTellDelays, ReleaseNetsAreLive, ReleaseNetsTellDelays, StepsAreThePlan};

use periodic_laws::{periodic_datings_settle, systems_settle};
use settled_laws::shortest_forms_are_one;

/// In a live net the delayed dating and the releases of each timetable have a settled form together
/// (chapter 3).
pub fn delays_settle()
    ensures { DelaysSettle }
{
    systems_settle();
    periodic_datings_settle();
}

/// The settled form of a timetable and the delays left do not hang on which delayed dating is taken
/// (chapters 2 and 3).
pub fn forms_of_delays_are_one()
    ensures each { FormsAreOfEach }
    ensures one { FormsOfDelaysAreOne }
    ensures left { DelaysLeftAreOne }
{
    shortest_forms_are_one();
}

/// A net in which each departure also waits for an input of its own, with the releases as its
/// dates, is live where the net is, and the settled form of its least dating is that of the delayed
/// dating and the releases together (chapters 2 and 3). So a search that settles nets settles
/// timetables.
pub fn release_nets_tell_delays()
    ensures live { ReleaseNetsAreLive }
    ensures tells { ReleaseNetsTellDelays }
{}

/// Where the plan leaves time for each place, in each period of a settled form the dates go on by
/// as many planned steps (chapter 3).
pub fn steps_are_the_plan()
    ensures { StepsAreThePlan }
{}

/// Where the plan leaves time for each place, a settled form tells the date of each departure as
/// its plan and the delay that is left, and past the form's number the delays come again in each
/// period (chapters 2 and 3).
pub fn forms_tell_delays()
    ensures { FormsTellDelays }
{}
