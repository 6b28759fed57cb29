//! What a window of a least dating tells of all its numbers.
ghost use Rattle.settled_certificates.specs.SettledWindows.{WindowsGoOn};

/// Where the least dating of a live net, under any releases, moves by steps in a window, it moves
/// by them for ever (chapter 3): the window has room for two periods and for the tokens of each
/// place, no step falls along a place, unless to a date that is never or from one that is early,
/// and the releases of the inputs move by the steps too. No place enters an input, as in a net
/// file. It does nothing when it runs.
///
/// That no step falls is needed: of two machines of holds 2 and 1, of which the second is 9 numbers
/// ahead, the faster seems to keep its own pace until the slower has caught up.
pub fn windows_go_on()
    ensures { WindowsGoOn }
{}
