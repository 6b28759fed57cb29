//! The laws of walks by ends. Each is a function that does nothing when it runs: its contract is
//! the law.
ghost use Rattle.end_laws.specs.Ends.{EndsAreAsked, LedNetsStand, WalksGoByEnds};
ghost use Rattle.end_laws.specs.Latest.{DatesByPlacesGoOn, LatestGoesOn};

/// The greatest times of walks from an input to the transitions that are no inputs are the latest,
/// over the places that leave it, of the times of walks from the ends of these places, as many
/// numbers on as the place has tokens and so much later as it is held (chapter 5).
pub fn walks_go_by_ends()
    ensures { WalksGoByEnds }
{}

/// Where all places that leave an input lead to one transition, without tokens and not held, the
/// times of walks from the input are those from that transition; and with such places in place of
/// its own a net is a net, and stays live (chapter 5).
pub fn ends_are_asked()
    ensures times { EndsAreAsked }
    ensures nets { LedNetsStand }
{}

/// Where the dates by each place that leaves an input go on by a step in each period, and the
/// latest of them goes on by the greatest of these steps for one period, it does so for ever
/// (chapter 3). The dates by a place go on as those from its end do.
pub fn latest_goes_on()
    ensures latest { LatestGoesOn }
    ensures places { DatesByPlacesGoOn }
{}
