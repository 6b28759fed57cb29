//! The law of the counters of live nets: a function that does nothing when it runs, whose contract
//! is the law.
ghost use Rattle.date_counts.specs.LiveCounters.{CountersOfLiveNetsExist, CountersTellDates};

use periodic_laws::least_datings_repeat;

/// A live net has counters, of each transition and to each date: since its dates repeat, either one
/// of them comes later than the date, or all come by then and the count has no end. And counters
/// tell the dating: two datings from 0 on with the same counters have the same dates (chapter 5).
///
/// Of dates below 0 counters tell no more than that they come by 0.
pub fn live_nets_have_counters()
    ensures exist { CountersOfLiveNetsExist }
    ensures dates { CountersTellDates }
{
    least_datings_repeat();
}
