//! The laws of strongly connected nets. Each is a function that does nothing when it runs: its
//! contract is the law.
ghost use Rattle.cyclicity_laws.specs.CriticalParts.{CommonMultiplesAreByParts, DatesGrowByCycleTime, PeriodsDivideByParts};
ghost use Rattle.cyclicity_laws.specs.PartsBetween.{PeriodsOfTransfersDivide, RatesBetweenExist, TransfersRepeatByParts};
ghost use Rattle.cyclicity_laws.specs.PartsTowards.{DatesRepeatByParts, PeriodsDivideOfNets};
ghost use Rattle.cyclicity_laws.specs.Reached.{CommonByPartsExist, CommonOfNetsExist, CommonTowardsExist, CyclicityIsByParts, TransfersAreCommon, TransfersDivideByParts, TransfersExist};

use periodic_laws::{least_datings_repeat, systems_settle};

/// The cycle time: the dates of every transition of a strongly connected live net without inputs
/// grow by its greatest ratio `a / b`: `b x(t, k)` stays between `a k - c` and `a k + d` for two
/// bounds `c` and `d`, so that `x(t, k) / k` tends to the ratio (chapter 3).
///
/// In a net that is not strongly connected a transition grows by the ratios of the circuits from
/// which a path leads to it alone.
pub fn dates_grow_by_cycle_time()
    ensures { DatesGrowByCycleTime }
{
    least_datings_repeat();
}

/// Cyclicity: the period of the shortest settled form of a strongly connected live net without
/// inputs divides every common multiple, over the strong parts of its critical graph, of the
/// greatest common divisors of the tokens of their circuits; so it divides the least (chapter 3).
/// It holds whatever the ready dates of the initial tokens are.
///
/// Each common multiple of the tokens of single critical circuits, one through each critical
/// transition, is such a number, but not the other way round: one transition with two places from
/// it to itself, of holding times 2 and 3 and 2 and 3 tokens, has the period 1, which is no
/// multiple of 2 or of 3. The greatest common divisor of all critical circuits is not enough: two
/// transitions with a place each back to itself, of 2 tokens and hold 2, and of 3 tokens and hold
/// 3, linked by places of one token and hold 0, have the period 6.
pub fn periods_divide_by_parts()
    ensures periods { PeriodsDivideByParts }
    ensures single { CommonMultiplesAreByParts }
{
    least_datings_repeat();
}

/// Cyclicity with inputs and several parts: in a live net the dates of a transition that no ended
/// list reaches repeat by every common multiple `L` of what leads to it at its slope `a / b`: of
/// each strong part of the critical graph the greatest common divisor of the tokens of its
/// circuits, and of each input list that goes on with this ratio its `every`. Past some number
/// `x(t, k + L)` is `x(t, k)` and a step `S` with `b S = a L`. Circuits and lists that are slower
/// do not count; where the slope is 0, the dates repeat by 1. So the period of the whole net
/// divides each number that is common for every such transition, whatever its other transitions
/// do: their dates are `Never` from some number on (chapter 3).
///
/// An input lists the dates 0, 1, 5 and then comes 6 later each 3 firings; `loop` has a place back
/// to itself of 2 tokens and hold 4; `out` takes one from each at once. All go on at 2 for each
/// firing, and the dates of `out`, 0, 1, 5, 6, 8, 11, 12, 13, 17, 18, 20, 23, have the period 6:
/// neither 2, which the loop alone has, nor 3, which the input has. For a strongly connected net
/// without inputs this is `periods_divide_by_parts`.
pub fn dates_repeat_by_parts()
    ensures dates { DatesRepeatByParts }
    ensures periods { PeriodsDivideOfNets }
{
    least_datings_repeat();
}

/// In each live net there are numbers such as the laws of cyclicity ask for: where none of its places
/// has more than `m` tokens, the product of all whole numbers up to `n m + 1,000`, for `n`
/// transitions, is common by the parts at every ratio, towards each transition at every rate, and
/// for the net, whatever its ready dates, inputs and parts are (chapter 3). The least common
/// multiple is far below it. By the rule of a list none repeats more than 1,000 dates.
pub fn common_numbers_exist()
    ensures parts { CommonByPartsExist }
    ensures towards { CommonTowardsExist }
    ensures nets { CommonOfNetsExist }
{
    least_datings_repeat();
}

/// The cyclicity is by parts: a number is a multiple of the periods of all transfers of a strongly
/// connected live net, the greatest times of walks from one transition to the others, just where it
/// is, of each strong part of the critical graph, a multiple of the greatest common divisor of the
/// tokens of its circuits; so the least such numbers are one (`is`). The period of a transfer
/// divides each number that is common by parts (`divide`), and it is a multiple of the divisor of
/// the part in which its transition is, in every live net in which no circuit that leads to it is
/// above the ratio (`common`). Each transition of a live net has a transfer (`exist`) (chapter 3).
///
/// The period of a least dating may be a proper divisor of it: `loop` with a place back to itself
/// of 2 tokens and hold 4 fires at 0, 0, 4, 4, .. with the period 2, but at 0, 2, 4, 6, .. with the
/// period 1 where its second token is ready at 2. Where the ratio is 0 the periods are 1.
pub fn cyclicity_is_by_parts()
    ensures is { CyclicityIsByParts }
    ensures divide { TransfersDivideByParts }
    ensures common { TransfersAreCommon }
    ensures exist { TransfersExist }
{
    systems_settle();
}

/// Cyclicity of transfers: in a live net, with inputs and whatever parts it has, the greatest times
/// of walks from a transition `i` to a transition `t` repeat by every common multiple `L` of what
/// lies between at its rate `a / b`, the greatest ratio of a circuit that a way from `i` to `t` can
/// go round: of each strong part of the critical graph that such a way can go through, the greatest
/// common divisor of the tokens of its circuits (`repeat`). So the period of the whole transfer of
/// `i` divides each number that is common for every `t` (`periods`); and each two transitions have
/// such a rate (`rates`) (chapter 3). Circuits off the ways do not count: what the program tells of
/// transfers need not settle as late, nor repeat as seldom, as its net does.
///
/// `in` leads to `loop` with a place back to itself of 2 tokens and hold 4, and that to `out`;
/// `slow`, with a place back to itself of 3 tokens and hold 9, leads to `out` as well. The times
/// from `in` to `out` repeat by 2, at 2 for each firing; the dates of `out` by 3, at 3. Where no
/// circuit that takes time lies between, the rate is 0, and the times repeat by 1.
pub fn transfers_repeat_by_parts()
    ensures repeat { TransfersRepeatByParts }
    ensures periods { PeriodsOfTransfersDivide }
    ensures rates { RatesBetweenExist }
{
    systems_settle();
}
