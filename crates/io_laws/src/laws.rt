//! The law of input and output. It is a function that does nothing when it runs: its contract is
//! the law.
ghost use Rattle.io_laws.specs.InputOutput.{DatesAreOutputs, DatesAreOutputsOfTransfers};

/// Input and output, y = H u: in a live net, under any releases, the least date of firing k of a
/// transition is the latest of its date without releases and, over the inputs and their firings j
/// up to k, of the release and the transfer time over k - j further numbers, from the first firing
/// of the input on; and the transfer of the input, a settled form, tells these times (chapters 2
/// and 5). Firings of an input with a later number count for nothing: a walk never goes back in
/// number. Liveness is asked for by the proof alone, which makes each date by a walk.
pub fn dates_are_outputs()
    ensures walks { DatesAreOutputs }
    ensures transfers { DatesAreOutputsOfTransfers }
{}
