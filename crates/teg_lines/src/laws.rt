//! The laws of these texts. They are functions that do nothing when they run: their contracts are
//! the laws.
ghost use Rattle.teg_lines.specs.LinesTellBack.{CertificatesCanBeTold, CycleTimesAreRead, TokenFreeCircuitsAreRead};

/// The law that what these texts tell is read back from them by the names of the net: cycle times,
/// with rounds or without, and the places of a circuit without tokens. So texts that tell different
/// things of one net differ. It does nothing when it runs.
pub fn lines_tell_back()
    ensures times { CycleTimesAreRead }
    ensures circuits { TokenFreeCircuitsAreRead }
{}

/// The law that cycle times which are a certificate with a best part can be told, as [`cycle_text`]
/// asks. It does nothing when it runs.
///
/// [`cycle_text`]: crate::cycle_text
pub fn certificates_can_be_told()
    ensures { CertificatesCanBeTold }
{}
