//! The laws of answers. They are functions that do nothing when they run: their contracts are the
//! laws.
ghost use Rattle.teg_report.specs.TextsTellAnswers.{AnswersAreRead, CertificatesAreTold, SeriesAreTold, SizesAreTold, TextsOfAnswersDiffer, TokenFreeIsTold};

/// The law that the text of an answer tells it: an answer is read back from its text, by the names
/// of the net that it is about, or of any net where it was told without one; and two answers about
/// one net that have the same text are the same. It is said of answers that are told ([`report`]
/// promises it of each answer whose text it gives): the net keeps its rules, what the answer names
/// is there, and its numbers have the bits of their types. It does nothing when it runs.
///
/// [`report`]: crate::report
pub fn answers_are_read()
    ensures read { AnswersAreRead }
    ensures differ { TextsOfAnswersDiffer }
{}

/// The law of answers that are told by what is known of them: the size of a net, a circuit without
/// tokens, cycle times that are a certificate with a best part, and a series. It does nothing when
/// it runs.
pub fn answers_are_told()
    ensures sizes { SizesAreTold }
    ensures circuits { TokenFreeIsTold }
    ensures certificates { CertificatesAreTold }
    ensures series { SeriesAreTold }
{}
