//! The laws of texts: what is written can be read back.
ghost use Rattle.teg_text.specs.WordsOfNames.{PlacesAreRead, TransitionsAreRead};
ghost use Rattle.teg_text.specs.WordReading.{DatesAreRead, LabelsAreRead, LinesAreRead, NumbersAreRead, RatiosAreRead};

/// The law that lines of words are read back from their text. It does nothing when it runs.
pub fn lines_are_read()
    ensures { LinesAreRead }
{}

/// The law that numbers below 10^64, dates, ratios of 64 bits and labels are read back from their
/// words. It does nothing when it runs.
pub fn words_are_read()
    ensures numbers { NumbersAreRead }
    ensures dates { DatesAreRead }
    ensures ratios { RatiosAreRead }
    ensures labels { LabelsAreRead }
{}

/// The law that transitions and places of a net are read back from their names. It does nothing
/// when it runs.
pub fn names_are_read()
    ensures transitions { TransitionsAreRead }
    ensures places { PlacesAreRead }
{}
