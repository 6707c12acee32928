//! Laws of derivations as text.

ghost use Rattle.proof_text.specs.Readings.{PrintedIsRead, OneReading};

/// What is printed of a derivation without a line that is `Other` is read as that derivation, and as no other.
pub fn what_is_printed_is_read()
    ensures { PrintedIsRead }
{}

/// A text is read as at most one derivation.
pub fn each_text_has_one_reading()
    ensures { OneReading }
{}
