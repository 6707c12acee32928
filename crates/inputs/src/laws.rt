//! Laws of inputs. Their functions do nothing; what they ensure is the law.

ghost use Rattle.inputs.specs.Samples.{InputsSeen};

/// Small inputs have the values, or the first fault, that they should.
pub fn inputs_seen()
    ensures { InputsSeen }
{}
