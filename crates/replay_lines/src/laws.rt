//! Samples of the definitions. Each function does nothing; its contract is what the samples show.

ghost use Rattle.replay_lines.specs.Samples.{LinesSeen, PartsSeen};

/// Small inputs have the parts that they should.
pub fn parts_seen()
    ensures { PartsSeen }
{}

/// Answers have the lines that they should.
pub fn lines_seen()
    ensures { LinesSeen }
{}
