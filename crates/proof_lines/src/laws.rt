//! The law. Its function does nothing; what it ensures is the law.

ghost use Rattle.proof_lines.specs.Lines.{AsManyLines};

/// A derivation has as many lines to be followed as it has lines.
pub fn as_many_lines()
    ensures { AsManyLines }
{}
