//! The law. Its function does nothing; what it ensures is the law.

ghost use Rattle.same_procs.specs.Same.{EqualsAreTold};

/// Two procedures pass the test exactly where they are equal.
pub fn equal_procedures_are_told()
    ensures { EqualsAreTold }
{}
