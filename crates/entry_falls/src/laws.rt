//! The law. Its function does nothing; what it ensures is the law.

ghost use Rattle.entry_falls.specs.Falls.{StepsFall};

/// Each step on a context leaves every entry from before as it was, or Gone where it was an Owned container.
pub fn steps_fall()
    ensures { StepsFall }
{}
