//! The law. Its function does nothing; its contract is the law.

ghost use Rattle.prints_checked.specs.Agrees.{BindsAgree, WholesAgree};

/// What is printed for binds comes to the context that the rule check comes to, or is refused as the rule check refuses
/// it; and a specification with its procedures is refused exactly where the rule check refuses it, with the same refusal.
pub fn printing_agrees()
    ensures binds { BindsAgree }
    ensures wholes { WholesAgree }
{}
