//! Laws of calls. Their functions do nothing; what they ensure is the law.

ghost use Rattle.proc_rules.specs.Calls.{CallsRefused};

/// What a call is refused for is what the rule check refuses it for.
pub fn calls_refused()
    ensures { CallsRefused }
{}
