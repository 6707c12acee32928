//! Laws of the rule check. Their functions do nothing; what they ensure is the law.

ghost use Rattle.bare_holds.specs.Laws.{AppliesSame, CallsSame, EndsAsked, EndsSame, ParsSame, RegistersKeep, SplitsSame, StartsSame};

/// An operation looks at the holds of containers alone.
pub fn applies_same()
    ensures { AppliesSame }
{}

/// So does a call.
pub fn calls_same()
    ensures { CallsSame }
{}

/// So does the end of a block.
pub fn ends_same()
    ensures { EndsSame }
{}

/// So does the start of a loop.
pub fn starts_same()
    ensures { StartsSame }
{}

/// So does a fork.
pub fn pars_same()
    ensures { ParsSame }
{}

/// So does the fork of a list.
pub fn splits_same()
    ensures { SplitsSame }
{}

/// Where a tree is followed, what comes behind the end of a block is the same.
pub fn ends_asked()
    ensures { EndsAsked }
{}

/// A row by register keeps its one argument and gives one number.
pub fn registers_keep()
    ensures { RegistersKeep }
{}
