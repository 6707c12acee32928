//! Laws of forks. Their functions do nothing; what they ensure is the law.

ghost use Rattle.rule_forks.specs.Laws.{ParSteps, SplitSteps};

/// The check of `par` goes by its branches.
pub fn par_steps()
    ensures { ParSteps }
{}

/// The check of `split` goes by its branches.
pub fn split_steps()
    ensures { SplitSteps }
{}
