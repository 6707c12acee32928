//! Laws of the rule check. Their functions do nothing; what they ensure is the law.

ghost use Rattle.check_laws.specs.Alike.{AlikeChecks};

/// Of facts a check sees only what they tell, and so of calculations: contexts that are alike get the same answer.
pub fn alike_checks()
    ensures { AlikeChecks }
{}
