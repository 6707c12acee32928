//! Laws of what goes and what is bound. Their functions do nothing; what they ensure is the law.

ghost use Rattle.bind_laws.specs.Laws.{BindsSeen, CallsGo, EndsGo, OperationsGo, StartsGo};

/// The containers that an operation destroys are gone in both.
pub fn operations_go()
    ensures { OperationsGo }
{}

/// So are those that a call takes over.
pub fn calls_go()
    ensures { CallsGo }
{}

/// So are the results of a block.
pub fn ends_go()
    ensures { EndsGo }
{}

/// So are the starting values of a loop.
pub fn starts_go()
    ensures { StartsGo }
{}

/// New variables are entries of both.
pub fn binds_seen()
    ensures { BindsSeen }
{}
