//! Laws of replay. Each function does nothing; its contract is the law.

ghost use Rattle.replay.specs.Facts.{RacesAreTold, StuckAreTold, ToldAreStuck, TextsApart, NoneRefused};
ghost use Rattle.replay.specs.Samples.{SchedulesSeen, TextsSeen};

/// Small schedules tell what they should.
pub fn schedules_seen()
    ensures { SchedulesSeen }
{}

/// Steps have the lines that they should.
pub fn texts_seen()
    ensures { TextsSeen }
{}

/// A pair of leaves that races is found in a state exactly where it has a data race.
pub fn races_are_told()
    ensures { RacesAreTold }
{}

/// A stuck leaf is found exactly where some step is stuck: where one is, a leaf is found, and the step of the leaf that is
/// found is stuck for the reason that is told.
pub fn stuck_leaves_are_told()
    ensures found { StuckAreTold }
    ensures stuck { ToldAreStuck }
{}

/// Two schedules with one text are the same.
pub fn texts_tell_schedules_apart()
    ensures { TextsApart }
{}

/// No line of the text of a schedule that is short enough is refused.
pub fn schedules_are_not_refused()
    ensures { NoneRefused }
{}
