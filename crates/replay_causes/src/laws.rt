//! Laws of inputs of `replay`. Each function does nothing; its contract is the law.

ghost use Rattle.replay_causes.specs.Causes.{OneCause, SoundIsTold};

use replay::laws::{schedules_are_not_refused, texts_tell_schedules_apart};
use replay_laws::laws::{replays_have_one_answer, sound_programs_are_calm};
use soundness::laws::Asks;

/// An input of `replay` whose program is sound, with values on which its specification cannot fail, is answered neither
/// `race` nor `stuck`.
pub fn sound_replays_are_calm<A: Asks>()
    ensures { (a : A) → SoundIsTold (A.asked a) }
{
    sound_programs_are_calm::<A>();
}

/// An input has one cause, with one line of the input or one place that it tells; only which values results represent is
/// left open.
pub fn an_input_has_one_cause()
    ensures { OneCause }
{
    texts_tell_schedules_apart();
    schedules_are_not_refused();
    replays_have_one_answer();
}
