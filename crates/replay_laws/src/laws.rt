//! Laws of replays. Each function does nothing; its contract is the law.

ghost use Rattle.replay_laws.specs.Calm.{SoundIsCalm};
ghost use Rattle.replay_laws.specs.One.{OneAnswer};

use replay::laws::{races_are_told, stuck_leaves_are_told};
use soundness::laws::Asks;

/// A sound program, on values on which its specification cannot fail, is answered neither `race` nor `stuck`, whatever
/// the schedule; and where it is answered `end`, the end is good.
pub fn sound_programs_are_calm<A: Asks>()
    ensures { (a : A) → SoundIsCalm (A.asked a) }
{
    races_are_told();
    stuck_leaves_are_told();
}

/// A replay of a schedule from a state has one answer, and leaves one state.
pub fn replays_have_one_answer()
    ensures { OneAnswer }
{}
