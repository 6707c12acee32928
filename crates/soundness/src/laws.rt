//! Laws of starts, ends and shapes. Their functions do nothing; what they ensure is the law.

ghost use Rattle.soundness.specs.Behaviour.{Behaviour};
ghost use Rattle.soundness.specs.Laws as laws;

/// Something that tells what is asked of a program.
pub trait Asks {
    ghost asked: { Self → Behaviour };
}

/// The smallest program has the shape of the specification `first`.
pub fn first_has_shape()
    ensures { laws.FirstHasShape }
{}

/// A program that runs two branches side by side has the shape of a `par` of both.
pub fn par_has_shape()
    ensures { laws.ParHasShape }
{}

/// A program that runs one branch after the other does not have the shape of a `par`.
pub fn sequence_is_no_par()
    ensures { laws.SequenceIsNoPar }
{}

/// A program that has the sides that are taken has the shape.
pub fn made_has_shape()
    ensures { laws.MadeHasShape }
{}

/// What the trees of choices are, also of two that stand at one place, and that a load has none.
pub fn nodes_seen()
    ensures { laws.NodesSeen }
{}

/// There is a start of `first` on the list 7, 8.
pub fn first_starts()
    ensures { laws.FirstStarts }
{}

/// There is a start on a hash table that no encoding makes: one of its states is marked gone.
pub fn gone_starts()
    ensures { laws.GoneStarts }
{}

/// In a good end each live block is held by a result or a kept input.
pub fn live_blocks_are_claimed<A: Asks>()
    ensures { (a : A) → laws.LiveBlocksAreClaimed (A.asked a) }
{}

/// In a good end every other block that was made is freed.
pub fn others_are_freed<A: Asks>()
    ensures { (a : A) → laws.OthersAreFreed (A.asked a) }
{}

/// There is a good end of `first` on the list 1, 2.
pub fn first_ends_well()
    ensures { laws.FirstEndsWell }
{}

/// An end with one more live block is not good.
pub fn extra_block_is_not_good<A: Asks>()
    ensures { (a : A) → laws.ExtraBlockIsNotGood (A.asked a) }
{}

/// There is a begin of `first` on the list 7, 8, whose block is named 1.
pub fn first_begins()
    ensures { laws.FirstBegins }
{}

/// There is one whose block has another name.
pub fn other_name_begins()
    ensures { laws.OtherNameBegins }
{}

/// What names go up from 1.
pub fn names_seen()
    ensures { laws.NamesSeen }
{}

/// No begin has a hash table one of whose states is marked gone.
pub fn gone_is_no_begin()
    ensures { laws.GoneIsNoBegin }
{}

/// A program that from every start is safe for every number of steps, with an end that is good by what the root holds, is
/// sound; and it is so from every start where it is so from the beginning of `main`, on what the inputs hold.
pub fn safe_is_sound<A: Asks>()
    ensures sound { (a : A) → laws.SafeIsSound (A.asked a) }
    ensures from_main { (a : A) → laws.SafeFromMain (A.asked a) }
{}

/// A program that from every start has a bound on its steps, with an end that is good by what the root holds, has a bound on
/// its runs from every start, whatever the schedule; a state from which it makes no step is good or full. It is enough to
/// show it from the beginning of `main`, on what the inputs hold.
pub fn bounds_hold<A: Asks>()
    ensures bounded { (a : A) → laws.BoundedEnds (A.asked a) }
    ensures from_main { (a : A) → laws.BoundedFromMain (A.asked a) }
{}

/// A program that calls itself for ever has no bound.
pub fn endless_has_no_bound<A: Asks>()
    ensures { (a : A) → laws.EndlessHasNoBound (A.asked a) }
{}

/// A program is sound, and its runs are bounded, for all that asks no more of it than that for which it is so.
pub fn less_may_be_asked<A: Asks, B: Asks>()
    ensures sound { (a : A) (b : B) → laws.SoundCarried (A.asked a) (B.asked b) }
    ensures bounded { (a : A) (b : B) → laws.BoundsCarried (A.asked a) (B.asked b) }
{}
