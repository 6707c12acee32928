//! Entries of variables.

ghost use Rattle.std.specs.Prelude.{◌≡◌, ◌&&◌, cond};
ghost use Rattle.context_laws.specs.Stacks.{is_free, lent_one};
ghost use Rattle.ownership.specs.Entries.{spot_of, shape_of, hold_of};
ghost use Rattle.rule_check.specs.Context as d;

use nres_core::Arg;
use target_code::Rep;

/// Whether a container may be used up.
#[derive(Clone, Copy, PartialEq, Eq)]
pub enum Hold {
    /// It may.
    Owned,
    /// It must stay.
    Kept,
    /// It was used up.
    Gone,
}

/// What is known of a variable. The tag of a slice is the number of the variable that was its list's part first; it is 0 for all else.
#[derive(Clone, Copy)]
pub struct Entry {
    /// The variable.
    pub var: u32,
    /// What it is in.
    pub rep: Rep,
    /// How it is held.
    pub hold: Hold,
    /// The tag.
    pub tag: u32,
}

impl Entry {
    /// Whether it is an owned container.
    pub fn is_free(&self) -> bool
        ensures { result ≡ is_free (spot_of self.now) }
    {
        matches!(self.hold, Hold::Owned) && is_container(self.rep)
    }

    /// A new entry.
    pub fn owned(var: u32, shape: Shape) -> Entry
        ensures { spot_of result ≡ record { var = var; rep = shape.rep; hold = d.Owned; tag = shape.tag } }
    {
        Entry {
            var,
            rep: shape.rep,
            hold: Hold::Owned,
            tag: shape.tag,
        }
    }

    /// What it is in.
    pub fn shape(&self) -> Shape
        ensures { shape_of result ≡ d.shape_of (spot_of self.now) }
    {
        Shape {
            rep: self.rep,
            tag: self.tag,
        }
    }

    /// Whether it is a container that is gone.
    pub fn is_gone(&self) -> bool
        ensures { result ≡ (d.is_container self.now.rep && d.is_gone (hold_of self.now.hold)) }
    {
        is_container(self.rep) && matches!(self.hold, Hold::Gone)
    }

    /// Whether it is a container that must stay.
    pub fn is_kept(&self) -> bool
        ensures { result ≡ (d.is_container self.now.rep && d.is_kept (hold_of self.now.hold)) }
    {
        is_container(self.rep) && matches!(self.hold, Hold::Kept)
    }

    /// Whether it is an owned slice.
    pub fn is_owned_slice(&self) -> bool
        ensures { result ≡ (d.is_slice self.now.rep && d.is_owned (hold_of self.now.hold)) }
    {
        matches!(self.rep, Rep::Slice) && matches!(self.hold, Hold::Owned)
    }

    /// The same, kept where it is lent and may be used up.
    pub fn lent(self, is_lent: bool) -> Entry
        ensures { spot_of result ≡ cond is_lent (lent_one (spot_of self)) (spot_of self) }
    {
        if is_lent && self.is_free() {
            self.held_as(Hold::Kept)
        } else {
            self
        }
    }

    /// The same, held otherwise.
    pub fn held_as(self, hold: Hold) -> Entry
        ensures { spot_of result ≡ record (spot_of self) { hold = hold_of hold } }
    {
        Entry {
            var: self.var,
            rep: self.rep,
            hold,
            tag: self.tag,
        }
    }
}

/// Whether values in a representation are containers.
pub fn is_container(rep: Rep) -> bool
    ensures { result ≡ d.is_container rep }
{
    !matches!(rep, Rep::Word | Rep::Flag)
}

/// What a result is in.
#[derive(Clone, Copy)]
pub struct Shape {
    /// The representation.
    pub rep: Rep,
    /// The tag.
    pub tag: u32,
}

/// Why a step is refused. Variables are named by their numbers.
#[derive(Clone, Copy)]
pub enum Fault {
    /// No row fits the arguments.
    Missing,
    /// A container was used up before.
    Gone(u32),
    /// A container that must stay is used up here.
    Held(u32),
    /// A container is used up that the same bind uses once more.
    Twice(u32),
    /// A number is not known to be below the bound.
    Fact(Arg, u32),
    /// A container is used up on one of two sides alone.
    Meet(u32),
    /// A slice does not come back in its place.
    Tag(u32),
    /// The result of this number, counted from 1, has another representation than is wanted.
    Result(u32),
}
