//! The calculations of a list of binds.

ghost use Rattle.std.specs.Prelude.{◌≡◌, ◌-◌, ◌∷◌, ◌++◌, [], length, drop, MatchOption, OnOk, OnErr};
ghost use Rattle.nres_rules.specs.Types.{stands_before};
ghost use Rattle.facts.specs.Stacks.{def_of, defs_of, AllCover, Covers};

use nres_core::{Arg, Place};
use std::alloc::{AllocError, Global};
use std::marker::Model;
use target_code::Calc;

/// A calculation of a list of binds.
#[derive(Clone, Copy)]
pub struct Calculation {
    /// The place of the bind.
    pub place: Place,
    /// The variable of its result.
    pub to: u32,
    /// What is calculated.
    pub word: Calc,
    /// Of what.
    pub left: Arg,
    /// And of what.
    pub right: Arg,
}

/// A calculation, with the latest place of those up to it.
#[derive(Clone, Copy)]
pub(crate) struct Kept {
    pub(crate) calculation: Calculation,
    pub(crate) latest: Place,
}

/// The calculations of the lists of binds that are open, seen as a list, the newest first.
#[derive(Drop)]
pub struct Calculations {
    pub(crate) list: Vec<Kept>,
}

impl Model for Calculations {
    ghost use Rattle.std.specs.Prelude.{List, []};
    ghost use Rattle.rule_check.specs.Context.{Def};

    ghost Value = { List Def };

    ghost use Rattle.facts.specs.Stacks.{defs_of, AllCover};

    ghost view = { λ s. defs_of s.list.items [] };

    ghost invariant = { λ s. AllCover s.list.items [] };
}

/// Whether a place stands before another.
pub(crate) fn stands_before(first: Place, second: Place) -> bool
    ensures { result ≡ stands_before first second }
{
    first.line < second.line || (first.line == second.line && first.column < second.column)
}

/// Those before the last, and the last.
pub(crate) fn split_last(kept: &[Kept]) -> Option<(&[Kept], &Kept)>
    ensures { MatchOption result (kept.now ≡ []) (λ found. kept.now ≡ found.0.now ++ found.1.now ∷ []) }
{
    match kept {
        [] => None,
        [before @ .., last] => Some((before, last)),
    }
}

/// The latest of the places of a calculation and of those before it.
fn latest(kept: &[Kept], calculation: Calculation) -> Place
    requires { AllCover kept.now [] }
    ensures { Covers result (def_of calculation ∷ defs_of kept.now []) }
{
    match split_last(kept) {
        None => calculation.place,
        Some((_, last)) => {
            if stands_before(calculation.place, last.latest) {
                last.latest
            } else {
                calculation.place
            }
        }
    }
}

impl Calculations {
    /// No calculation. Takes no memory.
    pub fn new(alloc: Global) -> Calculations
        ensures { result ≡ [] }
    {
        Calculations {
            list: Vec::new(alloc),
        }
    }

    /// How many there are.
    pub fn len(&self) -> usize
        ensures { result ≡ length self.now }
    {
        self.list.len()
    }

    /// Adds a calculation. Where there is no memory, the others stay.
    pub fn add(&mut self, calculation: Calculation) -> Result<(), AllocError>
        ensures added { OnOk result (self.new ≡ def_of calculation ∷ self.old) }
        ensures unchanged { OnErr result (self.new ≡ self.old) }
    {
        let latest = latest(self.list.as_slice(), calculation);
        self.list.push(Kept {
            calculation,
            latest,
        })?;
        Ok(())
    }

    /// Forgets the calculations that were added since there were so many.
    pub fn leave(&mut self, mark: usize)
        ensures { self.new ≡ drop (length self.old - mark) self.old }
    {
        self.list.truncate(mark);
    }
}
