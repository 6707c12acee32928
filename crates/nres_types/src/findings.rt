//! What a walk over a specification has found so far.

ghost use Rattle.std.specs.Prelude.{◌≡◌, ◌+◌, ◌<◌, ◌≤◌, ◌∷◌, [], None, length, OnOk, IfOk};
ghost use Rattle.nres_rules.specs.Types as kinds;
ghost use Rattle.nres_rules.specs.Types.{wants, wants_known, counted, all_want, all_want_known};
ghost use Rattle.nres_types.specs.Findings.{told_of, wrongs, noted, worded, bound, bound_all, with_word, with_binders};

use crate::fault::{self, Fault};
use crate::scope::type_number;
use nres_core::{Named, Op, Place, Ty};
use std::alloc::{AllocError, Global};

/// The place of an expression's first token and its type, where it is known.
pub(crate) type Head = (Place, Option<Ty>);

/// The least refusal, the types of the names that were bound, and the operations of the words, in text order. What is not
/// known is none.
#[derive(Drop)]
pub(crate) struct Findings<'a> {
    pub(crate) refusal: Option<Fault<'a>>,
    pub(crate) binders: Vec<Option<Ty>>,
    pub(crate) words: Vec<Option<Op>>,
}

impl<'a> Findings<'a> {
    pub(crate) fn new(alloc: Global) -> Findings<'a>
        ensures { told_of result ≡ record { refusal = None; binders = []; words = [] } }
    {
        Findings {
            refusal: None,
            binders: Vec::new(alloc),
            words: Vec::new(alloc),
        }
    }

    /// Takes one more fault in, or none.
    pub(crate) fn note(&mut self, fault: Option<Fault<'a>>)
        ensures { told_of self.new ≡ noted (told_of self.old) (wrongs fault.entry) }
    {
        self.refusal = fault::least(self.refusal, fault);
    }

    /// Takes the fault of a value of another type than is wanted in, if it is one.
    pub(crate) fn expect(&mut self, place: Place, want: Ty, found: Option<Ty>)
        ensures { told_of self.new ≡ noted (told_of self.old) (wants place want found) }
    {
        self.note(fault::wants(place, want, found));
    }

    /// Takes the fault of another number than is wanted in, if it is one.
    pub(crate) fn count(&mut self, place: Place, want: usize, found: usize)
        ensures { told_of self.new ≡ noted (told_of self.old) (counted place want found) }
    {
        self.note(fault::counted(place, want, found));
    }

    /// The same for values in turn, as long as there are both a value and a type.
    pub(crate) fn expect_all(&mut self, heads: &[Head], types: &[Ty])
        ensures { told_of self.new ≡ noted (told_of self.old) (all_want heads.now types.now) }
    {
        for at in 0..heads.len().min(types.len()) {
            let (place, found) = heads[at];
            self.expect(place, types[at], found);
        }
    }

    /// The same, where the types that are wanted may be unknown.
    pub(crate) fn expect_known(&mut self, heads: &[Head], types: &[Option<Ty>])
        ensures { told_of self.new ≡ noted (told_of self.old) (all_want_known heads.now types.now) }
    {
        for at in 0..heads.len().min(types.len()) {
            let (place, found) = heads[at];
            self.note(fault::wants_known(place, types[at], found));
        }
    }

    /// One more word.
    pub(crate) fn add_word(&mut self, word: Option<Op>) -> Result<(), AllocError>
        ensures { OnOk result (told_of self.new ≡ worded (told_of self.old) word) }
    {
        self.words.push(word)?;
        Ok(())
    }

    /// One more name that is bound.
    pub(crate) fn add_binder(&mut self, ty: Option<Ty>) -> Result<(), AllocError>
        ensures { OnOk result (told_of self.new ≡ bound (told_of self.old) ty) }
    {
        self.binders.push(ty)?;
        Ok(())
    }

    /// Sets a word that was added.
    pub(crate) fn set_word(&mut self, at: usize, word: Option<Op>)
        requires { at < length self.old.words.items }
        ensures { told_of self.new ≡ with_word (told_of self.old) at word }
    {
        self.words[at] = word;
    }

    /// The names of a pattern are bound. The type of a name with none beside it is not known.
    pub(crate) fn add_binders(
        &mut self,
        names: &[Named],
        types: &[Option<Ty>],
    ) -> Result<(), AllocError>
        ensures { OnOk result (told_of self.new ≡ bound_all (told_of self.old) (kinds.types_for names.now types.now)) }
    {
        for at in 0..names.len() {
            self.binders.push(type_number(types, at))?;
        }
        Ok(())
    }

    /// Sets the types of names whose places were kept.
    pub(crate) fn set_binders(&mut self, at: usize, names: &[Named], types: &[Option<Ty>])
        requires { at + length names.now ≤ length self.old.binders.items }
        ensures { told_of self.new ≡ with_binders (told_of self.old) at (kinds.types_for names.now types.now) }
    {
        for index in 0..names.len() {
            self.binders[at + index] = type_number(types, index);
        }
    }
}
