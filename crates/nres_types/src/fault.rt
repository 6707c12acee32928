//! Broken rules, with names that stand in the tree.

ghost use Rattle.std.specs.Prelude.{◌≡◌, Some};
ghost use Rattle.nres_rules.specs.Types.{place_of, stands_before, same_type, wants, wants_known, counted};
ghost use Rattle.nres_rules.specs.Types as types;
ghost use Rattle.nres_types.specs.Findings.{wrong_of, wrongs};
ghost use Rattle.nres_types.specs.Wholes.{IsTold};

use crate::refusal::TypeRefusal;
use nres_core::{Place, Ty};
use std::alloc::Global;
use target_code::{Name, Rep};

/// A broken rule.
#[derive(Clone, Copy)]
pub(crate) enum Fault<'a> {
    /// A name that nothing bound.
    Unbound {
        place: Place,
        name: &'a [u8],
    },
    /// One type is wanted, and another is found.
    Mismatch {
        place: Place,
        want: Ty,
        found: Ty,
    },
    /// So many are wanted, and so many found.
    Arity {
        place: Place,
        want: usize,
        found: usize,
    },
    /// A word has no operation on this type.
    NoOperation {
        place: Place,
        word: &'a [u8],
        found: Ty,
    },
    /// A name stands a second time.
    Duplicate {
        place: Place,
        name: &'a [u8],
    },
    /// A representation is of another type.
    OtherRep {
        place: Place,
        rep: Rep,
    },
}

impl<'a> Fault<'a> {
    fn place(self) -> Place
        ensures { result ≡ place_of (wrong_of self.entry) }
    {
        match self {
            Fault::Unbound { place, .. }
            | Fault::Mismatch { place, .. }
            | Fault::Arity { place, .. }
            | Fault::NoOperation { place, .. }
            | Fault::Duplicate { place, .. }
            | Fault::OtherRep { place, .. } => place,
        }
    }
}

fn stands_before(first: Place, second: Place) -> bool
    ensures { result ≡ stands_before first second }
{
    first.line < second.line || (first.line == second.line && first.column < second.column)
}

/// The earlier of two faults; the first at one place.
pub(crate) fn least<'a>(first: Option<Fault<'a>>, second: Option<Fault<'a>>) -> Option<Fault<'a>>
    ensures { wrongs result ≡ types.least (wrongs first.entry) (wrongs second.entry) }
{
    match (first, second) {
        (None, other) => other,
        (one, None) => one,
        (Some(one), Some(other)) => {
            if stands_before(other.place(), one.place()) {
                Some(other)
            } else {
                Some(one)
            }
        }
    }
}

pub(crate) fn same_type(one: Ty, other: Ty) -> bool
    ensures { result ≡ same_type one other }
{
    matches!(
        (one, other),
        (Ty::Nat, Ty::Nat)
            | (Ty::Bool, Ty::Bool)
            | (Ty::List, Ty::List)
            | (Ty::Set, Ty::Set)
            | (Ty::Map, Ty::Map)
            | (Ty::Bag, Ty::Bag)
    )
}

/// The fault of a value whose type is not the one that is wanted. An unknown type is never wrong.
pub(crate) fn wants<'a>(place: Place, want: Ty, found: Option<Ty>) -> Option<Fault<'a>>
    ensures { wrongs result ≡ wants place want found }
{
    match found {
        Some(found) if !same_type(want, found) => Some(Fault::Mismatch { place, want, found }),
        _ => None,
    }
}

/// The same, where the type that is wanted may be unknown.
pub(crate) fn wants_known<'a>(
    place: Place,
    want: Option<Ty>,
    found: Option<Ty>,
) -> Option<Fault<'a>>
    ensures { wrongs result ≡ wants_known place want found }
{
    match want {
        Some(want) => wants(place, want, found),
        None => None,
    }
}

/// The fault of another number than is wanted.
pub(crate) fn counted<'a>(place: Place, want: usize, found: usize) -> Option<Fault<'a>>
    ensures { wrongs result ≡ counted place want found }
{
    if want == found {
        None
    } else {
        Some(Fault::Arity { place, want, found })
    }
}

impl Fault<'_> {
    /// The refusal that tells of it, if there is memory.
    pub(crate) fn into_refusal(self, alloc: Global) -> TypeRefusal
        ensures { IsTold result (Some (wrong_of self.entry)) }
    {
        match self {
            Fault::Unbound { place, name } => match Name::new(alloc, name) {
                Ok(name) => TypeRefusal::Unbound { place, name },
                Err(_) => TypeRefusal::Memory,
            },
            Fault::Mismatch { place, want, found } => TypeRefusal::Mismatch { place, want, found },
            Fault::Arity { place, want, found } => arity(place, want, found),
            Fault::NoOperation { place, word, found } => match Name::new(alloc, word) {
                Ok(word) => TypeRefusal::NoOperation { place, word, found },
                Err(_) => TypeRefusal::Memory,
            },
            Fault::Duplicate { place, name } => match Name::new(alloc, name) {
                Ok(name) => TypeRefusal::Duplicate { place, name },
                Err(_) => TypeRefusal::Memory,
            },
            Fault::OtherRep { place, rep } => TypeRefusal::OtherRep { place, rep },
        }
    }
}

fn arity(place: Place, want: usize, found: usize) -> TypeRefusal
    ensures { IsTold result (Some (types.Arity place want found)) }
{
    match (u32::try_from(want), u32::try_from(found)) {
        (Ok(want), Ok(found)) => TypeRefusal::Arity { place, want, found },
        _ => TypeRefusal::Memory,
    }
}
