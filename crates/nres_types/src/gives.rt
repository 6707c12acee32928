//! The types of a body's results.

ghost use Rattle.std.specs.Prelude.{◌≡◌, ◌++◌, ◌∷◌, [], drop, IfOk, OnOk, IfSome};
ghost use Rattle.nres_rules.specs.Types as kinds;
ghost use Rattle.nres_types.specs.Findings.{wrongs};
ghost use Rattle.nres_types.specs.Bodies.{gives_of};

use crate::fault::{Fault, counted};
use crate::findings::Head;
use nres_core::{Place, Ty};
use std::alloc::{AllocError, Global};

/// The types of a body's results, where their number is known.
#[derive(Drop)]
pub(crate) enum Gives<'p> {
    /// Those of no procedure.
    Unknown,
    /// Those of a procedure.
    Of(&'p [Option<Ty>]),
    /// Others.
    Own(Vec<Option<Ty>>),
}

impl<'p> Gives<'p> {
    /// The types, none where not even their number is known.
    pub(crate) fn types(&self) -> &[Option<Ty>]
        ensures { result.now ≡ kinds.known_types (gives_of self.now) }
    {
        match self {
            Gives::Unknown => &[],
            Gives::Of(types) => *types,
            Gives::Own(types) => types.as_slice(),
        }
    }

    /// The fault of a pattern of another number of names.
    pub(crate) fn pattern_counts<'a>(&self, place: Place, found: usize) -> Option<Fault<'a>>
        ensures { wrongs result ≡ kinds.pattern_counts place (gives_of self.now) found }
    {
        match self {
            Gives::Unknown => None,
            Gives::Of(types) => counted(place, types.len(), found),
            Gives::Own(types) => counted(place, types.len(), found),
        }
    }
}

/// Adds the types behind the first so many.
pub(crate) fn add_types(
    types: &mut Vec<Option<Ty>>,
    heads: &[Head],
    from: usize,
) -> Result<(), AllocError>
    ensures { OnOk result (types.new.items ≡ types.old.items ++ drop from (kinds.types_of heads.now)) }
{
    for at in from..heads.len() {
        types.push(heads[at].1)?;
    }
    Ok(())
}

/// The types of several expressions.
pub(crate) fn types_of(alloc: Global, heads: &[Head]) -> Result<Vec<Option<Ty>>, AllocError>
    ensures { IfOk result (λ us. us.items ≡ kinds.types_of heads.now) }
{
    let mut types = Vec::new(alloc);
    add_types(&mut types, heads, 0)?;
    Ok(types)
}
