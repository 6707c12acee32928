//! Copies of names, parameters and what is shown.

ghost use Rattle.std.specs.Prelude.{◌≡◌, IfOk};

use nres_core::{Named, Param};
use sqlite_items::Items;
use std::alloc::{AllocError, Global};

/// The same name at the same place.
pub fn named(alloc: Global, name: &Named) -> Result<Named, AllocError>
    ensures { IfOk result (λ same. same ≡ name.now) }
{
    Ok(Named {
        name: name.name.copy(alloc)?,
        place: name.place,
    })
}

/// The same names.
pub fn names(alloc: Global, list: &[Named]) -> Result<Items<Named>, AllocError>
    ensures { IfOk result (λ same. same ≡ list.now) }
{
    let mut same = Items::new(alloc);
    'each: for item in list {
        same.push(named(alloc, item)?)?;
    }
    Ok(same)
}

/// The same parameter.
fn param(alloc: Global, param: &Param) -> Result<Param, AllocError>
    ensures { IfOk result (λ same. same ≡ param.now) }
{
    Ok(Param {
        name: param.name.copy(alloc)?,
        place: param.place,
        ty: param.ty,
        rep: param.rep,
        rep_place: param.rep_place,
        kept: param.kept,
    })
}

/// The same parameters.
pub fn params(alloc: Global, list: &[Param]) -> Result<Items<Param>, AllocError>
    ensures { IfOk result (λ same. same ≡ list.now) }
{
    let mut same = Items::new(alloc);
    'each: for item in list {
        same.push(param(alloc, item)?)?;
    }
    Ok(same)
}
