//! Patterns of names.

ghost use Rattle.std.specs.Prelude.{◌≡◌, [], Some, None, true, cond, IfOk, OnOk};
ghost use Rattle.indexmap.specs.IndexSet.{contains, Updates};
ghost use Rattle.nres_core.specs.Mirror.{named_params};
ghost use Rattle.nres_core.specs.Tree.{same_name};
ghost use Rattle.nres_rules.specs.Types as types;
ghost use Rattle.nres_types.specs.Findings.{wrongs};

use crate::fault::{Fault, wants};
use crate::scope::Scope;
use indexmap::IndexSet;
use nres_core::{Named, Param, Place, Ty};
use std::alloc::{AllocError, Global};

/// The fault of the first name of a pattern that stood in it before.
pub(crate) fn twice<'a>(alloc: Global, names: &'a [Named]) -> Result<Option<Fault<'a>>, AllocError>
    ensures { IfOk result (λ fault. wrongs fault ≡ types.twice [] names.now) }
{
    let mut seen = IndexSet::new(alloc);
    for named in names {
        let name = named.name.bytes();
        if !seen.insert(name)? {
            return Ok(Some(Fault::Duplicate {
                place: named.place,
                name,
            }));
        }
    }
    Ok(None)
}

/// The fault of a name that is used at a type, where it is not bound, or bound to another type.
pub(crate) fn name_wants<'a>(scope: &Scope<'_>, named: &'a Named, want: Ty) -> Option<Fault<'a>>
    ensures { wrongs result ≡ types.name_wants scope.now named.now want }
{
    let name = named.name.bytes();
    match scope.find(name) {
        Some(found) => wants(named.place, want, found),
        None => Some(Fault::Unbound {
            place: named.place,
            name,
        }),
    }
}

/// The fault of a name that was seen before. It is seen from now on.
pub(crate) fn again<'a>(
    seen: &mut IndexSet<&'a [u8]>,
    place: Place,
    name: &'a [u8],
) -> Result<Option<Fault<'a>>, AllocError>
    ensures fault { IfOk result (λ fault. wrongs fault ≡ cond (contains (λ x y. same_name x.now y.now) seen.old name.entry) (Some (types.Duplicate place name.now)) None) }
    ensures seen { OnOk result (Updates (λ x y. same_name x.now y.now) seen.old seen.new name.entry true) }
{
    if seen.insert(name)? {
        Ok(None)
    } else {
        Ok(Some(Fault::Duplicate { place, name }))
    }
}

/// The fault of the first parameter whose name another had before.
pub(crate) fn twice_params<'a>(
    alloc: Global,
    params: &'a [Param],
) -> Result<Option<Fault<'a>>, AllocError>
    ensures { IfOk result (λ fault. wrongs fault ≡ types.twice [] (named_params params.now)) }
{
    let mut seen = IndexSet::new(alloc);
    for param in params {
        let fault = again(&mut seen, param.place, param.name.bytes())?;
        if fault.is_some() {
            return Ok(fault);
        }
    }
    Ok(None)
}
