//! The names in scope with their types.

ghost use Rattle.std.specs.Prelude.{◌≡◌, OnOk, slice_get};
ghost use Rattle.nres_rules.specs.Types.{with_types};
ghost use Rattle.scopes.specs.Logs.{at_last};

use nres_core::{Named, Ty};
use std::alloc::AllocError;

/// The names in scope with their types, none where a type is not known.
pub(crate) type Scope<'a> = scopes::Scope<'a, Option<Ty>>;

/// Binds the names of a pattern in turn. The type of a name with none beside it is not known.
pub(crate) fn bind_all<'a>(
    scope: &mut Scope<'a>,
    names: &'a [Named],
    types: &[Option<Ty>],
) -> Result<(), AllocError>
    ensures { OnOk result (scope.new ≡ with_types names.now types.now scope.old) }
{
    for at in 0..names.len() {
        scope.bind(names[at].name.bytes(), type_number(types, at))?;
    }
    Ok(())
}

/// The type at a place of a list, none where there is none.
pub(crate) fn type_number(types: &[Option<Ty>], at: usize) -> Option<Ty>
    ensures { result ≡ at_last (slice_get types.now at) }
{
    match types.get(at) {
        Some(ty) => *ty,
        None => None,
    }
}
