//! What the values of names have to be.

ghost use Rattle.std.specs.Prelude.{◌≡◌, IfOk};
ghost use Rattle.inputs.specs.Inputs as rules;
ghost use Rattle.inputs.specs.Kept.{asked};

use nres_core::{Param, Ty, rep_type};
use std::alloc::{AllocError, Global};
use target_code::{InParam, Name, Rep};

/// What a value has to be: of a type, and with elements or keys below a bound where there is one.
#[derive(Clone, Copy)]
pub(crate) struct Need {
    pub(crate) ty: Ty,
    pub(crate) bound: Option<u32>,
}

/// A name with what its value has to be.
#[derive(Clone, Copy)]
pub(crate) struct Wanted<'a> {
    pub(crate) name: &'a Name,
    pub(crate) need: Need,
}

/// The bound of the elements or keys of a container in a representation.
fn bound_of(rep: Rep) -> Option<u32>
    ensures { result ≡ rules.bound_of rep }
{
    match rep {
        Rep::Bits(bound) | Rep::Amap(bound) => Some(bound),
        _ => None,
    }
}

/// What the values of parameters have to be, where any elements will do.
pub(crate) fn of_params<'a>(
    alloc: Global,
    params: &'a [Param],
) -> Result<Vec<Wanted<'a>>, AllocError>
    ensures { IfOk result (λ wanted. asked wanted.items ≡ rules.by_types params.now) }
{
    let mut wanted = Vec::new(alloc);
    for param in params {
        let need = Need {
            ty: param.ty,
            bound: None,
        };
        wanted.push(Wanted {
            name: &param.name,
            need,
        })?;
    }
    Ok(wanted)
}

/// What the values of parameters have to be, where they lie in the representations.
pub(crate) fn of_fitting_params<'a>(
    alloc: Global,
    params: &'a [Param],
) -> Result<Vec<Wanted<'a>>, AllocError>
    ensures { IfOk result (λ wanted. asked wanted.items ≡ rules.by_types_and_bounds params.now) }
{
    let mut wanted = Vec::new(alloc);
    for param in params {
        let need = Need {
            ty: param.ty,
            bound: bound_of(param.rep),
        };
        wanted.push(Wanted {
            name: &param.name,
            need,
        })?;
    }
    Ok(wanted)
}

/// What the values of a program's inputs have to be.
pub(crate) fn of_program<'a>(
    alloc: Global,
    ins: &'a [InParam],
) -> Result<Vec<Wanted<'a>>, AllocError>
    ensures { IfOk result (λ wanted. asked wanted.items ≡ rules.by_representations ins.now) }
{
    let mut wanted = Vec::new(alloc);
    for input in ins {
        let need = Need {
            ty: rep_type(input.rep),
            bound: bound_of(input.rep),
        };
        wanted.push(Wanted {
            name: &input.name,
            need,
        })?;
    }
    Ok(wanted)
}
