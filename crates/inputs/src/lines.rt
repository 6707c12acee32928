//! The lines that give values, taken in order.

ghost use Rattle.std.specs.Prelude.{◌≡◌, ◌∷◌, ◌++◌, [], IfOk, OnOk};
ghost use Rattle.inputs.specs.Inputs as rules;
ghost use Rattle.inputs.specs.Inputs.{Tells};
ghost use Rattle.inputs.specs.Kept.{asked, seen, seen_of};

use crate::fault::fault_of;
use crate::refusal::{InputFault, InputRefusal};
use crate::wanted::{Need, Wanted, of_fitting_params, of_params, of_program};
use nres_core::{Param, Value, With};
use scopes::Scope;
use sqlite_items::Items;
use std::alloc::{AllocError, Global};
use target_code::InParam;

/// The values that lines give to parameters, in the order of the parameters. Lines are taken in order: each names a parameter, for
/// the first time, with a value of its type, or is refused; then the first parameter without a line is. The time is near linear.
pub fn inputs<'a>(
    alloc: Global,
    params: &'a [Param],
    lines: &'a [With],
) -> Result<Items<Value>, InputRefusal<'a>>
    ensures { Tells result (rules.inputs params.now lines.now) }
{
    let wanted = of_params(alloc, params)?;
    given(alloc, wanted.as_slice(), lines)
}

/// The same where the values are to lie in the parameters' representations: a line is also refused, behind all else, where an element
/// or a key is not below the representation's bound; the least such is told.
pub fn fitting_inputs<'a>(
    alloc: Global,
    params: &'a [Param],
    lines: &'a [With],
) -> Result<Items<Value>, InputRefusal<'a>>
    ensures { Tells result (rules.fitting_inputs params.now lines.now) }
{
    let wanted = of_fitting_params(alloc, params)?;
    given(alloc, wanted.as_slice(), lines)
}

/// The same for the inputs of a program, whose types are those of their representations.
pub fn program_inputs<'a>(
    alloc: Global,
    ins: &'a [InParam],
    lines: &'a [With],
) -> Result<Items<Value>, InputRefusal<'a>>
    ensures { Tells result (rules.program_inputs ins.now lines.now) }
{
    let wanted = of_program(alloc, ins)?;
    given(alloc, wanted.as_slice(), lines)
}

/// The values that lines give to wanted names, in the order of the names.
fn given<'a>(
    alloc: Global,
    wanted: &[Wanted<'a>],
    lines: &'a [With],
) -> Result<Items<Value>, InputRefusal<'a>>
    ensures { Tells result (rules.given (asked wanted.now) lines.now) }
{
    let needs = needs_of(alloc, wanted)?;
    let values = taken(alloc, &needs, lines)?;
    chosen(alloc, wanted, &values)
}

/// Names with what their values have to be. Of those with one name the first is found.
fn needs_of<'a>(alloc: Global, wanted: &[Wanted<'a>]) -> Result<Scope<'a, Need>, AllocError>
    ensures { IfOk result (λ needs. needs ≡ asked wanted.now) }
{
    let mut needs = Scope::new(alloc);
    let mut at = wanted.len();
    while at > 0 {
        at -= 1;
        needs.bind(wanted[at].name.bytes(), wanted[at].need)?;
    }
    Ok(needs)
}

/// The names of lines with their values, the last in front, or the first line that is refused.
fn taken<'a>(
    alloc: Global,
    needs: &Scope<'a, Need>,
    lines: &'a [With],
) -> Result<Scope<'a, &'a Value>, InputRefusal<'a>>
    ensures { Tells (seen_of result) (rules.taken needs.now [] lines.now) }
{
    let mut given = Scope::new(alloc);
    for line in lines {
        let name = line.name.bytes();
        let is_given = given.find(name).is_some();
        if let Some(fault) = fault_of(needs.find(name), is_given, &line.value)? {
            return Err(InputRefusal::Refused {
                name: &line.name,
                fault,
            });
        }
        given.bind(name, &line.value)?;
    }
    Ok(given)
}

fn push_shared(values: &mut Vec<Value>, value: &Value) -> Result<(), AllocError>
    ensures { OnOk result (values.new.items ≡ values.old.items ++ value.now ∷ []) }
{
    values.push(value.share()?)?;
    Ok(())
}

/// The value of each wanted name, in order, or the first name without one.
fn chosen<'a>(
    alloc: Global,
    wanted: &[Wanted<'a>],
    given: &Scope<'a, &'a Value>,
) -> Result<Items<Value>, InputRefusal<'a>>
    ensures { Tells result (rules.chosen (seen given.now) (asked wanted.now)) }
{
    let mut values = Vec::new(alloc);
    for want in wanted {
        let Some(value) = given.find(want.name.bytes()) else {
            return Err(InputRefusal::Refused {
                name: want.name,
                fault: InputFault::Missing,
            });
        };
        push_shared(&mut values, value)?;
    }
    Ok(Items::from_vec(values))
}
