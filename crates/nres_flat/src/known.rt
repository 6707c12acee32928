//! What names stand for.

ghost use Rattle.std.specs.Prelude.{◌≡◌, OnOk, IfOk};
ghost use Rattle.nres_rules.specs.Flatten.{arg_of, scoped};
ghost use Rattle.nres_flat.specs.Lookups.{arg_number as arg_at_number, number_in, numbered};

use crate::names::number;
use nres_core::{Arg, IdFun, Named};
use scopes::Scope;
use std::alloc::{AllocError, Global};

/// What a name in scope stands for; a typed tree uses no other name.
pub fn arg_at(scope: &Scope<Arg>, name: &[u8]) -> Arg
    ensures { result ≡ arg_of scope.now name.now }
{
    match scope.find(name) {
        Some(arg) => arg,
        None => Arg::Num(0),
    }
}

/// Each name of a pattern stands for its argument.
pub fn bind_all<'a>(
    scope: &mut Scope<'a, Arg>,
    names: &'a [Named],
    args: &[Arg],
) -> Result<(), AllocError>
    ensures { OnOk result (scope.new ≡ scoped names.now args.now scope.old) }
{
    'each: for at in 0..names.len() {
        scope.bind(names[at].name.bytes(), arg_number(args, at))?;
    }
    Ok(())
}

/// The argument at a place of a list; in a typed tree there is one for each name.
fn arg_number(args: &[Arg], at: usize) -> Arg
    ensures { result ≡ arg_at_number args.now at }
{
    match args.get(at) {
        Some(arg) => *arg,
        None => Arg::Num(0),
    }
}

/// The procedures with their numbers in the order of the text; of two with one name the first counts. There is no memory for more
/// procedures than 32 bits count.
pub fn procedures(alloc: Global, funs: &[IdFun]) -> Result<Scope<u32>, AllocError>
    ensures { IfOk result (λ s. s ≡ numbered funs.now 0) }
{
    let mut numbers = Scope::new(alloc);
    'each: for made in 0..funs.len() {
        let at = funs.len() - 1 - made;
        numbers.bind(funs[at].name.bytes(), number(at)?)?;
    }
    Ok(numbers)
}

/// The number of a procedure; a typed tree calls no other.
pub fn number_of(procedures: &Scope<u32>, name: &[u8]) -> Result<u32, AllocError>
    ensures { IfOk result (λ n. n ≡ number_in procedures.now name.now) }
{
    match procedures.find(name) {
        Some(number) => Ok(number),
        None => number(procedures.len()),
    }
}
