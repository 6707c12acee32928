//! Bodies without a block.

ghost use Rattle.std.specs.Prelude.{◌≡◌, ℕ, List, length, IfOk};
ghost use Rattle.nres_core.specs.FlatTree.{binds_of};
ghost use Rattle.nres_rules.specs.Flatten.{first_name};
ghost use Rattle.nres_core.specs.declared.identified.IdBody.TheVariants as bodies;
ghost use Rattle.nres_flat.specs.Adding.{named, AddsBody};

use crate::expr::expr;
use crate::names::{Names, outs};
use nres_core::{Arg, FlatBind, IdExpr, Named, Op, Place};
use scopes::Scope;
use sqlite_items::Items;
use std::alloc::{AllocError, Global};
use target_code::Name;

/// The first name of a pattern.
fn first(pattern: &[Named]) -> Option<&Name>
    ensures { named result ≡ first_name pattern.now }
{
    match pattern {
        [first, ..] => Some(&first.name),
        [] => None,
    }
}

/// The value of an expression, which gets the first name of the pattern.
pub fn value(
    alloc: Global,
    tree: &IdExpr,
    pattern: &[Named],
    scope: &Scope<Arg>,
    names: &mut Names,
    binds: &mut Items<FlatBind>,
) -> Result<Items<Arg>, AllocError>
    ensures { (number : List ℕ → ℕ) → IfOk result (λ us. AddsBody number (bodies.Value tree.now) scope.now pattern.now us (binds_of binds.old) (binds_of binds.new) names.old names.new) }
{
    let arg = expr(alloc, tree, first(pattern), scope, names, binds)?;
    Items::from_slice(alloc, &[arg])
}

/// An element of a container, and the container without it.
pub fn take(
    alloc: Global,
    place: Place,
    word: Op,
    tree: &IdExpr,
    pattern: &[Named],
    scope: &Scope<Arg>,
    names: &mut Names,
    binds: &mut Items<FlatBind>,
) -> Result<Items<Arg>, AllocError>
    ensures { (number : List ℕ → ℕ) → IfOk result (λ us. AddsBody number (bodies.Take place word tree.now) scope.now pattern.now us (binds_of binds.old) (binds_of binds.new) names.old names.new) }
{
    let arg = expr(alloc, tree, None, scope, names, binds)?;
    let args = Items::from_slice(alloc, &[arg])?;
    let (outs, results) = outs(alloc, pattern, names)?;
    binds.push(FlatBind::Apply {
        place,
        outs,
        op: word,
        made: None,
        args,
    })?;
    Ok(results)
}

/// Any number between two, which gets the first name of the pattern.
pub fn any(
    alloc: Global,
    place: Place,
    low: &IdExpr,
    high: &IdExpr,
    pattern: &[Named],
    scope: &Scope<Arg>,
    names: &mut Names,
    binds: &mut Items<FlatBind>,
) -> Result<Items<Arg>, AllocError>
    ensures { (number : List ℕ → ℕ) → IfOk result (λ us. AddsBody number (bodies.Any place low.now high.now) scope.now pattern.now us (binds_of binds.old) (binds_of binds.new) names.old names.new) }
{
    let low = expr(alloc, low, None, scope, names, binds)?;
    let high = expr(alloc, high, None, scope, names, binds)?;
    let out = names.bind(alloc, first(pattern))?;
    let results = Items::from_slice(alloc, &[Arg::Var(out)])?;
    binds.push(FlatBind::Any {
        place,
        out,
        low,
        high,
    })?;
    Ok(results)
}
