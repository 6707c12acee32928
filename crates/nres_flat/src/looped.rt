//! Loops by a condition: what stands before the block, and the bind behind it.

ghost use Rattle.std.specs.Prelude.{◌≡◌, ◌∷◌, ◌++◌, [], length, IfOk, OnOk};
ghost use Rattle.nres_core.specs.FlatTree.{binds_of};
ghost use Rattle.nres_rules.specs.Flatten.{vars as all_vars, fresh, names_of, scoped};
ghost use Rattle.nres_core.specs.Mirror.{id_exp_of, all_id_exps};
ghost use Rattle.nres_core.specs.declared.flat.FlatBind.TheVariants as flat_binds;
ghost use Rattle.nres_flat.specs.Heads.{BeginsLoop};

use crate::expr::{alone, exprs};
use crate::known::bind_all;
use crate::names::{Names, outs};
use nres_core::{Arg, FlatBind, FlatBlock, IdExpr, Named, Place};
use scopes::Scope;
use sqlite_items::Items;
use std::alloc::{AllocError, Global};

/// What stands before the block of a loop: its starting values, its variables, and its condition.
#[derive(Drop)]
pub struct LoopHead {
    pub starts: Items<Arg>,
    pub vars: Items<u32>,
    pub cond: Items<FlatBind>,
    pub test: Arg,
}

/// The starting values, behind their binds, and the condition by itself. From here on the loop's variables are in scope.
pub fn begin_loop<'a>(
    alloc: Global,
    vars: &'a [Named],
    starts: &[IdExpr],
    test: &IdExpr,
    scope: &mut Scope<'a, Arg>,
    names: &mut Names,
    binds: &mut Items<FlatBind>,
) -> Result<LoopHead, AllocError>
    ensures head { IfOk result (λ h. BeginsLoop vars.now (all_id_exps starts.now) (id_exp_of test.now) scope.old h (binds_of binds.old) (binds_of binds.new) names.old names.new) }
    ensures scope { IfOk result (λ h. scope.new ≡ scoped vars.now (all_vars h.vars) scope.old) }
{
    let starts = exprs(alloc, starts, scope, names, binds)?;
    let (numbers, variables) = outs(alloc, vars, names)?;
    bind_all(scope, vars, variables.as_slice())?;
    let (cond, test) = alone(alloc, test, scope, names)?;
    Ok(LoopHead {
        starts,
        vars: numbers,
        cond,
        test,
    })
}

/// The bind of a loop, and what its results stand for.
pub fn end_loop(
    alloc: Global,
    place: Place,
    pattern: &[Named],
    head: LoopHead,
    body: FlatBlock,
    names: &mut Names,
    binds: &mut Items<FlatBind>,
) -> Result<Items<Arg>, AllocError>
    ensures results { IfOk result (λ us. us ≡ all_vars (fresh pattern.now (length names.old))) }
    ensures binds { OnOk result (binds.new ≡ binds.old ++ flat_binds.While place (fresh pattern.now (length names.old)) head.vars head.starts head.cond head.test body ∷ []) }
    ensures names { OnOk result (names.new ≡ names.old ++ names_of pattern.now) }
{
    match outs(alloc, pattern, names) {
        Ok((outs, results)) => {
            let LoopHead {
                starts,
                vars,
                cond,
                test,
            } = head;
            binds.push(FlatBind::While {
                place,
                outs,
                vars,
                starts,
                cond,
                test,
                body,
            })?;
            Ok(results)
        }
        Err(error) => {
            drop((head, body));
            Err(error)
        }
    }
}
