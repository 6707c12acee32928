//! Whole specifications.

ghost use Rattle.std.specs.Prelude.{◌≡◌, length, ◌++◌, IfOk, OnOk};
ghost use Rattle.nres_core.specs.FlatTree.{flat_proc_of, flat_procs_of, flat_whole_of, flats_of};
ghost use Rattle.nres_rules.specs.Flatten.{flat_fun, flat_funs, flat_of, fun_names, taken as inputs_of, shown_reps};
ghost use Rattle.nres_core.specs.Mirror.{id_blk_of, named_params};
ghost use Rattle.nres_flat.specs.Adding.{AddsEntered, entered_parts};
ghost use Rattle.nres_flat.specs.Lookups.{number_in};

use crate::block::block;
use crate::known::procedures;
use crate::names::Names;
use nres_core::{Arg, Flat, FlatBlock, FlatFun, IdBlock, IdFun, Identified, Param, Shown};
use scopes::Scope;
use sqlite_items::Items;
use std::alloc::{AllocError, Global};
use target_code::{InParam, Rep};

/// The flat tree of a specification. Variables are numbered through the whole text, in the order in which they are bound, and there is
/// no memory for more than 32 bits count.
pub fn flatten(alloc: Global, tree: &Identified) -> Result<Flat, AllocError>
    ensures { IfOk result (λ flat. flat_whole_of flat ≡ flat_of tree.now) }
{
    let procedures = procedures(alloc, tree.funs.as_slice())?;
    let mut names = Names::new(alloc)?;
    let list = tree.params.as_slice();
    let params = taken(alloc, list)?;
    let shown = shown(alloc, tree.shown.as_slice())?;
    let body = entered(alloc, list, &tree.body, &procedures, &mut names)?;
    match funs(alloc, tree.funs.as_slice(), &procedures, &mut names) {
        Ok(funs) => Ok(Flat {
            params,
            shown,
            body,
            names: names.into_list(),
            funs,
        }),
        Err(error) => {
            drop(body);
            Err(error)
        }
    }
}

/// The procedures, whose variables have the next numbers.
fn funs(
    alloc: Global,
    trees: &[IdFun],
    procedures: &Scope<u32>,
    names: &mut Names,
) -> Result<Items<FlatFun>, AllocError>
    ensures funs { IfOk result (λ fs. flat_procs_of fs ≡ flat_funs (number_in procedures.now) trees.now (length names.old)) }
    ensures names { OnOk result (names.new ≡ names.old ++ fun_names (number_in procedures.now) trees.now (length names.old)) }
{
    let mut flat = Items::new(alloc);
    'each: for tree in trees {
        flat.push(fun(alloc, tree, procedures, names)?)?;
    }
    Ok(flat)
}

fn fun(
    alloc: Global,
    tree: &IdFun,
    procedures: &Scope<u32>,
    names: &mut Names,
) -> Result<FlatFun, AllocError>
    ensures fun { IfOk result (λ f. flat_proc_of f ≡ flat_fun (number_in procedures.now) tree.now (length names.old)) }
    ensures names { OnOk result (AddsEntered (number_in procedures.now) tree.now.params tree.now.body names.old names.new) }
{
    let list = tree.params.as_slice();
    let name = tree.name.copy(alloc)?;
    let params = taken(alloc, list)?;
    let shown = shown(alloc, tree.shown.as_slice())?;
    let body = entered(alloc, list, &tree.body, procedures, names)?;
    Ok(FlatFun {
        name,
        params,
        shown,
        body,
    })
}

/// A block that begins with its parameters.
fn entered(
    alloc: Global,
    params: &[Param],
    tree: &IdBlock,
    procedures: &Scope<u32>,
    names: &mut Names,
) -> Result<FlatBlock, AllocError>
    ensures block { IfOk result (λ b. flats_of b ≡ entered_parts (number_in procedures.now) params.now tree.now (length names.old)) }
    ensures names { OnOk result (AddsEntered (number_in procedures.now) params.now tree.now names.old names.new) }
{
    let mut scope = Scope::new(alloc);
    'each: for param in params {
        let number = names.bind(alloc, Some(&param.name))?;
        scope.bind(param.name.bytes(), Arg::Var(number))?;
    }
    block(alloc, tree, &mut scope, procedures, names)
}

/// The parameters as inputs.
fn taken(alloc: Global, params: &[Param]) -> Result<Items<InParam>, AllocError>
    ensures { IfOk result (λ ins. ins ≡ inputs_of params.now) }
{
    let mut ins = Items::new(alloc);
    'each: for param in params {
        ins.push(InParam {
            name: param.name.copy(alloc)?,
            rep: param.rep,
            kept: param.kept,
        })?;
    }
    Ok(ins)
}

/// The representations that are shown.
fn shown(alloc: Global, list: &[Shown]) -> Result<Items<Rep>, AllocError>
    ensures { IfOk result (λ reps. reps ≡ shown_reps list.now) }
{
    let mut reps = Items::new(alloc);
    'each: for item in list {
        reps.push(item.rep)?;
    }
    Ok(reps)
}
