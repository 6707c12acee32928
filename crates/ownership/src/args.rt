//! Arguments: their entries, and what becomes of them.

ghost use Rattle.std.specs.Prelude.{◌≡◌, ◌∷◌, [], IfOk, OnOk, OnErr};
ghost use Rattle.context_laws.specs.Steps.{with_spots};
ghost use Rattle.ownership.specs.Entries.{shapes_of, spot_of, spots_of};
ghost use Rattle.ownership.specs.Faults.{after_taken, args_fault};
ghost use Rattle.rule_check.specs.Context as d;

use crate::context::Context;
use crate::entry::{Entry, Fault, Shape, is_container};
use crate::tests::{first_clash, first_gone, first_kept};
use nres_core::Arg;
use sqlite_items::Items;
use std::alloc::{AllocError, Global};
use target_code::Rep;

/// The entries of arguments, in order. A literal, or a variable without an entry, has that of a plain value.
pub fn looked_up(alloc: Global, context: &Context, args: &[Arg]) -> Result<Items<Entry>, AllocError>
    ensures { IfOk result (λ entries. spots_of entries ≡ d.looked_up context.now.spots args.now) }
{
    let mut entries = Items::new(alloc);
    'each: for arg in args {
        entries.push(arg_entry(context, *arg))?;
    }
    Ok(entries)
}

fn arg_entry(context: &Context, arg: Arg) -> Entry
    ensures { spot_of result ≡ d.arg_spot context.now.spots arg }
{
    match arg {
        Arg::Var(var) => var_entry(context, var),
        Arg::Num(_) => plain(0, Rep::Word),
        Arg::Truth(_) => plain(0, Rep::Flag),
    }
}

/// The entry of a variable, or that of a number.
pub fn var_entry(context: &Context, var: u32) -> Entry
    ensures { spot_of result ≡ d.spot_at context.now.spots var }
{
    match context.entry(var) {
        Some(entry) => entry,
        None => plain(var, Rep::Word),
    }
}

fn plain(var: u32, rep: Rep) -> Entry
    ensures { spot_of result ≡ d.plain var rep }
{
    Entry::owned(var, Shape { rep, tag: 0 })
}

/// What entries are in.
pub fn shapes(alloc: Global, entries: &[Entry]) -> Result<Items<Shape>, AllocError>
    ensures { IfOk result (λ shapes. shapes_of shapes ≡ d.shapes_of (spots_of entries.now)) }
{
    let mut shapes = Items::new(alloc);
    'each: for entry in entries {
        shapes.push(entry.shape())?;
    }
    Ok(shapes)
}

/// Containers among these entries are gone, where they are owned. Where there is no memory, some may be.
pub fn go_all(context: &mut Context, entries: &[Entry]) -> Result<(), AllocError>
    ensures ok { OnOk result (context.new ≡ with_spots context.old (d.all_go (d.vars_of (spots_of entries.now)) context.old.spots)) }
    ensures saved { context.new.saved ≡ context.old.saved }
{
    'each: for entry in entries {
        go_one(context, entry)?;
    }
    Ok(())
}

fn go_one(context: &mut Context, entry: &Entry) -> Result<(), AllocError>
    ensures ok { OnOk result (context.new ≡ with_spots context.old (d.all_go (d.vars_of (spot_of entry.now ∷ [])) context.old.spots)) }
    ensures err { OnErr result (context.new ≡ context.old) }
{
    if is_container(entry.rep) {
        context.go(entry.var)
    } else {
        Ok(())
    }
}

/// What an operation does with its arguments: those that it destroys are gone, unless it is refused, which changes nothing. `unknown` is
/// the refusal for a number that is not known to be below the bound, and comes last.
pub fn take_args(
    context: &mut Context,
    destroyed: &[Entry],
    entries: &[Entry],
    unknown: Option<Fault>,
) -> Result<Option<Fault>, AllocError>
    ensures fault { IfOk result (λ fault. fault ≡ args_fault (spots_of entries.now) (spots_of destroyed.now) unknown) }
    ensures taken { IfOk result (λ fault. context.new ≡ after_taken fault (d.vars_of (spots_of destroyed.now)) context.old) }
    ensures saved { context.new.saved ≡ context.old.saved }
{
    match args_fault(destroyed, entries, unknown) {
        Some(fault) => Ok(Some(fault)),
        None => {
            go_all(context, destroyed)?;
            Ok(None)
        }
    }
}

fn args_fault(destroyed: &[Entry], entries: &[Entry], unknown: Option<Fault>) -> Option<Fault>
    ensures { result ≡ args_fault (spots_of entries.now) (spots_of destroyed.now) unknown }
{
    if let Some(var) = first_gone(entries) {
        return Some(Fault::Gone(var));
    }
    if let Some(var) = first_clash(destroyed, entries) {
        return Some(Fault::Twice(var));
    }
    match first_kept(destroyed) {
        Some(var) => Some(Fault::Held(var)),
        None => unknown,
    }
}

/// New entries of variables. There is no room for a second entry of a variable.
pub fn bind(context: &mut Context, to: &[u32], shapes: &[Shape]) -> Result<(), AllocError>
    ensures ok { OnOk result (context.new ≡ with_spots context.old (d.binding to.now (shapes_of shapes.now) context.old.spots)) }
    ensures saved { context.new.saved ≡ context.old.saved }
{
    let count = to.len().min(shapes.len());
    'each: for index in 0..count {
        context.add(Entry::owned(to[index], shapes[index]))?;
    }
    Ok(())
}
