//! Operations.

ghost use Rattle.std.specs.Prelude.{◌≡◌, ◌<◌, ◌^◌, ◌&&◌, ℕ, true, List, Some, nat_eq, length, IfOk, OnOk};
ghost use Rattle.context_laws.specs.Stacks.{AllDiffer};
ghost use Rattle.fit_state.specs.Infos.{infos_of};
ghost use Rattle.fit_state.specs.Rests.{ViewsAre};
ghost use Rattle.proof_lines.specs.Lines.{lines_of};
ghost use Rattle.fit_state.specs.States.{Grows, Is};
ghost use Rattle.fit_steps.specs.Applied.{Called, ResultsBound, Stands};
ghost use Rattle.fit_steps.specs.Going.{GrowsBy, Steps};
ghost use Rattle.fit_steps.specs.Parts as parts;
ghost use Rattle.fits.specs.Follow as f;
ghost use Rattle.fits.specs.Follow.{Line, Views as ViewsOf};
ghost use Rattle.fits.specs.Places.{State, in_order};
ghost use Rattle.fits.specs.Places as p;
ghost use Rattle.ownership.specs.Entries.{shapes_of};
ghost use Rattle.row_index.specs.FirstRow.{rule_of_row};
ghost use Rattle.rule_check.specs.Rows.{rule_of};
ghost use Rattle.rule_check.specs.Steps.{op_bound};
ghost use Rattle.rule_steps.specs.Operations.{table_row};
ghost use Rattle.lib_names.specs.Names.{lib_word};

use crate::applying::{Applying, take};
use crate::instrs::{CallAt, call_at};
use crate::lines::row_line;
use crate::register::register_step;
use crate::shapes::{in_row, info_reps, out_shapes, own_bound};
use crate::words::call_words;
use fit_state::{
    FitState, Info, Rest, Views, all_below, all_fresh, arg_infos, bind_known, old_shapes, pass_all,
};
use lib_names::lib_name;
use nres_core::{LibName, Op, Row, RowCode};
use ownership::Shape;
use row_index::row_of;
use rule_steps::Operation;
use std::alloc::{AllocError, Global};
use target_code::Rep;

/// An operation: what is left, or none where the derivation does not fit here.
pub fn apply_step<'a>(
    alloc: Global,
    views: &Views,
    regs: u32,
    state: &mut FitState,
    rest: Rest<'a>,
    operation: &Operation,
) -> Result<Option<Rest<'a>>, AllocError>
    ensures stepped { IfOk result (λ r. (V : ViewsOf) (s : State) → ViewsAre views.now V → Is regs state.old s
        → Steps regs state.new (lines_of rest.entry.lines.now) (λ go. f.apply_step regs V s rest.entry.code.now (lines_of rest.entry.lines.now) operation.now.place operation.now.outs.now operation.now.op operation.now.made operation.now.args.now go) r) }
    ensures grows { IfOk result (λ r. GrowsBy state.old state.new r) }
{
    match arg_infos(alloc, state, operation.args)? {
        None => Ok(None),
        Some(infos) => {
            match row_at(alloc, operation, infos.as_slice())? {
                None => Ok(None),
                Some(row) => {
                    let applying = Applying {
                        names: views.names,
                        regs,
                        operation: *operation,
                        infos: infos.as_slice(),
                        row,
                    };
                    row_step(alloc, state, rest, &applying)
                }
            }
        }
    }
}

/// The row of an operation, if there is one.
fn row_at(alloc: Global, operation: &Operation, infos: &[Info]) -> Result<Option<Row>, AllocError>
    ensures row { IfOk result (λ row. rule_of_row row ≡ table_row operation.now.op (p.info_reps (infos_of infos.now)) operation.now.made) }
    ensures within { IfOk result (λ row. op_bound operation.now.made (p.info_reps (infos_of infos.now)) < 2 ^ 32) }
{
    let reps = info_reps(alloc, infos)?;
    own_bound(operation.made, reps.as_slice());
    Ok(row_in_table(operation.op, reps.as_slice(), operation.made))
}

#[tactic(auto, unfolding(rule_steps::specs::Operations::table_row))]
fn row_in_table(op: Op, reps: &[Rep], made: Option<Rep>) -> Option<Row>
    ensures { rule_of_row result ≡ table_row op reps.now made }
{
    row_of(op, reps, made)
}

/// An operation by its row.
fn row_step<'a>(
    alloc: Global,
    state: &mut FitState,
    rest: Rest<'a>,
    applying: &Applying,
) -> Result<Option<Rest<'a>>, AllocError>
    ensures stepped { IfOk result (λ r. (V : ViewsOf) (s : State) → Stands applying.now V s → Is applying.now.regs state.old s
        → Steps applying.now.regs state.new (lines_of rest.entry.lines.now) (λ go. f.row_step applying.now.regs V s rest.entry.code.now (lines_of rest.entry.lines.now) applying.now.operation.place applying.now.operation.outs.now applying.now.operation.op applying.now.operation.made applying.now.operation.args.now (infos_of applying.now.infos.now) (rule_of applying.now.row) applying.now.row.code go) r) }
    ensures grows { IfOk result (λ r. GrowsBy state.old state.new r) }
{
    match applying.row.code {
        RowCode::Register(index) => register_step(alloc, state, rest, applying, index),
        RowCode::Proc(name) => call_step(alloc, state, rest, applying, name),
    }
}

/// An operation by a call.
fn call_step<'a>(
    alloc: Global,
    state: &mut FitState,
    rest: Rest<'a>,
    applying: &Applying,
    name: LibName,
) -> Result<Option<Rest<'a>>, AllocError>
    ensures stepped { IfOk result (λ r. (V : ViewsOf) (s : State) → Stands applying.now V s → Is applying.now.regs state.old s
        → Steps applying.now.regs state.new (lines_of rest.entry.lines.now) (λ go. f.call_step applying.now.regs V s rest.entry.code.now (lines_of rest.entry.lines.now) applying.now.operation.place applying.now.operation.outs.now applying.now.operation.op applying.now.operation.made applying.now.operation.args.now (infos_of applying.now.infos.now) (rule_of applying.now.row) name go) r) }
    ensures grows { IfOk result (λ r. GrowsBy state.old state.new r) }
{
    match row_line(rest.lines, lib_name(name)) {
        None => Ok(None),
        Some(lines) => {
            let rest = Rest {
                code: rest.code,
                lines,
            };
            call_between(alloc, state, rest, applying, name)
        }
    }
}

/// The same behind the line.
fn call_between<'a>(
    alloc: Global,
    state: &mut FitState,
    rest: Rest<'a>,
    applying: &Applying,
    name: LibName,
) -> Result<Option<Rest<'a>>, AllocError>
    ensures stepped { IfOk result (λ r. (V : ViewsOf) (s : State) (ls : List Line) → Stands applying.now V s → Is applying.now.regs state.old s
        → Steps applying.now.regs state.new ls (parts.call_between applying.now.regs V s rest.entry.code.now ls (lines_of rest.entry.lines.now) applying.now.operation.place applying.now.operation.outs.now applying.now.operation.op applying.now.operation.made applying.now.operation.args.now (infos_of applying.now.infos.now) (rule_of applying.now.row) name) r) }
    ensures grows { IfOk result (λ r. GrowsBy state.old state.new r) }
{
    match pass_all(state, applying.regs, rest.code)? {
        None => Ok(None),
        Some(code) => {
            let rest = Rest {
                code,
                lines: rest.lines,
            };
            call_end(alloc, state, rest, applying, name)
        }
    }
}

/// The same at the instruction.
fn call_end<'a>(
    alloc: Global,
    state: &mut FitState,
    rest: Rest<'a>,
    applying: &Applying,
    name: LibName,
) -> Result<Option<Rest<'a>>, AllocError>
    ensures stepped { IfOk result (λ r. (V : ViewsOf) (s : State) (ls : List Line) → Stands applying.now V s → Is applying.now.regs state.old s
        → Steps applying.now.regs state.new ls (parts.call_at applying.now.regs V s rest.entry.code.now ls (lines_of rest.entry.lines.now) applying.now.operation.place applying.now.operation.outs.now applying.now.operation.op applying.now.operation.made applying.now.operation.args.now (infos_of applying.now.infos.now) (rule_of applying.now.row) name) r) }
    ensures grows { IfOk result (λ r. GrowsBy state.old state.new r) }
{
    match call_at(rest.code) {
        None => Ok(None),
        Some(at) => {
            if call_here(alloc, state, applying, name, &at)? {
                Ok(Some(Rest {
                    code: at.rest,
                    lines: rest.lines,
                }))
            } else {
                Ok(None)
            }
        }
    }
}

/// What a call comes to, where it is as it must be.
fn call_here(
    alloc: Global,
    state: &mut FitState,
    applying: &Applying,
    name: LibName,
    at: &CallAt,
) -> Result<bool, AllocError>
    ensures called { IfOk result (λ r. (V : ViewsOf) (s : State) → Stands applying.now V s → Is applying.now.regs state.old s → Called applying.now V s name at.now.to.now at.now.name.now at.now.args.now state.new r) }
    ensures grows { IfOk result (λ r. r ≡ true → Grows state.old state.new) }
{
    let holds = call_holds(alloc, state, applying, name, at)?;
    if !holds {
        return Ok(false);
    }
    if !in_row(state.next, applying.operation.outs, &applying.row) {
        return Ok(false);
    }
    if take(alloc, applying.names, state, &applying.operation)? {
        call_results(alloc, state, applying, at.to)
    } else {
        Ok(false)
    }
}

/// Whether a call is that of a procedure, with the arguments of an operation.
fn call_holds(
    alloc: Global,
    state: &FitState,
    applying: &Applying,
    name: LibName,
    at: &CallAt,
) -> Result<bool, AllocError>
    ensures { IfOk result (λ r. (V : ViewsOf) (s : State) → V.lib_name ≡ lib_word → Is applying.now.regs state.now s → r ≡ parts.call_holds V s applying.now.operation.made (infos_of applying.now.infos.now) name at.now.name.now at.now.args.now) }
{
    let reps = info_reps(alloc, applying.infos)?;
    let bound = own_bound(applying.operation.made, reps.as_slice());
    let words = call_words(alloc, bound, applying.infos)?;
    let is_named = at.name.bytes() == lib_name(name);
    Ok(is_named && state.tokens.hold(at.args, words.as_slice()))
}

/// The results of an operation whose entries stand in the context come to registers, where they may.
fn call_results(
    alloc: Global,
    state: &mut FitState,
    applying: &Applying,
    to: &[u32],
) -> Result<bool, AllocError>
    ensures bound { IfOk result (λ r. ResultsBound applying.now.regs state.old applying.now.operation.outs.now (parts.out_shapes state.old.rules.context.spots applying.now.operation.outs.now) to.now state.new r) }
    ensures grows { IfOk result (λ r. r ≡ true → in_order state.old.next applying.now.operation.outs.now (parts.out_shapes state.old.rules.context.spots applying.now.operation.outs.now) ≡ true → Grows state.old state.new) }
    ensures differ { AllDiffer state.old.rules.context.spots }
{
    state.rules.context.len();
    let outs = applying.operation.outs;
    let shapes = out_shapes(alloc, &state.rules.context, outs)?;
    bind_results(alloc, applying.regs, state, outs, shapes.as_slice(), to)
}

/// New variables of these shapes come to registers, where they may.
fn bind_results(
    alloc: Global,
    regs: u32,
    state: &mut FitState,
    outs: &[u32],
    shapes: &[Shape],
    to: &[u32],
) -> Result<bool, AllocError>
    ensures bound { IfOk result (λ r. ResultsBound regs state.old outs.now (shapes_of shapes.now) to.now state.new r) }
    ensures grows { IfOk result (λ r. r ≡ true → in_order state.old.next outs.now (shapes_of shapes.now) ≡ true → Grows state.old state.new) }
{
    let words = all_fresh(alloc, outs, shapes)?;
    let count = words.len();
    drop(words);
    if all_below(regs, to) && old_shapes(state.next, shapes) && to.len() == count {
        bind_known(alloc, state, to, outs, shapes)?;
        Ok(true)
    } else {
        Ok(false)
    }
}
