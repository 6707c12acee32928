//! Calls of the procedures of a text.

ghost use Rattle.std.specs.Prelude.{◌≡◌, ◌&&◌, ◌∷◌, [], ℕ, true, List, Some, nat_eq, length, IfOk, OnOk};
ghost use Rattle.fit_state.specs.Infos.{infos_of, lists_of};
ghost use Rattle.fit_state.specs.Rests.{ViewsAre};
ghost use Rattle.proof_lines.specs.Lines.{lines_of};
ghost use Rattle.fit_state.specs.States.{Grows, Is};
ghost use Rattle.fit_steps.specs.Going.{GrowsBy, Steps};
ghost use Rattle.fit_steps.specs.Parts as parts;
ghost use Rattle.fit_steps.specs.Used.{CallTaken, UseBound, Used, UseStands};
ghost use Rattle.fits.specs.Follow as f;
ghost use Rattle.fits.specs.Follow.{Line, Views as ViewsOf};
ghost use Rattle.fits.specs.Places.{State, in_order};
ghost use Rattle.nres_core.specs.FlatTree.{flat_procs_of};
ghost use Rattle.ownership.specs.Entries.{shapes_of, spots_of};
ghost use Rattle.proc_rules.specs.Calls.{sig_seen, sig_view};
ghost use Rattle.rule_check.specs.Check.{sigs_of};
ghost use Rattle.rule_check.specs.Context as d;
ghost use Rattle.rule_check.specs.Steps.{sig_at};
ghost use Rattle.rule_check.specs.Steps as steps;

use crate::instrs::{CallAt, call_at};
use crate::lines::use_line;
use crate::named::is_numbered;
use crate::words::{joined_words, result_words};
use fit_state::{
    FitState, Info, Rest, Views, all_below, all_words, arg_infos, bind_words, in_order, old_shapes,
    pass_all,
};
use fit_tokens::Token;
use nres_core::{Arg, FlatFun, Place};
use ownership::{Entry, Shape, looked_up};
use proc_rules::{Sig, call_shapes, lists, sig_of, take_call};
use sqlite_items::{Items, at};
use std::alloc::{AllocError, Global};

/// A call of the procedure of this number.
#[derive(Clone, Copy)]
pub struct Calling<'a> {
    /// The place.
    pub place: Place,
    /// The variables of the results.
    pub outs: &'a [u32],
    /// The number.
    pub fun: u32,
    /// The arguments.
    pub args: &'a [Arg],
}

/// A call, what stands for its arguments, and what the procedure declares.
#[derive(Clone, Copy)]
pub(crate) struct Using<'a> {
    /// How many registers the procedure that calls has.
    pub regs: u32,
    /// The call.
    pub calling: Calling<'a>,
    /// What stands for its arguments.
    pub infos: &'a [Info],
    /// What the procedure takes and gives.
    pub sig: Sig<'a>,
}

/// A call: what is left, or none where the derivation does not fit here.
pub fn use_step<'a>(
    alloc: Global,
    views: &Views,
    regs: u32,
    state: &mut FitState,
    rest: Rest<'a>,
    calling: &Calling,
) -> Result<Option<Rest<'a>>, AllocError>
    ensures stepped { IfOk result (λ r. (V : ViewsOf) (s : State) → ViewsAre views.now V → Is regs state.old s
        → Steps regs state.new (lines_of rest.entry.lines.now) (λ go. f.use_step regs V s rest.entry.code.now (lines_of rest.entry.lines.now) calling.now.place calling.now.outs.now calling.now.fun calling.now.args.now go) r) }
    ensures grows { IfOk result (λ r. GrowsBy state.old state.new r) }
{
    match use_line(rest.lines) {
        None => Ok(None),
        Some(lines) => {
            let rest = Rest {
                code: rest.code,
                lines,
            };
            use_values(alloc, views, regs, state, rest, calling)
        }
    }
}

/// What a procedure takes and gives.
fn sig_in<'a>(funs: &'a [FlatFun], fun: u32) -> Option<Sig<'a>>
    ensures { sig_seen result ≡ sig_at (sigs_of (flat_procs_of funs.now)) fun }
{
    match at(funs, fun as usize) {
        Some(fun) => Some(sig_of(fun)),
        None => None,
    }
}

/// The same behind the line.
fn use_values<'a>(
    alloc: Global,
    views: &Views,
    regs: u32,
    state: &mut FitState,
    rest: Rest<'a>,
    calling: &Calling,
) -> Result<Option<Rest<'a>>, AllocError>
    ensures stepped { IfOk result (λ r. (V : ViewsOf) (s : State) (ls : List Line) → ViewsAre views.now V → Is regs state.old s
        → Steps regs state.new ls (parts.use_values regs V s rest.entry.code.now ls (lines_of rest.entry.lines.now) calling.now.place calling.now.outs.now calling.now.fun calling.now.args.now) r) }
    ensures grows { IfOk result (λ r. GrowsBy state.old state.new r) }
{
    match arg_infos(alloc, state, calling.args)? {
        None => Ok(None),
        Some(infos) => match sig_in(views.funs, calling.fun) {
            None => Ok(None),
            Some(sig) => {
                let call = Using {
                    regs,
                    calling: *calling,
                    infos: infos.as_slice(),
                    sig,
                };
                use_between(alloc, state, rest, &call)
            }
        },
    }
}

/// The same with what stands for the arguments.
fn use_between<'a>(
    alloc: Global,
    state: &mut FitState,
    rest: Rest<'a>,
    call: &Using,
) -> Result<Option<Rest<'a>>, AllocError>
    ensures stepped { IfOk result (λ r. (V : ViewsOf) (s : State) (ls : List Line) → UseStands call.now V s → Is call.now.regs state.old s
        → Steps call.now.regs state.new ls (parts.use_between call.now.regs V s rest.entry.code.now ls (lines_of rest.entry.lines.now) call.now.calling.place call.now.calling.outs.now call.now.calling.fun call.now.calling.args.now (infos_of call.now.infos.now) (sig_view call.now.sig)) r) }
    ensures grows { IfOk result (λ r. GrowsBy state.old state.new r) }
{
    match pass_all(state, call.regs, rest.code)? {
        None => Ok(None),
        Some(code) => {
            let rest = Rest {
                code,
                lines: rest.lines,
            };
            use_end(alloc, state, rest, call)
        }
    }
}

/// The same at the instruction.
fn use_end<'a>(
    alloc: Global,
    state: &mut FitState,
    rest: Rest<'a>,
    call: &Using,
) -> Result<Option<Rest<'a>>, AllocError>
    ensures stepped { IfOk result (λ r. (V : ViewsOf) (s : State) (ls : List Line) → UseStands call.now V s → Is call.now.regs state.old s
        → Steps call.now.regs state.new ls (parts.use_at call.now.regs V s rest.entry.code.now ls (lines_of rest.entry.lines.now) call.now.calling.place call.now.calling.outs.now call.now.calling.fun call.now.calling.args.now (infos_of call.now.infos.now) (sig_view call.now.sig)) r) }
    ensures grows { IfOk result (λ r. GrowsBy state.old state.new r) }
{
    match call_at(rest.code) {
        None => Ok(None),
        Some(at) => {
            if use_here(alloc, state, call, &at)? {
                Ok(Some(Rest {
                    code: at.rest,
                    lines: rest.lines,
                }))
            } else {
                Ok(None)
            }
        }
    }
}

/// What a call comes to, where it is as it must be.
fn use_here(
    alloc: Global,
    state: &mut FitState,
    call: &Using,
    at: &CallAt,
) -> Result<bool, AllocError>
    ensures used { IfOk result (λ r. (V : ViewsOf) (s : State) → UseStands call.now V s → Is call.now.regs state.old s → Used call.now V s at.now.to.now at.now.name.now at.now.args.now state.new r) }
    ensures grows { IfOk result (λ r. r ≡ true → Grows state.old state.new) }
{
    let entries = looked_up(alloc, &state.rules.context, call.calling.args)?;
    let entries = entries.as_slice();
    let shapes = use_shapes(alloc, &call.sig, entries)?;
    if use_holds(alloc, state, call, shapes.as_slice(), at)? {
        use_take(alloc, state, call, entries, shapes.as_slice(), at.to)
    } else {
        Ok(false)
    }
}

/// What the results of a call on these entries are in.
fn use_shapes(alloc: Global, sig: &Sig, entries: &[Entry]) -> Result<Items<Shape>, AllocError>
    ensures { IfOk result (λ shapes. shapes_of shapes ≡ steps.call_shapes sig.now.outs.now (steps.lists sig.now.params.now (spots_of entries.now))) }
{
    let lists = lists(alloc, sig.params, entries)?;
    call_shapes(alloc, sig.outs, lists.as_slice())
}

/// Whether a call is that of the procedure with these arguments, and its results are new variables in order.
fn use_holds(
    alloc: Global,
    state: &FitState,
    call: &Using,
    shapes: &[Shape],
    at: &CallAt,
) -> Result<bool, AllocError>
    ensures holds { IfOk result (λ r. (s : State) → Is call.now.regs state.now s → r ≡ parts.use_holds call.now.regs s call.now.calling.outs.now call.now.calling.fun (infos_of call.now.infos.now) (shapes_of shapes.now) at.now.to.now at.now.name.now at.now.args.now) }
    ensures order { IfOk result (λ r. r ≡ true → in_order state.now.next call.now.calling.outs.now (shapes_of shapes.now) ≡ true) }
{
    let words = all_words(alloc, call.infos)?;
    Ok(
        is_numbered(at.name.bytes(), b'p', u64::from(call.calling.fun) + 1)
            && state.tokens.hold(at.args, words.as_slice())
            && all_below(call.regs, at.to)
            && old_shapes(state.next, shapes)
            && in_order(state.next, call.calling.outs, shapes),
    )
}

/// The containers that a call takes over are gone, and its results come to registers, where the rule check lets it pass and they are as many.
fn use_take(
    alloc: Global,
    state: &mut FitState,
    call: &Using,
    entries: &[Entry],
    shapes: &[Shape],
    to: &[u32],
) -> Result<bool, AllocError>
    requires order { in_order state.old.next call.now.calling.outs.now (shapes_of shapes.now) ≡ true }
    requires shapes { shapes_of shapes.now ≡ steps.call_shapes call.now.sig.outs.now (steps.lists call.now.sig.params.now (spots_of entries.now)) }
    ensures taken { IfOk result (λ r. CallTaken call.now (spots_of entries.now) (shapes_of shapes.now) to.now state.old state.new r) }
    ensures grows { IfOk result (λ r. r ≡ true → Grows state.old state.new) }
{
    state.rules.context.len();
    match take_call(alloc, &mut state.rules.context, Some(call.sig), entries)? {
        Some(_) => Ok(false),
        None => {
            let words = result_words(alloc, call)?;
            use_bind(
                alloc,
                state,
                call.calling.outs,
                shapes,
                words.as_slice(),
                to,
            )
        }
    }
}

/// New variables of these words, which come to registers, where they are as many.
fn use_bind(
    alloc: Global,
    state: &mut FitState,
    outs: &[u32],
    shapes: &[Shape],
    words: &[Items<Token>],
    to: &[u32],
) -> Result<bool, AllocError>
    requires { length words.now ≡ length shapes.now }
    ensures bound { IfOk result (λ r. UseBound state.old outs.now (shapes_of shapes.now) (lists_of words.now) to.now state.new r) }
    ensures grows { IfOk result (λ r. r ≡ true → in_order state.old.next outs.now (shapes_of shapes.now) ≡ true → Grows state.old state.new) }
{
    let joined = joined_words(alloc, words)?;
    if to.len() != joined.len() {
        return Ok(false);
    }
    state.tokens.put(to, joined.as_slice())?;
    bind_words(alloc, state, outs, shapes, words)?;
    Ok(true)
}
