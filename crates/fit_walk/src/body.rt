//! The body of a specification or of a procedure, from its parameters to its end.

ghost use Rattle.std.specs.Prelude.{◌≡◌, ◌&&◌, ℕ, true, Some, IfOk};
ghost use Rattle.context_laws.specs.Stacks.{spot_in};
ghost use Rattle.fit_blocks.specs.Answers.{At, IsOpen};
ghost use Rattle.fit_laws.specs.Older.{Older};
ghost use Rattle.fit_state.specs.Infos.{infos_of};
ghost use Rattle.fit_state.specs.Rests.{ViewsAre};
ghost use Rattle.fit_state.specs.States.{Is};
ghost use Rattle.fit_walk.specs.Bodies.{BodyIs, FinishIs, FinishesHere, FinishesWith, begins, block_met, body_flats, body_followed, body_params, body_regs, body_walk, kept_at, kept_from};
ghost use Rattle.sequential.specs.Sequential.{sequential};
ghost use Rattle.fits.specs.Follow.{Views as ViewsOf};
ghost use Rattle.fits.specs.Places as p;
ghost use Rattle.fits.specs.Places.{all_vars as vars_of, info_reps};
ghost use Rattle.fits.specs.Programs as programs;
ghost use Rattle.proof_lines.specs.Lines.{lines_of};
ghost use Rattle.rule_check.specs.Context as d;

use crate::beginning::{begin_state, param_tokens};
use crate::walk::walk_binds;
use body_rules::{Header, end_body};
use branch_merge::same_rep;
use fit_blocks::{Frame, Unmet};
use fit_state::{
    FitState, Info, Rest, Views, all_below, all_vars, all_words, arg_infos, none_left, pass_all,
};
use nres_core::FlatBlock;
use ownership::Context;
use proof_text::ProofLine;
use std::alloc::{AllocError, Global};
use target_code::{InParam, Instr, Proc, Rep};

/// A body with its procedure: its parameters are the variables from `first` on, and so many branches came before.
#[derive(Clone, Copy)]
pub(crate) struct Body<'a> {
    /// The first variable.
    pub first: u32,
    /// The number of branches before.
    pub branch: u64,
    /// The parameters, and the representations of the results.
    pub header: Header<'a>,
    /// What it computes.
    pub block: &'a FlatBlock,
    /// Its procedure.
    pub proc: &'a Proc,
}

/// Where a body is over: the lines behind it, and the number of branches so far.
#[derive(Clone, Copy)]
pub(crate) struct Past<'a> {
    /// The lines.
    pub lines: &'a [ProofLine],
    /// The number of branches.
    pub branch: u64,
}

/// A body is followed.
pub(crate) fn follow_body<'a>(
    alloc: Global,
    views: &Views<'a>,
    body: &Body<'a>,
    lines: &'a [ProofLine],
) -> Result<Result<Past<'a>, Unmet<'a>>, AllocError>
    ensures { IfOk result (λ past. (V : ViewsOf) → ViewsAre views.now V → sequential (body_flats body.now).binds ≡ true → BodyIs (body_followed V body.now (lines_of lines.now)) past) }
{
    let words = param_tokens(alloc, body.first, body.header.params)?;
    if words.len() > body.proc.regs as usize {
        return Ok(Err(Unmet { lines }));
    }
    let mut state = begin_state(alloc, body, words.as_slice())?;
    let followed = follow_on(alloc, views, body, &mut state, lines);
    drop(state);
    followed
}

/// The same from the state where it begins.
fn follow_on<'a>(
    alloc: Global,
    views: &Views<'a>,
    body: &Body<'a>,
    state: &mut FitState,
    lines: &'a [ProofLine],
) -> Result<Result<Past<'a>, Unmet<'a>>, AllocError>
    requires at { At (body_regs body.now) state.old (begins body.now) }
    requires open { IsOpen state.old }
    ensures { IfOk result (λ past. (V : ViewsOf) → ViewsAre views.now V → sequential (body_flats body.now).binds ≡ true → BodyIs (body_walk V body.now (lines_of lines.now)) past) }
{
    let frame = Frame {
        views: *views,
        regs: body.proc.regs,
    };
    let rest = Rest {
        code: body.proc.code.list.as_slice(),
        lines,
    };
    match walk_binds(body.block.binds.as_slice(), alloc, &frame, state, rest)? {
        Ok(rest) => {
            if finish(alloc, &frame, state, rest.code, body)? {
                Ok(Ok(Past {
                    lines: rest.lines,
                    branch: state.branch,
                }))
            } else {
                Ok(Err(Unmet { lines: rest.lines }))
            }
        }
        Err(unmet) => Ok(Err(unmet)),
    }
}

/// Whether a body whose binds were followed ends as it must.
fn finish(
    alloc: Global,
    frame: &Frame,
    state: &mut FitState,
    code: &[Instr],
    body: &Body,
) -> Result<bool, AllocError>
    ensures { IfOk result (λ over. (V : ViewsOf) (s : p.State) → ViewsAre frame.now.views V → Is frame.now.regs state.old s → Older (begins body.now) s
        → FinishIs frame.now.regs V body.now s code.now state.new over) }
{
    let Some(left) = pass_all(state, frame.regs, code)? else {
        return Ok(false);
    };
    if left.is_empty() {
        finish_here(alloc, frame, state, body)
    } else {
        Ok(false)
    }
}

/// The same where no code is left.
fn finish_here(
    alloc: Global,
    frame: &Frame,
    state: &mut FitState,
    body: &Body,
) -> Result<bool, AllocError>
    ensures over { IfOk result (λ over. (V : ViewsOf) (u : p.State) → ViewsAre frame.now.views V → Is frame.now.regs state.old u → Older (begins body.now) u
        → FinishesHere V frame.now.regs body.now u over) }
    ensures branch { state.new.branch ≡ state.old.branch }
{
    match arg_infos(alloc, state, body.block.results.as_slice())? {
        Some(infos) => finish_with(alloc, frame, state, body, infos.as_slice()),
        None => Ok(false),
    }
}

/// The same where these are the results.
fn finish_with(
    alloc: Global,
    frame: &Frame,
    state: &mut FitState,
    body: &Body,
    infos: &[Info],
) -> Result<bool, AllocError>
    ensures over { IfOk result (λ over. (V : ViewsOf) (u : p.State) → ViewsAre frame.now.views V → Is frame.now.regs state.old u → Older (begins body.now) u → p.arg_infos u.entries (body_flats body.now).ending.results ≡ Some (infos_of infos.now)
        → FinishesWith V frame.now.regs body.now u (infos_of infos.now) over) }
    ensures branch { state.new.branch ≡ state.old.branch }
{
    if !is_met(alloc, frame.regs, state, body, infos)? {
        return Ok(false);
    }
    let names = frame.views.names;
    let context = &mut state.rules.context;
    match end_body(alloc, names, context, body.first, &body.header, body.block)? {
        None => Ok(true),
        Some(refusal) => {
            drop(refusal);
            Ok(false)
        }
    }
}

/// Whether the registers of a body have its results in what is declared, and nothing is left but what is kept.
fn is_met(
    alloc: Global,
    regs: u32,
    state: &FitState,
    body: &Body,
    infos: &[Info],
) -> Result<bool, AllocError>
    ensures { IfOk result (λ met. (R : ℕ) (u : p.State) → Is R state.now u
        → met ≡ (block_met regs body.now u (infos_of infos.now) && (programs.same_reps (info_reps (infos_of infos.now)) body.now.header.shown.now && kept_from state.now.rules.context.spots 0 (body_params body.now) (vars_of (infos_of infos.now))))) }
{
    let words = all_words(alloc, infos)?;
    let vars = all_vars(alloc, infos)?;
    let targets = body.proc.ret.as_slice();
    let mark = u64::from(body.first) + body.header.params.len() as u64;
    let held = state.tokens.hold(targets, words.as_slice()) && all_below(regs, targets);
    if !(held && none_left(state, mark, vars.as_slice())) {
        return Ok(false);
    }
    Ok(
        same_reps(infos, body.header.shown)
            && only_kept(&state.rules.context, body.header.params, vars.as_slice()),
    )
}

/// Whether results are in these representations.
fn same_reps(infos: &[Info], shown: &[Rep]) -> bool
    ensures { result ≡ programs.same_reps (info_reps (infos_of infos.now)) shown.now }
{
    if infos.len() != shown.len() {
        return false;
    }
    'each: for index in 0..infos.len() {
        if !same_rep(infos[index].shape.rep, shown[index]) {
            return false;
        }
    }
    true
}

/// Whether parameters, whose entries are the oldest, are left exactly where they are kept, where these variables are gone besides.
fn only_kept(context: &Context, params: &[InParam], gone: &[u32]) -> bool
    ensures { result ≡ kept_from context.now.spots 0 params.now gone.now }
{
    'each: for index in 0..params.len() {
        if !is_kept_at(context, index, params[index].kept, gone) {
            return false;
        }
    }
    true
}

fn is_kept_at(context: &Context, place: usize, kept: bool, gone: &[u32]) -> bool
    ensures { result ≡ kept_at (spot_in context.now.spots place) kept gone.now }
{
    match context.get(place) {
        Some(entry) => {
            if !is_container(entry.rep) {
                return true;
            }
            let is_there = !(entry.is_gone() || is_among(entry.var, gone));
            is_there == kept
        }
        None => true,
    }
}

fn is_container(rep: Rep) -> bool
    ensures { result ≡ d.is_container rep }
{
    !matches!(rep, Rep::Word | Rep::Flag)
}

fn is_among(var: u32, vars: &[u32]) -> bool
    ensures { result ≡ d.is_among var vars.now }
{
    'each: for other in vars {
        if var == *other {
            return true;
        }
    }
    false
}
