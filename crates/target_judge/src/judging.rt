//! The lines of a text behind the first, taken one by one: each is tested, and what it tells of names is kept.

ghost use Rattle.std.specs.Prelude.{◌≡◌, ◌∷◌, [], ◌++◌, ◌<◌, ◌^◌, length, IfOk};
ghost use Rattle.target_code.specs.declared.tree.Instr.{out-Instr};
ghost use Rattle.target_code.specs.Formed.{result_width};
ghost use Rattle.target_judge.specs.Shape.{guard};
ghost use Rattle.target_judge.specs.Taking.{take_line};
ghost use Rattle.target_judge.specs.Told as told_spec;
ghost use Rattle.target_judge.specs.Judging as spec;
ghost use Rattle.target_judge.specs.States as states;
ghost use Rattle.target_judge.specs.Reads as reads;

use crate::fits;
use crate::state::{self, Header, Spot, State};
use crate::told::{Told, tell_args, tell_given, tell_input, tell_results};
use sqlite_items::Items;
use std::alloc::{AllocError, Global};
use target_code::{Branch, Instr, Program, Rep};
use target_lines::line::{Line, Phrase};

/// What the lines so far say.
#[derive(Drop)]
pub struct Judged {
    /// What stands in them.
    pub state: State,
    /// What they tell of names.
    pub told: Told,
    /// How many registers the inputs take.
    pub width: u64,
}

/// Nothing is read yet.
pub fn unread(alloc: Global) -> Judged
    ensures { reads.judged_of result ≡ spec.unread }
{
    Judged {
        state: State {
            ins: Items::new(alloc),
            outs: Items::new(alloc),
            procs: Items::new(alloc),
            spot: Spot::Between,
        },
        told: Told::new(alloc),
        width: 0,
    }
}

// ---- what a line tells

/// Tells what a call does. Answers whether nothing else was told.
#[tactic(auto, using(crate::proofs::Facts::told_last))]
fn tell_call(
    told: &mut Told,
    alloc: Global,
    name: &[u8],
    args: &[u32],
    to: &[u32],
) -> Result<bool, AllocError>
    ensures { IfOk result (λ fits. guard fits told.new ≡ told_spec.tell_all (spec.call_tells name.now args.now to.now) told.old) }
{
    if !tell_args(told, alloc, name, args.len() as u64)? {
        return Ok(false);
    }
    tell_results(told, alloc, name, to.len() as u64)
}

fn tell_branch(told: &mut Told, alloc: Global, branch: &Branch) -> Result<bool, AllocError>
    ensures { IfOk result (λ fits. guard fits told.new ≡ told_spec.tell_all (spec.call_tells branch.now.proc branch.now.args branch.now.to) told.old) }
{
    tell_call(
        told,
        alloc,
        branch.proc.bytes(),
        branch.args.as_slice(),
        branch.to.as_slice(),
    )
}

#[tactic(auto, using(crate::proofs::Facts::told_both))]
fn tell_instr(told: &mut Told, alloc: Global, instr: &Instr) -> Result<bool, AllocError>
    ensures { IfOk result (λ fits. guard fits told.new ≡ told_spec.tell_all (spec.instr_tells (out-Instr instr.now)) told.old) }
{
    match instr {
        Instr::Call { to, proc, args } => {
            tell_call(told, alloc, proc.bytes(), args.as_slice(), to.as_slice())
        }
        Instr::Par { left, right } => {
            if !tell_branch(told, alloc, left)? {
                return Ok(false);
            }
            tell_branch(told, alloc, right)
        }
        _ => Ok(true),
    }
}

/// How many registers the results take.
fn results_width(outs: &[Rep]) -> u64
    ensures { result ≡ result_width outs.now }
{
    let mut total: u64 = 0;
    for rep in outs {
        total += rep.width() as u64;
    }
    total
}

/// Tells what the inputs and results before the first procedure say of `main`.
#[tactic(auto, using(crate::proofs::Facts::told_last))]
fn tell_main(told: &mut Told, alloc: Global, width: u64, state: &State) -> Result<bool, AllocError>
    ensures { IfOk result (λ fits. guard fits told.new ≡ told_spec.tell_all (spec.main_tells width state.now.outs state.now.procs) told.old) }
{
    if !state.procs.is_empty() {
        return Ok(true);
    }
    if !tell_args(told, alloc, b"main", width)? {
        return Ok(false);
    }
    tell_results(told, alloc, b"main", results_width(state.outs.as_slice()))
}

/// Tells what the first line of a procedure says of it.
#[tactic(auto, using(crate::proofs::Facts::told_last))]
fn tell_proc(
    told: &mut Told,
    alloc: Global,
    name: &[u8],
    place: u64,
    args: u32,
) -> Result<bool, AllocError>
    ensures { IfOk result (λ fits. guard fits told.new ≡
        told_spec.tell_all (told_spec.fact told_spec.Given name.now place ∷ told_spec.fact told_spec.Args name.now args ∷ []) told.old) }
{
    if !tell_given(told, alloc, name, place)? {
        return Ok(false);
    }
    tell_args(told, alloc, name, u64::from(args))
}

/// Tells what a line between procedures says.
#[tactic(auto, using(crate::proofs::Facts::told_both, crate::proofs::Facts::told_last))]
fn tell_head(
    told: &mut Told,
    alloc: Global,
    phrase: &Phrase,
    width: u64,
    state: &State,
) -> Result<bool, AllocError>
    ensures { IfOk result (λ fits. guard fits told.new ≡ told_spec.tell_all (spec.head_tells phrase.now width (states.state_of state.now)) told.old) }
{
    match phrase {
        Phrase::In(input) => tell_input(told, alloc, input.name.bytes(), state.ins.len() as u64),
        Phrase::Proc {
            name,
            args,
            regs: _,
        } => {
            if !tell_main(told, alloc, width, state)? {
                return Ok(false);
            }
            tell_proc(told, alloc, name.bytes(), state.procs.len() as u64, *args)
        }
        _ => Ok(true),
    }
}

/// Tells what a line inside a procedure says.
#[tactic(auto, using(crate::proofs::Facts::told_last))]
fn tell_code(
    told: &mut Told,
    alloc: Global,
    phrase: &Phrase,
    header: &Header,
) -> Result<bool, AllocError>
    ensures { IfOk result (λ fits. guard fits told.new ≡ told_spec.tell_all (spec.code_tells phrase.now header.now.name) told.old) }
{
    match phrase {
        Phrase::Plain(instr) => tell_instr(told, alloc, instr),
        Phrase::Ret(list) => tell_results(told, alloc, header.name.bytes(), list.len() as u64),
        _ => Ok(true),
    }
}

/// Tells what a line says.
fn tell_line(
    told: &mut Told,
    alloc: Global,
    phrase: &Phrase,
    width: u64,
    state: &State,
) -> Result<bool, AllocError>
    ensures { IfOk result (λ fits. guard fits told.new ≡
        told_spec.tell_all (spec.tells_at phrase.now width (states.state_of state.now) (states.spot_of state.now.spot)) told.old) }
{
    match &state.spot {
        Spot::Between => tell_head(told, alloc, phrase, width, state),
        Spot::Inside(header, _) => tell_code(told, alloc, phrase, header),
        Spot::Ended(..) => Ok(true),
    }
}

// ---- one line more

/// How many registers the inputs take behind the line, as far as `main` may have them.
fn next_width(phrase: &Phrase, width: u64) -> Option<u64>
    ensures { result ≡ spec.next_width phrase.now width }
{
    match phrase {
        Phrase::In(input) => {
            let next = width.checked_add(input.rep.width() as u64)?;
            if next <= 8_388_608 {
                return Some(next);
            }
            None
        }
        _ => Some(width),
    }
}

/// Tells what a line says, and tests it. Answers whether it passes.
#[tactic(auto, unfolding(crate::specs::Judging::told_after))]
fn passes(
    told: &mut Told,
    alloc: Global,
    phrase: &Phrase,
    width: u64,
    state: &State,
) -> Result<bool, AllocError>
    ensures { IfOk result (λ fits. guard fits told.new ≡ spec.told_after phrase.now width (states.state_of state.now) told.old) }
{
    if !tell_line(told, alloc, phrase, width, state)? {
        return Ok(false);
    }
    fits::line_fits(alloc, phrase, state.procs.as_slice(), &state.spot, told)
}

/// What the lines say with one behind them that passes.
fn advance(
    alloc: Global,
    state: State,
    told: Told,
    width: u64,
    line: Line,
) -> Result<Option<Judged>, AllocError>
    ensures { IfOk result (λ next. states.if_there reads.judged_of next ≡ spec.advance told width (take_line line (states.state_of state))) }
{
    match state::take(alloc, state, line) {
        Ok(Some(state)) => Ok(Some(Judged { state, told, width })),
        Ok(None) => {
            drop(told);
            Ok(None)
        }
        Err(error) => {
            drop(told);
            Err(error)
        }
    }
}

/// Tests a line, and keeps what it tells. Answers whether it passes.
#[tactic(auto, unfolding(crate::specs::Judging::tested))]
fn test(alloc: Global, judged: &mut Judged, phrase: &Phrase) -> Result<bool, AllocError>
    ensures { IfOk result (λ fits. guard fits (reads.judged_of judged.new) ≡ spec.tested phrase.now (reads.judged_of judged.old)) }
{
    if !passes(&mut judged.told, alloc, phrase, judged.width, &judged.state)? {
        return Ok(false);
    }
    match next_width(phrase, judged.width) {
        None => Ok(false),
        Some(width) => {
            judged.width = width;
            Ok(true)
        }
    }
}

/// What the lines say with one behind them that passes.
fn put(alloc: Global, judged: Judged, line: Line) -> Result<Option<Judged>, AllocError>
    ensures { IfOk result (λ next. states.if_there reads.judged_of next ≡ spec.put line (reads.judged_of judged)) }
{
    let Judged { state, told, width } = judged;
    advance(alloc, state, told, width, line)
}

/// What the lines say with this one behind them, where it may stand there.
#[tactic(auto, unfolding(crate::specs::Judging::judge))]
pub fn judge(alloc: Global, judged: Judged, line: Line) -> Result<Option<Judged>, AllocError>
    ensures { IfOk result (λ next. states.if_there reads.judged_of next ≡ spec.judge line (reads.judged_of judged)) }
{
    let mut judged = judged;
    match test(alloc, &mut judged, &line.phrase) {
        Ok(true) => put(alloc, judged, line),
        Ok(false) => {
            drop((judged, line));
            Ok(None)
        }
        Err(error) => {
            drop((judged, line));
            Err(error)
        }
    }
}

// ---- the end

/// Whether the lines may end here: `main` is there, and no procedure is owed.
pub fn is_whole(judged: &Judged) -> bool
    ensures { result ≡ spec.is_whole judged.now.state.procs (states.spot_of judged.now.state.spot) judged.now.told }
{
    match judged.state.spot {
        Spot::Between => {
            !judged.state.procs.is_empty() && judged.told.args.all_in(&judged.told.given)
        }
        Spot::Inside(..) | Spot::Ended(..) => false,
    }
}

/// The program that the lines make.
pub fn program(judged: Judged) -> Program
    ensures { result ≡ spec.program_of (states.state_of judged.state) }
{
    let Judged { state, told, .. } = judged;
    let State {
        ins,
        outs,
        procs,
        spot,
    } = state;
    drop((told, spot));
    Program { ins, outs, procs }
}
