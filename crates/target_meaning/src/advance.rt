//! One step of a leaf, as far as the heap has no part in it.

ghost use Rattle.std.specs.Prelude.{◌≡◌, List, [], MatchOption, IfOk, IsOk, OnErr};
ghost use Rattle.target_meaning.specs.Leaf as leaf;
ghost use Rattle.target_meaning.specs.Stacks.{caller_of, callers_of, code_at, frame_of, rets_at, stack_of};
ghost use Rattle.target_meaning.specs.Turns.{PlainNext, Stays, TellsAll, run_of, wait_of};

use crate::frame::{Todo, instruct, test};
use crate::registers::{put_words, words_in};
use crate::settle::{Standing, find, settle};
use crate::stack::{Frame, Frames, Stack};
use sqlite_items::{Items, at};
use std::alloc::{AllocError, Global};
use target_code::{Instr, Proc};

/// The code of a procedure.
pub fn code_of(procs: &[Proc], number: usize) -> &[Instr]
    ensures { result.now ≡ code_at procs.now number }
{
    match at(procs, number) {
        Some(proc) => proc.code.list.as_slice(),
        None => &[],
    }
}

/// The registers of a procedure's results.
fn results_of(procs: &[Proc], number: usize) -> &[u32]
    ensures { result.now ≡ rets_at procs.now number }
{
    match at(procs, number) {
        Some(proc) => proc.ret.as_slice(),
        None => &[],
    }
}

/// The results of its call come back to a frame.
fn resume(procs: &[Proc], frame: &mut Frame, words: &[u64])
    ensures { frame_of procs.now frame.new ≡ leaf.resume (caller_of procs.now frame.old) words.now }
{
    if let Some((instr, next)) = find(
        code_of(procs, frame.proc),
        frame.outer.as_slice(),
        frame.at,
    ) {
        if let Instr::Call { to, .. } = instr {
            put_words(&mut frame.regs, to.as_slice(), words);
        }
        frame.at = next;
    }
}

/// The results of both branches come back to a fork.
pub fn rejoin(procs: &[Proc], frames: &mut Frames, left: &[u64], right: &[u64])
    ensures { run_of procs.now frames.new ≡ leaf.joined (wait_of procs.now frames.old) left.now right.now }
{
    let frame = &mut frames.top;
    if let Some((instr, next)) = find(
        code_of(procs, frame.proc),
        frame.outer.as_slice(),
        frame.at,
    ) {
        if let Instr::Par {
            left: first,
            right: second,
        } = instr
        {
            put_words(&mut frame.regs, first.to.as_slice(), left);
            put_words(&mut frame.regs, second.to.as_slice(), right);
        }
        frame.at = next;
    }
}

/// The end of the procedure at hand: its results, where no caller waits for them.
fn finish(
    alloc: Global,
    procs: &[Proc],
    frames: &mut Frames,
) -> Result<Option<Items<u64>>, AllocError>
    ensures ok { IfOk result (λ ended. let act = leaf.return_act
        (leaf.read_all frames.old.top.regs (rets_at procs.now frames.old.top.proc))
        (callers_of procs.now frames.old.below.items []) in MatchOption ended
        (act ≡ leaf.Go (run_of procs.now frames.new)) (λ words. act ≡ leaf.Go (leaf.End words))) }
    ensures err { OnErr result (frames.new ≡ frames.old) }
{
    let words = words_in(
        alloc,
        frames.top.regs.as_slice(),
        results_of(procs, frames.top.proc),
    )?;
    let Some(mut caller) = frames.below.pop() else {
        return Ok(Some(Items::from_vec(words)));
    };
    resume(procs, &mut caller, words.as_slice());
    frames.top = caller;
    Ok(None)
}

/// Makes a leaf's next step, where it is one of registers and frames alone, or tells what it is.
pub fn advance(alloc: Global, procs: &[Proc], stack: &mut Stack) -> Result<Todo, AllocError>
    ensures ok { IfOk result (λ todo. TellsAll procs.now (leaf.act procs.now (stack_of procs.now stack.old))
        todo stack.new) }
    ensures plain { PlainNext (stack_of procs.now stack.old) → IsOk result }
    ensures stays { IfOk result (λ todo. Stays todo (stack_of procs.now stack.new)
        (stack_of procs.now stack.old)) }
    ensures err { OnErr result (stack_of procs.now stack.new ≡ stack_of procs.now stack.old) }
{
    let Stack::Run(frames) = stack else {
        return Ok(Todo::Over);
    };
    let code = code_of(procs, frames.top.proc);
    match settle(code, &mut frames.top.outer, &mut frames.top.at) {
        Standing::Do(instr, next) => instruct(alloc, procs, instr, next, frames),
        Standing::Test(register, next) => {
            test(&mut frames.top, register, next);
            Ok(Todo::Gone)
        }
        Standing::Return => {
            if let Some(words) = finish(alloc, procs, frames)? {
                *stack = Stack::End(words);
            }
            Ok(Todo::Gone)
        }
    }
}
