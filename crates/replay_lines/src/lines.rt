//! The lines of answers.

ghost use Rattle.std.specs.Prelude.{◌≡◌, ◌∷◌, ◌++◌, [], codes, decimal, OnOk};
ghost use Rattle.replay.specs.Schedules.{path_text};
ghost use Rattle.replay_lines.specs.Lines as texts;

use replay::ReplayEnd;
use replay::schedule::push_path;
use std::alloc::AllocError;
use target_code::push_number;
use target_meaning::{Reason, Side};

/// A word, a number and a line feed.
fn push_numbered(out: &mut Vec<u8>, word: &[u8], number: u64) -> Result<(), AllocError>
    ensures { OnOk result (out.new.items ≡ out.old.items ++ texts.numbered word.now number) }
{
    out.extend_from_slice(word)?;
    push_number(out, number)?;
    out.push(b'\n')?;
    Ok(())
}

/// Puts the line that tells that a line of the input is none of a schedule behind what stands in `out`. Answers an error
/// where memory runs out.
pub fn push_no_schedule(out: &mut Vec<u8>, line: u64) -> Result<(), AllocError>
    ensures { OnOk result (out.new.items ≡ out.old.items ++ texts.no_schedule_line line) }
{
    push_numbered(out, b"! not a schedule ", line)
}

fn reason_word(reason: Reason) -> &'static [u8]
    ensures { result.now ≡ texts.reason_word reason }
{
    match reason {
        Reason::Block => b"block",
        Reason::Index => b"index",
        Reason::Zero => b"zero",
        Reason::Shift => b"shift",
    }
}

fn push_race(out: &mut Vec<u8>, after: u64, left: &[Side], right: &[Side]) -> Result<(), AllocError>
    ensures { OnOk result (out.new.items ≡ out.old.items ++ (codes "race " ++ (decimal after ++ (codes " " ++
        (path_text left.now ++ (codes " " ++ (path_text right.now ++ 10 ∷ []))))))) }
{
    out.extend_from_slice(b"race ")?;
    push_number(out, after)?;
    out.extend_from_slice(b" ")?;
    push_path(out, left)?;
    out.extend_from_slice(b" ")?;
    push_path(out, right)?;
    out.push(b'\n')?;
    Ok(())
}

/// A place in a procedure, and why a leaf is stuck there.
fn push_place(out: &mut Vec<u8>, proc: &[u8], line: u64, reason: Reason) -> Result<(), AllocError>
    ensures { OnOk result (out.new.items ≡ out.old.items ++ (proc.now ++ (codes " " ++ (decimal line ++
        (codes " " ++ (texts.reason_word reason ++ 10 ∷ [])))))) }
{
    out.extend_from_slice(proc)?;
    out.extend_from_slice(b" ")?;
    push_number(out, line)?;
    out.extend_from_slice(b" ")?;
    out.extend_from_slice(reason_word(reason))?;
    out.push(b'\n')?;
    Ok(())
}

/// How many steps were made, and the path of a stuck leaf.
fn push_stuck(out: &mut Vec<u8>, after: u64, path: &[Side]) -> Result<(), AllocError>
    ensures { OnOk result (out.new.items ≡ out.old.items ++ (codes "stuck " ++ (decimal after ++ (codes " " ++
        (path_text path.now ++ codes " "))))) }
{
    out.extend_from_slice(b"stuck ")?;
    push_number(out, after)?;
    out.extend_from_slice(b" ")?;
    push_path(out, path)?;
    out.extend_from_slice(b" ")
}

fn push_bad_step(out: &mut Vec<u8>, at: u64, used: bool) -> Result<(), AllocError>
    ensures { OnOk result (out.new.items ≡ out.old.items ++ (codes "! step " ++ (decimal at ++ (codes " " ++
        (texts.bad_words used ++ 10 ∷ []))))) }
{
    out.extend_from_slice(b"! step ")?;
    push_number(out, at)?;
    if used {
        out.extend_from_slice(b" name used\n")
    } else {
        out.extend_from_slice(b" no leaf\n")
    }
}

fn push_depth(out: &mut Vec<u8>, path: &[Side]) -> Result<(), AllocError>
    ensures { OnOk result (out.new.items ≡ out.old.items ++ (codes "! depth " ++ (path_text path.now ++ 10 ∷ []))) }
{
    out.extend_from_slice(b"! depth ")?;
    push_path(out, path)?;
    out.push(b'\n')?;
    Ok(())
}

/// Puts the line of an answer behind what stands in `out`: `race K PATH PATH`, `stuck K PATH PROC LINE WHY`, `full K`,
/// `end K`, `open K`, `! step K no leaf`, `! step K name used` or `! depth PATH`. Answers an error where memory runs out.
pub fn push_end(out: &mut Vec<u8>, end: &ReplayEnd) -> Result<(), AllocError>
    ensures { OnOk result (out.new.items ≡ out.old.items ++ texts.end_line end.now) }
{
    match end {
        ReplayEnd::Race { after, left, right } => {
            push_race(out, *after, left.sides(), right.sides())
        }
        ReplayEnd::Stuck {
            after,
            path,
            proc,
            line,
            reason,
        } => {
            push_stuck(out, *after, path.sides())?;
            push_place(out, proc.bytes(), *line, *reason)
        }
        ReplayEnd::Full { at } => push_numbered(out, b"full ", *at),
        ReplayEnd::End { at } => push_numbered(out, b"end ", *at),
        ReplayEnd::Open { steps } => push_numbered(out, b"open ", *steps),
        ReplayEnd::BadStep { at, used } => push_bad_step(out, *at, *used),
        ReplayEnd::Depth { path } => push_depth(out, path.sides()),
    }
}

/// The number of the status that goes with an answer: 13 for a limit of depth, 18 for a step that could not be made, else
/// 0. It takes no memory.
pub fn code(end: &ReplayEnd) -> u8
    ensures { result ≡ texts.code_of end.now }
{
    match end {
        ReplayEnd::Depth { .. } => 13,
        ReplayEnd::BadStep { .. } => 18,
        _ => 0,
    }
}
