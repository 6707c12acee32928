//! Schedules from text. A line is read leniently: what should stand where is taken for granted. Then it is held against
//! its one text.

ghost use Rattle.std.specs.Prelude.{◌≡◌, ◌++◌, ◌+◌, ◌^◌, ◌<◌, ◌≤◌, ℕ, [], ◌∷◌, length, drop, Err, OnOk, IfOk, IfErr, IfSome, IfNone};
ghost use Rattle.replay.specs.declared.schedule.NoSchedule.TheVariants as NoSchedule;
ghost use Rattle.replay.specs.Reading as spec;
ghost use Rattle.replay.specs.Schedules as texts;
ghost use Rattle.replay.specs.Schedules.{HasWord, IsNoMove, RefusedAt};
ghost use Rattle.std.specs.List.{AllByRecursion};
ghost use Rattle.target_lines.specs.Reading as lines;

use crate::schedule::{Move, NoSchedule, push_move};
use std::alloc::{AllocError, Global};
use target_meaning::{Path, Side};

/// How many lines a schedule has at most.
const MOST_LINES: usize = 20_000;

/// What is left behind so many bytes.
fn skip(count: usize, bytes: &[u8]) -> &[u8]
    ensures { result.now ≡ drop count bytes.now }
{
    if count < bytes.len() {
        &bytes[count..]
    } else {
        &[]
    }
}

/// The number at the front, cut off at the greatest word.
#[tactic(auto, unfolding(target_lines::specs::Reading::number_from))]
fn number(bytes: &[u8]) -> u64
    ensures { result ≡ (lines.number_at bytes.now).0 }
{
    let mut value: u64 = 0;
    let mut rest = bytes;
    while let [digit @ b'0'..=b'9', after @ ..] = rest {
        value = value
            .saturating_mul(10)
            .saturating_add(u64::from(*digit - b'0'));
        rest = after;
    }
    value
}

/// The sides whose letters stand at the front, and the rest.
#[tactic(auto, unfolding(crate::specs::Reading::letters_from))]
fn letters(alloc: Global, bytes: &[u8]) -> Result<(Path, &[u8]), AllocError>
    ensures { IfOk result (λ x. (x.0, x.1.now) ≡ spec.letters_from [] bytes.now) }
{
    let mut path = Path::root(alloc);
    let mut rest = bytes;
    loop {
        match rest {
            [b'L', after @ ..] => {
                path.push(Side::Left)?;
                rest = after;
            }
            [b'R', after @ ..] => {
                path.push(Side::Right)?;
                rest = after;
            }
            _ => return Ok((path, rest)),
        }
    }
}

/// The path at the front, and the rest.
#[tactic(auto, unfolding(crate::specs::Reading::path_at))]
fn path(alloc: Global, bytes: &[u8]) -> Result<(Path, &[u8]), AllocError>
    ensures { IfOk result (λ x. (x.0, x.1.now) ≡ spec.path_at bytes.now) }
{
    match bytes {
        [b'-', rest @ ..] => Ok((Path::root(alloc), rest)),
        _ => letters(alloc, bytes),
    }
}

/// The step of a line.
#[tactic(auto, unfolding(crate::specs::Reading::move_at))]
fn line(alloc: Global, bytes: &[u8]) -> Result<Move, AllocError>
    ensures is { IfOk result (λ step. step ≡ spec.move_at bytes.now) }
    ensures word { IfOk result HasWord }
{
    let (path, rest) = path(alloc, skip(3, bytes))?;
    let name = number(skip(1, rest));
    Ok(Move { path, name })
}

/// The step whose line stands at the front, and what stands behind the line; nothing where none does.
fn next(alloc: Global, bytes: &[u8]) -> Result<Option<(Move, &[u8])>, AllocError>
    ensures some { IfOk result (λ next. IfSome next (λ x. (bytes.now ≡ texts.move_text x.0 ++ x.1.now) × HasWord x.0)) }
    ensures none { IfOk result (λ next. IfNone next (IsNoMove bytes.now)) }
{
    let step = line(alloc, bytes)?;
    let mut text = Vec::new(alloc);
    push_move(&mut text, &step)?;
    match bytes.strip_prefix(text.as_slice()) {
        Some(rest) => Ok(Some((step, rest))),
        None => Ok(None),
    }
}

fn add(steps: &mut Vec<Move>, step: Move) -> Result<(), NoSchedule>
    ensures ok { OnOk result (steps.new.items ≡ steps.old.items ++ step ∷ []) }
    ensures err { IfErr result (λ error. error ≡ NoSchedule.Memory) }
{
    match steps.push(step) {
        Ok(()) => Ok(()),
        Err(_) => Err(NoSchedule::Memory),
    }
}

/// The schedule whose text the bytes are, of which the first is on this line of the input: a line `at PATH NAME` for each
/// step, at most 20,000. A path is `-` at the root, else `L` and `R` from the root on; a name is a word in decimal digits.
///
/// # Errors
///
/// `NoSchedule::Line` with the first line of the input that is none of these, or is the 20,001st; a last line without a
/// line feed is none. `NoSchedule::Memory` where memory runs out.
pub fn read_schedule(alloc: Global, bytes: &[u8], first_line: u64) -> Result<Vec<Move>, NoSchedule>
    requires { first_line + length bytes.now < 2 ^ 64 }
    ensures ok { IfOk result (λ steps. (bytes.now ≡ texts.schedule_text steps.items) × (length steps.items ≤ texts.most_lines)) }
    ensures words { IfOk result (λ steps. AllByRecursion HasWord steps.items) }
    ensures line { (k : ℕ) → result ≡ Err (NoSchedule.Line k) → RefusedAt bytes.now first_line k }
{
    let mut steps = Vec::new(alloc);
    let mut rest = bytes;
    while !rest.is_empty() {
        let number = first_line + steps.len() as u64;
        if steps.len() >= MOST_LINES {
            return Err(NoSchedule::Line(number));
        }
        match next(alloc, rest) {
            Ok(Some((step, after))) => {
                add(&mut steps, step)?;
                rest = after;
            }
            Ok(None) => return Err(NoSchedule::Line(number)),
            Err(_) => return Err(NoSchedule::Memory),
        }
    }
    Ok(steps)
}
