//! Programs from text, line by line.

ghost use Rattle.std.specs.Prelude.{◌≡◌, ◌++◌, ◌∷◌, [], ◌<◌, ◌≤◌, ◌+◌, ◌-◌, ◌^◌, ℕ, suc, Bool, List, length, Ok, Err, IfOk, IfSome, IfNone};
ghost use Rattle.target_lines.specs.Texts.{IsOneLine, sepref_text};
ghost use Rattle.target_code.specs.Formed.{Formed};
ghost use Rattle.target_lines.specs.Programs.{program_text};
ghost use Rattle.target_judge.specs.Judging as judging_spec;
ghost use Rattle.target_judge.specs.States as states;
ghost use Rattle.target_judge.specs.Judging.{unread};
ghost use Rattle.target_text.specs.Runs.{Goes, Stays, Took, Stuck, Ends};
ghost use Rattle.target_text.specs.Refusals.{RefusedAt};
ghost use Rattle.target_code.specs.declared.tree.Program.{Program as ProgramOf};
ghost use Rattle.target_judge.specs.Reads as reads;
ghost use Rattle.target_text.specs.declared.refusal.NotProgram.TheVariants as NotProgram;

use crate::printing;
use crate::refusal::NotProgram;
use std::alloc::{AllocError, Global};
use target_code::Program;
use target_judge::judging::{self, Judged};
use target_lines::reading;

/// What stands before the first line feed, and what stands behind it.
fn cut(bytes: &[u8]) -> Option<(&[u8], &[u8])>
    ensures some { IfSome result (λ parts. (bytes.now ≡ parts.0.now ++ (10 ∷ parts.1.now)) × IsOneLine parts.0.now) }
    ensures none { IfNone result (IsOneLine bytes.now) }
{
    let mut end = 0;
    while end < bytes.len() {
        if bytes[end] == b'\n' {
            return Some((&bytes[..end], &bytes[end + 1..]));
        }
        end += 1;
    }
    None
}

/// What the lines say with this text of a line behind them, where it is one and may stand there.
fn step(
    alloc: Global,
    lends: bool,
    judged: Judged,
    text: &[u8],
) -> Result<Option<Judged>, AllocError>
    ensures goes { IfOk result (λ next. IfSome next (λ n. Goes lends text.now (reads.judged_of judged) (reads.judged_of n))) }
    ensures stays { IfOk result (λ next. IfNone next (Stays lends text.now (reads.judged_of judged))) }
{
    match reading::line(alloc, lends, text) {
        Ok(Some(line)) => judging::judge(alloc, judged, line),
        Ok(None) => {
            drop(judged);
            Ok(None)
        }
        Err(error) => {
            drop(judged);
            Err(error)
        }
    }
}

/// What the lines say with the first line of the rest behind them, and what is left; nothing where it may not stand there.
#[tactic(auto, using(crate::proofs::Cuts::took_more, crate::proofs::Cuts::stuck_line, crate::proofs::Cuts::stuck_end))]
fn next(
    alloc: Global,
    lends: bool,
    judged: Judged,
    rest: &[u8],
) -> Result<Option<(Judged, &[u8])>, AllocError>
    ensures goes { (bytes : List ℕ) (count : ℕ) → Took lends bytes count (reads.judged_of judged) rest.now →
        IfOk result (λ next. IfSome next (λ x. Took lends bytes (suc count) (reads.judged_of x.0) x.1.now)) }
    ensures stays { (bytes : List ℕ) (count : ℕ) → Took lends bytes count (reads.judged_of judged) rest.now → (rest.now ≡ [] → ⊥) →
        IfOk result (λ next. IfNone next (Stuck lends bytes (suc count))) }
    ensures shorter { IfOk result (λ next. IfSome next (λ x. length x.1.now < length rest.now)) }
{
    match cut(rest) {
        None => {
            drop(judged);
            Ok(None)
        }
        Some((text, after)) => match step(alloc, lends, judged, text)? {
            None => Ok(None),
            Some(judged) => Ok(Some((judged, after))),
        },
    }
}

/// What the lines of a text behind its first line say, and how many they are. The first line is counted in a refusal.
#[tactic(auto, using(crate::proofs::Cuts::took_none))]
fn read_lines(alloc: Global, lends: bool, bytes: &[u8]) -> Result<(Judged, u64), NotProgram>
    ensures all { IfOk result (λ x. Took lends bytes.now x.1 (reads.judged_of x.0) []) }
    ensures within { IfOk result (λ x. x.1 ≤ length bytes.now) }
    ensures line { (k : ℕ) → result ≡ Err (NotProgram.Line k) → Stuck lends bytes.now (k - 1) × (k ≤ length bytes.now + 2) }
{
    let mut judged = judging::unread(alloc);
    let mut rest = bytes;
    let mut count: u64 = 0;
    while !rest.is_empty() {
        match next(alloc, lends, judged, rest) {
            Ok(Some((behind, left))) => {
                judged = behind;
                rest = left;
                count += 1;
            }
            Ok(None) => return Err(NotProgram::Line(count + 2)),
            Err(_) => return Err(NotProgram::Memory),
        }
    }
    Ok((judged, count))
}

/// Whether some branch has a lend, by the first line, and what stands behind that line.
fn first_line(bytes: &[u8]) -> Option<(bool, &[u8])>
    ensures some { IfSome result (λ x. bytes.now ≡ sepref_text x.0 ++ (10 ∷ x.1.now)) }
    ensures none { IfNone result ((lends : Bool) (rest : List ℕ) → bytes.now ≡ sepref_text lends ++ (10 ∷ rest) → ⊥) }
{
    match bytes {
        [
            b's',
            b'e',
            b'p',
            b'r',
            b'e',
            b'f',
            b' ',
            b'1',
            b'\n',
            rest @ ..,
        ] => Some((false, rest)),
        [
            b's',
            b'e',
            b'p',
            b'r',
            b'e',
            b'f',
            b' ',
            b'2',
            b'\n',
            rest @ ..,
        ] => Some((true, rest)),
        _ => None,
    }
}

/// The program whose text the bytes are.
///
/// # Errors
///
/// `NotProgram::Line` exactly where they are the text of no formed program, with the least number of lines that are the
/// first lines of no program's text, or the number of lines plus 1 where the text only ends too early. What follows the
/// last line feed counts as a line. `NotProgram::Memory` where memory runs out.
pub fn read_program(alloc: Global, bytes: &[u8]) -> Result<Program, NotProgram>
    ensures ok { IfOk result (λ t. Formed t × (bytes.now ≡ program_text t)) }
    ensures only { (t : ProgramOf) → Formed t → bytes.now ≡ program_text t → (result ≡ Err NotProgram.Memory → ⊥) → result ≡ Ok t }
    ensures line { (k : ℕ) → result ≡ Err (NotProgram.Line k) → RefusedAt bytes.now k }
{
    let Some((lends, rest)) = first_line(bytes) else {
        return Err(NotProgram::Line(1));
    };
    match read_lines(alloc, lends, rest) {
        Err(refusal) => Err(refusal),
        Ok((judged, count)) => finish(judged, lends, count),
    }
}

/// The program that the lines make, where they may end here.
fn finish(judged: Judged, lends: bool, count: u64) -> Result<Program, NotProgram>
    requires { count < 2 ^ 64 - 2 }
    ensures ok { IfOk result (λ t. Ends lends (reads.judged_of judged) × (t ≡ judging_spec.program_of (states.state_of judged.state))) }
    ensures line { (k : ℕ) → result ≡ Err (NotProgram.Line k) → (k ≡ count + 2) × (Ends lends (reads.judged_of judged) → ⊥) }
    ensures room { result ≡ Err NotProgram.Memory → ⊥ }
{
    let whole = judging::is_whole(&judged);
    let program = judging::program(judged);
    let shown = printing::lends(&program);
    if whole && shown == lends {
        return Ok(program);
    }
    drop(program);
    Err(NotProgram::Line(count + 2))
}
