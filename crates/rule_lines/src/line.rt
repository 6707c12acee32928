//! The line of a refusal, from its parts.

ghost use Rattle.std.specs.Prelude.{◌≡◌, ◌++◌, IfOk, OnOk};
ghost use Rattle.std.specs.List.{flat_map};
ghost use Rattle.rule_lines.specs.RuleLines as lines;

use nres_core::{Place, Refusal, Why};
use std::alloc::{AllocError, Global};
use target_code::{Name, Rep, push_number, push_rep};

/// The representations, each behind a comma.
fn push_others(line: &mut Vec<u8>, reps: &[Rep]) -> Result<(), AllocError>
    ensures { OnOk result (line.new.items ≡ line.old.items ++ flat_map lines.rep_behind reps.now) }
{
    'each: for rep in reps {
        line.extend_from_slice(b", ")?;
        push_rep(line, *rep)?;
    }
    Ok(())
}

/// The representations, with commas between them.
fn push_reps(line: &mut Vec<u8>, reps: &[Rep]) -> Result<(), AllocError>
    ensures { OnOk result (line.new.items ≡ line.old.items ++ lines.reps_text reps.now) }
{
    match reps {
        [] => Ok(()),
        [first, others @ ..] => {
            push_rep(line, *first)?;
            push_others(line, others)
        }
    }
}

/// A word and a name.
fn push_named(line: &mut Vec<u8>, word: &[u8], name: &Name) -> Result<(), AllocError>
    ensures { OnOk result (line.new.items ≡ line.old.items ++ (word.now ++ name.now)) }
{
    line.extend_from_slice(word)?;
    line.extend_from_slice(name.bytes())
}

/// Why a bind is refused, in words.
fn push_why(line: &mut Vec<u8>, why: &Why) -> Result<(), AllocError>
    ensures { OnOk result (line.new.items ≡ line.old.items ++ lines.why_text why.now) }
{
    match why {
        Why::Missing => line.extend_from_slice(b"missing"),
        Why::Gone(name) => push_named(line, b"gone ", name),
        Why::Held(name) => push_named(line, b"held ", name),
        Why::Twice(name) => push_named(line, b"twice ", name),
        Why::Fact(name, bound) => {
            push_named(line, b"fact ", name)?;
            line.extend_from_slice(b" ")?;
            push_number(line, u64::from(*bound))
        }
        Why::Meet(name) => push_named(line, b"meet ", name),
        Why::Tag(name) => push_named(line, b"tag ", name),
        Why::Result(number) => {
            line.extend_from_slice(b"result ")?;
            push_number(line, u64::from(*number))
        }
    }
}

/// The beginning of the line: its word, the place, and the word of the operation.
fn begin(alloc: Global, place: Place, op: &Name) -> Result<Vec<u8>, AllocError>
    ensures { IfOk result (λ line. line.items ≡ lines.begin place op.now) }
{
    let mut line = Vec::new(alloc);
    line.extend_from_slice(b"! rule ")?;
    push_number(&mut line, place.line)?;
    line.extend_from_slice(b" ")?;
    push_number(&mut line, place.column)?;
    line.extend_from_slice(b" ")?;
    line.extend_from_slice(op.bytes())?;
    Ok(line)
}

/// The line of a refusal, with its line feed: `! rule LINE COLUMN OP (REPS) WHY`. Answers an error where memory runs out.
pub fn rule_line(alloc: Global, refusal: &Refusal) -> Result<Vec<u8>, AllocError>
    ensures { IfOk result (λ line. line.items ≡ lines.rule_line refusal.now) }
{
    let mut line = begin(alloc, refusal.place, &refusal.op)?;
    line.extend_from_slice(b" (")?;
    push_reps(&mut line, refusal.reps.as_slice())?;
    line.extend_from_slice(b") ")?;
    push_why(&mut line, &refusal.why)?;
    line.push(b'\n')?;
    Ok(line)
}
