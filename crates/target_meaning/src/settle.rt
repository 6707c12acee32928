//! The way out of inner codes that are through.

ghost use Rattle.std.specs.Prelude.{◌≡◌, suc, List, [], ◌∷◌, ◌++◌, ◌<◌, length, slice_get, MatchOption};
ghost use Rattle.target_meaning.specs.declared.place.Outer.{Outer};
ghost use Rattle.target_meaning.specs.Place.{items_at, list_at};
ghost use Rattle.target_meaning.specs.Settled.{AfterIs, Settled};

use crate::place::{Inner, Outer, list_of};
use sqlite_items::{Items, at};
use target_code::Instr;

/// What a frame does next.
#[derive(Clone, Copy)]
pub enum Standing<'a> {
    /// This instruction, and the index behind it.
    Do(&'a Instr, usize),
    /// The test of a loop on this register, and the index behind the loop.
    Test(u32, usize),
    /// The end of its procedure.
    Return,
}

/// What follows an inner code.
#[derive(Clone, Copy)]
pub enum After {
    /// The loop's test on this register.
    Test(u32),
    /// The loop's first code again.
    Again,
    /// What stands behind the instruction.
    Behind,
}

/// The instruction at a place, and the index behind it.
pub fn find<'a>(code: &'a [Instr], outer: &[Outer], index: usize) -> Option<(&'a Instr, usize)>
    ensures { MatchOption result (slice_get (list_at code.now outer.now) index ≡ None)
        (λ found. (slice_get (list_at code.now outer.now) index ≡ Some found.0.now) × (found.1 ≡ suc index)) }
{
    let instr = at(list_of(code, outer), index)?;
    Some((instr, index + 1))
}

/// What follows an inner code of an instruction.
fn follows(inner: Inner, instr: &Instr) -> After
    ensures { AfterIs result inner instr.now }
{
    match instr {
        Instr::While { test, .. } => match inner {
            Inner::Cond => After::Test(*test),
            Inner::Body => After::Again,
            Inner::Yes | Inner::No => After::Behind,
        },
        _ => After::Behind,
    }
}

/// The innermost level and those around it.
pub fn innermost(outer: &[Outer]) -> Option<(&[Outer], Outer)>
    ensures { MatchOption result (outer.now ≡ []) (λ found. outer.now ≡ found.0.now ++ found.1 ∷ []) }
{
    match outer {
        [] => None,
        [front @ .., level] => Some((front, *level)),
    }
}

/// Turns to another inner code of the same instruction.
pub fn turn(outer: &mut Items<Outer>, inner: Inner)
    ensures { (front : List Outer) (level : Outer) → outer.old ≡ front ++ level ∷ [] → outer.new ≡
        front ++ (record { index = level.index; inner = inner }) ∷ [] }
{
    if let Some((front, level)) = innermost(outer.as_slice()) {
        let last = front.len();
        let index = level.index;
        outer.set(last, Outer { index, inner });
    }
}

/// What comes next at a place, which moves out of inner codes that are through.
pub fn settle<'a>(code: &'a [Instr], outer: &mut Items<Outer>, index: &mut usize) -> Standing<'a>
    ensures kept { items_at 1 code.now outer.new index.new ≡ items_at 1 code.now outer.old index.old }
    ensures next { Settled code.now result outer.new index.new }
{
    loop {
        if let Some((instr, next)) = find(code, outer.as_slice(), *index) {
            return Standing::Do(instr, next);
        }
        let Some((front, level)) = innermost(outer.as_slice()) else {
            return Standing::Return;
        };
        let Some((instr, next)) = find(code, front, level.index) else {
            outer.pop();
            *index = level.index;
            continue;
        };
        match follows(level.inner, instr) {
            After::Test(test) => return Standing::Test(test, next),
            After::Again => {
                turn(outer, Inner::Cond);
                *index = 0;
            }
            After::Behind => {
                outer.pop();
                *index = next;
            }
        }
    }
}
