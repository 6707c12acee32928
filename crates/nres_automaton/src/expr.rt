//! Reads expressions.

ghost use Rattle.std.specs.Prelude.{ℕ, List, ◌≡◌, ◌≢◌, ◌<◌, ◌≤◌, [], ◌∷◌, length, IfOk, OnOk, OnErr};
ghost use Rattle.nres_automaton.specs.Cursor.{left};
ghost use Rattle.nres_automaton.specs.Automaton as automaton;
ghost use Rattle.nres_automaton.specs.Automaton.{Reads, atom as atom_mode, atoms, bound as bound_mode, made as made_mode, opened, rep as rep_mode, want, whole as whole_mode, whole_atom as whole_atom_mode};

use crate::cursor::Cursor;
use crate::lexeme::{Bounded, Fixed, Lexeme, arity, is_fixed};
use crate::refusal::SyntaxRefusal;
use nres_core::{Chosen, Expr, Named, Place, looseness};
use sqlite_items::{Boxed, Items};
use std::alloc::{AllocError, Global};
use target_code::{Calc, Name, NameRefusal, Rep};

/// The name that these bytes are. Tokens that stand for names or operations are names, so no other answer comes where
/// there is memory.
pub fn name_of(alloc: Global, bytes: &[u8]) -> Result<Name, AllocError>
    ensures { IfOk result (λ n. n ≡ bytes.now) }
{
    match Name::new(alloc, bytes) {
        Ok(name) => Ok(name),
        Err(NameRefusal::NotAName | NameRefusal::Memory) => Err(AllocError),
    }
}

fn negated(alloc: Global, place: Place, arg: Expr) -> Result<Expr, AllocError>
    ensures { IfOk result (λ e. e ≡ Expr.Not place arg) }
{
    Ok(Expr::Not {
        place,
        arg: Boxed::new(alloc, arg)?,
    })
}

fn binary(
    alloc: Global,
    place: Place,
    word: Calc,
    left: Expr,
    right: Expr,
) -> Result<Expr, AllocError>
    ensures { IfOk result (λ e. e ≡ Expr.Binary place word left right) }
{
    Ok(Expr::Binary {
        place,
        word,
        left: Boxed::new(alloc, left)?,
        right: Boxed::new(alloc, right)?,
    })
}

fn bounded(kind: Bounded, bound: u32) -> Rep
    ensures { result ≡ automaton.bound_of kind bound }
{
    match kind {
        Bounded::Bits => Rep::Bits(bound),
        Bounded::Amap => Rep::Amap(bound),
    }
}

/// The bound of a representation.
fn bound(cursor: &mut Cursor<'_>, room: u8) -> Result<u32, SyntaxRefusal>
    ensures reads { Reads room bound_mode (left cursor.old) result (left cursor.new) }
    ensures shorter { OnOk result (length (left cursor.new).0 < length (left cursor.old).0) }
{
    let next = cursor.peek();
    match next.lexeme {
        Lexeme::Number(value) => {
            if value < 1 {
                return Err(SyntaxRefusal::At(next.place));
            }
            if value > 4_294_967_295 {
                return Err(SyntaxRefusal::At(next.place));
            }
            cursor.take();
            Ok(value as u32)
        }
        _ => Err(SyntaxRefusal::At(next.place)),
    }
}

/// A representation.
pub fn rep(cursor: &mut Cursor<'_>, room: u8) -> Result<Chosen, SyntaxRefusal>
    ensures reads { Reads room (λ k. rep_mode (λ r p. k (record { rep = r; place = p }))) (left cursor.old) result (left cursor.new) }
    ensures shorter { OnOk result (length (left cursor.new).0 < length (left cursor.old).0) }
{
    let next = cursor.peek();
    match next.lexeme {
        Lexeme::Unbounded(rep) => {
            cursor.take();
            Ok(Chosen {
                rep,
                place: next.place,
            })
        }
        Lexeme::Bounded(kind) => {
            cursor.take();
            let bound = bound(cursor, room)?;
            Ok(Chosen {
                rep: bounded(kind, bound),
                place: next.place,
            })
        }
        _ => Err(SyntaxRefusal::At(next.place)),
    }
}

/// What is behind the arguments of a constructor: the representation that is chosen.
fn made(
    cursor: &mut Cursor<'_>,
    room: u8,
    place: Place,
    word: Name,
    args: Items<Expr>,
) -> Result<Expr, SyntaxRefusal>
    ensures reads { Reads room (made_mode place word args) (left cursor.old) result (left cursor.new) }
    ensures shorter { OnOk result (length (left cursor.new).0 < length (left cursor.old).0) }
{
    cursor.pass(Fixed::As)?;
    let chosen = rep(cursor, room)?;
    Ok(Expr::Apply {
        place,
        word,
        args,
        made: Some(chosen),
    })
}

/// An atom.
#[cycle(expr)]
pub fn atom(alloc: Global, cursor: &mut Cursor<'_>, room: u8) -> Result<Expr, SyntaxRefusal>
    ensures reads { Reads room atom_mode (left cursor.old) result (left cursor.new) }
    ensures shorter { OnOk result (length (left cursor.new).0 < length (left cursor.old).0) }
{
    let next = cursor.peek();
    let place = next.place;
    if is_fixed(Fixed::Open, next.lexeme) {
        if room == 0 {
            return Err(SyntaxRefusal::TooDeep(place));
        }
        cursor.take();
        let inner = level(alloc, cursor, room - 1, 5)?;
        cursor.pass(Fixed::Close)?;
        return Ok(inner);
    }
    match next.lexeme {
        Lexeme::Number(value) => {
            cursor.take();
            Ok(Expr::Num { place, value })
        }
        Lexeme::Truth(value) => {
            cursor.take();
            Ok(Expr::Truth { place, value })
        }
        Lexeme::Name => {
            let name = name_of(alloc, cursor.bytes())?;
            cursor.take();
            Ok(Expr::Var(Named { name, place }))
        }
        _ => Err(SyntaxRefusal::At(place)),
    }
}

/// A calculation by its word.
#[cycle(expr)]
fn calculation(
    alloc: Global,
    cursor: &mut Cursor<'_>,
    room: u8,
    place: Place,
    word: Calc,
) -> Result<Expr, SyntaxRefusal>
    ensures reads { Reads room (λ k. atom_mode (λ a. atom_mode (λ b. k (Expr.Binary place word a b)))) (left cursor.old) result (left cursor.new) }
    ensures shorter { OnOk result (length (left cursor.new).0 < length (left cursor.old).0) }
{
    let first = atom(alloc, cursor, room)?;
    let second = atom(alloc, cursor, room)?;
    Ok(binary(alloc, place, word, first, second)?)
}

/// A list of zeros of a length.
#[cycle(expr)]
fn zeros(
    alloc: Global,
    cursor: &mut Cursor<'_>,
    room: u8,
    place: Place,
    word: Name,
) -> Result<Expr, SyntaxRefusal>
    ensures reads { Reads room (λ k. atom_mode (λ e. made_mode place word (e ∷ []) k)) (left cursor.old) result (left cursor.new) }
    ensures shorter { OnOk result (length (left cursor.new).0 < length (left cursor.old).0) }
{
    let len = atom(alloc, cursor, room)?;
    let mut args = Items::new(alloc);
    args.push(len)?;
    made(cursor, room, place, word, args)
}

/// The arguments of an operation.
#[cycle(expr)]
fn arguments(
    alloc: Global,
    cursor: &mut Cursor<'_>,
    room: u8,
    place: Place,
    word: Name,
    count: usize,
) -> Result<Expr, SyntaxRefusal>
    ensures reads { Reads room (atoms place word [] count) (left cursor.old) result (left cursor.new) }
    ensures shorter { OnOk result (length (left cursor.new).0 ≤ length (left cursor.old).0) }
{
    let mut args = Items::new(alloc);
    'each: for _ in 0..count {
        let arg = atom(alloc, cursor, room)?;
        args.push(arg)?;
    }
    Ok(Expr::Apply {
        place,
        word,
        args,
        made: None,
    })
}

/// An operation with its arguments, an expression behind `!`, or an atom.
#[cycle(expr)]
fn unary(alloc: Global, cursor: &mut Cursor<'_>, room: u8) -> Result<Expr, SyntaxRefusal>
    ensures reads { Reads room (want 0) (left cursor.old) result (left cursor.new) }
    ensures shorter { OnOk result (length (left cursor.new).0 < length (left cursor.old).0) }
{
    let next = cursor.peek();
    let place = next.place;
    if is_fixed(Fixed::Not, next.lexeme) {
        cursor.spend()?;
        cursor.take();
        let arg = unary(alloc, cursor, room)?;
        return Ok(negated(alloc, place, arg)?);
    }
    if let Some(count) = arity(next.lexeme) {
        let word = name_of(alloc, cursor.bytes())?;
        cursor.take();
        return arguments(alloc, cursor, room, place, word, count);
    }
    if is_fixed(Fixed::Zeros, next.lexeme) {
        let word = name_of(alloc, cursor.bytes())?;
        cursor.take();
        return zeros(alloc, cursor, room, place, word);
    }
    match next.lexeme {
        Lexeme::Calculates(word) => {
            cursor.take();
            calculation(alloc, cursor, room, place, word)
        }
        Lexeme::Empty => {
            let word = name_of(alloc, cursor.bytes())?;
            cursor.take();
            made(cursor, room, place, word, Items::new(alloc))
        }
        _ => atom(alloc, cursor, room),
    }
}

/// An expression whose binary signs outside brackets bind at most so loosely.
#[cycle(expr)]
pub fn level(
    alloc: Global,
    cursor: &mut Cursor<'_>,
    room: u8,
    loosest: u8,
) -> Result<Expr, SyntaxRefusal>
    requires { loosest ≤ 5 }
    ensures reads { Reads room (want loosest) (left cursor.old) result (left cursor.new) }
    ensures shorter { OnOk result (length (left cursor.new).0 < length (left cursor.old).0) }
{
    let place = cursor.peek().place;
    let first = unary(alloc, cursor, room)?;
    go_on(alloc, cursor, room, loosest, place, first)
}

/// What an expression that has begun so goes on to.
#[cycle(expr)]
pub fn go_on(
    alloc: Global,
    cursor: &mut Cursor<'_>,
    room: u8,
    loosest: u8,
    place: Place,
    first: Expr,
) -> Result<Expr, SyntaxRefusal>
    requires { loosest ≤ 5 }
    ensures reads { Reads room (λ k. opened loosest place k first) (left cursor.old) result (left cursor.new) }
    ensures shorter { OnOk result (length (left cursor.new).0 ≤ length (left cursor.old).0) }
{
    if loosest == 0 {
        return Ok(first);
    }
    let mut sum = go_on(alloc, cursor, room, loosest - 1, place, first)?;
    'signs: loop {
        let Lexeme::Sign(word) = cursor.peek().lexeme else {
            return Ok(sum);
        };
        if looseness(word) != loosest {
            return Ok(sum);
        }
        cursor.spend()?;
        cursor.take();
        let right = level(alloc, cursor, room, loosest - 1)?;
        sum = binary(alloc, place, word, sum, right)?;
        if loosest == 3 {
            return Ok(sum);
        }
    }
}

/// An expression that stands in no other.
pub fn whole(alloc: Global, cursor: &mut Cursor<'_>, room: u8) -> Result<Expr, SyntaxRefusal>
    ensures reads { Reads room whole_mode (left cursor.old) result (left cursor.new) }
    ensures shorter { OnOk result (length (left cursor.new).0 < length (left cursor.old).0) }
{
    let found = level(alloc, cursor, room, 5)?;
    cursor.restart();
    Ok(found)
}

/// An atom that stands in no other expression.
pub fn whole_atom(alloc: Global, cursor: &mut Cursor<'_>, room: u8) -> Result<Expr, SyntaxRefusal>
    ensures reads { Reads room whole_atom_mode (left cursor.old) result (left cursor.new) }
    ensures shorter { OnOk result (length (left cursor.new).0 < length (left cursor.old).0) }
{
    let found = atom(alloc, cursor, room)?;
    cursor.restart();
    Ok(found)
}
