//! Reads names, patterns, results and arguments.

ghost use Rattle.std.specs.Prelude.{ℕ, List, ◌≡◌, ◌≢◌, ◌<◌, ◌≤◌, [], ◌∷◌, length, OnOk, true, false};
ghost use Rattle.nres_automaton.specs.Cursor.{left};
ghost use Rattle.nres_automaton.specs.Automaton.{Mode, Reads, args as args_mode, comma_or, later as later_mode, name as name_mode, others as others_mode, pass, pattern as pattern_mode, results as results_mode, whole as whole_mode};

use crate::cursor::Cursor;
use crate::expr::{go_on, level, name_of, whole};
use crate::lexeme::{Fixed, Lexeme, is_fixed};
use crate::refusal::SyntaxRefusal;
use nres_core::{Expr, Named, Place};
use sqlite_items::Items;
use std::alloc::Global;

/// Goes past a comma, behind which more comes, or past the sign that ends a list.
pub fn more(cursor: &mut Cursor<'_>, room: u8, close: Fixed) -> Result<bool, SyntaxRefusal>
    ensures reads { Reads room (λ k. comma_or close (k true) (k false)) (left cursor.old) result (left cursor.new) }
    ensures shorter { OnOk result (length (left cursor.new).0 < length (left cursor.old).0) }
{
    let next = cursor.peek();
    if is_fixed(Fixed::Comma, next.lexeme) {
        cursor.take();
        return Ok(true);
    }
    cursor.pass(close)?;
    Ok(false)
}

/// A name.
pub fn name(alloc: Global, cursor: &mut Cursor<'_>, room: u8) -> Result<Named, SyntaxRefusal>
    ensures reads { Reads room name_mode (left cursor.old) result (left cursor.new) }
    ensures shorter { OnOk result (length (left cursor.new).0 < length (left cursor.old).0) }
{
    let next = cursor.peek();
    match next.lexeme {
        Lexeme::Name => {
            let name = name_of(alloc, cursor.bytes())?;
            cursor.take();
            Ok(Named {
                name,
                place: next.place,
            })
        }
        _ => Err(SyntaxRefusal::At(next.place)),
    }
}

/// A name, and this word or sign.
pub fn name_to(
    alloc: Global,
    cursor: &mut Cursor<'_>,
    room: u8,
    fixed: Fixed,
) -> Result<Named, SyntaxRefusal>
    ensures reads { Reads room (λ k. name_mode (λ n. pass fixed (λ _. k n))) (left cursor.old) result (left cursor.new) }
    ensures shorter { OnOk result (length (left cursor.new).0 < length (left cursor.old).0) }
{
    let found = name(alloc, cursor, room)?;
    cursor.pass(fixed)?;
    Ok(found)
}

/// Further names behind these, and the bracket behind them.
pub fn others(
    alloc: Global,
    cursor: &mut Cursor<'_>,
    room: u8,
    mut names: Items<Named>,
) -> Result<Items<Named>, SyntaxRefusal>
    ensures reads { Reads room (others_mode names) (left cursor.old) result (left cursor.new) }
    ensures shorter { OnOk result (length (left cursor.new).0 < length (left cursor.old).0) }
{
    'each: loop {
        let found = name(alloc, cursor, room)?;
        names.push(found)?;
        let goes_on = more(cursor, room, Fixed::Close)?;
        if !goes_on {
            return Ok(names);
        }
    }
}

/// The names of a pattern, and the place of its first token.
#[derive(Drop)]
pub struct Bound {
    pub names: Items<Named>,
    pub place: Place,
}

/// One name, or several in brackets.
pub fn pattern(alloc: Global, cursor: &mut Cursor<'_>, room: u8) -> Result<Bound, SyntaxRefusal>
    ensures reads { Reads room (λ k. pattern_mode (λ xs p. k (record { names = xs; place = p }))) (left cursor.old) result (left cursor.new) }
    ensures shorter { OnOk result (length (left cursor.new).0 < length (left cursor.old).0) }
{
    let next = cursor.peek();
    let place = next.place;
    let mut names = Items::new(alloc);
    if is_fixed(Fixed::Open, next.lexeme) {
        if room == 0 {
            return Err(SyntaxRefusal::TooDeep(place));
        }
        cursor.take();
        let first = name_to(alloc, cursor, room - 1, Fixed::Comma)?;
        names.push(first)?;
        let names = others(alloc, cursor, room - 1, names)?;
        return Ok(Bound { names, place });
    }
    let only = name(alloc, cursor, room)?;
    names.push(only)?;
    Ok(Bound { names, place })
}

/// A pattern, and this word or sign.
pub fn pattern_to(
    alloc: Global,
    cursor: &mut Cursor<'_>,
    room: u8,
    fixed: Fixed,
) -> Result<Bound, SyntaxRefusal>
    ensures reads { Reads room (λ k. pattern_mode (λ xs p. pass fixed (λ _. k (record { names = xs; place = p })))) (left cursor.old) result (left cursor.new) }
    ensures shorter { OnOk result (length (left cursor.new).0 < length (left cursor.old).0) }
{
    let found = pattern(alloc, cursor, room)?;
    cursor.pass(fixed)?;
    Ok(found)
}

/// Further expressions behind these, and the bracket behind them.
pub fn later(
    alloc: Global,
    cursor: &mut Cursor<'_>,
    room: u8,
    mut all: Items<Expr>,
) -> Result<Items<Expr>, SyntaxRefusal>
    ensures reads { Reads room (later_mode all) (left cursor.old) result (left cursor.new) }
    ensures shorter { OnOk result (length (left cursor.new).0 < length (left cursor.old).0) }
{
    'each: loop {
        let found = whole(alloc, cursor, room)?;
        all.push(found)?;
        let goes_on = more(cursor, room, Fixed::Close)?;
        if !goes_on {
            return Ok(all);
        }
    }
}

/// One result, or several in brackets. A bracket holds the first of several, or begins the one.
pub fn results(
    alloc: Global,
    cursor: &mut Cursor<'_>,
    room: u8,
) -> Result<Items<Expr>, SyntaxRefusal>
    ensures reads { Reads room results_mode (left cursor.old) result (left cursor.new) }
    ensures shorter { OnOk result (length (left cursor.new).0 < length (left cursor.old).0) }
{
    let next = cursor.peek();
    let mut all = Items::new(alloc);
    if is_fixed(Fixed::Open, next.lexeme) {
        if room == 0 {
            return Err(SyntaxRefusal::TooDeep(next.place));
        }
        cursor.take();
        let first = level(alloc, cursor, room - 1, 5)?;
        let goes_on = more(cursor, room - 1, Fixed::Close)?;
        if goes_on {
            cursor.restart();
            all.push(first)?;
            return later(alloc, cursor, room - 1, all);
        }
        let sum = go_on(alloc, cursor, room, 5, next.place, first)?;
        cursor.restart();
        all.push(sum)?;
        return Ok(all);
    }
    let only = whole(alloc, cursor, room)?;
    all.push(only)?;
    Ok(all)
}

/// Results, and this word or sign.
pub fn results_to(
    alloc: Global,
    cursor: &mut Cursor<'_>,
    room: u8,
    fixed: Fixed,
) -> Result<Items<Expr>, SyntaxRefusal>
    ensures reads { Reads room (λ k. results_mode (λ es. pass fixed (λ _. k es))) (left cursor.old) result (left cursor.new) }
    ensures shorter { OnOk result (length (left cursor.new).0 < length (left cursor.old).0) }
{
    let found = results(alloc, cursor, room)?;
    cursor.pass(fixed)?;
    Ok(found)
}

/// An expression that stands in no other, and this word or sign.
pub fn whole_to(
    alloc: Global,
    cursor: &mut Cursor<'_>,
    room: u8,
    fixed: Fixed,
) -> Result<Expr, SyntaxRefusal>
    ensures reads { Reads room (λ k. whole_mode (λ e. pass fixed (λ _. k e))) (left cursor.old) result (left cursor.new) }
    ensures shorter { OnOk result (length (left cursor.new).0 < length (left cursor.old).0) }
{
    let found = whole(alloc, cursor, room)?;
    cursor.pass(fixed)?;
    Ok(found)
}

/// The arguments of a call, and the bracket behind them.
pub fn args(alloc: Global, cursor: &mut Cursor<'_>, room: u8) -> Result<Items<Expr>, SyntaxRefusal>
    ensures reads { Reads room args_mode (left cursor.old) result (left cursor.new) }
    ensures shorter { OnOk result (length (left cursor.new).0 < length (left cursor.old).0) }
{
    let next = cursor.peek();
    if is_fixed(Fixed::Close, next.lexeme) {
        cursor.take();
        return Ok(Items::new(alloc));
    }
    later(alloc, cursor, room, Items::new(alloc))
}
