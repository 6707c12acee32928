//! Reads values, and the lines that give them to parameters.

ghost use Rattle.std.specs.Prelude.{ℕ, List, ◌≡◌, ◌≢◌, ◌<◌, ◌≤◌, [], ◌∷◌, ◌++◌, length, IfOk, OnOk, true, false};
ghost use Rattle.std.specs.FinMap as maps;
ghost use Rattle.std.specs.FinSet as sets;
ghost use Rattle.containers.specs.Bag.{bag_of};
ghost use Rattle.nres_core.specs.Texts.{put_all};
ghost use Rattle.nres_automaton.specs.Cursor.{left};
ghost use Rattle.nres_automaton.specs.Automaton.{Mode, Reads, braces as braces_mode, members as members_mode, number as number_mode, numbers as numbers_mode, numbers_read, pair_of, pass, value as value_mode};

use nres_automaton::{Cursor, Fixed, Lexeme, SyntaxRefusal, is_bag, is_fixed, more};
use nres_core::{NumBag, NumMap, NumSet, Nums, Value};
use sqlite_items::Items;
use std::alloc::{AllocError, Global};

/// The finite set of some numbers.
fn set_of(alloc: Global, numbers: &[u64]) -> Result<NumSet, AllocError>
    ensures { IfOk result (λ s. s ≡ sets.from_list numbers.now) }
{
    let mut set = NumSet::new(alloc);
    for number in numbers {
        set.add(*number)?;
    }
    Ok(set)
}

/// The multiset of some numbers.
fn bag_with(alloc: Global, numbers: &[u64]) -> Result<NumBag, AllocError>
    ensures { IfOk result (λ b. b ≡ bag_of numbers.now) }
{
    let mut bag = NumBag::new(alloc);
    for number in numbers {
        bag.add(*number)?;
    }
    Ok(bag)
}

/// The finite map of some pairs; a later pair for a key wins.
fn map_of(alloc: Global, pairs: &[(u64, u64)]) -> Result<NumMap, AllocError>
    ensures { IfOk result (λ m. m ≡ put_all maps.empty pairs.now) }
{
    let mut map = NumMap::new(alloc);
    for pair in pairs {
        map.add(pair.0, pair.1)?;
    }
    Ok(map)
}

/// A number.
fn number(cursor: &mut Cursor<'_>, room: u8) -> Result<u64, SyntaxRefusal>
    ensures reads { Reads room number_mode (left cursor.old) result (left cursor.new) }
    ensures shorter { OnOk result (length (left cursor.new).0 < length (left cursor.old).0) }
{
    let next = cursor.peek();
    match next.lexeme {
        Lexeme::Number(value) => {
            cursor.take();
            Ok(value)
        }
        _ => Err(SyntaxRefusal::At(next.place)),
    }
}

/// Further numbers behind these, and the bracket behind them.
fn numbers(
    cursor: &mut Cursor<'_>,
    room: u8,
    close: Fixed,
    mut all: Items<u64>,
) -> Result<Items<u64>, SyntaxRefusal>
    ensures reads { Reads room (numbers_mode close all) (left cursor.old) result (left cursor.new) }
    ensures shorter { OnOk result (length (left cursor.new).0 < length (left cursor.old).0) }
{
    'each: loop {
        let found = number(cursor, room)?;
        all.push(found)?;
        let goes_on = more(cursor, room, close)?;
        if !goes_on {
            return Ok(all);
        }
    }
}

/// Numbers up to a bracket.
fn members(
    alloc: Global,
    cursor: &mut Cursor<'_>,
    room: u8,
    close: Fixed,
) -> Result<Items<u64>, SyntaxRefusal>
    ensures reads { Reads room (members_mode close) (left cursor.old) result (left cursor.new) }
    ensures shorter { OnOk result (length (left cursor.new).0 < length (left cursor.old).0) }
{
    let next = cursor.peek();
    if is_fixed(close, next.lexeme) {
        cursor.take();
        return Ok(Items::new(alloc));
    }
    numbers(cursor, room, close, Items::new(alloc))
}

/// A pair behind its key, further pairs behind these, and the bracket behind them.
fn pairs(
    cursor: &mut Cursor<'_>,
    room: u8,
    first: u64,
    mut all: Items<(u64, u64)>,
) -> Result<Items<(u64, u64)>, SyntaxRefusal>
    ensures reads { Reads room (λ k. pair_of all k first) (left cursor.old) result (left cursor.new) }
    ensures shorter { OnOk result (length (left cursor.new).0 < length (left cursor.old).0) }
{
    let mut key = first;
    'each: loop {
        let found = number(cursor, room)?;
        all.push((key, found))?;
        let goes_on = more(cursor, room, Fixed::CloseBrace)?;
        if !goes_on {
            return Ok(all);
        }
        key = number(cursor, room)?;
        cursor.pass(Fixed::Colon)?;
    }
}

/// A set or a map behind its bracket.
fn braces(alloc: Global, cursor: &mut Cursor<'_>, room: u8) -> Result<Value, SyntaxRefusal>
    ensures reads { Reads room braces_mode (left cursor.old) result (left cursor.new) }
    ensures shorter { OnOk result (length (left cursor.new).0 < length (left cursor.old).0) }
{
    let next = cursor.peek();
    if is_fixed(Fixed::Colon, next.lexeme) {
        cursor.take();
        cursor.pass(Fixed::CloseBrace)?;
        return Ok(Value::Map(NumMap::new(alloc)));
    }
    if is_fixed(Fixed::CloseBrace, next.lexeme) {
        cursor.take();
        return Ok(Value::Set(NumSet::new(alloc)));
    }
    let first = number(cursor, room)?;
    let behind = cursor.peek();
    if is_fixed(Fixed::Colon, behind.lexeme) {
        cursor.take();
        let none = Items::new(alloc);
        let entries = pairs(cursor, room, first, none)?;
        let map = map_of(alloc, entries.as_slice())?;
        return Ok(Value::Map(map));
    }
    let elements = set_members(alloc, cursor, room, first)?;
    let set = set_of(alloc, elements.as_slice())?;
    Ok(Value::Set(set))
}

/// The elements of a set behind the first.
fn set_members(
    alloc: Global,
    cursor: &mut Cursor<'_>,
    room: u8,
    first: u64,
) -> Result<Items<u64>, SyntaxRefusal>
    ensures reads { Reads room (λ k. numbers_read Fixed.CloseBrace (first ∷ []) k) (left cursor.old) result (left cursor.new) }
    ensures shorter { OnOk result (length (left cursor.new).0 < length (left cursor.old).0) }
{
    let mut all = Items::new(alloc);
    all.push(first)?;
    let goes_on = more(cursor, room, Fixed::CloseBrace)?;
    if !goes_on {
        return Ok(all);
    }
    numbers(cursor, room, Fixed::CloseBrace, all)
}

/// A list behind its bracket.
fn bracketed(alloc: Global, cursor: &mut Cursor<'_>, room: u8) -> Result<Value, SyntaxRefusal>
    ensures reads { Reads room (λ k. members_mode Fixed.CloseSquare (λ ns. k (Value.List ns))) (left cursor.old) result (left cursor.new) }
    ensures shorter { OnOk result (length (left cursor.new).0 < length (left cursor.old).0) }
{
    let found = members(alloc, cursor, room, Fixed::CloseSquare)?;
    let list = Nums::from_slice(alloc, found.as_slice())?;
    Ok(Value::List(list))
}

/// A multiset behind its word.
fn bag(alloc: Global, cursor: &mut Cursor<'_>, room: u8) -> Result<Value, SyntaxRefusal>
    ensures reads { Reads room (λ k. pass Fixed.OpenSquare (λ _. members_mode Fixed.CloseSquare (λ ns. k (Value.Bag (bag_of ns))))) (left cursor.old) result (left cursor.new) }
    ensures shorter { OnOk result (length (left cursor.new).0 < length (left cursor.old).0) }
{
    cursor.pass(Fixed::OpenSquare)?;
    let found = members(alloc, cursor, room, Fixed::CloseSquare)?;
    let bag = bag_with(alloc, found.as_slice())?;
    Ok(Value::Bag(bag))
}

/// A value.
pub fn value(alloc: Global, cursor: &mut Cursor<'_>, room: u8) -> Result<Value, SyntaxRefusal>
    ensures reads { Reads room value_mode (left cursor.old) result (left cursor.new) }
    ensures shorter { OnOk result (length (left cursor.new).0 < length (left cursor.old).0) }
{
    let next = cursor.peek();
    if is_fixed(Fixed::OpenSquare, next.lexeme) {
        cursor.take();
        return bracketed(alloc, cursor, room);
    }
    if is_fixed(Fixed::OpenBrace, next.lexeme) {
        cursor.take();
        return braces(alloc, cursor, room);
    }
    if is_bag(next.lexeme) {
        cursor.take();
        return bag(alloc, cursor, room);
    }
    match next.lexeme {
        Lexeme::Number(number) => {
            cursor.take();
            Ok(Value::Nat(number))
        }
        Lexeme::Truth(truth) => {
            cursor.take();
            Ok(Value::Bool(truth))
        }
        _ => Err(SyntaxRefusal::At(next.place)),
    }
}
