//! Reads parameters, what is shown, and the heads of specifications and procedures.

ghost use Rattle.std.specs.Prelude.{ℕ, List, Bool, ◌≡◌, ◌≢◌, ◌<◌, ◌≤◌, ◌-◌, ◌&&◌, [], ◌∷◌, length, OnOk, true, false};
ghost use Rattle.nres_core.specs.Texts.{param as param_made};
ghost use Rattle.nres_syntax.specs.Bodies.{ReadsTo, inner_params, one_shown, slice_or};
ghost use Rattle.nres_automaton.specs.Cursor.{left};
ghost use Rattle.nres_automaton.specs.Automaton.{Mode, Reads, container as container_mode, headed, is_list, laid as laid_mode, more_params as more_params_mode, more_shown as more_shown_mode, name as name_mode, param_of, shown as shown_mode, typed as typed_mode};

use crate::block::block_to;
use nres_automaton::{
    Cursor, Fixed, Lexeme, SyntaxRefusal, container_type, is_fixed, more, name, name_to, rep,
};
use nres_core::{Block, Named, Param, Shown, Ty};
use sqlite_items::Items;
use std::alloc::Global;
use target_code::Rep;

/// The representation of a container of this type.
fn laid(cursor: &mut Cursor<'_>, room: u8, ty: Ty) -> Result<Shown, SyntaxRefusal>
    ensures reads { Reads room (laid_mode ty) (left cursor.old) result (left cursor.new) }
    ensures shorter { OnOk result (length (left cursor.new).0 < length (left cursor.old).0) }
{
    let chosen = rep(cursor, room)?;
    Ok(Shown {
        ty,
        rep: chosen.rep,
        rep_place: chosen.place,
    })
}

/// The representation of a list, which may be a slice.
fn list_laid(cursor: &mut Cursor<'_>, room: u8, ty: Ty) -> Result<Shown, SyntaxRefusal>
    ensures reads { Reads room (slice_or ty) (left cursor.old) result (left cursor.new) }
    ensures shorter { OnOk result (length (left cursor.new).0 < length (left cursor.old).0) }
{
    let next = cursor.peek();
    if is_fixed(Fixed::Slice, next.lexeme) {
        cursor.take();
        return Ok(Shown {
            ty: Ty::List,
            rep: Rep::Slice,
            rep_place: next.place,
        });
    }
    laid(cursor, room, ty)
}

fn may_be_slice(slices: bool, ty: Ty) -> bool
    ensures { result ≡ (slices && is_list ty) }
{
    match ty {
        Ty::List => slices,
        _ => false,
    }
}

/// What is behind the type of a container.
fn container(
    cursor: &mut Cursor<'_>,
    room: u8,
    slices: bool,
    ty: Ty,
) -> Result<Shown, SyntaxRefusal>
    ensures reads { Reads room (container_mode slices ty) (left cursor.old) result (left cursor.new) }
    ensures shorter { OnOk result (length (left cursor.new).0 < length (left cursor.old).0) }
{
    cursor.pass(Fixed::As)?;
    if may_be_slice(slices, ty) {
        return list_laid(cursor, room, ty);
    }
    laid(cursor, room, ty)
}

/// What a parameter or result is, and whether it is a container.
#[derive(Clone, Copy)]
struct Typed {
    shown: Shown,
    held: bool,
}

fn typed_as(cursor: &mut Cursor<'_>, room: u8, slices: bool) -> Result<Typed, SyntaxRefusal>
    ensures reads { Reads room (λ k. typed_mode slices (λ s. k (record { shown = s; held = false })) (λ s. k (record { shown = s; held = true }))) (left cursor.old) result (left cursor.new) }
    ensures shorter { OnOk result (length (left cursor.new).0 < length (left cursor.old).0) }
{
    let next = cursor.peek();
    if let Some(ty) = container_type(next.lexeme) {
        cursor.take();
        let shown = container(cursor, room, slices, ty)?;
        return Ok(Typed { shown, held: true });
    }
    match next.lexeme {
        Lexeme::Plain(ty, rep) => {
            cursor.take();
            let shown = Shown {
                ty,
                rep,
                rep_place: next.place,
            };
            Ok(Typed { shown, held: false })
        }
        _ => Err(SyntaxRefusal::At(next.place)),
    }
}

/// One result that is shown.
fn one_result(cursor: &mut Cursor<'_>, room: u8, slices: bool) -> Result<Shown, SyntaxRefusal>
    ensures reads { Reads room (one_shown slices) (left cursor.old) result (left cursor.new) }
    ensures shorter { OnOk result (length (left cursor.new).0 < length (left cursor.old).0) }
{
    let found = typed_as(cursor, room, slices)?;
    Ok(found.shown)
}

fn param_with(found: Named, shown: Shown, kept: bool) -> Param
    ensures { result ≡ param_made found.name found.place shown kept }
{
    Param {
        name: found.name,
        place: found.place,
        ty: shown.ty,
        rep: shown.rep,
        rep_place: shown.rep_place,
        kept,
    }
}

/// A parameter.
fn param(
    alloc: Global,
    cursor: &mut Cursor<'_>,
    room: u8,
    slices: bool,
) -> Result<Param, SyntaxRefusal>
    ensures reads { Reads room (λ k. name_mode (λ n. param_of slices n k)) (left cursor.old) result (left cursor.new) }
    ensures shorter { OnOk result (length (left cursor.new).0 < length (left cursor.old).0) }
{
    let found = name_to(alloc, cursor, room, Fixed::Colon)?;
    let typed = typed_as(cursor, room, slices)?;
    if !typed.held {
        return Ok(param_with(found, typed.shown, false));
    }
    let next = cursor.peek();
    if is_fixed(Fixed::Kept, next.lexeme) {
        cursor.take();
        return Ok(param_with(found, typed.shown, true));
    }
    Ok(param_with(found, typed.shown, false))
}

/// Further parameters behind these, and the bracket behind them.
fn more_params(
    alloc: Global,
    cursor: &mut Cursor<'_>,
    room: u8,
    slices: bool,
    mut all: Items<Param>,
) -> Result<Items<Param>, SyntaxRefusal>
    ensures reads { Reads room (more_params_mode slices all) (left cursor.old) result (left cursor.new) }
    ensures shorter { OnOk result (length (left cursor.new).0 < length (left cursor.old).0) }
{
    'each: loop {
        let found = param(alloc, cursor, room, slices)?;
        all.push(found)?;
        let goes_on = more(cursor, room, Fixed::Close)?;
        if !goes_on {
            return Ok(all);
        }
    }
}

/// Parameters in brackets.
fn params(
    alloc: Global,
    cursor: &mut Cursor<'_>,
    room: u8,
    slices: bool,
) -> Result<Items<Param>, SyntaxRefusal>
    ensures reads { Reads room (inner_params slices) (left cursor.old) result (left cursor.new) }
    ensures shorter { OnOk result (length (left cursor.new).0 < length (left cursor.old).0) }
{
    cursor.pass(Fixed::Open)?;
    let next = cursor.peek();
    if is_fixed(Fixed::Close, next.lexeme) {
        cursor.take();
        return Ok(Items::new(alloc));
    }
    more_params(alloc, cursor, room, slices, Items::new(alloc))
}

/// Further results that are shown behind these, and the bracket behind them.
fn more_shown(
    cursor: &mut Cursor<'_>,
    room: u8,
    slices: bool,
    mut all: Items<Shown>,
) -> Result<Items<Shown>, SyntaxRefusal>
    ensures reads { Reads room (more_shown_mode slices all) (left cursor.old) result (left cursor.new) }
    ensures shorter { OnOk result (length (left cursor.new).0 < length (left cursor.old).0) }
{
    'each: loop {
        let found = one_result(cursor, room, slices)?;
        all.push(found)?;
        let goes_on = more(cursor, room, Fixed::Close)?;
        if !goes_on {
            return Ok(all);
        }
    }
}

/// One result that is shown, or several in brackets.
fn shown(
    alloc: Global,
    cursor: &mut Cursor<'_>,
    room: u8,
    slices: bool,
) -> Result<Items<Shown>, SyntaxRefusal>
    ensures reads { Reads room (shown_mode slices) (left cursor.old) result (left cursor.new) }
    ensures shorter { OnOk result (length (left cursor.new).0 < length (left cursor.old).0) }
{
    let next = cursor.peek();
    let mut all = Items::new(alloc);
    if is_fixed(Fixed::Open, next.lexeme) {
        if room == 0 {
            return Err(SyntaxRefusal::TooDeep(next.place));
        }
        cursor.take();
        let first = one_result(cursor, room - 1, slices)?;
        cursor.pass(Fixed::Comma)?;
        all.push(first)?;
        return more_shown(cursor, room - 1, slices, all);
    }
    let only = one_result(cursor, room, slices)?;
    all.push(only)?;
    Ok(all)
}

/// The name, parameters, results and block of a specification or of a procedure.
#[derive(Drop)]
pub struct Head {
    pub name: Named,
    pub params: Items<Param>,
    pub shown: Items<Shown>,
    pub body: Block,
}

/// All of a specification or a procedure behind its first word, with the block and the bracket of its parameters counted.
pub fn heading(
    alloc: Global,
    cursor: &mut Cursor<'_>,
    room: u8,
    slices: bool,
) -> Result<Head, SyntaxRefusal>
    requires { 2 ≤ room }
    ensures reads { ReadsTo (room - 2) (λ k. headed slices (λ n xs ys z. k (record { name = n; params = xs; shown = ys; body = z }))) room (left cursor.old) result (left cursor.new) }
    ensures shorter { OnOk result (length (left cursor.new).0 < length (left cursor.old).0) }
{
    let found = name(alloc, cursor, room - 2)?;
    let list = params(alloc, cursor, room - 2, slices)?;
    cursor.pass(Fixed::Colon)?;
    let results = shown(alloc, cursor, room - 1, slices)?;
    let body = block_to(alloc, cursor, room - 1, Fixed::End)?;
    Ok(Head {
        name: found,
        params: list,
        shown: results,
        body,
    })
}
