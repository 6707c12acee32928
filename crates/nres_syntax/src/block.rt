//! Reads blocks, steps and bodies.

ghost use Rattle.std.specs.Prelude.{ℕ, List, ◌≡◌, ◌≢◌, ◌<◌, ◌≤◌, [], ◌∷◌, length, OnOk};
ghost use Rattle.nres_syntax.specs.Bodies.{either_inner, foreach_inner, if_inner, inner, named_to, over_mode, par_inner, split_inner, step_mode, while_inner};
ghost use Rattle.nres_automaton.specs.Cursor.{left};
ghost use Rattle.nres_automaton.specs.Automaton.{Mode, Reads, block_to as block_to_mode, body as body_mode, call_body, steps as steps_mode, whole_atom as whole_atom_mode};

use nres_automaton::{
    Construct, Cursor, Fixed, Lexeme, SyntaxRefusal, args, construct_at, is_fixed, name, name_of,
    name_to, others, pattern_to, results, results_to, whole, whole_atom, whole_to,
};
use nres_core::{Block, Body, Named, Place, Step};
use sqlite_items::Items;
use std::alloc::Global;

/// A call behind its word.
fn call(
    alloc: Global,
    cursor: &mut Cursor<'_>,
    room: u8,
    place: Place,
) -> Result<Body, SyntaxRefusal>
    ensures reads { Reads room (λ k. call_body k place) (left cursor.old) result (left cursor.new) }
    ensures shorter { OnOk result (length (left cursor.new).0 < length (left cursor.old).0) }
{
    let fun = name_to(alloc, cursor, room, Fixed::Open)?;
    let list = args(alloc, cursor, room)?;
    Ok(Body::Call {
        place,
        fun,
        args: list,
    })
}

/// A free choice of a number behind its word.
fn any(
    alloc: Global,
    cursor: &mut Cursor<'_>,
    room: u8,
    place: Place,
) -> Result<Body, SyntaxRefusal>
    ensures reads { Reads room (λ k. whole_atom_mode (λ a. whole_atom_mode (λ b. k (Body.Any place a b)))) (left cursor.old) result (left cursor.new) }
    ensures shorter { OnOk result (length (left cursor.new).0 < length (left cursor.old).0) }
{
    let low = whole_atom(alloc, cursor, room)?;
    let high = whole_atom(alloc, cursor, room)?;
    Ok(Body::Any { place, low, high })
}

/// What a `foreach` goes over, and the place of the bracket behind it.
#[derive(Drop)]
struct Over {
    var: Named,
    list: Named,
    place: Place,
}

fn over_list(alloc: Global, cursor: &mut Cursor<'_>, room: u8) -> Result<Over, SyntaxRefusal>
    ensures reads { Reads room (λ k. over_mode (λ n s q. k (record { var = n; list = s; place = q }))) (left cursor.old) result (left cursor.new) }
    ensures shorter { OnOk result (length (left cursor.new).0 < length (left cursor.old).0) }
{
    let var = name_to(alloc, cursor, room, Fixed::In)?;
    let list = name(alloc, cursor, room)?;
    let place = cursor.pass(Fixed::Open)?;
    Ok(Over { var, list, place })
}

/// A body that a word does not begin with a block in it, or that it does.
#[cycle(block)]
fn body(alloc: Global, cursor: &mut Cursor<'_>, room: u8) -> Result<Body, SyntaxRefusal>
    ensures reads { Reads room body_mode (left cursor.old) result (left cursor.new) }
    ensures shorter { OnOk result (length (left cursor.new).0 < length (left cursor.old).0) }
{
    let next = cursor.peek();
    let place = next.place;
    if let Some(kind) = construct_at(next.lexeme) {
        if room == 0 {
            return Err(SyntaxRefusal::TooDeep(place));
        }
        cursor.take();
        return opened(alloc, cursor, room - 1, place, kind);
    }
    if is_fixed(Fixed::Call, next.lexeme) {
        cursor.take();
        return call(alloc, cursor, room, place);
    }
    if is_fixed(Fixed::Any, next.lexeme) {
        cursor.take();
        return any(alloc, cursor, room, place);
    }
    match next.lexeme {
        Lexeme::Takes => {
            let word = name_of(alloc, cursor.bytes())?;
            cursor.take();
            let arg = whole_atom(alloc, cursor, room)?;
            Ok(Body::Take { place, word, arg })
        }
        _ => {
            let value = whole(alloc, cursor, room)?;
            Ok(Body::Value(value))
        }
    }
}

/// A body that holds blocks, behind its word.
#[cycle(block)]
fn opened(
    alloc: Global,
    cursor: &mut Cursor<'_>,
    room: u8,
    place: Place,
    kind: Construct,
) -> Result<Body, SyntaxRefusal>
    ensures reads { Reads room (inner kind place) (left cursor.old) result (left cursor.new) }
    ensures shorter { OnOk result (length (left cursor.new).0 < length (left cursor.old).0) }
{
    match kind {
        Construct::If => if_body(alloc, cursor, room, place),
        Construct::While => while_body(alloc, cursor, room, place),
        Construct::Par => par_body(alloc, cursor, room, place),
        Construct::Split => split_body(alloc, cursor, room, place),
        Construct::Either => either_body(alloc, cursor, room, place),
        Construct::Foreach => foreach_body(alloc, cursor, room, place),
    }
}

#[cycle(block)]
fn if_body(
    alloc: Global,
    cursor: &mut Cursor<'_>,
    room: u8,
    place: Place,
) -> Result<Body, SyntaxRefusal>
    ensures reads { Reads room (if_inner place) (left cursor.old) result (left cursor.new) }
    ensures shorter { OnOk result (length (left cursor.new).0 < length (left cursor.old).0) }
{
    let test = whole_to(alloc, cursor, room, Fixed::Then)?;
    let yes = block_to(alloc, cursor, room, Fixed::Else)?;
    let no = block_to(alloc, cursor, room, Fixed::End)?;
    Ok(Body::If {
        place,
        test,
        yes,
        no,
    })
}

#[cycle(block)]
fn while_body(
    alloc: Global,
    cursor: &mut Cursor<'_>,
    room: u8,
    place: Place,
) -> Result<Body, SyntaxRefusal>
    ensures reads { Reads room (while_inner place) (left cursor.old) result (left cursor.new) }
    ensures shorter { OnOk result (length (left cursor.new).0 < length (left cursor.old).0) }
{
    let vars = pattern_to(alloc, cursor, room, Fixed::From)?;
    let starts = results_to(alloc, cursor, room, Fixed::If)?;
    let test = whole_to(alloc, cursor, room, Fixed::Do)?;
    let turn = block_to(alloc, cursor, room, Fixed::End)?;
    Ok(Body::While {
        place,
        vars: vars.names,
        vars_place: vars.place,
        starts,
        test,
        body: turn,
    })
}

#[cycle(block)]
fn par_body(
    alloc: Global,
    cursor: &mut Cursor<'_>,
    room: u8,
    place: Place,
) -> Result<Body, SyntaxRefusal>
    ensures reads { Reads room (par_inner place) (left cursor.old) result (left cursor.new) }
    ensures shorter { OnOk result (length (left cursor.new).0 < length (left cursor.old).0) }
{
    let first = block_to(alloc, cursor, room, Fixed::And)?;
    let second = block_to(alloc, cursor, room, Fixed::End)?;
    Ok(Body::Par {
        place,
        left: first,
        right: second,
    })
}

#[cycle(block)]
fn split_body(
    alloc: Global,
    cursor: &mut Cursor<'_>,
    room: u8,
    place: Place,
) -> Result<Body, SyntaxRefusal>
    ensures reads { Reads room (split_inner place) (left cursor.old) result (left cursor.new) }
    ensures shorter { OnOk result (length (left cursor.new).0 < length (left cursor.old).0) }
{
    let list = name_to(alloc, cursor, room, Fixed::At)?;
    let at = whole_to(alloc, cursor, room, Fixed::Left)?;
    let first = named_block(alloc, cursor, room, Fixed::Right)?;
    let second = named_block(alloc, cursor, room, Fixed::End)?;
    Ok(Body::Split {
        place,
        list,
        at,
        left_name: first.name,
        left: first.block,
        right_name: second.name,
        right: second.block,
    })
}

#[cycle(block)]
fn either_body(
    alloc: Global,
    cursor: &mut Cursor<'_>,
    room: u8,
    place: Place,
) -> Result<Body, SyntaxRefusal>
    ensures reads { Reads room (either_inner place) (left cursor.old) result (left cursor.new) }
    ensures shorter { OnOk result (length (left cursor.new).0 < length (left cursor.old).0) }
{
    let first = block_to(alloc, cursor, room, Fixed::Or)?;
    let second = block_to(alloc, cursor, room, Fixed::End)?;
    Ok(Body::Either {
        place,
        left: first,
        right: second,
    })
}

#[cycle(block)]
fn foreach_body(
    alloc: Global,
    cursor: &mut Cursor<'_>,
    room: u8,
    place: Place,
) -> Result<Body, SyntaxRefusal>
    ensures reads { Reads room (foreach_inner place) (left cursor.old) result (left cursor.new) }
    ensures shorter { OnOk result (length (left cursor.new).0 < length (left cursor.old).0) }
{
    let head = over_list(alloc, cursor, room)?;
    let vars = others(alloc, cursor, room, Items::new(alloc))?;
    cursor.pass(Fixed::From)?;
    let starts = results_to(alloc, cursor, room, Fixed::Do)?;
    let turn = block_to(alloc, cursor, room, Fixed::End)?;
    Ok(Body::Foreach {
        place,
        var: head.var,
        over: head.list,
        vars,
        vars_place: head.place,
        starts,
        body: turn,
    })
}

/// A name, and a block that it stands in.
#[derive(Drop)]
struct NamedBlock {
    name: Named,
    block: Block,
}

/// A name, and a block up to this word.
#[cycle(block)]
fn named_block(
    alloc: Global,
    cursor: &mut Cursor<'_>,
    room: u8,
    fixed: Fixed,
) -> Result<NamedBlock, SyntaxRefusal>
    ensures reads { Reads room (λ k. named_to fixed (λ n b. k (record { name = n; block = b }))) (left cursor.old) result (left cursor.new) }
    ensures shorter { OnOk result (length (left cursor.new).0 < length (left cursor.old).0) }
{
    let found = name(alloc, cursor, room)?;
    let inner = block_to(alloc, cursor, room, fixed)?;
    Ok(NamedBlock {
        name: found,
        block: inner,
    })
}

/// A block up to this word.
#[cycle(block)]
pub fn block_to(
    alloc: Global,
    cursor: &mut Cursor<'_>,
    room: u8,
    fixed: Fixed,
) -> Result<Block, SyntaxRefusal>
    ensures reads { Reads room (block_to_mode fixed) (left cursor.old) result (left cursor.new) }
    ensures shorter { OnOk result (length (left cursor.new).0 < length (left cursor.old).0) }
{
    let found = block(alloc, cursor, room)?;
    cursor.pass(fixed)?;
    Ok(found)
}

/// A step, where no `return` comes.
#[cycle(block)]
fn step(alloc: Global, cursor: &mut Cursor<'_>, room: u8) -> Result<Step, SyntaxRefusal>
    ensures reads { Reads room step_mode (left cursor.old) result (left cursor.new) }
    ensures shorter { OnOk result (length (left cursor.new).0 < length (left cursor.old).0) }
{
    let next = cursor.peek();
    if is_fixed(Fixed::Assert, next.lexeme) {
        cursor.take();
        let test = whole(alloc, cursor, room)?;
        return Ok(Step::Assert {
            place: next.place,
            test,
        });
    }
    let bound = pattern_to(alloc, cursor, room, Fixed::Arrow)?;
    let found = body(alloc, cursor, room)?;
    Ok(Step::Bind {
        names: bound.names,
        place: bound.place,
        body: found,
    })
}

/// Steps, `return` and results.
#[cycle(block)]
fn block(alloc: Global, cursor: &mut Cursor<'_>, room: u8) -> Result<Block, SyntaxRefusal>
    ensures reads { Reads room (steps_mode []) (left cursor.old) result (left cursor.new) }
    ensures shorter { OnOk result (length (left cursor.new).0 < length (left cursor.old).0) }
{
    let mut steps = Items::new(alloc);
    'each: loop {
        let next = cursor.peek();
        if is_fixed(Fixed::Return, next.lexeme) {
            cursor.take();
            let shown = results(alloc, cursor, room)?;
            return Ok(Block {
                steps,
                place: next.place,
                results: shown,
            });
        }
        let found = step(alloc, cursor, room)?;
        steps.push(found)?;
    }
}
