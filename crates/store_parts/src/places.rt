//! One part of a fork.

ghost use Rattle.std.specs.Prelude.{◌≡◌, ◌≤◌, ◌<◌, ◌+◌, ◌^◌, ◌++◌, ◌∷◌, [], ℕ, true, false, suc, map, None, Some};
ghost use Rattle.std.specs.Option.{option_copied};
ghost use Rattle.target_meaning.specs.Held.{CanHalve, IsApart, Places, in_part, is_among, kept_share};
ghost use Rattle.target_meaning.specs.Piece.{Nil, share_of};
ghost use Rattle.target_meaning.specs.Turns.{part_of};
ghost use Rattle.store_parts.specs.Tests.{AllWords, AreApart, SpansApart, Tells, WordsApart, left_by, piece_after};

use crate::held::{Held, Holding};
use target_meaning::frame::{Part, Starting};

/// Whether a place of a block lies in a part.
pub fn is_in(part: &Part, block: u64, place: u64) -> bool
    ensures { result ≡ in_part (part_of part.now) block place }
{
    if part.block != block {
        return false;
    }
    match part.span {
        None => true,
        Some((offset, count)) => offset < place && place - offset <= count,
    }
}

/// Whether two spans, each an offset and a count, have no word in common.
fn words_apart(one: (u64, u64), two: (u64, u64)) -> bool
    ensures { Tells result (WordsApart one two) }
{
    if one.1 == 0 {
        return true;
    }
    if two.1 == 0 {
        return true;
    }
    if one.0 <= two.0 {
        return two.0 - one.0 >= one.1;
    }
    one.0 - two.0 >= two.1
}

/// Whether two spans of one block have no place in common.
fn spans_apart(one: Option<(u64, u64)>, two: Option<(u64, u64)>) -> bool
    ensures { Tells result (SpansApart one two) }
{
    match one {
        None => match two {
            None => false,
            Some(span) => span.1 == 0,
        },
        Some(first) => match two {
            None => first.1 == 0,
            Some(second) => words_apart(first, second),
        },
    }
}

/// Whether two parts have no place in common.
pub fn are_apart(one: &Part, two: &Part) -> bool
    ensures { Tells result (AreApart (part_of one.now) (part_of two.now)) }
{
    if one.block != two.block {
        return true;
    }
    spans_apart(one.span, two.span)
}

/// Whether two parts name the same block and span.
fn is_same(one: &Part, two: &Part) -> bool
    ensures { result ≡ is_among (part_of one.now) (part_of two.now ∷ []) }
{
    one.block == two.block
        && match (one.span, two.span) {
            (None, None) => true,
            (Some(first), Some(second)) => first.0 == second.0 && first.1 == second.1,
            _ => false,
        }
}

/// Whether a part is one of these.
pub fn is_one_of(part: &Part, list: &[Part]) -> bool
    ensures { result ≡ is_among (part_of part.now) (map part_of list.now) }
{
    for other in list {
        if is_same(part, other) {
            return true;
        }
    }
    false
}

/// Whether a part has no place in common with any of these.
pub fn is_apart(part: &Part, list: &[Part]) -> bool
    ensures { Tells result (IsApart (part_of part.now) (map part_of list.now)) }
{
    for other in list {
        if !are_apart(part, other) {
            return false;
        }
    }
    true
}

/// What is left of a place where all or half of it was taken.
fn left_over(held: Held, all: bool) -> Held
    ensures { share_of result.value result.amount ≡ kept_share true all (share_of held.value held.amount) }
{
    let amount = if all {
        0
    } else {
        held.amount - held.amount / 2
    };
    Held {
        value: held.value,
        amount,
    }
}

/// What is left of a place after parts were taken: all of each, or half of each.
fn after(parts: &[Part], all: bool, block: u64, place: u64, held: Held) -> Held
    ensures { share_of result.value result.amount ≡ left_by (map (λ p. record { part = p; all = all }) (map part_of parts.now))
        block place (share_of held.value held.amount) }
{
    let mut held = held;
    for part in parts {
        if is_in(part, block, place) {
            held = left_over(held, all);
        }
    }
    held
}

/// What is held of a place before a fork, or after its left branch took its parts.
pub fn held_after<H: Holding>(holding: &H, left: Option<&Starting>, block: u64, place: u64) -> Held
    ensures far { (b j : ℕ) → 2 ^ 64 ≤ j → piece_after (option_copied left.entry) (H.piece holding.now) b j ≡ Nil }
    ensures held { share_of result.value result.amount ≡ piece_after (option_copied left.entry) (H.piece holding.now) block place }
{
    let held = holding.held(block, place);
    match left {
        None => held,
        Some(left) => {
            let held = after(left.hands.as_slice(), true, block, place, held);
            after(left.lends.as_slice(), false, block, place, held)
        }
    }
}

/// Whether all or half of a place can be given.
pub fn can_give(held: Held, all: bool) -> bool
    ensures { Tells result (CanHalve all (share_of held.value held.amount)) }
{
    if all {
        held.amount > 0
    } else {
        held.amount > 1
    }
}

/// Whether each word of a span can be given.
pub fn words_held<H: Holding>(
    holding: &H,
    left: Option<&Starting>,
    block: u64,
    span: (u64, u64),
    all: bool,
) -> bool
    ensures { Tells result (AllWords all (piece_after (option_copied left.entry) (H.piece holding.now)) block span.0 span.1) }
{
    let _name = held_after(holding, left, block, 0);
    let (offset, count) = span;
    let mut made: u64 = 0;
    'words: while made < count {
        let Some(index) = offset.checked_add(made) else {
            return false;
        };
        let Some(place) = index.checked_add(1) else {
            return false;
        };
        if !can_give(held_after(holding, left, block, place), all) {
            return false;
        }
        made += 1;
    }
    true
}

/// Whether each place of a part can be given.
pub fn part_held<H: Holding>(holding: &H, left: Option<&Starting>, part: &Part, all: bool) -> bool
    ensures { let p = piece_after (option_copied left.entry) (H.piece holding.now) in
        Tells result (Places (part_of part.now) p (λ j. CanHalve all (p part.now.block j))) }
{
    match part.span {
        Some(span) => words_held(holding, left, part.block, span, all),
        None => {
            let name = held_after(holding, left, part.block, 0);
            can_give(name, all) && words_held(holding, left, part.block, (0, name.value), all)
        }
    }
}
