//! The first part of a fork that cannot be given.

ghost use Rattle.std.specs.Prelude.{◌≡◌, ◌++◌, [], map, false, true, MatchOption, None, Some};
ghost use Rattle.std.specs.Option.{option_copied};
ghost use Rattle.branch_exec.specs.Stores as spec;
ghost use Rattle.branch_exec.specs.Stores.{AllTakable, CanGive, CannotGive, FirstRefused, IsTakable};
ghost use Rattle.target_meaning.specs.Turns.{part_of};
ghost use Rattle.store_parts.specs.Tests.{Fails, Passed, Tells, all_by, piece_after, takes_by};

use crate::held::Holding;
use crate::places::{is_apart, is_one_of, part_held};
use target_meaning::frame::{Part, Starting};

/// The offset that tells of a part: its span's, or 0.
fn offset_of(part: &Part) -> u64
    ensures { result ≡ spec.offset_of (part_of part.now).span }
{
    match part.span {
        Some((offset, _)) => offset,
        None => 0,
    }
}

/// Whether all of a part is taken: all is, or it stands among these.
fn takes_all(part: &Part, all: bool, lent: &[Part]) -> bool
    ensures { result ≡ all_by all lent.now (part_of part.now) }
{
    all || is_one_of(part, lent)
}

/// Whether a part can be taken, after these of its branch.
fn is_takable<H: Holding>(
    holding: &H,
    left: Option<&Starting>,
    earlier: &[Part],
    before: &[Part],
    part: &Part,
    all: bool,
) -> bool
    ensures { Tells result (IsTakable (map part_of earlier.now ++ map part_of before.now) (record { part = part_of part.now; all = all })
        (piece_after (option_copied left.entry) (H.piece holding.now))) }
{
    if !is_apart(part, earlier) {
        return false;
    }
    if !is_apart(part, before) {
        return false;
    }
    part_held(holding, left, part, all)
}

/// The first part of a list that cannot be taken, after these of its branch: all of each is taken, or all of those that
/// stand among others and half of the rest.
fn refused_in<H: Holding>(
    holding: &H,
    left: Option<&Starting>,
    earlier: &[Part],
    list: &[Part],
    all: bool,
    lent: &[Part],
) -> Option<(u64, u64)>
    ensures { let q = piece_after (option_copied left.entry) (H.piece holding.now) in
        MatchOption result (Passed (map part_of earlier.now) all lent.now list.now q)
        (λ f. Fails (map part_of earlier.now) all lent.now list.now q f.0 f.1) }
{
    for (index, part) in list.iter().enumerate() {
        let whole = takes_all(part, all, lent);
        if !is_takable(holding, left, earlier, &list[..index], part, whole) {
            return Some((part.block, offset_of(part)));
        }
    }
    None
}

/// The first part of a branch that cannot be taken: of its lends all of those that stand among others are taken, and half
/// of the rest.
fn refused_of<H: Holding>(
    holding: &H,
    left: Option<&Starting>,
    branch: &Starting,
    lent: &[Part],
) -> Option<(u64, u64)>
    ensures { let q = piece_after (option_copied left.entry) (H.piece holding.now) in
        let ts = takes_by true [] branch.now.hands.items ++ takes_by false lent.now branch.now.lends.items in
        MatchOption result (AllTakable [] ts q) (λ f. FirstRefused [] ts q f.0 f.1) }
{
    let hands = branch.hands.as_slice();
    match refused_in(holding, left, &[], hands, true, &[]) {
        Some(found) => Some(found),
        None => refused_in(holding, left, hands, branch.lends.as_slice(), false, lent),
    }
}

/// The block and the offset of the first part of a fork that cannot be given, over left hands, left lends, right hands and
/// right lends. It takes no memory.
pub fn first_refused<H: Holding>(
    holding: &H,
    left: &Starting,
    right: &Starting,
) -> Option<(u64, u64)>
    ensures { MatchOption result (CanGive (H.piece holding.now) left.now right.now)
        (λ f. CannotGive (H.piece holding.now) left.now right.now f.0 f.1) }
{
    match refused_of(holding, None, left, &[]) {
        Some(found) => Some(found),
        None => refused_of(holding, Some(left), right, left.lends.as_slice()),
    }
}
