//! What is told of the leaves of a state.

ghost use Rattle.std.specs.Prelude.{◌≡◌, ◌+◌, length, IfOk};
ghost use Rattle.replay.specs.Kept as kept;
ghost use Rattle.replay.specs.Sights as spec;
ghost use Rattle.replay.specs.Told.{leaves_told};

use crate::answer::ReplayEnd;
use std::alloc::{AllocError, Global};
use target_meaning::{LeafView, Next, Path, Reason, Side};

/// How many frames a leaf may have.
const MOST_FRAMES: u64 = 10_000;

/// How many registers the frames of a leaf may have together.
const MOST_REGISTERS: u64 = 16_777_216;

/// Below how many forks a leaf may lie.
const MOST_FORKS: usize = 64;

/// Whether two leaves race by what they are next to do.
fn clash(first: Next, second: Next) -> bool
    ensures { result ≡ spec.clash first second }
{
    match first {
        Next::Read { block, index } => match second {
            Next::Write {
                block: other,
                index: place,
            } => block == other && index == place,
            Next::Free { block: other } => block == other,
            _ => false,
        },
        Next::Write { block, index } => match second {
            Next::Read {
                block: other,
                index: place,
            }
            | Next::Write {
                block: other,
                index: place,
            } => block == other && index == place,
            Next::Free { block: other } => block == other,
            _ => false,
        },
        Next::Free { block } => match second {
            Next::Read { block: other, .. }
            | Next::Write { block: other, .. }
            | Next::Free { block: other } => block == other,
            _ => false,
        },
        _ => false,
    }
}

/// The leftmost leaf that races with one that is next to do this.
fn rival(next: Next, views: &[LeafView]) -> Option<&Path>
    ensures { kept.path_lent result ≡ spec.rival next views.now }
{
    let mut rest = views;
    while let [view, others @ ..] = rest {
        if clash(next, view.next) {
            return Some(&view.path);
        }
        rest = others;
    }
    None
}

/// Whether a leaf that is next to do this can race.
fn can_race(next: Next) -> bool
    ensures { result ≡ kept.can_race next }
{
    matches!(
        next,
        Next::Read { .. } | Next::Write { .. } | Next::Free { .. }
    )
}

/// The same, looked for only where the leaf can race.
#[tactic(auto, using(crate::proofs::Sights::no_rival))]
fn rival_of(next: Next, views: &[LeafView]) -> Option<&Path>
    ensures { kept.path_lent result ≡ spec.rival next views.now }
{
    if can_race(next) {
        rival(next, views)
    } else {
        None
    }
}

/// The leftmost pair that races.
fn race(views: &[LeafView]) -> Option<(&Path, &Path)>
    ensures { kept.pair_lent result ≡ spec.first_race views.now }
{
    let mut rest = views;
    while let [view, others @ ..] = rest {
        if let Some(other) = rival_of(view.next, others) {
            return Some((&view.path, other));
        }
        rest = others;
    }
    None
}

/// The leftmost stuck leaf, and why it is stuck.
fn stuck(views: &[LeafView]) -> Option<(&LeafView, Reason)>
    ensures { kept.view_lent result ≡ spec.first_stuck views.now }
{
    let mut rest = views;
    while let [view, others @ ..] = rest {
        if let Next::Stuck(reason) = view.next {
            return Some((view, reason));
        }
        rest = others;
    }
    None
}

/// What the leaves tell after so many steps.
pub(crate) fn sight(
    alloc: Global,
    views: &[LeafView],
    made: u64,
) -> Result<Option<ReplayEnd>, AllocError>
    ensures { IfOk result (λ told. told ≡ leaves_told made views.now) }
{
    if let Some((left, right)) = race(views) {
        return race_end(alloc, made, left, right);
    }
    match stuck(views) {
        Some((view, reason)) => stuck_end(alloc, made, view, reason),
        None => Ok(None),
    }
}

fn race_end(
    alloc: Global,
    after: u64,
    left: &Path,
    right: &Path,
) -> Result<Option<ReplayEnd>, AllocError>
    ensures { IfOk result (λ told. told ≡ Some (ReplayEnd.Race after left.now right.now)) }
{
    let left = left.copy(alloc)?;
    let right = right.copy(alloc)?;
    Ok(Some(ReplayEnd::Race { after, left, right }))
}

fn stuck_end(
    alloc: Global,
    after: u64,
    view: &LeafView,
    reason: Reason,
) -> Result<Option<ReplayEnd>, AllocError>
    ensures { IfOk result (λ told. told ≡
        Some (ReplayEnd.Stuck after view.now.path view.now.proc view.now.line reason)) }
{
    let path = view.path.copy(alloc)?;
    let proc = view.proc.copy(alloc)?;
    Ok(Some(ReplayEnd::Stuck {
        after,
        path,
        proc,
        line: view.line,
        reason,
    }))
}

// ---- limits of depth

fn same_path(first: &[Side], second: &[Side]) -> bool
    ensures { result ≡ spec.same_path first.now second.now }
{
    let (mut left, mut right) = (first, second);
    while let [side, more @ ..] = left {
        match right {
            [] => return false,
            [other, rest @ ..] => {
                if side != other {
                    return false;
                }
                right = rest;
            }
        }
        left = more;
    }
    right.is_empty()
}

/// Whether a leaf below so many forks would pass a limit by its next step.
fn passes(view: &LeafView, forks: usize) -> bool
    ensures { result ≡ spec.passes view.now.frames view.now.regs forks view.now.next }
{
    match view.next {
        Next::Call { regs } => {
            view.frames >= MOST_FRAMES || view.regs.saturating_add(regs) > MOST_REGISTERS
        }
        Next::Fork => forks >= MOST_FORKS,
        _ => false,
    }
}

/// Whether the next step of the leaf at a path would pass a limit.
pub(crate) fn passes_at(path: &[Side], views: &[LeafView]) -> bool
    ensures { result ≡ spec.passes_at path.now views.now }
{
    let mut rest = views;
    while let [view, others @ ..] = rest {
        if same_path(path, view.path.sides()) && passes(view, path.len()) {
            return true;
        }
        rest = others;
    }
    false
}
