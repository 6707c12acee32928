//! The steps of a schedule, and their text.

ghost use Rattle.std.specs.Prelude.{◌≡◌, ◌++◌, OnOk};
ghost use Rattle.replay.specs.Schedules as texts;

use std::alloc::AllocError;
use target_code::push_number;
use target_meaning::{Path, Side};

/// One step of a schedule.
#[derive(Drop)]
pub struct Move {
    /// The path of the leaf that makes the step, or of the fork that is joined.
    pub path: Path,
    /// The name that an `alloc` takes; no other step looks at it.
    pub name: u64,
}

/// Why bytes are the text of no schedule.
#[derive(Clone, Copy, Debug, PartialEq, Eq)]
pub enum NoSchedule {
    /// This line of the input is no line of a schedule, or one too many.
    Line(u64),
    /// Memory ran out.
    Memory,
}

fn letter(side: Side) -> u8
    ensures { result ≡ texts.letter side }
{
    match side {
        Side::Left => b'L',
        Side::Right => b'R',
    }
}

/// Puts the text of a path behind what stands in `out`: `-` at the root, else `L` and `R` from the root on. Answers an
/// error where memory runs out.
pub fn push_path(out: &mut Vec<u8>, path: &[Side]) -> Result<(), AllocError>
    ensures { OnOk result (out.new.items ≡ out.old.items ++ texts.path_text path.now) }
{
    if path.is_empty() {
        out.push(b'-')?;
        return Ok(());
    }
    'each: for side in path {
        out.push(letter(*side))?;
    }
    Ok(())
}

/// Puts the line of a step, with its line feed, behind what stands in `out`. Answers an error where memory runs out.
pub fn push_move(out: &mut Vec<u8>, step: &Move) -> Result<(), AllocError>
    ensures { OnOk result (out.new.items ≡ out.old.items ++ texts.move_text step.now) }
{
    out.extend_from_slice(b"at ")?;
    push_path(out, step.path.sides())?;
    out.extend_from_slice(b" ")?;
    push_number(out, step.name)?;
    out.push(b'\n')?;
    Ok(())
}
