//! The lines of ends.

ghost use Rattle.std.specs.Prelude.{◌≡◌, ◌∷◌, ◌++◌, [], codes, decimal, OnOk};
ghost use Rattle.replay.specs.Schedules.{path_text};
ghost use Rattle.run_lines.specs.Lines as texts;

use branch_exec::end::Spot;
use nres_core::Value;
use program_run::RunEnd;
use replay::schedule::push_path;
use std::alloc::{AllocError, Global};
use target_code::push_number;
use target_meaning::{Reason, Side};
use value_print::print_results;

fn reason_word(reason: Reason) -> &'static [u8]
    ensures { result.now ≡ texts.reason_word reason }
{
    match reason {
        Reason::Block => b"block",
        Reason::Index => b"index",
        Reason::Zero => b"zero",
        Reason::Shift => b"shift",
    }
}

/// Where a leaf stands: its path, its procedure and the line.
fn push_spot(out: &mut Vec<u8>, spot: &Spot) -> Result<(), AllocError>
    ensures { OnOk result (out.new.items ≡ out.old.items ++ texts.spot_text spot.now) }
{
    push_path(out, spot.path.sides())?;
    out.extend_from_slice(b" ")?;
    out.extend_from_slice(spot.proc.bytes())?;
    out.extend_from_slice(b" ")?;
    push_number(out, spot.line)
}

fn push_stuck(out: &mut Vec<u8>, spot: &Spot, reason: Reason) -> Result<(), AllocError>
    ensures { OnOk result (out.new.items ≡ out.old.items ++ texts.stuck_line spot.now reason) }
{
    out.extend_from_slice(b"! stuck ")?;
    push_spot(out, spot)?;
    out.extend_from_slice(b" ")?;
    out.extend_from_slice(reason_word(reason))?;
    out.push(b'\n')?;
    Ok(())
}

/// Two numbers and a line feed.
fn push_numbers(out: &mut Vec<u8>, first: u64, second: u64) -> Result<(), AllocError>
    ensures { OnOk result (out.new.items ≡ out.old.items ++ texts.numbers first second) }
{
    push_number(out, first)?;
    out.extend_from_slice(b" ")?;
    push_number(out, second)?;
    out.push(b'\n')?;
    Ok(())
}

fn push_unowned(out: &mut Vec<u8>, spot: &Spot, block: u64, offset: u64) -> Result<(), AllocError>
    ensures { OnOk result (out.new.items ≡ out.old.items ++ texts.unowned_line spot.now block offset) }
{
    out.extend_from_slice(b"! unowned ")?;
    push_spot(out, spot)?;
    out.extend_from_slice(b" ")?;
    push_numbers(out, block, offset)
}

fn push_full(out: &mut Vec<u8>, at: u64, len: u64) -> Result<(), AllocError>
    ensures { OnOk result (out.new.items ≡ out.old.items ++ texts.full_line at len) }
{
    out.extend_from_slice(b"! heap ")?;
    push_numbers(out, at, len)
}

/// Words, and the path of a leaf.
fn push_at_path(out: &mut Vec<u8>, words: &[u8], path: &[Side]) -> Result<(), AllocError>
    ensures { OnOk result (out.new.items ≡ out.old.items ++ texts.path_line words.now path.now) }
{
    out.extend_from_slice(words)?;
    push_path(out, path)?;
    out.push(b'\n')?;
    Ok(())
}

fn push_no_value(out: &mut Vec<u8>, number: u64) -> Result<(), AllocError>
    ensures { OnOk result (out.new.items ≡ out.old.items ++ texts.no_value_line number) }
{
    out.extend_from_slice(b"! no value ")?;
    push_number(out, number)?;
    out.push(b'\n')?;
    Ok(())
}

fn push_values(alloc: Global, out: &mut Vec<u8>, values: &[Value]) -> Result<(), AllocError>
    ensures { OnOk result (out.new.items ≡ out.old.items ++ texts.result_lines values.now) }
{
    let lines = print_results(alloc, values)?;
    out.extend_from_slice(lines.as_slice())
}

/// Puts what tells the end of a run behind what stands in `out`: a line for each result, or one line that tells why there
/// are none. Answers an error where memory runs out.
pub fn push_end(alloc: Global, out: &mut Vec<u8>, end: &RunEnd) -> Result<(), AllocError>
    ensures { OnOk result (out.new.items ≡ out.old.items ++ texts.end_text end.now) }
{
    match end {
        RunEnd::Values(values) => push_values(alloc, out, values.as_slice()),
        RunEnd::NoValue(number) => push_no_value(out, *number),
        RunEnd::Stuck { spot, reason } => push_stuck(out, spot, *reason),
        RunEnd::Unowned {
            spot,
            block,
            offset,
        } => push_unowned(out, spot, *block, *offset),
        RunEnd::OutOfSteps { path } => push_at_path(out, b"! steps ", path.sides()),
        RunEnd::HeapFull { at, len } => push_full(out, *at, *len),
        RunEnd::Depth { path } => push_at_path(out, b"! depth ", path.sides()),
    }
}
