//! The lines that `replay` writes.

ghost use Rattle.std.specs.Prelude.{◌≡◌, ◌++◌, OnOk, codes};
ghost use Rattle.sepref_replay.specs.Lines as texts;

use inputs::InputFault;
use nres_core::{Place, Value};
use replay::ReplayEnd;
use replay_causes::Cause;
use replay_lines::{push_end, push_no_schedule};
use std::alloc::{AllocError, Global};
use target_code::push_number;
use value_print::print_results;

/// Words, a number and a line feed.
fn push_numbered(out: &mut Vec<u8>, words: &[u8], number: u64) -> Result<(), AllocError>
    ensures { OnOk result (out.new.items ≡ out.old.items ++ texts.numbered words.now number) }
{
    out.extend_from_slice(words)?;
    push_number(out, number)?;
    out.push(b'\n')?;
    Ok(())
}

/// Words, two numbers and a line feed.
fn push_pair(out: &mut Vec<u8>, words: &[u8], first: u64, second: u64) -> Result<(), AllocError>
    ensures { OnOk result (out.new.items ≡ out.old.items ++ texts.paired words.now first second) }
{
    out.extend_from_slice(words)?;
    push_number(out, first)?;
    out.extend_from_slice(b" ")?;
    push_number(out, second)?;
    out.push(b'\n')?;
    Ok(())
}

/// What is wrong with a value, in words.
fn push_fault(out: &mut Vec<u8>, fault: InputFault) -> Result<(), AllocError>
    ensures { OnOk result (out.new.items ≡ out.old.items ++ texts.fault_words fault) }
{
    match fault {
        InputFault::Unknown => out.extend_from_slice(b"unknown"),
        InputFault::Twice => out.extend_from_slice(b"twice"),
        InputFault::Type_ => out.extend_from_slice(b"type"),
        InputFault::Missing => out.extend_from_slice(b"missing"),
        InputFault::Fit(number) => {
            out.extend_from_slice(b"fit ")?;
            push_number(out, number)
        }
    }
}

/// The line of a name whose value is at fault.
fn push_input(out: &mut Vec<u8>, name: &[u8], fault: InputFault) -> Result<(), AllocError>
    ensures { OnOk result (out.new.items ≡ out.old.items ++ texts.input_line name.now fault) }
{
    out.extend_from_slice(b"! input ")?;
    out.extend_from_slice(name)?;
    out.extend_from_slice(b" ")?;
    push_fault(out, fault)?;
    out.push(b'\n')?;
    Ok(())
}

/// The line of an answer, and those of the values of results.
fn push_answer(
    alloc: Global,
    out: &mut Vec<u8>,
    end: &ReplayEnd,
    values: &[Value],
) -> Result<(), AllocError>
    ensures { OnOk result (out.new.items ≡ out.old.items ++ texts.answer_text end.now values.now) }
{
    push_end(out, end)?;
    let lines = print_results(alloc, values)?;
    out.extend_from_slice(lines.as_slice())
}

/// The line of a place.
fn push_place(out: &mut Vec<u8>, place: Place) -> Result<(), AllocError>
    ensures { OnOk result (out.new.items ≡ out.old.items ++ texts.paired (codes "! syntax ") place.line place.column) }
{
    push_pair(out, b"! syntax ", place.line, place.column)
}

/// Puts what `replay` writes for a cause behind what stands in `out`: a line, and where the root ended with values a line
/// for each of these. Answers an error where memory runs out.
pub fn push_cause(alloc: Global, out: &mut Vec<u8>, cause: &Cause) -> Result<(), AllocError>
    ensures { OnOk result (out.new.items ≡ out.old.items ++ texts.text_of cause.now) }
{
    match cause {
        Cause::NotProgram(line) => push_numbered(out, b"! not a program ", *line),
        Cause::Syntax(place) => push_place(out, *place),
        Cause::NoSchedule(line) => push_no_schedule(out, *line),
        Cause::Input { name, fault } => push_input(out, name.bytes(), *fault),
        Cause::HeapFull { at, len } => push_pair(out, b"! heap ", *at, *len),
        Cause::NoValue(number) => push_numbered(out, b"! no value ", *number),
        Cause::Told { end, values } => push_answer(alloc, out, end, values.as_slice()),
    }
}
