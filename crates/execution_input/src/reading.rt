//! The program and the values for its inputs that an input of `exec` is.

ghost use Rattle.std.specs.Prelude.{ℕ, List, ◌≡◌, ◌≤◌, ◌<◌, ◌+◌, ◌-◌, ◌^◌, ◌&&◌, length, true, Ok, Err, IfOk};
ghost use Rattle.nres_core.specs.declared.place.Place.{Place as PlaceOf};
ghost use Rattle.execution_input.specs.Executions.{IsExecution, NoValuesAt, begins_values, feed, front_of, values_line};
ghost use Rattle.target_text.specs.Refusals.{RefusedAt};

use nres_core::{Place, With};
use nres_syntax::{SyntaxRefusal, read_withs};
use sqlite_items::Items;
use std::alloc::Global;
use target_code::Program;
use target_text::{NotProgram, read_program};

/// Why an input is not run.
#[derive(Clone, Copy)]
pub enum Unrun {
    /// The front is the text of no program: this line is refused.
    NotProgram(u64),
    /// The rest is no list of values: this is the first place at which none can go on.
    Syntax(Place),
    /// There was no memory.
    Memory,
}

/// Whether the values begin here.
fn begins_here(begins_line: bool, rest: &[u8]) -> bool
    ensures { result ≡ (begins_line && begins_values rest.now) }
{
    begins_line && rest.starts_with(b"with ")
}

/// The number of the line behind a byte.
fn line_behind(line: u64, byte: u8) -> u64
    requires { line < 2 ^ 64 - 1 }
    ensures { result ≡ line + feed byte }
{
    if byte == b'\n' { line + 1 } else { line }
}

/// The length of what stands before the first line that begins with `with `, and the number of that line.
fn front_end(text: &[u8]) -> (usize, u64)
    ensures end { result.0 ≡ length (front_of true text.now) }
    ensures line { result.1 ≡ values_line text.now }
    ensures within { result.0 ≤ length text.now }
    ensures small { result.1 ≤ result.0 + 1 }
{
    let mut end = 0;
    let mut line = 1;
    let mut begins_line = true;
    while end < text.len() {
        if begins_here(begins_line, &text[end..]) {
            return (end, line);
        }
        begins_line = text[end] == b'\n';
        line = line_behind(line, text[end]);
        end += 1;
    }
    (end, line)
}

/// The program that stands before the first line that begins with `with `, and the values that stand from there on.
pub fn read_execution(alloc: Global, text: &[u8]) -> Result<(Program, Items<With>), Unrun>
    ensures ok { IfOk result (λ x. IsExecution text.now x.0 x.1) }
    ensures not_program { (k : ℕ) → result ≡ Err (Unrun.NotProgram k) → RefusedAt (front_of true text.now) k }
    ensures syntax { (q : PlaceOf) → result ≡ Err (Unrun.Syntax q) → NoValuesAt text.now q }
{
    let (end, line) = front_end(text);
    let (front, rest) = text.split_at(end);
    let program = match read_program(alloc, front) {
        Ok(program) => program,
        Err(NotProgram::Line(refused)) => return Err(Unrun::NotProgram(refused)),
        Err(NotProgram::Memory) => return Err(Unrun::Memory),
    };
    match read_withs(alloc, rest, line) {
        Ok(withs) => Ok((program, withs)),
        Err(SyntaxRefusal::At(place)) => Err(Unrun::Syntax(place)),
        // Values never nest too deep: what is left is want of memory.
        Err(_) => Err(Unrun::Memory),
    }
}
