//! The lines of code: where an instruction stands in the text of its procedure. Counts end at the greatest word.

ghost use Rattle.std.specs.Prelude.{◌≡◌, ◌+◌};
ghost use Rattle.std.specs.Option.{option_copied};
ghost use Rattle.target_meaning.specs.Lines as spec;
ghost use Rattle.target_meaning.specs.Lines.{counted};
ghost use Rattle.target_meaning.specs.Place.{inner_first, place_line};

use crate::place::{Inner, Outer, inner_list};
use sqlite_items::at;
use target_code::{Code, Instr};

/// The lines that two inner codes and the three lines around them take.
fn block_lines(first: u64, second: u64) -> u64
    ensures { result ≡ counted (3 + (first + second)) }
{
    first.saturating_add(second).saturating_add(3)
}

/// The lines that a code takes, those of its inner codes among them.
#[cycle(lines)]
pub fn code_lines(code: &Code) -> u64
    ensures { result ≡ counted (spec.lines_all code.now.list) }
{
    let mut lines: u64 = 0;
    for instr in code.list.as_slice() {
        lines = lines.saturating_add(instr_lines(instr));
    }
    lines
}

/// The lines that an instruction takes.
#[cycle(lines)]
pub fn instr_lines(instr: &Instr) -> u64
    ensures { result ≡ counted (spec.lines_of instr.now) }
{
    match instr {
        Instr::If { yes, no, .. } => block_lines(code_lines(yes), code_lines(no)),
        Instr::While { cond, body, .. } => block_lines(code_lines(cond), code_lines(body)),
        _ => 1,
    }
}

/// The lines that a list takes.
pub fn list_lines(list: &[Instr]) -> u64
    ensures { result ≡ counted (spec.lines_all list.now) }
{
    lines_before(list, list.len())
}

/// The lines of a list that stand before an index, of the whole list from its end on.
pub fn lines_before(list: &[Instr], index: usize) -> u64
    ensures { result ≡ counted (spec.line_in 0 list.now index) }
{
    let mut lines: u64 = 0;
    let mut left = index;
    for instr in list {
        if left == 0 {
            return lines;
        }
        lines = lines.saturating_add(instr_lines(instr));
        left -= 1;
    }
    lines
}

/// How many lines behind its instruction an inner code begins.
fn lines_into(inner: Inner, instr: Option<&Instr>) -> u64
    ensures { result ≡ counted (inner_first inner 0 (option_copied instr.entry)) }
{
    match (inner, instr) {
        (_, None) => 0,
        (Inner::No, Some(Instr::If { yes, .. })) => code_lines(yes).saturating_add(2),
        (Inner::Body, Some(Instr::While { cond, .. })) => code_lines(cond).saturating_add(2),
        _ => 1,
    }
}

/// The line of an instruction by its place; the first line of the code is 1.
pub fn line_at(code: &[Instr], outer: &[Outer], index: usize) -> u64
    ensures { result ≡ counted (place_line 1 code.now outer.now index) }
{
    let mut first: u64 = 1;
    let mut list = code;
    for level in outer {
        let instr = at(list, level.index);
        first = first
            .saturating_add(lines_before(list, level.index))
            .saturating_add(lines_into(level.inner, instr));
        list = inner_list(level.inner, instr);
    }
    first.saturating_add(lines_before(list, index))
}
