//! Programs as text.

ghost use Rattle.std.specs.Prelude.{◌≡◌, ◌+◌, ◌++◌, ◌∷◌, [], OnOk, IfOk};
ghost use Rattle.target_code.specs.Texts.{indent};
ghost use Rattle.target_lines.specs.Texts.{instr_text, input_text, result_text, proc_header, register_text, ret_text, sepref_text};
ghost use Rattle.target_lines.specs.Programs as spec;
ghost use Rattle.target_text.specs.Parts as parts;

use std::alloc::{AllocError, Global};
use target_code::{Code, InParam, Instr, Proc, Program, Rep, push_indent};
use target_lines::writing;

/// The text of a program. It has `sepref 2` on its first line, and lends on each line of a `par`, where some branch has
/// a lend.
pub fn print_program(alloc: Global, program: &Program) -> Result<Vec<u8>, AllocError>
    ensures { IfOk result (λ bytes. bytes.items ≡ spec.program_text program.now) }
{
    let lends = lends(program);
    let mut out = Vec::new(alloc);
    first_line(&mut out, lends)?;
    inputs(&mut out, program.ins.as_slice())?;
    results(&mut out, program.outs.as_slice())?;
    procs(&mut out, lends, program.procs.as_slice())?;
    Ok(out)
}

// ---- lends

/// Whether some branch of the program has a lend.
pub fn lends(program: &Program) -> bool
    ensures { result ≡ spec.lends program.now }
{
    for proc in program.procs.as_slice() {
        if code_lends(&proc.code) {
            return true;
        }
    }
    false
}

#[cycle(lends)]
fn code_lends(code: &Code) -> bool
    ensures { result ≡ spec.code_lends code.now }
{
    for item in code.list.as_slice() {
        if instr_lends(item) {
            return true;
        }
    }
    false
}

#[cycle(lends)]
fn instr_lends(instr: &Instr) -> bool
    ensures { result ≡ spec.instr_lends instr.now }
{
    match instr {
        Instr::If { yes, no, .. } => code_lends(yes) || code_lends(no),
        Instr::While { cond, body, .. } => code_lends(cond) || code_lends(body),
        Instr::Par { left, right } => !left.lends.is_empty() || !right.lends.is_empty(),
        _ => false,
    }
}

// ---- lines

/// Ends a line.
fn feed(out: &mut Vec<u8>) -> Result<(), AllocError>
    ensures { OnOk result (out.new.items ≡ out.old.items ++ 10 ∷ []) }
{
    out.extend_from_slice(b"\n")
}

/// Writes a line that has always the same words.
fn words(out: &mut Vec<u8>, level: u64, words: &[u8]) -> Result<(), AllocError>
    ensures { OnOk result (out.new.items ≡ out.old.items ++ ((indent level ++ words.now) ++ 10 ∷ [])) }
{
    push_indent(out, level)?;
    out.extend_from_slice(words)?;
    feed(out)
}

/// Writes a line of a word and a register.
fn test_line(out: &mut Vec<u8>, level: u64, word: &[u8], register: u32) -> Result<(), AllocError>
    ensures { OnOk result (out.new.items ≡ out.old.items ++ ((indent level ++ (word.now ++ register_text register)) ++ 10 ∷ [])) }
{
    push_indent(out, level)?;
    out.extend_from_slice(word)?;
    writing::register(out, register)?;
    feed(out)
}

/// Writes the line of an instruction that has no blocks.
fn plain(out: &mut Vec<u8>, lends: bool, level: u64, instr: &Instr) -> Result<(), AllocError>
    ensures { OnOk result (out.new.items ≡ out.old.items ++ ((indent level ++ instr_text lends instr.now) ++ 10 ∷ [])) }
{
    push_indent(out, level)?;
    writing::instr(out, lends, instr)?;
    feed(out)
}

/// Writes the first line of a text.
fn first_line(out: &mut Vec<u8>, lends: bool) -> Result<(), AllocError>
    ensures { OnOk result (out.new.items ≡ out.old.items ++ (sepref_text lends ++ 10 ∷ [])) }
{
    if lends {
        words(out, 0, b"sepref 2")
    } else {
        words(out, 0, b"sepref 1")
    }
}

/// Writes the line for an input.
fn input(out: &mut Vec<u8>, input: &InParam) -> Result<(), AllocError>
    ensures { OnOk result (out.new.items ≡ out.old.items ++ (input_text input.now ++ 10 ∷ [])) }
{
    writing::input(out, input)?;
    feed(out)
}

/// Writes the line for a result.
fn result_line(out: &mut Vec<u8>, rep: Rep) -> Result<(), AllocError>
    ensures { OnOk result (out.new.items ≡ out.old.items ++ (result_text rep ++ 10 ∷ [])) }
{
    writing::output(out, rep)?;
    feed(out)
}

/// Writes the first line of a procedure.
fn header(out: &mut Vec<u8>, proc: &Proc) -> Result<(), AllocError>
    ensures { OnOk result (out.new.items ≡ out.old.items ++ (proc_header proc.now.name proc.now.args proc.now.regs ++ 10 ∷ [])) }
{
    writing::header(out, proc.name.bytes(), proc.args, proc.regs)?;
    feed(out)
}

/// Writes the line for the results of a procedure.
fn ret(out: &mut Vec<u8>, list: &[u32]) -> Result<(), AllocError>
    ensures { OnOk result (out.new.items ≡ out.old.items ++ ((indent 1 ++ ret_text list.now) ++ 10 ∷ [])) }
{
    push_indent(out, 1)?;
    writing::ret(out, list)?;
    feed(out)
}

// ---- code

/// The level of a block's code. The text of code at the last level would fit in no memory.
fn inner(level: u64) -> Result<u64, AllocError>
    ensures { IfOk result (λ inner. inner ≡ level + 1) }
{
    level.checked_add(1).ok_or(AllocError)
}

#[cycle(print)]
fn code(out: &mut Vec<u8>, lends: bool, level: u64, code: &Code) -> Result<(), AllocError>
    ensures { OnOk result (out.new.items ≡ out.old.items ++ parts.code_text lends level code.now) }
{
    for item in code.list.as_slice() {
        instr(out, lends, level, item)?;
    }
    Ok(())
}

#[cycle(print)]
fn instr(out: &mut Vec<u8>, lends: bool, level: u64, instr: &Instr) -> Result<(), AllocError>
    ensures { OnOk result (out.new.items ≡ out.old.items ++ parts.instr_lines_text lends level instr.now) }
{
    match instr {
        Instr::If { test, yes, no } => {
            let inner = inner(level)?;
            test_line(out, level, b"if ", *test)?;
            code(out, lends, inner, yes)?;
            words(out, level, b"else")?;
            code(out, lends, inner, no)?;
            words(out, level, b"end")
        }
        Instr::While { cond, test, body } => {
            let inner = inner(level)?;
            words(out, level, b"while")?;
            code(out, lends, inner, cond)?;
            test_line(out, level, b"do ", *test)?;
            code(out, lends, inner, body)?;
            words(out, level, b"end")
        }
        _ => plain(out, lends, level, instr),
    }
}

// ---- programs

#[tactic(auto, unfolding(crate::specs::Parts::inputs_text))]
fn inputs(out: &mut Vec<u8>, ins: &[InParam]) -> Result<(), AllocError>
    ensures { OnOk result (out.new.items ≡ out.old.items ++ parts.inputs_text ins.now) }
{
    for param in ins {
        input(out, param)?;
    }
    Ok(())
}

#[tactic(auto, unfolding(crate::specs::Parts::results_text))]
fn results(out: &mut Vec<u8>, outs: &[Rep]) -> Result<(), AllocError>
    ensures { OnOk result (out.new.items ≡ out.old.items ++ parts.results_text outs.now) }
{
    for rep in outs {
        result_line(out, *rep)?;
    }
    Ok(())
}

fn proc(out: &mut Vec<u8>, lends: bool, proc: &Proc) -> Result<(), AllocError>
    ensures { OnOk result (out.new.items ≡ out.old.items ++ parts.proc_text lends proc.now) }
{
    header(out, proc)?;
    code(out, lends, 1, &proc.code)?;
    ret(out, proc.ret.as_slice())?;
    words(out, 0, b"end")
}

#[tactic(auto, unfolding(crate::specs::Parts::procs_text))]
fn procs(out: &mut Vec<u8>, lends: bool, procs: &[Proc]) -> Result<(), AllocError>
    ensures { OnOk result (out.new.items ≡ out.old.items ++ parts.procs_text lends procs.now) }
{
    for item in procs {
        proc(out, lends, item)?;
    }
    Ok(())
}
