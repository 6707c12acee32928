//! Lines as text.

ghost use Rattle.std.specs.Prelude.{◌≡◌, ◌++◌, codes, decimal, OnOk};
ghost use Rattle.target_lines.specs.LineWords.{calc_text};
ghost use Rattle.target_lines.specs.Texts as texts;

use crate::line::{Line, Phrase};
use std::alloc::AllocError;
use target_code::{Branch, Calc, Hand, InParam, Instr, Rep, push_indent, push_number, push_rep};

pub fn register(out: &mut Vec<u8>, register: u32) -> Result<(), AllocError>
    ensures { OnOk result (out.new.items ≡ out.old.items ++ texts.register_text register) }
{
    out.push(b'r')?;
    push_number(out, u64::from(register))
}

fn registers(out: &mut Vec<u8>, list: &[u32]) -> Result<(), AllocError>
    ensures { OnOk result (out.new.items ≡ out.old.items ++ texts.registers_text list.now) }
{
    if let [first, others @ ..] = list {
        register(out, *first)?;
        'each: for other in others {
            out.extend_from_slice(b", ")?;
            register(out, *other)?;
        }
    }
    Ok(())
}

fn targets(out: &mut Vec<u8>, list: &[u32]) -> Result<(), AllocError>
    ensures { OnOk result (out.new.items ≡ out.old.items ++ texts.targets_text list.now) }
{
    match list {
        [] => Ok(()),
        _ => {
            registers(out, list)?;
            out.extend_from_slice(b" = ")
        }
    }
}

fn hand(out: &mut Vec<u8>, hand: Hand) -> Result<(), AllocError>
    ensures { OnOk result (out.new.items ≡ out.old.items ++ texts.hand_text hand) }
{
    register(out, hand.block)?;
    match hand.span {
        None => Ok(()),
        Some((offset, count)) => {
            out.extend_from_slice(b" from ")?;
            register(out, offset)?;
            out.extend_from_slice(b" for ")?;
            register(out, count)
        }
    }
}

fn hands(out: &mut Vec<u8>, list: &[Hand]) -> Result<(), AllocError>
    ensures { OnOk result (out.new.items ≡ out.old.items ++ texts.hands_text list.now) }
{
    if let [first, others @ ..] = list {
        hand(out, *first)?;
        'each: for other in others {
            out.extend_from_slice(b", ")?;
            hand(out, *other)?;
        }
    }
    Ok(())
}

/// `NAME(ARGS)`.
fn application(out: &mut Vec<u8>, name: &[u8], args: &[u32]) -> Result<(), AllocError>
    ensures { OnOk result (out.new.items ≡ out.old.items ++ texts.use_text name.now args.now) }
{
    out.extend_from_slice(name)?;
    out.extend_from_slice(b"(")?;
    registers(out, args)?;
    out.extend_from_slice(b")")
}

fn lent(out: &mut Vec<u8>, lends: bool, list: &[Hand]) -> Result<(), AllocError>
    ensures { OnOk result (out.new.items ≡ out.old.items ++ texts.lends_text lends list.now) }
{
    if lends {
        out.extend_from_slice(b" lend [")?;
        hands(out, list)?;
        out.extend_from_slice(b"]")?;
    }
    Ok(())
}

fn branch(out: &mut Vec<u8>, lends: bool, branch: &Branch) -> Result<(), AllocError>
    ensures { OnOk result (out.new.items ≡ out.old.items ++ texts.branch_text lends branch.now) }
{
    targets(out, branch.to.as_slice())?;
    application(out, branch.proc.bytes(), branch.args.as_slice())?;
    out.extend_from_slice(b" hand [")?;
    hands(out, branch.hands.as_slice())?;
    out.extend_from_slice(b"]")?;
    lent(out, lends, branch.lends.as_slice())
}

/// The word of a calculation.
fn calc(calc: Calc) -> &'static [u8]
    ensures { result.now ≡ calc_text calc }
{
    match calc {
        Calc::Add => b"add",
        Calc::Sub => b"sub",
        Calc::Mul => b"mul",
        Calc::Div => b"div",
        Calc::Mod => b"mod",
        Calc::Min => b"min",
        Calc::Max => b"max",
        Calc::Lt => b"lt",
        Calc::Le => b"le",
        Calc::Eq => b"eq",
        Calc::Ne => b"ne",
        Calc::And => b"and",
        Calc::Or => b"or",
        Calc::Xor => b"xor",
        Calc::Shl => b"shl",
        Calc::Shr => b"shr",
    }
}

/// The line for an input.
pub fn input(out: &mut Vec<u8>, input: &InParam) -> Result<(), AllocError>
    ensures { OnOk result (out.new.items ≡ out.old.items ++ texts.input_text input.now) }
{
    out.extend_from_slice(b"in ")?;
    out.extend_from_slice(input.name.bytes())?;
    out.extend_from_slice(b" ")?;
    push_rep(out, input.rep)?;
    if input.kept {
        out.extend_from_slice(b" kept")?;
    }
    Ok(())
}

/// The line for a result.
pub fn output(out: &mut Vec<u8>, shown: Rep) -> Result<(), AllocError>
    ensures { OnOk result (out.new.items ≡ out.old.items ++ texts.result_text shown) }
{
    out.extend_from_slice(b"out ")?;
    push_rep(out, shown)
}

/// A word and a register.
fn word(out: &mut Vec<u8>, word: &[u8], from: u32) -> Result<(), AllocError>
    ensures { OnOk result (out.new.items ≡ out.old.items ++ (word.now ++ texts.register_text from)) }
{
    out.extend_from_slice(word)?;
    register(out, from)
}

/// A register, a word and a register.
fn assign(out: &mut Vec<u8>, to: u32, text: &[u8], from: u32) -> Result<(), AllocError>
    ensures { OnOk result (out.new.items ≡ out.old.items ++ (texts.register_text to ++ (text.now ++ texts.register_text from))) }
{
    register(out, to)?;
    word(out, text, from)
}

/// Two registers, each behind a space.
fn operands(out: &mut Vec<u8>, left: u32, right: u32) -> Result<(), AllocError>
    ensures { OnOk result (out.new.items ≡ out.old.items ++ (codes " " ++ (texts.register_text left ++ (codes " " ++ texts.register_text right)))) }
{
    word(out, b" ", left)?;
    word(out, b" ", right)
}

fn calculation(
    out: &mut Vec<u8>,
    to: u32,
    word: Calc,
    left: u32,
    right: u32,
) -> Result<(), AllocError>
    ensures { OnOk result (out.new.items ≡ out.old.items ++ texts.calculation_text to word left right) }
{
    register(out, to)?;
    out.extend_from_slice(b" = ")?;
    out.extend_from_slice(calc(word))?;
    operands(out, left, right)
}

fn constant(out: &mut Vec<u8>, to: u32, value: u64) -> Result<(), AllocError>
    ensures { OnOk result (out.new.items ≡ out.old.items ++ (texts.register_text to ++ (codes " = const " ++ decimal value))) }
{
    register(out, to)?;
    out.extend_from_slice(b" = const ")?;
    push_number(out, value)
}

fn load(out: &mut Vec<u8>, to: u32, block: u32, index: u32) -> Result<(), AllocError>
    ensures { OnOk result (out.new.items ≡ out.old.items ++ (texts.register_text to ++ (codes " = load " ++ (texts.register_text block ++ (codes " " ++ texts.register_text index))))) }
{
    assign(out, to, b" = load ", block)?;
    word(out, b" ", index)
}

fn store(out: &mut Vec<u8>, block: u32, index: u32, value: u32) -> Result<(), AllocError>
    ensures { OnOk result (out.new.items ≡ out.old.items ++ (codes "store " ++ (texts.register_text block ++ (codes " " ++ (texts.register_text index ++ (codes " " ++ texts.register_text value)))))) }
{
    word(out, b"store ", block)?;
    operands(out, index, value)
}

fn call(out: &mut Vec<u8>, to: &[u32], name: &[u8], args: &[u32]) -> Result<(), AllocError>
    ensures { OnOk result (out.new.items ≡ out.old.items ++ (texts.targets_text to.now ++ (codes "call " ++ texts.use_text name.now args.now))) }
{
    targets(out, to)?;
    out.extend_from_slice(b"call ")?;
    application(out, name, args)
}

fn par(out: &mut Vec<u8>, lends: bool, left: &Branch, right: &Branch) -> Result<(), AllocError>
    ensures { OnOk result (out.new.items ≡ out.old.items ++ (codes "par " ++ (texts.branch_text lends left.now ++ (codes " | " ++ texts.branch_text lends right.now)))) }
{
    out.extend_from_slice(b"par ")?;
    branch(out, lends, left)?;
    out.extend_from_slice(b" | ")?;
    branch(out, lends, right)
}

/// The first line of an instruction.
pub fn instr(out: &mut Vec<u8>, lends: bool, instr: &Instr) -> Result<(), AllocError>
    ensures { OnOk result (out.new.items ≡ out.old.items ++ texts.instr_text lends instr.now) }
{
    match instr {
        Instr::Const { to, value } => constant(out, *to, *value),
        Instr::Mov { to, from } => assign(out, *to, b" = mov ", *from),
        Instr::Calc {
            to,
            word,
            left,
            right,
        } => calculation(out, *to, *word, *left, *right),
        Instr::Load { to, block, index } => load(out, *to, *block, *index),
        Instr::Store {
            block,
            index,
            value,
        } => store(out, *block, *index, *value),
        Instr::Alloc { to, len } => assign(out, *to, b" = alloc ", *len),
        Instr::Free { block } => word(out, b"free ", *block),
        Instr::If { test, .. } => word(out, b"if ", *test),
        Instr::While { .. } => out.extend_from_slice(b"while"),
        Instr::Call { to, proc, args } => {
            call(out, to.as_slice(), proc.bytes(), args.as_slice())
        }
        Instr::Par { left, right } => par(out, lends, left, right),
    }
}

/// The first line of a procedure.
pub fn header(out: &mut Vec<u8>, name: &[u8], args: u32, regs: u32) -> Result<(), AllocError>
    ensures { OnOk result (out.new.items ≡ out.old.items ++ texts.proc_header name.now args regs) }
{
    out.extend_from_slice(b"proc ")?;
    out.extend_from_slice(name)?;
    out.extend_from_slice(b" ")?;
    push_number(out, u64::from(args))?;
    out.extend_from_slice(b" ")?;
    push_number(out, u64::from(regs))
}

/// The last line of a procedure's code.
pub fn ret(out: &mut Vec<u8>, list: &[u32]) -> Result<(), AllocError>
    ensures { OnOk result (out.new.items ≡ out.old.items ++ texts.ret_text list.now) }
{
    match list {
        [] => out.extend_from_slice(b"ret"),
        _ => {
            out.extend_from_slice(b"ret ")?;
            registers(out, list)
        }
    }
}

/// What stands on a line behind its spaces.
pub fn phrase(out: &mut Vec<u8>, lends: bool, phrase: &Phrase) -> Result<(), AllocError>
    ensures { OnOk result (out.new.items ≡ out.old.items ++ texts.phrase_text lends phrase.now) }
{
    match phrase {
        Phrase::Sepref { lends: false } => out.extend_from_slice(b"sepref 1"),
        Phrase::Sepref { lends: true } => out.extend_from_slice(b"sepref 2"),
        Phrase::In(param) => input(out, param),
        Phrase::Out(rep) => output(out, *rep),
        Phrase::Proc { name, args, regs } => header(out, name.bytes(), *args, *regs),
        Phrase::Plain(plain) => instr(out, lends, plain),
        Phrase::If(test) => word(out, b"if ", *test),
        Phrase::Else => out.extend_from_slice(b"else"),
        Phrase::While => out.extend_from_slice(b"while"),
        Phrase::Do(test) => word(out, b"do ", *test),
        Phrase::Ret(list) => ret(out, list.as_slice()),
        Phrase::End => out.extend_from_slice(b"end"),
    }
}

/// Writes a line without its line feed.
pub fn line(out: &mut Vec<u8>, lends: bool, line: &Line) -> Result<(), AllocError>
    ensures { OnOk result (out.new.items ≡ out.old.items ++ texts.line_text lends line.now) }
{
    push_indent(out, line.level)?;
    phrase(out, lends, &line.phrase)
}
