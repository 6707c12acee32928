//! Procedures written as lines, one after the other: an instruction is a line, and an `if` or a loop stands between the
//! lines that begin and end it. The lines hold no memory, so a text is one constant and costs one call.

ghost use Rattle.op_texts.specs.Lines.{behind, end_if, end_while, open_of, put, put_all, written};
ghost use Rattle.std.specs.Prelude.{◌≡◌, IfOk, Some, [], ◌∷◌};

use std::alloc::{AllocError, Global};
use target_code::{Calc, Instr, Proc};
use triple_logic::text::{call, code_of, if_else, while_do};

/// The lines of a text, each in brackets, as `text!([const 5 1] [add 6 6 5])`: its word and its registers, results first.
#[macro_export]
macro_rules! text {
    ($([$($word:tt)*])*) => { &[$($crate::text_line!($($word)*)),*] };
}

/// One line of `text!`.
#[macro_export]
macro_rules! text_line {
    (const $to:literal $value:literal) => { $crate::line::Line::Const($to, $value) };
    (mov $to:literal $from:literal) => { $crate::line::Line::Mov($to, $from) };
    (load $to:literal $block:literal $index:literal) => { $crate::line::Line::Load($to, $block, $index) };
    (store $block:literal $index:literal $value:literal) => { $crate::line::Line::Store($block, $index, $value) };
    (alloc $to:literal $len:literal) => { $crate::line::Line::Alloc($to, $len) };
    (free $block:literal) => { $crate::line::Line::Free($block) };
    (call [$($to:literal),*] $name:literal [$($arg:literal),*]) => { $crate::line::Line::Call(&[$($to),*], $name, &[$($arg),*]) };
    (if $test:literal) => { $crate::line::Line::If($test) };
    (else) => { $crate::line::Line::Else };
    (end if) => { $crate::line::Line::EndIf };
    (while) => { $crate::line::Line::While };
    (do $test:literal) => { $crate::line::Line::Do($test) };
    (end while) => { $crate::line::Line::EndWhile };
    (add $to:literal $left:literal $right:literal) => { $crate::line::Line::Calc($to, target_code::Calc::Add, $left, $right) };
    (sub $to:literal $left:literal $right:literal) => { $crate::line::Line::Calc($to, target_code::Calc::Sub, $left, $right) };
    (mul $to:literal $left:literal $right:literal) => { $crate::line::Line::Calc($to, target_code::Calc::Mul, $left, $right) };
    (div $to:literal $left:literal $right:literal) => { $crate::line::Line::Calc($to, target_code::Calc::Div, $left, $right) };
    (mod $to:literal $left:literal $right:literal) => { $crate::line::Line::Calc($to, target_code::Calc::Mod, $left, $right) };
    (min $to:literal $left:literal $right:literal) => { $crate::line::Line::Calc($to, target_code::Calc::Min, $left, $right) };
    (max $to:literal $left:literal $right:literal) => { $crate::line::Line::Calc($to, target_code::Calc::Max, $left, $right) };
    (lt $to:literal $left:literal $right:literal) => { $crate::line::Line::Calc($to, target_code::Calc::Lt, $left, $right) };
    (le $to:literal $left:literal $right:literal) => { $crate::line::Line::Calc($to, target_code::Calc::Le, $left, $right) };
    (eq $to:literal $left:literal $right:literal) => { $crate::line::Line::Calc($to, target_code::Calc::Eq, $left, $right) };
    (ne $to:literal $left:literal $right:literal) => { $crate::line::Line::Calc($to, target_code::Calc::Ne, $left, $right) };
    (and $to:literal $left:literal $right:literal) => { $crate::line::Line::Calc($to, target_code::Calc::And, $left, $right) };
    (or $to:literal $left:literal $right:literal) => { $crate::line::Line::Calc($to, target_code::Calc::Or, $left, $right) };
    (xor $to:literal $left:literal $right:literal) => { $crate::line::Line::Calc($to, target_code::Calc::Xor, $left, $right) };
    (shl $to:literal $left:literal $right:literal) => { $crate::line::Line::Calc($to, target_code::Calc::Shl, $left, $right) };
    (shr $to:literal $left:literal $right:literal) => { $crate::line::Line::Calc($to, target_code::Calc::Shr, $left, $right) };
}

/// One line of a text.
#[derive(Clone, Copy)]
pub enum Line<'a> {
    /// `const`: a register, and the number that it gets.
    Const(u32, u64),
    /// `mov`: a register, and the one whose word it gets.
    Mov(u32, u32),
    /// A calculation: a register, the word, and the two registers that it is of.
    Calc(u32, Calc, u32, u32),
    /// `load`: a register, a block and an index.
    Load(u32, u32, u32),
    /// `store`: a block, an index, and the register of the word.
    Store(u32, u32, u32),
    /// `alloc`: a register, and that of the length.
    Alloc(u32, u32),
    /// `free`: a block.
    Free(u32),
    /// `call`: the registers of the results, the procedure, and those of its arguments.
    Call(&'a [u32], &'a [u8], &'a [u32]),
    /// Begins the code where this register is not 0.
    If(u32),
    /// Begins the code where it is 0.
    Else,
    /// Ends both.
    EndIf,
    /// Begins the code that runs before each test.
    While,
    /// Begins the code that runs where this register is not 0.
    Do(u32),
    /// Ends both.
    EndWhile,
}

/// A code that is begun and not ended.
#[derive(Drop)]
pub struct OpenCode {
    /// The register that is tested before it.
    pub test: u32,
    /// Its instructions so far.
    pub list: Vec<Instr>,
}

/// Begins a code.
#[tactic(auto, using(crate::proofs::LinesLemmas::open_more))]
fn begin(alloc: Global, mut codes: Vec<OpenCode>, test: u32) -> Result<Vec<OpenCode>, AllocError>
    ensures { IfOk result (λ more. open_of more.items ≡ (test, []) ∷ open_of codes.items) }
{
    codes.push(OpenCode {
        test,
        list: Vec::new(alloc),
    })?;
    Ok(codes)
}

/// Puts an instruction behind those of the innermost code.
#[tactic(auto, using(crate::proofs::LinesLemmas::open_more))]
fn add(mut codes: Vec<OpenCode>, instr: Instr) -> Result<Vec<OpenCode>, AllocError>
    ensures { IfOk result (λ more. open_of more.items ≡ behind (open_of codes.items) instr) }
{
    match codes.pop() {
        Some(mut code) => {
            code.list.push(instr)?;
            codes.push(code)?;
            Ok(codes)
        }
        None => Err(AllocError),
    }
}

/// Makes an `if` of the two innermost codes.
#[tactic(auto, using(crate::proofs::LinesLemmas::open_more))]
fn end_if(mut codes: Vec<OpenCode>) -> Result<Vec<OpenCode>, AllocError>
    ensures { IfOk result (λ less. open_of less.items ≡ end_if (open_of codes.items)) }
{
    match codes.pop() {
        Some(no) => match codes.pop() {
            Some(yes) => add(
                codes,
                if_else(yes.test, code_of(yes.list), code_of(no.list)),
            ),
            None => Err(AllocError),
        },
        None => Err(AllocError),
    }
}

/// Makes a loop of the two innermost codes.
#[tactic(auto, using(crate::proofs::LinesLemmas::open_more))]
fn end_while(mut codes: Vec<OpenCode>) -> Result<Vec<OpenCode>, AllocError>
    ensures { IfOk result (λ less. open_of less.items ≡ end_while (open_of codes.items)) }
{
    match codes.pop() {
        Some(body) => match codes.pop() {
            Some(cond) => add(
                codes,
                while_do(code_of(cond.list), body.test, code_of(body.list)),
            ),
            None => Err(AllocError),
        },
        None => Err(AllocError),
    }
}

/// Takes one line.
fn put(alloc: Global, codes: Vec<OpenCode>, line: Line<'_>) -> Result<Vec<OpenCode>, AllocError>
    ensures { IfOk result (λ next. open_of next.items ≡ put (open_of codes.items) line.entry) }
{
    match line {
        Line::Const(to, value) => add(codes, Instr::Const { to, value }),
        Line::Mov(to, from) => add(codes, Instr::Mov { to, from }),
        Line::Calc(to, word, left, right) => add(
            codes,
            Instr::Calc {
                to,
                word,
                left,
                right,
            },
        ),
        Line::Load(to, block, index) => add(codes, Instr::Load { to, block, index }),
        Line::Store(block, index, value) => add(
            codes,
            Instr::Store {
                block,
                index,
                value,
            },
        ),
        Line::Alloc(to, len) => add(codes, Instr::Alloc { to, len }),
        Line::Free(block) => add(codes, Instr::Free { block }),
        Line::Call(to, name, args) => match call(alloc, to, name, args) {
            Ok(instr) => add(codes, instr),
            Err(error) => {
                drop(codes);
                Err(error)
            }
        },
        Line::If(test) | Line::Do(test) => begin(alloc, codes, test),
        Line::Else | Line::While => begin(alloc, codes, 0),
        Line::EndIf => end_if(codes),
        Line::EndWhile => end_while(codes),
    }
}

/// Takes all lines, from the outermost code on.
fn put_all(alloc: Global, lines: &[Line<'_>]) -> Result<Vec<OpenCode>, AllocError>
    ensures { IfOk result (λ codes. open_of codes.items ≡ put_all ((0, []) ∷ []) lines.now) }
{
    let mut codes = begin(alloc, Vec::new(alloc), 0)?;
    for line in lines {
        codes = put(alloc, codes, *line)?;
    }
    Ok(codes)
}

/// The procedure that the lines write down. A name that is none, and lines that end what was not begun or leave a code
/// open, are refused as memory is.
#[tactic(auto, using(crate::proofs::LinesLemmas::open_more))]
pub fn procedure(
    alloc: Global,
    name: &[u8],
    args: u32,
    regs: u32,
    lines: &[Line<'_>],
    ret: &[u32],
) -> Result<Proc, AllocError>
    ensures { IfOk result (λ p. written name.now args regs lines.now ret.now ≡ Some p) }
{
    let mut codes = put_all(alloc, lines)?;
    match codes.pop() {
        Some(code) if codes.is_empty() && code.test == 0 => {
            triple_logic::text::procedure(alloc, name, args, regs, code_of(code.list), ret)
        }
        _ => Err(AllocError),
    }
}
