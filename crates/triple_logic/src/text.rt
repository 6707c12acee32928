//! Texts of procedures, written in function bodies.

ghost use Rattle.std.specs.Prelude.{◌≡◌, IfOk, []};
ghost use Rattle.target_code.specs.declared.tree.Instr.TheVariants as instr;
ghost use Rattle.triple_logic.specs.Copy.{copy_test, copy_turn, lib_copy};
ghost use Rattle.triple_logic.specs.Text.{code, every_word, no_else, no_then};

use sqlite_items::Items;
use std::alloc::{AllocError, Global};
use target_code::{Calc, Code, Instr, Name, Proc};

/// The code of a list of instructions, each in brackets, as `code!(in alloc; [const 5 1] [add 6 6 5])`.
#[macro_export]
macro_rules! code {
    (in $alloc:ident;) => {
        $crate::text::no_code($alloc)
    };
    (in $alloc:ident; $([$($word:tt)*])*) => {
        $crate::text::code_of(vec![in $alloc; $($crate::instruction!(in $alloc; $($word)*)),*]?)
    };
}

/// One instruction of `code!`: its word and its registers, results first; or `instr` and a variable that has an instruction.
/// Codes in codes take long to prove, so a loop or an `if` with code of any length is made by a function of its own and put
/// in so.
#[macro_export]
macro_rules! instruction {
    (in $alloc:ident; instr $made:ident) => { $made };
    (in $alloc:ident; const $to:literal $value:literal) => { target_code::Instr::Const { to: $to, value: $value } };
    (in $alloc:ident; mov $to:literal $from:literal) => { target_code::Instr::Mov { to: $to, from: $from } };
    (in $alloc:ident; load $to:literal $block:literal $index:literal) => { target_code::Instr::Load { to: $to, block: $block, index: $index } };
    (in $alloc:ident; store $block:literal $index:literal $value:literal) => { target_code::Instr::Store { block: $block, index: $index, value: $value } };
    (in $alloc:ident; alloc $to:literal $len:literal) => { target_code::Instr::Alloc { to: $to, len: $len } };
    (in $alloc:ident; free $block:literal) => { target_code::Instr::Free { block: $block } };
    (in $alloc:ident; if $test:literal { $($yes:tt)* } else { $($no:tt)* }) => {
        $crate::text::if_else($test, $crate::code!(in $alloc; $($yes)*), $crate::code!(in $alloc; $($no)*))
    };
    (in $alloc:ident; while { $($cond:tt)* } do $test:literal { $($body:tt)* }) => {
        $crate::text::while_do($crate::code!(in $alloc; $($cond)*), $test, $crate::code!(in $alloc; $($body)*))
    };
    (in $alloc:ident; call [$($to:literal),*] $name:literal [$($arg:literal),*]) => {
        $crate::text::call($alloc, &[$($to),*], $name, &[$($arg),*])?
    };
    (in $alloc:ident; add $to:literal $left:literal $right:literal) => { $crate::text::calc($to, target_code::Calc::Add, $left, $right) };
    (in $alloc:ident; sub $to:literal $left:literal $right:literal) => { $crate::text::calc($to, target_code::Calc::Sub, $left, $right) };
    (in $alloc:ident; mul $to:literal $left:literal $right:literal) => { $crate::text::calc($to, target_code::Calc::Mul, $left, $right) };
    (in $alloc:ident; div $to:literal $left:literal $right:literal) => { $crate::text::calc($to, target_code::Calc::Div, $left, $right) };
    (in $alloc:ident; mod $to:literal $left:literal $right:literal) => { $crate::text::calc($to, target_code::Calc::Mod, $left, $right) };
    (in $alloc:ident; min $to:literal $left:literal $right:literal) => { $crate::text::calc($to, target_code::Calc::Min, $left, $right) };
    (in $alloc:ident; max $to:literal $left:literal $right:literal) => { $crate::text::calc($to, target_code::Calc::Max, $left, $right) };
    (in $alloc:ident; lt $to:literal $left:literal $right:literal) => { $crate::text::calc($to, target_code::Calc::Lt, $left, $right) };
    (in $alloc:ident; le $to:literal $left:literal $right:literal) => { $crate::text::calc($to, target_code::Calc::Le, $left, $right) };
    (in $alloc:ident; eq $to:literal $left:literal $right:literal) => { $crate::text::calc($to, target_code::Calc::Eq, $left, $right) };
    (in $alloc:ident; ne $to:literal $left:literal $right:literal) => { $crate::text::calc($to, target_code::Calc::Ne, $left, $right) };
    (in $alloc:ident; and $to:literal $left:literal $right:literal) => { $crate::text::calc($to, target_code::Calc::And, $left, $right) };
    (in $alloc:ident; or $to:literal $left:literal $right:literal) => { $crate::text::calc($to, target_code::Calc::Or, $left, $right) };
    (in $alloc:ident; xor $to:literal $left:literal $right:literal) => { $crate::text::calc($to, target_code::Calc::Xor, $left, $right) };
    (in $alloc:ident; shl $to:literal $left:literal $right:literal) => { $crate::text::calc($to, target_code::Calc::Shl, $left, $right) };
    (in $alloc:ident; shr $to:literal $left:literal $right:literal) => { $crate::text::calc($to, target_code::Calc::Shr, $left, $right) };
}

/// No instructions.
pub fn no_code(alloc: Global) -> Code
    ensures { result ≡ (record { list = [] }) }
{
    Code {
        list: Items::new(alloc),
    }
}

/// The code of these instructions.
pub fn code_of(list: Vec<Instr>) -> Code
    ensures { result ≡ (record { list = list.items }) }
{
    Code {
        list: Items::from_vec(list),
    }
}

/// An `if`.
pub fn if_else(test: u32, yes: Code, no: Code) -> Instr
    ensures { result ≡ instr.If test yes no }
{
    Instr::If { test, yes, no }
}

/// A loop.
pub fn while_do(cond: Code, test: u32, body: Code) -> Instr
    ensures { result ≡ instr.While cond test body }
{
    Instr::While { cond, test, body }
}

/// A calculation.
pub fn calc(to: u32, word: Calc, left: u32, right: u32) -> Instr
    ensures { result ≡ instr.Calc to word left right }
{
    Instr::Calc {
        to,
        word,
        left,
        right,
    }
}

/// A call.
pub fn call(alloc: Global, to: &[u32], name: &[u8], args: &[u32]) -> Result<Instr, AllocError>
    ensures { IfOk result (λ i. i ≡ instr.Call to.now name.now args.now) }
{
    Ok(Instr::Call {
        to: Items::from_slice(alloc, to)?,
        proc: Name::new(alloc, name).map_err(|_| AllocError)?,
        args: Items::from_slice(alloc, args)?,
    })
}

/// A procedure of this code; a name that is none is refused as memory is.
pub fn procedure(
    alloc: Global,
    name: &[u8],
    args: u32,
    regs: u32,
    code: Code,
    ret: &[u32],
) -> Result<Proc, AllocError>
    ensures { IfOk result (λ p. p ≡ (record { name = name.now; args = args; regs = regs; code = code; ret = ret.now })) }
{
    Ok(Proc {
        name: Name::new(alloc, name).map_err(|_| AllocError)?,
        args,
        regs,
        code,
        ret: Items::from_slice(alloc, ret)?,
    })
}

/// Whether a word is left to copy.
fn copy_test(alloc: Global) -> Result<Code, AllocError>
    ensures { IfOk result (λ c. c ≡ (record { list = code copy_test })) }
{
    Ok(code!(in alloc; [lt 7 6 2]))
}

/// One word is copied.
fn copy_turn(alloc: Global) -> Result<Code, AllocError>
    ensures { IfOk result (λ c. c ≡ (record { list = code copy_turn })) }
{
    Ok(code!(in alloc;
        [add 8 1 6]
        [load 9 0 8]
        [store 4 6 9]
        [add 6 6 5]
    ))
}

/// Word by word is copied.
fn copy_words(alloc: Global) -> Result<Instr, AllocError>
    ensures { IfOk result (λ i. i ≡ instr.While (record { list = code copy_test }) 7 (record { list = code copy_turn })) }
{
    let test = copy_test(alloc)?;
    match copy_turn(alloc) {
        Ok(turn) => Ok(while_do(test, 7, turn)),
        Err(error) => {
            drop(test);
            Err(error)
        }
    }
}

/// The procedure `lib_copy`.
pub fn lib_copy(alloc: Global) -> Result<Proc, AllocError>
    ensures { IfOk result (λ p. p ≡ lib_copy) }
{
    let words = copy_words(alloc)?;
    let code = code!(in alloc;
        [alloc 4 3]
        [const 5 1]
        [instr words]
    );
    procedure(alloc, b"lib_copy", 4, 10, code, &[4])
}

/// A code with each word of `code!` that has no code inside.
pub fn every_word(alloc: Global) -> Result<Code, AllocError>
    ensures { IfOk result (λ c. c ≡ (record { list = code every_word })) }
{
    Ok(code!(in alloc;
        [const 0 7]
        [mov 1 0]
        [load 2 3 4]
        [store 3 4 2]
        [alloc 5 0]
        [free 5]
        [add 0 1 2]
        [sub 0 1 2]
        [mul 0 1 2]
        [div 0 1 2]
        [mod 0 1 2]
        [min 0 1 2]
        [max 0 1 2]
        [lt 0 1 2]
        [le 0 1 2]
        [eq 0 1 2]
        [ne 0 1 2]
        [and 0 1 2]
        [or 0 1 2]
        [xor 0 1 2]
        [shl 0 1 2]
        [shr 0 1 2]
        [call [0, 1] b"lib_copy" [2, 3]]
    ))
}

/// An `if` with no second code.
pub fn no_else(alloc: Global) -> Result<Code, AllocError>
    ensures { IfOk result (λ c. c ≡ (record { list = code no_else })) }
{
    Ok(code!(in alloc; [if 6 { [add 0 1 2] } else { }]))
}

/// An `if` with no first code.
pub fn no_then(alloc: Global) -> Result<Code, AllocError>
    ensures { IfOk result (λ c. c ≡ (record { list = code no_then })) }
{
    Ok(code!(in alloc; [if 7 { } else { [mul 0 1 2] }]))
}
