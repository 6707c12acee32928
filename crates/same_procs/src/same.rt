//! Whether two procedures are the same, word for word. Nothing here takes memory.

ghost use Rattle.std.specs.Prelude.{◌≡◌};
ghost use Rattle.fits.specs.Follow as f;
ghost use Rattle.target_code.specs.declared.tree.Instr.{out-Instr};
ghost use Rattle.same_procs.specs.Same as spec;

use target_code::{Branch, Calc, Code, Hand, Instr, Proc};

// ---- parts of instructions

fn calc_number(word: Calc) -> u32
    ensures { result ≡ f.calc_number word }
{
    match word {
        Calc::Add => 0,
        Calc::Sub => 1,
        Calc::Mul => 2,
        Calc::Div => 3,
        Calc::Mod => 4,
        Calc::Min => 5,
        Calc::Max => 6,
        Calc::Lt => 7,
        Calc::Le => 8,
        Calc::Eq => 9,
        Calc::Ne => 10,
        Calc::And => 11,
        Calc::Or => 12,
        Calc::Xor => 13,
        Calc::Shl => 14,
        Calc::Shr => 15,
    }
}

fn same_numbers(left: &[u32], right: &[u32]) -> bool
    ensures { result ≡ spec.same_numbers left.now right.now }
{
    left == right
}

fn same_span(left: Option<(u32, u32)>, right: Option<(u32, u32)>) -> bool
    ensures { result ≡ spec.same_span left right }
{
    match (left, right) {
        (None, None) => true,
        (Some((offset, count)), Some((from, length))) => offset == from && count == length,
        _ => false,
    }
}

fn same_hand(left: Hand, right: Hand) -> bool
    ensures { result ≡ spec.same_hand left right }
{
    left.block == right.block && same_span(left.span, right.span)
}

fn same_hands(left: &[Hand], right: &[Hand]) -> bool
    ensures { result ≡ spec.same_hands left.now right.now }
{
    let mut rest = right;
    for hand in left {
        match rest {
            [other, others @ ..] => {
                if !same_hand(*hand, *other) {
                    return false;
                }
                rest = others;
            }
            [] => return false,
        }
    }
    rest.is_empty()
}

fn same_branch(left: &Branch, right: &Branch) -> bool
    ensures { result ≡ spec.same_branch left.now right.now }
{
    left.proc.bytes() == right.proc.bytes()
        && same_numbers(left.to.as_slice(), right.to.as_slice())
        && same_numbers(left.args.as_slice(), right.args.as_slice())
        && same_hands(left.hands.as_slice(), right.hands.as_slice())
        && same_hands(left.lends.as_slice(), right.lends.as_slice())
}

// ---- instructions without blocks

fn is_const(instr: &Instr, target: u32, number: u64) -> bool
    ensures { result ≡ spec.is_const target number (out-Instr instr.now) }
{
    match instr {
        Instr::Const { to, value } => target == *to && number == *value,
        _ => false,
    }
}

fn is_mov(instr: &Instr, target: u32, source: u32) -> bool
    ensures { result ≡ spec.is_mov target source (out-Instr instr.now) }
{
    match instr {
        Instr::Mov { to, from } => target == *to && source == *from,
        _ => false,
    }
}

fn is_calc(instr: &Instr, target: u32, name: Calc, first: u32, second: u32) -> bool
    ensures { result ≡ spec.is_calc target name first second (out-Instr instr.now) }
{
    match instr {
        Instr::Calc {
            to,
            word,
            left,
            right,
        } => {
            target == *to
                && calc_number(name) == calc_number(*word)
                && first == *left
                && second == *right
        }
        _ => false,
    }
}

fn is_load(instr: &Instr, target: u32, name: u32, place: u32) -> bool
    ensures { result ≡ spec.is_load target name place (out-Instr instr.now) }
{
    match instr {
        Instr::Load { to, block, index } => target == *to && name == *block && place == *index,
        _ => false,
    }
}

fn is_store(instr: &Instr, name: u32, place: u32, word: u32) -> bool
    ensures { result ≡ spec.is_store name place word (out-Instr instr.now) }
{
    match instr {
        Instr::Store {
            block,
            index,
            value,
        } => name == *block && place == *index && word == *value,
        _ => false,
    }
}

fn is_alloc(instr: &Instr, target: u32, length: u32) -> bool
    ensures { result ≡ spec.is_alloc target length (out-Instr instr.now) }
{
    match instr {
        Instr::Alloc { to, len } => target == *to && length == *len,
        _ => false,
    }
}

fn is_free(instr: &Instr, name: u32) -> bool
    ensures { result ≡ spec.is_free name (out-Instr instr.now) }
{
    match instr {
        Instr::Free { block } => name == *block,
        _ => false,
    }
}

fn is_call(instr: &Instr, targets: &[u32], name: &[u8], given: &[u32]) -> bool
    ensures { result ≡ spec.is_call targets.now name.now given.now (out-Instr instr.now) }
{
    match instr {
        Instr::Call { to, proc, args } => {
            name == proc.bytes()
                && same_numbers(targets, to.as_slice())
                && same_numbers(given, args.as_slice())
        }
        _ => false,
    }
}

fn is_par(instr: &Instr, first: &Branch, second: &Branch) -> bool
    ensures { result ≡ spec.is_par first.now second.now (out-Instr instr.now) }
{
    match instr {
        Instr::Par { left, right } => same_branch(first, left) && same_branch(second, right),
        _ => false,
    }
}

// ---- code

#[cycle(same)]
fn same_code(code: &Code, other: &Code) -> bool
    ensures { result ≡ spec.same_code code.now other.now }
{
    let mut rest = other.list.as_slice();
    for item in code.list.as_slice() {
        match rest {
            [first, others @ ..] => {
                if !same_instr(item, first) {
                    return false;
                }
                rest = others;
            }
            [] => return false,
        }
    }
    rest.is_empty()
}

#[cycle(same)]
fn same_instr(instr: &Instr, other: &Instr) -> bool
    ensures { result ≡ spec.same_instr instr.now other.now }
{
    match instr {
        Instr::If { test, yes, no } => match other {
            Instr::If {
                test: number,
                yes: first,
                no: second,
            } => *test == *number && same_code(yes, first) && same_code(no, second),
            _ => false,
        },
        Instr::While { cond, test, body } => match other {
            Instr::While {
                cond: first,
                test: number,
                body: second,
            } => *test == *number && same_code(cond, first) && same_code(body, second),
            _ => false,
        },
        _ => same_line(instr, other),
    }
}

/// Whether two instructions are the same, where the first has no blocks.
fn same_line(instr: &Instr, other: &Instr) -> bool
    ensures { spec.HasNoBlocks (out-Instr instr.now) → result ≡ spec.same_instr instr.now other.now }
{
    match instr {
        Instr::Const { to, value } => is_const(other, *to, *value),
        Instr::Mov { to, from } => is_mov(other, *to, *from),
        Instr::Calc {
            to,
            word,
            left,
            right,
        } => is_calc(other, *to, *word, *left, *right),
        Instr::Load { to, block, index } => is_load(other, *to, *block, *index),
        Instr::Store {
            block,
            index,
            value,
        } => is_store(other, *block, *index, *value),
        Instr::Alloc { to, len } => is_alloc(other, *to, *len),
        Instr::Free { block } => is_free(other, *block),
        Instr::Call { to, proc, args } => {
            is_call(other, to.as_slice(), proc.bytes(), args.as_slice())
        }
        Instr::Par { left, right } => is_par(other, left, right),
        Instr::If { .. } | Instr::While { .. } => false,
    }
}

/// Whether two procedures are the same, word for word.
pub fn same_proc(proc: &Proc, other: &Proc) -> bool
    ensures { result ≡ spec.same_proc proc.now other.now }
{
    proc.name.bytes() == other.name.bytes()
        && proc.args == other.args
        && proc.regs == other.regs
        && same_code(&proc.code, &other.code)
        && same_numbers(proc.ret.as_slice(), other.ret.as_slice())
}
