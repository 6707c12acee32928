//! Tests of the code of a procedure, with no memory taken.

ghost use Rattle.std.specs.Prelude.{◌≡◌, ◌++◌, length, nat_eq};
ghost use Rattle.std.specs.List.{list_any};
ghost use Rattle.target_code.specs.Reserved.{are_distinct};
ghost use Rattle.target_code.specs.declared.tree.Instr.{out-Instr};
ghost use Rattle.target_code.specs.Lines as spec;

use crate::tree::{Branch, Code, Hand, Instr, Proc};

// ---- blocks

/// Whether at most 100 blocks are open at each instruction, where so many are open around the code.
#[cycle(nests)]
pub fn code_nests(code: &Code, opened: u64) -> bool
    ensures { result ≡ spec.code_nests code.now opened }
{
    for item in code.list.as_slice() {
        if !instr_nests(item, opened) {
            return false;
        }
    }
    true
}

#[cycle(nests)]
fn instr_nests(instr: &Instr, opened: u64) -> bool
    ensures { result ≡ spec.instr_nests instr.now opened }
{
    match instr {
        Instr::If { yes, no, .. } => {
            opened < 100 && code_nests(yes, opened + 1) && code_nests(no, opened + 1)
        }
        Instr::While { cond, body, .. } => {
            opened < 100 && code_nests(cond, opened + 1) && code_nests(body, opened + 1)
        }
        _ => true,
    }
}

// ---- registers

/// Whether each register is below the limit.
pub fn all_below(limit: u32, registers: &[u32]) -> bool
    ensures { result ≡ spec.all_below limit registers.now }
{
    registers.iter().all(|register| *register < limit)
}

/// Whether the registers of a hand are below the limit.
pub fn hand_below(limit: u32, hand: Hand) -> bool
    ensures { result ≡ spec.hand_below limit hand }
{
    let spans = match hand.span {
        None => true,
        Some((offset, count)) => offset < limit && count < limit,
    };
    hand.block < limit && spans
}

/// Whether the registers of all hands are below the limit.
pub fn hands_below(limit: u32, hands: &[Hand]) -> bool
    ensures { result ≡ spec.hands_below limit hands.now }
{
    hands.iter().all(|hand| hand_below(limit, *hand))
}

/// Whether the registers of one side of a `par` are below the limit.
pub fn branch_below(limit: u32, branch: &Branch) -> bool
    ensures { result ≡ spec.branch_below limit branch.now }
{
    all_below(limit, branch.to.as_slice())
        && all_below(limit, branch.args.as_slice())
        && hands_below(limit, branch.hands.as_slice())
        && hands_below(limit, branch.lends.as_slice())
}

/// Whether the registers of the line of an instruction are below the limit, apart from those in its blocks.
pub fn line_below(limit: u32, instr: &Instr) -> bool
    ensures { result ≡ spec.is_below limit (out-Instr instr.now) }
{
    match instr {
        Instr::Const { to, value } => {
            let _word = *value;
            *to < limit
        }
        Instr::Mov { to, from } => *to < limit && *from < limit,
        Instr::Calc {
            to,
            word: _,
            left,
            right,
        } => *to < limit && *left < limit && *right < limit,
        Instr::Load { to, block, index } => *to < limit && *block < limit && *index < limit,
        Instr::Store {
            block,
            index,
            value,
        } => *block < limit && *index < limit && *value < limit,
        Instr::Alloc { to, len } => *to < limit && *len < limit,
        Instr::Free { block } => *block < limit,
        Instr::If { test, .. } | Instr::While { test, .. } => *test < limit,
        Instr::Call { to, proc: _, args } => {
            all_below(limit, to.as_slice()) && all_below(limit, args.as_slice())
        }
        Instr::Par { left, right } => branch_below(limit, left) && branch_below(limit, right),
    }
}

/// Whether each register of the code is below the limit.
#[cycle(below)]
pub fn code_below(limit: u32, code: &Code) -> bool
    ensures { result ≡ spec.code_passes (spec.is_below limit) code.now }
{
    for item in code.list.as_slice() {
        if !instr_below(limit, item) {
            return false;
        }
    }
    true
}

#[cycle(below)]
fn instr_below(limit: u32, instr: &Instr) -> bool
    ensures { result ≡ spec.instr_passes (spec.is_below limit) instr.now }
{
    match instr {
        Instr::If { yes, no, .. } => {
            line_below(limit, instr) && code_below(limit, yes) && code_below(limit, no)
        }
        Instr::While { cond, body, .. } => {
            line_below(limit, instr) && code_below(limit, cond) && code_below(limit, body)
        }
        _ => line_below(limit, instr),
    }
}

// ---- calls

/// Whether some procedure has this name, and so many arguments and results.
fn some_answers(procs: &[Proc], name: &[u8], args: &[u32], to: &[u32]) -> bool
    ensures { result ≡ spec.some_answers procs.now name.now args.now to.now }
{
    procs.iter().any(|proc| {
        proc.name.bytes() == name && proc.args as usize == args.len() && proc.ret.len() == to.len()
    })
}

/// Whether the procedures that the code calls are there, with as many arguments and results.
#[cycle(calls)]
pub fn calls_met(procs: &[Proc], code: &Code) -> bool
    ensures { result ≡ spec.code_passes (spec.calls_met procs.now) code.now }
{
    for item in code.list.as_slice() {
        if !call_met(procs, item) {
            return false;
        }
    }
    true
}

#[cycle(calls)]
fn call_met(procs: &[Proc], instr: &Instr) -> bool
    ensures { result ≡ spec.instr_passes (spec.calls_met procs.now) instr.now }
{
    match instr {
        Instr::If { yes, no, .. } => calls_met(procs, yes) && calls_met(procs, no),
        Instr::While { cond, body, .. } => calls_met(procs, cond) && calls_met(procs, body),
        Instr::Call { to, proc, args } => {
            some_answers(procs, proc.bytes(), args.as_slice(), to.as_slice())
        }
        Instr::Par { left, right } => branch_met(procs, left) && branch_met(procs, right),
        _ => true,
    }
}

fn branch_met(procs: &[Proc], branch: &Branch) -> bool
    ensures { result ≡ spec.some_answers procs.now branch.now.proc branch.now.args branch.now.to }
{
    some_answers(
        procs,
        branch.proc.bytes(),
        branch.args.as_slice(),
        branch.to.as_slice(),
    )
}

// ---- targets

/// Whether no two registers are equal.
fn are_distinct(registers: &[u32]) -> bool
    ensures { result ≡ are_distinct nat_eq registers.now }
{
    let mut rest = registers;
    while let [first, others @ ..] = rest {
        if others.contains(first) {
            return false;
        }
        rest = others;
    }
    true
}

/// Whether no two registers of both lists are equal.
fn are_apart(left: &[u32], right: &[u32]) -> bool
    ensures { result ≡ are_distinct nat_eq (left.now ++ right.now) }
{
    let mut rest = left;
    while let [first, others @ ..] = rest {
        if others.contains(first) || right.contains(first) {
            return false;
        }
        rest = others;
    }
    are_distinct(right)
}

/// Whether the results of each call, and of both sides of each `par`, go to distinct registers.
#[cycle(targets)]
pub fn targets_distinct(code: &Code) -> bool
    ensures { result ≡ spec.code_passes spec.has_distinct_targets code.now }
{
    for item in code.list.as_slice() {
        if !has_distinct_targets(item) {
            return false;
        }
    }
    true
}

#[cycle(targets)]
fn has_distinct_targets(instr: &Instr) -> bool
    ensures { result ≡ spec.instr_passes spec.has_distinct_targets instr.now }
{
    match instr {
        Instr::If { yes, no, .. } => targets_distinct(yes) && targets_distinct(no),
        Instr::While { cond, body, .. } => targets_distinct(cond) && targets_distinct(body),
        Instr::Call { to, .. } => are_distinct(to.as_slice()),
        Instr::Par { left, right } => are_apart(left.to.as_slice(), right.to.as_slice()),
        _ => true,
    }
}
