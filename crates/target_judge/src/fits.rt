//! Tests of a line.

ghost use Rattle.std.specs.Prelude.{◌≡◌, ◌++◌, IfOk, nat_eq};
ghost use Rattle.std.specs.List.{list_all};
ghost use Rattle.target_code.specs.declared.tree.Instr.{out-Instr};
ghost use Rattle.target_code.specs.Lines as tests;
ghost use Rattle.target_code.specs.Reserved.{is_input_name, is_proc_name, is_proc_byte, are_distinct};
ghost use Rattle.target_code.specs.Formed as formed;
ghost use Rattle.target_judge.specs.Judging as spec;
ghost use Rattle.target_judge.specs.States as states;

use crate::state::Spot;
use crate::told::Told;
use indexmap::IndexSet;
use std::alloc::{AllocError, Global};
use target_code::{
    InParam, Instr, Name, NameRefusal, Proc, Rep, all_below, is_reserved, line_below,
};
use target_lines::line::Phrase;

// ---- names

/// Whether a byte may stand inside the name of a procedure.
fn continues_proc_name(byte: u8) -> bool
    ensures { result ≡ is_proc_byte byte }
{
    byte.is_ascii_lowercase() || byte.is_ascii_digit() || byte == b'_'
}

/// Whether each byte may stand inside the name of a procedure.
fn all_continue(bytes: &[u8]) -> bool
    ensures { result ≡ list_all is_proc_byte bytes.now }
{
    bytes.iter().all(|byte| continues_proc_name(*byte))
}

/// Whether the bytes may name a procedure.
fn names_proc(bytes: &[u8]) -> bool
    ensures { result ≡ is_proc_name bytes.now }
{
    match bytes {
        [] => false,
        [first, others @ ..] => {
            first.is_ascii_lowercase() && others.len() <= 63 && all_continue(others)
        }
    }
}

/// Whether the bytes, which are a name, may name an input.
fn is_free(bytes: &[u8]) -> bool
    ensures { result ≡ spec.is_free bytes.now }
{
    !is_reserved(bytes)
        || bytes == b"fun".as_slice()
        || bytes == b"call".as_slice()
        || bytes == b"slice".as_slice()
}

/// Whether the bytes may name an input.
fn names_input(alloc: Global, bytes: &[u8]) -> Result<bool, AllocError>
    ensures { IfOk result (λ fits. fits ≡ is_input_name bytes.now) }
{
    match Name::new(alloc, bytes) {
        Ok(_) => Ok(is_free(bytes)),
        Err(NameRefusal::NotAName) => Ok(false),
        Err(NameRefusal::Memory) => Err(AllocError),
    }
}

// ---- head lines

/// Whether an input or a result may have the representation.
fn is_shown(rep: Rep) -> bool
    ensures { result ≡ formed.is_shown rep }
{
    match rep {
        Rep::Slice => false,
        Rep::Bits(limit) | Rep::Amap(limit) => limit >= 1,
        _ => true,
    }
}

fn is_input(alloc: Global, input: &InParam) -> Result<bool, AllocError>
    ensures { IfOk result (λ fits. fits ≡ spec.is_input input.now) }
{
    let named = names_input(alloc, input.name.bytes())?;
    let contains = !matches!(input.rep, Rep::Word | Rep::Flag);
    Ok(named && (!input.kept || contains) && is_shown(input.rep))
}

/// Whether so many results may be given out of so many registers.
fn has_room(regs: u32, results: Option<u64>) -> bool
    ensures { result ≡ spec.has_room regs results }
{
    match results {
        None => true,
        Some(results) => results == 0 || regs >= 1,
    }
}

/// Whether the first procedure may have the name.
fn may_be_main(procs: &[Proc], name: &[u8]) -> bool
    ensures { result ≡ spec.may_be_main procs.now name.now }
{
    !procs.is_empty() || name == b"main".as_slice()
}

/// Whether this may be the first line of a procedure, with what is told after it.
fn is_header(procs: &[Proc], name: &[u8], args: u32, regs: u32, told: &Told) -> bool
    ensures { result ≡ spec.is_header procs.now name.now args regs told.now }
{
    names_proc(name)
        && may_be_main(procs, name)
        && args <= regs
        && regs <= 8_388_608
        && has_room(regs, told.results.number_of(name))
}

// ---- calls

/// Whether no register stands twice.
fn are_distinct(alloc: Global, registers: &[u32]) -> Result<bool, AllocError>
    ensures { IfOk result (λ distinct. distinct ≡ are_distinct nat_eq registers.now) }
{
    let mut seen = IndexSet::new(alloc);
    let mut end = registers.len();
    while end > 0 {
        end -= 1;
        if !seen.insert(registers[end])? {
            return Ok(false);
        }
    }
    Ok(true)
}

/// Whether no register stands twice in the two together.
fn are_apart(alloc: Global, left: &[u32], right: &[u32]) -> Result<bool, AllocError>
    ensures { IfOk result (λ distinct. distinct ≡ are_distinct nat_eq (left.now ++ right.now)) }
{
    let mut all = Vec::new(alloc);
    all.extend_from_slice(left)?;
    all.extend_from_slice(right)?;
    are_distinct(alloc, all.as_slice())
}

/// Whether a procedure may have the name and take so many arguments.
fn callee_fits(name: &[u8], args: &[u32]) -> bool
    ensures { result ≡ spec.callee_fits name.now args.now }
{
    names_proc(name) && args.len() <= 8_388_608
}

fn instr_fits(alloc: Global, instr: &Instr) -> Result<bool, AllocError>
    ensures { IfOk result (λ fits. fits ≡ spec.instr_fits (out-Instr instr.now)) }
{
    match instr {
        Instr::Call { to, proc, args } => {
            let fits = callee_fits(proc.bytes(), args.as_slice());
            Ok(fits && are_distinct(alloc, to.as_slice())?)
        }
        Instr::Par { left, right } => {
            let left_fits = callee_fits(left.proc.bytes(), left.args.as_slice());
            let right_fits = callee_fits(right.proc.bytes(), right.args.as_slice());
            let apart = are_apart(alloc, left.to.as_slice(), right.to.as_slice())?;
            Ok(left_fits && right_fits && apart)
        }
        _ => Ok(true),
    }
}

// ---- lines

/// Whether a line may stand inside a procedure that has so many registers.
fn code_fits(alloc: Global, phrase: &Phrase, regs: u32) -> Result<bool, AllocError>
    ensures { IfOk result (λ fits. fits ≡ spec.code_fits phrase.now regs) }
{
    match phrase {
        Phrase::Plain(instr) => Ok(line_below(regs, instr) && instr_fits(alloc, instr)?),
        Phrase::If(test) => Ok(*test < regs),
        Phrase::While => Ok(regs >= 1),
        Phrase::Do(test) => Ok(*test < regs),
        Phrase::Ret(list) => Ok(all_below(regs, list.as_slice())),
        _ => Ok(true),
    }
}

/// Whether a line may stand between procedures.
fn head_fits(
    alloc: Global,
    phrase: &Phrase,
    procs: &[Proc],
    told: &Told,
) -> Result<bool, AllocError>
    ensures { IfOk result (λ fits. fits ≡ spec.head_fits phrase.now procs.now told.now) }
{
    match phrase {
        Phrase::In(input) => is_input(alloc, input),
        Phrase::Out(rep) => Ok(is_shown(*rep)),
        Phrase::Proc { name, args, regs } => Ok(is_header(procs, name.bytes(), *args, *regs, told)),
        _ => Ok(true),
    }
}

/// Whether a line passes its tests where the lines so far end.
pub fn line_fits(
    alloc: Global,
    phrase: &Phrase,
    procs: &[Proc],
    spot: &Spot,
    told: &Told,
) -> Result<bool, AllocError>
    ensures { IfOk result (λ fits. fits ≡ spec.line_fits phrase.now procs.now (states.spot_of spot.now) told.now) }
{
    match spot {
        Spot::Between => head_fits(alloc, phrase, procs, told),
        Spot::Inside(header, _) => code_fits(alloc, phrase, header.regs),
        Spot::Ended(..) => Ok(true),
    }
}
