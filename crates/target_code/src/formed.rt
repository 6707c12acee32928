//! Which programs are formed. Nothing here takes memory: names are compared each with each.

ghost use Rattle.std.specs.Prelude.{◌≡◌, ◌↔◌, IsTrue, ◌&&◌, ◌==◌, List, length, map, nat_eq};
ghost use Rattle.std.specs.List.{list_all, list_any};
ghost use Rattle.std.specs.Str.{bytes_eq};
ghost use Rattle.target_code.specs.Lines.{code_passes, calls_met, has_distinct_targets, code_nests};
ghost use Rattle.target_code.specs.Formed as spec;

use crate::code;
use crate::name::{names_input, names_proc};
use crate::tree::{InParam, Proc, Program, Rep};

/// Whether a program is formed: it has a text, and the machine runs it.
pub fn is_formed(program: &Program) -> bool
    ensures { IsTrue result ↔ spec.Formed program.now }
{
    passes(program)
}

// ---- inputs and results

fn is_container(rep: Rep) -> bool
    ensures { result ≡ spec.is_container rep }
{
    !matches!(rep, Rep::Word | Rep::Flag)
}

/// Whether an input or a result may have the representation.
fn is_shown(rep: Rep) -> bool
    ensures { result ≡ spec.is_shown rep }
{
    match rep {
        Rep::Slice => false,
        Rep::Bits(limit) | Rep::Amap(limit) => limit >= 1,
        _ => true,
    }
}

fn input_names(ins: &[InParam]) -> bool
    ensures { result ≡ spec.input_names ins.now }
{
    ins.iter().all(|input| names_input(input.name.bytes()))
}

fn inputs_distinct(ins: &[InParam]) -> bool
    ensures { result ≡ spec.inputs_distinct ins.now }
{
    let mut rest = ins;
    while let [first, others @ ..] = rest {
        if some_input(others, first.name.bytes()) {
            return false;
        }
        rest = others;
    }
    true
}

fn some_input(ins: &[InParam], name: &[u8]) -> bool
    ensures { result ≡ list_any (λ p. bytes_eq name.now p.name) ins.now }
{
    ins.iter().any(|input| name == input.name.bytes())
}

fn containers_kept(ins: &[InParam]) -> bool
    ensures { result ≡ spec.containers_kept ins.now }
{
    ins.iter()
        .all(|input| !input.kept || is_container(input.rep))
}

fn inputs_shown(ins: &[InParam]) -> bool
    ensures { result ≡ spec.inputs_shown ins.now }
{
    ins.iter().all(|input| is_shown(input.rep))
}

/// Whether the inputs may have their names, marks and representations.
fn are_inputs(ins: &[InParam]) -> bool
    ensures { result ≡ spec.are_inputs ins.now }
{
    input_names(ins) && inputs_distinct(ins) && containers_kept(ins) && inputs_shown(ins)
}

/// Whether the results may have their representations.
fn results_shown(outs: &[Rep]) -> bool
    ensures { result ≡ spec.results_shown outs.now }
{
    outs.iter().all(|rep| is_shown(*rep))
}

// ---- procedures

fn proc_names(procs: &[Proc]) -> bool
    ensures { result ≡ spec.proc_names procs.now }
{
    procs.iter().all(|proc| names_proc(proc.name.bytes()))
}

fn procs_distinct(procs: &[Proc]) -> bool
    ensures { result ≡ spec.procs_distinct procs.now }
{
    let mut rest = procs;
    while let [first, others @ ..] = rest {
        if some_proc(others, first.name.bytes()) {
            return false;
        }
        rest = others;
    }
    true
}

fn some_proc(procs: &[Proc], name: &[u8]) -> bool
    ensures { result ≡ list_any (λ p. bytes_eq name.now p.name) procs.now }
{
    procs.iter().any(|proc| name == proc.name.bytes())
}

fn has_registers(proc: &Proc) -> bool
    ensures { result ≡ spec.has_registers proc.now }
{
    code::code_below(proc.regs, &proc.code) && code::all_below(proc.regs, proc.ret.as_slice())
}

fn have_sizes(procs: &[Proc]) -> bool
    ensures { result ≡ spec.have_sizes procs.now }
{
    procs
        .iter()
        .all(|proc| proc.args <= proc.regs && proc.regs <= 8_388_608)
}

fn blocks_nest(procs: &[Proc]) -> bool
    ensures { result ≡ spec.blocks_nest procs.now }
{
    procs.iter().all(|proc| code::code_nests(&proc.code, 0))
}

fn have_registers(procs: &[Proc]) -> bool
    ensures { result ≡ spec.have_registers procs.now }
{
    procs.iter().all(|proc| has_registers(proc))
}

fn calls_met(procs: &[Proc]) -> bool
    ensures { result ≡ spec.all_calls_met procs.now }
{
    procs.iter().all(|proc| code::calls_met(procs, &proc.code))
}

fn targets_distinct(procs: &[Proc]) -> bool
    ensures { result ≡ spec.targets_distinct procs.now }
{
    procs.iter().all(|proc| code::targets_distinct(&proc.code))
}

/// Whether the procedures may have their names and sizes.
fn are_procs(procs: &[Proc]) -> bool
    ensures { result ≡ spec.are_procs procs.now }
{
    proc_names(procs) && procs_distinct(procs) && have_sizes(procs)
}

/// Whether the procedures may have their code. Blocks are counted first, so that no other test goes deeper than they may.
fn are_codes(procs: &[Proc]) -> bool
    ensures { result ≡ spec.are_codes procs.now }
{
    blocks_nest(procs) && have_registers(procs) && calls_met(procs) && targets_distinct(procs)
}

/// All of the tests.
#[tactic(auto, unfolding(crate::specs::Formed::passes))]
fn passes(program: &Program) -> bool
    ensures { result ≡ spec.passes program.now }
{
    let ins = program.ins.as_slice();
    let outs = program.outs.as_slice();
    let procs = program.procs.as_slice();
    are_inputs(ins)
        && results_shown(outs)
        && are_procs(procs)
        && are_codes(procs)
        && begins_with_main(ins, outs, procs)
}

// ---- `main`

/// Whether the inputs have so many registers.
fn inputs_take(ins: &[InParam], args: u32) -> bool
    ensures { result ≡ (spec.input_width ins.now == args) }
{
    let mut left = args as usize;
    for input in ins {
        let width = input.rep.width();
        if left < width {
            return false;
        }
        left -= width;
    }
    left == 0
}

/// Whether the results have so many registers.
fn results_give(outs: &[Rep], count: usize) -> bool
    ensures { result ≡ (spec.result_width outs.now == count) }
{
    let mut left = count;
    for rep in outs {
        let width = rep.width();
        if left < width {
            return false;
        }
        left -= width;
    }
    left == 0
}

/// Whether the first procedure is `main`, with the arguments and results that the inputs and results want.
fn begins_with_main(ins: &[InParam], outs: &[Rep], procs: &[Proc]) -> bool
    ensures { result ≡ spec.begins_with_main ins.now outs.now procs.now }
{
    match procs {
        [] => false,
        [main, ..] => {
            main.name.bytes() == b"main".as_slice()
                && inputs_take(ins, main.args)
                && results_give(outs, main.ret.len())
        }
    }
}
