//! The programs of the forms.

ghost use Rattle.std.specs.Prelude.{◌≡◌, ◌⊎◌, IfOk, IsTrue, length, ◌≤◌};
ghost use Rattle.nres_rules.specs.Flatten.{taken};
ghost use Rattle.smallest_form.specs.Programs as programs;
ghost use Rattle.smallest_form.specs.declared.form.Form.TheVariants as form;
ghost use Rattle.triple_logic.specs.Sample.{array_get};

use crate::form::Form;
use nres_core::Param;
use sqlite_items::Items;
use std::alloc::{AllocError, Global};
use target_code::{Calc, InParam, Instr, Name, Proc, Program, Rep};
use triple_logic::text::{calc, call, code_of, procedure};

/// The procedure that reads an element of an array: the word of the block at the offset plus the index.
fn array_get(alloc: Global) -> Result<Proc, AllocError>
    ensures { IfOk result (λ p. p ≡ array_get) }
{
    let add = calc(4, Calc::Add, 1, 3);
    let load = Instr::Load {
        to: 5,
        block: 0,
        index: 4,
    };
    let code = code_of(vec![in alloc; add, load]?);
    procedure(alloc, b"array_get", 4, 6, code, &[5])
}

/// The instruction that gets the element of the array in the registers 0 to 2, at the index in register 3.
fn get_call(alloc: Global) -> Result<Instr, AllocError>
    ensures { IfOk result (λ i. i ≡ programs.get_call) }
{
    call(alloc, &[4], b"array_get", &[0, 1, 2, 3])
}

/// `main` of a number; the parameters are in so many registers.
fn number_main(alloc: Global, args: u32, value: u64) -> Result<Proc, AllocError>
    requires { args ≤ 3 }
    ensures { IfOk result (λ p. p ≡ programs.number_main args value) }
{
    let code = code_of(vec![in alloc; Instr::Const { to: args, value }]?);
    procedure(alloc, b"main", args, args + 1, code, &[args])
}

/// `main` of an element.
fn element_main(alloc: Global, index: u64) -> Result<Proc, AllocError>
    ensures { IfOk result (λ p. p ≡ programs.element_main index) }
{
    let place = Instr::Const {
        to: 3,
        value: index,
    };
    let get = get_call(alloc)?;
    let code = code_of(vec![in alloc; place, get]?);
    procedure(alloc, b"main", 3, 5, code, &[4])
}

/// `main` of a number behind an element that is read.
fn after_main(alloc: Global, index: u64, value: u64) -> Result<Proc, AllocError>
    ensures { IfOk result (λ p. p ≡ programs.after_main index value) }
{
    let place = Instr::Const {
        to: 3,
        value: index,
    };
    let get = get_call(alloc)?;
    let number = Instr::Const { to: 5, value };
    let code = code_of(vec![in alloc; place, get, number]?);
    procedure(alloc, b"main", 3, 6, code, &[5])
}

/// The procedures, where the parameters are in so many registers.
fn procs_of(alloc: Global, args: u32, form: Form) -> Result<Items<Proc>, AllocError>
    requires { args ≤ 3 }
    ensures { IfOk result (λ ps. ps ≡ programs.procs_of args form) }
{
    let procs = match form {
        Form::Number(value) => vec![in alloc; number_main(alloc, args, value)?]?,
        Form::Element(index) => vec![in alloc; element_main(alloc, index)?, array_get(alloc)?]?,
        Form::NumberAfter { index, value } => {
            vec![in alloc; after_main(alloc, index, value)?, array_get(alloc)?]?
        }
    };
    Ok(Items::from_vec(procs))
}

/// The input that a parameter is.
fn input_of(alloc: Global, param: &Param) -> Result<InParam, AllocError>
    ensures { IfOk result (λ i. i ≡ (record { name = param.now.name; rep = param.now.rep; kept = param.now.kept })) }
{
    Ok(InParam {
        name: Name::new(alloc, param.name.bytes()).map_err(|_| AllocError)?,
        rep: param.rep,
        kept: param.kept,
    })
}

/// The inputs.
fn ins_of(alloc: Global, params: &[Param]) -> Result<Items<InParam>, AllocError>
    requires { length params.now ≤ 1 }
    ensures { IfOk result (λ is. is ≡ taken params.now) }
{
    match params {
        [param] => Ok(Items::from_vec(vec![in alloc; input_of(alloc, param)?]?)),
        _ => Ok(Items::new(alloc)),
    }
}

/// The registers of the parameters.
fn registers(params: &[Param]) -> u32
    ensures exact { result ≡ programs.registers (taken params.now) }
    ensures few { result ≤ 3 }
{
    match params {
        [] => 0,
        [_, ..] => 3,
    }
}

/// The program of a form, with these parameters.
pub fn program_of(alloc: Global, params: &[Param], form: Form) -> Result<Program, AllocError>
    requires { length params.now ≤ 1 }
    ensures { IfOk result (λ t. t ≡ programs.program_of (taken params.now) form) }
{
    Ok(Program {
        ins: ins_of(alloc, params)?,
        outs: Items::from_slice(alloc, &[Rep::Word])?,
        procs: procs_of(alloc, registers(params), form)?,
    })
}
