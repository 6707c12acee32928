//! Calculations.

ghost use Rattle.std.specs.Prelude.{◌≡◌, ◌≤◌, ◌∷◌, [], ℕ, true, List, length, IfOk, OnOk};
ghost use Rattle.fit_state.specs.Infos.{infos_of};
ghost use Rattle.proof_lines.specs.Lines.{lines_of};
ghost use Rattle.fit_state.specs.States.{Grows, Is};
ghost use Rattle.fit_steps.specs.Going.{GrowsBy, Steps};
ghost use Rattle.fit_steps.specs.Parts as parts;
ghost use Rattle.fits.specs.Follow as f;
ghost use Rattle.fits.specs.Follow.{Line, Views};
ghost use Rattle.fits.specs.Places.{Info as InfoOf, State, in_order};
ghost use Rattle.ownership.specs.Entries.{shape_of};
ghost use Rattle.rule_check.specs.Steps as d;

use crate::instrs::{CalcAt, calc_at};
use crate::lines::calc_line;
use facts::Calculation;
use fit_state::{FitState, Info, Rest, all_below, arg_infos, bind_known, in_order, pass_all};
use ownership::Shape;
use rule_steps::calculate;
use std::alloc::{AllocError, Global};
use target_code::{Calc, Rep};

/// A calculation: what is left, or none where the derivation does not fit here.
pub fn calc_step<'a>(
    alloc: Global,
    regs: u32,
    state: &mut FitState,
    rest: Rest<'a>,
    calculation: &Calculation,
) -> Result<Option<Rest<'a>>, AllocError>
    requires { state.old.rules.start ≤ length state.old.rules.calculations }
    ensures stepped { IfOk result (λ r. (V : Views) (s : State) → Is regs state.old s
        → Steps regs state.new (lines_of rest.entry.lines.now) (λ go. f.calc_step regs V s rest.entry.code.now (lines_of rest.entry.lines.now) calculation.now.place calculation.now.to calculation.now.word calculation.now.left calculation.now.right go) r) }
    ensures grows { IfOk result (λ r. GrowsBy state.old state.new r) }
{
    match calc_line(rest.lines) {
        None => Ok(None),
        Some(lines) => {
            let rest = Rest {
                code: rest.code,
                lines,
            };
            calc_values(alloc, regs, state, rest, calculation)
        }
    }
}

/// The same behind the line.
fn calc_values<'a>(
    alloc: Global,
    regs: u32,
    state: &mut FitState,
    rest: Rest<'a>,
    calculation: &Calculation,
) -> Result<Option<Rest<'a>>, AllocError>
    requires { state.old.rules.start ≤ length state.old.rules.calculations }
    ensures stepped { IfOk result (λ r. (V : Views) (s : State) (ls : List Line) → Is regs state.old s
        → Steps regs state.new ls (parts.calc_values regs V s rest.entry.code.now ls (lines_of rest.entry.lines.now) calculation.now.place calculation.now.to calculation.now.word calculation.now.left calculation.now.right) r) }
    ensures grows { IfOk result (λ r. GrowsBy state.old state.new r) }
{
    let args = [calculation.left, calculation.right];
    match arg_infos(alloc, state, &args)? {
        None => Ok(None),
        Some(infos) => calc_between(alloc, regs, state, rest, calculation, infos.as_slice()),
    }
}

/// The same with what stands for the values.
fn calc_between<'a>(
    alloc: Global,
    regs: u32,
    state: &mut FitState,
    rest: Rest<'a>,
    calculation: &Calculation,
    infos: &[Info],
) -> Result<Option<Rest<'a>>, AllocError>
    requires { state.old.rules.start ≤ length state.old.rules.calculations }
    ensures stepped { IfOk result (λ r. (V : Views) (s : State) (ls : List Line) (x y : InfoOf) → infos_of infos.now ≡ x ∷ y ∷ [] → Is regs state.old s
        → Steps regs state.new ls (parts.calc_between regs V s rest.entry.code.now ls (lines_of rest.entry.lines.now) calculation.now.place calculation.now.to calculation.now.word calculation.now.left calculation.now.right x y) r) }
    ensures grows { IfOk result (λ r. GrowsBy state.old state.new r) }
{
    match pass_all(state, regs, rest.code)? {
        None => Ok(None),
        Some(code) => {
            let rest = Rest {
                code,
                lines: rest.lines,
            };
            calc_end(alloc, regs, state, rest, calculation, infos)
        }
    }
}

/// The same at the instruction.
fn calc_end<'a>(
    alloc: Global,
    regs: u32,
    state: &mut FitState,
    rest: Rest<'a>,
    calculation: &Calculation,
    infos: &[Info],
) -> Result<Option<Rest<'a>>, AllocError>
    requires { state.old.rules.start ≤ length state.old.rules.calculations }
    ensures stepped { IfOk result (λ r. (s : State) (ls : List Line) (x y : InfoOf) → infos_of infos.now ≡ x ∷ y ∷ [] → Is regs state.old s
        → Steps regs state.new ls (parts.calc_at regs s rest.entry.code.now ls (lines_of rest.entry.lines.now) calculation.now.place calculation.now.to calculation.now.word calculation.now.left calculation.now.right x y) r) }
    ensures grows { IfOk result (λ r. GrowsBy state.old state.new r) }
{
    match calc_at(rest.code) {
        None => Ok(None),
        Some(at) => {
            if !meets(regs, state, calculation, infos, &at) {
                return Ok(None);
            }
            calc_bind(alloc, state, calculation, at.to)?;
            Ok(Some(Rest {
                code: at.rest,
                lines: rest.lines,
            }))
        }
    }
}

/// Whether an instruction is the calculation of these values.
fn meets(
    regs: u32,
    state: &FitState,
    calculation: &Calculation,
    infos: &[Info],
    at: &CalcAt,
) -> bool
    ensures meets { (s : State) (x y : InfoOf) → infos_of infos.now ≡ x ∷ y ∷ [] → Is regs state.now s
        → result ≡ parts.calc_meets regs s calculation.now.to calculation.now.word x y at.now.to at.now.word at.now.left at.now.right }
    ensures order { result ≡ true → in_order state.now.next (calculation.now.to ∷ []) (d.bare (d.calc_rep calculation.now.word) ∷ []) ≡ true }
{
    match infos {
        [left, right] => {
            same_calc(at.word, calculation.word)
                && state.tokens.hold(&[at.left], left.words.as_slice())
                && state.tokens.hold(&[at.right], right.words.as_slice())
                && all_below(regs, &[at.to])
                && in_order(
                    state.next,
                    &[calculation.to],
                    &[calc_shape(calculation.word)],
                )
        }
        _ => false,
    }
}

/// Whether these calculate the same.
fn same_calc(word: Calc, other: Calc) -> bool
    ensures { result ≡ f.same_calc word other }
{
    calc_number(word) == calc_number(other)
}

/// A number for each calculation.
fn calc_number(word: Calc) -> u8
    ensures { result ≡ f.calc_number word }
{
    word as u8
}

/// What a calculation gives.
fn calc_shape(word: Calc) -> Shape
    ensures { shape_of result ≡ d.bare (d.calc_rep word) }
{
    let rep = match word {
        Calc::Lt | Calc::Le | Calc::Eq | Calc::Ne | Calc::And | Calc::Or => Rep::Flag,
        _ => Rep::Word,
    };
    Shape { rep, tag: 0 }
}

/// The variable of a calculation whose answer comes to this register.
fn calc_bind(
    alloc: Global,
    state: &mut FitState,
    calculation: &Calculation,
    to: u32,
) -> Result<(), AllocError>
    requires { state.old.rules.start ≤ length state.old.rules.calculations }
    ensures bound { OnOk result ((R : ℕ) (s : State) → f.all_below R (to ∷ []) ≡ true → Is R state.old s
        → Is R state.new (parts.calc_next s calculation.now.place calculation.now.to calculation.now.word calculation.now.left calculation.now.right to)) }
    ensures grows { OnOk result (in_order state.old.next (calculation.now.to ∷ []) (d.bare (d.calc_rep calculation.now.word) ∷ []) ≡ true → Grows state.old state.new) }
{
    calculate(&mut state.rules, *calculation)?;
    bind_known(
        alloc,
        state,
        &[to],
        &[calculation.to],
        &[calc_shape(calculation.word)],
    )?;
    state.rules.context.len();
    Ok(())
}
