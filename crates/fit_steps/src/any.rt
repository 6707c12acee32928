//! Choices of numbers.

ghost use Rattle.std.specs.Prelude.{◌≡◌, ◌∷◌, [], ℕ, true, List, IfOk, OnOk};
ghost use Rattle.proof_lines.specs.Lines.{lines_of};
ghost use Rattle.fit_state.specs.States.{Grows, Is};
ghost use Rattle.fit_steps.specs.Going.{GrowsBy, Steps};
ghost use Rattle.fit_steps.specs.Parts as parts;
ghost use Rattle.fit_tokens.specs.Changes.{tokens_of};
ghost use Rattle.fits.specs.Follow as f;
ghost use Rattle.fits.specs.Follow.{Line, Views};
ghost use Rattle.fits.specs.Places.{State, in_order};
ghost use Rattle.nres_core.specs.declared.flat.Arg.{Arg as ArgOf};
ghost use Rattle.nres_core.specs.declared.place.Place.{Place};
ghost use Rattle.rule_check.specs.Steps as d;
ghost use Rattle.target_code.specs.declared.tree.Rep.TheVariants as r;

use crate::lines::any_line;
use fit_state::{FitState, Rest, arg_info, bind_words_known, in_order, pass_until_held};
use fit_tokens::Token;
use nres_core::Arg;
use ownership::Shape;
use rule_steps::choose;
use sqlite_items::Items;
use std::alloc::{AllocError, Global};
use target_code::Rep;

/// What a number is in.
pub(crate) const NUMBER: Shape = Shape {
    rep: Rep::Word,
    tag: 0,
};

/// A choice of any number from `low` up to and without `high`.
#[derive(Clone, Copy)]
pub struct Choice {
    /// The variable of the number.
    pub out: u32,
    /// The lower end.
    pub low: Arg,
    /// The upper end.
    pub high: Arg,
}

/// A choice that was made: a register holds the word.
#[derive(Clone, Copy)]
struct Chosen<'a> {
    /// The variable of the number.
    out: u32,
    /// The upper end.
    high: Arg,
    /// The register.
    reg: u32,
    /// The words of the number.
    words: &'a [Token],
}

/// A choice of a number: what is left, or none where the derivation does not fit here.
pub fn any_step<'a>(
    alloc: Global,
    regs: u32,
    state: &mut FitState,
    rest: Rest<'a>,
    choice: &Choice,
) -> Result<Option<Rest<'a>>, AllocError>
    ensures stepped { IfOk result (λ r. (V : Views) (s : State) → Is regs state.old s
        → Steps regs state.new (lines_of rest.entry.lines.now) (λ go. f.any_step regs V s rest.entry.code.now (lines_of rest.entry.lines.now) choice.now.out choice.now.low choice.now.high go) r) }
    ensures grows { IfOk result (λ r. GrowsBy state.old state.new r) }
{
    match any_line(rest.lines) {
        None => Ok(None),
        Some(any) => {
            let rest = Rest {
                code: rest.code,
                lines: any.rest,
            };
            any_low(alloc, regs, state, rest, choice, any.reg)
        }
    }
}

/// The same behind the line.
fn any_low<'a>(
    alloc: Global,
    regs: u32,
    state: &mut FitState,
    rest: Rest<'a>,
    choice: &Choice,
    reg: u32,
) -> Result<Option<Rest<'a>>, AllocError>
    ensures stepped { IfOk result (λ r. (V : Views) (s : State) (ls : List Line) → Is regs state.old s
        → Steps regs state.new ls (parts.any_low regs V s rest.entry.code.now ls (lines_of rest.entry.lines.now) choice.now.out choice.now.low choice.now.high reg) r) }
    ensures grows { IfOk result (λ r. GrowsBy state.old state.new r) }
{
    match arg_info(alloc, state, choice.low)? {
        None => Ok(None),
        Some(info) => {
            let chosen = Chosen {
                out: choice.out,
                high: choice.high,
                reg,
                words: info.words.as_slice(),
            };
            any_between(alloc, regs, state, rest, &chosen)
        }
    }
}

/// The same with the words of the lower end.
fn any_between<'a>(
    alloc: Global,
    regs: u32,
    state: &mut FitState,
    rest: Rest<'a>,
    chosen: &Chosen,
) -> Result<Option<Rest<'a>>, AllocError>
    ensures stepped { IfOk result (λ r. (V : Views) (s : State) (ls : List Line) → Is regs state.old s
        → Steps regs state.new ls (parts.any_between regs V s rest.entry.code.now ls (lines_of rest.entry.lines.now) chosen.now.out (tokens_of chosen.now.words.now) chosen.now.high chosen.now.reg) r) }
    ensures grows { IfOk result (λ r. GrowsBy state.old state.new r) }
{
    match pass_until_held(state, regs, rest.code, chosen.reg, chosen.words)? {
        None => Ok(None),
        Some(code) => {
            if !in_order(state.next, &[chosen.out], &[NUMBER]) {
                return Ok(None);
            }
            any_bind(alloc, state, chosen)?;
            Ok(Some(Rest {
                code,
                lines: rest.lines,
            }))
        }
    }
}

/// The variable of a number that was chosen.
fn any_bind(alloc: Global, state: &mut FitState, chosen: &Chosen) -> Result<(), AllocError>
    ensures bound { OnOk result ((R : ℕ) (s : State) → Is R state.old s → Is R state.new (parts.any_next s chosen.now.out (tokens_of chosen.now.words.now) chosen.now.high)) }
    ensures grows { OnOk result (in_order state.old.next (chosen.now.out ∷ []) (d.bare r.Word ∷ []) ≡ true → Grows state.old state.new) }
{
    choose(&mut state.rules, chosen.out, chosen.high)?;
    let words = [Items::from_slice(alloc, chosen.words)?];
    bind_words_known(alloc, state, &[chosen.out], &[NUMBER], &words)?;
    state.rules.context.len();
    Ok(())
}
