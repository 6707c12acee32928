//! Where the body of a specification or of a procedure begins.

ghost use Rattle.std.specs.Prelude.{◌≡◌, ◌+◌, ◌≤◌, length, IfOk, OnOk};
ghost use Rattle.fit_blocks.specs.Answers.{At, IsOpen};
ghost use Rattle.fit_tokens.specs.Changes.{tokens_of};
ghost use Rattle.fit_walk.specs.Bodies.{ParamsBound, begins, body_params, body_regs, param_stands};
ghost use Rattle.fits.specs.Programs as f;
ghost use Rattle.ownership.specs.Entries.{shape_of};

use crate::body::Body;
use body_rules::begin_body;
use facts::{Calculations, Facts};
use fit_state::{FitState, fresh};
use fit_tokens::{Token, Tokens, WordStack, Words};
use ownership::{Context, Shape};
use rule_steps::State;
use sqlite_items::Items;
use std::alloc::{AllocError, Global};
use target_code::{InParam, Rep};

/// The words of parameters, the variables from this one on.
pub(crate) fn param_tokens(
    alloc: Global,
    first: u32,
    params: &[InParam],
) -> Result<Items<Token>, AllocError>
    ensures { IfOk result (λ words. tokens_of words ≡ f.param_tokens first params.now) }
{
    let mut all = Items::new(alloc);
    let mut var = first;
    'each: for param in params {
        all.append(fresh(alloc, var, param_shape(var, param))?)?;
        var = next(var)?;
    }
    Ok(all)
}

fn param_shape(var: u32, param: &InParam) -> Shape
    ensures { shape_of result ≡ f.param_shape var param.now }
{
    let tag = match param.rep {
        Rep::Slice => var,
        _ => 0,
    };
    Shape {
        rep: param.rep,
        tag,
    }
}

/// The variable behind another.
fn next(var: u32) -> Result<u32, AllocError>
    ensures { IfOk result (λ next. next ≡ var + 1) }
{
    var.checked_add(1).ok_or(AllocError)
}

/// The state where a body begins, with the words of its parameters in its first registers.
pub(crate) fn begin_state(
    alloc: Global,
    body: &Body,
    words: &[Token],
) -> Result<FitState, AllocError>
    requires words { tokens_of words.now ≡ f.param_tokens body.now.first (body_params body.now) }
    requires regs { length words.now ≤ body_regs body.now }
    ensures at { IfOk result (λ state. At (body_regs body.now) state (begins body.now)) }
    ensures open { IfOk result (λ state. IsOpen state) }
{
    let tokens = Tokens::of_words(alloc, words)?;
    let mut state = FitState {
        rules: State {
            context: Context::new(alloc),
            facts: Facts::new(alloc),
            calculations: Calculations::new(alloc),
            start: 0,
        },
        tokens,
        words: WordStack::new(alloc),
        next: u64::from(body.first),
        branch: body.branch,
    };
    match bind_params(alloc, &mut state, body.first, body.header.params) {
        Ok(()) => Ok(state),
        Err(error) => {
            drop(state);
            Err(error)
        }
    }
}

/// Parameters, the variables from this one on, are entries.
fn bind_params(
    alloc: Global,
    state: &mut FitState,
    first: u32,
    params: &[InParam],
) -> Result<(), AllocError>
    ensures { OnOk result (ParamsBound first params.now state.old state.new) }
{
    begin_body(&mut state.rules.context, first, params)?;
    let past = push_params(alloc, &mut state.words, first, params)?;
    state.next = u64::from(past);
    Ok(())
}

/// What stands for parameters. Gives the variable behind them.
fn push_params(
    alloc: Global,
    words: &mut WordStack,
    first: u32,
    params: &[InParam],
) -> Result<u32, AllocError>
    ensures stand { OnOk result (words.new ≡ param_stands first params.now words.old) }
    ensures past { IfOk result (λ past. past ≡ first + length params.now) }
{
    let mut var = first;
    'each: for param in params {
        let list = fresh(alloc, var, param_shape(var, param))?;
        words.push(Words {
            list,
            part: param.kept,
        })?;
        var = next(var)?;
    }
    Ok(var)
}
