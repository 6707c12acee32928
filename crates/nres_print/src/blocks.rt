//! Blocks, and whole specifications.

ghost use Rattle.std.specs.Prelude.{◌≡◌, ◌++◌, ◌+◌, codes, OnOk, IfOk};
ghost use Rattle.nres_print.specs.Blocks as texts;
ghost use Rattle.nres_print.specs.Exprs.{expr_text, whole_text, results_text};
ghost use Rattle.nres_print.specs.Heads.{name_text, pattern_text};
ghost use Rattle.nres_print.specs.ReadsBack as back;
ghost use Rattle.nres_print.specs.Spellings.{bracketed};

use crate::{exprs, heads, words};
use nres_core::{Block, Body, Expr, Fun, Named, Spec, Step};
use std::alloc::{AllocError, Global};
use target_code::push_indent;

/// The canonical text of a specification: the one way in which it is printed. Values for its parameters are no part of it.
/// Of a tree of the grammar, places aside, the text reads back as the same tree, places aside, within the same limits.
/// An error is want of memory.
pub fn print_spec(alloc: Global, spec: &Spec) -> Result<Vec<u8>, AllocError>
    ensures text { IfOk result (λ text. text.items ≡ texts.spec_text spec.now) }
    ensures reads_back { IfOk result (λ text. back.IsOfGrammar spec.now → back.ReadsAs text.items spec.now) }
{
    let mut out = Vec::new(alloc);
    heads::head(
        &mut out,
        b"spec ",
        spec.name.bytes(),
        spec.params.as_slice(),
        spec.shown.as_slice(),
    )?;
    block(&mut out, &spec.body, 1)?;
    out.extend_from_slice(b"end\n")?;
    funs(&mut out, spec.funs.as_slice())?;
    Ok(out)
}

/// The procedures.
fn funs(out: &mut Vec<u8>, list: &[Fun]) -> Result<(), AllocError>
    ensures { OnOk result (out.new.items ≡ out.old.items ++ texts.funs_text list.now) }
{
    'each: for item in list {
        fun(out, item)?;
    }
    Ok(())
}

fn fun(out: &mut Vec<u8>, fun: &Fun) -> Result<(), AllocError>
    ensures { OnOk result (out.new.items ≡ out.old.items ++ texts.fun_text fun.now) }
{
    heads::head(
        out,
        b"fun ",
        fun.name.bytes(),
        fun.params.as_slice(),
        fun.shown.as_slice(),
    )?;
    block(out, &fun.body, 1)?;
    out.extend_from_slice(b"end\n")
}

// ---- blocks

/// The level of an inner block. The text of a block at the last level would fit in no memory.
fn deeper(level: u64) -> Result<u64, AllocError>
    ensures { IfOk result (λ deeper. deeper ≡ level + 1) }
{
    level.checked_add(1).ok_or(AllocError)
}

#[cycle(print)]
fn block(out: &mut Vec<u8>, block: &Block, level: u64) -> Result<(), AllocError>
    ensures { OnOk result (out.new.items ≡ out.old.items ++ texts.block_text block.now level) }
{
    steps(out, block.steps.as_slice(), level)?;
    push_indent(out, level)?;
    out.extend_from_slice(b"return ")?;
    exprs::results(out, block.results.as_slice())?;
    out.extend_from_slice(b"\n")
}

#[cycle(print)]
fn steps(out: &mut Vec<u8>, list: &[Step], level: u64) -> Result<(), AllocError>
    ensures { OnOk result (out.new.items ≡ out.old.items ++ texts.steps_at texts.step_text list.now level) }
{
    'each: for item in list {
        step(out, item, level)?;
    }
    Ok(())
}

#[cycle(print)]
fn step(out: &mut Vec<u8>, step: &Step, level: u64) -> Result<(), AllocError>
    ensures { OnOk result (out.new.items ≡ out.old.items ++ texts.step_text step.now level) }
{
    push_indent(out, level)?;
    match step {
        Step::Bind { names, body, .. } => {
            heads::pattern(out, names.as_slice())?;
            out.extend_from_slice(b" <- ")?;
            give(out, body, level)?;
        }
        Step::Assert { test, .. } => {
            out.extend_from_slice(b"assert ")?;
            exprs::whole(out, test)?;
        }
    }
    out.extend_from_slice(b"\n")
}

/// What gives the results of a bind.
#[cycle(print)]
fn give(out: &mut Vec<u8>, body: &Body, level: u64) -> Result<(), AllocError>
    ensures { OnOk result (out.new.items ≡ out.old.items ++ texts.body_text body.now level) }
{
    opening(out, body)?;
    inside(out, body, level)
}

/// The blocks of what gives the results of a bind.
#[cycle(print)]
fn inside(out: &mut Vec<u8>, body: &Body, level: u64) -> Result<(), AllocError>
    ensures { OnOk result (out.new.items ≡ out.old.items ++ texts.inside_text body.now level) }
{
    match body {
        Body::Value(_) | Body::Take { .. } | Body::Any { .. } | Body::Call { .. } => Ok(()),
        Body::If { yes, no, .. } => {
            inner(out, yes, level, b"else")?;
            inner(out, no, level, b"end")
        }
        Body::While { body, .. } => inner(out, body, level, b"end"),
        Body::Par { left, right, .. } => {
            inner(out, left, level, b"and")?;
            inner(out, right, level, b"end")
        }
        Body::Split {
            left,
            right_name,
            right,
            ..
        } => {
            inner(out, left, level, b"right ")?;
            out.extend_from_slice(right_name.name.bytes())?;
            inner(out, right, level, b"end")
        }
        Body::Either { left, right, .. } => {
            inner(out, left, level, b"or")?;
            inner(out, right, level, b"end")
        }
        Body::Foreach { body, .. } => inner(out, body, level, b"end"),
    }
}

/// A block, one level deeper, and the word behind it.
#[cycle(print)]
fn inner(out: &mut Vec<u8>, inside: &Block, level: u64, word: &[u8]) -> Result<(), AllocError>
    ensures { OnOk result (out.new.items ≡ out.old.items ++ texts.inner_text texts.block_text inside.now level word.now) }
{
    let deeper = deeper(level)?;
    out.extend_from_slice(b"\n")?;
    block(out, inside, deeper)?;
    push_indent(out, level)?;
    out.extend_from_slice(word)
}

// ---- what stands in front of blocks

/// What gives the results of a bind, up to its first block.
fn opening(out: &mut Vec<u8>, body: &Body) -> Result<(), AllocError>
    ensures { OnOk result (out.new.items ≡ out.old.items ++ texts.opening_text body.now) }
{
    match body {
        Body::Value(e) => exprs::whole(out, e),
        Body::Take { word, arg, .. } => take(out, word.bytes(), arg),
        Body::Any { low, high, .. } => any(out, low, high),
        Body::If { test, .. } => choice(out, test),
        Body::While {
            vars,
            starts,
            test,
            ..
        } => repeat(out, vars.as_slice(), starts.as_slice(), test),
        Body::Par { .. } => out.extend_from_slice(b"par"),
        Body::Split {
            list,
            at,
            left_name,
            ..
        } => split(out, list.name.bytes(), at, left_name.name.bytes()),
        Body::Either { .. } => out.extend_from_slice(b"either"),
        Body::Foreach {
            var,
            over,
            vars,
            starts,
            ..
        } => {
            each(out, var.name.bytes(), over.name.bytes(), vars.as_slice())?;
            from(out, starts.as_slice())?;
            out.extend_from_slice(b" do")
        }
        Body::Call { fun, args, .. } => call(out, fun.name.bytes(), args.as_slice()),
    }
}

fn take(out: &mut Vec<u8>, word: &[u8], arg: &Expr) -> Result<(), AllocError>
    ensures { OnOk result (out.new.items ≡ out.old.items ++ (word.now ++ (codes " " ++ expr_text arg.now 0))) }
{
    out.extend_from_slice(word)?;
    out.extend_from_slice(b" ")?;
    exprs::expr(out, arg, 0)
}

fn any(out: &mut Vec<u8>, low: &Expr, high: &Expr) -> Result<(), AllocError>
    ensures { OnOk result (out.new.items ≡ out.old.items ++ (codes "any " ++ (expr_text low.now 0 ++ (codes " " ++ expr_text high.now 0)))) }
{
    out.extend_from_slice(b"any ")?;
    exprs::expr(out, low, 0)?;
    out.extend_from_slice(b" ")?;
    exprs::expr(out, high, 0)
}

fn choice(out: &mut Vec<u8>, test: &Expr) -> Result<(), AllocError>
    ensures { OnOk result (out.new.items ≡ out.old.items ++ (codes "if " ++ (whole_text test.now ++ codes " then"))) }
{
    out.extend_from_slice(b"if ")?;
    exprs::whole(out, test)?;
    out.extend_from_slice(b" then")
}

fn from(out: &mut Vec<u8>, starts: &[Expr]) -> Result<(), AllocError>
    ensures { OnOk result (out.new.items ≡ out.old.items ++ (codes " from " ++ results_text starts.now)) }
{
    out.extend_from_slice(b" from ")?;
    exprs::results(out, starts)
}

fn repeat(out: &mut Vec<u8>, vars: &[Named], starts: &[Expr], test: &Expr) -> Result<(), AllocError>
    ensures { OnOk result (out.new.items ≡ out.old.items ++ (codes "while " ++ (pattern_text vars.now ++ (codes " from " ++ (results_text starts.now ++ (codes " if " ++ (whole_text test.now ++ codes " do"))))))) }
{
    out.extend_from_slice(b"while ")?;
    heads::pattern(out, vars)?;
    from(out, starts)?;
    out.extend_from_slice(b" if ")?;
    exprs::whole(out, test)?;
    out.extend_from_slice(b" do")
}

fn split(out: &mut Vec<u8>, list: &[u8], at: &Expr, left: &[u8]) -> Result<(), AllocError>
    ensures { OnOk result (out.new.items ≡ out.old.items ++ (codes "split " ++ (list.now ++ (codes " at " ++ (whole_text at.now ++ (codes " left " ++ left.now)))))) }
{
    out.extend_from_slice(b"split ")?;
    out.extend_from_slice(list)?;
    out.extend_from_slice(b" at ")?;
    exprs::whole(out, at)?;
    out.extend_from_slice(b" left ")?;
    out.extend_from_slice(left)
}

/// The first words of a `foreach`, with its pattern.
fn each(out: &mut Vec<u8>, var: &[u8], over: &[u8], vars: &[Named]) -> Result<(), AllocError>
    ensures { OnOk result (out.new.items ≡ out.old.items ++ (codes "foreach " ++ (var.now ++ (codes " in " ++ (over.now ++ (codes " " ++ bracketed name_text vars.now)))))) }
{
    out.extend_from_slice(b"foreach ")?;
    out.extend_from_slice(var)?;
    out.extend_from_slice(b" in ")?;
    out.extend_from_slice(over)?;
    out.extend_from_slice(b" ")?;
    heads::name_list(out, vars)
}

fn call(out: &mut Vec<u8>, fun: &[u8], args: &[Expr]) -> Result<(), AllocError>
    ensures { OnOk result (out.new.items ≡ out.old.items ++ (codes "call " ++ (fun.now ++ bracketed whole_text args.now))) }
{
    out.extend_from_slice(b"call ")?;
    out.extend_from_slice(fun)?;
    exprs::arguments(out, args)
}
