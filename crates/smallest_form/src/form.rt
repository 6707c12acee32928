//! The form of a specification, read from its tree.

ghost use Rattle.std.specs.Prelude.{◌≡◌, IfSome, None};
ghost use Rattle.nres_core.specs.declared.tree.Block.{out-Block};
ghost use Rattle.nres_core.specs.declared.tree.Body.{out-Body};
ghost use Rattle.nres_core.specs.declared.tree.Expr.{out-Expr};
ghost use Rattle.nres_core.specs.declared.tree.Step.{out-Step};
ghost use Rattle.smallest_form.specs.Programs.{HasWords};
ghost use Rattle.smallest_form.specs.Read as read;

use nres_core::{Block, Body, Expr, Param, Shown, Spec, Step, Ty};
use target_code::Rep;

/// What a specification of the smallest form gives.
#[derive(Clone, Copy, PartialEq, Eq, Debug)]
pub enum Form {
    /// A number, without a step.
    Number(u64),
    /// The element of the list at an index.
    Element(u64),
    /// A number, behind the step that gets the element at an index.
    NumberAfter { index: u64, value: u64 },
}

/// The number, where the expression is one.
fn number_in(expr: &Expr) -> Option<u64>
    ensures { result ≡ read.number_in (out-Expr expr.now) }
{
    match expr {
        Expr::Num { value, .. } => Some(*value),
        _ => None,
    }
}

/// Whether the expression is this name.
fn is_named(name: &[u8], expr: &Expr) -> bool
    ensures { result ≡ read.is_named name.now (out-Expr expr.now) }
{
    match expr {
        Expr::Var(used) => used.name.bytes() == name,
        _ => false,
    }
}

/// The index, where the expression gets an element of this list.
fn index_in(list: &[u8], expr: &Expr) -> Option<u64>
    ensures { result ≡ read.index_in list.now (out-Expr expr.now) }
{
    match expr {
        Expr::Apply {
            word,
            args,
            made: None,
            ..
        } => match args.as_slice() {
            [source, index] if word.bytes() == b"get".as_slice() && is_named(list, source) => {
                number_in(index)
            }
            _ => None,
        },
        _ => None,
    }
}

/// The form with this result, behind a step that gives the element at an index this name.
fn behind(index: u64, name: &[u8], given: &Expr) -> Option<Form>
    ensures exact { result ≡ read.result_in (read.number_in (out-Expr given.now)) index (read.is_named name.now (out-Expr given.now)) }
    ensures words { IfSome result HasWords }
{
    match number_in(given) {
        Some(value) => Some(Form::NumberAfter { index, value }),
        None if is_named(name, given) => Some(Form::Element(index)),
        None => None,
    }
}

/// The form with this step, which gets an element of the list, and this result.
fn step_in(list: &[u8], step: &Step, given: &Expr) -> Option<Form>
    ensures exact { result ≡ read.step_in list.now (out-Step step.now) given.now }
    ensures words { IfSome result HasWords }
{
    let Step::Bind { names, body, .. } = step else {
        return None;
    };
    let Body::Value(value) = body else {
        return None;
    };
    match names.as_slice() {
        [bound] => match index_in(list, value) {
            Some(index) => behind(index, bound.name.bytes(), given),
            None => None,
        },
        _ => None,
    }
}

/// Whether there is at most one parameter, which is a kept list as an array.
fn takes_a_list(params: &[Param]) -> bool
    ensures { result ≡ read.takes_a_list params.now }
{
    match params {
        [] => true,
        [param] => matches!((param.ty, param.rep), (Ty::List, Rep::Array)) && param.kept,
        _ => false,
    }
}

/// Whether one number is shown.
fn shows_a_number(shown: &[Shown]) -> bool
    ensures { result ≡ read.shows_a_number shown.now }
{
    match shown {
        [one] => matches!((one.ty, one.rep), (Ty::Nat, Rep::Word)),
        _ => false,
    }
}

/// The form with these parameters, steps and result.
fn steps_in(params: &[Param], steps: &[Step], given: &Expr) -> Option<Form>
    ensures exact { result ≡ read.steps_in params.now steps.now given.now }
    ensures words { IfSome result HasWords }
{
    match (params, steps) {
        (_, []) => match number_in(given) {
            Some(value) => Some(Form::Number(value)),
            None => None,
        },
        ([param], [step]) => step_in(param.name.bytes(), step, given),
        _ => None,
    }
}

/// The form with these parameters and this block.
fn block_in(params: &[Param], block: &Block) -> Option<Form>
    ensures exact { result ≡ read.block_in params.now (out-Block block.now).steps (out-Block block.now).results }
    ensures words { IfSome result HasWords }
{
    match block.results.as_slice() {
        [one] => steps_in(params, block.steps.as_slice(), one),
        _ => None,
    }
}

/// The form of a specification, where it has one.
pub fn form_in(spec: &Spec) -> Option<Form>
    ensures exact { result ≡ read.form_in spec.now }
    ensures words { IfSome result HasWords }
{
    if spec.funs.is_empty()
        && takes_a_list(spec.params.as_slice())
        && shows_a_number(spec.shown.as_slice())
    {
        block_in(spec.params.as_slice(), &spec.body)
    } else {
        None
    }
}
