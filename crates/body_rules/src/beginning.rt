//! The entries that a body begins with.

ghost use Rattle.std.specs.Prelude.{◌≡◌, ◌+◌, IfOk, OnOk};
ghost use Rattle.context_laws.specs.Steps.{with_spots};
ghost use Rattle.ownership.specs.Entries.{hold_of, spot_of};
ghost use Rattle.rule_check.specs.Check.{param_hold, param_spots, param_tag};
ghost use Rattle.body_rules.specs.Bodies.{param_spot};

use ownership::{Context, Entry, Hold};
use std::alloc::{AllocError, Global};
use target_code::{InParam, Rep};

/// The entries of parameters, which are the variables from this one on. Where there is no memory, some may be there.
pub fn begin_body(context: &mut Context, first: u32, params: &[InParam]) -> Result<(), AllocError>
    ensures params { OnOk result (context.new ≡ with_spots context.old (param_spots first params.now context.old.spots)) }
    ensures saved { context.new.saved ≡ context.old.saved }
{
    let mut variable = first;
    'each: for param in params {
        context.add(param_entry(variable, param))?;
        variable = next(variable)?;
    }
    Ok(())
}

fn param_entry(variable: u32, param: &InParam) -> Entry
    ensures { spot_of result ≡ param_spot variable param.now }
{
    Entry {
        var: variable,
        rep: param.rep,
        hold: param_hold(param.kept),
        tag: param_tag(param.rep, variable),
    }
}

fn param_hold(kept: bool) -> Hold
    ensures { hold_of result ≡ param_hold kept }
{
    if kept { Hold::Kept } else { Hold::Owned }
}

fn param_tag(rep: Rep, variable: u32) -> u32
    ensures { result ≡ param_tag rep variable }
{
    match rep {
        Rep::Slice => variable,
        _ => 0,
    }
}

/// The variable behind another.
pub(crate) fn next(variable: u32) -> Result<u32, AllocError>
    ensures { IfOk result (λ next. next ≡ variable + 1) }
{
    variable.checked_add(1).ok_or(AllocError)
}
