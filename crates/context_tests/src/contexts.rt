//! That the calls answer where there is memory, and what a mark gives back.

use facts::{Fact, Facts};
use nres_core::Arg;
use ownership::{Context, Entry, Fault, Hold, looked_up, take_args, take_results};
use refusals::arg_name;
use std::alloc::{AllocError, Global};
use std::test::Fail;
use target_code::Rep;

/// A context with two arrays, the variables 0 and 1.
fn two_arrays(alloc: Global) -> Result<Context, AllocError> {
    let mut context = Context::new(alloc);
    for var in 0..2 {
        context.add(Entry {
            var,
            rep: Rep::Array,
            hold: Hold::Owned,
            tag: 0,
        })?;
    }
    Ok(context)
}

/// Whether a variable has an entry that is gone.
fn is_gone(context: &Context, var: u32) -> bool {
    match context.entry(var) {
        Some(entry) => matches!(entry.hold, Hold::Gone),
        None => false,
    }
}

#[test]
fn a_mark_gives_back_what_went(rt: HostRuntime) -> Result<(), Fail> {
    let mut context = two_arrays(rt.alloc())?;
    context.mark()?;
    context.go(1)?;
    assert!(rt; is_gone(&context, 1));
    let went = context.went(rt.alloc())?;
    context.undo();
    assert!(rt; !is_gone(&context, 1));
    context.fall(went.as_slice())?;
    assert!(rt; is_gone(&context, 1));
    assert!(rt; !is_gone(&context, 0));
    Ok(())
}

#[test]
fn arguments_and_results_are_taken(rt: HostRuntime) -> Result<(), Fail> {
    let mut context = two_arrays(rt.alloc())?;
    let first = looked_up(rt.alloc(), &context, &[Arg::Var(0)])?;
    let taken = take_args(&mut context, first.as_slice(), first.as_slice(), None)?;
    assert!(rt; taken.is_none());
    let again = looked_up(rt.alloc(), &context, &[Arg::Var(0)])?;
    let refused = take_results(rt.alloc(), &mut context, again.as_slice())?;
    assert!(rt; matches!(refused, Some(Fault::Gone(0))));
    let other = looked_up(rt.alloc(), &context, &[Arg::Var(1)])?;
    let moved = take_results(rt.alloc(), &mut context, other.as_slice())?;
    assert!(rt; moved.is_none());
    Ok(())
}

#[test]
fn facts_and_names_are_told(rt: HostRuntime) -> Result<(), Fail> {
    let mut facts = Facts::new(rt.alloc());
    facts.know(Fact { var: 3, bound: 10 })?;
    assert!(rt; facts.knows(Arg::Var(3), 10));
    assert!(rt; !facts.knows(Arg::Var(3), 9));
    let name = arg_name(rt.alloc(), &[], Arg::Num(7))?;
    assert!(rt; name.bytes() == b"7".as_slice());
    Ok(())
}
