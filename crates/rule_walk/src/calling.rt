//! Calls of procedures.

ghost use Rattle.std.specs.Prelude.{◌≡◌, IfOk, OnOk};
ghost use Rattle.context_laws.specs.Steps.{with_spots};
ghost use Rattle.nres_core.specs.FlatTree as t;
ghost use Rattle.ownership.specs.Entries.{spots_of};
ghost use Rattle.proc_rules.specs.Calls.{call_fault, sig_seen};
ghost use Rattle.rule_steps.specs.States.{Grows};
ghost use Rattle.rule_walk.specs.Walks.{Walked, after_call, book_in, results_of};

use crate::book::{Book, sig_in};
use nres_core::{Arg, Place, Refusal};
use ownership::{Context, Entry, Fault, bind, looked_up};
use proc_rules::{Sig, call_shapes, lists, take_call};
use rule_steps::{State, refuse};
use std::alloc::{AllocError, Global};

/// A call of the procedure of this number.
#[derive(Clone, Copy)]
pub(crate) struct Calling<'a> {
    /// The place.
    pub place: Place,
    /// The variables of the results.
    pub outs: &'a [u32],
    /// The number.
    pub fun: u32,
    /// The arguments.
    pub args: &'a [Arg],
}

/// A call: containers that its parameters do not keep are gone, and its results are bound. A refusal changes nothing.
pub(crate) fn call(
    alloc: Global,
    book: &Book,
    state: &mut State,
    calling: &Calling,
) -> Result<Option<Refusal>, AllocError>
    ensures walked { IfOk result (λ refused. Walked (book_in book.now) (t.Call calling.now.place calling.now.outs.now calling.now.fun calling.now.args.now) state.old state.new refused) }
    ensures grows { IfOk result (λ refused. Grows state.old state.new) }
{
    let entries = looked_up(alloc, &state.context, calling.args)?;
    let sig = sig_in(book, calling.fun);
    match enter(
        alloc,
        &mut state.context,
        sig,
        calling.outs,
        entries.as_slice(),
    )? {
        None => Ok(None),
        Some(fault) => {
            let refusal = refuse(
                alloc,
                book.names,
                calling.place,
                b"call",
                entries.as_slice(),
                fault,
            )?;
            Ok(Some(refusal))
        }
    }
}

fn enter(
    alloc: Global,
    context: &mut Context,
    sig: Option<Sig>,
    outs: &[u32],
    entries: &[Entry],
) -> Result<Option<Fault>, AllocError>
    ensures fault { IfOk result (λ fault. fault ≡ call_fault (spots_of entries.now) (sig_seen sig.entry)) }
    ensures after { IfOk result (λ fault. context.new ≡ after_call fault outs.now (spots_of entries.now) (sig_seen sig.entry) context.old) }
    ensures saved { context.new.saved ≡ context.old.saved }
{
    match take_call(alloc, context, sig, entries)? {
        Some(fault) => Ok(Some(fault)),
        None => {
            give_back(alloc, context, sig, outs, entries)?;
            Ok(None)
        }
    }
}

fn give_back(
    alloc: Global,
    context: &mut Context,
    sig: Option<Sig>,
    outs: &[u32],
    entries: &[Entry],
) -> Result<(), AllocError>
    ensures bound { OnOk result (context.new ≡ with_spots context.old (results_of outs.now (spots_of entries.now) (sig_seen sig.entry) context.old.spots)) }
    ensures saved { context.new.saved ≡ context.old.saved }
{
    match sig {
        Some(sig) => {
            let lists = lists(alloc, sig.params, entries)?;
            let shapes = call_shapes(alloc, sig.outs, lists.as_slice())?;
            bind(context, outs, shapes.as_slice())
        }
        None => Ok(()),
    }
}
