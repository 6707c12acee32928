//! Operations.

ghost use Rattle.std.specs.Prelude.{◌≡◌, Ok, IfOk};
ghost use Rattle.ownership.specs.Entries.{spots_of};
ghost use Rattle.row_index.specs.FirstRow.{rule_of_row};
ghost use Rattle.rule_check.specs.Context as d;
ghost use Rattle.rule_check.specs.Steps as steps;
ghost use Rattle.rule_check.specs.Steps.{Book, apply_ctx, apply_sure, on_ok};
ghost use Rattle.rule_steps.specs.Operations.{after_found, apply_fault, fact_fault, outcome, table_row};
ghost use Rattle.rule_steps.specs.States.{Grows, ctx_of};

use crate::refusing::{refuse, reps};
use crate::row::{Found, meet_row, op_bound, unknown};
use crate::state::State;
use facts::Facts;
use nres_core::{Arg, Op, Place, Refusal, Row};
use ownership::{Context, Entry, Fault, first_gone, looked_up};
use refusals::word_of;
use row_index::row_of;
use std::alloc::{AllocError, Global};
use target_code::{Name, Rep};

/// An operation on arguments. A constructor has the representation that was chosen for it.
#[derive(Clone, Copy)]
pub struct Operation<'a> {
    /// The place.
    pub place: Place,
    /// The operation.
    pub op: Op,
    /// The chosen representation.
    pub made: Option<Rep>,
    /// The arguments.
    pub args: &'a [Arg],
    /// The variables of the results.
    pub outs: &'a [u32],
}

/// An operation: the arguments that its row destroys are gone, and its results are bound. A refusal changes nothing.
pub fn apply(
    alloc: Global,
    names: &[Name],
    state: &mut State,
    operation: &Operation,
) -> Result<Option<Refusal>, AllocError>
    ensures applied { IfOk result (λ refused. (book : Book) → book.names ≡ names.now → book.row_for ≡ table_row
        → on_ok (apply_sure book (ctx_of state.old) operation.now.place operation.now.op operation.now.made operation.now.args.now) (λ row. Ok (apply_ctx (ctx_of state.old) operation.now.outs.now operation.now.made operation.now.args.now row)) ≡ outcome refused (ctx_of state.new)) }
    ensures grows { IfOk result (λ refused. Grows state.old state.new) }
{
    let entries = looked_up(alloc, &state.context, operation.args)?;
    match take(
        alloc,
        &mut state.context,
        &state.facts,
        operation,
        entries.as_slice(),
    )? {
        None => Ok(None),
        Some(fault) => {
            let word = word_of(operation.op);
            let refusal = refuse(
                alloc,
                names,
                operation.place,
                word,
                entries.as_slice(),
                fault,
            )?;
            Ok(Some(refusal))
        }
    }
}

/// What an operation does, or its fault.
fn take(
    alloc: Global,
    context: &mut Context,
    facts: &Facts,
    operation: &Operation,
    entries: &[Entry],
) -> Result<Option<Fault>, AllocError>
    ensures fault { IfOk result (λ fault. fault ≡ apply_fault facts.now operation.now.made operation.now.args.now (spots_of entries.now) (table_row operation.now.op (d.reps_of (spots_of entries.now)) operation.now.made)) }
    ensures after { IfOk result (λ fault. context.new ≡ after_found fault operation.now.made operation.now.outs.now (spots_of entries.now) (table_row operation.now.op (d.reps_of (spots_of entries.now)) operation.now.made) context.old) }
    ensures saved { context.new.saved ≡ context.old.saved }
{
    if let Some(var) = first_gone(entries) {
        return Ok(Some(Fault::Gone(var)));
    }
    let reps = reps(alloc, entries)?;
    match row_in_table(operation.op, reps.as_slice(), operation.made) {
        None => Ok(Some(Fault::Missing)),
        Some(row) => {
            let found = found(facts, operation, entries, row);
            meet_row(alloc, context, operation.outs, entries, &found)
        }
    }
}

#[tactic(auto, unfolding(crate::specs::Operations::table_row))]
fn row_in_table(op: Op, reps: &[Rep], made: Option<Rep>) -> Option<Row>
    ensures { rule_of_row result ≡ table_row op reps.now made }
{
    row_of(op, reps, made)
}

fn found(facts: &Facts, operation: &Operation, entries: &[Entry], row: Row) -> Found
    ensures row { result.row ≡ row }
    ensures bound { result.bound ≡ steps.op_bound operation.now.made (d.reps_of (spots_of entries.now)) }
    ensures unknown { result.unknown ≡ fact_fault (steps.op_bound operation.now.made (d.reps_of (spots_of entries.now))) (steps.unknown facts.now (steps.op_bound operation.now.made (d.reps_of (spots_of entries.now))) row.fact operation.now.args.now) }
{
    let bound = op_bound(operation.made, entries);
    Found {
        row,
        bound,
        unknown: unknown(facts, bound, row.fact, operation.args),
    }
}
