//! Blocks within: what there was where one begins, and all as it was where it is over.

ghost use Rattle.std.specs.Prelude.{◌≡◌, IfOk, OnOk};
ghost use Rattle.context_laws.specs.Steps.{FallsBack};
ghost use Rattle.fit_blocks.specs.Blocks.{begun_at, block_closed, block_opened, side_closed, side_opened};
ghost use Rattle.fit_tokens.specs.Changes.{changes_of};

use fit_state::FitState;
use fit_tokens::Change;
use sqlite_items::Items;
use std::alloc::{AllocError, Global};

/// Where a block began.
#[derive(Clone, Copy)]
pub struct Begun {
    /// How many entries there were.
    pub count: usize,
    /// How many facts there were.
    pub facts: usize,
    /// Where the list of binds around it began.
    pub start: usize,
    /// The variables so far were below this.
    pub next: u64,
}

/// What a side did outside: the places of the entries that went, and the tokens that it changed.
#[derive(Drop)]
pub struct Closed {
    /// The places.
    pub went: Items<usize>,
    /// The changes of tokens.
    pub changes: Items<Change>,
}

/// What there is now.
pub(crate) fn from_here(state: &FitState) -> Begun
    ensures { result ≡ begun_at state.now }
{
    Begun {
        count: state.words.len(),
        facts: state.rules.facts.len(),
        start: state.rules.start,
        next: state.next,
    }
}

/// A block begins on the same entries.
pub fn open_block(state: &mut FitState) -> Result<Begun, AllocError>
    ensures state { OnOk result (state.new ≡ block_opened state.old) }
    ensures begun { IfOk result (λ begun. begun ≡ begun_at state.old) }
{
    let begun = from_here(state);
    state.rules.context.mark()?;
    state.rules.start = state.rules.calculations.len();
    Ok(begun)
}

/// A block is over: entries, facts and calculations are as they were where it began. Takes no memory.
pub fn close_block(state: &mut FitState, begun: Begun)
    ensures { state.new ≡ block_closed begun state.old }
{
    state.rules.context.undo();
    state.rules.facts.leave(begun.facts);
    state.rules.calculations.leave(state.rules.start);
    state.rules.start = begun.start;
    state.words.cut(begun.count);
}

/// A block begins whose tokens are given back too.
pub fn open_side(state: &mut FitState) -> Result<Begun, AllocError>
    ensures state { OnOk result (state.new ≡ side_opened state.old) }
    ensures begun { IfOk result (λ begun. begun ≡ begun_at state.old) }
{
    let begun = open_block(state)?;
    state.tokens.mark()?;
    Ok(begun)
}

/// It is over: all but the number of branches is as it was where it began.
pub fn close_side(alloc: Global, state: &mut FitState, begun: Begun) -> Result<Closed, AllocError>
    ensures state { OnOk result (state.new ≡ side_closed begun state.old) }
    ensures went { IfOk result (λ closed. FallsBack closed.went state.old.rules.context) }
    ensures changes { IfOk result (λ closed. changes_of closed.changes ≡ state.old.tokens.changes) }
{
    let went = state.rules.context.went(alloc)?;
    match state.tokens.take_back(alloc) {
        Ok(changes) => {
            close_block(state, begun);
            state.next = begun.next;
            Ok(Closed { went, changes })
        }
        Err(error) => {
            drop(went);
            Err(error)
        }
    }
}
