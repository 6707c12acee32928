//! Which container a `free` ends.

ghost use Rattle.std.specs.Prelude.{◌≡◌, Some, length};
ghost use Rattle.context_laws.specs.Stacks.{spot_in};
ghost use Rattle.fit_state.specs.Owners.{owned_in, owner_in};
ghost use Rattle.fit_tokens.specs.Changes.{token_of};
ghost use Rattle.fit_tokens.specs.Standing.{standing_in};
ghost use Rattle.fits.specs.Follow.{is_block};

use crate::state::FitState;
use fit_tokens::{Token, first_is};
use ownership::Hold;
use target_code::Rep;

/// The variable of the newest owned container with a block of which this is the first word.
pub(crate) fn owner(state: &FitState, token: Token) -> Option<u32>
    ensures { length state.now.rules.context.spots ≡ length state.now.words → result ≡ owner_in state.now.rules.context.spots state.now.words (Some (token_of token)) }
{
    let mut place = state.words.newest(token);
    'each: while let Some(index) = place {
        let found = owned_at(state, index, token);
        if found.is_some() {
            return found;
        }
        place = state.words.next(token, index);
    }
    None
}

/// The variable at a place, where this is such a container.
fn owned_at(state: &FitState, index: usize, token: Token) -> Option<u32>
    ensures { result ≡ owned_in (Some (token_of token)) (spot_in state.now.rules.context.spots index) (standing_in state.now.words index) }
{
    match (state.rules.context.get(index), state.words.get(index)) {
        (Some(entry), Some(words))
            if is_block(entry.rep)
                && matches!(entry.hold, Hold::Owned)
                && first_is(token, words.list.as_slice()) => { Some(entry.var) }
        _ => None,
    }
}

/// Whether this has a block of its own.
fn is_block(rep: Rep) -> bool
    ensures { result ≡ is_block rep }
{
    !matches!(rep, Rep::Word | Rep::Flag | Rep::Slice)
}
