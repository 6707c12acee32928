//! Containers that a block made and that are left at its end.

ghost use Rattle.std.specs.Prelude.{◌≡◌, ℕ};
ghost use Rattle.context_laws.specs.Stacks.{spot_in};
ghost use Rattle.fit_state.specs.Left.{IsLeftBelow, is_left};
ghost use Rattle.fit_state.specs.States.{Is};
ghost use Rattle.fits.specs.Places as f;
ghost use Rattle.fits.specs.Places.{State, goners};
ghost use Rattle.ownership.specs.Entries.{spot_of};
ghost use Rattle.rule_check.specs.Context as d;

use crate::state::FitState;
use ownership::{Context, Entry, Hold};
use target_code::Rep;

/// Whether no container of a variable from this one on is left, where these are gone besides.
pub fn none_left(state: &FitState, mark: u64, gone: &[u32]) -> bool
    ensures { (R : ℕ) (s : State) → Is R state.now s → result ≡ f.none_left mark (goners gone.now s.hold) s.entries }
{
    left_below(&state.rules.context, mark, gone, state.rules.context.len()) == 0
}

/// One more than the newest place below a limit at which such a container is left; 0 where there is none.
pub(crate) fn left_below(context: &Context, mark: u64, gone: &[u32], limit: usize) -> usize
    ensures { IsLeftBelow context.now.spots mark gone.now limit result }
{
    let mut place = limit;
    'each: while place > 0 {
        let Some(entry) = context.get(place - 1) else {
            return 0;
        };
        if u64::from(entry.var) < mark {
            return 0;
        }
        if is_left(&entry, gone) {
            return place;
        }
        place -= 1;
    }
    0
}

/// Whether this is a container that is neither gone nor one of these.
fn is_left(entry: &Entry, gone: &[u32]) -> bool
    ensures { result ≡ is_left gone.now (spot_of entry.now) }
{
    match entry.rep {
        Rep::Word | Rep::Flag => false,
        _ => !matches!(entry.hold, Hold::Gone) && !is_among(entry.var, gone),
    }
}

fn is_among(var: u32, vars: &[u32]) -> bool
    ensures { result ≡ d.is_among var vars.now }
{
    'each: for other in vars {
        if var == *other {
            return true;
        }
    }
    false
}
