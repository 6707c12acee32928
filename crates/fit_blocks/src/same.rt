//! Whether the same entries went on both sides.

ghost use Rattle.std.specs.Prelude.{◌≡◌, ◌&&◌, IfOk, OnOk};
ghost use Rattle.context_laws.specs.Stacks.{falls_at, spot_in};
ghost use Rattle.context_laws.specs.Steps.{with_spots};
ghost use Rattle.side_laws.specs.Sides.{free_at, none_free};

use ownership::Context;
use std::alloc::AllocError;

/// The entries at the places on the left are gone. Whether the same went at the places on the right.
pub(crate) fn fall_alike(
    context: &mut Context,
    left: &[usize],
    right: &[usize],
) -> Result<bool, AllocError>
    ensures alike { IfOk result (λ alike. alike ≡ (none_free left.now (falls_at right.now context.old.spots) && none_free right.now (falls_at left.now context.old.spots))) }
    ensures falls { OnOk result (context.new ≡ with_spots context.old (falls_at left.now context.old.spots)) }
{
    context.mark()?;
    context.fall(right)?;
    let alike = none_free(context, left);
    context.undo();
    context.fall(left)?;
    Ok(alike && none_free(context, right))
}

/// Whether none of the entries at these places may be used up.
fn none_free(context: &Context, places: &[usize]) -> bool
    ensures { result ≡ none_free places.now context.now.spots }
{
    'each: for place in places {
        if is_free_at(context, *place) {
            return false;
        }
    }
    true
}

fn is_free_at(context: &Context, place: usize) -> bool
    ensures { result ≡ free_at (spot_in context.now.spots place) }
{
    match context.get(place) {
        Some(entry) => entry.is_free(),
        None => false,
    }
}
