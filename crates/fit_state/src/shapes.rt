//! Tests of registers, variables and shapes.

ghost use Rattle.std.specs.Prelude.{◌≡◌};
ghost use Rattle.fits.specs.Follow as follow;
ghost use Rattle.fits.specs.Places as f;
ghost use Rattle.ownership.specs.Entries.{shape_of, shapes_of};
ghost use Rattle.rule_check.specs.Context as d;

use branch_merge::same_rep;
use ownership::Shape;
use target_code::Rep;

/// Whether these registers are below the bound.
pub fn all_below(regs: u32, list: &[u32]) -> bool
    ensures { result ≡ follow.all_below regs list.now }
{
    'each: for reg in list {
        if *reg >= regs {
            return false;
        }
    }
    true
}

/// Whether new variables come in order from here on, as many as there are shapes.
pub fn in_order(next: u64, outs: &[u32], shapes: &[Shape]) -> bool
    ensures { result ≡ f.in_order next outs.now (shapes_of shapes.now) }
{
    if outs.len() != shapes.len() {
        return false;
    }
    let mut bound = next;
    'each: for out in outs {
        if u64::from(*out) < bound {
            return false;
        }
        bound = u64::from(*out) + 1;
    }
    true
}

/// Whether these are the same shapes.
pub fn same_shapes(some: &[Shape], others: &[Shape]) -> bool
    ensures { result ≡ f.same_shapes (shapes_of some.now) (shapes_of others.now) }
{
    if some.len() != others.len() {
        return false;
    }
    'each: for index in 0..some.len() {
        if !same_shape(some[index], others[index]) {
            return false;
        }
    }
    true
}

fn same_shape(one: Shape, other: Shape) -> bool
    ensures { result ≡ d.same_shape (shape_of one) (shape_of other) }
{
    same_rep(one.rep, other.rep) && one.tag == other.tag
}

/// Whether the tag of each slice is the number of a variable below a bound.
pub fn old_shapes(next: u64, shapes: &[Shape]) -> bool
    ensures { result ≡ f.old_shapes next (shapes_of shapes.now) }
{
    'each: for shape in shapes {
        if !old_shape(next, *shape) {
            return false;
        }
    }
    true
}

fn old_shape(next: u64, shape: Shape) -> bool
    ensures { result ≡ f.old_shape next (shape_of shape) }
{
    match shape.rep {
        Rep::Slice => u64::from(shape.tag) < next,
        _ => true,
    }
}
