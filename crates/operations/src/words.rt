//! The operation that a word stands for.

ghost use Rattle.std.specs.Prelude.{◌≡◌};
ghost use Rattle.nres_meaning.specs.WordOperations.{at_rep, meant_op, op_named};
ghost use Rattle.nres_meaning.specs.Meaning.{head_of};
ghost use Rattle.nres_core.specs.Mirror.{rep_of};
ghost use Rattle.nres_core.specs.Operations.{at_type, value_type};

use nres_core::{ByType, Chosen, Meant, Op, Value, look_up, rep_type};
use target_code::Name;

/// The operation of a word, with the representation that was chosen, on these arguments; none where it has none. The first argument
/// may settle it.
pub fn op_of(word: &Name, made: Option<Chosen>, args: &[Value]) -> Option<Op>
    ensures { result ≡ op_named (word.now, rep_of made) (head_of args.now) }
{
    of_meant(look_up(word.bytes()), made, args)
}

fn of_meant(meant: Option<Meant>, made: Option<Chosen>, args: &[Value]) -> Option<Op>
    ensures { result ≡ meant_op meant (rep_of made) (head_of args.now) }
{
    match meant {
        None => None,
        Some(Meant::Always(op)) => Some(op),
        Some(Meant::ByFirst(ops, _)) => at_first(args, ops),
        Some(Meant::ByMade(ops)) => at_rep(made, ops),
    }
}

/// The operation for the type of the first argument.
fn at_first(args: &[Value], ops: ByType) -> Option<Op>
    ensures { result ≡ at_type (value_type (head_of args.now)) ops }
{
    match args.first() {
        Some(first) => ops.at(first.ty()),
        None => None,
    }
}

/// The operation for the representation that was chosen.
fn at_rep(made: Option<Chosen>, ops: ByType) -> Option<Op>
    ensures { result ≡ at_rep (rep_of made) ops }
{
    match made {
        Some(chosen) => ops.at(rep_type(chosen.rep)),
        None => None,
    }
}
