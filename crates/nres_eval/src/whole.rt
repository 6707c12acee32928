//! Whole specifications.

ghost use Rattle.nres_core.specs.Mirror.{whole_of};
ghost use Rattle.nres_core.specs.Runs.{first_path};
ghost use Rattle.nres_meaning.specs.Meaning.{whole_runs};
ghost use Rattle.nres_meaning.specs.WordOperations.{op_named};
ghost use Rattle.nres_eval.specs.Ends.{Tells};

use crate::block::{Evaluation, block};
use crate::end::EvalEnd;
use crate::env::Env;
use crate::funs::Procedures;
use nres_core::{Spec, Value};
use sqlite_items::Items;
use std::alloc::Global;

/// Calls nest at most so deep.
const DEEPEST_CALL: usize = 32;

/// The results of a specification on values for its parameters, where each choice is the first: the left side, the least number, the
/// least element, the ascending order. Each loop has at most `turns` turns, and calls nest at most 32 deep.
pub fn eval(alloc: Global, spec: &Spec, args: &[Value], turns: u64) -> Result<Items<Value>, EvalEnd>
    ensures { Tells result (first_path (whole_runs op_named turns 32 (whole_of spec.now) args.now)) }
{
    let at = Evaluation {
        alloc,
        turns,
        procedures: Procedures::new(alloc, spec.funs.as_slice())?,
    };
    let mut env = Env::new(alloc);
    env.bind_params(spec.params.as_slice(), args)?;
    block(&at, DEEPEST_CALL, &spec.body, &mut env)
}
