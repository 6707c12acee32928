//! What a specification gives on the values of its parameters.

ghost use Rattle.sepref_top.specs.Answers.{Answered};
ghost use Rattle.sepref_top.specs.Evaluation.{EndsSo, Evaluated};

use crate::answer::{Answer, Text, input_line, number_line};
use crate::status::Status;
use inputs::{InputRefusal, inputs};
use nres_core::{Spec, Value, With};
use nres_eval::{EvalEnd, eval};
use std::alloc::{AllocError, Global};
use value_print::print_results;

/// The lines of the results on the path of the first choices, or the line that tells why there are none.
fn path_answer(alloc: Global, turns: u64, spec: &Spec, args: &[Value]) -> Result<Answer, AllocError>
    ensures { Answered (EndsSo turns spec.now args.now) result }
{
    match eval(alloc, spec, args, turns) {
        Ok(results) => Ok(Answer {
            status: Status::Done,
            text: Text::Made(print_results(alloc, results.as_slice())?),
        }),
        Err(EvalEnd::Fails(line)) => Ok(Answer {
            status: Status::Fails(line),
            text: Text::Made(number_line(alloc, b"! fails ", line)?),
        }),
        Err(EvalEnd::OutOfTurns(line)) => Ok(Answer {
            status: Status::OutOfTurns(line),
            text: Text::Made(number_line(alloc, b"! turns ", line)?),
        }),
        Err(EvalEnd::Memory) => Err(AllocError),
    }
}

/// What `eval` writes for a specification and the values that lines give.
pub(crate) fn evaluated(
    alloc: Global,
    turns: u64,
    spec: &Spec,
    lines: &[With],
) -> Result<Answer, AllocError>
    ensures { Answered (Evaluated turns spec.now lines.now) result }
{
    match inputs(alloc, spec.params.as_slice(), lines) {
        Ok(args) => path_answer(alloc, turns, spec, args.as_slice()),
        Err(InputRefusal::Refused { name, fault }) => Ok(Answer {
            status: Status::Input,
            text: Text::Made(input_line(alloc, name, fault)?),
        }),
        Err(InputRefusal::Memory) => Err(AllocError),
    }
}
