//! What `replay` tells of a text.

ghost use Rattle.std.specs.Prelude.{◌≡◌, ◌<◌, ◌^◌, IfOk, List, length, Ok};
ghost use Rattle.inputs.specs.Inputs as rules;
ghost use Rattle.nres_core.specs.declared.value.Value.{Value as ValueOf};
ghost use Rattle.replay_causes.specs.Causes.{HasCause, bare};
ghost use Rattle.replay_causes.specs.declared.cause.Cause.{Cause as CauseOf};
ghost use Rattle.replay_input.specs.Reads.{IsUnread};
ghost use Rattle.run_begins.specs.Beginning.{AreHeld};
ghost use Rattle.run_inputs.specs.Placing.{AllFit};
ghost use Rattle.sepref_replay.specs.Follows.{Given, IsInputCause, IsUnreadCause};
ghost use Rattle.sepref_replay.specs.Lines.{text_of};
ghost use Rattle.target_code.specs.Formed.{Formed};

use crate::following::replay_values;
use crate::lines::push_cause;
use inputs::{InputRefusal, program_inputs};
use replay_causes::Cause;
use replay_causes::laws::an_input_has_one_cause;
use replay_input::{ReplayInput, Unread, read_replay};
use std::alloc::{AllocError, Global};

/// What is wrong with the values that lines give, with a name of its own.
fn input_cause(alloc: Global, refusal: InputRefusal) -> Result<Cause, AllocError>
    ensures { IfOk result (λ told. IsInputCause refusal.entry told) }
{
    match refusal {
        InputRefusal::Refused { name, fault } => Ok(Cause::Input {
            name: name.copy(alloc)?,
            fault,
        }),
        InputRefusal::Memory => Err(AllocError),
    }
}

/// Why an input is not replayed.
fn unread_cause(unread: Unread) -> Result<Cause, AllocError>
    ensures { IfOk result (λ told. IsUnreadCause unread told) }
{
    match unread {
        Unread::NotProgram(line) => Ok(Cause::NotProgram(line)),
        Unread::Syntax(place) => Ok(Cause::Syntax(place)),
        Unread::NoSchedule(line) => Ok(Cause::NoSchedule(line)),
        Unread::Memory => Err(AllocError),
    }
}

/// What is told of a program with lines and a schedule.
fn given(alloc: Global, input: &ReplayInput, cap: u64) -> Result<Cause, AllocError>
    requires formed { Formed input.now.program }
    requires held { (us : List ValueOf) → rules.program_inputs input.now.program.ins input.now.withs ≡ Ok us
        → AreHeld us × AllFit input.now.program.ins us }
    ensures { IfOk result (λ told. Given input.now.program input.now.withs input.now.steps.items cap told) }
{
    match program_inputs(alloc, input.program.ins.as_slice(), input.withs.as_slice()) {
        Ok(values) => replay_values(
            alloc,
            &input.program,
            values.as_slice(),
            input.steps.as_slice(),
            cap,
        ),
        Err(refusal) => input_cause(alloc, refusal),
    }
}

/// What is told of a text, which is a program, values for its inputs and a schedule, in a heap of this capacity: the first
/// part that is none, the first fault of the values, the first block that does not fit, or what is told first along the
/// schedule. Answers an error where memory runs out.
pub fn replay_text(alloc: Global, text: &[u8], cap: u64) -> Result<Cause, AllocError>
    requires short { length text.now < 2 ^ 32 }
    ensures cause { IfOk result (λ told. HasCause text.now cap told) }
    ensures only { (c : CauseOf) → HasCause text.now cap c → IfOk result (λ told. bare told ≡ bare c) }
{
    an_input_has_one_cause();
    match read_replay(alloc, text) {
        Ok(input) => given(alloc, &input, cap),
        Err(unread) => unread_cause(unread),
    }
}

/// The same, with what is to be written for it.
pub fn replay_told(alloc: Global, text: &[u8], cap: u64) -> Result<(Cause, Vec<u8>), AllocError>
    requires short { length text.now < 2 ^ 32 }
    ensures cause { IfOk result (λ told. HasCause text.now cap told.0) }
    ensures written { IfOk result (λ told. told.1.items ≡ text_of told.0) }
    ensures only { (c : CauseOf) → HasCause text.now cap c → IfOk result (λ told. bare told.0 ≡ bare c) }
{
    let cause = replay_text(alloc, text, cap)?;
    let mut out = Vec::new(alloc);
    push_cause(alloc, &mut out, &cause)?;
    Ok((cause, out))
}
