//! What `exec` and `run` write for an input.

ghost use Rattle.std.specs.Prelude.{◌≡◌, ◌<◌, ◌≤◌, ◌^◌, IfOk, List, length, Ok};
ghost use Rattle.nres_core.specs.declared.value.Value.{Value as ValueOf};
ghost use Rattle.target_code.specs.Formed.{Formed};
ghost use Rattle.inputs.specs.Inputs as rules;
ghost use Rattle.run_begins.specs.Beginning.{AreHeld};
ghost use Rattle.run_inputs.specs.Placing.{AllFit};
ghost use Rattle.sepref_runs.specs.Runs.{Given, Ran, Says, SaysRun, status_of};
ghost use Rattle.sepref_runs.specs.Texts.{TellsInput, TellsUnrun, bytes_of};
ghost use Rattle.run_lines.specs.Lines.{end_text};
ghost use Rattle.sepref_top.specs.Texts.{bytes_of as bytes_in};

use crate::status::RunStatus;
use crate::telling::{Telling, Text, input_line, number_line, place_line};
use execution_input::{Unrun, read_execution};
use inputs::{InputRefusal, program_inputs};
use nres_core::{Value, With};
use program_run::{RunEnd, run_whole};
use proof_check::Follower;
use run_lines::push_end;
use run_stores::RunStore;
use sepref_top::{Answer, Line, Status, program_for_text};
use std::alloc::{AllocError, Global};
use target_code::Program;

/// What tells the end of a run.
fn end_told(alloc: Global, end: &RunEnd) -> Result<Telling, AllocError>
    ensures { IfOk result (λ told. (told.status ≡ status_of end.now) × (bytes_of told.text ≡ end_text end.now)) }
{
    let mut bytes = Vec::new(alloc);
    push_end(alloc, &mut bytes, end)?;
    Ok(Telling {
        status: RunStatus::of_end(end),
        text: Text::Made(bytes),
    })
}

/// What tells the end of the run of a program on values.
fn run_told<S: RunStore + Drop>(
    alloc: Global,
    line: Line,
    program: &Program,
    values: &[Value],
) -> Result<Telling, AllocError>
    requires formed { Formed program.now }
    requires held { AreHeld values.now }
    requires fit { AllFit program.now.ins values.now }
    requires few { line.steps ≤ 2 ^ 62 }
    ensures { IfOk result (λ told. Ran line program.now values.now told.status (bytes_of told.text)) }
{
    let end = run_whole::<S>(alloc, program, values, line.heap, line.steps)?;
    end_told(alloc, &end)
}

/// What tells what is wrong with the values that lines give.
fn input_told(alloc: Global, refusal: InputRefusal) -> Result<Telling, AllocError>
    ensures { IfOk result (λ told. TellsInput refusal.entry told.status (bytes_of told.text)) }
{
    match refusal {
        InputRefusal::Refused { name, fault } => Ok(Telling {
            status: RunStatus::Calm(Status::Input),
            text: Text::Made(input_line(alloc, name, fault)?),
        }),
        InputRefusal::Memory => Err(AllocError),
    }
}

/// What tells why an input is not run.
fn unrun_told(alloc: Global, unrun: Unrun) -> Result<Telling, AllocError>
    ensures { IfOk result (λ told. TellsUnrun unrun told.status (bytes_of told.text)) }
{
    match unrun {
        Unrun::NotProgram(refused) => Ok(Telling {
            status: RunStatus::Calm(Status::NotProgram(refused)),
            text: Text::Made(number_line(alloc, b"! not a program ", refused)?),
        }),
        Unrun::Syntax(place) => Ok(Telling {
            status: RunStatus::Calm(Status::Syntax(place)),
            text: Text::Made(place_line(alloc, b"! syntax ", place)?),
        }),
        Unrun::Memory => Err(AllocError),
    }
}

/// What tells the end of the run of a program on the values that lines give its inputs, or what is wrong with these.
fn given_told<S: RunStore + Drop>(
    alloc: Global,
    line: Line,
    program: &Program,
    withs: &[With],
) -> Result<Telling, AllocError>
    requires formed { Formed program.now }
    requires held { (us : List ValueOf) → rules.program_inputs program.now.ins withs.now ≡ Ok us → AreHeld us × AllFit program.now.ins us }
    requires few { line.steps ≤ 2 ^ 62 }
    ensures { IfOk result (λ told. Given line program.now withs.now told.status (bytes_of told.text)) }
{
    match program_inputs(alloc, program.ins.as_slice(), withs) {
        Ok(values) => run_told::<S>(alloc, line, program, values.as_slice()),
        Err(refusal) => input_told(alloc, refusal),
    }
}

/// What `exec` writes for a text, with the heap and the steps of a command line.
pub fn text_told<S: RunStore + Drop>(
    alloc: Global,
    line: Line,
    text: &[u8],
) -> Result<Telling, AllocError>
    requires short { length text.now < 2 ^ 32 }
    requires few { line.steps ≤ 2 ^ 62 }
    ensures { IfOk result (λ told. Says line text.now told.status (bytes_of told.text)) }
{
    match read_execution(alloc, text) {
        Ok((program, withs)) => given_told::<S>(alloc, line, &program, withs.as_slice()),
        Err(unrun) => unrun_told(alloc, unrun),
    }
}

/// What tells why no program is given for a specification.
fn answer_told(alloc: Global, answer: &Answer) -> Result<Telling, AllocError>
    ensures { IfOk result (λ told. (told.status ≡ RunStatus.Calm answer.now.status) × (bytes_of told.text ≡ bytes_in answer.now.text)) }
{
    Ok(Telling {
        status: RunStatus::Calm(answer.status),
        text: Text::Made(Vec::from_slice(alloc, answer.bytes())?),
    })
}

/// What `run` writes for a text, with the heap and the steps of a command line.
pub fn spec_told<S: RunStore + Drop, F: Follower>(
    alloc: Global,
    line: Line,
    text: &[u8],
) -> Result<Telling, AllocError>
    requires short { length text.now < 2 ^ 32 }
    requires few { line.steps ≤ 2 ^ 62 }
    ensures { IfOk result (λ told. SaysRun line text.now told.status (bytes_of told.text)) }
{
    match program_for_text::<F>(alloc, text)? {
        Ok(found) => given_told::<S>(alloc, line, &found.program, found.withs.as_slice()),
        Err(answer) => answer_told(alloc, &answer),
    }
}
