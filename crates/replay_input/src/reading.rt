//! The program, the values for its inputs and the schedule that an input of `replay` is.

ghost use Rattle.std.specs.Prelude.{◌≡◌, ◌+◌, ◌<◌, ◌^◌, length, IfErr, IfOk};
ghost use Rattle.replay_causes.specs.Causes.{IsReplay};
ghost use Rattle.replay_input.specs.Reads.{AreRead, IsUnread, IsUnreadBehind};

use nres_core::{Place, With};
use nres_syntax::{SyntaxRefusal, read_withs};
use replay::{Move, NoSchedule, read_schedule};
use replay_lines::{Parts, cut};
use sqlite_items::Items;
use std::alloc::Global;
use target_code::Program;
use target_text::{NotProgram, read_program};

/// An input of `replay`, read.
#[derive(Drop)]
pub struct ReplayInput {
    /// The program.
    pub program: Program,
    /// The lines that give values.
    pub withs: Items<With>,
    /// The steps of the schedule.
    pub steps: Vec<Move>,
}

/// Why an input is not replayed.
#[derive(Clone, Copy)]
pub enum Unread {
    /// The front is the text of no program: this line is refused.
    NotProgram(u64),
    /// What stands behind it is no list of values: this is the first place at which none can go on.
    Syntax(Place),
    /// This line of the input is none of a schedule, or is the 20,001st.
    NoSchedule(u64),
    /// There was no memory.
    Memory,
}

/// The values and the steps behind a program.
fn behind(alloc: Global, parts: &Parts<'_>) -> Result<(Items<With>, Vec<Move>), Unread>
    requires values { parts.now.values_line + length parts.now.values.now < 2 ^ 64 }
    requires schedule { parts.now.schedule_line + length parts.now.schedule.now < 2 ^ 64 }
    ensures ok { IfOk result (λ x. AreRead parts.now.values_line parts.now.values.now parts.now.schedule.now x.0 x.1.items) }
    ensures err { IfErr result (λ u. IsUnreadBehind parts.now.values_line parts.now.values.now parts.now.schedule_line parts.now.schedule.now u) }
{
    let withs = match read_withs(alloc, parts.values, parts.values_line) {
        Ok(withs) => withs,
        Err(SyntaxRefusal::At(place)) => return Err(Unread::Syntax(place)),
        // Values never nest too deep: what is left is want of memory.
        Err(_) => return Err(Unread::Memory),
    };
    match read_schedule(alloc, parts.schedule, parts.schedule_line) {
        Ok(steps) => Ok((withs, steps)),
        Err(NoSchedule::Line(line)) => Err(Unread::NoSchedule(line)),
        Err(NoSchedule::Memory) => Err(Unread::Memory),
    }
}

/// The program that stands before the first line that begins with `with ` or `at `, the values that stand from there on
/// before the first line that begins with `at `, and the schedule that stands from there on.
pub fn read_replay(alloc: Global, text: &[u8]) -> Result<ReplayInput, Unread>
    ensures ok { IfOk result (λ x. IsReplay text.now x.program x.withs x.steps.items) }
    ensures err { IfErr result (λ u. IsUnread text.now u) }
{
    let parts = cut(text);
    let program = match read_program(alloc, parts.program) {
        Ok(program) => program,
        Err(NotProgram::Line(refused)) => return Err(Unread::NotProgram(refused)),
        Err(NotProgram::Memory) => return Err(Unread::Memory),
    };
    match behind(alloc, &parts) {
        Ok((withs, steps)) => Ok(ReplayInput {
            program,
            withs,
            steps,
        }),
        Err(unread) => Err(unread),
    }
}
