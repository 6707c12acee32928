//! The call that does all that the program does.

ghost use Rattle.std.specs.Prelude.{ℕ, List, length, ◌≡◌, ◌≢◌, ◌↔◌, ◌<◌, ◌≤◌, ◌^◌, Some, IfOk, take, true};
ghost use Rattle.std.specs.Io.KnownBytes.{Appends};
ghost use Rattle.sep_io.specs.Faults.{Gave, Rose};
ghost use Rattle.sepref_top.specs.CommandWords.{asked};
ghost use Rattle.sepref_top.specs.Outcome.{longest};
ghost use Rattle.sepref_top.specs.declared.words.Line.{Line as LineOf};
ghost use Rattle.sepref_runs.specs.Calm.{IsCalm, IsRunLine, RunsNothing, runs};
ghost use Rattle.sepref_runs.specs.Replays.{IsAnswered, IsTold};
ghost use Rattle.sepref_runs.specs.Runs.{Due, HasResults, HasSpecResults, SaysAs, TellsLength, UnlessLost, Went, Wrote};
ghost use Rattle.sepref_runs.specs.Texts.{bytes_of, told_status};

use crate::execution::{spec_told, text_told};
use crate::replaying::schedule_told;
use crate::status::RunStatus;
use crate::telling::{Telling, Text};
use proof_check::Follower;
use replay_causes::laws::an_input_has_one_cause;
use run_stores::RunStore;
use sep_io::{ReadEnd, Sink, Source, read_all, write_all};
use sepref_top::{Command, Line, Status, calm_main, read_words};
use std::alloc::{AllocError, Global};

/// The longest input, in bytes.
const LONGEST: u64 = 1_048_576;

/// What a command that runs programs, or follows a schedule of one, writes for a text.
fn command_told<S: RunStore + Drop, F: Follower>(
    alloc: Global,
    line: Line,
    text: &[u8],
) -> Result<Telling, AllocError>
    requires short { length text.now < 2 ^ 32 }
    requires few { line.steps ≤ 2 ^ 62 }
    ensures { IfOk result (λ told. SaysAs line.command line text.now told.status (bytes_of told.text)) }
{
    match line.command {
        Command::Exec => text_told::<S>(alloc, line, text),
        Command::Replay => schedule_told(alloc, line.heap, text),
        Command::Run => spec_told::<S, F>(alloc, line, text),
        // No other command comes here.
        Command::Check | Command::Synth | Command::Eval | Command::Verify => Err(AllocError),
    }
}

/// The same for the text that a source gave. A text that is longer is never read whole.
fn whole_told<S: RunStore + Drop, F: Follower>(
    alloc: Global,
    line: Line,
    text: &[u8],
) -> Result<Telling, AllocError>
    requires few { line.steps ≤ 2 ^ 62 }
    ensures { IfOk result (λ told. SaysAs line.command line text.now told.status (bytes_of told.text)) }
{
    if text.len() as u64 > LONGEST {
        return Err(AllocError);
    }
    command_told::<S, F>(alloc, line, text)
}

/// What is due to a command line of such a command: a status, and what is to be written for it.
fn source_told<S: RunStore + Drop, F: Follower, I: Source>(
    alloc: Global,
    line: Line,
    source: &mut I,
) -> Result<Telling, AllocError>
    requires few { line.steps ≤ 2 ^ 62 }
    ensures due { IfOk result (λ told. Due line (I.remaining source.old) (I.remaining source.new) told.status (bytes_of told.text)) }
    ensures fault { told_status result ≡ RunStatus.Calm Status.ReadFault → Rose (I.faults source.old) (I.faults source.new) }
    ensures gave { (n : ℕ) × (Gave (I.remaining source.old) (I.remaining source.new) n
        × ((longest < n → told_status result ≡ RunStatus.Calm Status.TooLong) × (told_status result ≡ RunStatus.Calm Status.TooLong → longest < n))) }
    ensures count { I.faults source.old ≤ I.faults source.new }
{
    match read_all(alloc, source, LONGEST) {
        Ok(text) => whole_told::<S, F>(alloc, line, text.as_slice()),
        Err(ReadEnd::Fault) => Ok(Telling {
            status: RunStatus::Calm(Status::ReadFault),
            text: Text::Fixed(b"! read fault\n"),
        }),
        Err(ReadEnd::TooLong) => Ok(Telling {
            status: RunStatus::Calm(Status::TooLong),
            text: Text::Fixed(b"! too long\n"),
        }),
        Err(ReadEnd::Memory) => Err(AllocError),
    }
}

/// Writes what is told, and says how that went.
fn write_told<K: Sink>(sink: &mut K, told: &Telling) -> RunStatus
    ensures status { UnlessLost told.now.status result }
    ensures whole { result ≢ RunStatus.Calm Status.WriteFault → Appends (K.contents sink.old) (K.contents sink.new) (bytes_of told.now.text) }
    ensures front { result ≡ RunStatus.Calm Status.WriteFault → told.now.status ≢ RunStatus.Calm Status.WriteFault
        → (n : ℕ) × Appends (K.contents sink.old) (K.contents sink.new) (take n (bytes_of told.now.text)) }
    ensures fault { result ≡ RunStatus.Calm Status.WriteFault → told.now.status ≢ RunStatus.Calm Status.WriteFault
        → Rose (K.faults sink.old) (K.faults sink.new) }
    ensures count { K.faults sink.old ≤ K.faults sink.new }
{
    match write_all(sink, told.bytes()) {
        Ok(()) => told.status,
        Err(_) => RunStatus::Calm(Status::WriteFault),
    }
}

/// Serves a command line of such a command.
fn run_main<S: RunStore + Drop, F: Follower, I: Source, K: Sink>(
    alloc: Global,
    line: Line,
    source: &mut I,
    sink: &mut K,
) -> RunStatus
    requires few { line.steps ≤ 2 ^ 62 }
    ensures wrote { Wrote (Due line (I.remaining source.old) (I.remaining source.new)) (K.contents sink.old) (K.contents sink.new) result }
    ensures told { (text : List ℕ) → I.remaining source.old ≡ Some text → length text ≤ longest → line.command ≡ Command.Replay
        → IsTold line.heap text result }
    ensures counted { TellsLength result (I.remaining source.old) (I.remaining source.new) }
    ensures read_fault { result ≡ RunStatus.Calm Status.ReadFault → Rose (I.faults source.old) (I.faults source.new) }
    ensures write_fault { result ≡ RunStatus.Calm Status.WriteFault → Rose (K.faults sink.old) (K.faults sink.new) }
    ensures unwritten { result ≡ RunStatus.Calm Status.Memory → sink.new ≡ sink.old }
    ensures read_count { I.faults source.old ≤ I.faults source.new }
    ensures write_count { K.faults sink.old ≤ K.faults sink.new }
{
    an_input_has_one_cause();
    match source_told::<S, F, I>(alloc, line, source) {
        Ok(told) => write_told(sink, &told),
        Err(AllocError) => RunStatus::Calm(Status::Memory),
    }
}

/// Whether a command runs programs, or follows a schedule of one.
fn runs(command: Command) -> bool
    ensures { result ≡ runs command }
{
    matches!(command, Command::Exec | Command::Replay | Command::Run)
}

/// A command line, where it is one of such a command.
fn only_run(line: Line) -> Option<Line>
    ensures { IsRunLine result (Some line) }
{
    if runs(line.command) { Some(line) } else { None }
}

/// The command line that words are, where it is one of such a command.
fn run_line(words: &[String]) -> Option<Line>
    ensures { IsRunLine result (asked words.now) }
{
    match read_words(words) {
        Some(line) => only_run(line),
        None => None,
    }
}

/// Does what the words ask for, with the bytes that the source gives, and writes to the sink. It serves `exec` and `run`, on
/// one worker and over stores of this kind, and `replay`; all other words go to [`calm_main`] as they are, with what follows a
/// derivation.
pub fn sepref_main<S: RunStore + Drop, F: Follower, I: Source, K: Sink>(
    alloc: Global,
    words: &[String],
    source: &mut I,
    sink: &mut K,
) -> RunStatus
    // At status 0 of `exec` the bytes that were read are a program with a value for each of its inputs, and the bytes that were
    // written are the lines of the values that its results represent where the left-first run from the beginning on them ended.
    ensures executed { (line : LineOf) → asked words.now ≡ Some line → line.command ≡ Command.Exec → result ≡ RunStatus.Calm Status.Done
        → Went (HasResults line) (I.remaining source.old) (I.remaining source.new) (K.contents sink.old) (K.contents sink.new) }
    // At status 0 of `run` the bytes that were read are a typed specification with a value for each parameter, and the bytes that
    // were written are the lines of the values that the results of a program that is right for it represent where the left-first
    // run from the beginning on them ended.
    ensures ran { (line : LineOf) → asked words.now ≡ Some line → line.command ≡ Command.Run → result ≡ RunStatus.Calm Status.Done
        → Went (HasSpecResults line) (I.remaining source.old) (I.remaining source.new) (K.contents sink.old) (K.contents sink.new) }
    // At status 0 of `replay` the bytes that were read are a program with a value for each of its inputs and a schedule, and the
    // bytes that were written are the line of what is told first along the schedule from the beginning on them, with the lines of
    // the values that the results represent where the root ended.
    ensures replayed { (line : LineOf) → asked words.now ≡ Some line → line.command ≡ Command.Replay → result ≡ RunStatus.Calm Status.Done
        → Went (IsAnswered line.heap) (I.remaining source.old) (I.remaining source.new) (K.contents sink.old) (K.contents sink.new) }
    // Each input of `replay` of at most 1,048,576 bytes is told by the status of its cause, unless memory was wanting, or a read or
    // a write failed.
    ensures told { (text : List ℕ) (line : LineOf) → I.remaining source.old ≡ Some text → length text ≤ longest
        → asked words.now ≡ Some line → line.command ≡ Command.Replay → IsTold line.heap text result }
    // What `exec`, `run` and `replay` wrote is what is due: of a text one of the tables `Says` and `SaysRun`, or the line of a
    // cause, in the order of the tests; whole, or, where a write failed, a front of it; or, for want of memory, nothing.
    ensures wrote { (line : LineOf) → asked words.now ≡ Some line → runs line.command ≡ true
        → Wrote (Due line (I.remaining source.old) (I.remaining source.new)) (K.contents sink.old) (K.contents sink.new) result }
    // Its source is too long exactly where it gave more than 1,048,576 bytes.
    ensures counted { (line : LineOf) → asked words.now ≡ Some line → runs line.command ≡ true
        → TellsLength result (I.remaining source.old) (I.remaining source.new) }
    ensures read_fault { result ≡ RunStatus.Calm Status.ReadFault → Rose (I.faults source.old) (I.faults source.new) }
    ensures write_fault { result ≡ RunStatus.Calm Status.WriteFault → Rose (K.faults sink.old) (K.faults sink.new) }
    ensures unwritten { result ≡ RunStatus.Calm Status.Memory → sink.new ≡ sink.old }
    // All other words are served as `calm_main` serves them.
    ensures calm { RunsNothing (asked words.now) → IsCalm (asked words.now) (I.remaining source.old) (I.remaining source.new)
        (K.contents sink.old) (K.contents sink.new) (I.faults source.old) (I.faults source.new) (K.faults sink.old) (K.faults sink.new)
        (source.new ≡ source.old) (sink.new ≡ sink.old) result }
    ensures read_count { I.faults source.old ≤ I.faults source.new }
    ensures write_count { K.faults sink.old ≤ K.faults sink.new }
{
    match run_line(words) {
        Some(line) => run_main::<S, F, I, K>(alloc, line, source, sink),
        None => RunStatus::Calm(calm_main::<F, I, K>(alloc, words, source, sink)),
    }
}
