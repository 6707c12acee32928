//! The call that does all that waits for nobody.

ghost use Rattle.std.specs.Prelude.{ℕ, List, length, take, ◌≡◌, ◌≢◌, ◌<◌, ◌≤◌, ◌⊎◌, Some, None, Ok, Err, IfOk, OnOk};
ghost use Rattle.std.specs.Io.KnownBytes.{Appends};
ghost use Rattle.sep_io.specs.Faults.{Rose, Gave};
ghost use Rattle.sepref_top.specs.CommandWords.{asked};
ghost use Rattle.sepref_top.specs.Outcome.{longest, AnswersUnlessLost, Lost, TellsLength, Wrote};
ghost use Rattle.sepref_top.specs.Statuses.{TellsText};
ghost use Rattle.sepref_top.specs.Answers.{Answered, Answers, AnswersExecution, Due, IsCanonical, IsEvaluation, IsSynthesis, ToldBy, Went, status_of};
ghost use Rattle.sepref_top.specs.Texts.{bytes_of};
ghost use Rattle.sepref_top.specs.Verifications.{IsVerified};
ghost use Rattle.sepref_top.specs.declared.words.Line.{Line as LineOf};

use crate::answer::{Answer, Text, number_line, place_line};
use crate::status::Status;
use crate::synthesis::spec_answer;
use crate::verification::verification_answer;
use crate::words::{Command, Line, read_words};
use execution_input::{Unrun, read_execution};
use proof_check::Follower;
use sep_io::{ReadEnd, Sink, Source, read_all, write_all};
use std::alloc::{AllocError, Global};

/// The longest input, in bytes.
const LONGEST: u64 = 1_048_576;

/// The line that tells that an input of `exec` begins with no program, or has no list of values behind it.
fn execution_answer(alloc: Global, text: &[u8]) -> Result<Answer, AllocError>
    ensures { Answered (AnswersExecution text.now) result }
{
    match read_execution(alloc, text) {
        Ok(found) => {
            drop(found);
            Ok(Answer::of_line(Status::NotYet))
        }
        Err(Unrun::NotProgram(line)) => Ok(Answer {
            status: Status::NotProgram(line),
            text: Text::Made(number_line(alloc, b"! not a program ", line)?),
        }),
        Err(Unrun::Syntax(place)) => Ok(Answer {
            status: Status::Syntax(place),
            text: Text::Made(place_line(alloc, b"! syntax ", place)?),
        }),
        Err(Unrun::Memory) => Err(AllocError),
    }
}

/// What a command line writes for a text, or the line that tells what the text is.
fn text_answer<F: Follower>(alloc: Global, line: Line, text: &[u8]) -> Result<Answer, AllocError>
    ensures { Answered (Answers line text.now) result }
{
    match line.command {
        Command::Check | Command::Synth | Command::Eval | Command::Run => {
            spec_answer::<F>(alloc, line, text)
        }
        Command::Exec => execution_answer(alloc, text),
        Command::Replay => Ok(Answer::of_line(Status::NotYet)),
        Command::Verify => verification_answer::<F>(alloc, text),
    }
}

/// What is due to the words: a status, and what is to be written for it.
fn answer<F: Follower, S: Source>(
    alloc: Global,
    words: &[String],
    source: &mut S,
) -> Result<Answer, AllocError>
    ensures due { IfOk result (λ a. Due (asked words.now) (S.remaining source.old) (S.remaining source.new) a.status (bytes_of a.text)) }
    ensures no_command { asked words.now ≡ None → status_of result ≡ Status.Usage }
    ensures fault { status_of result ≡ Status.ReadFault → Rose (S.faults source.old) (S.faults source.new) }
    ensures gave { (n : ℕ) × (Gave (S.remaining source.old) (S.remaining source.new) n
        × ((longest < n → status_of result ≡ Status.TooLong) × (status_of result ≡ Status.TooLong → longest < n))) }
    ensures unread { asked words.now ≡ None → source.new ≡ source.old }
    ensures count { S.faults source.old ≤ S.faults source.new }
{
    let Some(line) = read_words(words) else {
        return Ok(Answer::of_line(Status::Usage));
    };
    match read_all(alloc, source, LONGEST) {
        Ok(text) => text_answer::<F>(alloc, line, text.as_slice()),
        Err(ReadEnd::Fault) => Ok(Answer::of_line(Status::ReadFault)),
        Err(ReadEnd::TooLong) => Ok(Answer::of_line(Status::TooLong)),
        Err(ReadEnd::Memory) => Err(AllocError),
    }
}

/// Writes what an answer has to write, and says how that went.
fn write_answer<K: Sink>(sink: &mut K, answer: &Answer) -> Status
    ensures status { AnswersUnlessLost answer.now.status result }
    ensures whole { result ≢ Status.WriteFault → Appends (K.contents sink.old) (K.contents sink.new) (bytes_of answer.now.text) }
    ensures front { result ≡ Status.WriteFault → answer.now.status ≢ Status.WriteFault
        → (n : ℕ) × Appends (K.contents sink.old) (K.contents sink.new) (take n (bytes_of answer.now.text)) }
    ensures fault { result ≡ Status.WriteFault → answer.now.status ≢ Status.WriteFault
        → Rose (K.faults sink.old) (K.faults sink.new) }
    ensures count { K.faults sink.old ≤ K.faults sink.new }
{
    match write_all(sink, answer.bytes()) {
        Ok(()) => answer.status,
        Err(_) => Status::WriteFault,
    }
}

/// Does what the words ask for, with the bytes that the source gives, and writes to the sink. It waits for nobody and
/// returns. Served today are `eval` and `check` on every specification, `verify` on those without `par` and `split`, and `synth` on
/// the smallest specifications; what follows a derivation for `verify` is named by the caller. `run` and `exec` read their input and
/// answer `NotYet`, `run` where it is a typed specification, `exec` where it is a program with values; `replay` answers so
/// whatever its input is.
pub fn calm_main<F: Follower, S: Source, K: Sink>(
    alloc: Global,
    words: &[String],
    source: &mut S,
    sink: &mut K,
) -> Status
    // The words are no command line exactly where the answer is `Usage`, and then nothing is read.
    ensures usage { result ≡ Status.Usage → asked words.now ≡ None }
    ensures no_command { asked words.now ≡ None → AnswersUnlessLost Status.Usage result }
    ensures unread { asked words.now ≡ None → source.new ≡ source.old }

    // The source is too long exactly where it gave more than 1,048,576 bytes.
    ensures length { TellsLength result (S.remaining source.old) (S.remaining source.new) }

    ensures read_fault { result ≡ Status.ReadFault → Rose (S.faults source.old) (S.faults source.new) }
    ensures write_fault { result ≡ Status.WriteFault → Rose (K.faults sink.old) (K.faults sink.new) }

    // The headline: the bytes that were read are a typed specification, and the bytes that were written are the text of a formed
    // program of its shape, which is sound for it.
    ensures sound { (line : LineOf) → asked words.now ≡ Some line → line.command ≡ Command.Synth → result ≡ Status.Done
        → Went IsSynthesis (S.remaining source.old) (S.remaining source.new) (K.contents sink.old) (K.contents sink.new) }
    // The bytes that were read are a typed specification that the rules pass, and the bytes that were written its canonical text.
    ensures canonical { (line : LineOf) → asked words.now ≡ Some line → line.command ≡ Command.Check → result ≡ Status.Done
        → Went IsCanonical (S.remaining source.old) (S.remaining source.new) (K.contents sink.old) (K.contents sink.new) }
    // The bytes that were read are a typed specification with a value for each parameter, and the bytes that were written are the
    // lines of the results on its path of first choices, which it allows.
    ensures evaluated { (line : LineOf) → asked words.now ≡ Some line → line.command ≡ Command.Eval → result ≡ Status.Done
        → Went (IsEvaluation line.turns) (S.remaining source.old) (S.remaining source.new) (K.contents sink.old) (K.contents sink.new) }
    // The bytes that were read are a typed specification, a formed program and a derivation by which the program fits the
    // specification. So it has the specification's shape, is sound for it, and its runs are bounded wherever the specification
    // ends. The bytes that were written are `ok`.
    ensures verified { (line : LineOf) → asked words.now ≡ Some line → line.command ≡ Command.Verify → result ≡ Status.Done
        → Went IsVerified (S.remaining source.old) (S.remaining source.new) (K.contents sink.old) (K.contents sink.new) }
    // Each status that tells of the input, `Done` among them, has its cause in what was read, and the line of that cause was
    // written: the table `Answers` has a line for each.
    ensures tells { (line : LineOf) → TellsText result → asked words.now ≡ Some line
        → Went (λ text output. Answers line text result output) (S.remaining source.old) (S.remaining source.new) (K.contents sink.old) (K.contents sink.new) }
    // Each input of at most 1,048,576 bytes is told so: a typed specification as the command serves it, one that is not typed by
    // `Type_`, what is no specification by a place; unless memory was wanting, or a read or a write failed.
    ensures told { (text : List ℕ) (line : LineOf) → S.remaining source.old ≡ Some text → length text ≤ longest
        → asked words.now ≡ Some line → ToldBy line text result }

    // What is due to the words and to what the source gave was written whole; or, after a failed write, a front of it; or, at
    // `Memory`, nothing.
    ensures wrote { Wrote (Due (asked words.now) (S.remaining source.old) (S.remaining source.new)) result (K.contents sink.old) (K.contents sink.new) }
    ensures unwritten { result ≡ Status.Memory → sink.new ≡ sink.old }
    ensures read_count { S.faults source.old ≤ S.faults source.new }
    ensures write_count { K.faults sink.old ≤ K.faults sink.new }
{
    match answer::<F, S>(alloc, words, source) {
        Ok(answer) => write_answer(sink, &answer),
        Err(AllocError) => Status::Memory,
    }
}
