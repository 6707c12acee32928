//! What the commands write for the specification that a text is.

ghost use Rattle.std.specs.Prelude.{◌≡◌, true};
ghost use Rattle.nres_rules.specs.Types.{HasTyping};
ghost use Rattle.sepref_top.specs.Answers.{Answered, AnswersSpec, Serves};
ghost use Rattle.sepref_top.specs.Synthesis.{Checked, IsReadSpec, Translated, have_names};

use crate::answer::{Answer, Text};
use crate::evaluation::evaluated;
use crate::making::{first_refusal, program_of, refused};
use crate::reading::typed_text;
use crate::status::Status;
use crate::words::{Command, Line};
use nres_core::{Spec, Typing, With};
use nres_print::print_spec;
use proof_check::Follower;
use sqlite_items::Items;
use std::alloc::{AllocError, Global};

/// The text of the program that is given for a specification, or why none is.
fn translated<F: Follower>(
    alloc: Global,
    spec: &Spec,
    typing: &Typing,
) -> Result<Answer, AllocError>
    requires names { have_names spec.now.params ≡ true }
    requires reads { IsReadSpec spec.now }
    requires typed { HasTyping spec.now typing.now }
    ensures { Answered (Translated spec.now) result }
{
    match program_of::<F>(alloc, spec, typing)? {
        Ok(made) => Ok(Answer {
            status: Status::Done,
            text: Text::Made(Items::from_vec(made.text)),
        }),
        Err(answer) => Ok(answer),
    }
}

/// The canonical text of a specification, or why the rules refuse it.
fn checked(alloc: Global, spec: &Spec, typing: &Typing) -> Result<Answer, AllocError>
    requires { HasTyping spec.now typing.now }
    ensures { Answered (Checked spec.now) result }
{
    match first_refusal(alloc, spec, typing)? {
        Some(refusal) => refused(alloc, &refusal),
        None => Ok(Answer {
            status: Status::Done,
            text: Text::Made(Items::from_vec(print_spec(alloc, spec)?)),
        }),
    }
}

/// What a command line writes for a typed specification and the values behind it.
fn served<F: Follower>(
    alloc: Global,
    line: Line,
    spec: &Spec,
    typing: &Typing,
    withs: &[With],
) -> Result<Answer, AllocError>
    requires names { have_names spec.now.params ≡ true }
    requires reads { IsReadSpec spec.now }
    requires typed { HasTyping spec.now typing.now }
    ensures { Answered (Serves line.command line spec.now withs.now) result }
{
    match line.command {
        Command::Check => checked(alloc, spec, typing),
        Command::Synth => translated::<F>(alloc, spec, typing),
        Command::Eval => evaluated(alloc, line.turns, spec, withs),
        Command::Run | Command::Exec | Command::Replay | Command::Verify => {
            Ok(Answer::of_line(Status::NotYet))
        }
    }
}

/// What a command line writes for the specification that a text is, or the line that tells why the text is no typed one.
pub(crate) fn spec_answer<F: Follower>(
    alloc: Global,
    line: Line,
    text: &[u8],
) -> Result<Answer, AllocError>
    ensures { Answered (AnswersSpec line.command line text.now) result }
{
    match typed_text(alloc, text)? {
        Ok(found) => served::<F>(
            alloc,
            line,
            &found.spec,
            &found.typing,
            found.withs.as_slice(),
        ),
        Err(answer) => Ok(answer),
    }
}
