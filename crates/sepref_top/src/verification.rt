//! What `verify` writes for a text of a specification, a program and a derivation.

ghost use Rattle.std.specs.Prelude.{IfOk};
ghost use Rattle.sepref_top.specs.Answers.{Answered};
ghost use Rattle.sepref_top.specs.Texts.{bytes_of};
ghost use Rattle.sepref_top.specs.Verifications.{AnswersVerification, TellsVerdict};

use crate::answer::{Answer, Text, number_line, place_line};
use crate::status::Status;
use crate::type_line::type_line;
use proof_check::Follower;
use sepref_verify::{Verdict, verify_text};
use sqlite_items::Items;
use std::alloc::{AllocError, Global};

/// What is told of a verdict.
fn verdict_answer(alloc: Global, verdict: Verdict) -> Result<Answer, AllocError>
    ensures { IfOk result (λ a. TellsVerdict verdict a.status (bytes_of a.text)) }
{
    match verdict {
        Verdict::Fits => Ok(Answer {
            status: Status::Done,
            text: Text::Fixed(b"ok\n"),
        }),
        Verdict::NoProof(line) => Ok(Answer {
            status: Status::NoProof(line),
            text: Text::Made(number_line(alloc, b"! no proof ", line)?),
        }),
        Verdict::NotYet => Ok(Answer::of_line(Status::NotYet)),
        Verdict::Syntax(place) => Ok(Answer {
            status: Status::Syntax(place),
            text: Text::Made(place_line(alloc, b"! syntax ", place)?),
        }),
        Verdict::TooDeep(place) => Ok(Answer {
            status: Status::TooDeep(place),
            text: Text::Made(place_line(alloc, b"! too deep ", place)?),
        }),
        Verdict::Untyped(refusal) => Ok(Answer {
            status: Status::Type_,
            text: Text::Made(Items::from_vec(type_line(alloc, &refusal)?)),
        }),
        Verdict::NotProgram(line) => Ok(Answer {
            status: Status::NotProgram(line),
            text: Text::Made(number_line(alloc, b"! not a program ", line)?),
        }),
    }
}

/// What `verify` writes for a text.
pub(crate) fn verification_answer<F: Follower>(
    alloc: Global,
    text: &[u8],
) -> Result<Answer, AllocError>
    ensures { Answered (AnswersVerification text.now) result }
{
    let verdict = verify_text::<F>(alloc, text)?;
    verdict_answer(alloc, verdict)
}
