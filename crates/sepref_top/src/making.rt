//! The program that is given for a specification.

ghost use Rattle.std.specs.Prelude.{◌≡◌, IfOk, IfSome, None, true};
ghost use Rattle.nres_core.specs.FlatTree.{flat_whole_of};
ghost use Rattle.nres_rules.specs.Identify.{IsFlatOf};
ghost use Rattle.nres_rules.specs.Types.{HasTyping};
ghost use Rattle.rule_lines.specs.RuleLines.{rule_line};
ghost use Rattle.sepref_top.specs.Making.{IsMade, SaysMade, SaysProgram, SaysProgramOf};
ghost use Rattle.sepref_top.specs.Synthesis.{IsReadSpec, RulesSay, have_names};
ghost use Rattle.sepref_top.specs.Texts.{bytes_of};
ghost use Rattle.smallest_form.specs.Smallest.{IsSmallest};
ghost use Rattle.target_lines.specs.Programs.{program_text};

use crate::answer::{Answer, Text};
use crate::reading::{TypedSpec, typed_text};
use crate::status::Status;
use nres_core::{Flat, Refusal, Spec, Typing, With};
use nres_flat::flatten;
use op_identify::identify;
use proof_check::Follower;
use rule_lines::rule_line;
use rule_walk::check_rules;
use sepref_synth::synthesize;
use smallest_form::translate;
use sqlite_items::Items;
use std::alloc::{AllocError, Global};
use target_code::Program;
use target_text::print_program;

/// A program that is right for a specification, with its text.
#[derive(Drop)]
pub(crate) struct Made {
    pub(crate) program: Program,
    pub(crate) text: Vec<u8>,
}

/// A program that is right for the specification of a text, with the values behind that.
#[derive(Drop)]
pub struct Runnable {
    /// The program, which is formed.
    pub program: Program,
    /// The values.
    pub withs: Items<With>,
}

/// The flat tree of a specification.
fn flat_tree(alloc: Global, spec: &Spec, typing: &Typing) -> Result<Flat, AllocError>
    requires { HasTyping spec.now typing.now }
    ensures { IfOk result (λ flat. IsFlatOf spec.now (flat_whole_of flat)) }
{
    let tree = identify(alloc, spec, typing)?;
    flatten(alloc, &tree)
}

/// What the rules say of a specification: the first refusal, if there is one.
pub(crate) fn first_refusal(
    alloc: Global,
    spec: &Spec,
    typing: &Typing,
) -> Result<Option<Refusal>, AllocError>
    requires { HasTyping spec.now typing.now }
    ensures { IfOk result (λ said. RulesSay spec.now said) }
{
    let flat = flat_tree(alloc, spec, typing)?;
    check_rules(alloc, &flat)
}

/// The line of a refusal.
pub(crate) fn refused(alloc: Global, refusal: &Refusal) -> Result<Answer, AllocError>
    ensures { IfOk result (λ a. (a.status ≡ Status.NoRule) × (bytes_of a.text ≡ rule_line refusal.now)) }
{
    Ok(Answer {
        status: Status::NoRule,
        text: Text::Made(Items::from_vec(rule_line(alloc, refusal)?)),
    })
}

/// A program with its text.
fn with_text(alloc: Global, program: Program) -> Result<Made, AllocError>
    ensures { IfOk result (λ made. (made.program ≡ program) × (made.text.items ≡ program_text program)) }
{
    let text = print_program(alloc, &program)?;
    Ok(Made { program, text })
}

/// A program that was translated and then checked, if there is one.
fn checked_program<F: Follower>(
    alloc: Global,
    spec: &Spec,
    typing: &Typing,
) -> Result<Option<Made>, AllocError>
    requires passes { RulesSay spec.now None }
    requires reads { IsReadSpec spec.now }
    requires typed { HasTyping spec.now typing.now }
    ensures { IfOk result (λ found. IfSome found (λ made. IsMade spec.now made)) }
{
    let flat = flat_tree(alloc, spec, typing)?;
    match synthesize::<F>(alloc, &flat)? {
        None => Ok(None),
        Some(found) => Ok(Some(Made {
            program: found.program,
            text: found.text,
        })),
    }
}

/// The same, unless the specification is of the smallest form.
fn other_program<F: Follower>(
    alloc: Global,
    spec: &Spec,
    typing: &Typing,
) -> Result<Result<Made, Answer>, AllocError>
    requires other { IsSmallest spec.now → ⊥ }
    requires passes { RulesSay spec.now None }
    requires reads { IsReadSpec spec.now }
    requires typed { HasTyping spec.now typing.now }
    ensures { IfOk result (λ said. SaysMade spec.now said) }
{
    match checked_program::<F>(alloc, spec, typing)? {
        Some(made) => Ok(Ok(made)),
        None => Ok(Err(Answer::of_line(Status::NotYet))),
    }
}

/// The program that is given for a specification that the rules pass, or that none is.
fn passed_program<F: Follower>(
    alloc: Global,
    spec: &Spec,
    typing: &Typing,
) -> Result<Result<Made, Answer>, AllocError>
    requires names { have_names spec.now.params ≡ true }
    requires passes { RulesSay spec.now None }
    requires reads { IsReadSpec spec.now }
    requires typed { HasTyping spec.now typing.now }
    ensures { IfOk result (λ said. SaysMade spec.now said) }
{
    match translate(alloc, spec)? {
        None => other_program::<F>(alloc, spec, typing),
        Some(program) => Ok(Ok(with_text(alloc, program)?)),
    }
}

/// The program that is given for a specification, or the line that tells why none is.
pub(crate) fn program_of<F: Follower>(
    alloc: Global,
    spec: &Spec,
    typing: &Typing,
) -> Result<Result<Made, Answer>, AllocError>
    requires names { have_names spec.now.params ≡ true }
    requires reads { IsReadSpec spec.now }
    requires typed { HasTyping spec.now typing.now }
    ensures { IfOk result (λ said. SaysMade spec.now said) }
{
    match first_refusal(alloc, spec, typing)? {
        Some(refusal) => Ok(Err(refused(alloc, &refusal)?)),
        None => passed_program::<F>(alloc, spec, typing),
    }
}

/// The program that is given for a typed specification, with the values behind that.
fn with_values<F: Follower>(
    alloc: Global,
    found: TypedSpec,
) -> Result<Result<Runnable, Answer>, AllocError>
    requires names { have_names found.spec.params ≡ true }
    requires reads { IsReadSpec found.spec }
    requires typed { HasTyping found.spec found.typing }
    ensures { IfOk result (λ said. SaysProgramOf found.spec found.withs said) }
{
    match program_of::<F>(alloc, &found.spec, &found.typing)? {
        Ok(made) => Ok(Ok(Runnable {
            program: made.program,
            withs: found.withs,
        })),
        Err(answer) => Ok(Err(answer)),
    }
}

/// The program that is given for the specification that a text is, with the values behind that; or a status, with its line, that tells why
/// none is.
///
/// # Errors
///
/// Only where memory runs out.
pub fn program_for_text<F: Follower>(
    alloc: Global,
    text: &[u8],
) -> Result<Result<Runnable, Answer>, AllocError>
    ensures { IfOk result (λ said. SaysProgram text.now said) }
{
    match typed_text(alloc, text)? {
        Ok(found) => with_values::<F>(alloc, found),
        Err(answer) => Ok(Err(answer)),
    }
}
