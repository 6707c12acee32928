//! What `verify` says of a text of a specification, a program and a derivation.

ghost use Rattle.std.specs.Prelude.{◌≡◌, true, IfOk};
ghost use Rattle.nres_core.specs.FlatTree.{flat_whole_of};
ghost use Rattle.nres_rules.specs.Identify.{IsFlatOf};
ghost use Rattle.nres_rules.specs.Types.{HasTyping};
ghost use Rattle.target_code.specs.Formed.{Formed};
ghost use Rattle.sepref_verify.specs.Saying.{IsCheckedAs, Says, SaysUnverified, verdict_of};
ghost use Rattle.sequential.specs.Sequential.{sequential_whole};

use nres_core::{Flat, Place, Spec, Typing};
use nres_flat::flatten;
use nres_types::TypeRefusal;
use op_identify::identify;
use proof_check::{Follower, verify};
use sequential::is_sequential;
use std::alloc::{AllocError, Global};
use verify_input::{Unverified, Verification, read_verification};

/// What `verify` says of a text.
#[derive(Drop)]
pub enum Verdict {
    /// The program fits the specification by the derivation.
    Fits,
    /// It does not: this line of the derivation, counted from 1, is the first that is not found, or the first of all where
    /// the program as a whole does not stand.
    NoProof(u64),
    /// The specification has branches, which are not served yet.
    NotYet,
    /// The first part is no specification: this is the first place at which none can go on.
    Syntax(Place),
    /// The same, where a limit alone is at fault.
    TooDeep(Place),
    /// The specification is not typed; never for want of memory.
    Untyped(TypeRefusal),
    /// The second part is the text of no program: this line of it is refused, counted from that part's first.
    NotProgram(u64),
}

/// The flat tree of a specification.
fn flat_tree(alloc: Global, spec: &Spec, typing: &Typing) -> Result<Flat, AllocError>
    requires { HasTyping spec.now typing.now }
    ensures { IfOk result (λ flat. IsFlatOf spec.now (flat_whole_of flat)) }
{
    let tree = identify(alloc, spec, typing)?;
    flatten(alloc, &tree)
}

/// What is told where this line is, or none.
fn told(said: Option<u64>) -> Verdict
    ensures { result ≡ verdict_of said }
{
    match said {
        Some(line) => Verdict::NoProof(line),
        None => Verdict::Fits,
    }
}

/// Whether the program of an input fits its specification, whose flat tree this is, by its derivation.
fn flat_verdict<F: Follower>(
    alloc: Global,
    flat: &Flat,
    input: &Verification,
) -> Result<Verdict, AllocError>
    requires flat { IsFlatOf input.now.spec (flat_whole_of flat.now) }
    requires formed { Formed input.now.program }
    requires served { sequential_whole (flat_whole_of flat.now) ≡ true }
    ensures { IfOk result (λ verdict. IsCheckedAs input.now verdict) }
{
    let said = verify::<F>(alloc, flat, &input.program, input.proof.lines.as_slice())?;
    Ok(told(said))
}

/// The same, where the specification has no branches.
fn input_verdict<F: Follower>(alloc: Global, input: &Verification) -> Result<Verdict, AllocError>
    requires typed { HasTyping input.now.spec input.now.typing }
    requires formed { Formed input.now.program }
    ensures { IfOk result (λ verdict. IsCheckedAs input.now verdict) }
{
    let flat = flat_tree(alloc, &input.spec, &input.typing)?;
    if is_sequential(&flat) {
        flat_verdict::<F>(alloc, &flat, input)
    } else {
        Ok(Verdict::NotYet)
    }
}

/// What is said of a text that is no input of `verify`.
fn unverified(why: Unverified) -> Result<Verdict, AllocError>
    ensures { IfOk result (λ verdict. SaysUnverified why verdict) }
{
    match why {
        Unverified::Syntax(place) => Ok(Verdict::Syntax(place)),
        Unverified::TooDeep(place) => Ok(Verdict::TooDeep(place)),
        Unverified::Untyped(refusal) => Ok(Verdict::Untyped(refusal)),
        Unverified::NotProgram(line) => Ok(Verdict::NotProgram(line)),
        Unverified::Memory => Err(AllocError),
    }
}

/// What `verify` says of a text: whether the program that is its second part fits the specification that is its first part
/// by the derivation that is its third part, and else why not.
///
/// # Errors
///
/// Only where memory runs out.
pub fn verify_text<F: Follower>(alloc: Global, text: &[u8]) -> Result<Verdict, AllocError>
    ensures { IfOk result (λ verdict. Says text.now verdict) }
{
    match read_verification(alloc, text) {
        Ok(input) => input_verdict::<F>(alloc, &input),
        Err(why) => unverified(why),
    }
}
