//! Names of procedures: numbered ones, and rising ones.

ghost use Rattle.std.specs.Prelude.{◌≡◌, ◌∷◌, [], decimal, IfOk};
ghost use Rattle.std.specs.Str.{bytes_eq};
ghost use Rattle.soundness.specs.Shape.{names_of};
ghost use Rattle.unfit_line.specs.Tests.{rise};
ghost use Rattle.proof_check.specs.Whole.{numbered_front, rises_from};

use std::alloc::{AllocError, Global};
use target_code::{Proc, push_number};

/// Whether a name is a letter with a number.
fn is_numbered(alloc: Global, name: &[u8], letter: u8, number: u64) -> Result<bool, AllocError>
    ensures { IfOk result (λ yes. yes ≡ bytes_eq name.now (letter ∷ decimal number)) }
{
    let mut numbered = Vec::new(alloc);
    numbered.push(letter)?;
    push_number(&mut numbered, number)?;
    Ok(name == numbered.as_slice())
}

/// How many procedures at the front are called by a letter with 1, 2 and so on.
pub(crate) fn numbered_front(alloc: Global, letter: u8, procs: &[Proc]) -> Result<usize, AllocError>
    ensures { IfOk result (λ count. count ≡ numbered_front (letter ∷ []) 1 procs.now) }
{
    let mut count = 0;
    'each: for proc in procs {
        if !is_numbered(alloc, proc.name.bytes(), letter, count as u64 + 1)? {
            return Ok(count);
        }
        count += 1;
    }
    Ok(count)
}

/// Whether a name stands before that of the first procedure, if there is one.
fn rises_to(name: &[u8], procs: &[Proc]) -> bool
    ensures { result ≡ rises_from name.now (names_of procs.now) }
{
    match procs {
        [next, ..] => name < next.name.bytes(),
        [] => true,
    }
}

/// Whether the name of each procedure stands before that of the next.
pub(crate) fn are_rising(procs: &[Proc]) -> bool
    ensures { result ≡ rise (names_of procs.now) }
{
    let mut rest = procs;
    while let [first, others @ ..] = rest {
        if !rises_to(first.name.bytes(), others) {
            return false;
        }
        rest = others;
    }
    true
}
