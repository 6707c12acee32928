//! Whether a program fits a specification by a derivation.

ghost use Rattle.std.specs.Prelude.{◌≡◌, true, IfOk};
ghost use Rattle.nres_core.specs.FlatTree.{flat_whole_of};
ghost use Rattle.sequential.specs.Sequential.{sequential_whole};
ghost use Rattle.target_code.specs.Formed.{Formed};
ghost use Rattle.proof_check.specs.Verdict.{IsTypedFlat, IsVerdictOf};

use crate::verdict::{Followed, verdict};
use crate::whole::standing;
use nres_core::Flat;
use proof_text::ProofLine;
use std::alloc::{AllocError, Global};
use target_code::Program;

/// What follows a derivation, bind by bind.
pub trait Follower {
    ghost use Rattle.std.specs.Prelude.{◌≡◌, true, IfOk};
    ghost use Rattle.nres_core.specs.FlatTree.{flat_whole_of};
    ghost use Rattle.sequential.specs.Sequential.{sequential_whole};
    ghost use Rattle.target_code.specs.Formed.{Formed};
    ghost use Rattle.proof_check.specs.Verdict.{IsFollowedTo, IsTypedFlat};

    /// Follows the lines of a derivation through the flat tree of a typed specification without branches and a formed program.
    fn follow(
        alloc: Global,
        flat: &Flat,
        program: &Program,
        lines: &[ProofLine],
    ) -> Result<Followed, AllocError>
        requires typed { IsTypedFlat (flat_whole_of flat.now) }
        requires formed { Formed program.now }
        requires served { sequential_whole (flat_whole_of flat.now) ≡ true }
        ensures { IfOk result (λ said. IsFollowedTo (flat_whole_of flat.now) program.now lines.now said) };
}

/// The line that is told of a formed program that does not fit the flat tree of a typed specification without branches by a
/// derivation, over the table of rows and the library. `None` exactly where it fits.
pub fn verify<F: Follower>(
    alloc: Global,
    flat: &Flat,
    program: &Program,
    lines: &[ProofLine],
) -> Result<Option<u64>, AllocError>
    requires typed { IsTypedFlat (flat_whole_of flat.now) }
    requires formed { Formed program.now }
    requires served { sequential_whole (flat_whole_of flat.now) ≡ true }
    ensures { IfOk result (λ said. IsVerdictOf (flat_whole_of flat.now) program.now lines.now said) }
{
    let standing = standing(alloc, flat, program)?;
    if standing.is_none() {
        return Ok(Some(1));
    }
    let followed = F::follow(alloc, flat, program, lines)?;
    Ok(verdict(standing, followed))
}
