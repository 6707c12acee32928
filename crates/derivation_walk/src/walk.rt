//! The walk as what follows derivations.

ghost use Rattle.std.specs.Prelude.{◌≡◌, ◌-◌, suc, length};
ghost use Rattle.derivation_walk.specs.Followings.{followed_as};

use fit_blocks::Unmet;
use fit_walk::follow_whole;
use nres_core::Flat;
use proof_check::{Followed, Follower};
use proof_text::ProofLine;
use std::alloc::{AllocError, Global};
use target_code::Program;

/// Follows derivations of specifications without branches, bind by bind.
pub struct DerivationWalk;

/// The line, counted from 1, behind those that were found, where these are left of all lines.
fn unmet_line(lines: &[ProofLine], left: &[ProofLine]) -> u64
    ensures { result ≡ suc (length lines.now - length left.now) }
{
    lines.len().saturating_sub(left.len()) as u64 + 1
}

/// What following lines came to.
fn followed(lines: &[ProofLine], said: Result<u64, Unmet<'_>>) -> Followed
    ensures { result ≡ followed_as (length lines.now) said.entry }
{
    match said {
        Ok(branches) => Followed::Found(branches),
        Err(unmet) => Followed::Unmet(unmet_line(lines, unmet.lines)),
    }
}

impl Follower for DerivationWalk {
    fn follow(
        alloc: Global,
        flat: &Flat,
        program: &Program,
        lines: &[ProofLine],
    ) -> Result<Followed, AllocError> {
        let said = follow_whole(alloc, flat, program.procs.as_slice(), lines)?;
        Ok(followed(lines, said))
    }
}
