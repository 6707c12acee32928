//! What is told of a program that was followed.

ghost use Rattle.std.specs.Prelude.{List};
ghost use Rattle.fits.specs.Follow.{Line, Views};
ghost use Rattle.nres_core.specs.FlatTree.{FlatWhole};
ghost use Rattle.target_code.specs.declared.tree.Program.{Program as ProgramOf};
ghost use Rattle.proof_check.specs.Verdict.{IsFollowed, IsVerdict, StandsWith};

/// What following a derivation came to.
#[derive(Clone, Copy)]
pub enum Followed {
    /// The end of all lines, with so many branches.
    Found(u64),
    /// This line, counted from 1, which was not found.
    Unmet(u64),
}

/// The line that is told of a program, where it stands as a whole with so many branches, or does not, and where following
/// its derivation came to this. `None` exactly where it fits.
pub fn verdict(standing: Option<usize>, followed: Followed) -> Option<u64>
    ensures { (V : Views) (f : FlatWhole) (T : ProgramOf) (lines : List Line)
        → StandsWith f T standing → IsFollowed V f T lines followed → IsVerdict V f T lines result }
{
    let Some(branches) = standing else {
        return Some(1);
    };
    match followed {
        Followed::Unmet(line) => Some(line),
        Followed::Found(count) => {
            if count == branches as u64 {
                None
            } else {
                Some(1)
            }
        }
    }
}
