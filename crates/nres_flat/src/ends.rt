//! The last bind of a body, for new variables with the names of a pattern, and what the results stand for.

ghost use Rattle.std.specs.Prelude.{◌≡◌, ◌∷◌, ◌++◌, [], length, IfOk, OnOk};
ghost use Rattle.nres_rules.specs.Flatten.{vars as all_vars, fresh, names_of};
ghost use Rattle.nres_core.specs.declared.flat.FlatBind.TheVariants as flat_binds;

use crate::names::{Names, outs};
use nres_core::{Arg, FlatBind, FlatBlock, Named, Place};
use sqlite_items::Items;
use std::alloc::{AllocError, Global};

/// A choice by this test.
pub fn end_if(
    alloc: Global,
    place: Place,
    pattern: &[Named],
    test: Arg,
    blocks: (FlatBlock, FlatBlock),
    names: &mut Names,
    binds: &mut Items<FlatBind>,
) -> Result<Items<Arg>, AllocError>
    ensures results { IfOk result (λ us. us ≡ all_vars (fresh pattern.now (length names.old))) }
    ensures binds { OnOk result (binds.new ≡ binds.old ++ flat_binds.If place (fresh pattern.now (length names.old)) test blocks.0 blocks.1 ∷ []) }
    ensures names { OnOk result (names.new ≡ names.old ++ names_of pattern.now) }
{
    match outs(alloc, pattern, names) {
        Ok((outs, results)) => {
            let (yes, no) = blocks;
            binds.push(FlatBind::If {
                place,
                outs,
                test,
                yes,
                no,
            })?;
            Ok(results)
        }
        Err(error) => {
            drop(blocks);
            Err(error)
        }
    }
}

/// Two blocks side by side.
pub fn end_par(
    alloc: Global,
    place: Place,
    pattern: &[Named],
    left: FlatBlock,
    right: FlatBlock,
    names: &mut Names,
    binds: &mut Items<FlatBind>,
) -> Result<Items<Arg>, AllocError>
    ensures results { IfOk result (λ us. us ≡ all_vars (fresh pattern.now (length names.old))) }
    ensures binds { OnOk result (binds.new ≡ binds.old ++ flat_binds.Par place (fresh pattern.now (length names.old)) left right ∷ []) }
    ensures names { OnOk result (names.new ≡ names.old ++ names_of pattern.now) }
{
    match outs(alloc, pattern, names) {
        Ok((outs, results)) => {
            binds.push(FlatBind::Par {
                place,
                outs,
                left,
                right,
            })?;
            Ok(results)
        }
        Err(error) => {
            drop((left, right));
            Err(error)
        }
    }
}

/// One block or the other.
pub fn end_either(
    alloc: Global,
    place: Place,
    pattern: &[Named],
    left: FlatBlock,
    right: FlatBlock,
    names: &mut Names,
    binds: &mut Items<FlatBind>,
) -> Result<Items<Arg>, AllocError>
    ensures results { IfOk result (λ us. us ≡ all_vars (fresh pattern.now (length names.old))) }
    ensures binds { OnOk result (binds.new ≡ binds.old ++ flat_binds.Either place (fresh pattern.now (length names.old)) left right ∷ []) }
    ensures names { OnOk result (names.new ≡ names.old ++ names_of pattern.now) }
{
    match outs(alloc, pattern, names) {
        Ok((outs, results)) => {
            binds.push(FlatBind::Either {
                place,
                outs,
                left,
                right,
            })?;
            Ok(results)
        }
        Err(error) => {
            drop((left, right));
            Err(error)
        }
    }
}

/// A call of the procedure with this number.
pub fn end_call(
    alloc: Global,
    place: Place,
    pattern: &[Named],
    fun: u32,
    args: Items<Arg>,
    names: &mut Names,
    binds: &mut Items<FlatBind>,
) -> Result<Items<Arg>, AllocError>
    ensures results { IfOk result (λ us. us ≡ all_vars (fresh pattern.now (length names.old))) }
    ensures binds { OnOk result (binds.new ≡ binds.old ++ flat_binds.Call place (fresh pattern.now (length names.old)) fun args ∷ []) }
    ensures names { OnOk result (names.new ≡ names.old ++ names_of pattern.now) }
{
    let (outs, results) = outs(alloc, pattern, names)?;
    binds.push(FlatBind::Call {
        place,
        outs,
        fun,
        args,
    })?;
    Ok(results)
}
