//! Two blocks on the two parts of a list: the name of a part, and the bind.

ghost use Rattle.std.specs.Prelude.{◌≡◌, ◌∷◌, ◌++◌, [], length, IfOk, OnOk};
ghost use Rattle.nres_core.specs.FlatTree.{No_bind, ◌+++◌, before_of, binds_of, flats_of};
ghost use Rattle.nres_rules.specs.Flatten.{Parts, flats, fresh, names_of, split_bind, vars as all_vars};
ghost use Rattle.nres_core.specs.declared.flat.Arg.TheVariants as args;
ghost use Rattle.nres_core.specs.declared.place.Place.{Place as PlaceOf};

use crate::names::{Names, outs};
use nres_core::{Arg, FlatBind, FlatBlock, Named, Place};
use scopes::Scope;
use sqlite_items::Items;
use std::alloc::{AllocError, Global};

/// A new variable for the name of a part, which is in scope from here on.
pub fn enter<'a>(
    alloc: Global,
    name: &'a Named,
    scope: &mut Scope<'a, Arg>,
    names: &mut Names,
) -> Result<u32, AllocError>
    ensures number { IfOk result (λ k. k ≡ length names.old) }
    ensures names { OnOk result (names.new ≡ names.old ++ name.now.name ∷ []) }
    ensures scope { OnOk result (scope.new ≡ (name.now.name, args.Var (length names.old)) ∷ scope.old) }
{
    let number = names.bind(alloc, Some(&name.name))?;
    scope.bind(name.name.bytes(), Arg::Var(number))?;
    Ok(number)
}

/// A list that is divided, and where.
#[derive(Clone, Copy)]
pub struct Cut {
    pub place: Place,
    pub list: Arg,
    pub at: Arg,
}

/// The bind of a division. A typed tree divides variables alone; of no other list there is a part, so that nothing can be assumed.
fn split(
    alloc: Global,
    cut: Cut,
    outs: Items<u32>,
    left: (u32, FlatBlock),
    right: (u32, FlatBlock),
) -> FlatBind
    ensures { (l r : Parts) (p q : PlaceOf) → flats_of left.1 ≡ flats p l → flats_of right.1 ≡ flats q r → before_of result No_bind ≡ split_bind cut.place outs cut.list cut.at left.0 l p right.0 r q }
{
    let Cut { place, list, at } = cut;
    match list {
        Arg::Var(list) => FlatBind::Split {
            place,
            outs,
            list,
            at,
            left_var: left.0,
            left: left.1,
            right_var: right.0,
            right: right.1,
        },
        _ => {
            drop((outs, left, right));
            FlatBind::Assert {
                place,
                inner: Items::new(alloc),
                test: Arg::Truth(false),
            }
        }
    }
}

/// The last bind of a division, and what the results stand for. Of each part there is its variable and its block.
pub fn end_split(
    alloc: Global,
    cut: Cut,
    pattern: &[Named],
    left: (u32, FlatBlock),
    right: (u32, FlatBlock),
    names: &mut Names,
    binds: &mut Items<FlatBind>,
) -> Result<Items<Arg>, AllocError>
    ensures results { IfOk result (λ us. us ≡ all_vars (fresh pattern.now (length names.old))) }
    ensures binds { OnOk result ((l r : Parts) (p q : PlaceOf) → flats_of left.1 ≡ flats p l → flats_of right.1 ≡ flats q r → binds_of binds.new ≡ binds_of binds.old +++ split_bind cut.place (fresh pattern.now (length names.old)) cut.list cut.at left.0 l p right.0 r q) }
    ensures names { OnOk result (names.new ≡ names.old ++ names_of pattern.now) }
{
    match outs(alloc, pattern, names) {
        Ok((outs, results)) => {
            binds.push(split(alloc, cut, outs, left, right))?;
            Ok(results)
        }
        Err(error) => {
            drop((left, right));
            Err(error)
        }
    }
}
