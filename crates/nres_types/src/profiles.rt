//! What procedures take and give.

ghost use Rattle.std.specs.Prelude.{◌≡◌, ◌++◌, [], length, IfOk, OnOk};
ghost use Rattle.nres_rules.specs.Types as types;
ghost use Rattle.nres_types.specs.Procedures.{profile_view, known_profile, shown_profile};

use indexmap::IndexMap;
use nres_core::{Fun, Param, Shown, Ty};
use std::alloc::{AllocError, Global};
use std::marker::Model;

/// What a procedure takes and gives.
#[derive(Drop)]
pub(crate) struct Profile {
    pub(crate) takes: Vec<Ty>,
    pub(crate) gives: Vec<Option<Ty>>,
}

/// The types of parameters.
pub(crate) fn param_types(alloc: Global, params: &[Param]) -> Result<Vec<Ty>, AllocError>
    ensures { IfOk result (λ us. us.items ≡ types.param_types params.now) }
{
    let mut types = Vec::new(alloc);
    for param in params {
        types.push(param.ty)?;
    }
    Ok(types)
}

/// The types of results that are shown. Each is known.
pub(crate) fn shown_types(alloc: Global, shown: &[Shown]) -> Result<Vec<Option<Ty>>, AllocError>
    ensures { IfOk result (λ us. us.items ≡ types.some_types (types.shown_types shown.now)) }
{
    let mut types = Vec::new(alloc);
    for one in shown {
        types.push(Some(one.ty))?;
    }
    Ok(types)
}

fn profile_of(alloc: Global, fun: &Fun) -> Result<Profile, AllocError>
    ensures { IfOk result (λ p. profile_view p ≡ (types.param_types fun.now.params, types.some_types (types.shown_types fun.now.shown))) }
{
    let takes = param_types(alloc, fun.params.as_slice())?;
    let gives = shown_types(alloc, fun.shown.as_slice())?;
    Ok(Profile { takes, gives })
}

/// The procedures of a specification. A look-up takes the same time for any number of procedures.
#[derive(Drop)]
pub(crate) struct Profiles<'a> {
    funs: &'a [Fun],
    first: IndexMap<&'a [u8], Profile>,
}

impl<'a> Model for Profiles<'a> {
    ghost use Rattle.std.specs.Prelude.{List};
    ghost use Rattle.nres_rules.specs.Types as kinds;
    ghost use Rattle.nres_types.specs.Firsts.{IsFirst};

    ghost Value = { List kinds.Profile };

    ghost view = { λ s. kinds.profiles s.funs.now };

    ghost invariant = { λ s. IsFirst s.funs.now s.first };
}

impl<'a> Profiles<'a> {
    pub(crate) fn new(alloc: Global, funs: &'a [Fun]) -> Result<Profiles<'a>, AllocError>
        ensures { IfOk result (λ ps. ps ≡ types.profiles funs.now) }
    {
        let mut first = IndexMap::new(alloc);
        for fun in funs {
            let name = fun.name.bytes();
            if !first.contains_key(name) {
                let profile = profile_of(alloc, fun)?;
                first.insert(name, profile)?;
            }
        }
        Ok(Profiles { funs, first })
    }

    /// The first procedure of a name.
    pub(crate) fn find(&self, name: &[u8]) -> Option<&Profile>
        ensures { shown_profile result ≡ known_profile (types.profile_at self.now name.now) }
    {
        let _funs = self.funs;
        self.first.get(name)
    }
}
