//! Procedures by their names.

ghost use Rattle.std.specs.Prelude.{◌≡◌, IfOk};
ghost use Rattle.std.specs.Option.{option_copied};
ghost use Rattle.nres_eval.specs.Procedures.{proc_named};

use nres_core::Fun;
use scopes::Scope;
use std::alloc::{AllocError, Global};
use std::marker::Model;
use target_code::Name;

/// Procedures, each found in the same time for any number of them.
#[derive(Drop)]
pub struct Procedures<'a> {
    funs: &'a [Fun],
    places: Scope<'a, usize>,
}

impl<'a> Model for Procedures<'a> {
    ghost use Rattle.std.specs.Prelude.{◌≡◌, List};
    ghost use Rattle.std.specs.Coded.{codes};
    ghost use Rattle.nres_core.specs.contracts.tree.Block as e;
    ghost use Rattle.nres_core.specs.declared.tree.Fun.{Fun as FunOf};
    ghost use Rattle.nres_eval.specs.Procedures.{numbered};

    ghost Value = { List FunOf };

    ghost coded = { Prim.hlevel (codes, e.the_row.coded) };

    ghost view = { λ p. p.funs.now };

    ghost invariant = { λ p. p.places ≡ numbered p.funs.now 0 };
}

impl<'a> Procedures<'a> {
    /// These procedures. Of those with one name the first is found.
    pub fn new(alloc: Global, funs: &'a [Fun]) -> Result<Procedures<'a>, AllocError>
        ensures { IfOk result (λ p. p ≡ funs.now) }
    {
        let mut places = Scope::new(alloc);
        let mut at = funs.len();
        while at > 0 {
            at -= 1;
            places.bind(funs[at].name.bytes(), at)?;
        }
        Ok(Procedures { funs, places })
    }

    /// The procedure of a name, if there is one.
    pub fn find(&self, name: &Name) -> Option<&'a Fun>
        ensures { option_copied result ≡ proc_named name.now self.now }
    {
        match self.places.find(name.bytes()) {
            Some(place) => sqlite_items::at(self.funs, place),
            None => None,
        }
    }
}
