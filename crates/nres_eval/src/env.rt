//! Names with their values.

ghost use Rattle.std.specs.Prelude.{◌≡◌, ◌-◌, ◌∷◌, [], drop, length, IfOk, OnOk};
ghost use Rattle.nres_core.specs.Mirror.{named_params};
ghost use Rattle.nres_meaning.specs.Meaning.{bound, value_of};

use nres_core::{Named, Param, Value};
use scopes::Scope;
use std::alloc::{AllocError, Global};
use std::marker::Model;
use target_code::Name;

/// The names in scope with their values, the last bound first.
#[derive(Drop)]
pub struct Env<'a> {
    alloc: Global,
    places: Scope<'a, usize>,
    values: Vec<Value>,
}

impl<'a> Model for Env<'a> {
    ghost use Rattle.std.specs.Prelude.{length};
    ghost use Rattle.nres_meaning.specs.Meaning as meaning;
    ghost use Rattle.nres_eval.specs.Environment.{seen, IsNumbered};
    ghost use Rattle.nres_core.specs.contracts.value.Value as e;
    ghost use Rattle.std.specs.Coded.{codes};

    ghost Value = { meaning.Env };

    ghost coded = { Prim.hlevel (codes, e.the_row.coded) };

    ghost view = { λ env. seen env.places env.values.items };

    ghost invariant = { λ env. IsNumbered env.places (length env.values.items) };
}

impl<'a> Env<'a> {
    /// No names. Takes no memory.
    pub fn new(alloc: Global) -> Env<'a>
        ensures { result ≡ [] }
    {
        Env {
            alloc,
            places: Scope::new(alloc),
            values: Vec::new(alloc),
        }
    }

    /// How many names were bound.
    pub fn len(&self) -> usize
        ensures { result ≡ length self.now }
    {
        self.values.len()
    }

    /// The value of a name; 0 where it is not bound.
    pub fn value(&self, name: &Name) -> Result<Value, AllocError>
        ensures { IfOk result (λ v. v ≡ value_of self.now name.now) }
    {
        let Some(place) = self.places.find(name.bytes()) else {
            return Ok(Value::Nat(0));
        };
        match sqlite_items::at(self.values.as_slice(), place) {
            Some(value) => value.share(),
            None => Ok(Value::Nat(0)),
        }
    }

    /// Binds a name, and hides what it stood for. Where there is no memory, no name is left.
    pub fn bind(&mut self, name: &'a Name, value: Value) -> Result<(), AllocError>
        ensures { OnOk result (self.new ≡ (name.now, value) ∷ self.old) }
    {
        let place = self.values.len();
        self.values.push(value)?;
        match self.places.bind(name.bytes(), place) {
            Ok(()) => Ok(()),
            Err(error) => {
                *self = Env::new(self.alloc);
                Err(error)
            }
        }
    }

    /// Binds names to values in their order; a name without a value stands for 0.
    pub fn bind_all(&mut self, names: &'a [Named], values: &[Value]) -> Result<(), AllocError>
        ensures { OnOk result (self.new ≡ bound names.now values.now self.old) }
    {
        let mut left = values;
        for named in names {
            let value = match left {
                [first, rest @ ..] => {
                    left = rest;
                    first.share()?
                }
                [] => Value::Nat(0),
            };
            self.bind(&named.name, value)?;
        }
        Ok(())
    }

    /// Binds parameters to values in their order; a parameter without a value stands for 0.
    pub fn bind_params(&mut self, params: &'a [Param], values: &[Value]) -> Result<(), AllocError>
        ensures { OnOk result (self.new ≡ bound (named_params params.now) values.now self.old) }
    {
        let mut left = values;
        for param in params {
            let value = match left {
                [first, rest @ ..] => {
                    left = rest;
                    first.share()?
                }
                [] => Value::Nat(0),
            };
            self.bind(&param.name, value)?;
        }
        Ok(())
    }

    /// Forgets the names that were bound since there were so many.
    pub fn leave(&mut self, mark: usize)
        ensures { self.new ≡ drop (length self.old - mark) self.old }
    {
        self.values.truncate(mark);
        self.places.leave(mark);
    }
}
