//! The names in scope, the last bound first.

ghost use Rattle.std.specs.Prelude.{◌≡◌, ◌-◌, ◌∷◌, [], length, drop, OnOk};
ghost use Rattle.scopes.specs.Names.{all_but_last};
ghost use Rattle.scopes.specs.Names.{found_in};

use indexmap::IndexMap;
use std::alloc::{AllocError, Global};
use std::marker::Model;

/// A name with what it stands for, and what it stood for before.
#[derive(Drop)]
struct Binding<'a, V> {
    name: &'a [u8],
    value: V,
    before: Option<V>,
}

/// Names with what they stand for. A name that is bound again hides what it stood for until the later binding is forgotten.
#[derive(Drop)]
pub struct Scope<'a, V> {
    log: Vec<Binding<'a, V>>,
    latest: IndexMap<&'a [u8], Option<V>>,
}

impl<'a, V> Model for Scope<'a, V> {
    ghost use Rattle.std.specs.Prelude.{List, ℕ};
    ghost use Rattle.scopes.specs.Logs.{names_of, IsSound};

    ghost Value = { List (List ℕ × V) };

    ghost view = { λ s. names_of s.log.items };

    ghost invariant = { λ s. IsSound s.log.items s.latest };
}

impl<'a, V: Copy> Scope<'a, V> {
    /// No names. Takes no memory.
    pub fn new(alloc: Global) -> Scope<'a, V>
        ensures { result ≡ [] }
    {
        Scope {
            log: Vec::new(alloc),
            latest: IndexMap::new(alloc),
        }
    }

    /// How many names were bound, those that are hidden counted.
    pub fn len(&self) -> usize
        ensures { result ≡ length self.now }
    {
        self.log.len()
    }

    /// What a name stands for, if it is bound.
    pub fn find(&self, name: &[u8]) -> Option<V>
        ensures { result ≡ found_in self.now name.now }
    {
        match self.latest.get(name) {
            Some(found) => *found,
            None => None,
        }
    }

    /// Binds a name, and hides what it stood for. Where there is no memory, the names stay.
    pub fn bind(&mut self, name: &'a [u8], value: V) -> Result<(), AllocError>
        ensures { OnOk result (self.new ≡ (name.now, value) ∷ self.old) }
    {
        let before = self.find(name);
        self.log.reserve(1)?;
        self.latest.insert(name, Some(value))?;
        self.log
            .push(Binding {
                name,
                value,
                before,
            })
            .unwrap();
        Ok(())
    }

    /// Forgets the name that was bound last.
    fn forget(&mut self)
        ensures { self.new ≡ all_but_last self.old }
    {
        if let Some(Binding { name, before, .. }) = self.log.pop() {
            if self.latest.insert(name, before).is_err() {
                unreachable!();
            }
        }
    }

    /// Forgets the names that were bound since there were so many.
    pub fn leave(&mut self, mark: usize)
        ensures { self.new ≡ drop (length self.old - mark) self.old }
    {
        while self.len() > mark {
            self.forget();
        }
    }
}
