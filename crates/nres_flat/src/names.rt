//! The names of variables, which are numbered in the order in which they are bound.

ghost use Rattle.std.specs.Prelude.{◌≡◌, ◌++◌, ◌∷◌, [], length, OnOk, IfOk};
ghost use Rattle.nres_rules.specs.Flatten.{fresh, names_of, unnamed, vars as all_vars};
ghost use Rattle.nres_flat.specs.Adding.{named};

use nres_core::{Arg, Named};
use sqlite_items::Items;
use std::alloc::{AllocError, Global};
use std::marker::Model;
use target_code::Name;

/// The names of the variables that were bound.
#[derive(Drop)]
pub struct Names {
    list: Items<Name>,
    unnamed: Name,
}

impl Model for Names {
    ghost use Rattle.std.specs.Prelude.{◌≡◌, List, ℕ};
    ghost use Rattle.nres_rules.specs.Flatten.{unnamed as no_name};

    ghost Value = { List (List ℕ) };

    ghost view = { λ names. names.list };

    ghost invariant = { λ names. names.unnamed ≡ no_name };
}

impl Names {
    /// No variable.
    pub fn new(alloc: Global) -> Result<Names, AllocError>
        ensures { IfOk result (λ names. names ≡ []) }
    {
        match Name::new(alloc, b"_") {
            Ok(unnamed) => Ok(Names {
                list: Items::new(alloc),
                unnamed,
            }),
            Err(_) => Err(AllocError),
        }
    }

    /// The number of the next variable, which gets this name, or `_` where there is none. There is no memory for more names than
    /// 32 bits count.
    pub fn bind(&mut self, alloc: Global, name: Option<&Name>) -> Result<u32, AllocError>
        ensures number { IfOk result (λ k. k ≡ length self.old) }
        ensures names { OnOk result (self.new ≡ self.old ++ named name.entry ∷ []) }
    {
        let number = number(self.list.len())?;
        let name = match name {
            Some(name) => name.copy(alloc)?,
            None => self.unnamed.copy(alloc)?,
        };
        self.list.push(name)?;
        Ok(number)
    }

    /// The numbers of the next variables, which get the names of a pattern.
    pub fn bind_all(&mut self, alloc: Global, names: &[Named]) -> Result<Items<u32>, AllocError>
        ensures numbers { IfOk result (λ ks. ks ≡ fresh names.now (length self.old)) }
        ensures names { OnOk result (self.new ≡ self.old ++ names_of names.now) }
    {
        let mut numbers = Items::new(alloc);
        'each: for item in names {
            numbers.push(self.bind(alloc, Some(&item.name))?)?;
        }
        Ok(numbers)
    }

    /// The names, in the order of the numbers.
    pub fn into_list(self) -> Items<Name>
        ensures { result ≡ self }
    {
        self.list
    }
}

/// A count as the number of a variable or of a procedure. There is no memory for more than 32 bits count.
pub fn number(count: usize) -> Result<u32, AllocError>
    ensures { IfOk result (λ n. n ≡ count) }
{
    u32::try_from(count).map_err(|_| AllocError)
}

/// Variables as arguments.
pub fn vars(alloc: Global, numbers: &[u32]) -> Result<Items<Arg>, AllocError>
    ensures { IfOk result (λ us. us ≡ all_vars numbers.now) }
{
    let mut args = Items::new(alloc);
    'each: for number in numbers {
        args.push(Arg::Var(*number))?;
    }
    Ok(args)
}

/// The next variables, which get the names of a pattern: their numbers, and they as arguments.
pub fn outs(
    alloc: Global,
    pattern: &[Named],
    names: &mut Names,
) -> Result<(Items<u32>, Items<Arg>), AllocError>
    ensures numbers { IfOk result (λ r. r.0 ≡ fresh pattern.now (length names.old)) }
    ensures args { IfOk result (λ r. r.1 ≡ all_vars (fresh pattern.now (length names.old))) }
    ensures names { OnOk result (names.new ≡ names.old ++ names_of pattern.now) }
{
    let numbers = names.bind_all(alloc, pattern)?;
    let args = vars(alloc, numbers.as_slice())?;
    Ok((numbers, args))
}
