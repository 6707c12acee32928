//! What the lines of a text tell of names.

ghost use Rattle.std.specs.Prelude.{◌≡◌, [], IfOk, is_some};
ghost use Rattle.std.specs.List.{list_all};
ghost use Rattle.indexmap.specs.IndexMap.{keys};
ghost use Rattle.target_judge.specs.Shape.{guard};
ghost use Rattle.target_judge.specs.Numbers as numbers;
ghost use Rattle.target_judge.specs.Told as spec;

use indexmap::IndexMap;
use std::alloc::{AllocError, Global};
use std::marker::Model;

/// Numbers of names, in the order in which they were told.
#[derive(Drop)]
pub struct Numbers {
    entries: IndexMap<Vec<u8>, u64>,
}

impl Model for Numbers {
    ghost use Rattle.target_judge.specs.Numbers.{Numbers, numbers_of};

    ghost Value = { Numbers };

    ghost view = { λ n. numbers_of n.entries.entries };
}

impl Numbers {
    /// No number.
    pub fn new(alloc: Global) -> Numbers
        ensures { result ≡ [] }
    {
        Numbers {
            entries: IndexMap::new(alloc),
        }
    }

    /// The number of a name.
    pub fn number_of(&self, name: &[u8]) -> Option<u64>
        ensures { result ≡ numbers.number_of name.now self.now }
    {
        self.entries.get(name).copied()
    }

    /// Tells a number. Answers whether no other was told.
    pub fn tell(&mut self, alloc: Global, name: &[u8], number: u64) -> Result<bool, AllocError>
        ensures { IfOk result (λ fits. guard fits self.new ≡ numbers.tell_number name.now number self.old) }
    {
        match self.number_of(name) {
            Some(known) => Ok(known == number),
            None => {
                let mut key = Vec::new(alloc);
                key.extend_from_slice(name)?;
                self.entries.insert(key, number)?;
                Ok(true)
            }
        }
    }

    /// Whether each name has a number there.
    pub fn all_in(&self, others: &Numbers) -> bool
        ensures { result ≡ numbers.have_numbers others.now self.now }
    {
        keys_in(&self.entries, others)
    }
}

fn keys_in(entries: &IndexMap<Vec<u8>, u64>, others: &Numbers) -> bool
    ensures { result ≡ list_all (λ key. is_some (numbers.number_of key.items others.now)) (keys entries.now) }
{
    entries
        .keys()
        .all(|key| others.number_of(key.as_slice()).is_some())
}

/// What is told of procedures and inputs.
#[derive(Drop)]
pub struct Told {
    /// How many arguments a procedure takes.
    pub args: Numbers,
    /// How many results a procedure gives.
    pub results: Numbers,
    /// The place of a procedure that was given.
    pub given: Numbers,
    /// The place of an input.
    pub inputs: Numbers,
}

impl Told {
    /// Nothing is told.
    pub fn new(alloc: Global) -> Told
        ensures { result ≡ spec.nothing }
    {
        Told {
            args: Numbers::new(alloc),
            results: Numbers::new(alloc),
            given: Numbers::new(alloc),
            inputs: Numbers::new(alloc),
        }
    }
}

/// Tells how many arguments a procedure takes. Answers whether no other number was told.
#[tactic(auto, unfolding(crate::specs::Told::tell))]
pub fn tell_args(
    told: &mut Told,
    alloc: Global,
    name: &[u8],
    number: u64,
) -> Result<bool, AllocError>
    ensures { IfOk result (λ fits. guard fits told.new ≡ spec.tell spec.Args name.now number told.old) }
{
    told.args.tell(alloc, name, number)
}

/// Tells how many results a procedure gives. Answers whether no other number was told.
#[tactic(auto, unfolding(crate::specs::Told::tell))]
pub fn tell_results(
    told: &mut Told,
    alloc: Global,
    name: &[u8],
    number: u64,
) -> Result<bool, AllocError>
    ensures { IfOk result (λ fits. guard fits told.new ≡ spec.tell spec.Results name.now number told.old) }
{
    told.results.tell(alloc, name, number)
}

/// Tells at which place a procedure is given. Answers whether it stands at no other.
#[tactic(auto, unfolding(crate::specs::Told::tell))]
pub fn tell_given(
    told: &mut Told,
    alloc: Global,
    name: &[u8],
    number: u64,
) -> Result<bool, AllocError>
    ensures { IfOk result (λ fits. guard fits told.new ≡ spec.tell spec.Given name.now number told.old) }
{
    told.given.tell(alloc, name, number)
}

/// Tells at which place an input stands. Answers whether it stands at no other.
#[tactic(auto, unfolding(crate::specs::Told::tell))]
pub fn tell_input(
    told: &mut Told,
    alloc: Global,
    name: &[u8],
    number: u64,
) -> Result<bool, AllocError>
    ensures { IfOk result (λ fits. guard fits told.new ≡ spec.tell spec.Input name.now number told.old) }
{
    told.inputs.tell(alloc, name, number)
}
