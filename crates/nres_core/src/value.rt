//! Values of specifications.

ghost use Rattle.std.specs.Prelude.{◌≡◌, IfOk};

use containers::{NumBag, NumMap, NumSet, Nums};
use std::alloc::AllocError;

/// What a name stands for.
#[derive(Drop)]
pub enum Value {
    /// A number.
    Nat(u64),
    /// A truth value.
    Bool(bool),
    /// A list.
    List(Nums),
    /// A finite set.
    Set(NumSet),
    /// A finite map.
    Map(NumMap),
    /// A multiset.
    Bag(NumBag),
}

impl Value {
    /// The same value. A container shares all its parts, so that it takes no time to copy a large one.
    pub fn share(&self) -> Result<Value, AllocError>
        ensures { IfOk result (λ v. v ≡ self.now) }
    {
        match self {
            Value::Nat(number) => Ok(Value::Nat(*number)),
            Value::Bool(truth) => Ok(Value::Bool(*truth)),
            Value::List(list) => Ok(Value::List(list.share()?)),
            Value::Set(set) => Ok(Value::Set(set.share()?)),
            Value::Map(map) => Ok(Value::Map(map.share()?)),
            Value::Bag(bag) => Ok(Value::Bag(bag.share()?)),
        }
    }
}
