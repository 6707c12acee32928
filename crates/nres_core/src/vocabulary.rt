//! The words of operations, and what each operation takes and gives.

ghost use Rattle.std.specs.Prelude.{◌≡◌, ◌≤◌, Some, map};
ghost use Rattle.nres_core.specs.Vocabulary.{looseness};
ghost use Rattle.nres_core.specs.Operations.{any_of, at_type, entry, entry_value, in_table, meant, meant_arity, meant_is_bare, meant_is_taking, rep_type, value_type};

use crate::Ty::{Bag, List, Map, Nat, Set};
use crate::{Op, Ty, Value};
use target_code::{Calc, Rep};

/// What an operation takes and gives.
#[derive(Clone, Copy)]
pub enum OpEntry {
    /// It takes values of these types and gives one of that type.
    Gives(&'static [Ty], Ty),
    /// It makes a container of that type anew, in a representation that the text chooses.
    Makes(&'static [Ty], Ty),
    /// It takes an element out of a container of this type, and gives the element and the container without it.
    TakesOut(Ty),
}

/// The operations of a word for each type of containers.
#[derive(Clone, Copy)]
pub struct ByType {
    /// For lists.
    pub list: Option<Op>,
    /// For sets.
    pub set: Option<Op>,
    /// For maps.
    pub map: Option<Op>,
    /// For multisets.
    pub bag: Option<Op>,
}

/// What an operation word stands for.
#[derive(Clone, Copy)]
pub enum Meant {
    /// An operation.
    Always(Op),
    /// The operation for the type of the first argument, and what each of them gives, where they give the same.
    ByFirst(ByType, Option<Ty>),
    /// The operation for the type of the representation that is chosen.
    ByMade(ByType),
}

/// `copy`.
const COPY: ByType = ByType {
    list: Some(Op::CopyList),
    set: Some(Op::CopySet),
    map: Some(Op::CopyMap),
    bag: Some(Op::CopyBag),
};

/// `empty`.
const EMPTY: ByType = ByType {
    list: None,
    set: Some(Op::EmptySet),
    map: Some(Op::EmptyMap),
    bag: Some(Op::EmptyBag),
};

/// `size`.
const SIZE: ByType = ByType {
    list: None,
    set: Some(Op::SizeSet),
    map: Some(Op::SizeMap),
    bag: Some(Op::SizeBag),
};

/// `has`.
const HAS: ByType = ByType {
    list: None,
    set: Some(Op::HasSet),
    map: Some(Op::HasMap),
    bag: None,
};

/// The operation words.
pub const OPERATION_WORDS: [(&[u8], Meant); 24] = [
    (b"zeros", Meant::Always(Op::Zeros)),
    (b"nil", Meant::Always(Op::Nil)),
    (b"len", Meant::Always(Op::Len)),
    (b"get", Meant::Always(Op::Get)),
    (b"set", Meant::Always(Op::SetAt)),
    (b"swap", Meant::Always(Op::Swap)),
    (b"push", Meant::Always(Op::Push)),
    (b"pop", Meant::Always(Op::Pop)),
    (b"copy", Meant::ByFirst(COPY, None)),
    (b"empty", Meant::ByMade(EMPTY)),
    (b"size", Meant::ByFirst(SIZE, Some(Nat))),
    (b"has", Meant::ByFirst(HAS, Some(Ty::Bool))),
    (b"insert", Meant::Always(Op::Insert)),
    (b"remove", Meant::Always(Op::Remove)),
    (b"pick", Meant::Always(Op::Pick)),
    (b"union", Meant::Always(Op::Union)),
    (b"elems", Meant::Always(Op::Elems)),
    (b"lookup", Meant::Always(Op::Lookup)),
    (b"put", Meant::Always(Op::Put)),
    (b"del", Meant::Always(Op::Del)),
    (b"keys", Meant::Always(Op::Keys)),
    (b"add", Meant::Always(Op::Add)),
    (b"minimum", Meant::Always(Op::Minimum)),
    (b"take_min", Meant::Always(Op::TakeMin)),
];

impl Op {
    /// What the operation takes and gives.
    pub fn entry(self) -> OpEntry
        ensures { entry_value result ≡ entry self }
    {
        match self {
            Op::Zeros => OpEntry::Makes(&[Nat], List),
            Op::Nil => OpEntry::Makes(&[], List),
            Op::Len => OpEntry::Gives(&[List], Nat),
            Op::Get => OpEntry::Gives(&[List, Nat], Nat),
            Op::SetAt => OpEntry::Gives(&[List, Nat, Nat], List),
            Op::Swap => OpEntry::Gives(&[List, Nat, Nat], List),
            Op::Push => OpEntry::Gives(&[List, Nat], List),
            Op::Pop => OpEntry::TakesOut(List),
            Op::CopyList => OpEntry::Gives(&[List], List),
            Op::EmptySet => OpEntry::Makes(&[], Set),
            Op::SizeSet => OpEntry::Gives(&[Set], Nat),
            Op::HasSet => OpEntry::Gives(&[Set, Nat], Ty::Bool),
            Op::Insert => OpEntry::Gives(&[Set, Nat], Set),
            Op::Remove => OpEntry::Gives(&[Set, Nat], Set),
            Op::Pick => OpEntry::Gives(&[Set], Nat),
            Op::Union => OpEntry::Gives(&[Set, Set], Set),
            Op::Elems => OpEntry::Gives(&[Set], List),
            Op::CopySet => OpEntry::Gives(&[Set], Set),
            Op::EmptyMap => OpEntry::Makes(&[], Map),
            Op::SizeMap => OpEntry::Gives(&[Map], Nat),
            Op::HasMap => OpEntry::Gives(&[Map, Nat], Ty::Bool),
            Op::Lookup => OpEntry::Gives(&[Map, Nat], Nat),
            Op::Put => OpEntry::Gives(&[Map, Nat, Nat], Map),
            Op::Del => OpEntry::Gives(&[Map, Nat], Map),
            Op::Keys => OpEntry::Gives(&[Map], List),
            Op::CopyMap => OpEntry::Gives(&[Map], Map),
            Op::EmptyBag => OpEntry::Makes(&[], Bag),
            Op::SizeBag => OpEntry::Gives(&[Bag], Nat),
            Op::Add => OpEntry::Gives(&[Bag, Nat], Bag),
            Op::Minimum => OpEntry::Gives(&[Bag], Nat),
            Op::TakeMin => OpEntry::TakesOut(Bag),
            Op::CopyBag => OpEntry::Gives(&[Bag], Bag),
        }
    }
}

impl Meant {
    /// On how many atoms a word stands in an expression.
    pub fn arity(self) -> Option<usize>
        ensures { result ≡ meant_arity (Some self) }
    {
        let op = match self {
            Meant::Always(op) => op,
            Meant::ByFirst(ops, _) => ops.any()?,
            Meant::ByMade(_) => return None,
        };
        match op.entry() {
            OpEntry::Gives(takes, _) => Some(takes.len()),
            OpEntry::Makes(_, _) | OpEntry::TakesOut(_) => None,
        }
    }

    /// Whether a word makes a container from nothing.
    pub fn is_bare(self) -> bool
        ensures { result ≡ meant_is_bare (Some self) }
    {
        match self {
            Meant::Always(op) => match op.entry() {
                OpEntry::Makes(takes, _) => takes.is_empty(),
                OpEntry::Gives(_, _) | OpEntry::TakesOut(_) => false,
            },
            Meant::ByFirst(_, _) => false,
            Meant::ByMade(_) => true,
        }
    }

    /// Whether a word takes an element out of a container.
    pub fn is_taking(self) -> bool
        ensures { result ≡ meant_is_taking (Some self) }
    {
        match self {
            Meant::Always(op) => matches!(op.entry(), OpEntry::TakesOut(_)),
            Meant::ByFirst(_, _) | Meant::ByMade(_) => false,
        }
    }
}

impl ByType {
    /// The operation for a type; there is none for numbers and truth values.
    pub fn at(self, ty: Ty) -> Option<Op>
        ensures { result ≡ at_type ty self }
    {
        match ty {
            Nat | Ty::Bool => None,
            List => self.list,
            Set => self.set,
            Map => self.map,
            Bag => self.bag,
        }
    }

    /// The operation for the first type that has one.
    pub fn any(self) -> Option<Op>
        ensures { result ≡ any_of self }
    {
        self.list.or(self.set).or(self.map).or(self.bag)
    }
}

impl Value {
    /// The type of the value.
    pub fn ty(&self) -> Ty
        ensures { result ≡ value_type self.now }
    {
        match self {
            Value::Nat(_) => Nat,
            Value::Bool(_) => Ty::Bool,
            Value::List(_) => List,
            Value::Set(_) => Set,
            Value::Map(_) => Map,
            Value::Bag(_) => Bag,
        }
    }
}

/// The type that a representation is of.
pub fn rep_type(rep: Rep) -> Ty
    ensures { result ≡ rep_type rep }
{
    match rep {
        Rep::Word => Nat,
        Rep::Flag => Ty::Bool,
        Rep::Array | Rep::Slice | Rep::Vec => List,
        Rep::Bits(_) | Rep::Hset => Set,
        Rep::Amap(_) | Rep::Hmap => Map,
        Rep::Heap => Bag,
    }
}

fn in_table(table: &[(&[u8], Meant)], word: &[u8]) -> Option<Meant>
    ensures { result ≡ in_table word.now (map (λ x. (x.0.now, x.1)) table.now) }
{
    for (known, meant) in table {
        if word == *known {
            return Some(*meant);
        }
    }
    None
}

/// What a word stands for; none where it is no operation word.
pub fn look_up(word: &[u8]) -> Option<Meant>
    ensures { result ≡ meant word.now }
{
    in_table(&OPERATION_WORDS, word)
}

/// How loosely a sign binds, from 1 to 5; a word binds as an application does.
pub fn looseness(word: Calc) -> u8
    ensures value { result ≡ looseness word }
    ensures small { result ≤ 5 }
{
    match word {
        Calc::Mul | Calc::Div | Calc::Mod => 1,
        Calc::Add | Calc::Sub => 2,
        Calc::Lt | Calc::Le | Calc::Eq | Calc::Ne => 3,
        Calc::And => 4,
        Calc::Or => 5,
        Calc::Min | Calc::Max | Calc::Xor | Calc::Shl | Calc::Shr => 0,
    }
}
