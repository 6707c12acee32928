//! The flat tree of a specification: one operation for each bind.

use crate::op::Op;
use crate::place::Place;
use sqlite_items::Items;
use target_code::{Calc, InParam, Name, Rep};

/// What a bind works on.
#[derive(Clone, Copy, PartialEq, Eq)]
pub enum Arg {
    /// A variable.
    Var(u32),
    /// A literal number.
    Num(u64),
    /// A literal truth value.
    Truth(bool),
}

/// A flat specification. Its variables are numbered through the whole text, in the order in which they are bound.
#[derive(Drop)]
pub struct Flat {
    /// The parameters, which are the first variables.
    pub params: Items<InParam>,
    /// The representations of the results.
    pub shown: Items<Rep>,
    /// What it computes.
    pub body: FlatBlock,
    /// For each variable the name to which it was first bound, or `_`.
    pub names: Items<Name>,
    /// Its procedures.
    pub funs: Items<FlatFun>,
}

/// A flat procedure.
#[derive(Drop)]
pub struct FlatFun {
    /// Its name.
    pub name: Name,
    /// The parameters.
    pub params: Items<InParam>,
    /// The representations of the results.
    pub shown: Items<Rep>,
    /// What it computes.
    pub body: FlatBlock,
}

/// Binds, and the results that they end with.
#[cycle(flat)]
#[derive(Drop)]
pub struct FlatBlock {
    /// The binds, in order.
    pub binds: Items<FlatBind>,
    /// The place of `return`.
    pub place: Place,
    /// The results.
    pub results: Items<Arg>,
}

/// A bind. `outs` are the variables of its results.
#[cycle(flat)]
#[derive(Drop)]
pub enum FlatBind {
    /// A calculation.
    Calc {
        place: Place,
        out: u32,
        word: Calc,
        left: Arg,
        right: Arg,
    },
    /// An operation on a container; a constructor has the representation that was chosen for it.
    Apply {
        place: Place,
        outs: Items<u32>,
        op: Op,
        made: Option<Rep>,
        args: Items<Arg>,
    },
    /// Fails unless the test holds, which the inner binds compute.
    Assert {
        place: Place,
        inner: Items<FlatBind>,
        test: Arg,
    },
    /// The results of one block or of the other.
    If {
        place: Place,
        outs: Items<u32>,
        test: Arg,
        yes: FlatBlock,
        no: FlatBlock,
    },
    /// Values that a block makes anew as long as a test holds of them, which the binds `cond` compute.
    While {
        place: Place,
        outs: Items<u32>,
        vars: Items<u32>,
        starts: Items<Arg>,
        cond: Items<FlatBind>,
        test: Arg,
        body: FlatBlock,
    },
    /// The results of two blocks that run side by side.
    Par {
        place: Place,
        outs: Items<u32>,
        left: FlatBlock,
        right: FlatBlock,
    },
    /// The results of two blocks on the two parts of a list, side by side.
    Split {
        place: Place,
        outs: Items<u32>,
        list: u32,
        at: Arg,
        left_var: u32,
        left: FlatBlock,
        right_var: u32,
        right: FlatBlock,
    },
    /// The results of either block.
    Either {
        place: Place,
        outs: Items<u32>,
        left: FlatBlock,
        right: FlatBlock,
    },
    /// Any number from `low` up to and without `high`.
    Any {
        place: Place,
        out: u32,
        low: Arg,
        high: Arg,
    },
    /// The results of a procedure, which is named by its number in text order from 0.
    Call {
        place: Place,
        outs: Items<u32>,
        fun: u32,
        args: Items<Arg>,
    },
}
