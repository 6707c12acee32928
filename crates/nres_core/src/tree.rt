//! The tree of a specification.

use crate::op::Op;
use crate::place::{Named, Place};
use crate::ty::Ty;
use crate::value::Value;
use sqlite_items::{Boxed, Items};
use target_code::{Calc, Name, Rep};

/// A specification: what it takes, what it shows, and its procedures in the order of the text.
#[derive(Drop)]
pub struct Spec {
    /// Its name.
    pub name: Name,
    /// The parameters.
    pub params: Items<Param>,
    /// The results that it shows, at least one.
    pub shown: Items<Shown>,
    /// What it computes.
    pub body: Block,
    /// Its procedures.
    pub funs: Items<Fun>,
}

/// A procedure of a specification.
#[derive(Drop)]
pub struct Fun {
    /// Its name.
    pub name: Name,
    /// The place of the name.
    pub place: Place,
    /// The parameters; a slice has the representation `Slice`.
    pub params: Items<Param>,
    /// The results, at least one.
    pub shown: Items<Shown>,
    /// What it computes.
    pub body: Block,
}

/// A parameter.
#[derive(Drop)]
pub struct Param {
    /// Its name.
    pub name: Name,
    /// The place of the name.
    pub place: Place,
    /// The type of its value.
    pub ty: Ty,
    /// How the value lies in memory; `Word` for numbers, `Flag` for truth values.
    pub rep: Rep,
    /// The place of the representation's word, or of `nat` or `bool`.
    pub rep_place: Place,
    /// Whether the value is given back unchanged.
    pub kept: bool,
}

/// A result that is shown.
#[derive(Clone, Copy, PartialEq, Eq)]
pub struct Shown {
    /// The type of its value.
    pub ty: Ty,
    /// How the value lies in memory; `Word` for numbers, `Flag` for truth values.
    pub rep: Rep,
    /// The place of the representation's word, or of `nat` or `bool`.
    pub rep_place: Place,
}

/// The representation that a constructor of a container is written with.
#[derive(Clone, Copy, PartialEq, Eq)]
pub struct Chosen {
    /// The representation.
    pub rep: Rep,
    /// The place of its word.
    pub place: Place,
}

/// Steps, and the results that they end with.
#[cycle(tree)]
#[derive(Drop)]
pub struct Block {
    /// The steps, in order.
    pub steps: Items<Step>,
    /// The place of `return`.
    pub place: Place,
    /// The results, at least one.
    pub results: Items<Expr>,
}

/// A step of a block.
#[cycle(tree)]
#[derive(Drop)]
pub enum Step {
    /// Binds names to the results of a body.
    Bind {
        /// The names of the pattern, at least one.
        names: Items<Named>,
        /// The place of the pattern's first token.
        place: Place,
        /// What gives the results.
        body: Body,
    },
    /// Fails unless the test holds.
    Assert {
        /// The place of `assert`.
        place: Place,
        /// The test.
        test: Expr,
    },
}

/// What gives the results of a bind. A place is that of the construct's word.
#[cycle(tree)]
#[derive(Drop)]
pub enum Body {
    /// The value of an expression.
    Value(Expr),
    /// An element of a container, and the container without it: `pop` or `take_min`.
    Take {
        place: Place,
        word: Name,
        arg: Expr,
    },
    /// Any number from `low` up to and without `high`.
    Any {
        place: Place,
        low: Expr,
        high: Expr,
    },
    /// The results of one block or of the other.
    If {
        place: Place,
        test: Expr,
        yes: Block,
        no: Block,
    },
    /// Values that a block makes anew as long as a test holds of them.
    While {
        place: Place,
        vars: Items<Named>,
        vars_place: Place,
        starts: Items<Expr>,
        test: Expr,
        body: Block,
    },
    /// The results of two blocks that run side by side.
    Par {
        place: Place,
        left: Block,
        right: Block,
    },
    /// The results of two blocks on the two parts of a list, side by side.
    Split {
        place: Place,
        list: Named,
        at: Expr,
        left_name: Named,
        left: Block,
        right_name: Named,
        right: Block,
    },
    /// The results of either block.
    Either {
        place: Place,
        left: Block,
        right: Block,
    },
    /// Values that a block makes anew for each element of a set, in any order.
    Foreach {
        place: Place,
        var: Named,
        over: Named,
        vars: Items<Named>,
        vars_place: Place,
        starts: Items<Expr>,
        body: Block,
    },
    /// The results of a procedure.
    Call {
        place: Place,
        fun: Named,
        args: Items<Expr>,
    },
}

/// An expression. Its place is that of its first token; brackets round the whole do not count.
#[derive(Drop)]
pub enum Expr {
    /// A number.
    Num {
        place: Place,
        value: u64,
    },
    /// `true` or `false`.
    Truth {
        place: Place,
        value: bool,
    },
    /// A name that was bound before.
    Var(Named),
    /// A calculation on two expressions, `min` and `max` among them.
    Binary {
        place: Place,
        word: Calc,
        left: Boxed<Expr>,
        right: Boxed<Expr>,
    },
    /// The other truth value.
    Not {
        place: Place,
        arg: Boxed<Expr>,
    },
    /// An operation on a container; a constructor has the representation that was chosen for it.
    Apply {
        place: Place,
        word: Name,
        args: Items<Expr>,
        made: Option<Chosen>,
    },
}

/// A value that a text gives to a parameter.
#[derive(Drop)]
pub struct With {
    /// The name of the parameter.
    pub name: Name,
    /// The place of the name.
    pub place: Place,
    /// The value.
    pub value: Value,
}

/// The types of a specification, in the order of its text.
#[derive(Drop)]
pub struct Typing {
    /// The types of all names that are bound.
    pub binders: Items<Ty>,
    /// The operation of each operation word.
    pub words: Items<Op>,
}
