//! The tree of a specification whose words stand for operations.

use crate::op::Op;
use crate::place::{Named, Place};
use crate::tree::{Chosen, Param, Shown};
use sqlite_items::{Boxed, Items};
use target_code::{Calc, Name};

/// A specification with its operations identified.
#[derive(Drop)]
pub struct Identified {
    /// Its name.
    pub name: Name,
    /// The parameters.
    pub params: Items<Param>,
    /// The results that it shows, at least one.
    pub shown: Items<Shown>,
    /// What it computes.
    pub body: IdBlock,
    /// Its procedures.
    pub funs: Items<IdFun>,
}

/// A procedure of such a specification.
#[derive(Drop)]
pub struct IdFun {
    /// Its name.
    pub name: Name,
    /// The place of the name.
    pub place: Place,
    /// The parameters.
    pub params: Items<Param>,
    /// The results, at least one.
    pub shown: Items<Shown>,
    /// What it computes.
    pub body: IdBlock,
}

/// Steps, and the results that they end with.
#[cycle(id_tree)]
#[derive(Drop)]
pub struct IdBlock {
    /// The steps, in order.
    pub steps: Items<IdStep>,
    /// The place of `return`.
    pub place: Place,
    /// The results, at least one.
    pub results: Items<IdExpr>,
}

/// A step of a block.
#[cycle(id_tree)]
#[derive(Drop)]
pub enum IdStep {
    /// Binds names to the results of a body.
    Bind {
        /// The names of the pattern, at least one.
        names: Items<Named>,
        /// The place of the pattern's first token.
        place: Place,
        /// What gives the results.
        body: IdBody,
    },
    /// Fails unless the test holds.
    Assert {
        /// The place of `assert`.
        place: Place,
        /// The test.
        test: IdExpr,
    },
}

/// What gives the results of a bind. A place is that of the construct's word.
#[cycle(id_tree)]
#[derive(Drop)]
pub enum IdBody {
    /// The value of an expression.
    Value(IdExpr),
    /// An element of a container, and the container without it: `pop` or `take_min`.
    Take {
        place: Place,
        word: Op,
        arg: IdExpr,
    },
    /// Any number from `low` up to and without `high`.
    Any {
        place: Place,
        low: IdExpr,
        high: IdExpr,
    },
    /// The results of one block or of the other.
    If {
        place: Place,
        test: IdExpr,
        yes: IdBlock,
        no: IdBlock,
    },
    /// Values that a block makes anew as long as a test holds of them.
    While {
        place: Place,
        vars: Items<Named>,
        vars_place: Place,
        starts: Items<IdExpr>,
        test: IdExpr,
        body: IdBlock,
    },
    /// The results of two blocks that run side by side.
    Par {
        place: Place,
        left: IdBlock,
        right: IdBlock,
    },
    /// The results of two blocks on the two parts of a list, side by side.
    Split {
        place: Place,
        list: Named,
        at: IdExpr,
        left_name: Named,
        left: IdBlock,
        right_name: Named,
        right: IdBlock,
    },
    /// The results of either block.
    Either {
        place: Place,
        left: IdBlock,
        right: IdBlock,
    },
    /// Values that a block makes anew for each element of a set, in any order.
    Foreach {
        place: Place,
        var: Named,
        over: Named,
        vars: Items<Named>,
        vars_place: Place,
        starts: Items<IdExpr>,
        body: IdBlock,
    },
    /// The results of a procedure.
    Call {
        place: Place,
        fun: Named,
        args: Items<IdExpr>,
    },
}

/// An expression. Its place is that of its first token; brackets round the whole do not count.
#[derive(Drop)]
pub enum IdExpr {
    /// A number.
    Num {
        place: Place,
        value: u64,
    },
    /// `true` or `false`.
    Truth {
        place: Place,
        value: bool,
    },
    /// A name that was bound before.
    Var(Named),
    /// A calculation on two expressions, `min` and `max` among them.
    Binary {
        place: Place,
        word: Calc,
        left: Boxed<IdExpr>,
        right: Boxed<IdExpr>,
    },
    /// The other truth value.
    Not {
        place: Place,
        arg: Boxed<IdExpr>,
    },
    /// An operation on a container; a constructor has the representation that was chosen for it.
    Apply {
        place: Place,
        word: Op,
        args: Items<IdExpr>,
        made: Option<Chosen>,
    },
}
