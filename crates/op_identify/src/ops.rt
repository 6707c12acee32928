//! The operations of the words that were not met yet.

ghost use Rattle.std.specs.Prelude.{◌≡◌};
ghost use Rattle.nres_rules.specs.Identify.{next_op, other_ops};

use nres_core::Op;
use std::marker::Model;

/// The operations for the words that follow, in the order of the text.
#[derive(Drop)]
pub struct Ops<'a> {
    left: &'a [Op],
}

impl<'a> Model for Ops<'a> {
    ghost use Rattle.std.specs.Prelude.{List};
    ghost use Rattle.nres_core.specs.declared.op.Op.{Op as OpOf};

    ghost Value = { List OpOf };

    ghost view = { λ ops. ops.left.now };
}

impl<'a> Ops<'a> {
    /// The operations for all words.
    pub fn new(ops: &'a [Op]) -> Ops<'a>
        ensures { result ≡ ops.now }
    {
        Ops { left: ops }
    }

    /// The operation for the next word; a typing has one for each.
    pub fn take(&mut self) -> Op
        ensures op { result ≡ next_op self.old }
        ensures others { self.new ≡ other_ops self.old }
    {
        match self.left {
            [op, others @ ..] => {
                let op = *op;
                self.left = others;
                op
            }
            [] => Op::Len,
        }
    }
}
