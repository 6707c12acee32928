//! Paths in the fork tree.

ghost use Rattle.std.specs.Prelude.{◌≡◌, [], ◌∷◌, ◌++◌, IfOk, OnErr, OnOk};

use sqlite_items::Items;
use std::alloc::{AllocError, Global};
use std::marker::Model;

/// One of the two children of a fork.
#[derive(Clone, Copy, PartialEq, Eq, Debug)]
pub enum Side {
    /// The first branch of the `par`.
    Left,
    /// The second one.
    Right,
}

/// The way from the root of the fork tree to a leaf or a fork: a list of sides, none at the root.
#[derive(Drop)]
pub struct Path {
    sides: Items<Side>,
}

impl Model for Path {
    ghost use Rattle.std.specs.Prelude.{List};
    ghost use Rattle.target_meaning.specs.declared.path.Side.{Side};

    ghost Value = { List Side };

    ghost view = { λ path. path.sides };
}

impl Path {
    /// The root's path. It takes no memory.
    pub fn root(alloc: Global) -> Path
        ensures { result ≡ [] }
    {
        Path {
            sides: Items::new(alloc),
        }
    }

    /// Goes on to a child. Where memory is wanted the path is as before.
    pub fn push(&mut self, side: Side) -> Result<(), AllocError>
        ensures ok { OnOk result (self.new ≡ self.old ++ side ∷ []) }
        ensures err { OnErr result (self.new ≡ self.old) }
    {
        self.sides.push(side)
    }

    /// The same path.
    pub fn copy(&self, alloc: Global) -> Result<Path, AllocError>
        ensures { IfOk result (λ path. path ≡ self.now) }
    {
        Ok(Path {
            sides: Items::from_slice(alloc, self.sides.as_slice())?,
        })
    }

    /// The path of a child of the fork at this path.
    pub fn child(&self, alloc: Global, side: Side) -> Result<Path, AllocError>
        ensures { IfOk result (λ path. path ≡ self.now ++ side ∷ []) }
    {
        let mut path = self.copy(alloc)?;
        path.push(side)?;
        Ok(path)
    }

    /// The sides.
    pub fn sides(&self) -> &[Side]
        ensures { result.now ≡ self.now }
    {
        self.sides.as_slice()
    }
}
