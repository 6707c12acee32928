//! What conditions and asserts tell of numbers.

ghost use Rattle.std.specs.Prelude.{◌≡◌, ◌++◌, [], drop, IfOk, OnOk};
ghost use Rattle.nres_core.specs.FlatTree.{Binds, before_of, binds_of};
ghost use Rattle.rule_check.specs.Facts.{defs_behind, defs_in, learnt};
ghost use Rattle.facts.specs.Kept.{defs_from, is_behind, since, told_of};
ghost use Rattle.facts.specs.Stacks.{defs_of, AllCover};

use crate::calculations::{Calculation, Calculations, Kept, split_last, stands_before};
use crate::known::{Fact, Facts};
use crate::wanted::{tell, want};
use indexmap::IndexSet;
use nres_core::{Arg, FlatBind, Place};
use std::alloc::{AllocError, Global};

/// Whether a place, where one is given, stands before another.
fn is_behind(place: Option<Place>, other: Place) -> bool
    ensures { result ≡ is_behind place other }
{
    match place {
        Some(place) => stands_before(place, other),
        None => true,
    }
}

/// The facts that hold where a value does, by the calculations that stand behind a place, or by all. It ends where none up to a
/// calculation stands behind the place.
fn told(
    alloc: Global,
    kept: &[Kept],
    place: Option<Place>,
    test: Arg,
) -> Result<Vec<Fact>, AllocError>
    requires { AllCover kept.now [] }
    ensures { IfOk result (λ facts. told_of facts.items ≡ learnt (defs_from place (defs_of kept.now [])) test) }
{
    let mut found = Vec::new(alloc);
    let mut wanted = IndexSet::new(alloc);
    want(&mut wanted, test)?;
    let mut left = kept;
    'each: while let Some((before, last)) = split_last(left) {
        if !is_behind(place, last.latest) {
            break;
        }
        if is_behind(place, last.calculation.place) && wanted.contains(&last.calculation.to) {
            tell(&last.calculation, &mut wanted, &mut found)?;
        }
        left = before;
    }
    Ok(found)
}

impl Calculations {
    /// Adds the facts that hold where a condition does, by the calculations since a mark that stand behind a place.
    pub fn learn_if(
        &self,
        alloc: Global,
        start: usize,
        place: Place,
        test: Arg,
        facts: &mut Facts,
    ) -> Result<(), AllocError>
        ensures { OnOk result (facts.new ≡ learnt (defs_behind place (since start self.now)) test ++ facts.old) }
    {
        let kept = newest(self.list.as_slice(), start);
        let found = told(alloc, kept, Some(place), test)?;
        facts.know_all(found.as_slice())
    }

    /// Adds the facts that hold where a condition does, by the calculations since a mark.
    pub fn learn_all(
        &self,
        alloc: Global,
        start: usize,
        test: Arg,
        facts: &mut Facts,
    ) -> Result<(), AllocError>
        ensures { OnOk result (facts.new ≡ learnt (since start self.now) test ++ facts.old) }
    {
        let kept = newest(self.list.as_slice(), start);
        let found = told(alloc, kept, None, test)?;
        facts.know_all(found.as_slice())
    }

    /// Adds the facts that hold where the test of an assert does. Its binds are forgotten again.
    pub fn learn_assert(
        &mut self,
        alloc: Global,
        inner: &[FlatBind],
        test: Arg,
        facts: &mut Facts,
    ) -> Result<(), AllocError>
        ensures facts { OnOk result (facts.new ≡ learnt (defs_in (binds_of inner.now) []) test ++ facts.old) }
        ensures calculations { OnOk result (self.new ≡ self.old) }
    {
        let start = self.len();
        self.add_all(inner)?;
        self.learn_all(alloc, start, test, facts)?;
        self.leave(start);
        Ok(())
    }

    /// Adds the calculations of a list of binds, those in its blocks not counted.
    fn add_all(&mut self, binds: &[FlatBind]) -> Result<(), AllocError>
        ensures { OnOk result (self.new ≡ defs_in (binds_of binds.now) self.old) }
    {
        'each: for bind in binds {
            self.add_bind(bind)?;
        }
        Ok(())
    }

    /// Adds a bind, where it is a calculation.
    fn add_bind(&mut self, bind: &FlatBind) -> Result<(), AllocError>
        ensures { OnOk result ((rest : Binds) → defs_in (before_of bind.now rest) self.old ≡ defs_in rest self.new) }
    {
        match bind {
            FlatBind::Calc {
                place,
                out,
                word,
                left,
                right,
            } => self.add(Calculation {
                place: *place,
                to: *out,
                word: *word,
                left: *left,
                right: *right,
            }),
            _ => Ok(()),
        }
    }
}

/// Those from a place on.
fn newest(kept: &[Kept], start: usize) -> &[Kept]
    ensures { result.now ≡ drop start kept.now }
{
    if start < kept.len() {
        &kept[start..]
    } else {
        &[]
    }
}
