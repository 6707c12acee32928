//! New variables.

ghost use Rattle.std.specs.Prelude.{◌≡◌, ℕ, true, length, IfOk, OnOk};
ghost use Rattle.fit_state.specs.Infos.{lists_of};
ghost use Rattle.fit_state.specs.States.{Grows, Is, IsKnown, entered, entered_fresh, with_entry};
ghost use Rattle.fit_tokens.specs.Changes.{tokens_of};
ghost use Rattle.fits.specs.Follow.{all_below};
ghost use Rattle.fits.specs.Places as f;
ghost use Rattle.fits.specs.Places.{State};
ghost use Rattle.ownership.specs.Entries.{shape_of, shapes_of};

use crate::state::FitState;
use fit_tokens::{Token, Words};
use ownership::{Shape, bind};
use sqlite_items::Items;
use std::alloc::{AllocError, Global};

/// The words of a variable that is bound where they are written.
pub fn fresh(alloc: Global, var: u32, shape: Shape) -> Result<Items<Token>, AllocError>
    ensures { IfOk result (λ words. tokens_of words ≡ f.fresh var (shape_of shape)) }
{
    let width = shape.rep.width();
    let mut words = Items::new(alloc);
    'each: for index in 0..width {
        words.push(Token::Of(var, index as u32))?;
    }
    Ok(words)
}

/// The words of such variables, one after the other, as far as there are shapes.
pub fn all_fresh(alloc: Global, outs: &[u32], shapes: &[Shape]) -> Result<Items<Token>, AllocError>
    ensures { IfOk result (λ words. tokens_of words ≡ f.all_fresh outs.now (shapes_of shapes.now)) }
{
    let mut all = Items::new(alloc);
    let count = outs.len().min(shapes.len());
    'each: for index in 0..count {
        all.append(fresh(alloc, outs[index], shapes[index])?)?;
    }
    Ok(all)
}

/// New variables, whose words come to registers, without their entries in the context. Where there is no memory, some may be bound.
pub fn bind_known(
    alloc: Global,
    state: &mut FitState,
    to: &[u32],
    outs: &[u32],
    shapes: &[Shape],
) -> Result<(), AllocError>
    ensures known { OnOk result ((R : ℕ) (s : State) → all_below R to.now ≡ true → IsKnown R state.old s → IsKnown R state.new (f.bind_at s to.now outs.now (shapes_of shapes.now))) }
    ensures rules { state.new.rules ≡ state.old.rules }
    ensures grows { OnOk result (f.in_order state.old.next outs.now (shapes_of shapes.now) ≡ true → Grows state.old state.new) }
{
    let words = all_fresh(alloc, outs, shapes)?;
    state.tokens.put(to, words.as_slice())?;
    enter_fresh(alloc, state, outs, shapes)
}

/// New variables of their own words. Where there is no memory, some may be bound.
fn enter_fresh(
    alloc: Global,
    state: &mut FitState,
    outs: &[u32],
    shapes: &[Shape],
) -> Result<(), AllocError>
    ensures ok { OnOk result (state.new ≡ entered_fresh state.old outs.now (shapes_of shapes.now)) }
    ensures rules { state.new.rules ≡ state.old.rules }
{
    let count = outs.len().min(shapes.len());
    'each: for index in 0..count {
        let list = fresh(alloc, outs[index], shapes[index])?;
        bind_entry(state, outs[index], list)?;
    }
    Ok(())
}

/// A new variable of these words.
fn bind_entry(state: &mut FitState, out: u32, list: Items<Token>) -> Result<(), AllocError>
    ensures ok { OnOk result (state.new ≡ with_entry state.old out (tokens_of list)) }
    ensures rules { state.new.rules ≡ state.old.rules }
{
    state.words.push(Words { list, part: false })?;
    state.next = u64::from(out) + 1;
    Ok(())
}

/// New variables of these words, without their entries in the context. Where there is no memory, some may be bound.
pub fn bind_words_known(
    alloc: Global,
    state: &mut FitState,
    outs: &[u32],
    shapes: &[Shape],
    words: &[Items<Token>],
) -> Result<(), AllocError>
    ensures known { OnOk result ((R : ℕ) (s : State) → IsKnown R state.old s → IsKnown R state.new (f.bind_words s outs.now (shapes_of shapes.now) (lists_of words.now))) }
    ensures rules { state.new.rules ≡ state.old.rules }
    ensures grows { OnOk result (f.in_order state.old.next outs.now (shapes_of shapes.now) ≡ true → Grows state.old state.new) }
{
    enter_words(alloc, state, outs, shapes, words)
}

/// New variables of these words, as far as there are shapes. Where there is no memory, some may be bound.
fn enter_words(
    alloc: Global,
    state: &mut FitState,
    outs: &[u32],
    shapes: &[Shape],
    words: &[Items<Token>],
) -> Result<(), AllocError>
    ensures ok { OnOk result (state.new ≡ entered state.old outs.now (shapes_of shapes.now) (lists_of words.now)) }
    ensures rules { state.new.rules ≡ state.old.rules }
{
    let count = outs.len().min(shapes.len()).min(words.len());
    'each: for index in 0..count {
        let list = Items::from_slice(alloc, words[index].as_slice())?;
        bind_entry(state, outs[index], list)?;
    }
    Ok(())
}

/// New variables, whose words come to registers. There is no room for a second entry of a variable.
pub fn bind_at(
    alloc: Global,
    state: &mut FitState,
    to: &[u32],
    outs: &[u32],
    shapes: &[Shape],
) -> Result<(), AllocError>
    ensures bound { OnOk result ((R : ℕ) (s : State) → all_below R to.now ≡ true → Is R state.old s → Is R state.new (f.bind_at s to.now outs.now (shapes_of shapes.now))) }
    ensures grows { OnOk result (f.in_order state.old.next outs.now (shapes_of shapes.now) ≡ true → Grows state.old state.new) }
{
    bind(&mut state.rules.context, outs, shapes)?;
    bind_known(alloc, state, to, outs, shapes)?;
    state.rules.context.len();
    Ok(())
}

/// New variables of these words. There is no room for a second entry of a variable.
pub fn bind_words(
    alloc: Global,
    state: &mut FitState,
    outs: &[u32],
    shapes: &[Shape],
    words: &[Items<Token>],
) -> Result<(), AllocError>
    requires { length words.now ≡ length shapes.now }
    ensures bound { OnOk result ((R : ℕ) (s : State) → Is R state.old s → Is R state.new (f.bind_words s outs.now (shapes_of shapes.now) (lists_of words.now))) }
    ensures grows { OnOk result (f.in_order state.old.next outs.now (shapes_of shapes.now) ≡ true → Grows state.old state.new) }
{
    bind(&mut state.rules.context, outs, shapes)?;
    bind_words_known(alloc, state, outs, shapes, words)?;
    state.rules.context.len();
    Ok(())
}
