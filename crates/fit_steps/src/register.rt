//! Operations that give a register of their argument.

ghost use Rattle.std.specs.Prelude.{◌≡◌, ◌∷◌, [], ℕ, true, List, IfOk, MatchOption};
ghost use Rattle.fit_state.specs.Infos.{infos_of};
ghost use Rattle.proof_lines.specs.Lines.{lines_of};
ghost use Rattle.fit_state.specs.States.{Grows, Is};
ghost use Rattle.fit_steps.specs.Applied.{Bound, NamedIs, Stands};
ghost use Rattle.fit_steps.specs.Going.{GrowsBy, Steps};
ghost use Rattle.fit_steps.specs.Parts as parts;
ghost use Rattle.fit_tokens.specs.Changes.{token_of};
ghost use Rattle.fits.specs.Follow as f;
ghost use Rattle.fits.specs.Follow.{Answer, Line, Views as ViewsOf};
ghost use Rattle.fits.specs.Places.{State, Token as TokenOf};
ghost use Rattle.nres_core.specs.declared.row.RowCode.TheVariants as c;
ghost use Rattle.std.specs.Prelude.{nat_le};

use crate::any::NUMBER;
use crate::applying::{Applying, take};
use crate::lines::reg_line;
use crate::words::nth_word;
use fit_state::{FitState, Rest, bind_words_known};
use fit_tokens::Token;
use sqlite_items::Items;
use std::alloc::{AllocError, Global};

/// An operation that gives a register of its argument.
pub(crate) fn register_step<'a>(
    alloc: Global,
    state: &mut FitState,
    rest: Rest<'a>,
    applying: &Applying,
    index: u8,
) -> Result<Option<Rest<'a>>, AllocError>
    ensures stepped { IfOk result (λ r. (V : ViewsOf) (s : State) → Stands applying.now V s → applying.now.row.code ≡ c.Register index → Is applying.now.regs state.old s
        → Steps applying.now.regs state.new (lines_of rest.entry.lines.now) (λ go. f.reg_step applying.now.regs V s rest.entry.code.now (lines_of rest.entry.lines.now) applying.now.operation.place applying.now.operation.outs.now applying.now.operation.op applying.now.operation.made applying.now.operation.args.now (infos_of applying.now.infos.now) index go) r) }
    ensures grows { IfOk result (λ r. GrowsBy state.old state.new r) }
{
    match reg_line(rest.lines) {
        None => Ok(None),
        Some(lines) => {
            let rest = Rest {
                code: rest.code,
                lines,
            };
            register_here(alloc, state, rest, applying, index)
        }
    }
}

/// The same behind the line.
fn register_here<'a>(
    alloc: Global,
    state: &mut FitState,
    rest: Rest<'a>,
    applying: &Applying,
    index: u8,
) -> Result<Option<Rest<'a>>, AllocError>
    ensures stepped { IfOk result (λ r. (V : ViewsOf) (s : State) (ls : List Line) → Stands applying.now V s → applying.now.row.code ≡ c.Register index → Is applying.now.regs state.old s
        → Steps applying.now.regs state.new ls (parts.register_at V s rest.entry.code.now ls (lines_of rest.entry.lines.now) applying.now.operation.place applying.now.operation.outs.now applying.now.operation.op applying.now.operation.made applying.now.operation.args.now (infos_of applying.now.infos.now) index) r) }
    ensures grows { IfOk result (λ r. GrowsBy state.old state.new r) }
{
    match named_word(state.next, applying, index) {
        None => Ok(None),
        Some(named) => {
            if register_bind(alloc, state, applying, &named)? {
                Ok(Some(rest))
            } else {
                Ok(None)
            }
        }
    }
}

/// A new variable, and the word that it names.
#[derive(Clone, Copy)]
struct Named {
    out: u32,
    word: Token,
}

/// The variable of the one result, where it comes in order, and the word of the argument.
fn named_word(next: u64, applying: &Applying, index: u8) -> Option<Named>
    ensures { MatchOption result
        ((ls : List Line) (k : TokenOf → ℕ → Answer) → f.with_some (f.nth_word index (infos_of applying.now.infos.now)) ls (λ w. f.one_out applying.now.operation.outs.now ls (λ v. f.need (nat_le next v) ls (k w v))) ≡ f.Unmet ls)
        (λ n. NamedIs next applying.now index n.out (token_of n.word)) }
{
    match (nth_word(index, applying.infos), applying.operation.outs) {
        (Some(word), [out]) if u64::from(*out) >= next => Some(Named { out: *out, word }),
        _ => None,
    }
}

/// The variable stands for the word, where the operation passes.
fn register_bind(
    alloc: Global,
    state: &mut FitState,
    applying: &Applying,
    named: &Named,
) -> Result<bool, AllocError>
    ensures bound { IfOk result (λ r. (V : ViewsOf) (s : State) (j : ℕ) → Stands applying.now V s → applying.now.row.code ≡ c.Register j → Is applying.now.regs state.old s → applying.now.operation.outs.now ≡ named.now.out ∷ []
        → Bound applying.now V s named.now.out (token_of named.now.word) state.new r) }
    ensures grows { IfOk result (λ r. r ≡ true → nat_le state.old.next named.now.out ≡ true → Grows state.old state.new) }
{
    if !take(alloc, applying.names, state, &applying.operation)? {
        return Ok(false);
    }
    let mut list = Items::new(alloc);
    list.push(named.word)?;
    let words = [list];
    bind_words_known(alloc, state, &[named.out], &[NUMBER], &words)?;
    state.rules.context.len();
    Ok(true)
}
