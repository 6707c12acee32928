//! What stands for arguments.

ghost use Rattle.std.specs.Prelude.{◌≡◌, ◌++◌, ℕ, Some, IfOk, OnOk, option_map, option_to_list};
ghost use Rattle.fit_state.specs.Infos.{info_at, info_of, infos_of, lists_of, literal_info};
ghost use Rattle.fit_state.specs.States.{Is};
ghost use Rattle.fit_tokens.specs.Changes.{tokens_of};
ghost use Rattle.fit_tokens.specs.Standing.{standing_of};
ghost use Rattle.fits.specs.Places as f;
ghost use Rattle.fits.specs.Places.{State};
ghost use Rattle.ownership.specs.Entries.{shapes_of, spot_of};

use crate::state::FitState;
use fit_tokens::{Token, Words};
use nres_core::Arg;
use ownership::{Entry, Shape};
use sqlite_items::Items;
use std::alloc::{AllocError, Global};
use target_code::Rep;

/// What stands for an argument.
#[derive(Drop)]
pub struct Info {
    /// What it is in.
    pub shape: Shape,
    /// Its words.
    pub words: Items<Token>,
    /// Its variable, where it is a container.
    pub var: Option<u32>,
}

/// What stands for an argument; none for a variable without an entry.
pub fn arg_info(alloc: Global, state: &FitState, arg: Arg) -> Result<Option<Info>, AllocError>
    ensures { IfOk result (λ found. (R : ℕ) (s : State) → Is R state.now s → option_map info_of found ≡ f.arg_info s.entries arg) }
{
    match arg {
        Arg::Var(var) => var_info(alloc, state, var),
        Arg::Num(number) => literal(alloc, Rep::Word, number),
        Arg::Truth(truth) => literal(alloc, Rep::Flag, u64::from(truth)),
    }
}

/// A word that stands for itself.
fn literal(alloc: Global, rep: Rep, number: u64) -> Result<Option<Info>, AllocError>
    ensures { IfOk result (λ found. option_map info_of found ≡ Some (literal_info rep number)) }
{
    let mut words = Items::new(alloc);
    words.push(Token::Number(number))?;
    Ok(Some(Info {
        shape: Shape { rep, tag: 0 },
        words,
        var: None,
    }))
}

fn var_info(alloc: Global, state: &FitState, var: u32) -> Result<Option<Info>, AllocError>
    ensures { IfOk result (λ found. (R : ℕ) (s : State) → Is R state.now s → option_map info_of found ≡ f.info_of (f.lookup s.entries var)) }
{
    match state.rules.context.index_of(var) {
        None => Ok(None),
        Some(index) => match state.rules.context.get(index) {
            Some(entry) => match state.words.get(index) {
                Some(words) => entry_info(alloc, &entry, words),
                None => Ok(None),
            },
            None => Ok(None),
        },
    }
}

fn entry_info(alloc: Global, entry: &Entry, words: &Words) -> Result<Option<Info>, AllocError>
    ensures { IfOk result (λ found. option_map info_of found ≡ Some (info_at (spot_of entry.now) (standing_of words.now))) }
{
    let list = Items::from_slice(alloc, words.list.as_slice())?;
    Ok(Some(Info {
        shape: entry.shape(),
        words: list,
        var: container_var(entry),
    }))
}

/// The variable of an entry, where it is a container.
fn container_var(entry: &Entry) -> Option<u32>
    ensures { option_to_list result ≡ f.only_container entry.now.rep entry.now.var }
{
    match entry.rep {
        Rep::Word | Rep::Flag => None,
        _ => Some(entry.var),
    }
}

/// What stands for arguments; none where a variable has no entry.
pub fn arg_infos(
    alloc: Global,
    state: &FitState,
    args: &[Arg],
) -> Result<Option<Items<Info>>, AllocError>
    ensures { IfOk result (λ found. (R : ℕ) (s : State) → Is R state.now s → option_map infos_of found ≡ f.arg_infos s.entries args.now) }
{
    let mut infos = Items::new(alloc);
    'each: for arg in args {
        match arg_info(alloc, state, *arg)? {
            Some(info) => infos.push(info)?,
            None => return Ok(None),
        }
    }
    Ok(Some(infos))
}

/// The words of arguments, one after the other.
pub fn all_words(alloc: Global, infos: &[Info]) -> Result<Items<Token>, AllocError>
    ensures { IfOk result (λ words. tokens_of words ≡ f.all_words (infos_of infos.now)) }
{
    let mut all = Items::new(alloc);
    'each: for info in infos {
        append(&mut all, info.words.as_slice())?;
    }
    Ok(all)
}

/// Words come behind others.
pub(crate) fn append(all: &mut Items<Token>, more: &[Token]) -> Result<(), AllocError>
    ensures { OnOk result (tokens_of all.new ≡ tokens_of all.old ++ tokens_of more.now) }
{
    'each: for word in more {
        all.push(*word)?;
    }
    Ok(())
}

/// The variables of the containers among arguments.
pub fn all_vars(alloc: Global, infos: &[Info]) -> Result<Items<u32>, AllocError>
    ensures { IfOk result (λ vars. vars ≡ f.all_vars (infos_of infos.now)) }
{
    let mut vars = Items::new(alloc);
    'each: for info in infos {
        if let Some(var) = info.var {
            vars.push(var)?;
        }
    }
    Ok(vars)
}

/// What arguments are in.
pub fn info_shapes(alloc: Global, infos: &[Info]) -> Result<Items<Shape>, AllocError>
    ensures { IfOk result (λ shapes. shapes_of shapes ≡ f.info_shapes (infos_of infos.now)) }
{
    let mut shapes = Items::new(alloc);
    'each: for info in infos {
        shapes.push(info.shape)?;
    }
    Ok(shapes)
}

/// The words of arguments, each for itself.
pub fn info_words(alloc: Global, infos: &[Info]) -> Result<Items<Items<Token>>, AllocError>
    ensures { IfOk result (λ words. lists_of words ≡ f.infos_words (infos_of infos.now)) }
{
    let mut all = Items::new(alloc);
    'each: for info in infos {
        all.push(Items::from_slice(alloc, info.words.as_slice())?)?;
    }
    Ok(all)
}
