//! Words of arguments and results.

ghost use Rattle.std.specs.Prelude.{◌≡◌, ◌++◌, ◌∷◌, [], IfOk, OnOk, option_map, option_to_list};
ghost use Rattle.fit_state.specs.Infos.{infos_of, lists_of};
ghost use Rattle.fit_steps.specs.Parts as parts;
ghost use Rattle.fit_tokens.specs.Changes.{token_of, tokens_of};
ghost use Rattle.fits.specs.Follow as f;
ghost use Rattle.fits.specs.Places as p;
ghost use Rattle.rule_check.specs.Context as d;

use crate::calling::Using;
use fit_state::{Info, all_words, fresh};
use fit_tokens::Token;
use ownership::Shape;
use sqlite_items::{Items, at};
use std::alloc::{AllocError, Global};
use target_code::{InParam, Rep};

/// The words with which a library's procedure is called: the bound, where there is one, and those of the arguments.
pub(crate) fn call_words(
    alloc: Global,
    bound: Option<u32>,
    infos: &[Info],
) -> Result<Items<Token>, AllocError>
    ensures { IfOk result (λ words. tokens_of words ≡ p.numbers (option_to_list bound) ++ p.all_words (infos_of infos.now)) }
{
    let mut words = Items::new(alloc);
    if let Some(bound) = bound {
        words.push(Token::Number(u64::from(bound)))?;
    }
    words.append(all_words(alloc, infos)?)?;
    Ok(words)
}

/// A word of the first argument.
pub(crate) fn nth_word(index: u8, infos: &[Info]) -> Option<Token>
    ensures { option_map token_of result ≡ f.nth_word index (infos_of infos.now) }
{
    match infos {
        [first, ..] => at(first.words.as_slice(), index as usize).copied(),
        [] => None,
    }
}

/// The words of the lists that stand for slices, one list after the other.
fn list_words(
    alloc: Global,
    params: &[InParam],
    infos: &[Info],
) -> Result<Items<Items<Token>>, AllocError>
    ensures { IfOk result (λ lists. lists_of lists ≡ f.list_words params.now (infos_of infos.now)) }
{
    let mut lists = Items::new(alloc);
    let count = params.len().min(infos.len());
    'each: for index in 0..count {
        list_one(alloc, &mut lists, &params[index], &infos[index])?;
    }
    Ok(lists)
}

/// One more list, where its parameter takes a slice.
fn list_one(
    alloc: Global,
    lists: &mut Items<Items<Token>>,
    param: &InParam,
    info: &Info,
) -> Result<(), AllocError>
    ensures { OnOk result (lists_of lists.new ≡ lists_of lists.old ++ parts.list_one param.now (tokens_of info.now.words)) }
{
    if is_slice(param.rep) && !param.kept {
        lists.push(Items::from_slice(alloc, info.words.as_slice())?)
    } else {
        Ok(())
    }
}

fn is_slice(rep: Rep) -> bool
    ensures { result ≡ d.is_slice rep }
{
    matches!(rep, Rep::Slice)
}

/// The words of the results of a call, each for itself.
pub(crate) fn result_words(alloc: Global, call: &Using) -> Result<Items<Items<Token>>, AllocError>
    ensures { IfOk result (λ words. lists_of words ≡ f.result_words call.now.calling.outs.now call.now.sig.outs.now (f.list_words call.now.sig.params.now (infos_of call.now.infos.now))) }
{
    let lists = list_words(alloc, call.sig.params, call.infos)?;
    each_words(alloc, call.calling.outs, call.sig.outs, lists.as_slice())
}

/// The words of results in these representations, where these lists are given back.
fn each_words(
    alloc: Global,
    outs: &[u32],
    reps: &[Rep],
    lists: &[Items<Token>],
) -> Result<Items<Items<Token>>, AllocError>
    ensures { IfOk result (λ words. lists_of words ≡ f.result_words outs.now reps.now (lists_of lists.now)) }
{
    let mut words = Items::new(alloc);
    let mut left = lists;
    let count = outs.len().min(reps.len());
    'each: for index in 0..count {
        words.push(words_for(alloc, outs[index], reps[index], left)?)?;
        left = lists_after(reps[index], left);
    }
    Ok(words)
}

/// The words of a result: a slice has those of the first list that is left.
fn words_for(
    alloc: Global,
    out: u32,
    rep: Rep,
    lists: &[Items<Token>],
) -> Result<Items<Token>, AllocError>
    ensures { IfOk result (λ words. tokens_of words ≡ parts.words_one out rep (lists_of lists.now)) }
{
    if is_slice(rep) {
        first_list(alloc, lists)
    } else {
        fresh(alloc, out, Shape { rep, tag: 0 })
    }
}

fn first_list(alloc: Global, lists: &[Items<Token>]) -> Result<Items<Token>, AllocError>
    ensures { IfOk result (λ words. tokens_of words ≡ f.next_words (lists_of lists.now)) }
{
    match lists {
        [first, ..] => Items::from_slice(alloc, first.as_slice()),
        [] => Ok(Items::new(alloc)),
    }
}

/// The lists that are left behind a result.
fn lists_after<'a>(rep: Rep, lists: &'a [Items<Token>]) -> &'a [Items<Token>]
    ensures { lists_of result.now ≡ parts.words_left rep (lists_of lists.now) }
{
    match lists {
        [_, others @ ..] if is_slice(rep) => others,
        _ => lists,
    }
}

/// The words of results, one after the other.
pub(crate) fn joined_words(
    alloc: Global,
    lists: &[Items<Token>],
) -> Result<Items<Token>, AllocError>
    ensures { IfOk result (λ words. tokens_of words ≡ f.joined_words (lists_of lists.now)) }
{
    let mut all = Items::new(alloc);
    'each: for list in lists {
        all.append(Items::from_slice(alloc, list.as_slice())?)?;
    }
    Ok(all)
}
