//! Lines from text. A line is read leniently: what should stand where is taken for granted. Then it is held against its one text.

ghost use Rattle.std.specs.Prelude.{◌≡◌, ◌≤◌, ◌<◌, ◌++◌, length, drop, false, IfOk, IfSome};
ghost use Rattle.std.specs.Str.{bytes_eq};
ghost use Rattle.target_lines.specs.declared.line.Line.{Line as LineOf};
ghost use Rattle.target_lines.specs.Texts.{line_text};
ghost use Rattle.target_lines.specs.Fits.{LineFits};
ghost use Rattle.target_lines.specs.Programs.{phrase_lends};
ghost use Rattle.target_lines.specs.Reading as spec;

use crate::line::{Keyword, Line, Phrase};
use crate::{words, writing};
use sqlite_items::Items;
use std::alloc::{AllocError, Global};
use target_code::{Branch, Hand, InParam, Instr, Name, NameRefusal, Rep};

fn is_letter(byte: u8) -> bool
    ensures { result ≡ spec.is_letter byte }
{
    matches!(byte, b'0'..=b'9' | b'a'..=b'z' | b'A'..=b'Z' | b'_')
}

/// The number at the front, cut off at the greatest word, and the rest.
#[tactic(auto, unfolding(crate::specs::Reading::number_from))]
fn number(bytes: &[u8]) -> (u64, &[u8])
    ensures value { result.0 ≡ (spec.number_at bytes.now).0 }
    ensures rest { result.1.now ≡ (spec.number_at bytes.now).1 }
{
    let mut value: u64 = 0;
    let mut rest = bytes;
    while let [digit @ b'0'..=b'9', after @ ..] = rest {
        value = value
            .saturating_mul(10)
            .saturating_add(u64::from(*digit - b'0'));
        rest = after;
    }
    (value, rest)
}

/// The letters at the front, and the rest.
#[tactic(auto, unfolding(crate::specs::Reading::letters))]
fn word(bytes: &[u8]) -> (&[u8], &[u8])
    ensures word { result.0.now ≡ (spec.word_at bytes.now).0 }
    ensures rest { result.1.now ≡ (spec.word_at bytes.now).1 }
{
    let mut end = 0;
    while end < bytes.len() && is_letter(bytes[end]) {
        end += 1;
    }
    bytes.split_at(end)
}

/// What is left behind so many bytes.
fn skip(count: usize, bytes: &[u8]) -> &[u8]
    ensures { result.now ≡ drop count bytes.now }
{
    if count < bytes.len() {
        &bytes[count..]
    } else {
        &[]
    }
}

#[tactic(auto, unfolding(crate::specs::Reading::small_at))]
fn small(bytes: &[u8]) -> (u32, &[u8])
    ensures value { result.0 ≡ (spec.small_at bytes.now).0 }
    ensures rest { result.1.now ≡ (spec.small_at bytes.now).1 }
{
    let (value, rest) = number(bytes);
    (value.min(4_294_967_295) as u32, rest)
}

#[tactic(auto, unfolding(crate::specs::Reading::register_at))]
fn register(bytes: &[u8]) -> (u32, &[u8])
    ensures value { result.0 ≡ (spec.register_at bytes.now).0 }
    ensures rest { result.1.now ≡ (spec.register_at bytes.now).1 }
{
    small(skip(1, bytes))
}

/// What stands behind a comma and a space.
fn after_comma(bytes: &[u8]) -> Option<&[u8]>
    ensures { spec.lent result ≡ spec.after_comma bytes.now }
{
    match bytes {
        [b',', _, more @ ..] => Some(more),
        _ => None,
    }
}

fn registers(alloc: Global, bytes: &[u8]) -> Result<(Items<u32>, &[u8]), AllocError>
    ensures { IfOk result (λ x. (x.0, x.1.now) ≡ spec.registers_at bytes.now) }
{
    let mut list = Items::new(alloc);
    let mut rest = bytes;
    'each: loop {
        let (item, after) = register(rest);
        list.push(item)?;
        match after_comma(after) {
            Some(more) => rest = more,
            None => return Ok((list, after)),
        }
    }
}

fn begins(byte: u8, bytes: &[u8]) -> bool
    ensures { result ≡ spec.begins byte bytes.now }
{
    match bytes {
        [first, ..] => *first == byte,
        [] => false,
    }
}

#[tactic(auto, unfolding(crate::specs::Reading::hand_at))]
fn hand(bytes: &[u8]) -> (Hand, &[u8])
    ensures hand { result.0 ≡ (spec.hand_at bytes.now).0 }
    ensures rest { result.1.now ≡ (spec.hand_at bytes.now).1 }
{
    let (block, rest) = register(bytes);
    if begins(b' ', rest) {
        let (offset, rest) = register(skip(6, rest));
        let (count, rest) = register(skip(5, rest));
        let span = Some((offset, count));
        return (Hand { block, span }, rest);
    }
    (Hand { block, span: None }, rest)
}

fn hands(alloc: Global, bytes: &[u8]) -> Result<(Items<Hand>, &[u8]), AllocError>
    ensures { IfOk result (λ x. (x.0, x.1.now) ≡ spec.hands_at bytes.now) }
{
    let mut list = Items::new(alloc);
    let mut rest = bytes;
    'each: loop {
        let (item, after) = hand(rest);
        list.push(item)?;
        match after_comma(after) {
            Some(more) => rest = more,
            None => return Ok((list, after)),
        }
    }
}

fn closed_registers(alloc: Global, bytes: &[u8]) -> Result<(Items<u32>, &[u8]), AllocError>
    ensures { IfOk result (λ x. (x.0, x.1.now) ≡ spec.closed_at spec.registers_at 41 bytes.now) }
{
    if begins(b')', bytes) {
        return Ok((Items::new(alloc), bytes));
    }
    registers(alloc, bytes)
}

fn closed_hands(alloc: Global, bytes: &[u8]) -> Result<(Items<Hand>, &[u8]), AllocError>
    ensures { IfOk result (λ x. (x.0, x.1.now) ≡ spec.closed_at spec.hands_at 93 bytes.now) }
{
    if begins(b']', bytes) {
        return Ok((Items::new(alloc), bytes));
    }
    hands(alloc, bytes)
}

/// The name at the front, and the rest. What is no name is read as `0`, which is none either.
fn name(alloc: Global, bytes: &[u8]) -> Result<(Name, &[u8]), AllocError>
    ensures { IfOk result (λ x. (x.0, x.1.now) ≡ spec.name_at bytes.now) }
{
    let (word, rest) = word(bytes);
    match Name::new(alloc, word) {
        Ok(name) => Ok((name, rest)),
        Err(NameRefusal::NotAName) => Ok((Name::of_number(alloc, 0)?, rest)),
        Err(NameRefusal::Memory) => Err(AllocError),
    }
}

/// `NAME(ARGS)`.
struct Applied<'a> {
    name: Name,
    args: Items<u32>,
    rest: &'a [u8],
}

#[tactic(auto, unfolding(crate::specs::Reading::use_at))]
fn application(alloc: Global, bytes: &[u8]) -> Result<Applied<'_>, AllocError>
    ensures { IfOk result (λ x. ((x.name, x.args), x.rest.now) ≡ spec.use_at bytes.now) }
{
    let (name, rest) = name(alloc, bytes)?;
    let (args, rest) = closed_registers(alloc, skip(1, rest))?;
    Ok(Applied {
        name,
        args,
        rest: skip(1, rest),
    })
}

fn lent(alloc: Global, lends: bool, bytes: &[u8]) -> Result<(Items<Hand>, &[u8]), AllocError>
    ensures { IfOk result (λ x. (x.0, x.1.now) ≡ spec.lends_at lends bytes.now) }
{
    if lends {
        let (list, rest) = closed_hands(alloc, skip(7, bytes))?;
        return Ok((list, skip(1, rest)));
    }
    Ok((Items::new(alloc), bytes))
}

/// The registers of a branch's results. They stand there only where no bracket follows the first word.
#[tactic(auto, unfolding(crate::specs::Reading::targets_at))]
fn targets(alloc: Global, bytes: &[u8]) -> Result<(Items<u32>, &[u8]), AllocError>
    ensures { IfOk result (λ x. (x.0, x.1.now) ≡ spec.targets_at bytes.now) }
{
    let (_, after) = word(bytes);
    if begins(b'(', after) {
        return Ok((Items::new(alloc), bytes));
    }
    let (to, rest) = registers(alloc, bytes)?;
    Ok((to, skip(3, rest)))
}

#[tactic(auto, unfolding(crate::specs::Reading::branch_at))]
fn branch(alloc: Global, lends: bool, bytes: &[u8]) -> Result<(Branch, &[u8]), AllocError>
    ensures { IfOk result (λ x. (x.0, x.1.now) ≡ spec.branch_at lends bytes.now) }
{
    let (to, rest) = targets(alloc, bytes)?;
    let Applied { name, args, rest } = application(alloc, rest)?;
    let (hands, rest) = closed_hands(alloc, skip(7, rest))?;
    let (lends, rest) = lent(alloc, lends, skip(1, rest))?;
    let branch = Branch {
        to,
        proc: name,
        args,
        hands,
        lends,
    };
    Ok((branch, rest))
}

#[tactic(auto, unfolding(crate::specs::Reading::rep_at))]
fn rep(bytes: &[u8]) -> Option<(Rep, &[u8])>
    ensures { spec.shown result ≡ spec.rep_at bytes.now }
{
    let (word, rest) = word(bytes);
    match words::rep(word)? {
        Rep::Bits(_) => {
            let (limit, rest) = small(skip(1, rest));
            Some((Rep::Bits(limit), rest))
        }
        Rep::Amap(_) => {
            let (limit, rest) = small(skip(1, rest));
            Some((Rep::Amap(limit), rest))
        }
        other => Some((other, rest)),
    }
}

/// What stands behind ` = ` where it is no call, by its first word. The result goes to the register.
fn plain(to: u32, word: Option<Keyword>, bytes: &[u8]) -> Option<Phrase>
    ensures { result ≡ spec.plain_by to word bytes.now }
{
    let instr = match word {
        Some(Keyword::Const) => {
            let (value, _) = number(bytes);
            Instr::Const { to, value }
        }
        Some(Keyword::Mov) => {
            let (from, _) = register(bytes);
            Instr::Mov { to, from }
        }
        Some(Keyword::Calc(word)) => {
            let (left, rest) = register(bytes);
            let (right, _) = register(skip(1, rest));
            Instr::Calc {
                to,
                word,
                left,
                right,
            }
        }
        Some(Keyword::Load) => {
            let (block, rest) = register(bytes);
            let (index, _) = register(skip(1, rest));
            Instr::Load { to, block, index }
        }
        Some(Keyword::Alloc) => {
            let (len, _) = register(bytes);
            Instr::Alloc { to, len }
        }
        _ => return None,
    };
    Some(Phrase::Plain(instr))
}

/// A call whose results go to the registers.
fn call(alloc: Global, to: Items<u32>, bytes: &[u8]) -> Result<Option<Phrase>, AllocError>
    ensures { IfOk result (λ p. p ≡ spec.called_at to bytes.now) }
{
    match application(alloc, bytes) {
        Ok(
            Applied {
                name,
                args,
                rest: _,
            },
        ) => Ok(Some(Phrase::Plain(Instr::Call {
            to,
            proc: name,
            args,
        }))),
        Err(error) => {
            drop(to);
            Err(error)
        }
    }
}

/// What stands behind ` = `, by its first word.
#[tactic(auto, unfolding(crate::specs::Reading::targeted_by))]
fn targeted_by(
    alloc: Global,
    to: Items<u32>,
    word: Option<Keyword>,
    bytes: &[u8],
) -> Result<Option<Phrase>, AllocError>
    ensures { IfOk result (λ p. p ≡ spec.targeted_by to word bytes.now) }
{
    match word {
        Some(Keyword::Call) => call(alloc, to, bytes),
        _ => {
            let first = first(to.as_slice());
            drop(to);
            Ok(plain(first, word, bytes))
        }
    }
}

/// The first register, 0 where there is none.
fn first(registers: &[u32]) -> u32
    ensures { result ≡ spec.first registers.now }
{
    match registers {
        [first, ..] => *first,
        [] => 0,
    }
}

#[tactic(auto, unfolding(crate::specs::Reading::targeted_at))]
fn targeted(alloc: Global, bytes: &[u8]) -> Result<Option<Phrase>, AllocError>
    ensures { IfOk result (λ p. p ≡ spec.targeted_at bytes.now) }
{
    let (to, rest) = registers(alloc, bytes)?;
    let (word, rest) = word(skip(3, rest));
    targeted_by(alloc, to, words::keyword(word), skip(1, rest))
}

#[tactic(auto, unfolding(crate::specs::Reading::input_at))]
fn input(alloc: Global, bytes: &[u8]) -> Result<Option<Phrase>, AllocError>
    ensures { IfOk result (λ p. p ≡ spec.input_at bytes.now) }
{
    let (name, rest) = name(alloc, bytes)?;
    match rep(skip(1, rest)) {
        None => Ok(None),
        Some((rep, rest)) => {
            let kept = !rest.is_empty();
            Ok(Some(Phrase::In(InParam { name, rep, kept })))
        }
    }
}

#[tactic(auto, unfolding(crate::specs::Reading::proc_at))]
fn proc(alloc: Global, bytes: &[u8]) -> Result<Phrase, AllocError>
    ensures { IfOk result (λ p. p ≡ spec.proc_at bytes.now) }
{
    let (name, rest) = name(alloc, bytes)?;
    let (args, rest) = small(skip(1, rest));
    let (regs, _) = small(skip(1, rest));
    Ok(Phrase::Proc { name, args, regs })
}

#[tactic(auto, unfolding(crate::specs::Reading::store_at))]
fn store(bytes: &[u8]) -> Phrase
    ensures { result ≡ spec.store_at bytes.now }
{
    let (block, rest) = register(bytes);
    let (index, rest) = register(skip(1, rest));
    let (value, _) = register(skip(1, rest));
    Phrase::Plain(Instr::Store {
        block,
        index,
        value,
    })
}

#[tactic(auto, unfolding(crate::specs::Reading::par_at))]
fn par(alloc: Global, lends: bool, bytes: &[u8]) -> Result<Phrase, AllocError>
    ensures { IfOk result (λ p. p ≡ spec.par_at lends bytes.now) }
{
    let (left, rest) = branch(alloc, lends, bytes)?;
    let (right, _) = branch(alloc, lends, skip(3, rest))?;
    Ok(Phrase::Plain(Instr::Par { left, right }))
}

fn ret(alloc: Global, bytes: &[u8]) -> Result<Phrase, AllocError>
    ensures { IfOk result (λ p. p ≡ spec.ret_at bytes.now) }
{
    if bytes.is_empty() {
        return Ok(Phrase::Ret(Items::new(alloc)));
    }
    let (list, _) = registers(alloc, bytes)?;
    Ok(Phrase::Ret(list))
}

/// A phrase by its first word.
#[tactic(auto, unfolding(crate::specs::Reading::opened_by))]
fn opened_by(
    alloc: Global,
    lends: bool,
    word: Option<Keyword>,
    bytes: &[u8],
) -> Result<Option<Phrase>, AllocError>
    ensures { IfOk result (λ p. p ≡ spec.opened_by lends word bytes.now) }
{
    let phrase = match word {
        Some(Keyword::Sepref) => Phrase::Sepref {
            lends: begins(b'2', bytes),
        },
        Some(Keyword::In) => return input(alloc, bytes),
        Some(Keyword::Out) => match rep(bytes) {
            None => return Ok(None),
            Some((rep, _)) => Phrase::Out(rep),
        },
        Some(Keyword::Proc) => proc(alloc, bytes)?,
        Some(Keyword::Store) => store(bytes),
        Some(Keyword::Free) => Phrase::Plain(Instr::Free {
            block: register(bytes).0,
        }),
        Some(Keyword::If) => Phrase::If(register(bytes).0),
        Some(Keyword::Else) => Phrase::Else,
        Some(Keyword::While) => Phrase::While,
        Some(Keyword::Do) => Phrase::Do(register(bytes).0),
        Some(Keyword::Call) => {
            let Applied {
                name,
                args,
                rest: _,
            } = application(alloc, bytes)?;
            let to = Items::new(alloc);
            Phrase::Plain(Instr::Call {
                to,
                proc: name,
                args,
            })
        }
        Some(Keyword::Par) => par(alloc, lends, bytes)?,
        Some(Keyword::Ret) => ret(alloc, bytes)?,
        Some(Keyword::End) => Phrase::End,
        _ => return Ok(None),
    };
    Ok(Some(phrase))
}

#[tactic(auto, unfolding(crate::specs::Reading::phrase_at))]
fn phrase(alloc: Global, lends: bool, bytes: &[u8]) -> Result<Option<Phrase>, AllocError>
    ensures { IfOk result (λ p. p ≡ spec.phrase_at lends bytes.now) }
{
    if matches!(bytes, [b'r', b'0'..=b'9', ..]) {
        return targeted(alloc, bytes);
    }
    let (word, rest) = word(bytes);
    opened_by(alloc, lends, words::keyword(word), skip(1, rest))
}

#[tactic(auto, unfolding(crate::specs::Reading::spaces))]
fn spaces(bytes: &[u8]) -> usize
    ensures value { result ≡ spec.spaces bytes.now }
    ensures within { result ≤ length bytes.now }
{
    let mut count = 0;
    while count < bytes.len() && bytes[count] == b' ' {
        count += 1;
    }
    count
}

#[tactic(auto, unfolding(crate::specs::Reading::line_at))]
fn guess(alloc: Global, lends: bool, bytes: &[u8]) -> Result<Option<Line>, AllocError>
    ensures { IfOk result (λ l. l ≡ spec.line_at lends bytes.now) }
{
    let count = spaces(bytes);
    match phrase(alloc, lends, &bytes[count..])? {
        None => Ok(None),
        Some(phrase) => Ok(Some(Line {
            level: (count / 2) as u64,
            phrase,
        })),
    }
}

/// Whether the bytes are the text of the line.
fn is_spelled(alloc: Global, lends: bool, line: &Line, bytes: &[u8]) -> Result<bool, AllocError>
    ensures { IfOk result (λ same. same ≡ bytes_eq (line_text lends line.now) bytes.now) }
{
    let mut text = Vec::new(alloc);
    writing::line(&mut text, lends, line)?;
    Ok(text.as_slice() == bytes)
}

/// The line that the bytes are, if they are one. Where the first line shows no lends, it has none.
pub fn line(alloc: Global, lends: bool, bytes: &[u8]) -> Result<Option<Line>, AllocError>
    ensures found { IfOk result (λ found. IfSome found (λ l. bytes.now ≡ line_text lends l)) }
    ensures only { IfOk result (λ found. (l : LineOf) → LineFits lends l → bytes.now ≡ line_text lends l → found ≡ Some l) }
    ensures shown { lends ≡ false → IfOk result (λ found. IfSome found (λ l. phrase_lends l.phrase ≡ false)) }
{
    match guess(alloc, lends, bytes)? {
        None => Ok(None),
        Some(line) => match is_spelled(alloc, lends, &line, bytes) {
            Ok(true) => Ok(Some(line)),
            Ok(false) => {
                drop(line);
                Ok(None)
            }
            Err(error) => {
                drop(line);
                Err(error)
            }
        },
    }
}
