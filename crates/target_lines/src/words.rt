//! The words of the format.

ghost use Rattle.std.specs.Prelude.{◌≡◌, map};
ghost use Rattle.target_lines.specs.LineWords.{name_of, keyword_of, rep_of};

use crate::line::Keyword;
use target_code::{Calc, Rep};

const KEYWORDS: [(&[u8], Keyword); 34] = [
    (b"sepref", Keyword::Sepref),
    (b"in", Keyword::In),
    (b"out", Keyword::Out),
    (b"proc", Keyword::Proc),
    (b"const", Keyword::Const),
    (b"mov", Keyword::Mov),
    (b"add", Keyword::Calc(Calc::Add)),
    (b"sub", Keyword::Calc(Calc::Sub)),
    (b"mul", Keyword::Calc(Calc::Mul)),
    (b"div", Keyword::Calc(Calc::Div)),
    (b"mod", Keyword::Calc(Calc::Mod)),
    (b"min", Keyword::Calc(Calc::Min)),
    (b"max", Keyword::Calc(Calc::Max)),
    (b"lt", Keyword::Calc(Calc::Lt)),
    (b"le", Keyword::Calc(Calc::Le)),
    (b"eq", Keyword::Calc(Calc::Eq)),
    (b"ne", Keyword::Calc(Calc::Ne)),
    (b"and", Keyword::Calc(Calc::And)),
    (b"or", Keyword::Calc(Calc::Or)),
    (b"xor", Keyword::Calc(Calc::Xor)),
    (b"shl", Keyword::Calc(Calc::Shl)),
    (b"shr", Keyword::Calc(Calc::Shr)),
    (b"load", Keyword::Load),
    (b"store", Keyword::Store),
    (b"alloc", Keyword::Alloc),
    (b"free", Keyword::Free),
    (b"if", Keyword::If),
    (b"else", Keyword::Else),
    (b"while", Keyword::While),
    (b"do", Keyword::Do),
    (b"call", Keyword::Call),
    (b"par", Keyword::Par),
    (b"ret", Keyword::Ret),
    (b"end", Keyword::End),
];

/// The representations, the limit of `bits` and `amap` left open.
const REPS: [(&[u8], Rep); 10] = [
    (b"word", Rep::Word),
    (b"flag", Rep::Flag),
    (b"array", Rep::Array),
    (b"slice", Rep::Slice),
    (b"vec", Rep::Vec),
    (b"bits", Rep::Bits(0)),
    (b"hset", Rep::Hset),
    (b"amap", Rep::Amap(0)),
    (b"hmap", Rep::Hmap),
    (b"heap", Rep::Heap),
];

/// The first of the words whose text it is.
fn named<T: Copy>(words: &[(&[u8], T)], word: &[u8]) -> Option<T>
    ensures { result ≡ name_of word.now (map (λ x. (x.0.now, x.1)) words.now) }
{
    for (text, meaning) in words {
        if *text == word {
            return Some(*meaning);
        }
    }
    None
}

pub fn keyword(word: &[u8]) -> Option<Keyword>
    ensures { result ≡ keyword_of word.now }
{
    named(&KEYWORDS, word)
}

pub fn rep(word: &[u8]) -> Option<Rep>
    ensures { result ≡ rep_of word.now }
{
    named(&REPS, word)
}
