//! The words with which the lines begin.

ghost use Rattle.std.specs.Prelude.{◌≡◌, map};
ghost use Rattle.target_lines.specs.LineWords.{name_of};
ghost use Rattle.proof_text.specs.Guesses.{word_of};

/// The first word of a line.
#[derive(Clone, Copy)]
pub enum Word {
    Calc,
    Row,
    Reg,
    Any,
    Left,
    Right,
    If,
    While,
    Par,
    Split,
    Use,
}

const WORDS: [(&[u8], Word); 11] = [
    (b"calc", Word::Calc),
    (b"row", Word::Row),
    (b"reg", Word::Reg),
    (b"any", Word::Any),
    (b"left", Word::Left),
    (b"right", Word::Right),
    (b"if", Word::If),
    (b"while", Word::While),
    (b"par", Word::Par),
    (b"split", Word::Split),
    (b"use", Word::Use),
];

/// The first of the words whose text it is.
fn first_of(words: &[(&[u8], Word)], bytes: &[u8]) -> Option<Word>
    ensures { result ≡ name_of bytes.now (map (λ x. (x.0.now, x.1)) words.now) }
{
    for (text, word) in words {
        if *text == bytes {
            return Some(*word);
        }
    }
    None
}

/// The word whose text it is.
pub fn word_of(bytes: &[u8]) -> Option<Word>
    ensures { result ≡ word_of bytes.now }
{
    first_of(&WORDS, bytes)
}
