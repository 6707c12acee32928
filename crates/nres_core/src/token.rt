//! Tokens of a text.

use crate::place::Place;

/// What a token is.
#[derive(Clone, Copy, PartialEq, Eq)]
pub enum TokenKind {
    /// A name that is not reserved.
    Name,
    /// A reserved word.
    Reserved,
    /// A number, with its value.
    Number(u64),
    /// A sign.
    Sign,
}

/// A token, its bytes `start` to `end` of the text, counted from 0, and the place of the first of them.
#[derive(Clone, Copy, PartialEq, Eq)]
pub struct Token {
    /// What it is.
    pub kind: TokenKind,
    /// The offset of its first byte.
    pub start: usize,
    /// The offset behind its last byte.
    pub end: usize,
    /// The place of its first byte.
    pub place: Place,
}

/// What stands at the front of a text.
#[derive(Clone, Copy, PartialEq, Eq)]
pub enum Piece {
    /// So many bytes between tokens: a blank or a comment.
    Space(usize),
    /// A token of so many bytes.
    Token(TokenKind, usize),
    /// Neither a token nor space.
    Wrong,
}
