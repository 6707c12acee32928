//! What tokens are to the grammar.

ghost use Rattle.std.specs.Prelude.{◌≡◌, ◌≢◌, true, false, map};
ghost use Rattle.nres_core.specs.Operations.{in_table};
ghost use Rattle.nres_automaton.specs.Lexemes.{arity_of, construct_of, either_table, lexeme_of, is_fixed, operation, type_of};

use nres_core::{Meant, TokenKind, Ty, look_up};
use target_code::{Calc, Rep};

/// A word or sign that stands for itself.
#[derive(Clone, Copy, PartialEq, Eq)]
pub enum Fixed {
    Spec,
    Fun,
    End,
    With,
    As,
    Kept,
    Return,
    Assert,
    If,
    Then,
    Else,
    While,
    From,
    Do,
    Par,
    And,
    Split,
    At,
    Left,
    Right,
    Either,
    Or,
    Any,
    Foreach,
    In,
    Call,
    Slice,
    Set,
    Zeros,
    Open,
    Close,
    OpenSquare,
    CloseSquare,
    OpenBrace,
    CloseBrace,
    Comma,
    Colon,
    Equals,
    Arrow,
    Not,
}

/// A representation with a bound.
#[derive(Clone, Copy)]
pub enum Bounded {
    Bits,
    Amap,
}

/// A body that holds blocks.
#[derive(Clone, Copy)]
pub enum Construct {
    If,
    While,
    Par,
    Split,
    Either,
    Foreach,
}

/// What a token is to the grammar.
#[derive(Clone, Copy)]
pub enum Lexeme {
    /// The end of the text.
    End,
    /// A number.
    Number(u64),
    /// A name.
    Name,
    /// A word or sign that stands for itself.
    Fixed(Fixed),
    /// `true` or `false`.
    Truth(bool),
    /// An operation word on so many atoms.
    Applies(usize),
    /// `min` or `max`.
    Calculates(Calc),
    /// `nil` or `empty`.
    Empty,
    /// `pop` or `take_min`.
    Takes,
    /// A binary sign.
    Sign(Calc),
    /// The type of numbers, or of truth values.
    Plain(Ty, Rep),
    /// A type of containers; `set`, which is an operation too, stands for itself.
    Type(Ty),
    /// A representation without a bound.
    Unbounded(Rep),
    /// A representation with a bound.
    Bounded(Bounded),
    /// A word or sign that the grammar does not have.
    Other,
}

/// The reserved words that are no operation words, and `set` and `zeros`.
const WORDS: [(&[u8], Lexeme); 45] = [
    (b"spec", Lexeme::Fixed(Fixed::Spec)),
    (b"fun", Lexeme::Fixed(Fixed::Fun)),
    (b"end", Lexeme::Fixed(Fixed::End)),
    (b"with", Lexeme::Fixed(Fixed::With)),
    (b"as", Lexeme::Fixed(Fixed::As)),
    (b"kept", Lexeme::Fixed(Fixed::Kept)),
    (b"return", Lexeme::Fixed(Fixed::Return)),
    (b"assert", Lexeme::Fixed(Fixed::Assert)),
    (b"if", Lexeme::Fixed(Fixed::If)),
    (b"then", Lexeme::Fixed(Fixed::Then)),
    (b"else", Lexeme::Fixed(Fixed::Else)),
    (b"while", Lexeme::Fixed(Fixed::While)),
    (b"from", Lexeme::Fixed(Fixed::From)),
    (b"do", Lexeme::Fixed(Fixed::Do)),
    (b"par", Lexeme::Fixed(Fixed::Par)),
    (b"and", Lexeme::Fixed(Fixed::And)),
    (b"split", Lexeme::Fixed(Fixed::Split)),
    (b"at", Lexeme::Fixed(Fixed::At)),
    (b"left", Lexeme::Fixed(Fixed::Left)),
    (b"right", Lexeme::Fixed(Fixed::Right)),
    (b"either", Lexeme::Fixed(Fixed::Either)),
    (b"or", Lexeme::Fixed(Fixed::Or)),
    (b"any", Lexeme::Fixed(Fixed::Any)),
    (b"foreach", Lexeme::Fixed(Fixed::Foreach)),
    (b"in", Lexeme::Fixed(Fixed::In)),
    (b"call", Lexeme::Fixed(Fixed::Call)),
    (b"slice", Lexeme::Fixed(Fixed::Slice)),
    (b"set", Lexeme::Fixed(Fixed::Set)),
    (b"zeros", Lexeme::Fixed(Fixed::Zeros)),
    (b"true", Lexeme::Truth(true)),
    (b"false", Lexeme::Truth(false)),
    (b"min", Lexeme::Calculates(Calc::Min)),
    (b"max", Lexeme::Calculates(Calc::Max)),
    (b"nat", Lexeme::Plain(Ty::Nat, Rep::Word)),
    (b"bool", Lexeme::Plain(Ty::Bool, Rep::Flag)),
    (b"list", Lexeme::Type(Ty::List)),
    (b"map", Lexeme::Type(Ty::Map)),
    (b"bag", Lexeme::Type(Ty::Bag)),
    (b"array", Lexeme::Unbounded(Rep::Array)),
    (b"vec", Lexeme::Unbounded(Rep::Vec)),
    (b"hset", Lexeme::Unbounded(Rep::Hset)),
    (b"hmap", Lexeme::Unbounded(Rep::Hmap)),
    (b"heap", Lexeme::Unbounded(Rep::Heap)),
    (b"bits", Lexeme::Bounded(Bounded::Bits)),
    (b"amap", Lexeme::Bounded(Bounded::Amap)),
];

/// The signs.
const SIGNS: [(&[u8], Lexeme); 22] = [
    (b"(", Lexeme::Fixed(Fixed::Open)),
    (b")", Lexeme::Fixed(Fixed::Close)),
    (b"[", Lexeme::Fixed(Fixed::OpenSquare)),
    (b"]", Lexeme::Fixed(Fixed::CloseSquare)),
    (b"{", Lexeme::Fixed(Fixed::OpenBrace)),
    (b"}", Lexeme::Fixed(Fixed::CloseBrace)),
    (b",", Lexeme::Fixed(Fixed::Comma)),
    (b":", Lexeme::Fixed(Fixed::Colon)),
    (b"=", Lexeme::Fixed(Fixed::Equals)),
    (b"<-", Lexeme::Fixed(Fixed::Arrow)),
    (b"!", Lexeme::Fixed(Fixed::Not)),
    (b"*", Lexeme::Sign(Calc::Mul)),
    (b"/", Lexeme::Sign(Calc::Div)),
    (b"%", Lexeme::Sign(Calc::Mod)),
    (b"+", Lexeme::Sign(Calc::Add)),
    (b"-", Lexeme::Sign(Calc::Sub)),
    (b"<", Lexeme::Sign(Calc::Lt)),
    (b"<=", Lexeme::Sign(Calc::Le)),
    (b"==", Lexeme::Sign(Calc::Eq)),
    (b"!=", Lexeme::Sign(Calc::Ne)),
    (b"&&", Lexeme::Sign(Calc::And)),
    (b"||", Lexeme::Sign(Calc::Or)),
];

/// What the first of these with the bytes of a word is.
fn in_list(list: &[(&[u8], Lexeme)], word: &[u8]) -> Option<Lexeme>
    ensures { result ≡ in_table word.now (map (λ x. (x.0.now, x.1)) list.now) }
{
    for (bytes, lexeme) in list {
        if word == *bytes {
            return Some(*lexeme);
        }
    }
    None
}

/// What an operation word is.
fn operation(meant: Meant) -> Lexeme
    ensures { result ≡ operation meant }
{
    match meant.arity() {
        Some(count) => Lexeme::Applies(count),
        None if meant.is_bare() => Lexeme::Empty,
        None if meant.is_taking() => Lexeme::Takes,
        None => Lexeme::Other,
    }
}

/// What a word is by the table of the grammar, or else by that of operations.
fn either_table(found: Option<Lexeme>, meant: Option<Meant>) -> Lexeme
    ensures { result ≡ either_table found meant }
{
    match (found, meant) {
        (Some(lexeme), _) => lexeme,
        (None, Some(meant)) => operation(meant),
        (None, None) => Lexeme::Other,
    }
}

/// What a token of this kind and with these bytes is.
pub fn classify(kind: TokenKind, bytes: &[u8]) -> Lexeme
    ensures { result ≡ lexeme_of kind bytes.now }
{
    match kind {
        TokenKind::Name => Lexeme::Name,
        TokenKind::Number(value) => Lexeme::Number(value),
        TokenKind::Reserved => either_table(in_list(&WORDS, bytes), look_up(bytes)),
        TokenKind::Sign => either_table(in_list(&SIGNS, bytes), None),
    }
}

/// Whether a token is this word or sign.
pub fn is_fixed(fixed: Fixed, lexeme: Lexeme) -> bool
    ensures value { result ≡ is_fixed fixed lexeme }
    ensures yes { result ≡ true → lexeme ≡ Lexeme.Fixed fixed }
    ensures no { result ≡ false → lexeme ≢ Lexeme.Fixed fixed }
{
    match lexeme {
        Lexeme::Fixed(found) => found == fixed,
        _ => false,
    }
}

/// On how many atoms an operation word stands.
pub fn arity(lexeme: Lexeme) -> Option<usize>
    ensures { result ≡ arity_of lexeme }
{
    match lexeme {
        Lexeme::Applies(count) => Some(count),
        Lexeme::Fixed(found) if found == Fixed::Set => Some(3),
        _ => None,
    }
}

/// The body that a word begins, where it holds blocks.
pub fn construct_at(lexeme: Lexeme) -> Option<Construct>
    ensures { result ≡ construct_of lexeme }
{
    let Lexeme::Fixed(fixed) = lexeme else {
        return None;
    };
    match fixed {
        Fixed::If => Some(Construct::If),
        Fixed::While => Some(Construct::While),
        Fixed::Par => Some(Construct::Par),
        Fixed::Split => Some(Construct::Split),
        Fixed::Either => Some(Construct::Either),
        Fixed::Foreach => Some(Construct::Foreach),
        _ => None,
    }
}

/// The type of containers that a word stands for.
pub fn container_type(lexeme: Lexeme) -> Option<Ty>
    ensures { result ≡ type_of lexeme }
{
    match lexeme {
        Lexeme::Type(ty) => Some(ty),
        Lexeme::Fixed(found) if found == Fixed::Set => Some(Ty::Set),
        _ => None,
    }
}

/// Whether a token is the word `bag`.
pub fn is_bag(lexeme: Lexeme) -> bool
    ensures yes { result ≡ true → lexeme ≡ Lexeme.Type Ty.Bag }
    ensures no { result ≡ false → lexeme ≢ Lexeme.Type Ty.Bag }
{
    match lexeme {
        Lexeme::Type(ty) => ty == Ty::Bag,
        _ => false,
    }
}
