//! What stands at the front of a text.

ghost use Rattle.std.specs.Prelude.{◌≡◌, ◌≢◌, ◌<◌, ◌≤◌, length, slice_index, true};
ghost use Rattle.std.specs.Char.{is_ascii_digit as digit_byte};
ghost use Rattle.std.specs.List.{prefix_len};
ghost use Rattle.target_code.specs.Names as names;
ghost use Rattle.nres_core.specs.Front as spec;

use nres_core::{Piece, TokenKind};
use target_code::is_reserved;

/// The byte at an offset, or 0 behind the text.
fn byte(text: &[u8], at: usize) -> u8
    ensures value { result ≡ slice_index text.now at }
    ensures within { result ≢ 0 → at < length text.now }
{
    if at < text.len() { text[at] } else { 0 }
}

fn is_blank(b: u8) -> bool
    ensures { result ≡ spec.is_blank b }
{
    b == b' ' || b == b'\t' || b == b'\r' || b == b'\n'
}

fn is_name_start(b: u8) -> bool
    ensures { result ≡ names.is_name_start b }
{
    b.is_ascii_alphabetic() || b == b'_'
}

fn is_name_byte(b: u8) -> bool
    ensures { result ≡ names.is_name_byte b }
{
    b.is_ascii_alphanumeric() || b == b'_'
}

/// How many bytes of names and numbers the text begins with.
fn word_len(text: &[u8]) -> usize
    ensures value { result ≡ prefix_len names.is_name_byte text.now }
    ensures within { result ≤ length text.now }
    ensures moves { 0 < length text.now → names.is_name_byte (slice_index text.now 0) ≡ true → 1 ≤ result }
{
    let mut end = 0;
    while end < text.len() && is_name_byte(text[end]) {
        end += 1;
    }
    end
}

/// How many digits the text begins with.
fn digits_len(text: &[u8]) -> usize
    ensures value { result ≡ prefix_len digit_byte text.now }
    ensures within { result ≤ length text.now }
{
    let mut end = 0;
    while end < text.len() && text[end].is_ascii_digit() {
        end += 1;
    }
    end
}

/// How many bytes there are up to the end of the line.
fn line_len(text: &[u8]) -> usize
    ensures value { result ≡ prefix_len spec.is_inside text.now }
    ensures within { result ≤ length text.now }
    ensures moves { 0 < length text.now → spec.is_inside (slice_index text.now 0) ≡ true → 1 ≤ result }
{
    let mut end = 0;
    while end < text.len() && text[end] != b'\n' {
        end += 1;
    }
    end
}

/// The name or reserved word at the front.
fn word(text: &[u8]) -> Piece
    requires first { names.is_name_byte (slice_index text.now 0) ≡ true }
    requires some { 0 < length text.now }
    ensures value { result ≡ spec.word text.now }
    ensures within { spec.IsWithin (length text.now) result }
{
    let len = word_len(text);
    if len > 64 {
        Piece::Wrong
    } else if is_reserved(&text[..len]) {
        Piece::Token(TokenKind::Reserved, len)
    } else {
        Piece::Token(TokenKind::Name, len)
    }
}

/// Whether two bytes are a sign.
fn is_pair(b: u8, c: u8) -> bool
    ensures { result ≡ spec.is_pair b c }
{
    (b == b'<' && (c == b'-' || c == b'='))
        || ((b == b'=' || b == b'!') && c == b'=')
        || (b == b'&' && c == b'&')
        || (b == b'|' && c == b'|')
}

/// Whether a byte is a sign.
fn is_single(b: u8) -> bool
    ensures { result ≡ spec.is_single b }
{
    b == b'<'
        || b == b'='
        || b == b'!'
        || b == b'+'
        || b == b'-'
        || b == b'*'
        || b == b'/'
        || b == b'%'
        || b == b'('
        || b == b')'
        || b == b'['
        || b == b']'
        || b == b'{'
        || b == b'}'
        || b == b','
        || b == b':'
}

/// The sign at the front, of one byte or two.
#[tactic(auto, unfolding(nres_core::specs::Front::sign))]
fn sign(b: u8, c: u8) -> Piece
    ensures value { result ≡ spec.sign b c }
    ensures short { spec.IsShort c result }
{
    if is_pair(b, c) {
        Piece::Token(TokenKind::Sign, 2)
    } else if is_single(b) {
        Piece::Token(TokenKind::Sign, 1)
    } else {
        Piece::Wrong
    }
}

/// The number that digits mean, where it has 64 bits.
fn value(text: &[u8]) -> Option<u64>
    ensures { result ≡ spec.value_from 0 text.now }
{
    let mut n: u64 = 0;
    for b in text {
        let more = u128::from(n) * 10 + u128::from(b.saturating_sub(b'0'));
        if more > u128::from(u64::MAX) {
            return None;
        }
        n = more as u64;
    }
    Some(n)
}

/// The number at the front.
#[tactic(auto, unfolding(nres_core::specs::Front::number))]
fn number(text: &[u8]) -> Piece
    requires first { names.is_name_byte (slice_index text.now 0) ≡ true }
    requires some { 0 < length text.now }
    ensures value { result ≡ spec.number text.now }
    ensures within { spec.IsWithin (length text.now) result }
{
    let len = word_len(text);
    if digits_len(text) != len || (len != 1 && byte(text, 0) == b'0') {
        return Piece::Wrong;
    }
    match value(&text[..len]) {
        Some(n) => Piece::Token(TokenKind::Number(n), len),
        None => Piece::Wrong,
    }
}

/// What stands at the front of a text that is not empty.
#[tactic(auto, unfolding(nres_core::specs::Front::front))]
pub fn front(text: &[u8]) -> Piece
    requires { 0 < length text.now }
    ensures value { result ≡ spec.front text.now }
    ensures within { spec.IsWithin (length text.now) result }
{
    let b = byte(text, 0);
    if is_blank(b) {
        Piece::Space(1)
    } else if b == b'#' {
        Piece::Space(line_len(text))
    } else if is_name_start(b) {
        word(text)
    } else if b.is_ascii_digit() {
        number(text)
    } else {
        sign(b, byte(text, 1))
    }
}
