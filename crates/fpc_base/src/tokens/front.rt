//! What stands at the front of some bytes.
ghost use Rattle.std.specs.Prelude.{◌≡◌, ℕ, ◌+◌, ◌<◌, ◌≤◌, List, [], ◌∷◌, false, IsTrue, length};
ghost use Rattle.fpc_base.specs.declared.tokens.TokenKind.TheVariants.{Symbol};
ghost use Rattle.fpc_base.specs.declared.tokens.front.Front.TheVariants.{Piece};
ghost use Rattle.fpc_base.specs.Tokens.{is_one_of, is_small, symbols, unit_words, keywords, begins_with_sign, limited, word_of, symbol_of, short_symbol_of, front_of, size_of};

use crate::refusal::Code;
use crate::tokens::TokenKind;
use crate::tokens::bytes::{digits, is_small, line_bytes, word_bytes};

/// The most bytes of a name or a variable.
const MOST_NAME_BYTES: usize = 255;

/// The most digits of a number.
const MOST_DIGITS: usize = 9;

/// A blank or a comment, or a token, with the number of its bytes; or why there is no token.
#[derive(Clone, Copy)]
pub enum Front {
    Gap(usize),
    Piece(TokenKind, usize),
    Fault(Code),
}

fn limited(most: usize, kind: TokenKind, size: usize) -> Front
    ensures { result ≡ limited most kind size }
{
    if size <= most {
        Front::Piece(kind, size)
    } else {
        Front::Fault(Code::LongName)
    }
}

fn is_unit_word(text: &[u8]) -> bool
    ensures { result ≡ is_one_of unit_words text.now }
{
    text == b"tt".as_slice() || text == b"ff".as_slice()
}

fn is_keyword(text: &[u8]) -> bool
    ensures { result ≡ is_one_of keywords text.now }
{
    text == b"all".as_slice()
        || text == b"some".as_slice()
        || text == b"tt".as_slice()
        || text == b"ff".as_slice()
        || text == b"formula".as_slice()
        || text == b"certificate".as_slice()
}

fn begins_with_sign(bytes: &[u8]) -> bool
    ensures { result ≡ begins_with_sign bytes.now }
{
    match bytes {
        [b'+' | b'-', ..] => true,
        _ => false,
    }
}

/// The word that the bytes of the text are, with the bytes behind it.
fn word(text: &[u8], behind: &[u8]) -> Front
    requires { 0 < length text.now }
    ensures word { result ≡ word_of text.now behind.now }
    ensures some { 0 < size_of result }
    ensures within { size_of result ≤ length text.now + length behind.now }
{
    if is_unit_word(text) && begins_with_sign(behind) {
        Front::Piece(TokenKind::Word, text.len() + 1)
    } else if is_keyword(text) {
        Front::Piece(TokenKind::Word, text.len())
    } else {
        limited(MOST_NAME_BYTES, TokenKind::Name, text.len())
    }
}

fn is_short_symbol(byte: u8) -> bool
    ensures { result ≡ is_one_of symbols (byte ∷ []) }
{
    match byte {
        b'(' | b')' | b',' | b'.' | b':' | b'|' | b'~' | b'+' | b'-' => true,
        _ => false,
    }
}

fn is_long_symbol(first: u8, second: u8) -> bool
    ensures { result ≡ is_one_of symbols (first ∷ second ∷ []) }
{
    match first {
        b':' => second == b'-' || second == b'=',
        b'|' | b'&' => second == b'+' || second == b'-',
        b'=' => second == b'>',
        _ => false,
    }
}

fn short_symbol(byte: u8) -> Front
    ensures { result ≡ short_symbol_of byte }
{
    if is_short_symbol(byte) {
        Front::Piece(TokenKind::Symbol, 1)
    } else {
        Front::Fault(Code::BadByte)
    }
}

fn symbol(first: u8, rest: &[u8]) -> Front
    ensures symbol { result ≡ symbol_of first rest.now }
    ensures some { 0 < size_of result }
    ensures within { size_of result ≤ 1 + length rest.now }
{
    match rest {
        [second, ..] if is_long_symbol(first, *second) => Front::Piece(TokenKind::Symbol, 2),
        _ => short_symbol(first),
    }
}

/// Whether the byte is a parenthesis or a comma: a symbol with which no longer one begins.
fn is_separator(byte: u8) -> bool
    ensures { (rest : List ℕ) → IsTrue result → front_of byte rest ≡ Piece Symbol 1 }
{
    match byte {
        b'(' | b')' | b',' => true,
        _ => false,
    }
}

/// What stands at the front of bytes that begin with no small letter.
fn other_front(first: u8, rest: &[u8]) -> Front
    requires { is_small first ≡ false }
    ensures front { result ≡ front_of first rest.now }
    ensures some { 0 < size_of result }
    ensures within { size_of result ≤ 1 + length rest.now }
{
    match first {
        b' ' | b'\t' | b'\n' | b'\r' => Front::Gap(1),
        b'%' => Front::Gap(1 + line_bytes(rest)),
        b'A'..=b'Z' => limited(MOST_NAME_BYTES, TokenKind::Variable, 1 + word_bytes(rest)),
        b'0' => Front::Piece(TokenKind::Number, 1),
        b'1'..=b'9' => limited(MOST_DIGITS, TokenKind::Number, 1 + digits(rest)),
        _ => symbol(first, rest),
    }
}

/// What stands at the front of the bytes.
pub fn front_at(bytes: &[u8]) -> Front
    requires { 0 < length bytes.now }
    ensures front { (b : ℕ) (rest : List ℕ) → bytes.now ≡ b ∷ rest → result ≡ front_of b rest }
    ensures some { 0 < size_of result }
    ensures within { size_of result ≤ length bytes.now }
{
    let first = bytes[0];
    let rest = &bytes[1..];
    if is_separator(first) {
        Front::Piece(TokenKind::Symbol, 1)
    } else if is_small(first) {
        let (text, behind) = bytes.split_at(1 + word_bytes(rest));
        word(text, behind)
    } else {
        other_front(first, rest)
    }
}
