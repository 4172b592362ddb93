//! The tokens of a source.
ghost use Rattle.std.specs.Prelude.{◌≡◌, ◌<◌, ◌≤◌, length, IfOk, IfSome, IfErr};
ghost use Rattle.fpc_base.specs.Tokens.{tokens_of, source_of, place_of, tokens_left, end_of, IsFirst, IsNext, IsSpan, HasForm, LongestIsTaken};

mod bytes;
mod front;
pub mod lexeme;

use crate::refusal::Refusal;
use front::{Front, front_at};

/// What kind of token it is. A word is a keyword (`all`, `some`, `tt`, `ff`, `formula` or `certificate`) or a unit
/// with its sign (`tt+`, `tt-`, `ff+` or `ff-`); every other word is a name.
#[derive(Clone, Copy, PartialEq, Eq, Debug)]
pub enum TokenKind {
    Name,
    Variable,
    Number,
    Word,
    Symbol,
}

/// A token, with its bytes, and the place in the source where they begin.
#[derive(Clone, Copy, Debug)]
pub struct Token<'a> {
    pub kind: TokenKind,
    pub text: &'a [u8],
    pub at: usize,
}

/// A source that is read a token at a time. A copy looks ahead.
#[derive(Clone, Copy, Debug)]
pub struct Tokens<'a> {
    bytes: &'a [u8],
    at: usize,
}

/// A law of the tokens' definition, with nothing to run: what it takes at the front is a token of its kind there, and
/// no longer front of the bytes is a token; where it takes none, no front is.
pub fn longest_is_taken()
    ensures { LongestIsTaken }
{}

/// The first token of the bytes from the start on.
fn token_from<'a>(bytes: &'a [u8], start: usize) -> Result<Option<Token<'a>>, Refusal>
    ensures first { IsFirst result bytes.now start }
    ensures span { IfOk result (λ o. IfSome o (λ t. IsSpan bytes.now start (end_of t) t)) }
    ensures form { IfOk result (λ o. IfSome o (λ t. HasForm t.kind t.text.now)) }
    ensures fault { IfErr result (λ r. (start ≤ r.at) × (r.at < length bytes.now)) }
{
    let mut at = start;
    while at < bytes.len() {
        match front_at(&bytes[at..]) {
            Front::Gap(size) => at += size,
            Front::Piece(kind, size) => {
                let text = &bytes[at..at + size];
                return Ok(Some(Token { kind, text, at }));
            }
            Front::Fault(code) => return Err(Refusal { code, at }),
        }
    }
    Ok(None)
}

impl<'a> Tokens<'a> {
    /// The tokens of the bytes, none of them read.
    pub fn new(bytes: &'a [u8]) -> Tokens<'a>
        ensures source { source_of result ≡ bytes.now }
        ensures tokens { tokens_left result ≡ tokens_of bytes.now }
        ensures place { place_of result ≡ 0 }
    {
        Tokens { bytes, at: 0 }
    }

    /// How many bytes the source has.
    pub fn length(&self) -> usize
        ensures { result ≡ length (source_of self.now) }
    {
        self.bytes.len()
    }

    /// The next token, or `None` at the end. What is refused is refused again by the next call.
    pub fn next(&mut self) -> Result<Option<Token<'a>>, Refusal>
        ensures next { IsNext result (tokens_left self.old) (tokens_left self.new) }
        ensures source { source_of self.new ≡ source_of self.old }
        ensures span { IfOk result (λ o. IfSome o (IsSpan (source_of self.old) (place_of self.old) (place_of self.new))) }
        ensures form { IfOk result (λ o. IfSome o (λ t. HasForm t.kind t.text.now)) }
        ensures fault { IfErr result (λ r. (place_of self.old ≤ r.at) × (r.at < length (source_of self.old))) }
    {
        let found = token_from(self.bytes, self.at);
        match found {
            Ok(Some(token)) => self.at = token.at + token.text.len(),
            Ok(None) => self.at = self.bytes.len(),
            Err(_) => {}
        }
        found
    }
}
