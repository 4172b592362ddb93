//! What a token says, apart from its place.
ghost use Rattle.std.specs.Prelude.{◌≡◌, ◌∷◌, [], IsTrue, ◌↔◌};
ghost use Rattle.fpc_base.specs.Lexeme.{lexeme_as, lexeme_of, a_sign, sign_of_symbol, sign_of_word};

use super::{Token, TokenKind};

/// A token that is told by its text alone: a symbol, a keyword or a unit.
#[derive(Clone, Copy, PartialEq, Eq, Debug)]
pub enum Sign {
    /// `(`
    OpenParenthesis,
    /// `)`
    CloseParenthesis,
    /// `,`
    Comma,
    /// `.`
    Dot,
    /// `:`
    Colon,
    /// `:-`
    If,
    /// `:=`
    Defined,
    /// `|`
    Bar,
    /// `|+`
    BarPlus,
    /// `|-`
    BarMinus,
    /// `&+`
    AndPlus,
    /// `&-`
    AndMinus,
    /// `=>`
    Arrow,
    /// `~`
    Tilde,
    /// `+`
    Plus,
    /// `-`
    Minus,
    /// `all`
    All,
    /// `some`
    Some,
    /// `tt+`
    TruePlus,
    /// `tt-`
    TrueMinus,
    /// `ff+`
    FalsePlus,
    /// `ff-`
    FalseMinus,
    /// `ff`, with no sign behind it
    False,
    /// `formula`
    Formula,
    /// `certificate`
    Certificate,
}

/// What a token says. A name, a variable and a number keep their text.
#[derive(Clone, Copy, Debug)]
pub enum Lexeme<'a> {
    Name(&'a [u8]),
    Variable(&'a [u8]),
    Number(&'a [u8]),
    Sign(Sign),
    /// The keyword `tt` with no sign behind it, which stands in no file.
    Unused,
}

impl<'a> Token<'a> {
    /// What the token says. It takes no memory.
    pub fn lexeme(&self) -> Lexeme<'a>
        ensures { lexeme_as result ≡ lexeme_of self.now.kind self.now.text.now }
    {
        match self.kind {
            TokenKind::Name => Lexeme::Name(self.text),
            TokenKind::Variable => Lexeme::Variable(self.text),
            TokenKind::Number => Lexeme::Number(self.text),
            TokenKind::Symbol => said(symbol(self.text)),
            TokenKind::Word => said(word(self.text)),
        }
    }
}

impl<'a> Lexeme<'a> {
    /// Whether it is this sign.
    pub fn is(self, sign: Sign) -> bool
        ensures { IsTrue result ↔ (lexeme_as self.entry ≡ a_sign sign) }
    {
        match self {
            Lexeme::Sign(own) => own == sign,
            _ => false,
        }
    }
}

/// The lexeme of a sign, where there is one.
fn said<'a>(sign: Option<Sign>) -> Lexeme<'a>
    ensures { lexeme_as result ≡ Rattle.fpc_base.specs.Lexeme.said sign }
{
    match sign {
        Some(sign) => Lexeme::Sign(sign),
        None => Lexeme::Unused,
    }
}

/// The sign of a symbol of one byte.
fn short_symbol(byte: u8) -> Option<Sign>
    ensures { result ≡ sign_of_symbol (byte ∷ []) }
{
    match byte {
        b'(' => Some(Sign::OpenParenthesis),
        b')' => Some(Sign::CloseParenthesis),
        b',' => Some(Sign::Comma),
        b'.' => Some(Sign::Dot),
        b':' => Some(Sign::Colon),
        b'|' => Some(Sign::Bar),
        b'~' => Some(Sign::Tilde),
        b'+' => Some(Sign::Plus),
        b'-' => Some(Sign::Minus),
        _ => None,
    }
}

/// The sign of a symbol of two bytes.
fn long_symbol(first: u8, second: u8) -> Option<Sign>
    ensures { result ≡ sign_of_symbol (first ∷ second ∷ []) }
{
    match (first, second) {
        (b':', b'-') => Some(Sign::If),
        (b':', b'=') => Some(Sign::Defined),
        (b'|', b'+') => Some(Sign::BarPlus),
        (b'|', b'-') => Some(Sign::BarMinus),
        (b'&', b'+') => Some(Sign::AndPlus),
        (b'&', b'-') => Some(Sign::AndMinus),
        (b'=', b'>') => Some(Sign::Arrow),
        _ => None,
    }
}

fn symbol(text: &[u8]) -> Option<Sign>
    ensures { result ≡ sign_of_symbol text.now }
{
    match text {
        [byte] => short_symbol(*byte),
        [first, second] => long_symbol(*first, *second),
        _ => None,
    }
}

fn word(text: &[u8]) -> Option<Sign>
    ensures { result ≡ sign_of_word text.now }
{
    if text == b"all".as_slice() {
        Some(Sign::All)
    } else if text == b"some".as_slice() {
        Some(Sign::Some)
    } else if text == b"tt+".as_slice() {
        Some(Sign::TruePlus)
    } else if text == b"tt-".as_slice() {
        Some(Sign::TrueMinus)
    } else if text == b"ff+".as_slice() {
        Some(Sign::FalsePlus)
    } else if text == b"ff-".as_slice() {
        Some(Sign::FalseMinus)
    } else if text == b"ff".as_slice() {
        Some(Sign::False)
    } else if text == b"formula".as_slice() {
        Some(Sign::Formula)
    } else if text == b"certificate".as_slice() {
        Some(Sign::Certificate)
    } else {
        None
    }
}
