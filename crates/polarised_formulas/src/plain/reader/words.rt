//! The words of the plain form, and the bytes of names.
ghost use Rattle.std.specs.Prelude.{◌≡◌, ◌≤◌, List, Some, None, length};
ghost use Rattle.std.specs.List.{prefix_len};
ghost use Rattle.fpc_terms.specs.Name.{is_small_letter, is_name_byte};
ghost use Rattle.polarised_formulas.specs.declared.logic.Logic.TheVariants.{Lkf, Ljf};
ghost use Rattle.polarised_formulas.specs.PlainReading.{first_with, begins_some, word_text, words, link_text, operators, Hole, at_formula};
ghost use Rattle.polarised_formulas.specs.PlainStanding.{word_found, operator_found, quantifier_with, begun, BeginsWord, next_unnamed};

use crate::connective::Joiner;
use crate::logic::{Logic, Polarity};
use crate::plain::reader::Beginning;

/// A word that begins a formula and is no name: a unit, or a quantifier with the blank behind it.
#[derive(Clone, Copy, PartialEq, Eq, Debug)]
pub(crate) enum Word {
    True(Polarity),
    False(Polarity),
    All,
    Some,
}

pub(crate) fn is_small_letter(b: u8) -> bool
    ensures { result ≡ is_small_letter b }
{
    b >= b'a' && b <= b'z'
}

pub(crate) fn is_name_byte(b: u8) -> bool
    ensures { result ≡ is_name_byte b }
{
    is_small_letter(b) || b >= b'A' && b <= b'Z' || b >= b'0' && b <= b'9' || b == b'_'
}

/// How many bytes at the front may stand in a name.
pub(crate) fn name_bytes(bytes: &[u8]) -> usize
    ensures count { result ≡ prefix_len is_name_byte bytes.now }
    ensures within { result ≤ length bytes.now }
{
    bytes.iter().take_while(|b| is_name_byte(**b)).count()
}

/// The word with these bytes, if any.
pub(crate) fn word_with(logic: Logic, text: &[u8]) -> Option<Word>
    ensures { word_found result ≡ first_with (word_text logic) text.now (words logic) }
{
    match logic {
        Logic::Lkf => lkf_word(text),
        Logic::Ljf => ljf_word(text),
    }
}

fn lkf_word(text: &[u8]) -> Option<Word>
    ensures { word_found result ≡ first_with (word_text Lkf) text.now (words Lkf) }
{
    if b"tt+".as_slice() == text {
        Some(Word::True(Polarity::Positive))
    } else if b"tt-".as_slice() == text {
        Some(Word::True(Polarity::Negative))
    } else if b"ff+".as_slice() == text {
        Some(Word::False(Polarity::Positive))
    } else if b"ff-".as_slice() == text {
        Some(Word::False(Polarity::Negative))
    } else {
        quantifier_word(text)
    }
}

fn ljf_word(text: &[u8]) -> Option<Word>
    ensures { word_found result ≡ first_with (word_text Ljf) text.now (words Ljf) }
{
    if b"tt+".as_slice() == text {
        Some(Word::True(Polarity::Positive))
    } else if b"tt-".as_slice() == text {
        Some(Word::True(Polarity::Negative))
    } else if b"ff".as_slice() == text {
        Some(Word::False(Polarity::Positive))
    } else {
        quantifier_word(text)
    }
}

fn quantifier_word(text: &[u8]) -> Option<Word>
    ensures { word_found result ≡ quantifier_with text.now }
{
    if b"all ".as_slice() == text {
        Some(Word::All)
    } else if b"some ".as_slice() == text {
        Some(Word::Some)
    } else {
        None
    }
}

/// How a formula may begin with this byte.
pub(crate) fn begins_with(logic: Logic, b: u8) -> Option<Beginning>
    ensures begun { (hs : List Hole) → next_unnamed logic (at_formula hs) b ≡ begun hs b result }
    ensures letter { (beginning : Beginning) → result ≡ Some beginning → BeginsWord logic b beginning }
{
    if b == b'(' {
        return Some(Beginning::Pair);
    }
    match logic {
        Logic::Lkf => begins_lkf_with(b),
        Logic::Ljf => begins_ljf_with(b),
    }
}

fn begins_lkf_with(b: u8) -> Option<Beginning>
    ensures begun { (hs : List Hole) → Rattle.polarised_formulas.specs.PlainReading.first_byte Lkf hs b ≡ begun hs b result }
    ensures letter { (beginning : Beginning) → result ≡ Some beginning → BeginsWord Lkf b beginning }
{
    if b == b'~' {
        Some(Beginning::Mark(false))
    } else if is_small_letter(b) {
        Some(Beginning::Letter)
    } else {
        None
    }
}

fn begins_ljf_with(b: u8) -> Option<Beginning>
    ensures { (hs : List Hole) → Rattle.polarised_formulas.specs.PlainReading.first_byte Ljf hs b ≡ begun hs b result }
{
    if b == b'+' {
        Some(Beginning::Mark(true))
    } else if b == b'-' {
        Some(Beginning::Mark(false))
    } else if begins_word(&[b]) {
        Some(Beginning::Letter)
    } else {
        None
    }
}

/// Whether some word of LJF begins with these bytes.
pub(crate) fn begins_word(text: &[u8]) -> bool
    ensures { result ≡ begins_some (word_text Ljf) text.now (words Ljf) }
{
    b"tt+".starts_with(text)
        || b"tt-".starts_with(text)
        || b"ff".starts_with(text)
        || b"all ".starts_with(text)
        || b"some ".starts_with(text)
}

/// The connective with these bytes, if any. A blank ends them.
pub(crate) fn operator_with(logic: Logic, text: &[u8]) -> Option<Joiner>
    ensures { operator_found result ≡ first_with (link_text logic) text.now (operators logic) }
{
    match logic {
        Logic::Lkf => lkf_operator(text),
        Logic::Ljf => ljf_operator(text),
    }
}

fn lkf_operator(text: &[u8]) -> Option<Joiner>
    ensures { operator_found result ≡ first_with (link_text Lkf) text.now (operators Lkf) }
{
    if b"|- ".as_slice() == text {
        Some(Joiner::Or(Polarity::Negative))
    } else if b"|+ ".as_slice() == text {
        Some(Joiner::Or(Polarity::Positive))
    } else if b"&- ".as_slice() == text {
        Some(Joiner::And(Polarity::Negative))
    } else if b"&+ ".as_slice() == text {
        Some(Joiner::And(Polarity::Positive))
    } else {
        None
    }
}

fn ljf_operator(text: &[u8]) -> Option<Joiner>
    ensures { operator_found result ≡ first_with (link_text Ljf) text.now (operators Ljf) }
{
    if b"&+ ".as_slice() == text {
        Some(Joiner::And(Polarity::Positive))
    } else if b"&- ".as_slice() == text {
        Some(Joiner::And(Polarity::Negative))
    } else if b"| ".as_slice() == text {
        Some(Joiner::Or(Polarity::Positive))
    } else if b"=> ".as_slice() == text {
        Some(Joiner::Implies)
    } else {
        None
    }
}

/// Whether some connective begins with these bytes.
pub(crate) fn begins_operator(logic: Logic, text: &[u8]) -> bool
    ensures { result ≡ begins_some (link_text logic) text.now (operators logic) }
{
    match logic {
        Logic::Lkf => {
            b"|- ".starts_with(text)
                || b"|+ ".starts_with(text)
                || b"&- ".starts_with(text)
                || b"&+ ".starts_with(text)
        }
        Logic::Ljf => {
            b"&+ ".starts_with(text)
                || b"&- ".starts_with(text)
                || b"| ".starts_with(text)
                || b"=> ".starts_with(text)
        }
    }
}
