//! Words and places at the front of some bytes.
ghost use Rattle.std.specs.Prelude.{◌≡◌, ◌≤◌, ℕ, List, IfSome, length};
ghost use Rattle.polarised_formulas.specs.declared.logic.Logic.{Logic};
ghost use Rattle.polarised_formulas.specs.declared.logic.Logic.TheVariants.{Lkf, Ljf};
ghost use Rattle.explicit_form.specs.StepText.{word_text};
ghost use Rattle.explicit_form.specs.Feeding.{line_length};
ghost use Rattle.explicit_form.specs.Fronts.{IsFound, IsPlaceAt, IsWordAt};

use crate::word::{Bare, Placed, Word, Written};
use polarised_formulas::logic::{Logic, Side};
use polarised_formulas::plain::digits::{is_digit, with_digit};

/// The word of the logic that the bytes begin with, with its last byte, if any, and how many bytes it has.
#[inline(always)]
pub(crate) fn word_at(logic: Logic, bytes: &[u8]) -> Option<(Word, usize)>
    ensures { IfSome result (λ r. IsWordAt logic bytes.now r.0 × (r.1 ≡ length (word_text r.0))) }
{
    match logic {
        Logic::Lkf => lkf_word(bytes),
        Logic::Ljf => ljf_word(bytes),
    }
}

/// The first byte tells which words it may be.
#[inline(always)]
fn lkf_word(bytes: &[u8]) -> Option<(Word, usize)>
    ensures { IfSome result (λ r. IsFound Lkf bytes.now r.0 r.1) }
{
    match bytes {
        [b's', ..] => s_word(bytes),
        [b'd', ..] => d_word(bytes),
        [b'i', ..] => i_word(bytes),
        [b'o', ..] => o_word(bytes),
        [b'a', ..] => a_word(bytes),
        [b't', ..] => t_word(bytes),
        [b'r', ..] => r_word(bytes),
        [b'f', ..] => f_word(bytes),
        [b'c', ..] => c_word(bytes),
        [b'e', ..] => e_word(bytes),
        _ => None,
    }
}

#[inline(always)]
fn s_word(bytes: &[u8]) -> Option<(Word, usize)>
    ensures { IfSome result (λ r. IsFound Lkf bytes.now r.0 r.1) }
{
    match bytes {
        [b's', b't', b'o', b'r', b'e', b'\n', ..] => Some((Word::Bare(Bare::Store), 6)),
        [b's', b'o', b'm', b'e', b' ', ..] => Some((Word::Written(Written::Exists), 5)),
        _ => None,
    }
}

#[inline(always)]
fn d_word(bytes: &[u8]) -> Option<(Word, usize)>
    ensures { IfSome result (λ r. IsFound Lkf bytes.now r.0 r.1) }
{
    match bytes {
        [b'd', b'e', b'c', b'i', b'd', b'e', b' ', ..] => Some((Word::Placed(Placed::Decide), 7)),
        _ => None,
    }
}

#[inline(always)]
fn o_word(bytes: &[u8]) -> Option<(Word, usize)>
    ensures { IfSome result (λ r. IsFound Lkf bytes.now r.0 r.1) }
{
    match bytes {
        [b'o', b'r', b'-', b'\n', ..] => Some((Word::Bare(Bare::OrN), 4)),
        [b'o', b'r', b'+', b' ', b'l', b'e', b'f', b't', b'\n', ..] => Some((
            Word::Bare(Bare::OrP(Side::Left)),
            9,
        )),
        [
            b'o',
            b'r',
            b'+',
            b' ',
            b'r',
            b'i',
            b'g',
            b'h',
            b't',
            b'\n',
            ..
        ] => Some((Word::Bare(Bare::OrP(Side::Right)), 10)),
        _ => None,
    }
}

#[inline(always)]
fn a_word(bytes: &[u8]) -> Option<(Word, usize)>
    ensures { IfSome result (λ r. IsFound Lkf bytes.now r.0 r.1) }
{
    match bytes {
        [b'a', b'l', b'l', b'\n', ..] => Some((Word::Bare(Bare::Every), 4)),
        [b'a', b'n', b'd', b'-', b'\n', ..] => Some((Word::Bare(Bare::AndN), 5)),
        [b'a', b'n', b'd', b'+', b'\n', ..] => Some((Word::Bare(Bare::AndP), 5)),
        _ => None,
    }
}

#[inline(always)]
fn t_word(bytes: &[u8]) -> Option<(Word, usize)>
    ensures { IfSome result (λ r. IsFound Lkf bytes.now r.0 r.1) }
{
    match bytes {
        [b't', b't', b'-', b'\n', ..] => Some((Word::Bare(Bare::TrueN), 4)),
        [b't', b't', b'+', b'\n', ..] => Some((Word::Bare(Bare::TrueP), 4)),
        _ => None,
    }
}

#[inline(always)]
fn r_word(bytes: &[u8]) -> Option<(Word, usize)>
    ensures { IfSome result (λ r. IsFound Lkf bytes.now r.0 r.1) }
{
    match bytes {
        [b'r', b'e', b'l', b'e', b'a', b's', b'e', b'\n', ..] => Some((
            Word::Bare(Bare::Release),
            8,
        )),
        _ => None,
    }
}

#[inline(always)]
fn i_word(bytes: &[u8]) -> Option<(Word, usize)>
    ensures { IfSome result (λ r. IsFound Lkf bytes.now r.0 r.1) }
{
    match bytes {
        [b'i', b'n', b'i', b't', b' ', ..] => Some((Word::Placed(Placed::Init), 5)),
        _ => None,
    }
}

#[inline(always)]
fn f_word(bytes: &[u8]) -> Option<(Word, usize)>
    ensures { IfSome result (λ r. IsFound Lkf bytes.now r.0 r.1) }
{
    match bytes {
        [b'f', b'f', b'-', b'\n', ..] => Some((Word::Bare(Bare::FalseN), 4)),
        _ => None,
    }
}

#[inline(always)]
fn c_word(bytes: &[u8]) -> Option<(Word, usize)>
    ensures { IfSome result (λ r. IsFound Lkf bytes.now r.0 r.1) }
{
    match bytes {
        [b'c', b'u', b't', b' ', ..] => Some((Word::Written(Written::Cut), 4)),
        _ => None,
    }
}

#[inline(always)]
fn e_word(bytes: &[u8]) -> Option<(Word, usize)>
    ensures { IfSome result (λ r. IsFound Lkf bytes.now r.0 r.1) }
{
    match bytes {
        [b'e', b'n', b'd', b'\n', ..] => Some((Word::End, 4)),
        _ => None,
    }
}

/// The first two bytes tell which words it may be.
#[inline(never)]
fn ljf_word(bytes: &[u8]) -> Option<(Word, usize)>
    ensures { IfSome result (λ r. IsFound Ljf bytes.now r.0 r.1) }
{
    match bytes {
        [b'l', b'-', ..] => left_word(bytes),
        [b'r', b'-', ..] => right_word(bytes),
        [b'l', ..] => left_focus_word(bytes),
        [b'r', ..] => right_focus_word(bytes),
        _ => other_ljf_word(bytes),
    }
}

fn left_word(bytes: &[u8]) -> Option<(Word, usize)>
    ensures { IfSome result (λ r. IsFound Ljf bytes.now r.0 r.1) }
{
    match bytes {
        [b'l', b'-', b't', b't', b'\n', ..] => Some((Word::Bare(Bare::LTrue), 5)),
        [b'l', b'-', b'f', b'f', b'\n', ..] => Some((Word::Bare(Bare::LFalse), 5)),
        [b'l', b'-', b'a', b'n', b'd', b'\n', ..] => Some((Word::Bare(Bare::LAnd), 6)),
        [b'l', b'-', b'o', b'r', b'\n', ..] => Some((Word::Bare(Bare::LOr), 5)),
        [b'l', b'-', b's', b'o', b'm', b'e', b'\n', ..] => Some((Word::Bare(Bare::LExists), 7)),
        [b'l', b'-', b's', b't', b'o', b'r', b'e', b'\n', ..] => Some((
            Word::Bare(Bare::LStore),
            8,
        )),
        _ => None,
    }
}

fn right_word(bytes: &[u8]) -> Option<(Word, usize)>
    ensures { IfSome result (λ r. IsFound Ljf bytes.now r.0 r.1) }
{
    match bytes {
        [b'r', b'-', b't', b't', b'\n', ..] => Some((Word::Bare(Bare::RTrue), 5)),
        [b'r', b'-', b'a', b'n', b'd', b'\n', ..] => Some((Word::Bare(Bare::RAnd), 6)),
        [b'r', b'-', b'i', b'm', b'p', b'\n', ..] => Some((Word::Bare(Bare::RImp), 6)),
        [b'r', b'-', b'a', b'l', b'l', b'\n', ..] => Some((Word::Bare(Bare::REvery), 6)),
        [b'r', b'-', b's', b't', b'o', b'r', b'e', b'\n', ..] => Some((
            Word::Bare(Bare::RStore),
            8,
        )),
        _ => None,
    }
}

fn left_focus_word(bytes: &[u8]) -> Option<(Word, usize)>
    ensures { IfSome result (λ r. IsFound Ljf bytes.now r.0 r.1) }
{
    match bytes {
        [
            b'l',
            b'f',
            b'-',
            b'a',
            b'n',
            b'd',
            b' ',
            b'l',
            b'e',
            b'f',
            b't',
            b'\n',
            ..
        ] => Some((Word::Bare(Bare::FocLAnd(Side::Left)), 12)),
        [
            b'l',
            b'f',
            b'-',
            b'a',
            b'n',
            b'd',
            b' ',
            b'r',
            b'i',
            b'g',
            b'h',
            b't',
            b'\n',
            ..
        ] => Some((Word::Bare(Bare::FocLAnd(Side::Right)), 13)),
        [b'l', b'f', b'-', b'i', b'm', b'p', b'\n', ..] => Some((Word::Bare(Bare::FocLImp), 7)),
        [b'l', b'f', b'-', b'a', b'l', b'l', b' ', ..] => Some((
            Word::Written(Written::FocLEvery),
            7,
        )),
        [b'l', b'f', b'-', b'i', b'n', b'i', b't', b'\n', ..] => Some((
            Word::Bare(Bare::FocLInit),
            8,
        )),
        [
            b'l',
            b'f',
            b'-',
            b'r',
            b'e',
            b'l',
            b'e',
            b'a',
            b's',
            b'e',
            b'\n',
            ..
        ] => Some((Word::Bare(Bare::FocLRelease), 11)),
        _ => None,
    }
}

fn right_focus_word(bytes: &[u8]) -> Option<(Word, usize)>
    ensures { IfSome result (λ r. IsFound Ljf bytes.now r.0 r.1) }
{
    match bytes {
        [b'r', b'f', b'-', b't', b't', b'\n', ..] => Some((Word::Bare(Bare::FocRTrue), 6)),
        [b'r', b'f', b'-', b'a', b'n', b'd', b'\n', ..] => Some((Word::Bare(Bare::FocRAnd), 7)),
        [
            b'r',
            b'f',
            b'-',
            b'o',
            b'r',
            b' ',
            b'l',
            b'e',
            b'f',
            b't',
            b'\n',
            ..
        ] => Some((Word::Bare(Bare::FocROr(Side::Left)), 11)),
        [
            b'r',
            b'f',
            b'-',
            b'o',
            b'r',
            b' ',
            b'r',
            b'i',
            b'g',
            b'h',
            b't',
            b'\n',
            ..
        ] => Some((Word::Bare(Bare::FocROr(Side::Right)), 12)),
        [b'r', b'f', b'-', b's', b'o', b'm', b'e', b' ', ..] => Some((
            Word::Written(Written::FocRExists),
            8,
        )),
        [b'r', b'f', b'-', b'i', b'n', b'i', b't', b' ', ..] => Some((
            Word::Placed(Placed::FocRInit),
            8,
        )),
        [
            b'r',
            b'f',
            b'-',
            b'r',
            b'e',
            b'l',
            b'e',
            b'a',
            b's',
            b'e',
            b'\n',
            ..
        ] => Some((Word::Bare(Bare::FocRRelease), 11)),
        _ => None,
    }
}

fn other_ljf_word(bytes: &[u8]) -> Option<(Word, usize)>
    ensures { IfSome result (λ r. IsFound Ljf bytes.now r.0 r.1) }
{
    match bytes {
        [b'd', b'e', b'c', b'i', b'd', b'e', b'-', b'l', b' ', ..] => Some((
            Word::Placed(Placed::DecideL),
            9,
        )),
        [b'd', b'e', b'c', b'i', b'd', b'e', b'-', b'r', b'\n', ..] => Some((
            Word::Bare(Bare::DecideR),
            9,
        )),
        [b'c', b'u', b't', b' ', ..] => Some((Word::Written(Written::Cut), 4)),
        [b'e', b'n', b'd', b'\n', ..] => Some((Word::End, 4)),
        _ => None,
    }
}

/// How many bytes there are up to and with the first end of a line, or in all.
pub(crate) fn line_length(bytes: &[u8]) -> usize
    ensures count { result ≡ line_length bytes.now }
    ensures within { result ≤ length bytes.now }
{
    for (i, b) in bytes.iter().enumerate() {
        if *b == b'\n' {
            return i + 1;
        }
    }
    bytes.len()
}

/// The number that the bytes are up to the first end of a line, and how many bytes these are.
#[inline(always)]
pub(crate) fn place_at(bytes: &[u8]) -> Option<(u32, usize)>
    ensures { IfSome result (λ r. IsPlaceAt bytes.now r.0 r.1) }
{
    if bytes.is_empty() || !is_digit(bytes[0]) {
        return None;
    }
    let mut place = u32::from(bytes[0] - b'0');
    let mut n = 1;
    while n < bytes.len() {
        let b = bytes[n];
        if b == b'\n' {
            return Some((place, n + 1));
        }
        match with_digit(place, b) {
            Some(grown) => place = grown,
            None => return None,
        }
        n += 1;
    }
    None
}
