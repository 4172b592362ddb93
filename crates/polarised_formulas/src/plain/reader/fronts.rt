//! Words, names and connectives at the front of some bytes.
ghost use Rattle.std.specs.Prelude.{◌<◌, ◌≤◌, ℕ, IfSome, length};
ghost use Rattle.polarised_formulas.specs.declared.logic.Logic.TheVariants.{Lkf, Ljf};
ghost use Rattle.polarised_formulas.specs.PlainStanding.{word_meant, operator_of};
ghost use Rattle.polarised_formulas.specs.PlainFronts.{IsWordAt, IsUnitLine, IsLinkAt, IsNameAt};

use crate::connective::Joiner;
use crate::logic::{Logic, Polarity};
use crate::node::Node;
use crate::plain::reader::words::{Word, is_small_letter, name_bytes};

/// The word that the bytes begin with, if any, and how many bytes it has.
pub(crate) fn word_at(logic: Logic, bytes: &[u8]) -> Option<(Word, usize)>
    ensures some { IfSome result (λ r. 0 < r.1) }
    ensures within { IfSome result (λ r. r.1 ≤ length bytes.now) }
    ensures text { IfSome result (λ r. IsWordAt logic bytes.now (word_meant r.0) r.1) }
{
    match logic {
        Logic::Lkf => lkf_word_at(bytes),
        Logic::Ljf => ljf_word_at(bytes),
    }
}

fn lkf_word_at(bytes: &[u8]) -> Option<(Word, usize)>
    ensures { IfSome result (λ r. IsWordAt Lkf bytes.now (word_meant r.0) r.1) }
{
    match bytes {
        [b't', b't', b'+', ..] => Some((Word::True(Polarity::Positive), 3)),
        [b't', b't', b'-', ..] => Some((Word::True(Polarity::Negative), 3)),
        [b'f', b'f', b'+', ..] => Some((Word::False(Polarity::Positive), 3)),
        [b'f', b'f', b'-', ..] => Some((Word::False(Polarity::Negative), 3)),
        [b'a', b'l', b'l', b' ', ..] => Some((Word::All, 4)),
        [b's', b'o', b'm', b'e', b' ', ..] => Some((Word::Some, 5)),
        _ => None,
    }
}

fn ljf_word_at(bytes: &[u8]) -> Option<(Word, usize)>
    ensures { IfSome result (λ r. IsWordAt Ljf bytes.now (word_meant r.0) r.1) }
{
    match bytes {
        [b't', b't', b'+', ..] => Some((Word::True(Polarity::Positive), 3)),
        [b't', b't', b'-', ..] => Some((Word::True(Polarity::Negative), 3)),
        [b'f', b'f', ..] => Some((Word::False(Polarity::Positive), 2)),
        [b'a', b'l', b'l', b' ', ..] => Some((Word::All, 4)),
        [b's', b'o', b'm', b'e', b' ', ..] => Some((Word::Some, 5)),
        _ => None,
    }
}

/// The unit that the bytes begin with as a whole line, if any, and how many bytes it has without the
/// end of the line.
pub(crate) fn unit_line(logic: Logic, bytes: &[u8]) -> Option<(Node, usize)>
    ensures { IfSome result (λ r. IsUnitLine logic bytes.now r.0 r.1) }
{
    match logic {
        Logic::Lkf => lkf_unit_line(bytes),
        Logic::Ljf => ljf_unit_line(bytes),
    }
}

fn lkf_unit_line(bytes: &[u8]) -> Option<(Node, usize)>
    ensures { IfSome result (λ r. IsUnitLine Lkf bytes.now r.0 r.1) }
{
    match bytes {
        [b't', b't', b'+', b'\n', ..] => Some((Node::True(Polarity::Positive), 3)),
        [b't', b't', b'-', b'\n', ..] => Some((Node::True(Polarity::Negative), 3)),
        [b'f', b'f', b'+', b'\n', ..] => Some((Node::False(Polarity::Positive), 3)),
        [b'f', b'f', b'-', b'\n', ..] => Some((Node::False(Polarity::Negative), 3)),
        _ => None,
    }
}

fn ljf_unit_line(bytes: &[u8]) -> Option<(Node, usize)>
    ensures { IfSome result (λ r. IsUnitLine Ljf bytes.now r.0 r.1) }
{
    match bytes {
        [b't', b't', b'+', b'\n', ..] => Some((Node::True(Polarity::Positive), 3)),
        [b't', b't', b'-', b'\n', ..] => Some((Node::True(Polarity::Negative), 3)),
        [b'f', b'f', b'\n', ..] => Some((Node::False(Polarity::Positive), 2)),
        _ => None,
    }
}

/// The connective, with its blanks, that the bytes begin with, if any, and how many bytes it has.
pub(crate) fn link_at(logic: Logic, bytes: &[u8]) -> Option<(Joiner, usize)>
    ensures some { IfSome result (λ r. 0 < r.1) }
    ensures within { IfSome result (λ r. r.1 ≤ length bytes.now) }
    ensures text { IfSome result (λ r. IsLinkAt logic bytes.now (operator_of r.0) r.1) }
{
    match logic {
        Logic::Lkf => lkf_link_at(bytes),
        Logic::Ljf => ljf_link_at(bytes),
    }
}

fn lkf_link_at(bytes: &[u8]) -> Option<(Joiner, usize)>
    ensures { IfSome result (λ r. IsLinkAt Lkf bytes.now (operator_of r.0) r.1) }
{
    match bytes {
        [b' ', b'|', b'-', b' ', ..] => Some((Joiner::Or(Polarity::Negative), 4)),
        [b' ', b'|', b'+', b' ', ..] => Some((Joiner::Or(Polarity::Positive), 4)),
        [b' ', b'&', b'-', b' ', ..] => Some((Joiner::And(Polarity::Negative), 4)),
        [b' ', b'&', b'+', b' ', ..] => Some((Joiner::And(Polarity::Positive), 4)),
        _ => None,
    }
}

fn ljf_link_at(bytes: &[u8]) -> Option<(Joiner, usize)>
    ensures { IfSome result (λ r. IsLinkAt Ljf bytes.now (operator_of r.0) r.1) }
{
    match bytes {
        [b' ', b'&', b'+', b' ', ..] => Some((Joiner::And(Polarity::Positive), 4)),
        [b' ', b'&', b'-', b' ', ..] => Some((Joiner::And(Polarity::Negative), 4)),
        [b' ', b'|', b' ', ..] => Some((Joiner::Or(Polarity::Positive), 3)),
        [b' ', b'=', b'>', b' ', ..] => Some((Joiner::Implies, 4)),
        _ => None,
    }
}

/// How many bytes the name has that the bytes begin with, where its end lies in them and it is not
/// too long.
pub(crate) fn name_at(bytes: &[u8]) -> Option<usize>
    requires { 0 < length bytes.now }
    ensures name { IfSome result (λ n. IsNameAt bytes.now n) }
    ensures within { IfSome result (λ n. n < length bytes.now) }
{
    if !is_small_letter(bytes[0]) {
        return None;
    }
    let n = name_bytes(bytes);
    if n < bytes.len() && n <= 255 {
        Some(n)
    } else {
        None
    }
}
