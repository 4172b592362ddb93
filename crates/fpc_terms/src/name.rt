//! Names by number.
ghost use Rattle.std.specs.Prelude.{◌≡◌, ℕ, IsTrue, ◌↔◌};
ghost use Rattle.std.specs.List.{list_all};
ghost use Rattle.fpc_terms.specs.Name.{IsName, begins_name, is_keyword, is_small_letter, is_name_byte};

use std::marker::Model;

/// A name, by its number in the `Names` that gave it.
#[derive(Clone, Copy, PartialEq, Eq, Debug)]
pub struct NameId {
    number: u32,
}

impl Model for NameId {
    ghost use Rattle.std.specs.Prelude.{ℕ};

    ghost Value = { ℕ };

    ghost view = { λ a. a.number };

    ghost inverse = { λ n. record { number = n } };
}

impl NameId {
    pub(crate) fn new(number: u32) -> NameId
        ensures { result ≡ number }
    {
        NameId { number }
    }

    pub(crate) fn index(self) -> usize
        ensures { result ≡ self }
    {
        self.number as usize
    }
}

/// Whether a text is a name: a small letter, then letters, digits and `_`, at most 255 bytes, and no keyword (`all`, `some`, `tt`, `ff`, `formula`
/// or `certificate`).
pub fn is_name(text: &[u8]) -> bool
    ensures { IsTrue result ↔ IsName text.now }
{
    begins_name(text) && !is_keyword(text) && text.len() <= 255
}

fn begins_name(text: &[u8]) -> bool
    ensures { result ≡ begins_name text.now }
{
    match text.split_first() {
        Some((first, rest)) => is_small_letter(*first) && are_name_bytes(rest),
        None => false,
    }
}

fn is_keyword(text: &[u8]) -> bool
    ensures { result ≡ is_keyword text.now }
{
    text == b"all".as_slice()
        || text == b"some".as_slice()
        || text == b"tt".as_slice()
        || text == b"ff".as_slice()
        || text == b"formula".as_slice()
        || text == b"certificate".as_slice()
}

fn are_name_bytes(text: &[u8]) -> bool
    ensures { result ≡ list_all is_name_byte text.now }
{
    text.iter().all(|b| is_name_byte(*b))
}

fn is_small_letter(b: u8) -> bool
    ensures { result ≡ is_small_letter b }
{
    b >= b'a' && b <= b'z'
}

fn is_name_byte(b: u8) -> bool
    ensures { result ≡ is_name_byte b }
{
    is_small_letter(b) || b >= b'A' && b <= b'Z' || b >= b'0' && b <= b'9' || b == b'_'
}
