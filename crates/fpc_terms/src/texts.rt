//! Texts, numbered in the order in which they first came.
ghost use Rattle.std.specs.Prelude.{◌≡◌, ◌<◌, ◌^◌, ◌++◌, ◌∷◌, [], true, false, IfOk, IfSome, IsOk, OnOk, OnErr, Some, length, slice_get};
ghost use Rattle.fpc_base.specs.Tokens.{is_one_of};
ghost use Rattle.fpc_terms.specs.Name.{AreDifferent, index_in, with_text, place_in};

use crate::hints::Hints;
use fpc_base::outside::OutOfMemory;
use std::alloc::Global;
use std::collections::BTreeMap;
use std::marker::Model;

/// How many texts a table may hold.
const MOST: usize = 0xffff_ffff;

/// Different texts, each with its place as its number.
#[derive(Drop)]
pub(crate) struct TextTable {
    texts: Vec<Vec<u8>>,
    numbers: BTreeMap<Vec<u8>, u32>,
    hints: Hints,
}

impl Model for TextTable {
    ghost use Rattle.std.specs.Prelude.{ℕ, List, map};
    ghost use Rattle.fpc_terms.specs.Name.{Numbers};

    ghost Value = { List (List ℕ) };

    ghost view = { λ t. map (λ text. text.items) t.texts.items };

    ghost invariant = { λ t. Numbers t.numbers (map (λ text. text.items) t.texts.items) };
}

impl TextTable {
    /// The table with no texts. It takes no memory.
    pub(crate) fn new(alloc: Global) -> TextTable
        ensures { result ≡ [] }
    {
        TextTable {
            texts: Vec::new(alloc),
            numbers: BTreeMap::new(alloc),
            hints: Hints::new(alloc),
        }
    }

    /// How many texts there are.
    pub(crate) fn len(&self) -> usize
        ensures len { result ≡ length self.now }
        ensures few { result < 2 ^ 32 }
    {
        self.texts.len()
    }

    /// The text with a number.
    pub(crate) fn text(&self, number: usize) -> &[u8]
        requires { number < length self.now }
        ensures { slice_get self.now number ≡ Some result.now }
    {
        self.texts[number].as_slice()
    }

    /// Different numbers have different texts.
    pub(crate) fn distinct(&self)
        ensures { AreDifferent self.now }
    {
        let _ = &self.texts;
    }

    /// The number of a text that is there. Time is logarithmic in the number of texts, and constant
    /// where the text's hint is right.
    pub(crate) fn find(&self, text: &[u8]) -> Option<u32>
        ensures { result ≡ place_in self.now text.now }
    {
        match self.hinted(text) {
            Some(number) => Some(number),
            None => self.searched(text),
        }
    }

    /// The number of a text, where its hint is right.
    #[inline(always)]
    fn hinted(&self, text: &[u8]) -> Option<u32>
        ensures { IfSome result (λ k. place_in self.now text.now ≡ Some k) }
    {
        let place = self.hints.place(text)?;
        match self.texts.get(place as usize) {
            Some(kept) => {
                if kept.as_slice() == text {
                    return Some(place);
                }
                None
            }
            None => None,
        }
    }

    /// The number of a text that is there, without its hint.
    fn searched(&self, text: &[u8]) -> Option<u32>
        ensures { result ≡ place_in self.now text.now }
    {
        self.numbers.get(text).copied()
    }

    /// The number of a text, which gets the next one where it has none yet. Time is logarithmic in
    /// the number of texts, and constant where the text's hint is right; a text that has a number
    /// takes no memory.
    #[inline(always)]
    pub(crate) fn number(&mut self, text: &[u8]) -> Result<u32, OutOfMemory>
        ensures number { IfOk result (λ k. k ≡ index_in self.new text.now) }
        ensures texts { OnOk result (self.new ≡ with_text self.old text.now) }
        ensures known { is_one_of self.old text.now ≡ true → IsOk result }
        ensures err { OnErr result (self.new ≡ self.old) }
    {
        match self.hinted(text) {
            Some(number) => Ok(number),
            None => self.number_unhinted(text),
        }
    }

    /// The number of a text, which gets a hint.
    #[inline(never)]
    fn number_unhinted(&mut self, text: &[u8]) -> Result<u32, OutOfMemory>
        ensures number { IfOk result (λ k. k ≡ index_in self.new text.now) }
        ensures texts { OnOk result (self.new ≡ with_text self.old text.now) }
        ensures known { is_one_of self.old text.now ≡ true → IsOk result }
        ensures err { OnErr result (self.new ≡ self.old) }
    {
        match self.searched(text) {
            Some(number) => {
                self.hints.set(text, number);
                Ok(number)
            }
            None => self.add(text),
        }
    }

    fn add(&mut self, text: &[u8]) -> Result<u32, OutOfMemory>
        requires { is_one_of self.old text.now ≡ false }
        ensures number { IfOk result (λ k. k ≡ index_in self.new text.now) }
        ensures texts { OnOk result (self.new ≡ self.old ++ text.now ∷ []) }
        ensures err { OnErr result (self.new ≡ self.old) }
    {
        let alloc = *self.texts.allocator();
        let place = self.texts.len();
        if place == MOST {
            return Err(OutOfMemory);
        }
        self.hints.begin()?;
        let key = text.to_vec(alloc)?;
        let kept = text.to_vec(alloc)?;
        self.texts.reserve(1)?;
        self.numbers.insert(key, place as u32)?;
        self.texts.push(kept)?;
        self.hints.set(text, place as u32);
        Ok(place as u32)
    }
}
