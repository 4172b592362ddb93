//! Variables by number.
ghost use Rattle.std.specs.Prelude.{◌≡◌, [], true, IfOk, IsOk, OnOk, OnErr, length};
ghost use Rattle.fpc_base.specs.Tokens.{is_one_of};
ghost use Rattle.fpc_terms.specs.Name.{AreDifferent, index_in, with_text, place_in};

use crate::texts::TextTable;
use fpc_base::outside::OutOfMemory;
use std::alloc::Global;
use std::marker::Model;

/// The variables of a text by their names, numbered in the order in which they first came.
#[derive(Drop)]
pub struct VarTable {
    texts: TextTable,
}

impl Model for VarTable {
    ghost use Rattle.std.specs.Prelude.{ℕ, List};

    ghost Value = { List (List ℕ) };

    ghost view = { λ t. t.texts };
}

impl VarTable {
    /// The table with no variables. It takes no memory.
    pub fn new(alloc: Global) -> VarTable
        ensures { result ≡ [] }
    {
        VarTable {
            texts: TextTable::new(alloc),
        }
    }

    /// How many variables there are.
    pub fn count(&self) -> u64
        ensures { result ≡ length self.now }
    {
        self.texts.len() as u64
    }

    /// The number of a name, which gets the next one, from 0, where it has none yet. Time is
    /// logarithmic in the number of names; a name that has a number takes no memory.
    pub fn number(&mut self, name: &[u8]) -> Result<u64, OutOfMemory>
        ensures number { IfOk result (λ k. k ≡ index_in self.new name.now) }
        ensures names { OnOk result (self.new ≡ with_text self.old name.now) }
        ensures known { is_one_of self.old name.now ≡ true → IsOk result }
        ensures err { OnErr result (self.new ≡ self.old) }
    {
        let number = self.texts.number(name)?;
        Ok(number as u64)
    }

    /// The number of a name that is there. It takes no memory; time is logarithmic in the number of
    /// names.
    pub fn find(&self, name: &[u8]) -> Option<u64>
        ensures { result ≡ place_in self.now name.now }
    {
        match self.texts.find(name) {
            Some(number) => Some(number as u64),
            None => None,
        }
    }

    /// Different numbers have different names.
    pub fn distinct(&self)
        ensures { AreDifferent self.now }
    {
        self.texts.distinct();
    }
}
