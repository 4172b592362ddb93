//! The names in use, each with its number.
ghost use Rattle.std.specs.Prelude.{◌≡◌, ◌<◌, ◌^◌, [], IfOk, IsOk, OnOk, OnErr, Some, length, slice_get, IsTrue, ◌↔◌};
ghost use Rattle.fpc_terms.specs.Name.{IsName, HasName, AreDifferent, AreNames, IsInterned, Grows};
ghost use Rattle.fpc_terms.specs.Adding.{AddsOnly, IsText};

use crate::name::NameId;
use crate::texts::TextTable;
use fpc_base::outside::OutOfMemory;
use std::alloc::Global;
use std::marker::Model;

/// The names in use. Each has a number, and different numbers have different texts.
#[derive(Drop)]
pub struct Names {
    texts: TextTable,
}

impl Model for Names {
    ghost use Rattle.std.specs.Prelude.{ℕ, List};
    ghost use Rattle.fpc_terms.specs.Name.{AreNames};

    ghost Value = { List (List ℕ) };

    ghost view = { λ n. n.texts };

    ghost invariant = { λ n. AreNames n.texts };
}

impl Names {
    /// The table with no names. It takes no memory.
    pub fn new(alloc: Global) -> Names
        ensures { result ≡ [] }
    {
        Names {
            texts: TextTable::new(alloc),
        }
    }

    /// How many names there are.
    pub fn len(&self) -> usize
        ensures len { result ≡ length self.now }
        ensures few { result < 2 ^ 32 }
    {
        self.texts.len()
    }

    /// Whether there are no names.
    pub fn is_empty(&self) -> bool
        ensures { IsTrue result ↔ (self.now ≡ []) }
    {
        self.texts.len() == 0
    }

    /// The text of a name of this table.
    pub fn text(&self, name: NameId) -> &[u8]
        requires { name < length self.now }
        ensures text { slice_get self.now name ≡ Some result.now }
        ensures is_name { IsName result.now }
    {
        self.texts.text(name.index())
    }

    /// Different ids have different texts.
    pub fn distinct(&self)
        ensures { AreDifferent self.now }
    {
        self.texts.distinct();
    }

    /// Each text is a name.
    pub fn proper(&self)
        ensures { AreNames self.now }
    {
        let _ = &self.texts;
    }

    /// The id of a text, which gets one where it has none yet. Time is logarithmic in the number
    /// of names; a text that has an id takes no memory.
    #[inline(always)]
    pub fn intern(&mut self, text: &[u8]) -> Result<NameId, OutOfMemory>
        requires { IsName text.now }
        ensures id { IfOk result (λ id. slice_get self.new id ≡ Some text.now) }
        ensures names { OnOk result (IsInterned self.old text.now self.new) }
        ensures grows { Grows self.old self.new }
        ensures only { AddsOnly (IsText text.now) self.old self.new }
        ensures known { HasName self.old text.now → IsOk result }
        ensures err { OnErr result (self.new ≡ self.old) }
    {
        let number = self.texts.number(text)?;
        Ok(NameId::new(number))
    }
}
