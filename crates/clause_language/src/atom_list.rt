//! Lists of atoms.
ghost use Rattle.std.specs.Prelude.{◌≡◌, ◌<◌, ◌++◌, ◌∷◌, [], OnOk, OnErr, Some, length, slice_get};

use crate::atom::Atom;
use fpc_base::outside::OutOfMemory;
use std::alloc::Global;
use std::marker::Model;

/// A list of atoms.
#[derive(Drop)]
pub struct Atoms {
    items: Vec<Atom>,
}

impl Model for Atoms {
    ghost use Rattle.std.specs.Prelude.{List};
    ghost use Rattle.std.specs.Coded.{coded_list};
    ghost use Rattle.clause_language.specs.declared.atom.Atom.{Atom};
    ghost use Rattle.clause_language.specs.contracts.atom.Atom as atom;

    ghost Value = { List Atom };

    ghost coded = { coded_list atom.the_row.coded };

    ghost view = { λ l. l.items.items };
}

impl Atoms {
    /// The empty list. It takes no memory.
    pub fn new(alloc: Global) -> Atoms
        ensures { result ≡ [] }
    {
        Atoms {
            items: Vec::new(alloc),
        }
    }

    /// Adds an atom at the end.
    pub fn push(&mut self, item: Atom) -> Result<(), OutOfMemory>
        ensures ok { OnOk result (self.new ≡ self.old ++ item ∷ []) }
        ensures err { OnErr result (self.new ≡ self.old) }
    {
        self.items.push(item)?;
        Ok(())
    }

    /// How many atoms there are.
    pub fn len(&self) -> usize
        ensures { result ≡ length self.now }
    {
        self.items.len()
    }

    /// The atom at a place, counted from 0.
    pub fn get(&self, k: usize) -> &Atom
        requires { k < length self.now }
        ensures { slice_get self.now k ≡ Some result.now }
    {
        &self.items[k]
    }

    /// The atoms in order.
    pub fn items(&self) -> &[Atom]
        ensures { result.now ≡ self.now }
    {
        self.items.as_slice()
    }
}
