//! Lists of declared formulas.
ghost use Rattle.std.specs.Prelude.{◌≡◌, ◌<◌, ◌++◌, ◌∷◌, [], OnOk, OnErr, Some, length, slice_get};

use crate::declaration::DeclaredFormula;
use fpc_base::outside::OutOfMemory;
use std::alloc::Global;
use std::marker::Model;

/// A list of declared formulas.
#[derive(Drop)]
pub struct Declared {
    items: Vec<DeclaredFormula>,
}

impl Model for Declared {
    ghost use Rattle.std.specs.Prelude.{List};
    ghost use Rattle.std.specs.Coded.{coded_list};
    ghost use Rattle.clause_language.specs.declared.declaration.DeclaredFormula.{DeclaredFormula};
    ghost use Rattle.clause_language.specs.contracts.declaration.DeclaredFormula as declaration;

    ghost Value = { List DeclaredFormula };

    ghost coded = { coded_list declaration.the_row.coded };

    ghost view = { λ l. l.items.items };
}

impl Declared {
    /// The empty list. It takes no memory.
    pub fn new(alloc: Global) -> Declared
        ensures { result ≡ [] }
    {
        Declared {
            items: Vec::new(alloc),
        }
    }

    /// Adds a declared formula at the end.
    pub fn push(&mut self, item: DeclaredFormula) -> Result<(), OutOfMemory>
        ensures ok { OnOk result (self.new ≡ self.old ++ item ∷ []) }
        ensures err { OnErr result (self.new ≡ self.old) }
    {
        self.items.push(item)?;
        Ok(())
    }

    /// Moves the declared formulas of another list behind those of this one. Time is linear in their number.
    pub fn append(&mut self, mut other: Declared) -> Result<(), OutOfMemory>
        ensures ok { OnOk result (self.new ≡ self.old ++ other) }
        ensures err { OnErr result (self.new ≡ self.old) }
    {
        self.items.append(&mut other.items)?;
        Ok(())
    }

    /// How many declared formulas there are.
    pub fn len(&self) -> usize
        ensures { result ≡ length self.now }
    {
        self.items.len()
    }

    /// The declared formula at a place, counted from 0.
    pub fn get(&self, k: usize) -> &DeclaredFormula
        requires { k < length self.now }
        ensures { slice_get self.now k ≡ Some result.now }
    {
        &self.items[k]
    }

    /// The declared formulas in order.
    pub fn items(&self) -> &[DeclaredFormula]
        ensures { result.now ≡ self.now }
    {
        self.items.as_slice()
    }
}
