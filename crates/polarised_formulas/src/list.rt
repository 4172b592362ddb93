//! Lists of formulas.
ghost use Rattle.std.specs.Prelude.{◌≡◌, ◌<◌, ◌++◌, ◌∷◌, [], OnOk, OnErr, IfOk, Some, length, slice_get};

use crate::formula::Formula;
use fpc_base::outside::OutOfMemory;
use std::alloc::Global;
use std::marker::Model;

/// A list of formulas.
#[derive(Clone, Drop)]
pub struct Formulas {
    items: Vec<Formula>,
}

impl Model for Formulas {
    ghost use Rattle.std.specs.Prelude.{List};
    ghost use Rattle.std.specs.Coded.{coded_list};
    ghost use Rattle.polarised_formulas.specs.Formula.{Formula, formula_code};

    ghost Value = { List Formula };

    ghost coded = { coded_list formula_code };

    ghost view = { λ l. l.items.items };
}

impl Formulas {
    /// The empty list. It takes no memory.
    pub fn new(alloc: Global) -> Formulas
        ensures { result ≡ [] }
    {
        Formulas {
            items: Vec::new(alloc),
        }
    }

    /// Adds a formula at the end.
    pub fn push(&mut self, item: Formula) -> Result<(), OutOfMemory>
        ensures ok { OnOk result (self.new ≡ self.old ++ item ∷ []) }
        ensures err { OnErr result (self.new ≡ self.old) }
    {
        self.items.push(item)?;
        Ok(())
    }

    /// How many formulas there are.
    pub fn len(&self) -> usize
        ensures { result ≡ length self.now }
    {
        self.items.len()
    }

    /// The formula at a place, counted from 0.
    pub fn get(&self, k: usize) -> &Formula
        requires { k < length self.now }
        ensures { slice_get self.now k ≡ Some result.now }
    {
        &self.items[k]
    }

    /// The formulas in order.
    pub fn items(&self) -> &[Formula]
        ensures { result.now ≡ self.now }
    {
        self.items.as_slice()
    }

    /// A copy of the list. Time and memory are linear in its formulas' sizes.
    pub fn copy(&self) -> Result<Formulas, OutOfMemory>
        ensures { IfOk result (λ l. l ≡ self.now) }
    {
        Ok(self.clone()?)
    }

    /// The list with copies of the items behind it. Time and memory are linear in the items' sizes.
    pub fn extended(self, items: &[Formula]) -> Result<Formulas, OutOfMemory>
        ensures { IfOk result (λ l. l ≡ self ++ items.now) }
    {
        let mut list = self;
        for item in items {
            list.push(item.copy()?)?;
        }
        Ok(list)
    }
}
