//! Stored formulas with their indexes, of the sequents of either logic.
ghost use Rattle.std.specs.Prelude.{◌≡◌, ◌++◌, ◌∷◌, [], IfOk, OnErr, OnOk, map};
ghost use Rattle.fpc_terms.specs.Open.{at_one};
ghost use Rattle.search_model.specs.StoredFormulas.{put_stored};

use fpc_base::outside::OutOfMemory;
use fpc_terms::substitution::with_term;
use fpc_terms::term::TermBuf;
use polarised_formulas::formula::Formula;
use polarised_formulas::substitution::formula_with_term;
use std::alloc::Global;
use std::marker::Model;

/// A stored formula with its index.
#[derive(Clone, Drop)]
pub struct Stored {
    pub index: TermBuf,
    pub formula: Formula,
}

/// The stored formulas of a sequent, in the order in which they were stored.
#[derive(Clone, Drop)]
pub struct Store {
    items: Vec<Stored>,
}

impl Model for Store {
    ghost use Rattle.std.specs.Prelude.{List};
    ghost use Rattle.std.specs.Coded.{coded_list};
    ghost use Rattle.search_model.specs.declared.stored.Stored.{Stored};
    ghost use Rattle.search_model.specs.contracts.stored.Stored as stored;

    ghost Value = { List Stored };

    ghost coded = { coded_list stored.the_row.coded };

    ghost view = { λ l. l.items.items };
}

impl Store {
    /// No formulas. It takes no memory.
    pub fn new(alloc: Global) -> Store
        ensures { result ≡ [] }
    {
        Store {
            items: Vec::new(alloc),
        }
    }

    /// Stores a formula under an index.
    pub fn push(&mut self, index: TermBuf, formula: Formula) -> Result<(), OutOfMemory>
        ensures ok { OnOk result (self.new
            ≡ self.old ++ record { index = index; formula = formula } ∷ []) }
        ensures err { OnErr result (self.new ≡ self.old) }
    {
        self.items.push(Stored { index, formula })?;
        Ok(())
    }

    /// The stored formulas in order.
    pub fn items(&self) -> &[Stored]
        ensures { result.now ≡ self.now }
    {
        self.items.as_slice()
    }

    /// A copy. Time and memory are linear in the size of the formulas.
    pub fn copy(&self) -> Result<Store, OutOfMemory>
        ensures { IfOk result (λ l. l ≡ self.now) }
    {
        Ok(self.clone()?)
    }

    /// The stored formulas with a term for a variable, in their indexes too. Time and memory are
    /// linear in the size of what comes out.
    pub fn with_term(
        &self,
        alloc: Global,
        variable: u64,
        term: &TermBuf,
    ) -> Result<Store, OutOfMemory>
        ensures { IfOk result (λ l. l ≡ map (put_stored (at_one variable term.now)) self.now) }
    {
        let mut found = Store::new(alloc);
        for one in self.items.as_slice() {
            let index = with_term(alloc, &one.index, variable, term)?;
            let formula = formula_with_term(alloc, &one.formula, variable, term)?;
            found.push(index, formula)?;
        }
        Ok(found)
    }
}
