//! Lists of clauses.
ghost use Rattle.std.specs.Prelude.{◌≡◌, ◌<◌, ◌++◌, ◌∷◌, [], OnOk, OnErr, Some, length, slice_get};

use crate::clause::Clause;
use fpc_base::outside::OutOfMemory;
use std::alloc::Global;
use std::marker::Model;

/// A list of clauses.
#[derive(Drop)]
pub struct Clauses {
    items: Vec<Clause>,
}

impl Model for Clauses {
    ghost use Rattle.std.specs.Prelude.{List};
    ghost use Rattle.std.specs.Coded.{coded_list};
    ghost use Rattle.clause_language.specs.declared.clause.Clause.{Clause};
    ghost use Rattle.clause_language.specs.contracts.clause.Clause as clause;

    ghost Value = { List Clause };

    ghost coded = { coded_list clause.the_row.coded };

    ghost view = { λ l. l.items.items };
}

impl Clauses {
    /// The empty list. It takes no memory.
    pub fn new(alloc: Global) -> Clauses
        ensures { result ≡ [] }
    {
        Clauses {
            items: Vec::new(alloc),
        }
    }

    /// Adds a clause at the end.
    pub fn push(&mut self, item: Clause) -> Result<(), OutOfMemory>
        ensures ok { OnOk result (self.new ≡ self.old ++ item ∷ []) }
        ensures err { OnErr result (self.new ≡ self.old) }
    {
        self.items.push(item)?;
        Ok(())
    }

    /// Moves the clauses of another list behind those of this one. Time is linear in their number.
    pub fn append(&mut self, mut other: Clauses) -> Result<(), OutOfMemory>
        ensures ok { OnOk result (self.new ≡ self.old ++ other) }
        ensures err { OnErr result (self.new ≡ self.old) }
    {
        self.items.append(&mut other.items)?;
        Ok(())
    }

    /// How many clauses there are.
    pub fn len(&self) -> usize
        ensures { result ≡ length self.now }
    {
        self.items.len()
    }

    /// The clause at a place, counted from 0.
    pub fn get(&self, k: usize) -> &Clause
        requires { k < length self.now }
        ensures { slice_get self.now k ≡ Some result.now }
    {
        &self.items[k]
    }

    /// The clauses in order.
    pub fn items(&self) -> &[Clause]
        ensures { result.now ≡ self.now }
    {
        self.items.as_slice()
    }
}
