//! Lists of terms.
ghost use Rattle.std.specs.Prelude.{◌≡◌, ◌<◌, ◌++◌, ◌∷◌, [], OnOk, OnErr, Some, length, slice_get};

use crate::term::TermBuf;
use fpc_base::outside::OutOfMemory;
use std::alloc::Global;
use std::marker::Model;

/// A list of terms.
#[derive(Clone, Drop)]
pub struct Terms {
    items: Vec<TermBuf>,
}

impl Model for Terms {
    ghost use Rattle.std.specs.Prelude.{List};
    ghost use Rattle.std.specs.Coded.{coded_list};
    ghost use Rattle.fpc_terms.specs.Term.{Term, term_code};

    ghost Value = { List Term };

    ghost coded = { coded_list term_code };

    ghost view = { λ l. l.items.items };
}

impl Terms {
    /// The empty list. It takes no memory.
    pub fn new(alloc: Global) -> Terms
        ensures { result ≡ [] }
    {
        Terms {
            items: Vec::new(alloc),
        }
    }

    /// Adds a term at the end.
    pub fn push(&mut self, item: TermBuf) -> Result<(), OutOfMemory>
        ensures ok { OnOk result (self.new ≡ self.old ++ item ∷ []) }
        ensures err { OnErr result (self.new ≡ self.old) }
    {
        self.items.push(item)?;
        Ok(())
    }

    /// How many terms there are.
    pub fn len(&self) -> usize
        ensures { result ≡ length self.now }
    {
        self.items.len()
    }

    /// The term at a place, counted from 0.
    pub fn get(&self, k: usize) -> &TermBuf
        requires { k < length self.now }
        ensures { slice_get self.now k ≡ Some result.now }
    {
        &self.items[k]
    }

    /// The terms in order.
    pub fn items(&self) -> &[TermBuf]
        ensures { result.now ≡ self.now }
    {
        self.items.as_slice()
    }
}
