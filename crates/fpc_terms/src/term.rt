//! Terms as their cells.
ghost use Rattle.std.specs.Prelude.{◌≡◌, IfOk, IsTrue, ◌↔◌};
ghost use Rattle.fpc_terms.specs.Term.{term_of, cells_of, IsOneTerm};

use crate::cell::Cell;
use fpc_base::outside::OutOfMemory;
use std::alloc::Global;
use std::marker::Model;

/// A term, as its cells in prefix order.
#[derive(Clone, Drop)]
pub struct TermBuf {
    cells: Vec<Cell>,
}

impl Model for TermBuf {
    ghost use Rattle.fpc_terms.specs.Term.{Term, term_code, term_of, IsOneTerm};

    ghost Value = { Term };

    ghost coded = { term_code };

    ghost view = { λ b. term_of b.cells.items };

    ghost invariant = { λ b. IsOneTerm b.cells.items };
}

impl TermBuf {
    /// The term of these cells. Time and memory are linear in their number.
    pub fn from_cells(alloc: Global, cells: &[Cell]) -> Result<TermBuf, OutOfMemory>
        requires { IsOneTerm cells.now }
        ensures { IfOk result (λ t. t ≡ term_of cells.now) }
    {
        Ok(TermBuf {
            cells: cells.to_vec(alloc)?,
        })
    }

    /// The term of these cells. It takes no memory.
    pub(crate) fn from_vec(cells: Vec<Cell>) -> TermBuf
        requires { IsOneTerm cells.items }
        ensures { result ≡ term_of cells.items }
    {
        TermBuf { cells }
    }

    /// The cells in prefix order.
    pub fn cells(&self) -> &[Cell]
        ensures { result.now ≡ cells_of self.now }
    {
        self.cells.as_slice()
    }
}

/// Whether two terms are the same. Time is linear in the shorter of them.
#[tactic(auto, using(crate::proofs::TermFacts::term_facts))]
pub fn equal(a: &TermBuf, b: &TermBuf) -> bool
    ensures { IsTrue result ↔ (a.now ≡ b.now) }
{
    equal_cells(a.cells(), b.cells())
}

fn equal_cells(a: &[Cell], b: &[Cell]) -> bool
    ensures { IsTrue result ↔ (a.now ≡ b.now) }
{
    if a.len() != b.len() {
        return false;
    }
    for i in 0..a.len() {
        if a[i] != b[i] {
            return false;
        }
    }
    true
}
