//! Which eigenvariables stand in terms.
ghost use Rattle.std.specs.Prelude.{◌≡◌};
ghost use Rattle.std.specs.List.{list_any};
ghost use Rattle.fpc_terms.specs.Term.{has_eigen_from};
ghost use Rattle.fpc_terms.specs.Scope.{is_eigen_from};

use crate::cell::Cell;
use crate::term::TermBuf;

/// Whether the cell is an eigenvariable with a number of at least n.
pub fn is_eigen_at_least(cell: Cell, n: u64) -> bool
    ensures { result ≡ is_eigen_from n cell }
{
    match cell {
        Cell::Eigen(m) => m >= n,
        _ => false,
    }
}

/// Whether some of the cells is an eigenvariable with a number of at least n.
fn any_eigen_at_least(cells: &[Cell], n: u64) -> bool
    ensures { result ≡ list_any (is_eigen_from n) cells.now }
{
    cells.iter().any(|cell| is_eigen_at_least(*cell, n))
}

/// Whether some eigenvariable of the term has a number of at least n. Time is linear in the term's size.
#[tactic(auto, using(crate::proofs::ScopeFacts::scope_facts))]
pub fn has_eigen_at_least(term: &TermBuf, n: u64) -> bool
    ensures { result ≡ has_eigen_from n term.now }
{
    any_eigen_at_least(term.cells(), n)
}
