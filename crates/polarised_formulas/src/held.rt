//! What a table of rules asks of a formula, however a sequent holds it.
ghost use Rattle.std.specs.Prelude.{◌≡◌, ◌↔◌, ◌≤◌, ℕ, IsTrue, List, length};
ghost use Rattle.fpc_terms.specs.Term.{Term};
ghost use Rattle.polarised_formulas.specs.Formula.{Formula, root_node};
ghost use Rattle.polarised_formulas.specs.Closure.{stands_for};
ghost use Rattle.polarised_formulas.specs.Held.{given, closure_reach, literal_arguments};

use crate::argument_cells::{are_same_cells, are_same_nodes, argument_nodes};
use crate::closure::Closure;
use crate::formula::Formula;
use crate::node::Node;
use crate::shape::outermost;
use fpc_terms::term::TermBuf;

/// A term that a step brought, or an eigenvariable.
#[derive(Clone, Copy, PartialEq, Eq, Debug)]
pub enum Given {
    Eigen(u64),
    /// The term at a place of a table.
    Term(usize),
}

/// A formula as a sequent holds it. It may name terms of a table.
pub trait HeldFormula {
    /// The formula that it stands for, by a table of terms.
    ghost stands: { List Term → Self → Formula };

    /// How many terms of the table it needs.
    ghost reach: { Self → ℕ };

    /// The outermost node.
    fn shape(&self) -> Node
        ensures { (ts : List Term) → result ≡ root_node (stands ts self.now) };

    /// Whether two literals have the same arguments, by a table of terms. Other formulas have none.
    /// It takes no memory. Time is linear in the arguments with the terms in them; a term that both
    /// name at the same place counts as one cell. To find what an index or a variable stands for takes
    /// the logarithm of how many there are.
    fn has_arguments_of(&self, other: &Self, terms: &[TermBuf]) -> bool
        requires first { reach self.now ≤ length terms.now }
        requires second { reach other.now ≤ length terms.now }
        ensures { IsTrue result ↔ (literal_arguments (stands terms.now self.now) ≡ literal_arguments (stands terms.now other.now)) };
}

impl HeldFormula for Formula {
    ghost stands = { λ ts f. f };

    ghost reach = { λ f. 0 };

    fn shape(&self) -> Node {
        outermost(self)
    }

    fn has_arguments_of(&self, other: &Formula, _terms: &[TermBuf]) -> bool {
        are_same_nodes(argument_nodes(self.nodes()), argument_nodes(other.nodes()))
    }
}

impl HeldFormula for Closure<Given> {
    ghost stands = { λ ts c. stands_for (given ts) c };

    ghost reach = { λ c. closure_reach c };

    #[inline]
    fn shape(&self) -> Node {
        Closure::shape(self)
    }

    fn has_arguments_of(&self, other: &Closure<Given>, terms: &[TermBuf]) -> bool {
        are_same_cells(self, other, terms)
    }
}
