//! Formulas as their nodes.
ghost use Rattle.std.specs.Prelude.{◌≡◌, IfOk};
ghost use Rattle.polarised_formulas.specs.Formula.{formula_of, nodes_of, IsOneFormula};

use crate::node::Node;
use fpc_base::outside::OutOfMemory;
use std::alloc::Global;
use std::marker::Model;

/// A formula, as its nodes in prefix order.
#[derive(Clone, Drop)]
pub struct Formula {
    nodes: Vec<Node>,
}

impl Model for Formula {
    ghost use Rattle.polarised_formulas.specs.Formula.{Formula, formula_code, formula_of, IsOneFormula};

    ghost Value = { Formula };

    ghost coded = { formula_code };

    ghost view = { λ f. formula_of f.nodes.items };

    ghost invariant = { λ f. IsOneFormula f.nodes.items };
}

impl Formula {
    /// The formula of these nodes. Time and memory are linear in their number.
    pub fn from_nodes(alloc: Global, nodes: &[Node]) -> Result<Formula, OutOfMemory>
        requires { IsOneFormula nodes.now }
        ensures { IfOk result (λ f. f ≡ formula_of nodes.now) }
    {
        Ok(Formula {
            nodes: nodes.to_vec(alloc)?,
        })
    }

    /// The formula of these nodes. Constant time.
    pub(crate) fn from_node_list(nodes: Vec<Node>) -> Formula
        requires { IsOneFormula nodes.items }
        ensures { result ≡ formula_of nodes.items }
    {
        Formula { nodes }
    }

    /// The nodes of the formula, which is used up. Constant time.
    pub(crate) fn into_node_list(self) -> Vec<Node>
        ensures { result.items ≡ nodes_of self }
    {
        let Formula { nodes } = self;
        nodes
    }

    /// The nodes in prefix order.
    pub fn nodes(&self) -> &[Node]
        ensures { result.now ≡ nodes_of self.now }
    {
        self.nodes.as_slice()
    }

    /// A copy of the formula. Time and memory are linear in its size.
    pub fn copy(&self) -> Result<Formula, OutOfMemory>
        ensures { IfOk result (λ f. f ≡ self.now) }
    {
        Ok(self.clone()?)
    }
}
