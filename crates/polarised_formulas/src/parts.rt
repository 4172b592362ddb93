//! The parts of a formula whose outermost node is a binary connective.
ghost use Rattle.std.specs.Prelude.{◌≡◌, ◌≤◌, ◌+◌, Some, IfOk, length};
ghost use Rattle.std.specs.Option.{IsSome};
ghost use Rattle.std.specs.List.{sum_by};
ghost use Rattle.polarised_formulas.specs.Formula.{parts_of};
ghost use Rattle.polarised_formulas.specs.Nodes.{arity, front_length};

use crate::formula::Formula;
use crate::node::Node;
use fpc_base::outside::OutOfMemory;
use fpc_terms::cell::Cell;
use std::alloc::Global;

/// How many formulas and terms stand behind a node as its parts.
pub(crate) fn arity_of_node(node: Node) -> u64
    ensures { result ≡ arity node }
{
    match node {
        Node::True(_) | Node::False(_) => 0,
        Node::Atom { arguments, .. } => arguments as u64,
        Node::And(_) | Node::Or(_) | Node::Implies => 2,
        Node::ForAll | Node::Exists => 1,
        Node::Inside(Cell::App(_, arguments)) => arguments as u64,
        Node::Inside(Cell::Eigen(_) | Cell::Bound(_) | Cell::Var(_)) => 0,
    }
}

/// How many nodes the first of the formulas has. Time is linear in that number.
fn length_of_first(nodes: &[Node]) -> usize
    requires { sum_by arity nodes.now ≤ length nodes.now + 1 }
    ensures { result ≡ front_length 1 nodes.now }
{
    let end = nodes.len();
    let mut wanted: u64 = 1;
    for (i, node) in nodes.iter().enumerate() {
        if wanted == 0 {
            return i;
        }
        wanted = wanted - 1 + arity_of_node(*node);
    }
    end
}

/// The two parts of a conjunction, a disjunction or an implication. Time and memory are linear in the formula's size.
pub fn parts(alloc: Global, f: &Formula) -> Result<(Formula, Formula), OutOfMemory>
    requires { IsSome (parts_of f.now) }
    ensures { IfOk result (λ r. parts_of f.now ≡ Some r) }
{
    let (_, behind) = f.nodes().split_at(1);
    let (front, back) = behind.split_at(length_of_first(behind));
    let first = Formula::from_nodes(alloc, front)?;
    let second = Formula::from_nodes(alloc, back)?;
    Ok((first, second))
}
