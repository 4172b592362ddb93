//! The De Morgan dual of a formula of LKF.
ghost use Rattle.std.specs.Prelude.{◌≡◌, ◌↔◌, map, IfOk, IsTrue, not};
ghost use Rattle.polarised_formulas.specs.Formula.{dual_of, other_polarity, IsLkf};
ghost use Rattle.polarised_formulas.specs.Nodes.{node_dual, DualOfDual, PolarityOfDual};

use crate::formula::Formula;
use crate::logic::Polarity;
use crate::node::Node;
use fpc_base::outside::OutOfMemory;
use std::alloc::{AllocError, Global};

/// The other polarity.
pub fn other(polarity: Polarity) -> Polarity
    ensures { result ≡ other_polarity polarity }
{
    match polarity {
        Polarity::Positive => Polarity::Negative,
        Polarity::Negative => Polarity::Positive,
    }
}

/// The node that stands in the dual formula in the place of this one.
pub fn dual_of_node(node: Node) -> Node
    ensures { result ≡ node_dual node }
{
    match node {
        Node::True(p) => Node::False(other(p)),
        Node::False(p) => Node::True(other(p)),
        Node::Atom {
            positive,
            name,
            arguments,
        } => Node::Atom {
            positive: !positive,
            name,
            arguments,
        },
        Node::And(p) => Node::Or(other(p)),
        Node::Or(p) => Node::And(other(p)),
        Node::ForAll => Node::Exists,
        Node::Exists => Node::ForAll,
        Node::Implies | Node::Inside(_) => node,
    }
}

/// Whether each node is the dual of the other list's node at its place.
fn are_dual_nodes(a: &[Node], b: &[Node]) -> bool
    ensures { IsTrue result ↔ (map node_dual a.now ≡ b.now) }
{
    if a.len() != b.len() {
        return false;
    }
    for i in 0..a.len() {
        if dual_of_node(a[i]) != b[i] {
            return false;
        }
    }
    true
}

/// The duals of the nodes.
fn dual_nodes(alloc: Global, nodes: &[Node]) -> Result<Vec<Node>, AllocError>
    ensures { IfOk result (λ v. v.items ≡ map node_dual nodes.now) }
{
    nodes.iter().map(|node| dual_of_node(*node)).collect(alloc)
}

/// Whether the second formula is the dual of the first one. Time is linear in the smaller of their sizes; no memory is taken.
#[tactic(auto, using(crate::proofs::DualFacts::dual_facts))]
pub fn is_dual(a: &Formula, b: &Formula) -> bool
    ensures { IsTrue result ↔ (dual_of a.now ≡ b.now) }
{
    are_dual_nodes(a.nodes(), b.nodes())
}

/// The De Morgan dual of a formula of LKF: units, connectives, quantifiers and the signs of literals turn into their duals, and each polarity into
/// the other one. Time and memory are linear in the formula's size.
#[tactic(auto, using(crate::proofs::DualFacts::dual_facts))]
pub fn dual(alloc: Global, f: &Formula) -> Result<Formula, OutOfMemory>
    requires { IsLkf f.now }
    ensures { IfOk result (λ g. g ≡ dual_of f.now) }
{
    let nodes = dual_nodes(alloc, f.nodes())?;
    Ok(Formula::from_node_list(nodes))
}

/// A law: the dual of a dual is the formula itself.
#[tactic(auto, using(crate::proofs::DualFacts::dual_facts))]
pub fn dual_of_dual()
    ensures { DualOfDual }
{}

/// A law: the dual of a formula of LKF has the other polarity.
#[tactic(auto, using(crate::proofs::DualFacts::dual_facts))]
pub fn polarity_of_dual()
    ensures { PolarityOfDual }
{}
