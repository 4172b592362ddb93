//! What the outermost node of a formula says.
ghost use Rattle.std.specs.Prelude.{◌≡◌};
ghost use Rattle.polarised_formulas.specs.Formula.{polarity_of, root_node};
ghost use Rattle.polarised_formulas.specs.Nodes.{node_polarity};

use crate::formula::Formula;
use crate::logic::Polarity;
use crate::node::Node;

/// The polarity of a formula whose outermost node this is.
pub fn polarity_of_node(node: Node) -> Polarity
    ensures { result ≡ node_polarity node }
{
    match node {
        Node::True(p) | Node::False(p) | Node::And(p) | Node::Or(p) => p,
        Node::Atom { positive: true, .. } | Node::Exists | Node::Inside(_) => Polarity::Positive,
        Node::Atom {
            positive: false,
            ..
        }
        | Node::Implies
        | Node::ForAll => Polarity::Negative,
    }
}

/// The outermost node. Constant time.
#[tactic(auto, using(crate::proofs::NodeFacts::first_node_facts))]
pub fn outermost(f: &Formula) -> Node
    ensures { result ≡ root_node f.now }
{
    f.nodes()[0]
}

/// Whether the formula is worked on in the positive or in the negative phase: a connective or unit by its own polarity, a literal by its sign;
/// `all` and `=>` are negative and `some` is positive. Constant time.
#[tactic(auto, using(crate::proofs::NodeFacts::first_node_facts))]
pub fn polarity(f: &Formula) -> Polarity
    ensures { result ≡ polarity_of f.now }
{
    polarity_of_node(outermost(f))
}
