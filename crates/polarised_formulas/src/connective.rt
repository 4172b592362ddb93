//! Connectives with two parts, and quantifiers.
ghost use Rattle.std.specs.Prelude.{◌≡◌};
ghost use Rattle.polarised_formulas.specs.Unfinished.{joiner_node, binder_node};

use crate::logic::Polarity;
use crate::node::Node;

/// A connective with two parts.
#[derive(Clone, Copy, PartialEq, Eq, Debug)]
pub enum Joiner {
    And(Polarity),
    Or(Polarity),
    /// The implication of LJF.
    Implies,
}

/// A quantifier.
#[derive(Clone, Copy, PartialEq, Eq, Debug)]
pub enum Binder {
    ForAll,
    Exists,
}

impl Joiner {
    pub(crate) fn node(self) -> Node
        ensures { result ≡ joiner_node self }
    {
        match self {
            Joiner::And(polarity) => Node::And(polarity),
            Joiner::Or(polarity) => Node::Or(polarity),
            Joiner::Implies => Node::Implies,
        }
    }
}

impl Binder {
    pub(crate) fn node(self) -> Node
        ensures { result ≡ binder_node self }
    {
        match self {
            Binder::ForAll => Node::ForAll,
            Binder::Exists => Node::Exists,
        }
    }
}
