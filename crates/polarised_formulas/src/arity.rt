//! How many arguments names have: at most 255 each, by the type of a node.
ghost use Rattle.std.specs.Prelude.{◌≡◌, ◌≤◌};
ghost use Rattle.std.specs.List.{All};
ghost use Rattle.polarised_formulas.specs.Size.{HasFewArguments, HasFewInStep, IsFewNode};

use crate::formula::Formula;
use crate::node::Node;
use crate::step::Step;
use fpc_terms::arity::{few as few_in_term, few_cell};

/// The node has at most 255 arguments.
fn few_node(node: Node)
    ensures { IsFewNode node }
{
    match node {
        Node::Atom { .. } => {}
        Node::Inside(cell) => few_cell(cell),
        _ => {}
    }
}

/// Each of the nodes has at most 255 arguments.
fn few_nodes(nodes: &[Node])
    ensures { All IsFewNode nodes.now }
{
    for node in nodes {
        few_node(*node);
    }
}

/// Each name of a formula has at most 255 arguments. Time is linear in the formula's size.
#[tactic(auto, using(crate::proofs::ArityFacts::few_of))]
pub fn few(formula: &Formula)
    ensures { HasFewArguments formula.now }
{
    few_nodes(formula.nodes());
}

/// So has each name in a step.
pub fn few_in_step(step: &Step)
    ensures { HasFewInStep step.now }
{
    match step {
        Step::Exists(term) | Step::FocLEvery(term) | Step::FocRExists(term) => few_in_term(term),
        Step::Cut(formula) => few(formula),
        _ => {}
    }
}

/// So has each name in some steps. Time is linear in their size.
pub fn few_in_steps(steps: &[Step])
    ensures { All HasFewInStep steps.now }
{
    for step in steps {
        few_in_step(step);
    }
}
