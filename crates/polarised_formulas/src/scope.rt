//! Which eigenvariables stand in formulas, and which terms and formulas a step may bring in at a
//! level.
ghost use Rattle.std.specs.Prelude.{◌≡◌, OnOk, IfOk};
ghost use Rattle.std.specs.List.{list_all, list_any};
ghost use Rattle.polarised_formulas.specs.Formula.{has_eigen_in};
ghost use Rattle.polarised_formulas.specs.Nodes.{is_eigen_node_from};
ghost use Rattle.polarised_formulas.specs.Opened.{depth_after, pending_after};
ghost use Rattle.polarised_formulas.specs.Scope.{is_scoped, is_scoped_cell, has_implication, has_disjunction, is_cut_node, may_be_cut};

use crate::depths::Depths;
use crate::formula::Formula;
use crate::logic::{Logic, Polarity};
use crate::node::Node;
use fpc_base::outside::OutOfMemory;
use fpc_terms::cell::Cell;
use fpc_terms::scope::is_eigen_at_least;
use fpc_terms::term::TermBuf;
use std::alloc::Global;

/// Whether the node is an eigenvariable with a number of at least n.
fn is_eigen_node_at_least(node: Node, n: u64) -> bool
    ensures { result ≡ is_eigen_node_from n node }
{
    match node {
        Node::Inside(cell) => is_eigen_at_least(cell, n),
        _ => false,
    }
}

/// Whether some of the nodes is an eigenvariable with a number of at least n.
fn any_eigen_at_least(nodes: &[Node], n: u64) -> bool
    ensures { result ≡ list_any (is_eigen_node_from n) nodes.now }
{
    nodes.iter().any(|node| is_eigen_node_at_least(*node, n))
}

/// Whether some eigenvariable of the formula has a number of at least n. Time is linear in the formula's size.
#[tactic(auto, using(crate::proofs::EigenFacts::eigen_facts))]
pub fn has_eigen_at_least(f: &Formula, n: u64) -> bool
    ensures { result ≡ has_eigen_in n f.now }
{
    any_eigen_at_least(f.nodes(), n)
}

/// Whether the cell may stand at a level in a term under so many quantifiers.
fn is_scoped_cell(cell: Cell, level: u64, depth: u64) -> bool
    ensures { result ≡ is_scoped_cell level depth cell }
{
    match cell {
        Cell::Eigen(number) => number < level,
        Cell::Bound(index) => (index as u64) < depth,
        Cell::Var(_) => false,
        Cell::App(_, _) => true,
    }
}

/// Whether each of the cells may stand at a level in a term that no quantifier is around.
fn are_scoped_cells(cells: &[Cell], level: u64) -> bool
    ensures { result ≡ list_all (is_scoped_cell level 0) cells.now }
{
    cells.iter().all(|cell| is_scoped_cell(*cell, level, 0))
}

/// Whether the term is in scope at a level: it has no variable and no bound index, and its
/// eigenvariables are below the level. Time is linear in the term's size.
#[tactic(auto, using(crate::proofs::ScopeNodes::scope_facts))]
pub fn is_in_scope(term: &TermBuf, level: u64) -> bool
    ensures { result ≡ is_scoped level 0 term.now }
{
    are_scoped_cells(term.cells(), level)
}

/// Whether the logic has implications.
fn has_implication(logic: Logic) -> bool
    ensures { result ≡ has_implication logic }
{
    match logic {
        Logic::Lkf => false,
        Logic::Ljf => true,
    }
}

/// Whether the logic has disjunctions and a falsity of the polarity.
fn has_disjunction(logic: Logic, polarity: Polarity) -> bool
    ensures { result ≡ has_disjunction logic polarity }
{
    match logic {
        Logic::Lkf => true,
        Logic::Ljf => polarity == Polarity::Positive,
    }
}

/// Whether the node may stand at a level in a cut formula, under so many quantifiers.
fn is_cut_node(logic: Logic, node: Node, level: u64, depth: u64) -> bool
    ensures { result ≡ is_cut_node logic level depth node }
{
    match node {
        Node::Inside(cell) => is_scoped_cell(cell, level, depth),
        Node::Implies => has_implication(logic),
        Node::False(polarity) | Node::Or(polarity) => has_disjunction(logic, polarity),
        Node::True(_) | Node::Atom { .. } | Node::And(_) | Node::ForAll | Node::Exists => true,
    }
}

/// A walk over a formula's nodes.
#[derive(Drop)]
struct Walk {
    /// The depth of the literal whose cells come next; at the first node, that of the whole formula.
    depth: u64,
    /// The depths of the parts still to come.
    pending: Depths,
}

impl Walk {
    /// Goes on by a node.
    fn pass(&mut self, node: &Node) -> Result<(), OutOfMemory>
        ensures depth { OnOk result (self.new.depth ≡ depth_after node.now self.old.depth self.old.pending) }
        ensures pending { OnOk result (self.new.pending ≡ pending_after node.now self.old.depth self.old.pending) }
    {
        match *node {
            Node::Inside(_) => Ok(()),
            _ => {
                let outer = self.depth;
                let depth = self.pending.take_next(outer);
                self.depth = depth;
                self.pending.push_parts(node, depth)
            }
        }
    }
}

/// Whether the formula may be cut at a level: it is of the logic, it has no variable and no free
/// bound index, and its eigenvariables are below the level. Time is linear in the formula's size,
/// and memory in its depth; a formula without parts takes none.
pub fn may_be_cut(alloc: Global, logic: Logic, f: &Formula, level: u64) -> Result<bool, OutOfMemory>
    ensures { IfOk result (λ b. b ≡ may_be_cut logic level 0 f.now) }
{
    let nodes = f.nodes();
    let mut walk = Walk {
        depth: 0,
        pending: Depths::new(alloc),
    };
    for node in nodes {
        if !is_cut_node(logic, *node, level, walk.depth) {
            return Ok(false);
        }
        walk.pass(node)?;
    }
    Ok(true)
}
