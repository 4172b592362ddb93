//! Opening a quantified formula by a term.
ghost use Rattle.std.specs.Prelude.{◌≡◌, [], ◌∷◌, ◌++◌, OnOk, IfOk, Some};
ghost use Rattle.std.specs.Option.{IsSome};
ghost use Rattle.fpc_terms.specs.Term.{Each, Always, Never};
ghost use Rattle.polarised_formulas.specs.Formula.{inside_before, opened};
ghost use Rattle.polarised_formulas.specs.Opened.{opened_cell, opened_node, parts_at, first_or, later, depth_after, pending_after};

use crate::depths::Depths;
use crate::formula::Formula;
use crate::node::Node;
use fpc_base::outside::OutOfMemory;
use fpc_terms::cell::Cell;
use fpc_terms::term::TermBuf;
use std::alloc::Global;

/// Puts cells behind nodes.
fn push_cells(nodes: &mut Vec<Node>, cells: &[Cell]) -> Result<(), OutOfMemory>
    ensures { OnOk result (nodes.new.items ≡ nodes.old.items ++ inside_before cells.now []) }
{
    for cell in cells {
        nodes.push(Node::Inside(*cell))?;
    }
    Ok(())
}

/// Puts a cell at a depth behind nodes: the term's cells in the place of the index that is bound outside of the formula.
fn push_opened_cell(
    nodes: &mut Vec<Node>,
    cell: Cell,
    depth: u64,
    t: &TermBuf,
) -> Result<(), OutOfMemory>
    ensures { OnOk result (nodes.new.items ≡ nodes.old.items ++ inside_before (opened_cell t.now depth cell) []) }
{
    match cell {
        Cell::Bound(k) if k as u64 == depth => push_cells(nodes, t.cells()),
        _ => push_cells(nodes, &[cell]),
    }
}

/// The nodes of a formula that is being opened.
#[derive(Drop)]
struct Opening {
    /// The nodes so far.
    nodes: Vec<Node>,
    /// The depth of the literal whose cells come next.
    depth: u64,
    /// The depths of the formulas still to come.
    pending: Depths,
}

impl Opening {
    /// Goes on by a node.
    fn open_node(&mut self, node: &Node, t: &TermBuf) -> Result<(), OutOfMemory>
        ensures nodes { OnOk result (self.new.nodes.items ≡ self.old.nodes.items ++ opened_node t.now self.old.depth node.now) }
        ensures depth { OnOk result (self.new.depth ≡ depth_after node.now self.old.depth self.old.pending) }
        ensures pending { OnOk result (self.new.pending ≡ pending_after node.now self.old.depth self.old.pending) }
    {
        match *node {
            Node::Inside(cell) => {
                let depth = self.depth;
                push_opened_cell(&mut self.nodes, cell, depth, t)
            }
            _ => self.open_formula(node),
        }
    }

    /// Goes on by the outermost node of the next formula.
    fn open_formula(&mut self, node: &Node) -> Result<(), OutOfMemory>
        ensures nodes { OnOk result (self.new.nodes.items ≡ self.old.nodes.items ++ node.now ∷ []) }
        ensures depth { OnOk result (self.new.depth ≡ first_or self.old.depth self.old.pending) }
        ensures pending { OnOk result (self.new.pending ≡ parts_at node.now (first_or self.old.depth self.old.pending) (later self.old.pending)) }
    {
        let outer = self.depth;
        let depth = self.pending.take_next(outer);
        self.depth = depth;
        self.pending.push_parts(node, depth)?;
        self.nodes.extend_from_slice(&[*node])?;
        Ok(())
    }
}

/// The body of a quantified formula with a term in the place of the index that the quantifier binds. The term has no bound index, so nothing in it
/// is captured. Time and memory are linear in the size of the result and of the formula.
pub fn open_with(alloc: Global, f: &Formula, t: &TermBuf) -> Result<Formula, OutOfMemory>
    requires quantified { IsSome (opened t.now f.now) }
    requires unbound { Each Always Never Always t.now }
    ensures { IfOk result (λ g. opened t.now f.now ≡ Some g) }
{
    let (_, body) = f.nodes().split_at(1);
    let mut pending = Depths::new(alloc);
    pending.push(0)?;
    let mut opening = Opening {
        nodes: Vec::with_capacity(alloc, body.len())?,
        depth: 0,
        pending,
    };
    for node in body {
        opening.open_node(node, t)?;
    }
    let Opening { nodes, .. } = opening;
    Ok(Formula::from_node_list(nodes))
}
