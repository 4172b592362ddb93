//! Terms substituted for variables in formulas.
ghost use Rattle.std.specs.Prelude.{◌≡◌, ◌++◌, ◌∷◌, [], IfOk, OnOk, map};
ghost use Rattle.std.specs.List.{flat_map};
ghost use Rattle.fpc_terms.specs.Open.{at_one, constant, later};
ghost use Rattle.polarised_formulas.specs.Formula.{inside_before};
ghost use Rattle.polarised_formulas.specs.OpenFormula.{put_formula};
ghost use Rattle.polarised_formulas.specs.NodePut.{node_put};

use crate::formula::Formula;
use crate::list::Formulas;
use crate::node::Node;
use fpc_base::outside::OutOfMemory;
use fpc_terms::cell::Cell;
use fpc_terms::name::NameId;
use fpc_terms::term::TermBuf;
use std::alloc::Global;

/// Adds cells to nodes.
fn push_cells(nodes: &mut Vec<Node>, cells: &[Cell]) -> Result<(), OutOfMemory>
    ensures { OnOk result (nodes.new.items ≡ nodes.old.items ++ inside_before cells.now []) }
{
    for cell in cells {
        nodes.push(Node::Inside(*cell))?;
    }
    Ok(())
}

/// Adds a node to nodes; the cells of a term in place of the variable.
fn push_with_term(
    nodes: &mut Vec<Node>,
    node: Node,
    variable: u64,
    by: &TermBuf,
) -> Result<(), OutOfMemory>
    ensures { OnOk result (nodes.new.items
        ≡ nodes.old.items ++ node_put (at_one variable by.now) node) }
{
    if let Node::Inside(Cell::Var(number)) = node {
        if number == variable {
            return push_cells(nodes, by.cells());
        }
    }
    nodes.push(node)?;
    Ok(())
}

fn nodes_with_term(
    alloc: Global,
    nodes: &[Node],
    variable: u64,
    by: &TermBuf,
) -> Result<Vec<Node>, OutOfMemory>
    ensures { IfOk result (λ new. new.items
        ≡ flat_map (node_put (at_one variable by.now)) nodes.now) }
{
    let mut new = Vec::new(alloc);
    for node in nodes {
        push_with_term(&mut new, *node, variable, by)?;
    }
    Ok(new)
}

/// The formula with a term for a variable. Time and memory are linear in the size of what comes
/// out.
pub fn formula_with_term(
    alloc: Global,
    formula: &Formula,
    variable: u64,
    by: &TermBuf,
) -> Result<Formula, OutOfMemory>
    ensures { IfOk result (λ f. f ≡ put_formula (at_one variable by.now) formula.now) }
{
    let nodes = nodes_with_term(alloc, formula.nodes(), variable, by)?;
    Formula::from_nodes(alloc, nodes.as_slice())
}

/// The formulas with a term for a variable.
pub fn formulas_with_term(
    alloc: Global,
    formulas: &[Formula],
    variable: u64,
    by: &TermBuf,
) -> Result<Formulas, OutOfMemory>
    ensures { IfOk result (λ fs. fs ≡ map (put_formula (at_one variable by.now)) formulas.now) }
{
    let mut found = Formulas::new(alloc);
    for formula in formulas {
        found.push(formula_with_term(alloc, formula, variable, by)?)?;
    }
    Ok(found)
}

/// The node, with a number later by `offset` where it is a variable.
fn with_later_number(node: Node, offset: u64) -> Result<Node, OutOfMemory>
    ensures { IfOk result (λ new. node_put (later offset) node ≡ new ∷ []) }
{
    match node {
        Node::Inside(Cell::Var(number)) => match offset.checked_add(number) {
            Some(number) => Ok(Node::Inside(Cell::Var(number))),
            // No table holds so many variables.
            None => Err(OutOfMemory),
        },
        other => Ok(other),
    }
}

fn nodes_with_later_variables(
    alloc: Global,
    nodes: &[Node],
    offset: u64,
) -> Result<Vec<Node>, OutOfMemory>
    ensures { IfOk result (λ new. new.items ≡ flat_map (node_put (later offset)) nodes.now) }
{
    let mut new = Vec::with_capacity(alloc, nodes.len())?;
    for node in nodes {
        new.push(with_later_number(*node, offset)?)?;
    }
    Ok(new)
}

/// The formula with each variable's number later by `offset`. Time and memory are linear in the
/// formula's size.
pub fn formula_with_later_variables(
    alloc: Global,
    formula: &Formula,
    offset: u64,
) -> Result<Formula, OutOfMemory>
    ensures { IfOk result (λ f. f ≡ put_formula (later offset) formula.now) }
{
    let nodes = nodes_with_later_variables(alloc, formula.nodes(), offset)?;
    Formula::from_nodes(alloc, nodes.as_slice())
}

/// The node, or the constant where it is a variable.
fn constant_node(node: Node, name: NameId) -> Node
    ensures { node_put (constant name) node ≡ result ∷ [] }
{
    match node {
        Node::Inside(Cell::Var(_)) => Node::Inside(Cell::App(name, 0)),
        other => other,
    }
}

fn nodes_with_constant(
    alloc: Global,
    nodes: &[Node],
    name: NameId,
) -> Result<Vec<Node>, OutOfMemory>
    ensures { IfOk result (λ new. new.items ≡ flat_map (node_put (constant name)) nodes.now) }
{
    let mut new = Vec::with_capacity(alloc, nodes.len())?;
    for node in nodes {
        new.push(constant_node(*node, name))?;
    }
    Ok(new)
}

/// The formula with a constant for each variable. Time and memory are linear in the formula's size.
pub fn formula_with_constant(
    alloc: Global,
    formula: &Formula,
    name: NameId,
) -> Result<Formula, OutOfMemory>
    ensures { IfOk result (λ f. f ≡ put_formula (constant name) formula.now) }
{
    let nodes = nodes_with_constant(alloc, formula.nodes(), name)?;
    Formula::from_nodes(alloc, nodes.as_slice())
}
