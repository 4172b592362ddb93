//! Formulas whose nodes know how many nodes their part has.
ghost use Rattle.std.specs.Prelude.{◌≡◌, ◌<◌, ◌≤◌, ◌+◌, suc, IfOk, length, get_or, drop};
ghost use Rattle.polarised_formulas.specs.Formula.{nodes_of};
ghost use Rattle.polarised_formulas.specs.Nodes.{arity, front_length};
ghost use Rattle.polarised_formulas.specs.Sizes.{sizes_of, kept_sizes};

use crate::formula::Formula;
use crate::node::Node;
use crate::parts::arity_of_node;
use fpc_base::outside::OutOfMemory;
use std::alloc::Global;
use std::marker::Model;

/// A formula, with the number of the nodes of each of its parts.
#[derive(Drop)]
pub(crate) struct Tree {
    nodes: Vec<Node>,
    /// The size of the part at each place; empty for a formula of one node.
    sizes: Vec<usize>,
}

impl Model for Tree {
    ghost use Rattle.std.specs.Prelude.{◌≡◌};
    ghost use Rattle.polarised_formulas.specs.Formula.{Formula, formula_code, formula_of, IsOneFormula};
    ghost use Rattle.polarised_formulas.specs.Sizes.{kept_sizes};

    ghost Value = { Formula };

    ghost coded = { formula_code };

    ghost view = { λ t. formula_of t.nodes.items };

    ghost invariant = { λ t. IsOneFormula t.nodes.items × (t.sizes.items ≡ kept_sizes t.nodes.items) };
}

/// The number at a place, or the other one where there is none.
#[inline]
fn size_or(sizes: &[usize], place: usize, other: usize) -> usize
    ensures { result ≡ get_or sizes.now place other }
{
    match sizes.get(place) {
        Some(size) => *size,
        None => other,
    }
}

/// How many nodes the first of the formulas and terms have, as many of these as wanted.
fn length_of(nodes: &[Node], sizes: &[usize], wanted: u64) -> usize
    requires { sizes.now ≡ sizes_of nodes.now }
    ensures { result ≡ front_length wanted nodes.now }
{
    let mut total: usize = 0;
    for i in 0..wanted {
        total += size_or(sizes, total, 0);
    }
    total
}

/// How many nodes the part has whose outermost node stands before these.
fn size_before(node: Node, later: &[Node], sizes: &[usize]) -> usize
    requires sizes { sizes.now ≡ sizes_of later.now }
    requires room { length later.now < 18446744073709551615 }
    ensures { result ≡ suc (front_length (arity node) later.now) }
{
    1 + length_of(later, sizes, arity_of_node(node))
}

/// The sizes at all places. Each is known from those behind it, so the pass goes from the right.
fn sizes_of_nodes(alloc: Global, nodes: &[Node]) -> Result<Vec<usize>, OutOfMemory>
    ensures { IfOk result (λ v. v.items ≡ sizes_of nodes.now) }
{
    let count = nodes.len();
    let mut sizes: Vec<usize> = Vec::with_capacity(alloc, count)?;
    for j in 0..count {
        sizes.push(0)?;
    }
    for k in 0..count {
        let i = count - 1 - k;
        let (_, later) = nodes.split_at(i + 1);
        let (_, known) = sizes.as_slice().split_at(i + 1);
        let size = size_before(nodes[i], later, known);
        sizes[i] = size;
    }
    Ok(sizes)
}

/// The sizes that a tree keeps. For one node they take no memory.
fn kept_sizes(alloc: Global, nodes: &[Node]) -> Result<Vec<usize>, OutOfMemory>
    ensures { IfOk result (λ v. v.items ≡ kept_sizes nodes.now) }
{
    if nodes.len() <= 1 {
        return Ok(Vec::new(alloc));
    }
    sizes_of_nodes(alloc, nodes)
}

/// The place behind the part at a place. A part without a size is one node.
#[inline]
fn end_of_part(nodes: &[Node], sizes: &[usize], place: usize) -> usize
    requires sizes { sizes.now ≡ kept_sizes nodes.now }
    requires within { place < length nodes.now }
    ensures value { result ≡ place + front_length 1 (drop place nodes.now) }
    ensures within { result ≤ length nodes.now }
{
    place + size_or(sizes, place, 1)
}

impl Tree {
    /// The formula with its sizes. Its nodes are not copied. Time is linear in its size, as is the
    /// memory of the sizes, which one node does without.
    pub(crate) fn of_formula(alloc: Global, f: Formula) -> Result<Tree, OutOfMemory>
        ensures { IfOk result (λ t. t ≡ f) }
    {
        let nodes = f.into_node_list();
        let sizes = kept_sizes(alloc, nodes.as_slice())?;
        Ok(Tree { nodes, sizes })
    }

    /// The nodes in prefix order.
    #[inline]
    pub(crate) fn nodes(&self) -> &[Node]
        ensures { result.now ≡ nodes_of self.now }
    {
        self.nodes.as_slice()
    }

    /// The place behind a node.
    #[inline]
    pub(crate) fn next_of(&self, place: usize) -> usize
        requires { place < length (nodes_of self.now) }
        ensures { result ≡ place + 1 }
    {
        let _count = self.nodes().len();
        place + 1
    }

    /// The place behind the part at a place. Constant time.
    #[inline]
    pub(crate) fn end_of(&self, place: usize) -> usize
        requires { place < length (nodes_of self.now) }
        ensures value { result ≡ place + front_length 1 (drop place (nodes_of self.now)) }
        ensures within { result ≤ length (nodes_of self.now) }
    {
        let nodes = self.nodes.as_slice();
        end_of_part(nodes, self.sizes.as_slice(), place)
    }
}
