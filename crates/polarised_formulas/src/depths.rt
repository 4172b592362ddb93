//! The depths of formulas on a way over nodes. A depth counts the quantifiers around a formula.
ghost use Rattle.std.specs.Prelude.{◌≡◌, [], ◌∷◌, OnOk};
ghost use Rattle.polarised_formulas.specs.Opened.{deeper, parts_at, first_or, later};

use crate::node::Node;
use fpc_base::outside::OutOfMemory;
use std::alloc::Global;
use std::marker::Model;

/// The depths of the formulas still to come, the next one first.
#[derive(Drop)]
pub struct Depths {
    items: Vec<u64>,
}

impl Model for Depths {
    ghost use Rattle.std.specs.Prelude.{ℕ, List, reverse};
    ghost use Rattle.std.specs.Coded.{coded_list, coded_ℕ};

    ghost Value = { List ℕ };

    ghost coded = { coded_list coded_ℕ };

    ghost view = { λ d. reverse d.items.items };
}

impl Depths {
    /// No depths. It takes no memory.
    pub fn new(alloc: Global) -> Depths
        ensures { result ≡ [] }
    {
        Depths {
            items: Vec::new(alloc),
        }
    }

    /// Puts a depth in front.
    pub fn push(&mut self, depth: u64) -> Result<(), OutOfMemory>
        ensures { OnOk result (self.new ≡ depth ∷ self.old) }
    {
        self.items.push(depth)?;
        Ok(())
    }

    /// Takes the next depth out, or gives the other one where there is none.
    pub fn take_next(&mut self, otherwise: u64) -> u64
        ensures next { result ≡ first_or otherwise self.old }
        ensures others { self.new ≡ later self.old }
    {
        match self.items.pop() {
            Some(depth) => depth,
            None => otherwise,
        }
    }

    /// Puts the depths of the parts of a node at a depth in front.
    pub fn push_parts(&mut self, node: &Node, depth: u64) -> Result<(), OutOfMemory>
        ensures { OnOk result (self.new ≡ parts_at node.now depth self.old) }
    {
        match *node {
            Node::And(_) | Node::Or(_) | Node::Implies => {
                self.push(depth)?;
                self.push(depth)
            }
            Node::ForAll | Node::Exists => self.push(one_deeper(depth)),
            Node::True(_) | Node::False(_) | Node::Atom { .. } | Node::Inside(_) => Ok(()),
        }
    }
}

/// The depth below one more quantifier. A formula in memory has fewer quantifiers than the type has numbers.
fn one_deeper(depth: u64) -> u64
    ensures { result ≡ deeper depth }
{
    depth.saturating_add(1)
}
