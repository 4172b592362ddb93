//! Formulas that are built from the left, with no recursion.
ghost use Rattle.std.specs.Prelude.{◌≡◌, ℕ, ◌<◌, ◌+◌, ◌^◌, ◌++◌, ◌∷◌, [], List, Bool, true, false, ◌&&◌, length, take, drop, IsTrue, IfOk, OnOk, OnErr, ◌↔◌, Some, None, slice_set};
ghost use Rattle.fpc_terms.specs.Term.{count, all_before};
ghost use Rattle.fpc_terms.specs.Partial.{arguments_of};
ghost use Rattle.polarised_formulas.specs.declared.node.Node.TheVariants.{Atom, Implies};
ghost use Rattle.polarised_formulas.specs.Formula.{truth, falsity, atom, inside_before, nodes_of};
ghost use Rattle.polarised_formulas.specs.Unfinished.{nothing, joiner_node, holes_in, quantifiers_in, is_wanting, placed, opened, quantified, left, takes_joiner, joined, takes_close, closed, whole, begins_under, under_left, unders_left, count_unders, first_slot, first_turned, begins_second, second_left};

use crate::connective::{Binder, Joiner};
use crate::formula::Formula;
use crate::logic::Polarity;
use crate::node::Node;
use fpc_base::outside::OutOfMemory;
use fpc_terms::builder::TermBuilder;
use fpc_terms::cell::Cell;
use fpc_terms::name::NameId;
use std::alloc::Global;
use std::marker::Model;
use std::mem;

/// What stands around a formula that is being built, with the place of its outermost node.
#[derive(Clone, Copy, PartialEq, Eq, Debug)]
enum Around {
    /// A pair in whose first part the formula is. Its connective is still to come.
    First(usize),
    /// A pair in whose second part the formula is.
    Second(usize),
    /// A quantifier.
    Under(usize),
}

/// All that stands around, the innermost first.
#[derive(Drop)]
struct Surroundings {
    items: Vec<Around>,
    /// How many of the items are quantifiers.
    unders: usize,
}

impl Model for Surroundings {
    ghost use Rattle.std.specs.Prelude.{◌≡◌, List, reverse};
    ghost use Rattle.polarised_formulas.specs.declared.builder.Around.{Around};
    ghost use Rattle.polarised_formulas.specs.Unfinished.{count_unders};

    ghost Value = { List Around };

    ghost view = { λ s. reverse s.items.items };

    ghost invariant = { λ s. s.unders ≡ count_unders (reverse s.items.items) };
}

impl Surroundings {
    fn new(alloc: Global) -> Surroundings
        ensures { result ≡ [] }
    {
        Surroundings {
            items: Vec::new(alloc),
            unders: 0,
        }
    }

    /// Takes all out. The memory is kept.
    fn clear(&mut self)
        ensures { self.new ≡ [] }
    {
        self.items.clear();
        self.unders = 0;
    }

    fn len(&self) -> usize
        ensures { result ≡ length self.now }
    {
        self.items.len()
    }

    fn quantifiers(&self) -> usize
        ensures { result ≡ count_unders self.now }
    {
        self.unders
    }

    fn push(&mut self, around: Around) -> Result<(), OutOfMemory>
        ensures ok { OnOk result (self.new ≡ around ∷ self.old) }
        ensures err { OnErr result (self.new ≡ self.old) }
    {
        self.items.push(around)?;
        if let Around::Under(_) = around {
            self.unders += 1;
        }
        Ok(())
    }

    /// Takes the innermost away, where it is a quantifier, and answers whether it is.
    fn leave_quantifier(&mut self) -> bool
        ensures answer { result ≡ begins_under self.old }
        ensures others { self.new ≡ under_left self.old }
    {
        if let Some(Around::Under(_)) = self.items.last() {
            self.items.pop();
            self.unders -= 1;
            true
        } else {
            false
        }
    }

    /// Takes the innermost quantifiers away.
    fn leave_quantifiers(&mut self)
        ensures { self.new ≡ unders_left self.old }
    {
        while self.leave_quantifier() {}
    }

    /// Goes from the first part of the innermost pair to its second, where the first one is inside, and answers the
    /// place of the pair.
    fn leave_first(&mut self) -> Option<usize>
        ensures place { result ≡ first_slot self.old }
        ensures turned { self.new ≡ first_turned self.old }
    {
        if let Some(Around::First(place)) = self.items.last().copied() {
            let last = self.items.len() - 1;
            self.items[last] = Around::Second(place);
            Some(place)
        } else {
            None
        }
    }

    /// Takes the innermost away, where its second part is inside, and answers whether it is.
    fn leave_second(&mut self) -> bool
        ensures answer { result ≡ begins_second self.old }
        ensures others { self.new ≡ second_left self.old }
    {
        if let Some(Around::Second(_)) = self.items.last() {
            self.items.pop();
            true
        } else {
            false
        }
    }
}

/// Puts a connective at a place.
fn put(nodes: &mut Vec<Node>, place: usize, joiner: Joiner)
    ensures { place < length nodes.old.items → nodes.new.items ≡ slice_set nodes.old.items place (joiner_node joiner) }
{
    let _cell: Option<Cell> = None;
    if place < nodes.len() {
        nodes[place] = joiner.node();
    }
}

/// Puts cells behind nodes. On an error some of them are put.
fn push_cells(nodes: &mut Vec<Node>, cells: &[Cell]) -> Result<(), OutOfMemory>
    ensures ok { OnOk result (nodes.new.items ≡ nodes.old.items ++ inside_before cells.now []) }
    ensures kept { take (length nodes.old.items) nodes.new.items ≡ nodes.old.items }
{
    for cell in cells {
        nodes.push(Node::Inside(*cell))?;
    }
    Ok(())
}

/// Puts a literal with arguments behind nodes. On an error some of it is put.
fn push_literal(
    nodes: &mut Vec<Node>,
    positive: bool,
    name: NameId,
    arguments: &TermBuilder,
) -> Result<(), OutOfMemory>
    ensures ok { arguments.now.frames ≡ [] → OnOk result (nodes.new.items ≡ nodes.old.items ++ nodes_of (atom positive name (arguments_of arguments.now.base))) }
    ensures kept { take (length nodes.old.items) nodes.new.items ≡ nodes.old.items }
{
    let literal = Node::Atom {
        positive,
        name,
        arguments: arguments.count(),
    };
    nodes.push(literal)?;
    push_cells(nodes, arguments.cells())
}

/// A formula that is built from the left, each node in constant time. The quantifiers around a whole formula end when
/// what comes next stands outside of them. Contracts see what stands around the formula that is to come or is whole.
#[derive(Drop)]
pub struct FormulaBuilder {
    /// The nodes so far. Where a connective is still to come stands that of `=>`.
    nodes: Vec<Node>,
    around: Surroundings,
    /// Whether a formula is whole.
    is_whole: bool,
}

impl Model for FormulaBuilder {
    ghost use Rattle.polarised_formulas.specs.Unfinished.{Unfinished, unfinished_code, unfinished_of, IsOf};

    ghost Value = { Unfinished };

    ghost coded = { unfinished_code };

    ghost view = { λ b. unfinished_of b.nodes.items b.around b.is_whole };

    ghost invariant = { λ b. IsOf b.nodes.items b.around b.is_whole (unfinished_of b.nodes.items b.around b.is_whole) };
}

impl FormulaBuilder {
    /// The builder with nothing in it. It takes no memory.
    pub fn new(alloc: Global) -> FormulaBuilder
        ensures { result ≡ nothing }
    {
        FormulaBuilder {
            nodes: Vec::new(alloc),
            around: Surroundings::new(alloc),
            is_whole: false,
        }
    }

    /// Whether a formula is to come.
    pub fn is_wanting(&self) -> bool
        ensures { result ≡ is_wanting self.now }
    {
        !self.is_whole
    }

    /// How many pairs and quantifiers stand around the formula that is to come or is whole.
    pub fn depth(&self) -> usize
        ensures { result ≡ length (holes_in self.now) }
    {
        self.around.len()
    }

    /// How many quantifiers stand around the formula that is to come or is whole.
    pub fn quantifiers(&self) -> usize
        ensures { result ≡ quantifiers_in (holes_in self.now) }
    {
        self.around.quantifiers()
    }

    /// Adds the true unit of a polarity. Where no formula is to come, nothing changes, and the answer is false.
    pub fn truth(&mut self, polarity: Polarity) -> Result<bool, OutOfMemory>
        ensures answer { IfOk result (λ done. done ≡ is_wanting self.old) }
        ensures ok { OnOk result (self.new ≡ placed (truth polarity) self.old) }
        ensures err { OnErr result (self.new ≡ self.old) }
    {
        if self.is_whole {
            return Ok(false);
        }
        let _cell: Option<Cell> = None;
        self.nodes.push(Node::True(polarity))?;
        self.is_whole = true;
        Ok(true)
    }

    /// Adds the false unit of a polarity. Where no formula is to come, nothing changes, and the answer is false.
    pub fn falsity(&mut self, polarity: Polarity) -> Result<bool, OutOfMemory>
        ensures answer { IfOk result (λ done. done ≡ is_wanting self.old) }
        ensures ok { OnOk result (self.new ≡ placed (falsity polarity) self.old) }
        ensures err { OnErr result (self.new ≡ self.old) }
    {
        if self.is_whole {
            return Ok(false);
        }
        let _cell: Option<Cell> = None;
        self.nodes.push(Node::False(polarity))?;
        self.is_whole = true;
        Ok(true)
    }

    /// Adds a literal with the arguments that were built. Where no formula is to come or an application of the arguments
    /// is open, nothing changes, and the answer is false. Time is linear in the arguments' size.
    pub fn literal(
        &mut self,
        positive: bool,
        name: NameId,
        arguments: &TermBuilder,
    ) -> Result<bool, OutOfMemory>
        ensures answer { IfOk result (λ done. IsTrue done ↔ (is_wanting self.old ≡ true) × (arguments.now.frames ≡ [])) }
        ensures ok { IfOk result (λ done. IsTrue done → self.new ≡ placed (atom positive name (arguments_of arguments.now.base)) self.old) }
        ensures unfit { IfOk result (λ done. ¬ (IsTrue done) → self.new ≡ self.old) }
        ensures err { OnErr result (self.new ≡ self.old) }
    {
        if self.is_whole || !arguments.is_closed() {
            return Ok(false);
        }
        let before = self.nodes.len();
        match push_literal(&mut self.nodes, positive, name, arguments) {
            Ok(()) => {
                self.is_whole = true;
                Ok(true)
            }
            Err(error) => {
                self.nodes.truncate(before);
                Err(error)
            }
        }
    }

    /// Opens a pair, whose first part comes next. Where no formula is to come, nothing changes, and the answer is false.
    pub fn open_pair(&mut self) -> Result<bool, OutOfMemory>
        ensures answer { IfOk result (λ done. done ≡ is_wanting self.old) }
        ensures ok { OnOk result (self.new ≡ opened self.old) }
        ensures err { OnErr result (self.new ≡ self.old) }
    {
        if self.is_whole {
            return Ok(false);
        }
        let _cell: Option<Cell> = None;
        let place = self.nodes.len();
        self.nodes.reserve(1)?;
        self.around.push(Around::First(place))?;
        self.nodes.push(Node::Implies)?;
        Ok(true)
    }

    /// Adds a quantifier, whose body comes next. Where no formula is to come, nothing changes, and the answer is false.
    pub fn quantifier(&mut self, binder: Binder) -> Result<bool, OutOfMemory>
        ensures answer { IfOk result (λ done. done ≡ is_wanting self.old) }
        ensures ok { OnOk result (self.new ≡ quantified binder self.old) }
        ensures err { OnErr result (self.new ≡ self.old) }
    {
        if self.is_whole {
            return Ok(false);
        }
        let _cell: Option<Cell> = None;
        let place = self.nodes.len();
        self.nodes.reserve(1)?;
        self.around.push(Around::Under(place))?;
        self.nodes.push(binder.node())?;
        Ok(true)
    }

    /// Ends the quantifiers around the formula so far, which then is the first part of the innermost pair, and gives
    /// the pair its connective; its second part comes next. The answer is false where there is no such pair.
    pub fn operator(&mut self, joiner: Joiner) -> bool
        ensures answer { result ≡ takes_joiner (left self.old) }
        ensures value { self.new ≡ joined joiner (left self.old) }
    {
        if !self.is_whole {
            return false;
        }
        self.around.leave_quantifiers();
        match self.around.leave_first() {
            Some(place) => {
                put(&mut self.nodes, place, joiner);
                self.is_whole = false;
                true
            }
            None => false,
        }
    }

    /// Ends the quantifiers around the formula so far, which then is the second part of the innermost pair, and ends
    /// the pair. The answer is false where there is no such pair.
    pub fn close(&mut self) -> bool
        ensures answer { result ≡ takes_close (left self.old) }
        ensures value { self.new ≡ closed (left self.old) }
    {
        if !self.is_whole {
            return false;
        }
        self.around.leave_quantifiers();
        self.around.leave_second()
    }

    /// Takes all out. The memory is kept.
    pub(crate) fn clear(&mut self)
        ensures { self.new ≡ nothing }
    {
        self.nodes.clear();
        self.around.clear();
        self.is_whole = false;
    }

    /// The formula, where it is whole and no pair is open; then it is taken out with its nodes,
    /// in constant time.
    pub(crate) fn take(&mut self, alloc: Global) -> Option<Formula>
        ensures { result ≡ whole (left self.old) }
    {
        if !self.is_whole || self.around.len() != self.around.quantifiers() {
            return None;
        }
        let nodes = mem::replace(&mut self.nodes, Vec::new(alloc));
        self.around.clear();
        self.is_whole = false;
        Some(Formula::from_node_list(nodes))
    }

    /// The formula, where it is whole and no pair is open. It takes the nodes over, in constant time.
    pub fn into_formula(self) -> Option<Formula>
        ensures { result ≡ whole (left self) }
    {
        if !self.is_whole || self.around.len() != self.around.quantifiers() {
            return None;
        }
        Some(Formula::from_node_list(self.nodes))
    }
}
