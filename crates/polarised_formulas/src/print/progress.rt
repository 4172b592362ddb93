//! How far a formula is written.
ghost use Rattle.std.specs.Prelude.{◌≡◌, ◌<◌, ◌++◌, ◌∷◌, [], OnOk, MatchOption};
ghost use Rattle.fpc_terms.specs.Printing.{StartsWith};
ghost use Rattle.polarised_formulas.specs.Printing.{operator_text, end_text, end_waiting, end_depth, name_end_text, name_end_waiting, name_end_depth, behind_text, behind_waiting, behind_depth};
ghost use Rattle.polarised_formulas.specs.Opened.{deeper};
ghost use Rattle.polarised_formulas.specs.Text.{operator_before};

use crate::logic::Logic;
use crate::node::Node;
use crate::print::waiting::{Operator, Waiting};
use crate::print::words::operator_sign;
use fpc_base::outside::OutOfMemory;
use fpc_terms::print::arguments;
use std::alloc::Global;
use std::marker::Model;

/// What waits to be written, the innermost first.
#[derive(Drop)]
struct Stack {
    items: Vec<Waiting>,
}

impl Model for Stack {
    ghost use Rattle.std.specs.Prelude.{List, reverse};
    ghost use Rattle.std.specs.Coded.{coded_list};
    ghost use Rattle.polarised_formulas.specs.declared.print.waiting.Waiting.{Waiting};
    ghost use Rattle.polarised_formulas.specs.contracts.print.waiting.Waiting as waiting;

    ghost Value = { List Waiting };

    ghost coded = { coded_list waiting.the_row.coded };

    ghost view = { λ s. reverse s.items.items };
}

impl Stack {
    fn new(alloc: Global) -> Stack
        ensures { result ≡ [] }
    {
        Stack {
            items: Vec::new(alloc),
        }
    }

    fn push(&mut self, item: Waiting) -> Result<(), OutOfMemory>
        ensures { OnOk result (self.new ≡ item ∷ self.old) }
    {
        self.items.push(item)?;
        Ok(())
    }

    fn pop(&mut self) -> Option<Waiting>
        ensures { MatchOption result ((self.old ≡ []) × (self.new ≡ [])) (λ item. self.old ≡ item ∷ self.new) }
    {
        self.items.pop()
    }
}

/// How far a formula is written.
#[derive(Drop)]
pub(crate) struct Progress {
    /// How many quantifiers are around the part that comes next.
    pub depth: u64,
    /// What waits behind that part.
    waiting: Stack,
}

#[tactic(auto, using(crate::proofs::PrintFacts::print_facts))]
impl Progress {
    /// At the front of a formula.
    pub(crate) fn new(alloc: Global) -> Progress
        ensures depth { result.depth ≡ 0 }
        ensures waiting { result.waiting ≡ [] }
    {
        Progress {
            depth: 0,
            waiting: Stack::new(alloc),
        }
    }

    /// Goes on behind the text of a node, and writes what comes before the next one.
    pub(crate) fn pass(
        &mut self,
        logic: Logic,
        node: &Node,
        out: &mut Vec<u8>,
    ) -> Result<(), OutOfMemory>
        ensures ok { OnOk result (out.new.items ≡ out.old.items ++ behind_text logic node.now self.old.waiting) }
        ensures front { StartsWith out.old.items out.new.items }
        ensures depth { OnOk result (self.new.depth ≡ behind_depth node.now self.old.depth self.old.waiting) }
        ensures waiting { OnOk result (self.new.waiting ≡ behind_waiting node.now self.old.depth self.old.waiting) }
    {
        match *node {
            Node::True(_) | Node::False(_) => self.pass_end(logic, out),
            Node::Atom { arguments, .. } => self.pass_name(logic, arguments, out),
            Node::Inside(cell) => self.pass_name(logic, arguments(cell), out),
            Node::And(polarity) => self.open(Operator::Conjunction(polarity)),
            Node::Or(polarity) => self.open(Operator::Disjunction(polarity)),
            Node::Implies => self.open(Operator::Implication),
            Node::ForAll | Node::Exists => {
                self.depth = self.depth.saturating_add(1);
                Ok(())
            }
        }
    }

    /// Goes on into the first part of a formula with that operator.
    fn open(&mut self, operator: Operator) -> Result<(), OutOfMemory>
        ensures depth { self.new.depth ≡ self.old.depth }
        ensures waiting { OnOk result (self.new.waiting ≡ Waiting.Second operator self.old.depth ∷ self.old.waiting) }
    {
        let depth = self.depth;
        self.waiting.push(Waiting::Second(operator, depth))
    }

    /// Goes on behind a name with so many arguments.
    fn pass_name(
        &mut self,
        logic: Logic,
        arguments: u8,
        out: &mut Vec<u8>,
    ) -> Result<(), OutOfMemory>
        ensures ok { OnOk result (out.new.items ≡ out.old.items ++ name_end_text logic arguments self.old.waiting) }
        ensures front { StartsWith out.old.items out.new.items }
        ensures depth { OnOk result (self.new.depth ≡ name_end_depth arguments self.old.depth self.old.waiting) }
        ensures waiting { OnOk result (self.new.waiting ≡ name_end_waiting arguments self.old.waiting) }
    {
        if arguments == 0 {
            return self.pass_end(logic, out);
        }
        out.push(b'(')?;
        self.waiting.push(Waiting::Arguments(arguments - 1))
    }

    /// Goes on behind a formula or term.
    fn pass_end(&mut self, logic: Logic, out: &mut Vec<u8>) -> Result<(), OutOfMemory>
        ensures ok { OnOk result (out.new.items ≡ out.old.items ++ end_text logic self.old.waiting) }
        ensures front { StartsWith out.old.items out.new.items }
        ensures depth { OnOk result (self.new.depth ≡ end_depth self.old.depth self.old.waiting) }
        ensures waiting { OnOk result (self.new.waiting ≡ end_waiting self.old.waiting) }
    {
        while let Some(waiting) = self.waiting.pop() {
            match waiting {
                Waiting::Arguments(0) | Waiting::Close => out.push(b')')?,
                Waiting::Arguments(more) => {
                    out.push(b',')?;
                    return self.waiting.push(Waiting::Arguments(more - 1));
                }
                Waiting::Second(operator, depth) => {
                    self.depth = depth;
                    push_operator(logic, operator, out)?;
                    return self.waiting.push(Waiting::Close);
                }
            }
        }
        Ok(())
    }
}

/// Writes an operator with a blank on each side.
#[tactic(auto, using(crate::proofs::PrintFacts::print_facts))]
fn push_operator(logic: Logic, operator: Operator, out: &mut Vec<u8>) -> Result<(), OutOfMemory>
    ensures ok { OnOk result (out.new.items ≡ out.old.items ++ operator_before (operator_text logic operator) []) }
    ensures front { StartsWith out.old.items out.new.items }
{
    out.push(b' ')?;
    out.extend_from_slice(operator_sign(logic, operator).as_bytes())?;
    Ok(out.push(b' ')?)
}
