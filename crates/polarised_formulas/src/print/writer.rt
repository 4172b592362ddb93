//! The text of a formula, node by node.
ghost use Rattle.std.specs.Prelude.{◌≡◌, ℕ, ◌++◌, [], OnOk, OnErr, length};
ghost use Rattle.fpc_terms.specs.Printing.{StartsWith, IsNamedBelow, head_text};
ghost use Rattle.polarised_formulas.specs.Text.{formula_before};
ghost use Rattle.polarised_formulas.specs.Printing.{AllNamesBelow, IsNodeNamedBelow, AreNodesNamedBelow, form_style, node_text, nodes_text};

use crate::formula::Formula;
use crate::logic::Logic;
use crate::node::Node;
use crate::print::progress::Progress;
use crate::print::words::{falsity, mark, truth};
use fpc_base::outside::OutOfMemory;
use fpc_terms::cell::Cell;
use fpc_terms::names::Names;
use fpc_terms::print::{push_name, push_number};
use std::alloc::Global;

/// How bound variables are written.
#[derive(Clone, Copy)]
pub(crate) enum Form {
    /// `#k`, by the number of quantifiers between; quantifiers have no variable.
    Plain,
    /// `Xj`, by the number of quantifiers around the one that binds it.
    Named,
}

/// How formulas are written.
#[derive(Drop)]
pub(crate) struct Writer<'a> {
    pub alloc: Global,
    pub names: &'a Names,
    pub logic: Logic,
    pub form: Form,
}

#[tactic(auto, using(crate::proofs::PrintFacts::print_facts))]
impl<'a> Writer<'a> {
    /// Writes a formula. On a refusal `out` is as before.
    pub(crate) fn push_formula(&self, f: &Formula, out: &mut Vec<u8>) -> Result<(), OutOfMemory>
        requires { AllNamesBelow (length self.now.names.now) f.now }
        ensures ok { OnOk result (out.new.items ≡ out.old.items
            ++ formula_before (form_style self.now.form self.now.names.now) self.now.logic 0 f.now []) }
        ensures err { OnErr result (out.new.items ≡ out.old.items) }
    {
        let start = out.len();
        let printed = self.push_nodes(f.nodes(), out);
        if printed.is_err() {
            out.truncate(start);
        }
        printed
    }

    /// Writes the nodes of a formula.
    fn push_nodes(&self, nodes: &[Node], out: &mut Vec<u8>) -> Result<(), OutOfMemory>
        requires { AreNodesNamedBelow (length self.now.names.now) nodes.now }
        ensures ok { OnOk result (out.new.items ≡ out.old.items ++ nodes_text (form_style self.now.form self.now.names.now) self.now.logic 0 [] nodes.now) }
        ensures front { StartsWith out.old.items out.new.items }
    {
        let mut progress = Progress::new(self.alloc);
        for node in nodes {
            self.push_node(node, progress.depth, out)?;
            progress.pass(self.logic, node, out)?;
        }
        Ok(())
    }

    /// Writes a node under so many quantifiers, up to its parts.
    fn push_node(&self, node: &Node, depth: u64, out: &mut Vec<u8>) -> Result<(), OutOfMemory>
        requires { IsNodeNamedBelow (length self.now.names.now) node.now }
        ensures ok { OnOk result (out.new.items ≡ out.old.items ++ node_text (form_style self.now.form self.now.names.now) self.now.logic depth node.now) }
        ensures front { StartsWith out.old.items out.new.items }
    {
        match *node {
            Node::True(polarity) => push_word(truth(polarity), out),
            Node::False(polarity) => push_word(falsity(self.logic, polarity), out),
            Node::Atom { positive, name, .. } => {
                push_word(mark(self.logic, positive), out)?;
                push_name(self.names, name, out)
            }
            Node::And(_) | Node::Or(_) | Node::Implies => push_word("(", out),
            Node::ForAll => self.push_quantifier("all ", depth, out),
            Node::Exists => self.push_quantifier("some ", depth, out),
            Node::Inside(cell) => self.push_cell(cell, depth, out),
        }
    }

    /// Writes a quantifier under so many others, and the variable that it binds.
    fn push_quantifier(&self, word: &str, depth: u64, out: &mut Vec<u8>) -> Result<(), OutOfMemory>
        ensures ok { OnOk result (out.new.items ≡ out.old.items ++ word.now ++ (form_style self.now.form self.now.names.now).binder depth) }
        ensures front { StartsWith out.old.items out.new.items }
    {
        push_word(word, out)?;
        match self.form {
            Form::Plain => Ok(()),
            Form::Named => {
                push_number(self.alloc, b'X', depth, out)?;
                push_word(" : ", out)
            }
        }
    }

    /// Writes a leaf of a term under so many quantifiers, or a name without its arguments.
    fn push_cell(&self, cell: Cell, depth: u64, out: &mut Vec<u8>) -> Result<(), OutOfMemory>
        requires { IsNamedBelow (length self.now.names.now) cell }
        ensures ok { OnOk result (out.new.items ≡ out.old.items ++ head_text ((form_style self.now.form self.now.names.now).leaves depth) cell) }
        ensures front { StartsWith out.old.items out.new.items }
    {
        match cell {
            Cell::Eigen(n) => push_number(self.alloc, b'$', n, out),
            Cell::Bound(k) => self.push_bound(k as u64, depth, out),
            Cell::Var(v) => self.push_variable(v, out),
            Cell::App(name, _) => push_name(self.names, name, out),
        }
    }

    /// Writes a bound index under so many quantifiers.
    fn push_bound(&self, index: u64, depth: u64, out: &mut Vec<u8>) -> Result<(), OutOfMemory>
        ensures ok { OnOk result (out.new.items ≡ out.old.items ++ ((form_style self.now.form self.now.names.now).leaves depth).bound index) }
        ensures front { StartsWith out.old.items out.new.items }
    {
        match self.form {
            Form::Plain => push_number(self.alloc, b'#', index, out),
            Form::Named => {
                let binder = depth.saturating_sub(1).saturating_sub(index);
                push_number(self.alloc, b'X', binder, out)
            }
        }
    }

    /// Writes a variable that no quantifier binds.
    fn push_variable(&self, number: u64, out: &mut Vec<u8>) -> Result<(), OutOfMemory>
        ensures ok { (d : ℕ) → OnOk result (out.new.items ≡ out.old.items ++ ((form_style self.now.form self.now.names.now).leaves d).variable number) }
        ensures front { StartsWith out.old.items out.new.items }
    {
        let letter = match self.form {
            Form::Plain => b'V',
            Form::Named => b'P',
        };
        push_number(self.alloc, letter, number, out)
    }
}

/// Writes a word.
#[tactic(auto, using(crate::proofs::PrintFacts::print_facts))]
fn push_word(word: &str, out: &mut Vec<u8>) -> Result<(), OutOfMemory>
    ensures ok { OnOk result (out.new.items ≡ out.old.items ++ word.now) }
    ensures front { StartsWith out.old.items out.new.items }
{
    out.extend_from_slice(word.as_bytes())?;
    Ok(())
}
