//! The table of LKF: the goal lists of the choice of a place, and of a cut.
ghost use Rattle.std.specs.Prelude.{◌≡◌, ◌++◌, ◌<◌, ◌+◌, ◌^◌, ℕ, [], IfOk, OnOk, map, false};
ghost use Rattle.std.specs.List.{All};
ghost use Rattle.polarised_formulas.specs.Formula.{IsLkf, root_node};
ghost use Rattle.polarised_formulas.specs.declared.step.Step.TheVariants.{Decide, Init};
ghost use Rattle.clause_language.specs.declared.declaration.DeclaredFormula.{DeclaredFormula};
ghost use Rattle.search_model.specs.GoalItems.{lists_in};
ghost use Rattle.search_model.specs.Lines.{at_place, at_places, atom_term, closing_at};
ghost use Rattle.search_model.specs.Lines.{is_literal, where_so};
ghost use Rattle.lkf_kernel.specs.Lkf.{closings, cuts, is_positive, picks};
ghost use Rattle.lkf_kernel.specs.Nodes.{IsLiteral, atom_cell, is_negative_node};
ghost use Rattle.lkf_kernel.specs.declared.sequent.Sequent.TheVariants.{Down};

use crate::sequent::{Sequent, down, up_alone};
use clause_language::program::Program;
use fpc_base::outside::OutOfMemory;
use fpc_terms::cell::Cell;
use fpc_terms::name::NameId;
use fpc_terms::term::TermBuf;
use polarised_formulas::dual::dual;
use polarised_formulas::formula::Formula;
use polarised_formulas::logic::Polarity;
use polarised_formulas::node::Node;
use polarised_formulas::shape::{outermost, polarity};
use polarised_formulas::step::Step;
use search_model::goals::Alternatives;
use search_model::lines::{closing, cut_of, declared_formula, placed};
use search_model::stored::{Store, Stored};
use std::alloc::{AllocError, Global};

/// Adds the goal list that decides on a place, where its formula is positive.
fn push_pick(
    alloc: Global,
    lists: &mut Alternatives<Sequent>,
    certificate: &TermBuf,
    level: u64,
    index: &TermBuf,
    stored: &Store,
    place: u64,
    one: &Stored,
) -> Result<(), OutOfMemory>
    ensures { OnOk result (lists_in lists.new ≡ lists_in lists.old
        ++ where_so (is_positive one.now.formula)
        (at_place certificate.now index.now one.now.index (Decide place) level
        (Down stored.now one.now.formula)) []) }
{
    if polarity(&one.formula) == Polarity::Positive {
        let q = down(stored, one.formula.copy()?)?;
        let step = Step::Decide(place);
        lists.push(placed(alloc, certificate, index, &one.index, step, level, q)?)?;
    }
    Ok(())
}

/// The goal lists that decide on a place, where an index is wanted.
pub(crate) fn picks(
    alloc: Global,
    certificate: &TermBuf,
    level: u64,
    index: &TermBuf,
    stored: &Store,
) -> Result<Alternatives<Sequent>, OutOfMemory>
    ensures { IfOk result (λ ls. lists_in ls
        ≡ picks certificate.now level index.now stored.now) }
{
    let mut lists = Alternatives::new(alloc);
    for (place, one) in stored.items().iter().enumerate() {
        push_pick(
            alloc,
            &mut lists,
            certificate,
            level,
            index,
            stored,
            place as u64,
            one,
        )?;
    }
    Ok(lists)
}

/// The cell of a literal's atom that a node stands for.
fn atom_cell(node: Node) -> Cell
    ensures { result ≡ atom_cell node }
{
    match node {
        Node::Atom {
            name,
            arguments,
            ..
        } => Cell::App(name, arguments),
        Node::Inside(cell) => cell,
        // No literal has another node.
        _ => Cell::Bound(0),
    }
}

/// The cells of a literal's atom.
fn atom_cells(alloc: Global, nodes: &[Node]) -> Result<Vec<Cell>, AllocError>
    ensures { IfOk result (λ cells. cells.items ≡ map atom_cell nodes.now) }
{
    nodes.iter().map(|node| atom_cell(*node)).collect(alloc)
}

/// The atom of a literal as a term. Time and memory are linear in its size.
#[tactic(auto, using(crate::proofs::Literals::literal_facts))]
fn atom_term(alloc: Global, literal: &Formula) -> Result<TermBuf, OutOfMemory>
    requires { IsLiteral literal.now }
    ensures { IfOk result (λ t. t ≡ atom_term literal.now) }
{
    let cells = atom_cells(alloc, literal.nodes())?;
    TermBuf::from_cells(alloc, cells.as_slice())
}

/// Whether a node is that of a negative literal of this name and number of arguments.
fn is_negative_node(node: Node, name: NameId, arguments: u8) -> bool
    ensures { result ≡ is_negative_node name arguments node }
{
    match node {
        Node::Atom {
            positive,
            name: own,
            arguments: count,
        } => !positive && name == own && arguments == count,
        _ => false,
    }
}

/// Whether a formula is a negative literal of this name and number of arguments.
#[tactic(auto, using(crate::proofs::Literals::negative_node))]
fn is_negative_literal(formula: &Formula, name: NameId, arguments: u8) -> bool
    ensures { result ≡ is_literal false name arguments formula.now }
{
    is_negative_node(outermost(formula), name, arguments)
}

/// Adds the goal list that closes with a place, where its formula is a negative literal of this
/// name and number of arguments, by an equal atom.
#[tactic(auto, using(crate::proofs::Literals::passed_literal))]
fn push_closing(
    alloc: Global,
    lists: &mut Alternatives<Sequent>,
    index: &TermBuf,
    name: NameId,
    arguments: u8,
    atom: &TermBuf,
    place: u64,
    one: &Stored,
) -> Result<(), OutOfMemory>
    ensures { OnOk result (lists_in lists.new ≡ lists_in lists.old
        ++ where_so (is_literal false name arguments one.now.formula)
        (closing_at index.now one.now.index (atom_term one.now.formula) atom.now (Init place)) []) }
{
    if is_negative_literal(&one.formula, name, arguments) {
        let own = atom_term(alloc, &one.formula)?;
        let step = Step::Init(place);
        lists.push(closing(alloc, index, &one.index, own, atom.clone()?, step)?)?;
    }
    Ok(())
}

/// The goal lists that close with a place, where an index is wanted and a positive literal of this
/// name and number of arguments is under focus.
fn closings_of(
    alloc: Global,
    index: &TermBuf,
    stored: &Store,
    name: NameId,
    arguments: u8,
    atom: &TermBuf,
) -> Result<Alternatives<Sequent>, OutOfMemory>
    ensures { IfOk result (λ ls. lists_in ls
        ≡ at_places (is_literal false name arguments)
        (λ j i. closing_at index.now i.index (atom_term i.formula) atom.now (Init j)) 0
        stored.now) }
{
    let mut lists = Alternatives::new(alloc);
    for (place, one) in stored.items().iter().enumerate() {
        push_closing(
            alloc,
            &mut lists,
            index,
            name,
            arguments,
            atom,
            place as u64,
            one,
        )?;
    }
    Ok(lists)
}

/// The goal lists that close with a place, where an index is wanted and the formula with this
/// outermost node is under focus.
#[tactic(auto, using(crate::proofs::Literals::rooted_literal))]
fn closings_at(
    alloc: Global,
    index: &TermBuf,
    stored: &Store,
    focus: &Formula,
    node: Node,
) -> Result<Alternatives<Sequent>, OutOfMemory>
    requires { root_node focus.now ≡ node }
    ensures { IfOk result (λ ls. lists_in ls ≡ closings index.now stored.now focus.now) }
{
    match node {
        Node::Atom {
            positive,
            name,
            arguments,
        } => {
            if !positive {
                return Ok(Alternatives::new(alloc));
            }
            let atom = atom_term(alloc, focus)?;
            closings_of(alloc, index, stored, name, arguments, &atom)
        }
        _ => Ok(Alternatives::new(alloc)),
    }
}

/// The goal lists that close with a place, where an index is wanted.
pub(crate) fn closings(
    alloc: Global,
    index: &TermBuf,
    stored: &Store,
    focus: &Formula,
) -> Result<Alternatives<Sequent>, OutOfMemory>
    ensures { IfOk result (λ ls. lists_in ls ≡ closings index.now stored.now focus.now) }
{
    closings_at(alloc, index, stored, focus, outermost(focus))
}

/// The goal lists of a cut, where the formula that is named is wanted.
pub(crate) fn cuts(
    alloc: Global,
    program: &Program,
    left: &TermBuf,
    right: &TermBuf,
    level: u64,
    formula: &TermBuf,
    stored: &Store,
    fresh: u64,
) -> Result<Alternatives<Sequent>, OutOfMemory>
    requires room { fresh + 256 < 2 ^ 64 }
    requires logic { All (λ (d : DeclaredFormula). IsLkf d.formula) program.now.declared }
    ensures { IfOk result (λ ls. lists_in ls
        ≡ cuts program.now left.now right.now level formula.now stored.now fresh) }
{
    let mut lists = Alternatives::new(alloc);
    for declared in program.declared.items() {
        let cut = declared_formula(alloc, declared, fresh)?;
        let first = up_alone(alloc, stored, cut.copy()?)?;
        let second = up_alone(alloc, stored, dual(alloc, &cut)?)?;
        lists.push(cut_of(
            alloc, left, right, formula, level, fresh, first, second, declared,
        )?)?;
    }
    Ok(lists)
}
