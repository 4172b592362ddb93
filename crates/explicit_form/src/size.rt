//! How many bytes the text of a certificate has, counted before it is made. A count stays at the greatest `u64`.
ghost use Rattle.std.specs.Prelude.{◌≡◌, ◌+◌, ◌<◌, length};
ghost use Rattle.polarised_formulas.specs.declared.logic.Polarity.{Polarity};
ghost use Rattle.std.specs.Fmt.{decimal};
ghost use Rattle.fpc_terms.specs.Text.{name_in};
ghost use Rattle.fpc_terms.specs.Printing.{IsNamedBelow, AreNamedBelow, HasNamesBelow};
ghost use Rattle.polarised_formulas.specs.Printing.{AllNamesBelow, IsNodeNamedBelow, AreNodesNamedBelow};
ghost use Rattle.polarised_formulas.specs.Text.{conj_text, disj_text, mark_text, falsity_text};
ghost use Rattle.explicit_form.specs.StepText.{certificate_text};
ghost use Rattle.explicit_form.specs.Sizes.{counted, around_arguments, cell_size, cells_size, node_size, nodes_size, argument_size, step_size, steps_size, StepNamedBelow, StepsNamedBelow};

use crate::word::{step_word, word_bytes};
use fpc_terms::cell::Cell;
use fpc_terms::name::NameId;
use fpc_terms::names::Names;
use fpc_terms::term::TermBuf;
use polarised_formulas::formula::Formula;
use polarised_formulas::logic::Logic;
use polarised_formulas::node::Node;
use polarised_formulas::step::Step;

/// The bytes of a certificate's text. Time is linear in the steps' sizes.
#[tactic(auto, using(crate::proofs::SizeFacts::size_facts))]
pub(crate) fn certificate_size(names: &Names, logic: Logic, steps: &[Step]) -> u64
    requires { StepsNamedBelow (length names.now) steps.now }
    ensures { result ≡ counted (length (certificate_text (name_in names.now) logic steps.now)) }
{
    let header_and_end: u64 = 14;
    header_and_end.saturating_add(steps_size(names, logic, steps))
}

#[tactic(auto, using(crate::proofs::SizeFacts::size_facts))]
fn steps_size(names: &Names, logic: Logic, steps: &[Step]) -> u64
    requires { StepsNamedBelow (length names.now) steps.now }
    ensures { result ≡ counted (steps_size (name_in names.now) logic steps.now) }
{
    let mut size: u64 = 0;
    for step in steps {
        size = size.saturating_add(step_size(names, logic, step));
    }
    size
}

/// The bytes of a step's line.
#[tactic(auto, using(crate::proofs::SizeFacts::size_facts))]
fn step_size(names: &Names, logic: Logic, step: &Step) -> u64
    requires { StepNamedBelow (length names.now) step.now }
    ensures { result ≡ counted (step_size (name_in names.now) logic step.now) }
{
    let word = word_bytes(step_word(step)).len() as u64;
    word.saturating_add(argument_size(names, logic, step))
}

/// The bytes behind a step's word.
#[tactic(auto, using(crate::proofs::SizeFacts::size_facts))]
fn argument_size(names: &Names, logic: Logic, step: &Step) -> u64
    requires { StepNamedBelow (length names.now) step.now }
    ensures { result ≡ counted (argument_size (name_in names.now) logic step.now) }
{
    match step {
        Step::Decide(k) | Step::Init(k) | Step::DecideL(k) | Step::FocRInit(k) => {
            digits(*k).saturating_add(1)
        }
        Step::Exists(term) | Step::FocLEvery(term) | Step::FocRExists(term) => {
            cells_size(names, term.cells()).saturating_add(1)
        }
        Step::Cut(formula) => nodes_size(names, logic, formula.nodes()).saturating_add(1),
        _ => 0,
    }
}

#[tactic(auto, using(crate::proofs::SizeFacts::size_facts))]
fn nodes_size(names: &Names, logic: Logic, nodes: &[Node]) -> u64
    requires { AreNodesNamedBelow (length names.now) nodes.now }
    ensures { result ≡ counted (nodes_size (name_in names.now) logic nodes.now) }
{
    let mut size: u64 = 0;
    for node in nodes {
        size = size.saturating_add(node_size(names, logic, *node));
    }
    size
}

/// The bytes of a node with the signs around its parts.
#[tactic(auto, using(crate::proofs::SizeFacts::size_facts))]
fn node_size(names: &Names, logic: Logic, node: Node) -> u64
    requires { IsNodeNamedBelow (length names.now) node }
    ensures { result ≡ counted (node_size (name_in names.now) logic node) }
{
    match node {
        Node::True(_) => 3,
        Node::False(_) => falsity_size(logic),
        Node::Atom {
            positive,
            name,
            arguments,
        } => mark_size(logic, positive).saturating_add(name_size(names, name, arguments)),
        Node::And(_) => 6,
        Node::Or(_) => disjunction_size(logic),
        Node::Implies => 6,
        Node::ForAll => 4,
        Node::Exists => 5,
        Node::Inside(cell) => cell_size(names, cell),
    }
}

fn falsity_size(logic: Logic) -> u64
    ensures { (p : Polarity) → result ≡ length (falsity_text logic p) }
{
    match logic {
        Logic::Lkf => 3,
        Logic::Ljf => 2,
    }
}

fn mark_size(logic: Logic, positive: bool) -> u64
    ensures { result ≡ length (mark_text logic positive) }
{
    match (logic, positive) {
        (Logic::Lkf, true) => 0,
        _ => 1,
    }
}

fn disjunction_size(logic: Logic) -> u64
    ensures { (p : Polarity) → result ≡ 4 + length (disj_text logic p) }
{
    match logic {
        Logic::Lkf => 6,
        Logic::Ljf => 5,
    }
}

#[tactic(auto, using(crate::proofs::SizeFacts::size_facts))]
fn cells_size(names: &Names, cells: &[Cell]) -> u64
    requires { AreNamedBelow (length names.now) cells.now }
    ensures { result ≡ counted (cells_size (name_in names.now) cells.now) }
{
    let mut size: u64 = 0;
    for cell in cells {
        size = size.saturating_add(cell_size(names, *cell));
    }
    size
}

/// The bytes of a leaf, or of a name with the signs around its arguments.
#[tactic(auto, using(crate::proofs::SizeFacts::size_facts))]
fn cell_size(names: &Names, cell: Cell) -> u64
    requires { IsNamedBelow (length names.now) cell }
    ensures { result ≡ counted (cell_size (name_in names.now) cell) }
{
    match cell {
        Cell::Eigen(n) => digits(n).saturating_add(1),
        Cell::Bound(k) => digits(k as u64).saturating_add(1),
        Cell::Var(v) => digits(v).saturating_add(1),
        Cell::App(name, arguments) => name_size(names, name, arguments),
    }
}

/// The bytes of a name with the signs around its arguments.
#[tactic(auto, using(crate::proofs::SizeFacts::size_facts))]
fn name_size(names: &Names, name: NameId, arguments: u8) -> u64
    requires { name < length names.now }
    ensures { result ≡ counted (length (name_in names.now name) + around_arguments arguments) }
{
    let length = names.text(name).len() as u64;
    length.saturating_add(signs(arguments))
}

/// The parentheses and commas around so many arguments.
#[tactic(auto, using(crate::proofs::SizeFacts::size_facts))]
fn signs(arguments: u8) -> u64
    ensures { result ≡ around_arguments arguments }
{
    if arguments == 0 {
        return 0;
    }
    arguments as u64 + 1
}

/// The decimal digits of a number.
#[tactic(auto, using(crate::proofs::SizeFacts::size_facts))]
fn digits(number: u64) -> u64
    ensures { result ≡ length (decimal number) }
{
    let mut rest = number;
    let mut count: u64 = 1;
    while rest >= 10 {
        rest /= 10;
        count = count.saturating_add(1);
    }
    count
}
