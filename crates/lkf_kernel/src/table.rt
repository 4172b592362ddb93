//! The table of LKF: the goal lists of a sequent.
ghost use Rattle.std.specs.Prelude.{◌≡◌, ◌∷◌, [], ◌<◌, ◌+◌, ◌^◌, ℕ, Some, true, IfOk};
ghost use Rattle.std.specs.Option.{IsSome};
ghost use Rattle.fpc_terms.specs.Term.{eigen, variable};
ghost use Rattle.polarised_formulas.specs.Formula.{opened, root_node};
ghost use Rattle.polarised_formulas.specs.Nodes.{node_polarity};
ghost use Rattle.polarised_formulas.specs.declared.step.Step.TheVariants.{OrP};
ghost use Rattle.search_model.specs.GoalItems.{list_in, lists_in};
ghost use Rattle.search_model.specs.Lines.{one, sided, two};
ghost use Rattle.search_model.specs.Table.{derive};
ghost use Rattle.lkf_kernel.specs.Lkf.{goal_lists, on_focus, on_nothing, on_work};
ghost use Rattle.lkf_kernel.specs.Nodes.{is_storable_node};

use crate::sequent::{Sequent, down, just, pair, storing, up, up_alone};
use clause_language::program::Program;
use clause_language::word_ids::WordIds;
use fpc_base::outside::OutOfMemory;
use fpc_terms::cell::Cell;
use fpc_terms::name::NameId;
use fpc_terms::term::TermBuf;
use polarised_formulas::formula::Formula;
use polarised_formulas::list::Formulas;
use polarised_formulas::logic::Polarity::{self, Negative, Positive};
use polarised_formulas::logic::Side;
use polarised_formulas::node::Node;
use polarised_formulas::opening::open_with;
use polarised_formulas::parts::parts;
use polarised_formulas::shape::outermost;
use polarised_formulas::step::Step;
use search_model::goals::{Alternatives, Goals};
use search_model::lines::{
    bare, closed_by, cutting, indexed, init_picked, one, picked, raised, sided, two, variable,
    witnessed,
};
use search_model::stored::Store;
use std::alloc::Global;

/// One goal list alone.
fn alone(alloc: Global, list: Goals<Sequent>) -> Result<Alternatives<Sequent>, OutOfMemory>
    ensures { IfOk result (λ ls. lists_in ls ≡ list_in list ∷ []) }
{
    let mut lists = Alternatives::new(alloc);
    lists.push(list)?;
    Ok(lists)
}

/// The body of a quantified formula with an eigenvariable.
fn open_eigen(alloc: Global, f: &Formula, n: u64) -> Result<Formula, OutOfMemory>
    requires { IsSome (opened (eigen n) f.now) }
    ensures { IfOk result (λ g. opened (eigen n) f.now ≡ Some g) }
{
    open_with(alloc, f, &TermBuf::from_cells(alloc, &[Cell::Eigen(n)])?)
}

/// The body of a quantified formula with a variable.
fn open_variable(alloc: Global, f: &Formula, k: u64) -> Result<Formula, OutOfMemory>
    requires { IsSome (opened (variable k) f.now) }
    ensures { IfOk result (λ g. opened (variable k) f.now ≡ Some g) }
{
    open_with(alloc, f, &variable(alloc, k)?)
}

/// What a goal list takes beside the sequent: the words of the clerks and experts, the certificate,
/// the level, and the number of the first new variable.
#[derive(Clone, Copy)]
struct Guide<'a> {
    ids: &'a WordIds,
    certificate: &'a TermBuf,
    level: u64,
    fresh: u64,
}

impl<'a> Guide<'a> {
    /// The goal list of one premise, alone.
    fn one(
        &self,
        alloc: Global,
        name: NameId,
        step: Step,
        premise: Sequent,
    ) -> Result<Alternatives<Sequent>, OutOfMemory>
        ensures { IfOk result (λ ls. lists_in ls
            ≡ one name self.now.certificate.now step self.now.level self.now.fresh premise ∷ []) }
    {
        let by = self.certificate;
        let list = one(alloc, name, by, step, self.level, self.fresh, premise)?;
        alone(alloc, list)
    }

    /// The goal list of two premises, alone.
    fn two(
        &self,
        alloc: Global,
        name: NameId,
        step: Step,
        first: Sequent,
        second: Sequent,
    ) -> Result<Alternatives<Sequent>, OutOfMemory>
        requires room { self.now.fresh + 256 < 2 ^ 64 }
        ensures { IfOk result (λ ls. lists_in ls
            ≡ two name self.now.certificate.now step self.now.level self.now.fresh first second
            ∷ []) }
    {
        let (by, level, fresh) = (self.certificate, self.level, self.fresh);
        let list = two(alloc, name, by, step, level, fresh, first, second)?;
        alone(alloc, list)
    }

    /// The goal list of `or+` on a side, by its word.
    fn on_side(
        &self,
        alloc: Global,
        word: NameId,
        side: Side,
        premise: Sequent,
    ) -> Result<Goals<Sequent>, OutOfMemory>
        requires room { self.now.fresh + 256 < 2 ^ 64 }
        ensures { IfOk result (λ gs. list_in gs
            ≡ sided self.now.ids.now.or_e self.now.certificate.now word (OrP side) self.now.level
            self.now.fresh premise) }
    {
        let (name, by, step) = (self.ids.or_e, self.certificate, Step::OrP(side));
        sided(alloc, name, by, word, step, self.level, self.fresh, premise)
    }

    /// The goal list of `tt-`.
    fn true_negative(
        &self,
        alloc: Global,
        stored: &Store,
        formula: &Formula,
        rest: &[Formula],
    ) -> Result<Alternatives<Sequent>, OutOfMemory>
        requires node { root_node formula.now ≡ Node.True Polarity.Negative }
        ensures { IfOk result (λ ls. lists_in ls
            ≡ on_work self.now.ids.now self.now.certificate.now self.now.level self.now.fresh
            stored.now formula.now rest.now) }
    {
        alone(alloc, bare(alloc, Step::TrueN)?)
    }

    /// The goal list of `ff-`.
    fn false_negative(
        &self,
        alloc: Global,
        stored: &Store,
        formula: &Formula,
        rest: &[Formula],
    ) -> Result<Alternatives<Sequent>, OutOfMemory>
        requires node { root_node formula.now ≡ Node.False Polarity.Negative }
        ensures { IfOk result (λ ls. lists_in ls
            ≡ on_work self.now.ids.now self.now.certificate.now self.now.level self.now.fresh
            stored.now formula.now rest.now) }
    {
        let q = up(stored, Formulas::new(alloc), rest)?;
        self.one(alloc, self.ids.ff_c, Step::FalseN, q)
    }

    /// The goal list of `or-`.
    fn or_negative(
        &self,
        alloc: Global,
        stored: &Store,
        formula: &Formula,
        rest: &[Formula],
    ) -> Result<Alternatives<Sequent>, OutOfMemory>
        requires node { root_node formula.now ≡ Node.Or Polarity.Negative }
        ensures { IfOk result (λ ls. lists_in ls
            ≡ on_work self.now.ids.now self.now.certificate.now self.now.level self.now.fresh
            stored.now formula.now rest.now) }
    {
        let (a, b) = parts(alloc, formula)?;
        let q = up(stored, pair(alloc, a, b)?, rest)?;
        self.one(alloc, self.ids.or_c, Step::OrN, q)
    }

    /// The goal list of `and-`.
    fn and_negative(
        &self,
        alloc: Global,
        stored: &Store,
        formula: &Formula,
        rest: &[Formula],
    ) -> Result<Alternatives<Sequent>, OutOfMemory>
        requires node { root_node formula.now ≡ Node.And Polarity.Negative }
        requires room { self.now.fresh + 256 < 2 ^ 64 }
        ensures { IfOk result (λ ls. lists_in ls
            ≡ on_work self.now.ids.now self.now.certificate.now self.now.level self.now.fresh
            stored.now formula.now rest.now) }
    {
        let (a, b) = parts(alloc, formula)?;
        let q = up(stored, just(alloc, a)?, rest)?;
        let r = up(stored, just(alloc, b)?, rest)?;
        self.two(alloc, self.ids.and_c, Step::AndN, q, r)
    }

    /// The goal list of `all`.
    fn every(
        &self,
        alloc: Global,
        stored: &Store,
        formula: &Formula,
        rest: &[Formula],
    ) -> Result<Alternatives<Sequent>, OutOfMemory>
        requires node { root_node formula.now ≡ Node.ForAll }
        requires level { self.now.level + 1 < 2 ^ 64 }
        ensures { IfOk result (λ ls. lists_in ls
            ≡ on_work self.now.ids.now self.now.certificate.now self.now.level self.now.fresh
            stored.now formula.now rest.now) }
    {
        let a = open_eigen(alloc, formula, self.level)?;
        let q = up(stored, just(alloc, a)?, rest)?;
        let (name, by, step) = (self.ids.all_c, self.certificate, Step::Every);
        let list = raised(alloc, name, by, step, self.level, self.fresh, q)?;
        alone(alloc, list)
    }

    /// The goal list of `store`.
    fn store(
        &self,
        alloc: Global,
        stored: &Store,
        formula: &Formula,
        rest: &[Formula],
    ) -> Result<Alternatives<Sequent>, OutOfMemory>
        requires node { is_storable_node (root_node formula.now) ≡ true }
        requires room { self.now.fresh + 256 < 2 ^ 64 }
        ensures { IfOk result (λ ls. lists_in ls
            ≡ on_work self.now.ids.now self.now.certificate.now self.now.level self.now.fresh
            stored.now formula.now rest.now) }
    {
        let more = storing(alloc, stored, self.fresh + 1, formula)?;
        let q = up(&more, Formulas::new(alloc), rest)?;
        let (name, by, step) = (self.ids.store_c, self.certificate, Step::Store);
        let list = indexed(alloc, name, by, step, self.level, self.fresh, q)?;
        alone(alloc, list)
    }

    /// The goal lists where a formula is worked on.
    fn on_work(
        &self,
        alloc: Global,
        stored: &Store,
        formula: &Formula,
        rest: &[Formula],
    ) -> Result<Alternatives<Sequent>, OutOfMemory>
        requires level { self.now.level + 1 < 2 ^ 64 }
        requires room { self.now.fresh + 256 < 2 ^ 64 }
        ensures { IfOk result (λ ls. lists_in ls
            ≡ on_work self.now.ids.now self.now.certificate.now self.now.level self.now.fresh
            stored.now formula.now rest.now) }
    {
        match outermost(formula) {
            Node::True(Negative) => self.true_negative(alloc, stored, formula, rest),
            Node::False(Negative) => self.false_negative(alloc, stored, formula, rest),
            Node::Or(Negative) => self.or_negative(alloc, stored, formula, rest),
            Node::And(Negative) => self.and_negative(alloc, stored, formula, rest),
            Node::ForAll => self.every(alloc, stored, formula, rest),
            Node::Implies | Node::Inside(_) => Ok(Alternatives::new(alloc)),
            Node::True(Positive)
            | Node::False(Positive)
            | Node::And(Positive)
            | Node::Or(Positive)
            | Node::Atom { .. }
            | Node::Exists => self.store(alloc, stored, formula, rest),
        }
    }

    /// The goal list of `tt+`.
    fn true_positive(
        &self,
        alloc: Global,
        stored: &Store,
        formula: &Formula,
    ) -> Result<Alternatives<Sequent>, OutOfMemory>
        requires node { root_node formula.now ≡ Node.True Polarity.Positive }
        ensures { IfOk result (λ ls. lists_in ls
            ≡ on_focus self.now.ids.now self.now.certificate.now self.now.level self.now.fresh
            stored.now formula.now) }
    {
        let list = closed_by(alloc, self.ids.tt_e, self.certificate, Step::TrueP)?;
        alone(alloc, list)
    }

    /// The goal list of `and+`.
    fn and_positive(
        &self,
        alloc: Global,
        stored: &Store,
        formula: &Formula,
    ) -> Result<Alternatives<Sequent>, OutOfMemory>
        requires node { root_node formula.now ≡ Node.And Polarity.Positive }
        requires room { self.now.fresh + 256 < 2 ^ 64 }
        ensures { IfOk result (λ ls. lists_in ls
            ≡ on_focus self.now.ids.now self.now.certificate.now self.now.level self.now.fresh
            stored.now formula.now) }
    {
        let (a, b) = parts(alloc, formula)?;
        let q = down(stored, a)?;
        let r = down(stored, b)?;
        self.two(alloc, self.ids.and_e, Step::AndP, q, r)
    }

    /// The goal lists of `or+`.
    fn or_positive(
        &self,
        alloc: Global,
        stored: &Store,
        formula: &Formula,
    ) -> Result<Alternatives<Sequent>, OutOfMemory>
        requires node { root_node formula.now ≡ Node.Or Polarity.Positive }
        requires room { self.now.fresh + 256 < 2 ^ 64 }
        ensures { IfOk result (λ ls. lists_in ls
            ≡ on_focus self.now.ids.now self.now.certificate.now self.now.level self.now.fresh
            stored.now formula.now) }
    {
        let (a, b) = parts(alloc, formula)?;
        let left = self.on_side(alloc, self.ids.left, Side::Left, down(stored, a)?)?;
        let right = self.on_side(alloc, self.ids.right, Side::Right, down(stored, b)?)?;
        let mut lists = alone(alloc, left)?;
        lists.push(right)?;
        Ok(lists)
    }

    /// The goal list of `some`.
    fn some(
        &self,
        alloc: Global,
        stored: &Store,
        formula: &Formula,
    ) -> Result<Alternatives<Sequent>, OutOfMemory>
        requires node { root_node formula.now ≡ Node.Exists }
        requires room { self.now.fresh + 256 < 2 ^ 64 }
        ensures { IfOk result (λ ls. lists_in ls
            ≡ on_focus self.now.ids.now self.now.certificate.now self.now.level self.now.fresh
            stored.now formula.now) }
    {
        let q = down(stored, open_variable(alloc, formula, self.fresh + 1)?)?;
        let step = Step::Exists(variable(alloc, self.fresh + 1)?);
        let (name, by) = (self.ids.some_e, self.certificate);
        let list = witnessed(alloc, name, by, step, self.level, self.fresh, q)?;
        alone(alloc, list)
    }

    /// The goal list of `init`.
    fn initial(
        &self,
        alloc: Global,
        stored: &Store,
        formula: &Formula,
    ) -> Result<Alternatives<Sequent>, OutOfMemory>
        requires node { (name n : ℕ) × (root_node formula.now ≡ Node.Atom true name n) }
        ensures { IfOk result (λ ls. lists_in ls
            ≡ on_focus self.now.ids.now self.now.certificate.now self.now.level self.now.fresh
            stored.now formula.now) }
    {
        let q = down(stored, formula.copy()?)?;
        let (name, by) = (self.ids.init_e, self.certificate);
        let list = init_picked(alloc, name, by, self.level, self.fresh, q)?;
        alone(alloc, list)
    }

    /// The goal list of `release`.
    fn release(
        &self,
        alloc: Global,
        stored: &Store,
        formula: &Formula,
    ) -> Result<Alternatives<Sequent>, OutOfMemory>
        requires node { node_polarity (root_node formula.now) ≡ Polarity.Negative }
        ensures { IfOk result (λ ls. lists_in ls
            ≡ on_focus self.now.ids.now self.now.certificate.now self.now.level self.now.fresh
            stored.now formula.now) }
    {
        let q = up_alone(alloc, stored, formula.copy()?)?;
        self.one(alloc, self.ids.release_e, Step::Release, q)
    }

    /// The goal lists where a formula is under focus.
    fn on_focus(
        &self,
        alloc: Global,
        stored: &Store,
        formula: &Formula,
    ) -> Result<Alternatives<Sequent>, OutOfMemory>
        requires room { self.now.fresh + 256 < 2 ^ 64 }
        ensures { IfOk result (λ ls. lists_in ls
            ≡ on_focus self.now.ids.now self.now.certificate.now self.now.level self.now.fresh
            stored.now formula.now) }
    {
        match outermost(formula) {
            Node::True(Positive) => self.true_positive(alloc, stored, formula),
            Node::False(Positive) | Node::Inside(_) => Ok(Alternatives::new(alloc)),
            Node::And(Positive) => self.and_positive(alloc, stored, formula),
            Node::Or(Positive) => self.or_positive(alloc, stored, formula),
            Node::Exists => self.some(alloc, stored, formula),
            Node::Atom { positive: true, .. } => self.initial(alloc, stored, formula),
            Node::True(Negative)
            | Node::False(Negative)
            | Node::And(Negative)
            | Node::Or(Negative)
            | Node::Atom {
                positive: false,
                ..
            }
            | Node::Implies
            | Node::ForAll => self.release(alloc, stored, formula),
        }
    }

    /// The goal lists where nothing is left to be worked on.
    fn on_nothing(
        &self,
        alloc: Global,
        stored: &Store,
    ) -> Result<Alternatives<Sequent>, OutOfMemory>
        requires room { self.now.fresh + 256 < 2 ^ 64 }
        ensures { IfOk result (λ ls. lists_in ls
            ≡ on_nothing self.now.ids.now self.now.certificate.now self.now.level self.now.fresh
            stored.now) }
    {
        let by = self.certificate;
        let q = up(stored, Formulas::new(alloc), &[])?;
        let decided = picked(alloc, self.ids.decide_e, by, self.level, self.fresh, q)?;
        let q = up(stored, Formulas::new(alloc), &[])?;
        let cut = cutting(alloc, self.ids.cut_e, by, self.level, self.fresh, q)?;
        let mut lists = alone(alloc, decided)?;
        lists.push(cut)?;
        Ok(lists)
    }
}

/// The goal lists of a sequent.
pub(crate) fn expand(
    alloc: Global,
    program: &Program,
    certificate: &TermBuf,
    level: u64,
    sequent: &Sequent,
    fresh: u64,
) -> Result<Alternatives<Sequent>, OutOfMemory>
    requires level { level + 1 < 2 ^ 64 }
    requires room { fresh + 256 < 2 ^ 64 }
    ensures { IfOk result (λ ls. lists_in ls
        ≡ goal_lists program.now (derive certificate.now level sequent.now) fresh) }
{
    let guide = Guide {
        ids: &program.ids,
        certificate,
        level,
        fresh,
    };
    match sequent {
        Sequent::Up { stored, work } => match work.items() {
            [first, rest @ ..] => guide.on_work(alloc, stored, first, rest),
            [] => guide.on_nothing(alloc, stored),
        },
        Sequent::Down { stored, focus } => guide.on_focus(alloc, stored, focus),
    }
}
