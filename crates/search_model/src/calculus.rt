//! What the search asks of a calculus.
ghost use Rattle.std.specs.Prelude.{◌≡◌, ◌+◌, ◌<◌, ◌^◌, IfOk, IfSome, map};
ghost use Rattle.fpc_terms.specs.Open.{at_one};
ghost use Rattle.polarised_formulas.specs.Formula.{IsClosed};
ghost use Rattle.polarised_formulas.specs.declared.logic.Logic.{Logic};
ghost use Rattle.clause_language.specs.declared.program.Program.{Program};
ghost use Rattle.clause_language.specs.Program.{IsOpenProgram};
ghost use Rattle.search_model.specs.GoalItems.{chosen_in, lists_in, list_over, item_over};
ghost use Rattle.search_model.specs.Lawful.{IsComplete};
ghost use Rattle.search_model.specs.Table.{AreSequents, IsTable, Table, calculus_of};
ghost use Rattle.search_model.specs.Table.{derive, level_in};
ghost use Rattle.search_model.specs.TableLaws.{AreSoundLines, HaveFewParameters};

use crate::goals::{Alternatives, GoalItem, SequentGoal};
use clause_language::program::Program;
use fpc_base::outside::OutOfMemory;
use fpc_terms::term::TermBuf;
use polarised_formulas::formula::Formula;
use polarised_formulas::logic::Logic;
use std::alloc::Global;

/// A calculus of sequents, as the search takes it: a table of goal lists for its items, with its
/// laws. Variables are numbered from 0 in each alternative, so those of a goal or an item are below
/// `fresh`.
pub trait Calculus {
    type Sequent: Drop;

    ghost takes: { Logic → Type 0 };

    ghost table: { Program → Table };

    ghost sequent_of: { (p : Program) → Self.Sequent → (table p).SequentOf };

    /// The logic of its rules.
    fn logic(&self) -> Logic
        ensures { takes result };

    /// The root sequent of a goal.
    fn start(&self, alloc: Global, goal: &Formula) -> Result<Self::Sequent, OutOfMemory>
        requires closed { IsClosed goal.now }
        ensures { (p : Program) → IfOk result (λ q. sequent_of p q ≡ (table p).root_of goal.now) };

    /// The goal lists of a sequent, whose new variables are numbered from `fresh` on.
    fn expand(
        &self,
        alloc: Global,
        program: &Program,
        goal: &SequentGoal<Self::Sequent>,
        fresh: u64,
    ) -> Result<Alternatives<Self::Sequent>, OutOfMemory>
        requires program { IsOpenProgram program.now }
        requires logic { takes program.now.logic }
        requires level { goal.now.level + 1 < 2 ^ 64 }
        requires fresh { fresh + 256 < 2 ^ 64 }
        requires is_open { (calculus_of (table program.now)).IsOpenItem fresh
            (derive goal.now.certificate goal.now.level (sequent_of program.now goal.now.sequent)) }
        ensures { IfOk result (λ r. map (list_over (sequent_of program.now)) (lists_in r)
            ≡ (table program.now).expand
            (derive goal.now.certificate goal.now.level (sequent_of program.now goal.now.sequent))
            fresh) };

    /// The goal lists of an item that is no sequent to be derived.
    fn choose(
        &self,
        alloc: Global,
        program: &Program,
        item: &GoalItem<Self::Sequent>,
        fresh: u64,
    ) -> Result<Alternatives<Self::Sequent>, OutOfMemory>
        requires program { IsOpenProgram program.now }
        requires logic { takes program.now.logic }
        requires level { IfSome (chosen_in item.now) (λ x. level_in x + 1 < 2 ^ 64) }
        requires fresh { fresh + 256 < 2 ^ 64 }
        requires is_open { IfSome (chosen_in item.now)
            (λ x. (calculus_of (table program.now)).IsOpenItem fresh
            (item_over (sequent_of program.now) x)) }
        ensures { IfOk result (λ r. IfSome (chosen_in item.now)
            (λ x. map (list_over (sequent_of program.now)) (lists_in r)
            ≡ (table program.now).expand (item_over (sequent_of program.now) x) fresh)) };

    /// An equal sequent.
    fn copy(&self, alloc: Global, sequent: &Self::Sequent) -> Result<Self::Sequent, OutOfMemory>
        ensures { (p : Program) → IfOk result (λ q. sequent_of p q ≡ sequent_of p sequent.now) };

    /// The sequent with a term for a variable in each formula and index.
    fn substitute(
        &self,
        alloc: Global,
        sequent: &Self::Sequent,
        variable: u64,
        term: &TermBuf,
    ) -> Result<Self::Sequent, OutOfMemory>
        ensures { (p : Program) → IfOk result (λ q. sequent_of p q
            ≡ (table p).put_sequent (at_one variable term.now) (sequent_of p sequent.now)) };

    ghost sequents: { (p : Program) → AreSequents (table p) };

    ghost tabled: { (p : Program) → IsOpenProgram p → HaveFewParameters p.declared
        → IsTable (table p) };

    ghost sound: { (p : Program) → IsOpenProgram p → AreSoundLines (table p) p.clauses };

    ghost complete: { (p : Program) → IsOpenProgram p
        → IsComplete (calculus_of (table p)) p.clauses };
}
