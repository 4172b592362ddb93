//! LKF as a calculus of the search.
ghost use Rattle.std.specs.Prelude.{◌≡◌};
ghost use Rattle.polarised_formulas.specs.declared.logic.Logic.TheVariants.{Lkf as LogicOfLkf};
ghost use Rattle.lkf_kernel.specs.Guided.{lkf_table};

use crate::choices::{closings, cuts, picks};
use crate::sequent::{Sequent, up_alone};
use crate::table::expand;
use clause_language::program::Program;
use fpc_base::outside::OutOfMemory;
use fpc_terms::term::TermBuf;
use polarised_formulas::formula::Formula;
use polarised_formulas::logic::Logic;
use search_model::calculus::Calculus;
use search_model::goals::{Alternatives, GoalItem, SequentGoal};
use search_model::stored::Store;
use std::alloc::Global;

/// LKF, after Liang and Miller, with the clerks and experts of its rules after Chihani, Miller and
/// Renaud.
#[derive(Clone, Copy, Debug)]
pub struct Lkf;

impl Calculus for Lkf {
    ghost use Rattle.lkf_kernel.specs.LkfComplete.{lkf_complete};
    ghost use Rattle.lkf_kernel.specs.LkfSequents.{lkf_sequents};
    ghost use Rattle.lkf_kernel.specs.LkfSound.{lkf_sound};
    ghost use Rattle.lkf_kernel.specs.LkfTabled.{lkf_tabled};

    type Sequent = Sequent;

    ghost takes = { λ l. l ≡ LogicOfLkf };

    ghost table = { lkf_table };

    ghost sequent_of = { λ p q. q };

    fn logic(&self) -> Logic {
        Logic::Lkf
    }

    fn start(&self, alloc: Global, goal: &Formula) -> Result<Sequent, OutOfMemory> {
        up_alone(alloc, &Store::new(alloc), goal.copy()?)
    }

    #[tactic(auto, using(crate::proofs::SameSequents::over_facts))]
    fn expand(
        &self,
        alloc: Global,
        program: &Program,
        goal: &SequentGoal<Sequent>,
        fresh: u64,
    ) -> Result<Alternatives<Sequent>, OutOfMemory> {
        expand(
            alloc,
            program,
            &goal.certificate,
            goal.level,
            &goal.sequent,
            fresh,
        )
    }

    #[tactic(auto, using(crate::proofs::SameSequents::over_facts, crate::proofs::CutFacts::all_lkf))]
    fn choose(
        &self,
        alloc: Global,
        program: &Program,
        item: &GoalItem<Sequent>,
        fresh: u64,
    ) -> Result<Alternatives<Sequent>, OutOfMemory> {
        match item {
            GoalItem::Pick {
                next,
                level,
                index,
                sequent: Sequent::Up { stored, .. },
            } => picks(alloc, next, *level, index, stored),
            GoalItem::InitPick {
                index,
                sequent: Sequent::Down { stored, focus },
                ..
            } => closings(alloc, index, stored, focus),
            GoalItem::Cut {
                left,
                right,
                level,
                formula,
                sequent: Sequent::Up { stored, .. },
            } => cuts(alloc, program, left, right, *level, formula, stored, fresh),
            _ => Ok(Alternatives::new(alloc)),
        }
    }

    fn copy(&self, alloc: Global, sequent: &Sequent) -> Result<Sequent, OutOfMemory> {
        sequent.copy()
    }

    fn substitute(
        &self,
        alloc: Global,
        sequent: &Sequent,
        variable: u64,
        term: &TermBuf,
    ) -> Result<Sequent, OutOfMemory> {
        sequent.with_term(alloc, variable, term)
    }

    ghost sequents = { λ p. lkf_sequents p };

    ghost tabled = { λ p o few. lkf_tabled p o few };

    ghost sound = { λ p o. lkf_sound p o };

    ghost complete = { λ p o. lkf_complete p o };
}
