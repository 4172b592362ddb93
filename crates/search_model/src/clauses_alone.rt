//! The calculus whose one sequent has no goal list, for the search over clauses alone.
ghost use Rattle.search_model.specs.ClausesAlone.{no_table, no_table_complete, no_table_is_table};
ghost use Rattle.search_model.specs.ClausesAlone.{no_table_sequents, no_table_sound};

use crate::calculus::Calculus;
use crate::goals::{Alternatives, GoalItem, SequentGoal};
use clause_language::program::Program;
use fpc_base::outside::OutOfMemory;
use fpc_terms::term::TermBuf;
use polarised_formulas::formula::Formula;
use polarised_formulas::logic::Logic;
use std::alloc::Global;

/// The one sequent of the calculus, which has no goal list. A search over clauses alone never meets
/// it.
#[derive(Clone, Copy, Debug)]
pub struct NoSequent;

/// The calculus whose one sequent has no goal list.
#[derive(Clone, Copy, Debug)]
pub struct ClausesAlone;

impl Calculus for ClausesAlone {
    type Sequent = NoSequent;

    ghost takes = { λ l. Unit {0} };

    ghost table = { λ p. no_table };

    ghost sequent_of = { λ p q. tt };

    fn logic(&self) -> Logic {
        Logic::Lkf
    }

    fn start(&self, alloc: Global, goal: &Formula) -> Result<NoSequent, OutOfMemory> {
        Ok(NoSequent)
    }

    fn expand(
        &self,
        alloc: Global,
        program: &Program,
        goal: &SequentGoal<NoSequent>,
        fresh: u64,
    ) -> Result<Alternatives<NoSequent>, OutOfMemory> {
        Ok(Alternatives::new(alloc))
    }

    fn choose(
        &self,
        alloc: Global,
        program: &Program,
        item: &GoalItem<NoSequent>,
        fresh: u64,
    ) -> Result<Alternatives<NoSequent>, OutOfMemory> {
        Ok(Alternatives::new(alloc))
    }

    fn copy(&self, alloc: Global, sequent: &NoSequent) -> Result<NoSequent, OutOfMemory> {
        Ok(NoSequent)
    }

    fn substitute(
        &self,
        alloc: Global,
        sequent: &NoSequent,
        variable: u64,
        term: &TermBuf,
    ) -> Result<NoSequent, OutOfMemory> {
        Ok(NoSequent)
    }

    ghost sequents = { λ p. no_table_sequents };

    ghost tabled = { λ p o few. no_table_is_table };

    ghost sound = { λ p o. no_table_sound p.clauses };

    ghost complete = { λ p o. no_table_complete p.clauses };
}
