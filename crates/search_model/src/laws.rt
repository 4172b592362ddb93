//! Laws over the definition of the search, each the contract of a function with nothing to run.
ghost use Rattle.search_model.specs.Checking.{OutcomeOfCheckIsSettled};
ghost use Rattle.search_model.specs.EqualityRun.{EqualityIsUnified};
ghost use Rattle.search_model.specs.Odd.{NaturalIsApart};
ghost use Rattle.search_model.specs.Renaming.{AnsweredOnce};
ghost use Rattle.search_model.specs.Solve.{OutcomeIsSettled};

use crate::calculus::Calculus;

/// A search that ends with some units ends so within each budget that has them, and is spent within
/// each smaller one.
pub fn outcome_is_settled()
    ensures { OutcomeIsSettled }
{}

/// A search for a goal, in any calculus, that ends with some units ends so within each budget that
/// has them, and is spent within each smaller one.
pub fn outcome_of_check_is_settled<C: Calculus>()
    ensures { OutcomeOfCheckIsSettled C.table }
{}

/// The answer to an atom over a definition hangs on what the two say, and on no numbering of their
/// names.
pub fn one_solution()
    ensures { AnsweredOnce }
{}

/// That goal lists follow the terms for an item's variables has to be asked of a calculus: a lawful
/// and complete one may be otherwise.
pub fn natural_is_apart()
    ensures { NaturalIsApart }
{}

/// A search takes an equality as unification does: where unification ends with some units, the
/// search goes on after as many, from the alternative as it is then or without it, and it is spent
/// where unification is.
pub fn equality_is_unified()
    ensures { EqualityIsUnified }
{}
