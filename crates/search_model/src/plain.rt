//! The search for the root of a goal, by copied states, in any calculus.
ghost use Rattle.std.specs.Prelude.{◌≡◌, IfOk, length, map};
ghost use Rattle.fpc_terms.specs.Open.{constant};
ghost use Rattle.polarised_formulas.specs.Formula.{IsClosed};
ghost use Rattle.clause_language.specs.Program.{IsOpenProgram};
ghost use Rattle.search_model.specs.Checking.{IsOutcome, IsOutcomeRight, IsOutcomeWithin};
ghost use Rattle.polarised_formulas.specs.OpenFormula.{put_step};

use crate::alternative::copied_term;
use crate::calculus::Calculus;
use crate::goals::{GoalItem, SequentGoal};
use crate::search::{Found, few_parameters, search_goal};
use clause_language::program::Program;
use fpc_base::outside::OutOfMemory;
use fpc_terms::list::Terms;
use fpc_terms::name::NameId;
use polarised_formulas::formula::Formula;
use polarised_formulas::step::Step;
use polarised_formulas::step_list::StepList;
use polarised_formulas::step_substitution::step_with_constant;
use std::alloc::Global;
use std::marker::Model;

/// The steps of an accepted search in preorder, with `any` for each variable that is left.
#[derive(Drop)]
pub struct Trace {
    steps: StepList,
}

impl Model for Trace {
    ghost use Rattle.std.specs.Prelude.{List};
    ghost use Rattle.std.specs.Coded.{coded_list};
    ghost use Rattle.polarised_formulas.specs.declared.step.Step.{Step};
    ghost use Rattle.polarised_formulas.specs.contracts.step.Step as step;

    ghost Value = { List Step };

    ghost coded = { coded_list step.the_row.coded };

    ghost view = { λ t. t.steps };
}

impl Trace {
    /// How many steps there are.
    pub fn len(&self) -> u64
        ensures { result ≡ length self.now }
    {
        self.steps.len() as u64
    }

    /// The steps in order.
    pub fn steps(&self) -> &StepList
        ensures { result.now ≡ self.now }
    {
        &self.steps
    }
}

/// How the search for a goal ends, with the units that were taken.
#[derive(Drop)]
pub enum Outcome {
    /// The steps spell a derivation of the goal.
    Accepted { trace: Trace, units: u64 },
    /// The certificate guides no derivation of the goal.
    Rejected { units: u64 },
    /// A unit was needed, and all of the budget were taken.
    Spent,
}

/// The steps with a constant for each variable.
fn trace_of(alloc: Global, steps: &[Step], any: NameId) -> Result<Trace, OutOfMemory>
    ensures { IfOk result (λ t. t ≡ map (put_step (constant any)) steps.now) }
{
    let mut list = StepList::new(alloc);
    for step in steps {
        list.push(step_with_constant(alloc, step, any)?)?;
    }
    Ok(Trace { steps: list })
}

/// Searches for a derivation of a goal, guided by a program's certificate: depth first, the goal
/// lists and the clauses in order. One unit is taken for each goal that is taken, and one for each
/// node of a term that is looked through before a variable becomes it. Each alternative is a copy,
/// so time and memory grow with the size of the alternatives.
pub fn plain_search<C: Calculus>(
    alloc: Global,
    calculus: &C,
    program: &Program,
    goal: &Formula,
    budget: u64,
) -> Result<Outcome, OutOfMemory>
    requires program { IsOpenProgram program.now }
    requires logic { C.takes program.now.logic }
    requires closed { IsClosed goal.now }
    ensures outcome { IfOk result (IsOutcome (C.table program.now) program.now goal.now budget) }
    ensures units { IfOk result (IsOutcomeWithin budget) }
    ensures right { IfOk result (IsOutcomeRight (C.table program.now) program.now goal.now) }
{
    few_parameters(program);
    let certificate = copied_term(&program.term)?;
    let sequent = calculus.start(alloc, goal)?;
    let root = GoalItem::Seq(SequentGoal {
        certificate,
        level: 0,
        sequent,
    });
    let asked = Terms::new(alloc);
    let variables = program.variables;
    let found = search_goal(alloc, calculus, program, root, asked, variables, budget)?;
    match found {
        Found::Accepted { emitted, units, .. } => {
            let trace = trace_of(alloc, emitted.as_slice(), program.ids.any)?;
            Ok(Outcome::Accepted { trace, units })
        }
        Found::Rejected { units } => Ok(Outcome::Rejected { units }),
        Found::Spent => Ok(Outcome::Spent),
    }
}
