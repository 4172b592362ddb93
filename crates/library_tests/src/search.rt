//! The search for a proof: goal lists, and outcomes at the edge of their budgets. What LKF gives the search
//! is reached by the rows of `check`.
ghost use Rattle.std.specs.Prelude.{◌≡◌, IfOk};
ghost use Rattle.polarised_formulas.specs.declared.logic.Logic.TheVariants.{Lkf as LogicOfLkf};
ghost use Rattle.clause_language.specs.Program.{IsOpenProgram};

use clause_language::{Certificate, Clauses, Declared, DeclaredFormula, Definition, Program, join};
use elaborator::check::check;
use fpc_base::OutOfMemory;
use fpc_terms::{Cell, Names, TermBuf};
use lkf_kernel::{Lkf, Sequent};
use polarised_formulas::{Formula, Logic, Node, Polarity, Step, read_problem};
use search_model::goals::{Alternatives, GoalItem, Goals};
use search_model::{Outcome, plain_search};
use std::alloc::{AllocError, Global};
use std::test::Fail;

#[test]
fn goal_lists_keep_goals_and_levels(rt: HostRuntime) -> Result<(), Fail> {
    let mut goals: Goals<Sequent> = Goals::new(rt.alloc());
    goals.push(GoalItem::Emit(Step::Store))?;
    goals.push(GoalItem::Emit(Step::TrueN))?;
    goals.new_var(None)?;
    goals.new_var(Some(3))?;
    assert_eq!(rt; (goals.len(), goals.new_vars()), (2, 2));
    assert_eq!(rt; (goals.level(0), goals.level(1)), (None, Some(3)));
    assert!(rt; matches!(goals.get(1), GoalItem::Emit(Step::TrueN)));
    let mut lists = Alternatives::new(rt.alloc());
    lists.push(goals)?;
    assert_eq!(rt; (lists.len(), lists.get(0).len()), (1, 2));
    let mut last = lists.pop().ok_or("no list")?;
    assert!(rt; matches!(last.pop(), Some(GoalItem::Emit(Step::TrueN))));
    assert!(rt; matches!(last.pop(), Some(GoalItem::Emit(Step::Store))));
    assert!(rt; last.pop().is_none() && lists.pop().is_none());
    Ok(())
}

/// A program of LKF without clauses, whose one declared formula is `tt+`, and whose certificate is its name.
fn program(alloc: Global, names: &mut Names) -> Result<Program, OutOfMemory>
    ensures is_open { IfOk result IsOpenProgram }
    ensures logic { IfOk result (λ p. p.logic ≡ LogicOfLkf) }
{
    let name = names.intern(b"f")?;
    let mut declared = Declared::new(alloc);
    declared.push(DeclaredFormula {
        name,
        parameters: 0,
        formula: Formula::from_nodes(alloc, &[Node::True(Polarity::Positive)])?,
    })?;
    let definition = Definition {
        logic: Logic::Lkf,
        declared,
        clauses: Clauses::new(alloc),
    };
    let certificate = Certificate {
        logic: Logic::Lkf,
        declared: Declared::new(alloc),
        clauses: Clauses::new(alloc),
        term: TermBuf::from_cells(alloc, &[Cell::App(name, 0)])?,
        variables: 0,
    };
    join(alloc, names, definition, certificate)
}

/// An outcome with its steps and units.
fn told(alloc: Global, outcome: Outcome) -> Result<String, AllocError> {
    match outcome {
        Outcome::Accepted { trace, units } => {
            let (steps, listed) = (trace.len(), trace.steps().len());
            format!(in alloc; "{steps} of {listed} steps, {units} units")
        }
        Outcome::Rejected { units } => format!(in alloc; "rejected, {units} units"),
        Outcome::Spent => String::from_str(alloc, "spent"),
    }
}

/// Goals, each with a budget and the outcome where no clause helps.
const OUTCOMES: &[(&str, u64, &str)] = &[
    ("lkf tt-.", 2, "1 of 1 steps, 2 units"),
    ("lkf tt-.", 1, "spent"),
    ("lkf ff-.", 2, "rejected, 2 units"),
    ("lkf ff-.", 1, "spent"),
];

#[test]
fn goals_are_checked_within_their_budgets(rt: HostRuntime) -> Result<(), Fail> {
    for (goal, budget, due) in OUTCOMES {
        let mut names = Names::new(rt.alloc());
        let problem = read_problem(rt.alloc(), &mut names, goal.as_bytes())?;
        let program = program(rt.alloc(), &mut names)?;
        assert_eq!(rt; problem.logic, Logic::Lkf);
        let checked = check(rt.alloc(), &problem, &program, *budget)?;
        assert_eq!(rt; told(rt.alloc(), checked)?.as_str(), *due, "{goal}");
        let searched = plain_search(rt.alloc(), &Lkf, &program, &problem.goal, *budget)?;
        assert_eq!(rt; told(rt.alloc(), searched)?.as_str(), *due, "{goal}");
    }
    Ok(())
}
