//! The search, by copied states, for any calculus of sequents.
ghost use Rattle.std.specs.Prelude.{◌≡◌, ◌≤◌, ◌<◌, ◌+◌, ◌-◌, ◌^◌, ◌++◌, ◌∷◌, []};
ghost use Rattle.std.specs.Prelude.{IfOk, IfSome, OnOk, length, map, replicate};
ghost use Rattle.std.specs.Prelude.{None as NoLevel};
ghost use Rattle.std.specs.List.{All};
ghost use Rattle.fpc_terms.specs.Equality.{equality};
ghost use Rattle.fpc_terms.specs.Open.{AreOpen, level_of};
ghost use Rattle.fpc_terms.specs.Term.{no_args};
ghost use Rattle.clause_language.specs.LeastModel.{fits};
ghost use Rattle.clause_language.specs.Program.{IsOpenProgram};
ghost use Rattle.clause_language.specs.declared.program.Program.{Program};
ghost use Rattle.search_model.specs.GoalItems.{chosen_in, item_over};
ghost use Rattle.search_model.specs.TableLaws.{HaveFewParameters};
ghost use Rattle.search_model.specs.Lawful.{AreGoals, IsGoal};
ghost use Rattle.search_model.specs.Search.{between, equated, extended, search, taken, walking};
ghost use Rattle.search_model.specs.States.{alternative_of, alternatives_of, goal_of, reached};
ghost use Rattle.search_model.specs.States.{running, to_between, IsFound};
ghost use Rattle.search_model.specs.Table.{IsLevelled, calculus_of, derive, level_in};

use crate::alternative::{Alternative, bound_to, level_at};
use crate::calculus::Calculus;
use crate::calls::{push_all_answered, push_all_extended, push_variables, with_parts};
use crate::comparison::{Comparison, compare};
use crate::goals::{GoalItem, SequentGoal};
use crate::walk::{Walked, walk_through};
use clause_language::declaration::DeclaredFormula;
use clause_language::program::Program;
use fpc_base::outside::OutOfMemory;
use fpc_terms::cell::Cell;
use fpc_terms::list::Terms;
use fpc_terms::term::TermBuf;
use polarised_formulas::step::Step;
use std::alloc::Global;

/// How the search for a goal ends, with the arguments that were asked and the emitted steps as they
/// are at its end.
#[derive(Drop)]
pub enum Found {
    Accepted {
        asked: Terms,
        emitted: Vec<Step>,
        units: u64,
    },
    Rejected {
        units: u64,
    },
    Spent,
}

/// Walks through a term, and then substitutes it for the variable in the first alternative.
/// Answers whether there were units enough.
fn walk_and_bind<C: Calculus>(
    alloc: Global,
    calculus: &C,
    variable: u64,
    term: &TermBuf,
    first: Alternative<C::Sequent>,
    stack: &mut Vec<Alternative<C::Sequent>>,
    units: &mut u64,
) -> Result<bool, OutOfMemory>
    ensures left { IfOk result (λ enough. units.new ≤ units.old) }
    ensures step { (p : Program) → IfOk result (λ enough.
        to_between (calculus_of (C.table p)) p.clauses units.old
        (walking variable term.now term.now no_args (alternative_of (C.sequent_of p) first)
        (alternatives_of (C.sequent_of p) stack.old.items))
        ≡ reached units.old units.new enough (alternatives_of (C.sequent_of p) stack.new.items)) }
{
    let level = level_at(first.levels.as_slice(), variable);
    match walk_through(term.cells(), variable, level, units) {
        Walked::OutOfUnits => Ok(false),
        Walked::Clashed => Ok(true),
        Walked::Passed => {
            stack.push(bound_to(alloc, calculus, first, variable, term)?)?;
            Ok(true)
        }
    }
}

/// Takes an equality, which the first alternative has lost. Answers whether there were units
/// enough.
fn equate<C: Calculus>(
    alloc: Global,
    calculus: &C,
    left: &TermBuf,
    right: &TermBuf,
    first: Alternative<C::Sequent>,
    stack: &mut Vec<Alternative<C::Sequent>>,
    units: &mut u64,
) -> Result<bool, OutOfMemory>
    ensures left { IfOk result (λ enough. units.new ≤ units.old) }
    ensures step { (p : Program) → IfOk result (λ enough.
        to_between (calculus_of (C.table p)) p.clauses units.old
        (equated (calculus_of (C.table p)) (equality left.now right.now)
        (alternative_of (C.sequent_of p) first) (alternatives_of (C.sequent_of p) stack.old.items))
        ≡ reached units.old units.new enough (alternatives_of (C.sequent_of p) stack.new.items)) }
{
    match compare(left, right) {
        Comparison::Clash => Ok(true),
        Comparison::Same => {
            stack.push(first)?;
            Ok(true)
        }
        Comparison::Parts => {
            stack.push(with_parts::<C>(alloc, first, left, right)?)?;
            Ok(true)
        }
        Comparison::Older { young, old } => {
            let term = TermBuf::from_cells(alloc, &[Cell::Var(old)])?;
            stack.push(bound_to(alloc, calculus, first, young, &term)?)?;
            Ok(true)
        }
        Comparison::Left(variable) => {
            walk_and_bind(alloc, calculus, variable, right, first, stack, units)
        }
        Comparison::Right(variable) => {
            walk_and_bind(alloc, calculus, variable, left, first, stack, units)
        }
    }
}

/// Takes a sequent, which the first alternative has lost.
fn take_sequent<C: Calculus>(
    alloc: Global,
    calculus: &C,
    program: &Program,
    goal: &SequentGoal<C::Sequent>,
    first: &Alternative<C::Sequent>,
    stack: &mut Vec<Alternative<C::Sequent>>,
) -> Result<(), OutOfMemory>
    requires program { IsOpenProgram program.now }
    requires logic { C.takes program.now.logic }
    requires level { goal.now.level + 1 < 2 ^ 64 }
    requires is_open { (calculus_of (C.table program.now)).IsOpenItem
        (length first.now.levels.items)
        (derive goal.now.certificate goal.now.level (C.sequent_of program.now goal.now.sequent)) }
    ensures { OnOk result (alternatives_of (C.sequent_of program.now) stack.new.items
        ≡ map (extended (alternative_of (C.sequent_of program.now) first.now))
        ((C.table program.now).expand
        (derive goal.now.certificate goal.now.level (C.sequent_of program.now goal.now.sequent))
        (length first.now.levels.items))
        ++ alternatives_of (C.sequent_of program.now) stack.old.items) }
{
    let fresh = first.levels.len() as u64;
    let lists = calculus.expand(alloc, program, goal, fresh)?;
    push_all_extended(alloc, calculus, lists, first, stack)
}

/// Takes an item that is no sequent to be derived, which the first alternative has lost.
fn take_chosen<C: Calculus>(
    alloc: Global,
    calculus: &C,
    program: &Program,
    item: &GoalItem<C::Sequent>,
    first: &Alternative<C::Sequent>,
    stack: &mut Vec<Alternative<C::Sequent>>,
) -> Result<(), OutOfMemory>
    requires program { IsOpenProgram program.now }
    requires logic { C.takes program.now.logic }
    requires level { IfSome (chosen_in item.now) (λ x. level_in x + 1 < 2 ^ 64) }
    requires is_open { IfSome (chosen_in item.now)
        (λ x. (calculus_of (C.table program.now)).IsOpenItem (length first.now.levels.items)
        (item_over (C.sequent_of program.now) x)) }
    ensures { OnOk result (IfSome (chosen_in item.now) (λ x.
        alternatives_of (C.sequent_of program.now) stack.new.items
        ≡ map (extended (alternative_of (C.sequent_of program.now) first.now))
        ((C.table program.now).expand (item_over (C.sequent_of program.now) x)
        (length first.now.levels.items))
        ++ alternatives_of (C.sequent_of program.now) stack.old.items)) }
{
    let fresh = first.levels.len() as u64;
    let lists = calculus.choose(alloc, program, item, fresh)?;
    push_all_extended(alloc, calculus, lists, first, stack)
}

/// Takes a goal, which the first alternative has lost. Answers whether there were units enough.
fn take<C: Calculus>(
    alloc: Global,
    calculus: &C,
    program: &Program,
    goal: GoalItem<C::Sequent>,
    first: Alternative<C::Sequent>,
    stack: &mut Vec<Alternative<C::Sequent>>,
    units: &mut u64,
) -> Result<bool, OutOfMemory>
    requires program { IsOpenProgram program.now }
    requires logic { C.takes program.now.logic }
    requires level { IsLevelled (2 ^ 64 - 2) (goal_of (C.sequent_of program.now) goal) }
    requires is_goal { IsGoal (calculus_of (C.table program.now)) first.levels.items
        (goal_of (C.sequent_of program.now) goal) }
    ensures left { IfOk result (λ enough. units.new ≤ units.old) }
    ensures step { IfOk result (λ enough.
        to_between (calculus_of (C.table program.now)) program.now.clauses units.old
        (taken (calculus_of (C.table program.now)) fits program.now.clauses
        (goal_of (C.sequent_of program.now) goal) (alternative_of (C.sequent_of program.now) first)
        (alternatives_of (C.sequent_of program.now) stack.old.items))
        ≡ reached units.old units.new enough
        (alternatives_of (C.sequent_of program.now) stack.new.items)) }
{
    match goal {
        GoalItem::Call(atom) => {
            push_all_answered(
                alloc,
                calculus,
                program.clauses.items(),
                &atom,
                &first,
                stack,
            )?;
            Ok(true)
        }
        GoalItem::Eq(left, right) => equate(alloc, calculus, &left, &right, first, stack, units),
        GoalItem::Emit(step) => {
            let mut next = first;
            next.emitted.push(step)?;
            stack.push(next)?;
            Ok(true)
        }
        GoalItem::Seq(sequent) => {
            take_sequent(alloc, calculus, program, &sequent, &first, stack)?;
            Ok(true)
        }
        item => {
            take_chosen(alloc, calculus, program, &item, &first, stack)?;
            Ok(true)
        }
    }
}

/// Searches from one alternative.
fn search_from<C: Calculus>(
    alloc: Global,
    calculus: &C,
    program: &Program,
    first: Alternative<C::Sequent>,
    budget: u64,
) -> Result<Found, OutOfMemory>
    requires program { IsOpenProgram program.now }
    requires logic { C.takes program.now.logic }
    requires few { HaveFewParameters program.now.declared }
    requires levels { All (IsLevelled 0) (alternative_of (C.sequent_of program.now) first).goals }
    requires goals { AreGoals (calculus_of (C.table program.now)) first.levels.items
        (alternative_of (C.sequent_of program.now) first).goals }
    requires asked { AreOpen (length first.levels.items) first.asked }
    ensures { IfOk result (λ found. IsFound found
        (running (calculus_of (C.table program.now)) program.now.clauses budget
        (between (alternative_of (C.sequent_of program.now) first ∷ [])))) }
{
    let mut stack = Vec::new(alloc);
    stack.push(first)?;
    let mut left = budget;
    loop {
        let mut first = match stack.pop() {
            None => {
                return Ok(Found::Rejected {
                    units: budget - left,
                });
            }
            Some(first) => first,
        };
        let goal = match first.goals.pop() {
            None => {
                return Ok(Found::Accepted {
                    asked: first.asked,
                    emitted: first.emitted,
                    units: budget - left,
                });
            }
            Some(goal) => goal,
        };
        if left == 0 {
            return Ok(Found::Spent);
        }
        left -= 1;
        if !take(alloc, calculus, program, goal, first, &mut stack, &mut left)? {
            return Ok(Found::Spent);
        }
    }
}

/// A count of parameters is at most 255, since it is a byte.
fn is_few(parameters: u8)
    ensures { parameters ≤ 255 }
{}

/// Each declared formula has at most 255 parameters.
fn are_few(declared: &[DeclaredFormula])
    ensures { HaveFewParameters declared.now }
{
    for one in declared {
        is_few(one.parameters);
    }
}

/// Each declared formula of a program has at most 255 parameters.
pub(crate) fn few_parameters(program: &Program)
    ensures { HaveFewParameters program.now.declared }
{
    are_few(program.declared.items());
}

/// So many variables without level.
fn no_levels(alloc: Global, variables: u64) -> Result<Vec<Option<u64>>, OutOfMemory>
    ensures { IfOk result (λ levels. levels.items ≡ replicate variables NoLevel) }
{
    let mut levels = Vec::new(alloc);
    push_variables(&mut levels, variables)?;
    Ok(levels)
}

/// Searches for a goal, depth first, the goal lists and the clauses in order: one unit for each
/// goal that is taken, and one for each node of a term that is looked through before a variable
/// becomes it. The goal's variables have no level. Each alternative is a copy, so time and memory
/// grow with the size of the alternatives.
pub(crate) fn search_goal<C: Calculus>(
    alloc: Global,
    calculus: &C,
    program: &Program,
    goal: GoalItem<C::Sequent>,
    asked: Terms,
    variables: u64,
    budget: u64,
) -> Result<Found, OutOfMemory>
    requires program { IsOpenProgram program.now }
    requires logic { C.takes program.now.logic }
    requires few { HaveFewParameters program.now.declared }
    requires level { IsLevelled 0 (goal_of (C.sequent_of program.now) goal) }
    requires is_goal { IsGoal (calculus_of (C.table program.now)) (replicate variables NoLevel)
        (goal_of (C.sequent_of program.now) goal) }
    requires asked { AreOpen variables asked }
    ensures { IfOk result (λ found. IsFound found
        (search (calculus_of (C.table program.now)) fits program.now.clauses budget
        (goal_of (C.sequent_of program.now) goal) asked variables)) }
{
    let mut goals = Vec::new(alloc);
    goals.push(goal)?;
    let first = Alternative {
        goals,
        emitted: Vec::new(alloc),
        asked,
        levels: no_levels(alloc, variables)?,
    };
    search_from(alloc, calculus, program, first, budget)
}
