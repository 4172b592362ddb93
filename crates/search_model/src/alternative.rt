//! Alternatives of the search, and terms substituted for variables in them.
ghost use Rattle.std.specs.Prelude.{◌≡◌, ℕ, ◌∷◌, [], IfOk, map};
ghost use Rattle.fpc_terms.specs.Open.{at_one, level_of, lower};
ghost use Rattle.clause_language.specs.declared.program.Program.{Program};
ghost use Rattle.clause_language.specs.LeastModel.{put_atom};
ghost use Rattle.search_model.specs.Search.{bound_to, put_goal};
ghost use Rattle.search_model.specs.States.{alternative_of, goal_of, goals_of, lower_cells};
ghost use Rattle.search_model.specs.Table.{calculus_of};

use crate::calculus::Calculus;
use crate::goals::{GoalItem, SequentGoal};
use clause_language::atom::Atom;
use fpc_base::outside::OutOfMemory;
use fpc_terms::cell::Cell;
use fpc_terms::list::Terms;
use fpc_terms::substitution::{all_with_term, with_term};
use fpc_terms::term::TermBuf;
use polarised_formulas::step::Step;
use polarised_formulas::step_substitution::{
    copied_step, copied_steps, step_with_term, steps_with_term,
};
use std::alloc::Global;

/// A way in which the search may go on.
#[derive(Drop)]
pub struct Alternative<S> {
    /// The goals that are left, the first one last.
    pub goals: Vec<GoalItem<S>>,
    /// The steps so far, the first one first.
    pub emitted: Vec<Step>,
    /// The arguments of the atom that was asked, as they now are.
    pub asked: Terms,
    /// The level of each variable, by its number.
    pub levels: Vec<Option<u64>>,
}

/// An atom with a term for a variable.
fn bound_atom(
    alloc: Global,
    atom: &Atom,
    variable: u64,
    term: &TermBuf,
) -> Result<Atom, OutOfMemory>
    ensures { IfOk result (λ a. a ≡ put_atom (at_one variable term.now) atom.now) }
{
    Ok(Atom {
        name: atom.name,
        arguments: all_with_term(alloc, atom.arguments.items(), variable, term)?,
    })
}

/// A goal with a term for a variable.
fn bound_goal<C: Calculus>(
    alloc: Global,
    calculus: &C,
    goal: &GoalItem<C::Sequent>,
    variable: u64,
    term: &TermBuf,
) -> Result<GoalItem<C::Sequent>, OutOfMemory>
    ensures { (p : Program) → IfOk result (λ g. goal_of (C.sequent_of p) g
        ≡ put_goal (calculus_of (C.table p)) (at_one variable term.now)
        (goal_of (C.sequent_of p) goal.now)) }
{
    match goal {
        GoalItem::Seq(g) => Ok(GoalItem::Seq(SequentGoal {
            certificate: with_term(alloc, &g.certificate, variable, term)?,
            level: g.level,
            sequent: calculus.substitute(alloc, &g.sequent, variable, term)?,
        })),
        GoalItem::Call(atom) => Ok(GoalItem::Call(bound_atom(alloc, atom, variable, term)?)),
        GoalItem::Eq(left, right) => Ok(GoalItem::Eq(
            with_term(alloc, left, variable, term)?,
            with_term(alloc, right, variable, term)?,
        )),
        GoalItem::Emit(step) => Ok(GoalItem::Emit(step_with_term(alloc, step, variable, term)?)),
        GoalItem::Pick {
            next,
            level,
            index,
            sequent,
        } => Ok(GoalItem::Pick {
            next: with_term(alloc, next, variable, term)?,
            level: *level,
            index: with_term(alloc, index, variable, term)?,
            sequent: calculus.substitute(alloc, sequent, variable, term)?,
        }),
        GoalItem::InitPick {
            level,
            index,
            sequent,
        } => Ok(GoalItem::InitPick {
            level: *level,
            index: with_term(alloc, index, variable, term)?,
            sequent: calculus.substitute(alloc, sequent, variable, term)?,
        }),
        GoalItem::Cut {
            left,
            right,
            level,
            formula,
            sequent,
        } => Ok(GoalItem::Cut {
            left: with_term(alloc, left, variable, term)?,
            right: with_term(alloc, right, variable, term)?,
            level: *level,
            formula: with_term(alloc, formula, variable, term)?,
            sequent: calculus.substitute(alloc, sequent, variable, term)?,
        }),
    }
}

/// Goals with a term for a variable.
fn bound_goals<C: Calculus>(
    alloc: Global,
    calculus: &C,
    goals: &[GoalItem<C::Sequent>],
    variable: u64,
    term: &TermBuf,
) -> Result<Vec<GoalItem<C::Sequent>>, OutOfMemory>
    ensures { (p : Program) → IfOk result (λ gs. map (goal_of (C.sequent_of p)) gs.items
        ≡ map (put_goal (calculus_of (C.table p)) (at_one variable term.now))
        (map (goal_of (C.sequent_of p)) goals.now)) }
{
    let mut bound = Vec::new(alloc);
    for goal in goals {
        bound.push(bound_goal(alloc, calculus, goal, variable, term)?)?;
    }
    Ok(bound)
}

/// The lower of two levels. No level is above each.
fn lower(one: Option<u64>, other: Option<u64>) -> Option<u64>
    ensures { result ≡ lower one other }
{
    match (one, other) {
        (None, level) => level,
        (Some(a), None) => Some(a),
        (Some(a), Some(b)) => Some(if a <= b { a } else { b }),
    }
}

/// Gives each variable of these cells whose level is above the level that level.
fn lower_levels(levels: &mut Vec<Option<u64>>, level: Option<u64>, cells: &[Cell])
    ensures { levels.new.items ≡ lower_cells level cells.now levels.old.items }
{
    for cell in cells {
        lower_level(levels, level, *cell);
    }
}

/// Does so for the variable of a cell, where it has one.
fn lower_level(levels: &mut Vec<Option<u64>>, level: Option<u64>, cell: Cell)
    ensures { levels.new.items ≡ lower_cells level (cell ∷ []) levels.old.items }
{
    if let Cell::Var(number) = cell {
        let at = number as usize;
        if number < levels.len() as u64 {
            levels[at] = lower(level, levels[at]);
        }
    }
}

/// The level of a variable; none, where there is no such variable.
pub(crate) fn level_at(levels: &[Option<u64>], variable: u64) -> Option<u64>
    ensures { result ≡ level_of levels.now variable }
{
    if variable < levels.len() as u64 {
        return levels[variable as usize];
    }
    None
}

/// A copy of a term.
pub(crate) fn copied_term(term: &TermBuf) -> Result<TermBuf, OutOfMemory>
    ensures { IfOk result (λ t. t ≡ term.now) }
{
    Ok(term.clone()?)
}

/// A copy of an atom.
pub(crate) fn copied_atom(atom: &Atom) -> Result<Atom, OutOfMemory>
    ensures { IfOk result (λ a. a ≡ atom.now) }
{
    Ok(Atom {
        name: atom.name,
        arguments: atom.arguments.clone()?,
    })
}

/// Copies of terms.
pub(crate) fn copied_terms(terms: &Terms) -> Result<Terms, OutOfMemory>
    ensures { IfOk result (λ ts. ts ≡ terms.now) }
{
    Ok(terms.clone()?)
}

/// Copies of levels.
fn copied_levels(levels: &Vec<Option<u64>>) -> Result<Vec<Option<u64>>, OutOfMemory>
    ensures { IfOk result (λ ls. ls.items ≡ levels.now.items) }
{
    Ok(levels.clone()?)
}

/// A copy of a goal.
fn copied_goal<C: Calculus>(
    alloc: Global,
    calculus: &C,
    goal: &GoalItem<C::Sequent>,
) -> Result<GoalItem<C::Sequent>, OutOfMemory>
    ensures { (p : Program) → IfOk result (λ g. goal_of (C.sequent_of p) g
        ≡ goal_of (C.sequent_of p) goal.now) }
{
    match goal {
        GoalItem::Seq(g) => Ok(GoalItem::Seq(SequentGoal {
            certificate: copied_term(&g.certificate)?,
            level: g.level,
            sequent: calculus.copy(alloc, &g.sequent)?,
        })),
        GoalItem::Call(atom) => Ok(GoalItem::Call(copied_atom(atom)?)),
        GoalItem::Eq(left, right) => Ok(GoalItem::Eq(copied_term(left)?, copied_term(right)?)),
        GoalItem::Emit(step) => Ok(GoalItem::Emit(copied_step(step)?)),
        GoalItem::Pick {
            next,
            level,
            index,
            sequent,
        } => Ok(GoalItem::Pick {
            next: copied_term(next)?,
            level: *level,
            index: copied_term(index)?,
            sequent: calculus.copy(alloc, sequent)?,
        }),
        GoalItem::InitPick {
            level,
            index,
            sequent,
        } => Ok(GoalItem::InitPick {
            level: *level,
            index: copied_term(index)?,
            sequent: calculus.copy(alloc, sequent)?,
        }),
        GoalItem::Cut {
            left,
            right,
            level,
            formula,
            sequent,
        } => Ok(GoalItem::Cut {
            left: copied_term(left)?,
            right: copied_term(right)?,
            level: *level,
            formula: copied_term(formula)?,
            sequent: calculus.copy(alloc, sequent)?,
        }),
    }
}

/// Copies of goals.
fn copied_goals<C: Calculus>(
    alloc: Global,
    calculus: &C,
    goals: &[GoalItem<C::Sequent>],
) -> Result<Vec<GoalItem<C::Sequent>>, OutOfMemory>
    ensures { (p : Program) → IfOk result (λ gs. map (goal_of (C.sequent_of p)) gs.items
        ≡ map (goal_of (C.sequent_of p)) goals.now) }
{
    let mut copies = Vec::new(alloc);
    for goal in goals {
        copies.push(copied_goal(alloc, calculus, goal)?)?;
    }
    Ok(copies)
}

/// A copy of an alternative.
pub(crate) fn copied<C: Calculus>(
    alloc: Global,
    calculus: &C,
    alternative: &Alternative<C::Sequent>,
) -> Result<Alternative<C::Sequent>, OutOfMemory>
    ensures { (p : Program) → IfOk result (λ a. alternative_of (C.sequent_of p) a
        ≡ alternative_of (C.sequent_of p) alternative.now) }
{
    Ok(Alternative {
        goals: copied_goals(alloc, calculus, alternative.goals.as_slice())?,
        emitted: copied_steps(alloc, alternative.emitted.as_slice())?,
        asked: copied_terms(&alternative.asked)?,
        levels: copied_levels(&alternative.levels)?,
    })
}

/// The alternative with a term for a variable everywhere.
pub(crate) fn bound_to<C: Calculus>(
    alloc: Global,
    calculus: &C,
    alternative: Alternative<C::Sequent>,
    variable: u64,
    term: &TermBuf,
) -> Result<Alternative<C::Sequent>, OutOfMemory>
    ensures { (p : Program) → IfOk result (λ a. alternative_of (C.sequent_of p) a
        ≡ bound_to (calculus_of (C.table p)) variable term.now
        (alternative_of (C.sequent_of p) alternative)) }
{
    let Alternative {
        goals,
        emitted,
        asked,
        levels,
    } = alternative;
    let goals = bound_goals(alloc, calculus, goals.as_slice(), variable, term)?;
    let emitted = steps_with_term(alloc, emitted.as_slice(), variable, term)?;
    let asked = all_with_term(alloc, asked.items(), variable, term)?;
    let mut levels = levels;
    let level = level_at(levels.as_slice(), variable);
    lower_levels(&mut levels, level, term.cells());
    Ok(Alternative {
        goals,
        emitted,
        asked,
        levels,
    })
}
