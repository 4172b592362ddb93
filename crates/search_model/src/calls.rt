//! The alternatives by which clauses answer the call of an atom, and those of the goal lists of
//! items.
ghost use Rattle.std.specs.Prelude.{◌≡◌, ◌++◌, ◌∷◌, [], IfOk, OnOk, map, replicate, length};
ghost use Rattle.std.specs.Prelude.{None as NoLevel};
ghost use Rattle.fpc_terms.specs.Open.{later};
ghost use Rattle.fpc_terms.specs.Term.{arguments_in};
ghost use Rattle.clause_language.specs.declared.program.Program.{Program};
ghost use Rattle.clause_language.specs.LeastModel.{fits, put_atom};
ghost use Rattle.search_model.specs.Search.{by_clause, by_clauses, call as a_call, equalities};
ghost use Rattle.search_model.specs.Search.{equate, extended, where_it_fits, with_goals};
ghost use Rattle.search_model.specs.States.{alternative_of, alternatives_of, goal_of, goals_of};
ghost use Rattle.search_model.specs.States.{list_of};
ghost use Rattle.search_model.specs.Table.{calculus_of};

use crate::alternative::{Alternative, copied, copied_term};
use crate::calculus::Calculus;
use crate::goals::{Alternatives, GoalItem, Goals};
use clause_language::atom::Atom;
use clause_language::clause::Clause;
use fpc_base::outside::OutOfMemory;
use fpc_terms::arguments::arguments;
use fpc_terms::substitution::all_with_later_variables;
use fpc_terms::term::TermBuf;
use std::alloc::Global;

/// Adds the equality of two terms before goals.
fn push_equality<C: Calculus>(
    goals: &mut Vec<GoalItem<C::Sequent>>,
    left: &TermBuf,
    right: &TermBuf,
) -> Result<(), OutOfMemory>
    ensures { (p : Program) → OnOk result (goals_of (C.sequent_of p) goals.new.items
        ≡ equate left.now right.now ∷ goals_of (C.sequent_of p) goals.old.items) }
{
    goals.push(GoalItem::Eq(copied_term(left)?, copied_term(right)?))?;
    Ok(())
}

/// Adds the equalities of two lists of terms, from the left, before goals.
pub(crate) fn push_equalities<C: Calculus>(
    goals: &mut Vec<GoalItem<C::Sequent>>,
    left: &[TermBuf],
    right: &[TermBuf],
) -> Result<(), OutOfMemory>
    requires { length left.now ≡ length right.now }
    ensures { (p : Program) → OnOk result (goals_of (C.sequent_of p) goals.new.items
        ≡ equalities left.now right.now (goals_of (C.sequent_of p) goals.old.items)) }
{
    let mut n = left.len();
    while n > 0 {
        n -= 1;
        push_equality::<C>(goals, &left[n], &right[n])?;
    }
    Ok(())
}

/// An atom whose variables are numbered later.
fn renamed(alloc: Global, atom: &Atom, offset: u64) -> Result<Atom, OutOfMemory>
    ensures { IfOk result (λ a. a ≡ put_atom (later offset) atom.now) }
{
    Ok(Atom {
        name: atom.name,
        arguments: all_with_later_variables(alloc, atom.arguments.items(), offset)?,
    })
}

/// Adds the call of an atom, whose variables are numbered later, before goals.
fn push_call<C: Calculus>(
    alloc: Global,
    goals: &mut Vec<GoalItem<C::Sequent>>,
    atom: &Atom,
    offset: u64,
) -> Result<(), OutOfMemory>
    ensures { (p : Program) → OnOk result (goals_of (C.sequent_of p) goals.new.items
        ≡ a_call (put_atom (later offset) atom.now) ∷ goals_of (C.sequent_of p) goals.old.items) }
{
    goals.push(GoalItem::Call(renamed(alloc, atom, offset)?))?;
    Ok(())
}

/// Adds the calls of atoms, whose variables are numbered later, before goals.
fn push_calls<C: Calculus>(
    alloc: Global,
    goals: &mut Vec<GoalItem<C::Sequent>>,
    body: &[Atom],
    offset: u64,
) -> Result<(), OutOfMemory>
    ensures { (p : Program) → OnOk result (goals_of (C.sequent_of p) goals.new.items
        ≡ map (λ b. a_call (put_atom (later offset) b)) body.now
        ++ goals_of (C.sequent_of p) goals.old.items) }
{
    let mut n = body.len();
    while n > 0 {
        n -= 1;
        push_call::<C>(alloc, goals, &body[n], offset)?;
    }
    Ok(())
}

/// Adds variables without level.
pub(crate) fn push_variables(
    levels: &mut Vec<Option<u64>>,
    variables: u64,
) -> Result<(), OutOfMemory>
    ensures { OnOk result (levels.new.items ≡ levels.old.items ++ replicate variables NoLevel) }
{
    for _ in 0..variables {
        levels.push(None)?;
    }
    Ok(())
}

/// The alternative in which the clause answers the call of the atom, which was taken from the
/// others.
fn answered<C: Calculus>(
    alloc: Global,
    calculus: &C,
    clause: &Clause,
    atom: &Atom,
    rest: &Alternative<C::Sequent>,
) -> Result<Alternative<C::Sequent>, OutOfMemory>
    requires { length atom.now.arguments ≡ length clause.now.head.arguments }
    ensures { (p : Program) → IfOk result (λ a. alternative_of (C.sequent_of p) a
        ≡ extended (alternative_of (C.sequent_of p) rest.now)
        (by_clause (calculus_of (C.table p)) atom.now (length rest.now.levels.items) clause.now)) }
{
    let mut next = copied(alloc, calculus, rest)?;
    let offset = next.levels.len() as u64;
    let head = all_with_later_variables(alloc, clause.head.arguments.items(), offset)?;
    push_calls::<C>(alloc, &mut next.goals, clause.body.items(), offset)?;
    push_equalities::<C>(&mut next.goals, atom.arguments.items(), head.items())?;
    push_variables(&mut next.levels, clause.variables)?;
    Ok(next)
}

/// Whether the head of a clause has the atom's name and number of arguments.
fn fits(atom: &Atom, head: &Atom) -> bool
    ensures { result ≡ fits atom.now head.now }
{
    atom.name == head.name && atom.arguments.len() == head.arguments.len()
}

/// Adds the alternative before others in which the clause answers the call of the atom, where it
/// fits.
fn push_answered<C: Calculus>(
    alloc: Global,
    calculus: &C,
    clause: &Clause,
    atom: &Atom,
    rest: &Alternative<C::Sequent>,
    stack: &mut Vec<Alternative<C::Sequent>>,
) -> Result<(), OutOfMemory>
    ensures { (p : Program) → OnOk result (alternatives_of (C.sequent_of p) stack.new.items
        ≡ map (extended (alternative_of (C.sequent_of p) rest.now))
        (where_it_fits (calculus_of (C.table p)) (fits atom.now clause.now.head)
        (by_clause (calculus_of (C.table p)) atom.now (length rest.now.levels.items) clause.now) [])
        ++ alternatives_of (C.sequent_of p) stack.old.items) }
{
    if fits(atom, &clause.head) {
        stack.push(answered(alloc, calculus, clause, atom, rest)?)?;
    }
    Ok(())
}

/// Adds the alternatives before others in which clauses answer the call of the atom, in the order
/// of the clauses.
pub(crate) fn push_all_answered<C: Calculus>(
    alloc: Global,
    calculus: &C,
    clauses: &[Clause],
    atom: &Atom,
    rest: &Alternative<C::Sequent>,
    stack: &mut Vec<Alternative<C::Sequent>>,
) -> Result<(), OutOfMemory>
    ensures { (p : Program) → OnOk result (alternatives_of (C.sequent_of p) stack.new.items
        ≡ map (extended (alternative_of (C.sequent_of p) rest.now))
        (by_clauses (calculus_of (C.table p)) fits atom.now (length rest.now.levels.items)
        clauses.now)
        ++ alternatives_of (C.sequent_of p) stack.old.items) }
{
    let mut n = clauses.len();
    while n > 0 {
        n -= 1;
        push_answered(alloc, calculus, &clauses[n], atom, rest, stack)?;
    }
    Ok(())
}

/// The alternative with the equalities of the arguments of two applications before its goals.
pub(crate) fn with_parts<C: Calculus>(
    alloc: Global,
    alternative: Alternative<C::Sequent>,
    left: &TermBuf,
    right: &TermBuf,
) -> Result<Alternative<C::Sequent>, OutOfMemory>
    requires { length (arguments_in left.now) ≡ length (arguments_in right.now) }
    ensures { (p : Program) → IfOk result (λ a. alternative_of (C.sequent_of p) a
        ≡ with_goals (alternative_of (C.sequent_of p) alternative)
        (equalities (arguments_in left.now) (arguments_in right.now)
        (goals_of (C.sequent_of p) alternative.goals.items))) }
{
    let lefts = arguments(alloc, left)?;
    let rights = arguments(alloc, right)?;
    let mut with_parts = alternative;
    push_equalities::<C>(&mut with_parts.goals, lefts.items(), rights.items())?;
    Ok(with_parts)
}

/// Adds the goals of a list before others.
fn push_goals<C: Calculus>(
    goals: &mut Vec<GoalItem<C::Sequent>>,
    items: Vec<GoalItem<C::Sequent>>,
) -> Result<(), OutOfMemory>
    ensures { (p : Program) → OnOk result (goals_of (C.sequent_of p) goals.new.items
        ≡ map (goal_of (C.sequent_of p)) items.items ++ goals_of (C.sequent_of p) goals.old.items) }
{
    let mut items = items;
    while let Some(item) = items.pop() {
        goals.push(item)?;
    }
    Ok(())
}

/// The alternative with a goal list before its goals, which was taken from the others.
fn extended<C: Calculus>(
    alloc: Global,
    calculus: &C,
    rest: &Alternative<C::Sequent>,
    list: Goals<C::Sequent>,
) -> Result<Alternative<C::Sequent>, OutOfMemory>
    ensures { (p : Program) → IfOk result (λ a. alternative_of (C.sequent_of p) a
        ≡ extended (alternative_of (C.sequent_of p) rest.now) (list_of (C.sequent_of p) list)) }
{
    let Goals { items, levels } = list;
    let mut next = copied(alloc, calculus, rest)?;
    push_goals::<C>(&mut next.goals, items)?;
    next.levels.extend_from_slice(levels.as_slice())?;
    Ok(next)
}

/// Adds the alternatives with goal lists before others, in the order of the lists.
pub(crate) fn push_all_extended<C: Calculus>(
    alloc: Global,
    calculus: &C,
    lists: Alternatives<C::Sequent>,
    rest: &Alternative<C::Sequent>,
    stack: &mut Vec<Alternative<C::Sequent>>,
) -> Result<(), OutOfMemory>
    ensures { (p : Program) → OnOk result (alternatives_of (C.sequent_of p) stack.new.items
        ≡ map (extended (alternative_of (C.sequent_of p) rest.now))
        (map (list_of (C.sequent_of p)) lists.lists.items)
        ++ alternatives_of (C.sequent_of p) stack.old.items) }
{
    let mut lists = lists.lists;
    while let Some(list) = lists.pop() {
        stack.push(extended(alloc, calculus, rest, list)?)?;
    }
    Ok(())
}
