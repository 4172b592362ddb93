//! The goal lists of which the tables of both logics are made.
ghost use Rattle.std.specs.Prelude.{◌≡◌, ◌∷◌, ◌<◌, ◌+◌, ◌^◌, [], IfOk};
ghost use Rattle.fpc_terms.specs.Open.{later};
ghost use Rattle.fpc_terms.specs.Term.{app, no_args, variable};
ghost use Rattle.search_model.specs.GoalItems.{list_in};
ghost use Rattle.polarised_formulas.specs.OpenFormula.{put_formula};
ghost use Rattle.search_model.specs.Lines.{arguments_from, at_place, bare, closed_by, closing_at};
ghost use Rattle.search_model.specs.Lines.{cut_of, cutting, indexed, init_picked, matched, one};
ghost use Rattle.search_model.specs.Lines.{picked, raised, sided, two, witnessed};

use crate::goals::{GoalItem, Goals, SequentGoal};
use clause_language::atom::Atom;
use clause_language::declaration::DeclaredFormula;
use fpc_base::outside::OutOfMemory;
use fpc_terms::cell::Cell;
use fpc_terms::list::Terms;
use fpc_terms::name::NameId;
use fpc_terms::term::TermBuf;
use polarised_formulas::formula::Formula;
use polarised_formulas::step::Step;
use polarised_formulas::substitution::formula_with_later_variables;
use std::alloc::Global;

/// A variable as a term.
pub fn variable(alloc: Global, number: u64) -> Result<TermBuf, OutOfMemory>
    ensures { IfOk result (λ t. t ≡ variable number) }
{
    TermBuf::from_cells(alloc, &[Cell::Var(number)])
}

/// A constant.
fn constant(alloc: Global, name: NameId) -> Result<TermBuf, OutOfMemory>
    ensures { IfOk result (λ t. t ≡ app name no_args) }
{
    TermBuf::from_cells(alloc, &[Cell::App(name, 0)])
}

/// A list of one term.
fn only(alloc: Global, term: &TermBuf) -> Result<Terms, OutOfMemory>
    ensures { IfOk result (λ ts. ts ≡ term.now ∷ []) }
{
    let mut terms = Terms::new(alloc);
    terms.push(term.clone()?)?;
    Ok(terms)
}

/// A term and a variable.
fn with_one(alloc: Global, term: &TermBuf, fresh: u64) -> Result<Terms, OutOfMemory>
    ensures { IfOk result (λ ts. ts ≡ term.now ∷ variable fresh ∷ []) }
{
    let mut terms = only(alloc, term)?;
    terms.push(variable(alloc, fresh)?)?;
    Ok(terms)
}

/// A term and two variables.
fn with_two(alloc: Global, term: &TermBuf, fresh: u64) -> Result<Terms, OutOfMemory>
    requires { fresh + 1 < 2 ^ 64 }
    ensures { IfOk result (λ ts. ts ≡ term.now ∷ variable fresh ∷ variable (fresh + 1) ∷ []) }
{
    let mut terms = with_one(alloc, term, fresh)?;
    terms.push(variable(alloc, fresh + 1)?)?;
    Ok(terms)
}

/// No premise, and nothing is asked.
pub fn bare<S: Drop>(alloc: Global, step: Step) -> Result<Goals<S>, OutOfMemory>
    ensures { IfOk result (λ gs. list_in gs ≡ bare step) }
{
    let mut goals = Goals::new(alloc);
    goals.push(GoalItem::Emit(step))?;
    Ok(goals)
}

/// No premise.
pub fn closed_by<S: Drop>(
    alloc: Global,
    name: NameId,
    certificate: &TermBuf,
    step: Step,
) -> Result<Goals<S>, OutOfMemory>
    ensures { IfOk result (λ gs. list_in gs ≡ closed_by name certificate.now step) }
{
    let mut goals = Goals::new(alloc);
    goals.call(name, only(alloc, certificate)?)?;
    goals.push(GoalItem::Emit(step))?;
    Ok(goals)
}

/// One premise.
pub fn one<S: Drop>(
    alloc: Global,
    name: NameId,
    certificate: &TermBuf,
    step: Step,
    level: u64,
    fresh: u64,
    premise: S,
) -> Result<Goals<S>, OutOfMemory>
    ensures { IfOk result (λ gs. list_in gs ≡ one name certificate.now step level fresh premise) }
{
    let mut goals = Goals::new(alloc);
    goals.call(name, with_one(alloc, certificate, fresh)?)?;
    goals.push(GoalItem::Emit(step))?;
    goals.derive(variable(alloc, fresh)?, level, premise)?;
    goals.new_var(None)?;
    Ok(goals)
}

/// One premise, a level higher, with the eigenvariable of the level.
pub fn raised<S: Drop>(
    alloc: Global,
    name: NameId,
    certificate: &TermBuf,
    step: Step,
    level: u64,
    fresh: u64,
    premise: S,
) -> Result<Goals<S>, OutOfMemory>
    requires { level + 1 < 2 ^ 64 }
    ensures { IfOk result (λ gs. list_in gs
        ≡ raised name certificate.now step level fresh premise) }
{
    let mut terms = only(alloc, certificate)?;
    terms.push(TermBuf::from_cells(alloc, &[Cell::Eigen(level)])?)?;
    terms.push(variable(alloc, fresh)?)?;
    let mut goals = Goals::new(alloc);
    goals.call(name, terms)?;
    goals.push(GoalItem::Emit(step))?;
    goals.derive(variable(alloc, fresh)?, level + 1, premise)?;
    goals.new_var(None)?;
    Ok(goals)
}

/// Two premises.
pub fn two<S: Drop>(
    alloc: Global,
    name: NameId,
    certificate: &TermBuf,
    step: Step,
    level: u64,
    fresh: u64,
    first: S,
    second: S,
) -> Result<Goals<S>, OutOfMemory>
    requires { fresh + 1 < 2 ^ 64 }
    ensures { IfOk result (λ gs. list_in gs
        ≡ two name certificate.now step level fresh first second) }
{
    let mut goals = Goals::new(alloc);
    goals.call(name, with_two(alloc, certificate, fresh)?)?;
    goals.push(GoalItem::Emit(step))?;
    goals.derive(variable(alloc, fresh)?, level, first)?;
    goals.derive(variable(alloc, fresh + 1)?, level, second)?;
    goals.new_var(None)?;
    goals.new_var(None)?;
    Ok(goals)
}

/// One premise, with an index that is asked as well: the second new variable.
pub fn indexed<S: Drop>(
    alloc: Global,
    name: NameId,
    certificate: &TermBuf,
    step: Step,
    level: u64,
    fresh: u64,
    premise: S,
) -> Result<Goals<S>, OutOfMemory>
    requires { fresh + 1 < 2 ^ 64 }
    ensures { IfOk result (λ gs. list_in gs
        ≡ indexed name certificate.now step level fresh (λ _. premise)) }
{
    let mut goals = Goals::new(alloc);
    goals.call(name, with_two(alloc, certificate, fresh)?)?;
    goals.push(GoalItem::Emit(step))?;
    goals.derive(variable(alloc, fresh)?, level, premise)?;
    goals.new_var(None)?;
    goals.new_var(None)?;
    Ok(goals)
}

/// One premise, with a term that is asked as well: the second new variable, which has the level.
/// The step names it.
pub fn witnessed<S: Drop>(
    alloc: Global,
    name: NameId,
    certificate: &TermBuf,
    step: Step,
    level: u64,
    fresh: u64,
    premise: S,
) -> Result<Goals<S>, OutOfMemory>
    requires { fresh + 1 < 2 ^ 64 }
    ensures { IfOk result (λ gs. list_in gs
        ≡ witnessed name certificate.now (λ _. step) level fresh (λ _. premise)) }
{
    let mut goals = Goals::new(alloc);
    goals.call(name, with_two(alloc, certificate, fresh)?)?;
    goals.push(GoalItem::Emit(step))?;
    goals.derive(variable(alloc, fresh)?, level, premise)?;
    goals.new_var(None)?;
    goals.new_var(Some(level))?;
    Ok(goals)
}

/// One premise, where the constant that is asked as well is the word for a side.
pub fn sided<S: Drop>(
    alloc: Global,
    name: NameId,
    certificate: &TermBuf,
    side: NameId,
    step: Step,
    level: u64,
    fresh: u64,
    premise: S,
) -> Result<Goals<S>, OutOfMemory>
    requires { fresh + 1 < 2 ^ 64 }
    ensures { IfOk result (λ gs. list_in gs
        ≡ sided name certificate.now side step level fresh premise) }
{
    let mut goals = Goals::new(alloc);
    goals.call(name, with_two(alloc, certificate, fresh)?)?;
    goals.push(GoalItem::Eq(variable(alloc, fresh + 1)?, constant(alloc, side)?))?;
    goals.push(GoalItem::Emit(step))?;
    goals.derive(variable(alloc, fresh)?, level, premise)?;
    goals.new_var(None)?;
    goals.new_var(None)?;
    Ok(goals)
}

/// A place is chosen, to decide on its formula.
pub fn picked<S: Drop>(
    alloc: Global,
    name: NameId,
    certificate: &TermBuf,
    level: u64,
    fresh: u64,
    sequent: S,
) -> Result<Goals<S>, OutOfMemory>
    requires { fresh + 1 < 2 ^ 64 }
    ensures { IfOk result (λ gs. list_in gs ≡ picked name certificate.now level fresh sequent) }
{
    let mut goals = Goals::new(alloc);
    goals.call(name, with_two(alloc, certificate, fresh)?)?;
    goals.push(GoalItem::Pick {
        next: variable(alloc, fresh)?,
        level,
        index: variable(alloc, fresh + 1)?,
        sequent,
    })?;
    goals.new_var(None)?;
    goals.new_var(None)?;
    Ok(goals)
}

/// A place is chosen, to close with its formula.
pub fn init_picked<S: Drop>(
    alloc: Global,
    name: NameId,
    certificate: &TermBuf,
    level: u64,
    fresh: u64,
    sequent: S,
) -> Result<Goals<S>, OutOfMemory>
    ensures { IfOk result (λ gs. list_in gs
        ≡ init_picked name certificate.now level fresh sequent) }
{
    let mut goals = Goals::new(alloc);
    goals.call(name, with_one(alloc, certificate, fresh)?)?;
    goals.push(GoalItem::InitPick {
        level,
        index: variable(alloc, fresh)?,
        sequent,
    })?;
    goals.new_var(None)?;
    Ok(goals)
}

/// A declared formula is cut.
pub fn cutting<S: Drop>(
    alloc: Global,
    name: NameId,
    certificate: &TermBuf,
    level: u64,
    fresh: u64,
    sequent: S,
) -> Result<Goals<S>, OutOfMemory>
    requires { fresh + 2 < 2 ^ 64 }
    ensures { IfOk result (λ gs. list_in gs ≡ cutting name certificate.now level fresh sequent) }
{
    let mut terms = with_two(alloc, certificate, fresh)?;
    terms.push(variable(alloc, fresh + 2)?)?;
    let mut goals = Goals::new(alloc);
    goals.call(name, terms)?;
    goals.push(GoalItem::Cut {
        left: variable(alloc, fresh)?,
        right: variable(alloc, fresh + 1)?,
        level,
        formula: variable(alloc, fresh + 2)?,
        sequent,
    })?;
    goals.new_var(None)?;
    goals.new_var(None)?;
    goals.new_var(None)?;
    Ok(goals)
}

/// A place with its index, where an index is wanted: one premise.
pub fn placed<S: Drop>(
    alloc: Global,
    certificate: &TermBuf,
    wanted: &TermBuf,
    index: &TermBuf,
    step: Step,
    level: u64,
    premise: S,
) -> Result<Goals<S>, OutOfMemory>
    ensures { IfOk result (λ gs. list_in gs
        ≡ at_place certificate.now wanted.now index.now step level premise) }
{
    let mut goals = Goals::new(alloc);
    goals.push(GoalItem::Eq(wanted.clone()?, index.clone()?))?;
    goals.push(GoalItem::Emit(step))?;
    goals.derive(certificate.clone()?, level, premise)?;
    Ok(goals)
}

/// A place with its index, where an index is wanted: no premise, where two terms are equal.
pub fn closing<S: Drop>(
    alloc: Global,
    wanted: &TermBuf,
    index: &TermBuf,
    left: TermBuf,
    right: TermBuf,
    step: Step,
) -> Result<Goals<S>, OutOfMemory>
    ensures { IfOk result (λ gs. list_in gs ≡ closing_at wanted.now index.now left right step) }
{
    let mut goals = Goals::new(alloc);
    goals.push(GoalItem::Eq(wanted.clone()?, index.clone()?))?;
    goals.push(GoalItem::Eq(left, right))?;
    goals.push(GoalItem::Emit(step))?;
    Ok(goals)
}

/// No premise, where two terms are equal.
pub fn matched<S: Drop>(
    alloc: Global,
    name: NameId,
    certificate: &TermBuf,
    step: Step,
    left: TermBuf,
    right: TermBuf,
) -> Result<Goals<S>, OutOfMemory>
    ensures { IfOk result (λ gs. list_in gs ≡ matched name certificate.now step left right) }
{
    let mut goals = Goals::new(alloc);
    goals.call(name, only(alloc, certificate)?)?;
    goals.push(GoalItem::Eq(left, right))?;
    goals.push(GoalItem::Emit(step))?;
    Ok(goals)
}

/// A declared formula's name with new variables for its parameters.
fn declared_term(
    alloc: Global,
    name: NameId,
    parameters: u8,
    fresh: u64,
) -> Result<TermBuf, OutOfMemory>
    requires { fresh + 256 < 2 ^ 64 }
    ensures { IfOk result (λ t. t ≡ app name (arguments_from (later fresh) 0 parameters)) }
{
    let mut cells = Vec::new(alloc);
    cells.push(Cell::App(name, parameters))?;
    for k in 0..parameters {
        cells.push(Cell::Var(fresh + k as u64))?;
    }
    TermBuf::from_cells(alloc, cells.as_slice())
}

/// A declared formula with new variables for its parameters.
pub fn declared_formula(
    alloc: Global,
    declared: &DeclaredFormula,
    fresh: u64,
) -> Result<Formula, OutOfMemory>
    ensures { IfOk result (λ f. f ≡ put_formula (later fresh) declared.now.formula) }
{
    formula_with_later_variables(alloc, &declared.formula, fresh)
}

/// The goals of a cut.
fn cut_goals<S: Drop>(
    alloc: Global,
    first: &TermBuf,
    second: &TermBuf,
    formula: &TermBuf,
    level: u64,
    fresh: u64,
    left: S,
    right: S,
    declared: &DeclaredFormula,
) -> Result<Goals<S>, OutOfMemory>
    requires { fresh + 256 < 2 ^ 64 }
    ensures { IfOk result (λ gs. list_in gs
        ≡ record (cut_of first.now second.now formula.now level fresh (λ _. left) (λ _. right)
        declared.now) { new = [] }) }
{
    let cut = declared_formula(alloc, declared, fresh)?;
    let named = declared_term(alloc, declared.name, declared.parameters, fresh)?;
    let mut goals = Goals::new(alloc);
    goals.push(GoalItem::Eq(formula.clone()?, named))?;
    goals.push(GoalItem::Emit(Step::Cut(cut)))?;
    goals.derive(first.clone()?, level, left)?;
    goals.derive(second.clone()?, level, right)?;
    Ok(goals)
}

/// A declared formula is cut, with new variables of the level for its parameters: two premises, of
/// the formula that `declared_formula` gives and of its dual.
pub fn cut_of<S: Drop>(
    alloc: Global,
    first: &TermBuf,
    second: &TermBuf,
    formula: &TermBuf,
    level: u64,
    fresh: u64,
    left: S,
    right: S,
    declared: &DeclaredFormula,
) -> Result<Goals<S>, OutOfMemory>
    requires { fresh + 256 < 2 ^ 64 }
    ensures { IfOk result (λ gs. list_in gs
        ≡ cut_of first.now second.now formula.now level fresh (λ _. left) (λ _. right)
        declared.now) }
{
    let mut goals = cut_goals(
        alloc, first, second, formula, level, fresh, left, right, declared,
    )?;
    for _ in 0..declared.parameters {
        goals.new_var(Some(level))?;
    }
    Ok(goals)
}
