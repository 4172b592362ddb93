//! Copies of steps, and terms substituted for variables in steps.
ghost use Rattle.std.specs.Prelude.{◌≡◌, IfOk, map};
ghost use Rattle.fpc_terms.specs.Open.{at_one, constant};
ghost use Rattle.polarised_formulas.specs.OpenFormula.{put_step};

use crate::step::Step;
use crate::substitution::{formula_with_constant, formula_with_term};
use fpc_base::outside::OutOfMemory;
use fpc_terms::name::NameId;
use fpc_terms::substitution::{with_constant, with_term};
use fpc_terms::term::TermBuf;
use std::alloc::Global;

/// A copy of a step.
pub fn copied_step(step: &Step) -> Result<Step, OutOfMemory>
    ensures { IfOk result (λ e. e ≡ step.now) }
{
    match step {
        Step::TrueN => Ok(Step::TrueN),
        Step::FalseN => Ok(Step::FalseN),
        Step::OrN => Ok(Step::OrN),
        Step::AndN => Ok(Step::AndN),
        Step::Every => Ok(Step::Every),
        Step::Store => Ok(Step::Store),
        Step::TrueP => Ok(Step::TrueP),
        Step::AndP => Ok(Step::AndP),
        Step::Release => Ok(Step::Release),
        Step::LTrue => Ok(Step::LTrue),
        Step::LFalse => Ok(Step::LFalse),
        Step::LAnd => Ok(Step::LAnd),
        Step::LOr => Ok(Step::LOr),
        Step::LExists => Ok(Step::LExists),
        Step::LStore => Ok(Step::LStore),
        Step::RTrue => Ok(Step::RTrue),
        Step::RAnd => Ok(Step::RAnd),
        Step::RImp => Ok(Step::RImp),
        Step::REvery => Ok(Step::REvery),
        Step::RStore => Ok(Step::RStore),
        Step::DecideR => Ok(Step::DecideR),
        Step::FocLImp => Ok(Step::FocLImp),
        Step::FocLInit => Ok(Step::FocLInit),
        Step::FocLRelease => Ok(Step::FocLRelease),
        Step::FocRTrue => Ok(Step::FocRTrue),
        Step::FocRAnd => Ok(Step::FocRAnd),
        Step::FocRRelease => Ok(Step::FocRRelease),
        Step::Decide(place) => Ok(Step::Decide(*place)),
        Step::Init(place) => Ok(Step::Init(*place)),
        Step::DecideL(place) => Ok(Step::DecideL(*place)),
        Step::FocRInit(place) => Ok(Step::FocRInit(*place)),
        Step::OrP(side) => Ok(Step::OrP(*side)),
        Step::FocLAnd(side) => Ok(Step::FocLAnd(*side)),
        Step::FocROr(side) => Ok(Step::FocROr(*side)),
        Step::Exists(term) => Ok(Step::Exists(term.clone()?)),
        Step::FocLEvery(term) => Ok(Step::FocLEvery(term.clone()?)),
        Step::FocRExists(term) => Ok(Step::FocRExists(term.clone()?)),
        Step::Cut(formula) => Ok(Step::Cut(formula.copy()?)),
    }
}

/// Copies of steps.
pub fn copied_steps(alloc: Global, steps: &[Step]) -> Result<Vec<Step>, OutOfMemory>
    ensures { IfOk result (λ es. es.items ≡ steps.now) }
{
    let mut copies = Vec::new(alloc);
    for step in steps {
        copies.push(copied_step(step)?)?;
    }
    Ok(copies)
}

/// The step with a term for a variable. Time and memory are linear in the size of what comes out.
pub fn step_with_term(
    alloc: Global,
    step: &Step,
    variable: u64,
    by: &TermBuf,
) -> Result<Step, OutOfMemory>
    ensures { IfOk result (λ e. e ≡ put_step (at_one variable by.now) step.now) }
{
    match step {
        Step::Exists(term) => Ok(Step::Exists(with_term(alloc, term, variable, by)?)),
        Step::Cut(formula) => Ok(Step::Cut(formula_with_term(alloc, formula, variable, by)?)),
        Step::FocLEvery(term) => Ok(Step::FocLEvery(with_term(alloc, term, variable, by)?)),
        Step::FocRExists(term) => Ok(Step::FocRExists(with_term(alloc, term, variable, by)?)),
        other => copied_step(other),
    }
}

/// The steps with a term for a variable.
pub fn steps_with_term(
    alloc: Global,
    steps: &[Step],
    variable: u64,
    by: &TermBuf,
) -> Result<Vec<Step>, OutOfMemory>
    ensures { IfOk result (λ es. es.items ≡ map (put_step (at_one variable by.now)) steps.now) }
{
    let mut found = Vec::new(alloc);
    for step in steps {
        found.push(step_with_term(alloc, step, variable, by)?)?;
    }
    Ok(found)
}

/// The step with a constant for each variable.
pub fn step_with_constant(alloc: Global, step: &Step, name: NameId) -> Result<Step, OutOfMemory>
    ensures { IfOk result (λ e. e ≡ put_step (constant name) step.now) }
{
    match step {
        Step::Exists(term) => Ok(Step::Exists(with_constant(alloc, term, name)?)),
        Step::Cut(formula) => Ok(Step::Cut(formula_with_constant(alloc, formula, name)?)),
        Step::FocLEvery(term) => Ok(Step::FocLEvery(with_constant(alloc, term, name)?)),
        Step::FocRExists(term) => Ok(Step::FocRExists(with_constant(alloc, term, name)?)),
        other => copied_step(other),
    }
}
