//! The rules over whole formulas: the premises that the table's answer names.
ghost use Rattle.std.specs.Prelude.{◌<◌, ◌-◌, ◌^◌, Some, slice_get};
ghost use Rattle.lkf_rules.specs.Premises.{worked, chosen, focused, decided, closed_with};
ghost use Rattle.lkf_rules.specs.Table.{worked_by, focused_by, IsWorkable, IsFocusable};
ghost use Rattle.lkf_rules.specs.Values.{Gives, Answers};

use crate::rules::outcome::{
    Premises, StepRefusal, fits, one_down, one_up, only, two_down, two_up, with_both, with_first,
};
use crate::rules::table::{
    FocusEffect, WorkEffect, focus_effect, may_close, may_decide, stored_at, work_effect,
};
use fpc_terms::cell::Cell;
use fpc_terms::term::TermBuf;
use polarised_formulas::dual::dual;
use polarised_formulas::formula::Formula;
use polarised_formulas::list::Formulas;
use polarised_formulas::logic::{Logic, Side};
use polarised_formulas::node::Node;
use polarised_formulas::opening::open_with;
use polarised_formulas::parts::parts;
use polarised_formulas::scope::{is_in_scope, may_be_cut};
use polarised_formulas::shape::outermost;
use polarised_formulas::step::Step;
use std::alloc::Global;

/// The premises that an effect on the first worked formula names.
fn worked_premises(
    alloc: Global,
    level: u64,
    stored: &Formulas,
    first: &Formula,
    rest: &[Formula],
    effect: WorkEffect,
) -> Result<Premises, StepRefusal>
    requires parts { IsWorkable effect first.now }
    requires level { level < 2 ^ 64 - 1 }
    ensures { Gives result (worked_by (Some effect) level stored.now first.now rest.now) }
{
    match effect {
        WorkEffect::Close => Ok(Premises::None),
        WorkEffect::Pass => one_up(level, stored, Formulas::new(alloc).extended(rest)?),
        WorkEffect::Both => {
            let (left, right) = parts(alloc, first)?;
            one_up(level, stored, with_both(alloc, left, right, rest)?)
        }
        WorkEffect::Split => {
            let (left, right) = parts(alloc, first)?;
            let left = with_first(alloc, left, rest)?;
            let right = with_first(alloc, right, rest)?;
            two_up(level, stored, left, right)
        }
        WorkEffect::Raise => {
            let eigenvariable = TermBuf::from_cells(alloc, &[Cell::Eigen(level)])?;
            let body = open_with(alloc, first, &eigenvariable)?;
            one_up(level + 1, stored, with_first(alloc, body, rest)?)
        }
        WorkEffect::Store => {
            let mut more = stored.copy()?;
            more.push(first.copy()?)?;
            one_up(level, &more, Formulas::new(alloc).extended(rest)?)
        }
    }
}

/// The rules of the negative phase, at the first worked formula. Time and memory are linear in the
/// size of the sequent.
pub(crate) fn on_first(
    alloc: Global,
    level: u64,
    stored: &Formulas,
    first: &Formula,
    rest: &[Formula],
    step: &Step,
) -> Result<Premises, StepRefusal>
    requires level { level < 2 ^ 64 - 1 }
    ensures { Gives result (worked step.now level stored.now first.now rest.now) }
{
    match work_effect(step, outermost(first)) {
        Some(effect) => worked_premises(alloc, level, stored, first, rest, effect),
        None => Err(StepRefusal::DoesNotFit),
    }
}

/// The step `decide`.
fn decide(level: u64, stored: &Formulas, k: u64) -> Result<Premises, StepRefusal>
    ensures { Gives result (decided level stored.now (slice_get stored.now k)) }
{
    match stored_at(stored.items(), k) {
        Some(formula) if may_decide(outermost(formula)) => {
            one_down(level, stored, formula.copy()?)
        }
        _ => Err(StepRefusal::DoesNotFit),
    }
}

/// The step `cut`. Memory may run out before it is known whether the formula may be cut.
#[tactic(auto, using(crate::proofs::StepFacts::is_lkf))]
fn cut(
    alloc: Global,
    level: u64,
    stored: &Formulas,
    formula: &Formula,
) -> Result<Premises, StepRefusal>
    ensures { Answers (Step.Cut formula.now) result (chosen (Step.Cut formula.now) level stored.now) }
{
    fits(may_be_cut(alloc, Logic::Lkf, formula, level)?)?;
    let first = only(alloc, formula.copy()?)?;
    let second = only(alloc, dual(alloc, formula)?)?;
    two_up(level, stored, first, second)
}

/// The rules at a sequent with nothing left to work on. Time and memory are linear in the sizes of
/// the stored formulas and of the one that the step chooses.
pub(crate) fn on_nothing(
    alloc: Global,
    level: u64,
    stored: &Formulas,
    step: &Step,
) -> Result<Premises, StepRefusal>
    ensures { Answers step.now result (chosen step.now level stored.now) }
{
    match step {
        Step::Decide(k) => decide(level, stored, *k),
        Step::Cut(formula) => cut(alloc, level, stored, formula),
        _ => Err(StepRefusal::DoesNotFit),
    }
}

/// The premises that an effect on the formula under focus names.
fn focused_premises(
    alloc: Global,
    level: u64,
    stored: &Formulas,
    focus: &Formula,
    effect: FocusEffect,
) -> Result<Premises, StepRefusal>
    requires parts { IsFocusable effect focus.now }
    ensures { Gives result (focused_by (Some effect) level stored.now focus.now) }
{
    match effect {
        FocusEffect::Close => Ok(Premises::None),
        FocusEffect::Split => {
            let (left, right) = parts(alloc, focus)?;
            two_down(level, stored, left, right)
        }
        FocusEffect::Side(side) => {
            let (left, right) = parts(alloc, focus)?;
            match side {
                Side::Left => one_down(level, stored, left),
                Side::Right => one_down(level, stored, right),
            }
        }
        FocusEffect::Release => one_up(level, stored, only(alloc, focus.copy()?)?),
    }
}

/// The step `some`.
#[tactic(auto, using(crate::proofs::StepFacts::is_unbound))]
fn instantiate(
    alloc: Global,
    level: u64,
    stored: &Formulas,
    focus: &Formula,
    t: &TermBuf,
) -> Result<Premises, StepRefusal>
    ensures { Gives result (focused (Step.Exists t.now) level stored.now focus.now) }
{
    match outermost(focus) {
        Node::Exists => {
            fits(is_in_scope(t, level))?;
            one_down(level, stored, open_with(alloc, focus, t)?)
        }
        _ => Err(StepRefusal::DoesNotFit),
    }
}

/// The step `init`. It takes no memory.
fn initial(stored: &Formulas, focus: &Formula, k: u64) -> Result<Premises, StepRefusal>
    ensures { Gives result (closed_with focus.now (slice_get stored.now k)) }
{
    match stored_at(stored.items(), k) {
        Some(other) if may_close(focus, other, &[]) => Ok(Premises::None),
        _ => Err(StepRefusal::DoesNotFit),
    }
}

/// The rules of the positive phase. Time and memory are linear in the sizes of the sequent and the
/// premises.
pub(crate) fn on_focus(
    alloc: Global,
    level: u64,
    stored: &Formulas,
    focus: &Formula,
    step: &Step,
) -> Result<Premises, StepRefusal>
    ensures { Gives result (focused step.now level stored.now focus.now) }
{
    match step {
        Step::Exists(t) => instantiate(alloc, level, stored, focus, t),
        Step::Init(k) => initial(stored, focus, *k),
        _ => match focus_effect(step, outermost(focus)) {
            Some(effect) => focused_premises(alloc, level, stored, focus, effect),
            None => Err(StepRefusal::DoesNotFit),
        },
    }
}
