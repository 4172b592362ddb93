//! The rules of LKF: the premises that a step names at a sequent.
ghost use Rattle.std.specs.Prelude.{◌≡◌, ◌≢◌, ◌↔◌, List, ◌<◌, ◌-◌, ◌^◌, Some, None, IfOk, Err};
ghost use Rattle.lkf_rules.specs.Sequent.{root_of, Levelled, IsInScope};
ghost use Rattle.lkf_rules.specs.Premises.{premises_of};
ghost use Rattle.lkf_rules.specs.Instance.{IsInstance};
ghost use Rattle.lkf_rules.specs.Values.{levelled, premise_list, Answers, MayRunOut};

pub mod outcome;
pub mod table;
mod whole;

use crate::sequent::Sequent;
use fpc_base::outside::OutOfMemory;
use outcome::{Premises, StepRefusal, only};
use polarised_formulas::formula::Formula;
use polarised_formulas::list::Formulas;
use polarised_formulas::step::Step;
use std::alloc::Global;
use whole::{on_first, on_focus, on_nothing};

/// The root sequent of a goal, at level 0: nothing is stored, and the goal is worked on. Time and
/// memory are linear in the goal's size.
pub fn root(alloc: Global, goal: &Formula) -> Result<Sequent, OutOfMemory>
    ensures { IfOk result (λ c. levelled c ≡ (0, root_of goal.now)) }
{
    Ok(Sequent::Up {
        level: 0,
        stored: Formulas::new(alloc),
        work: only(alloc, goal.copy()?)?,
    })
}

/// What a step comes to at a sequent.
fn answer_to(alloc: Global, sequent: &Sequent, step: &Step) -> Result<Premises, StepRefusal>
    requires level { (levelled sequent.now).0 < 2 ^ 64 - 1 }
    ensures { Answers step.now result (premises_of step.now (levelled sequent.now).0 (levelled sequent.now).1) }
{
    match sequent {
        Sequent::Up {
            level,
            stored,
            work,
        } => match work.items() {
            [first, rest @ ..] => on_first(alloc, *level, stored, first, rest, step),
            [] => on_nothing(alloc, *level, stored, step),
        },
        Sequent::Down {
            level,
            stored,
            focus,
        } => on_focus(alloc, *level, stored, focus, step),
    }
}

/// The premises of the instance of a rule of LKF that a step names at a sequent, each with its level; the rules are after Liang and Miller.
/// A place counts the stored formulas from 0, and the eigenvariable of `all` is the sequent's level. A step does not fit where the term of `some` or
/// the formula of `cut` has a variable, a free bound index or an eigenvariable that is not below that level, or where the formula is not of LKF.
/// Time and memory are linear in the sizes of the sequent, the step and the premises. Where `cut` finds no memory, it may not have tested its formula.
#[tactic(auto, using(crate::proofs::StepFacts::answer_facts, crate::proofs::Complete::instance_facts))]
pub fn premises(alloc: Global, sequent: &Sequent, step: &Step) -> Result<Premises, StepRefusal>
    requires level { (levelled sequent.now).0 < 2 ^ 64 - 1 }
    ensures fits { IfOk result (λ p. premises_of step.now (levelled sequent.now).0 (levelled sequent.now).1 ≡ Some (premise_list p)) }
    ensures unfit { result ≡ Err StepRefusal.DoesNotFit ↔ (premises_of step.now (levelled sequent.now).0 (levelled sequent.now).1 ≡ None) × (result ≢ Err StepRefusal.OutOfMemory) }
    ensures memory { result ≡ Err StepRefusal.OutOfMemory → MayRunOut step.now (premises_of step.now (levelled sequent.now).0 (levelled sequent.now).1) }
    ensures instance { IsInScope (levelled sequent.now) → IfOk result (λ p. IsInstance step.now (levelled sequent.now).0 (levelled sequent.now).1 (premise_list p)) }
    ensures no_instance { result ≡ Err StepRefusal.DoesNotFit → (ps : List Levelled) → IsInstance step.now (levelled sequent.now).0 (levelled sequent.now).1 ps → ⊥ }
{
    answer_to(alloc, sequent, step)
}
