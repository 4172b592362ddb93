//! The sequents still to be derived, in any calculus.
ghost use Rattle.std.specs.Prelude.{◌≡◌, ◌≢◌, ◌↔◌, ◌<◌, ◌-◌, ◌^◌, [], List, IsTrue, OnOk, IfOk, Err};
ghost use Rattle.std.specs.List.{AllByRecursion};
ghost use Rattle.polarised_formulas.specs.Formula.{IsClosed};
ghost use Rattle.polarised_formulas.specs.Calculus.Rules.{RuleCalculus, LevelledIn};
ghost use Rattle.polarised_formulas.specs.Calculus.Lawful.{IsLawful};
ghost use Rattle.polarised_formulas.specs.Calculus.Play.{PlaysOne, start_of};
ghost use Rattle.explicit_kernel.specs.Progress.{MayRunOutAt};

use fpc_base::outside::OutOfMemory;
use lkf_rules::rules::outcome::StepRefusal;
use polarised_formulas::formula::Formula;
use polarised_formulas::logic::Logic;
use polarised_formulas::step::Step;
use std::alloc::Global;

/// The sequents of a calculus that are still to be derived, with their levels, the next one first.
/// All that the kernel takes of a calculus: a step is played by them.
pub(crate) trait Pending: Drop {
    ghost calculus: { RuleCalculus };

    ghost sequents_of: { Self → List (LevelledIn calculus) };

    /// The logic of the calculus, which a certificate names in its first line.
    fn logic() -> Logic
        ensures { result ≡ calculus.logic };

    /// The goal's root sequent alone. Time and memory are linear in the goal's size.
    fn start(alloc: Global, goal: &Formula) -> Result<Self, OutOfMemory>
        requires { IsClosed goal.now }
        ensures { IfOk result (λ p. sequents_of p ≡ start_of calculus goal.now) };

    /// Is nothing left to derive?
    fn is_empty(&self) -> bool
        ensures { IsTrue result ↔ (sequents_of self.now ≡ []) };

    /// Replaces the next sequent by the premises of the rule instance that the step names, which
    /// stand before the others. Where no sequent is left, or the step names no instance at the next
    /// one, it does not fit; a `cut` may run out of memory before that is known. Time and memory
    /// are linear in the step's size, but for the opening of a quantifier, the arguments that are
    /// compared and what is dropped.
    fn play(&mut self, alloc: Global, step: Step) -> Result<(), StepRefusal>
        requires levels { AllByRecursion (λ p. p.0 < 2 ^ 64 - 1) (sequents_of self.old) }
        ensures fits { OnOk result
            (PlaysOne calculus (sequents_of self.old) step (sequents_of self.new)) }
        ensures unfit { result ≡ Err StepRefusal.DoesNotFit ↔
            ((r : List (LevelledIn calculus))
            → PlaysOne calculus (sequents_of self.old) step r → ⊥)
            × (result ≢ Err StepRefusal.OutOfMemory) }
        ensures memory { result ≡ Err StepRefusal.OutOfMemory
            → MayRunOutAt calculus step (sequents_of self.old) };

    ghost lawful: { IsLawful calculus };
}
