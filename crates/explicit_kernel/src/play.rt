//! The steps of a certificate as they come, played against a goal.
ghost use Rattle.std.specs.Prelude.{◌≡◌, ◌↔◌, List, ◌+◌, ◌-◌, ◌^◌, ◌<◌, ◌≤◌, ◌≢◌, [], OnOk, OnErr, IfOk, Err};
ghost use Rattle.polarised_formulas.specs.Formula.{IsClosed};
ghost use Rattle.polarised_formulas.specs.Calculus.Rules.{LevelledIn};
ghost use Rattle.polarised_formulas.specs.Calculus.Lawful.{AreLow};
ghost use Rattle.polarised_formulas.specs.Calculus.Play.{PlaysOne, start_of};
ghost use Rattle.explicit_kernel.specs.Progress.{Follows, IsUnfit, IsShort, MayRunOutAt};

use crate::pending::Pending;
use fpc_base::outside::OutOfMemory;
use fpc_base::steps::Steps;
use lkf_rules::rules::outcome::StepRefusal;
use polarised_formulas::formula::Formula;
use polarised_formulas::step::Step;
use std::alloc::Global;
use std::sync::ledger::Ledger;

/// The sequents still to be derived, and how many steps have fitted so far.
#[derive(Drop)]
pub(crate) struct Play<P> {
    pub(crate) pending: P,
    pub(crate) fitted: u64,
}

impl<P: Pending> Play<P> {
    /// Nothing is played yet.
    pub(crate) fn start(alloc: Global, goal: &Formula) -> Result<Play<P>, OutOfMemory>
        requires { IsClosed goal.now }
        ensures pending { IfOk result
            (λ p. P.sequents_of p.pending ≡ start_of P.calculus goal.now) }
        ensures fitted { IfOk result (λ p. p.fitted ≡ 0) }
        ensures low { IfOk result (λ p. AreLow P.calculus p.fitted (P.sequents_of p.pending)) }
    {
        Ok(Play {
            pending: P::start(alloc, goal)?,
            fitted: 0,
        })
    }

    /// Plays one more step, and counts it where it fits.
    pub(crate) fn advance<L: Ledger>(
        &mut self,
        alloc: Global,
        step: Step,
        steps: &mut Steps<L>,
    ) -> Result<(), StepRefusal>
        requires low { AreLow P.calculus self.old.fitted (P.sequents_of self.old.pending) }
        requires few { self.old.fitted < 2 ^ 32 }
        ensures fits { OnOk result
            (PlaysOne P.calculus (P.sequents_of self.old.pending) step
            (P.sequents_of self.new.pending)) }
        ensures low { OnOk result
            (AreLow P.calculus self.new.fitted (P.sequents_of self.new.pending)) }
        ensures one { OnOk result (self.new.fitted ≡ self.old.fitted + 1) }
        ensures ticks { OnOk result (steps.new ≡ steps.old + 1) }
        ensures unfit { result ≡ Err StepRefusal.DoesNotFit ↔
            ((r : List (LevelledIn P.calculus))
            → PlaysOne P.calculus (P.sequents_of self.old.pending) step r → ⊥)
            × (result ≢ Err StepRefusal.OutOfMemory) }
        ensures memory { result ≡ Err StepRefusal.OutOfMemory
            → MayRunOutAt P.calculus step (P.sequents_of self.old.pending) }
        ensures none { OnErr result (self.new.fitted ≡ self.old.fitted) }
        ensures no_tick { OnErr result (steps.new ≡ steps.old) }
    {
        match self.pending.play(alloc, step) {
            Ok(()) => {
                self.fitted += 1;
                steps.tick();
                Ok(())
            }
            Err(refusal) => Err(refusal),
        }
    }

    /// Plays the step, if there is one, and counts it where it fits.
    pub(crate) fn follow<L: Ledger>(
        &mut self,
        alloc: Global,
        step: Option<Step>,
        steps: &mut Steps<L>,
    ) -> Result<(), StepRefusal>
        requires low { AreLow P.calculus self.old.fitted (P.sequents_of self.old.pending) }
        requires few { self.old.fitted < 2 ^ 32 }
        ensures follows { OnOk result (Follows P.calculus step
            (P.sequents_of self.old.pending) self.old.fitted
            (P.sequents_of self.new.pending) self.new.fitted) }
        ensures low { OnOk result
            (AreLow P.calculus self.new.fitted (P.sequents_of self.new.pending)) }
        ensures one { self.new.fitted ≤ self.old.fitted + 1 }
        ensures unfit { result ≡ Err StepRefusal.DoesNotFit
            → IsUnfit P.calculus step (P.sequents_of self.old.pending) }
        ensures memory { result ≡ Err StepRefusal.OutOfMemory
            → IsShort P.calculus step (P.sequents_of self.old.pending) }
        ensures none { OnErr result (self.new.fitted ≡ self.old.fitted) }
        ensures ticks { steps.new + self.old.fitted ≡ steps.old + self.new.fitted }
    {
        match step {
            Some(step) => self.advance(alloc, step, steps),
            None => Ok(()),
        }
    }
}
