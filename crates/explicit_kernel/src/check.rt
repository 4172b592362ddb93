//! A certificate that is being checked.
ghost use Rattle.std.specs.Prelude.{◌≡◌, ℕ, ◌+◌, ◌<◌, ◌≤◌, ◌^◌, List, ◌++◌, [], length, IfOk, IfErr, OnOk};
ghost use Rattle.fpc_terms.specs.Name.{AreDifferent, Grows};
ghost use Rattle.fpc_terms.specs.Adding.{AddsOnly};
ghost use Rattle.polarised_formulas.specs.Adding.{IsPartIn};
ghost use Rattle.polarised_formulas.specs.Formula.{Formula, IsClosed as IsClosedGoal};
ghost use Rattle.polarised_formulas.specs.declared.logic.Logic.{Logic};
ghost use Rattle.polarised_formulas.specs.Calculus.Lawful.{AreLow};
ghost use Rattle.explicit_form.specs.Feeding.{HasRead};
ghost use Rattle.explicit_kernel.specs.Check.{HasCome, IsUnderWay, HasTicks, IsStopped, IsTakenOn, IsFollowed, IsClosed, IsFinal, stop_of};

use crate::pending::Pending;
use crate::play::Play;
use explicit_form::step_reader::{StepFault, StepReader};
use fpc_base::outside::OutOfMemory;
use fpc_base::refusal::Refusal;
use fpc_base::steps::Steps;
use fpc_terms::names::Names;
use lkf_rules::rules::outcome::StepRefusal;
use polarised_formulas::formula::Formula;
use std::alloc::Global;
use std::sync::ledger::Ledger;

/// Why the check stops.
#[derive(Clone, Copy)]
pub(crate) enum Stop {
    /// The step with this number is rejected.
    Rejected(u64),
    Refused(Refusal),
    OutOfMemory,
}

/// The reader of a certificate, and how far its steps have been played.
#[derive(Drop)]
pub(crate) struct Check<P> {
    pub(crate) reader: StepReader,
    pub(crate) play: Play<P>,
}

impl<P: Pending> Check<P> {
    /// No byte is taken yet.
    pub(crate) fn start(alloc: Global, goal: &Formula) -> Result<Check<P>, OutOfMemory>
        requires { IsClosedGoal goal.now }
        ensures come { (names : List (List ℕ))
            → IfOk result (λ c. HasCome P.calculus names goal.now [] c.reader
            (P.sequents_of c.play.pending) c.play.fitted) }
        ensures fitted { IfOk result (λ c. c.play.fitted ≡ 0) }
    {
        Ok(Check {
            reader: StepReader::new(alloc, P::logic()),
            play: Play::start(alloc, goal)?,
        })
    }

    /// Takes a piece of the bytes, line by line.
    pub(crate) fn take_piece<L: Ledger>(
        &mut self,
        alloc: Global,
        names: &mut Names,
        piece: &[u8],
        steps: &mut Steps<L>,
    ) -> Result<(), Stop>
        requires under_way { IsUnderWay P.calculus names.old self.old.reader
            (P.sequents_of self.old.play.pending) self.old.play.fitted }
        ensures grows { Grows names.old names.new }
        ensures only { (goal : Formula) (before : List ℕ)
            → HasCome P.calculus names.old goal before self.old.reader
            (P.sequents_of self.old.play.pending) self.old.play.fitted
            → AddsOnly (IsPartIn before piece.now) names.old names.new }
        ensures come { (goal : Formula) (before : List ℕ)
            → HasCome P.calculus names.old goal before self.old.reader
            (P.sequents_of self.old.play.pending) self.old.play.fitted
            → OnOk result (HasCome P.calculus names.new goal (before ++ piece.now) self.new.reader
            (P.sequents_of self.new.play.pending) self.new.play.fitted) }
        ensures stopped { (goal : Formula) (before : List ℕ)
            → HasCome P.calculus names.old goal before self.old.reader
            (P.sequents_of self.old.play.pending) self.old.play.fitted
            → IfErr result (IsStopped P.calculus names.new goal
            (length before) (before ++ piece.now) self.new.play.fitted) }
        ensures ticks { HasTicks self.old.play.fitted self.new.play.fitted steps.old steps.new }
    {
        let mut fed = 0;
        while fed < piece.len() {
            match self.take_line(alloc, names, &piece[fed..], steps) {
                Ok(n) => fed += n,
                Err(stop) => return Err(stop),
            }
        }
        Ok(())
    }

    /// Takes bytes up to and with the first end of a line, or all of them, and answers how many.
    fn take_line<L: Ledger>(
        &mut self,
        alloc: Global,
        names: &mut Names,
        bytes: &[u8],
        steps: &mut Steps<L>,
    ) -> Result<usize, Stop>
        requires under_way { IsUnderWay P.calculus names.old self.old.reader
            (P.sequents_of self.old.play.pending) self.old.play.fitted }
        requires some { 0 < length bytes.now }
        ensures grows { Grows names.old names.new }
        ensures only { (goal : Formula) (before : List ℕ)
            → HasCome P.calculus names.old goal before self.old.reader
            (P.sequents_of self.old.play.pending) self.old.play.fitted
            → AddsOnly (IsPartIn before bytes.now) names.old names.new }
        ensures taken { (goal : Formula) (before : List ℕ)
            → HasCome P.calculus names.old goal before self.old.reader
            (P.sequents_of self.old.play.pending) self.old.play.fitted
            → IsTakenOn P.calculus names.new goal before bytes.now result self.new.reader
            (P.sequents_of self.new.play.pending) self.new.play.fitted }
        ensures within { IfOk result (λ n. n ≤ length bytes.now) }
        ensures moves { IfOk result (λ n. 0 < n) }
        ensures ticks { HasTicks self.old.play.fitted self.new.play.fitted steps.old steps.new }
    {
        match self.reader.feed(names, bytes) {
            Ok(n) => {
                names.distinct();
                match self.judge(alloc, steps) {
                    Ok(()) => Ok(n),
                    Err(stop) => Err(stop),
                }
            }
            Err(fault) => Err(stop_at(fault)),
        }
    }

    /// Plays the step of the line that was just ended, if any. When the last line is read nothing
    /// may be left to derive.
    fn judge<L: Ledger>(&mut self, alloc: Global, steps: &mut Steps<L>) -> Result<(), Stop>
        requires low { AreLow P.calculus self.old.play.fitted
            (P.sequents_of self.old.play.pending) }
        requires few { self.old.play.fitted < 2 ^ 32 }
        ensures followed { IsFollowed P.calculus self.old.reader.step
            (P.sequents_of self.old.play.pending) self.old.play.fitted
            self.new.reader (P.sequents_of self.new.play.pending) self.new.play.fitted result }
        ensures low { OnOk result
            (AreLow P.calculus self.new.play.fitted (P.sequents_of self.new.play.pending)) }
        ensures kept { (logic : Logic) (names : List (List ℕ)) (bytes : List ℕ)
            → HasRead logic names bytes self.old.reader
            → HasRead logic names bytes self.new.reader }
        ensures ticks { HasTicks self.old.play.fitted self.new.play.fitted steps.old steps.new }
    {
        let step = self.reader.take();
        match self.play.follow(alloc, step, steps) {
            Ok(()) => self.close(),
            Err(StepRefusal::DoesNotFit) => Err(Stop::Rejected(self.play.fitted + 1)),
            Err(StepRefusal::OutOfMemory) => Err(Stop::OutOfMemory),
        }
    }

    /// Rejects the step that is missing where the last line is read and a sequent is left.
    fn close(&self) -> Result<(), Stop>
        requires few { self.now.play.fitted < 2 ^ 33 }
        ensures { IsClosed P.calculus self.now.reader
            (P.sequents_of self.now.play.pending) self.now.play.fitted result }
    {
        if self.play.pending.is_empty() {
            return Ok(());
        }
        if self.reader.ended() {
            return Err(Stop::Rejected(self.play.fitted + 1));
        }
        Ok(())
    }

    /// The verdict at the end of the bytes.
    pub(crate) fn finish(&self) -> Result<u64, Stop>
        ensures { (names : List (List ℕ)) (goal : Formula) (bytes : List ℕ) → AreDifferent names
            → HasCome P.calculus names goal bytes self.now.reader
            (P.sequents_of self.now.play.pending) self.now.play.fitted
            → IsFinal P.calculus names goal bytes self.now.play.fitted result }
    {
        match self.reader.finish() {
            Ok(()) => Ok(self.play.fitted),
            Err(end) => Err(stop_at(end)),
        }
    }
}

/// Why the check stops where the reader tells a fault.
fn stop_at(fault: StepFault) -> Stop
    ensures { result ≡ stop_of fault }
{
    match fault {
        StepFault::Refused(refusal) => Stop::Refused(refusal),
        StepFault::OutOfMemory => Stop::OutOfMemory,
    }
}
