//! How a step plays the next sequent: the table of rules says what it does, and the premises are put
//! before the other sequents.
ghost use Rattle.std.specs.Prelude.{◌≡◌, ◌<◌, ◌-◌, ◌^◌, ◌∷◌, [], length, Some, OnOk};
ghost use Rattle.std.specs.List.{AllByRecursion};
ghost use Rattle.fpc_terms.specs.Term.{Each, Always, Never};
ghost use Rattle.polarised_formulas.specs.Formula.{open_at};
ghost use Rattle.polarised_formulas.specs.Parts.{body_of, IsQuantified};
ghost use Rattle.lkf_rules.specs.Sequent.{up, down};
ghost use Rattle.lkf_rules.specs.Table.{worked_by, focused_by, IsWorkable, IsFocusable, BringsNothing};
ghost use Rattle.explicit_kernel.specs.Shared.{meant, IsServed, IsPlace, stored_of, worked_at, first_of, IsReady, IsSound, IsTaken, taken_sequent, pending_of};
ghost use Rattle.explicit_kernel.specs.Naming.{Replaces, IsPlayed};

use crate::shared::{Cell, Open, Shared, Task};
use fpc_base::outside::OutOfMemory;
use fpc_terms::term::TermBuf;
use lkf_rules::rules::outcome::{StepRefusal, fits};
use lkf_rules::rules::table::{
    FocusEffect, WorkEffect, focus_effect, may_close, may_decide, stored_at, work_effect,
};
use polarised_formulas::closure::Closure;
use polarised_formulas::formula::Formula;
use polarised_formulas::held::Given;
use polarised_formulas::logic::{Logic, Side};
use polarised_formulas::node::Node;
use polarised_formulas::scope::{is_in_scope, may_be_cut};
use polarised_formulas::step::Step;
use std::alloc::Global;

impl Shared {
    /// Puts the premises of an effect on the first worked formula, in a cell with the place of the
    /// rest, before the sequents.
    #[inline]
    #[tactic(auto, using(crate::proofs::Sharing::ready_facts))]
    fn open_worked(
        &mut self,
        effect: WorkEffect,
        level: u64,
        floor: usize,
        first: Cell,
    ) -> Result<(), OutOfMemory>
        requires level { level < 2 ^ 64 - 1 }
        requires ready { IsReady floor self.old }
        requires served { IsServed (length self.old.terms.items) first.formula }
        requires rest { IsPlace self.old first.next }
        requires workable { IsWorkable effect (meant self.old.terms.items first.formula) }
        ensures sound { IsSound self.new }
        ensures pending { OnOk result (Replaces
            (worked_by (Some effect) level (stored_of self.old)
            (meant self.old.terms.items first.formula) (worked_at self.old first.next))
            (pending_of self.old) (pending_of self.new)) }
    {
        let Cell { formula, next } = first;
        match effect {
            WorkEffect::Close => Ok(()),
            WorkEffect::Pass => self.open_task(level, floor, Task::Work(next)),
            WorkEffect::Both => {
                let first = formula.left()?;
                let second = formula.right()?;
                let rest = self.put_before(second, next)?;
                self.open_first(level, floor, first, rest)
            }
            WorkEffect::Split => {
                let first = formula.left()?;
                let second = formula.right()?;
                self.split(level, floor, first, second, next)
            }
            WorkEffect::Raise => {
                let body = formula.open_at(Given::Eigen(level))?;
                self.open_first(level + 1, floor, body, next)
            }
            WorkEffect::Store => {
                self.store(formula, floor)?;
                self.open_task(level, floor, Task::Work(next))
            }
        }
    }

    /// Puts two sequents before the others, each of which works on a formula and then on the list
    /// at a place.
    #[inline]
    #[tactic(auto, using(crate::proofs::Sharing::ready_facts))]
    fn split(
        &mut self,
        level: u64,
        floor: usize,
        first: Closure<Given>,
        second: Closure<Given>,
        rest: usize,
    ) -> Result<(), OutOfMemory>
        requires ready { IsReady floor self.old }
        requires first { IsServed (length self.old.terms.items) first }
        requires second { IsServed (length self.old.terms.items) second }
        requires rest { IsPlace self.old rest }
        ensures sound { IsSound self.new }
        ensures pending { OnOk result (pending_of self.new ≡
            (level, up (stored_of self.old) (meant self.old.terms.items first ∷ worked_at self.old rest))
            ∷ (level, up (stored_of self.old) (meant self.old.terms.items second ∷ worked_at self.old rest))
            ∷ pending_of self.old) }
    {
        self.open_first(level, floor, second, rest)?;
        let floor = self.cells.len();
        self.open_first(level, floor, first, rest)
    }

    /// Puts the premises of an effect on the formula under focus before the sequents.
    #[inline]
    #[tactic(auto, using(crate::proofs::Sharing::ready_facts))]
    fn open_focused(
        &mut self,
        effect: FocusEffect,
        level: u64,
        floor: usize,
        formula: Closure<Given>,
    ) -> Result<(), OutOfMemory>
        requires ready { IsReady floor self.old }
        requires served { IsServed (length self.old.terms.items) formula }
        requires focusable { IsFocusable effect (meant self.old.terms.items formula) }
        ensures sound { IsSound self.new }
        ensures pending { OnOk result (Replaces
            (focused_by (Some effect) level (stored_of self.old)
            (meant self.old.terms.items formula))
            (pending_of self.old) (pending_of self.new)) }
    {
        match effect {
            FocusEffect::Close => Ok(()),
            FocusEffect::Split => {
                let first = formula.left()?;
                let second = formula.right()?;
                self.open_focus(level, floor, second)?;
                let floor = self.cells.len();
                self.open_focus(level, floor, first)
            }
            FocusEffect::Side(Side::Left) => {
                let part = formula.left()?;
                self.open_focus(level, floor, part)
            }
            FocusEffect::Side(Side::Right) => {
                let part = formula.right()?;
                self.open_focus(level, floor, part)
            }
            FocusEffect::Release => self.open_first(level, floor, formula, 0),
        }
    }

    /// Puts a sequent before the others that has the body of a formula with a term under focus.
    #[inline]
    #[tactic(auto, using(crate::proofs::Sharing::body_facts))]
    fn open_body(
        &mut self,
        level: u64,
        floor: usize,
        formula: Closure<Given>,
        t: TermBuf,
    ) -> Result<(), OutOfMemory>
        requires ready { IsReady floor self.old }
        requires served { IsServed (length self.old.terms.items) formula }
        requires quantified { IsQuantified (meant self.old.terms.items formula) }
        requires unbound { Each Always Never Always t }
        ensures sound { IsSound self.new }
        ensures pending { OnOk result (Replaces
            (Some ((level, down (stored_of self.old) (open_at 0 t (body_of (meant self.old.terms.items formula)))) ∷ []))
            (pending_of self.old) (pending_of self.new)) }
    {
        let name = Given::Term(self.keep_term(t)?);
        let body = formula.open_at(name)?;
        self.open_focus(level, floor, body)
    }

    /// Plays a step at a sequent that works on the list at a place.
    #[inline]
    #[tactic(auto, using(crate::proofs::Sharing::ready_facts))]
    fn play_on_first(
        &mut self,
        level: u64,
        floor: usize,
        place: usize,
        step: &Step,
    ) -> Result<(), StepRefusal>
        requires level { level < 2 ^ 64 - 1 }
        requires ready { IsReady floor self.old }
        requires place { IsPlace self.old place }
        requires first { 0 < place }
        ensures sound { IsSound self.new }
        ensures played { IsPlayed step.now result
            ((level, up (stored_of self.old) (worked_at self.old place)) ∷ pending_of self.old)
            (pending_of self.new) }
    {
        match work_effect(step, self.first_at(place).formula.shape()) {
            Some(effect) => {
                let first = self.take_up(floor, place)?;
                match self.open_worked(effect, level, floor, first) {
                    Ok(()) => Ok(()),
                    Err(_) => Err(StepRefusal::OutOfMemory),
                }
            }
            None => Err(StepRefusal::DoesNotFit),
        }
    }

    /// The step `decide`, at a sequent with nothing left to work on.
    #[inline]
    #[tactic(auto, using(crate::proofs::Sharing::ready_facts))]
    fn decide(&mut self, level: u64, floor: usize, k: u64) -> Result<(), StepRefusal>
        requires ready { IsReady floor self.old }
        ensures sound { IsSound self.new }
        ensures played { IsPlayed (Step.Decide k) result
            ((level, up (stored_of self.old) []) ∷ pending_of self.old) (pending_of self.new) }
    {
        match stored_at(self.stored.as_slice(), k) {
            Some(formula) => {
                fits(may_decide(formula.shape()))?;
                let formula = formula.copy()?;
                match self.open_focus(level, floor, formula) {
                    Ok(()) => Ok(()),
                    Err(_) => Err(StepRefusal::OutOfMemory),
                }
            }
            None => Err(StepRefusal::DoesNotFit),
        }
    }

    /// The step `cut`, at a sequent with nothing left to work on.
    #[inline]
    #[tactic(auto, using(crate::proofs::Sharing::ready_facts))]
    fn cut(
        &mut self,
        alloc: Global,
        level: u64,
        floor: usize,
        formula: Formula,
    ) -> Result<(), StepRefusal>
        requires ready { IsReady floor self.old }
        ensures sound { IsSound self.new }
        ensures played { IsPlayed (Step.Cut formula) result
            ((level, up (stored_of self.old) []) ∷ pending_of self.old) (pending_of self.new) }
    {
        fits(may_be_cut(alloc, Logic::Lkf, &formula, level)?)?;
        let formula = Closure::of_formula(alloc, formula)?;
        let dual = formula.dual()?;
        match self.split(level, floor, formula, dual, 0) {
            Ok(()) => Ok(()),
            Err(_) => Err(StepRefusal::OutOfMemory),
        }
    }

    /// Plays a step at a sequent with nothing left to work on.
    #[inline]
    #[tactic(auto, using(crate::proofs::Sharing::ready_facts))]
    fn play_on_nothing(
        &mut self,
        alloc: Global,
        level: u64,
        floor: usize,
        step: Step,
    ) -> Result<(), StepRefusal>
        requires ready { IsReady floor self.old }
        ensures sound { IsSound self.new }
        ensures played { IsPlayed step result
            ((level, up (stored_of self.old) []) ∷ pending_of self.old) (pending_of self.new) }
    {
        match step {
            Step::Decide(k) => self.decide(level, floor, k),
            Step::Cut(formula) => self.cut(alloc, level, floor, formula),
            _ => Err(StepRefusal::DoesNotFit),
        }
    }

    /// The step `some`, at a sequent with the formula at a place under focus.
    #[inline]
    #[tactic(auto, using(crate::proofs::Sharing::ready_facts))]
    fn instantiate(
        &mut self,
        level: u64,
        floor: usize,
        place: usize,
        t: TermBuf,
    ) -> Result<(), StepRefusal>
        requires ready { IsReady floor self.old }
        requires place { IsPlace self.old place }
        requires first { 0 < place }
        ensures sound { IsSound self.new }
        ensures played { IsPlayed (Step.Exists t) result
            ((level, down (stored_of self.old) (first_of (worked_at self.old place))) ∷ pending_of self.old)
            (pending_of self.new) }
    {
        match self.first_at(place).formula.shape() {
            Node::Exists => {
                fits(is_in_scope(&t, level))?;
                let Cell { formula, .. } = self.take_up(floor, place)?;
                match self.open_body(level, floor, formula, t) {
                    Ok(()) => Ok(()),
                    Err(_) => Err(StepRefusal::OutOfMemory),
                }
            }
            _ => Err(StepRefusal::DoesNotFit),
        }
    }

    /// The step `init`, at a sequent with the formula at a place under focus.
    #[inline]
    #[tactic(auto, using(crate::proofs::Sharing::ready_facts))]
    fn initial(&mut self, level: u64, floor: usize, place: usize, k: u64) -> Result<(), StepRefusal>
        requires ready { IsReady floor self.old }
        requires place { IsPlace self.old place }
        requires first { 0 < place }
        ensures sound { IsSound self.new }
        ensures played { IsPlayed (Step.Init k) result
            ((level, down (stored_of self.old) (first_of (worked_at self.old place))) ∷ pending_of self.old)
            (pending_of self.new) }
    {
        match stored_at(self.stored.as_slice(), k) {
            Some(other) => {
                let focus = &self.first_at(place).formula;
                fits(may_close(focus, other, self.terms.as_slice()))?;
                self.cut_back(floor, 0);
                Ok(())
            }
            None => Err(StepRefusal::DoesNotFit),
        }
    }

    /// Plays a step at a sequent with the formula at a place under focus.
    #[inline]
    #[tactic(auto, using(crate::proofs::Sharing::ready_facts))]
    fn play_on_focus(
        &mut self,
        level: u64,
        floor: usize,
        place: usize,
        step: Step,
    ) -> Result<(), StepRefusal>
        requires ready { IsReady floor self.old }
        requires place { IsPlace self.old place }
        requires first { 0 < place }
        ensures sound { IsSound self.new }
        ensures played { IsPlayed step result
            ((level, down (stored_of self.old) (first_of (worked_at self.old place))) ∷ pending_of self.old)
            (pending_of self.new) }
    {
        match step {
            Step::Exists(t) => self.instantiate(level, floor, place, t),
            Step::Init(k) => self.initial(level, floor, place, k),
            other => self.play_rule(level, floor, place, &other),
        }
    }

    /// Plays a step that brings nothing at a sequent with the formula at a place under focus.
    #[inline]
    #[tactic(auto, using(crate::proofs::Sharing::ready_facts))]
    fn play_rule(
        &mut self,
        level: u64,
        floor: usize,
        place: usize,
        step: &Step,
    ) -> Result<(), StepRefusal>
        requires ready { IsReady floor self.old }
        requires place { IsPlace self.old place }
        requires first { 0 < place }
        requires nothing { BringsNothing step.now }
        ensures sound { IsSound self.new }
        ensures played { IsPlayed step.now result
            ((level, down (stored_of self.old) (first_of (worked_at self.old place))) ∷ pending_of self.old)
            (pending_of self.new) }
    {
        match focus_effect(step, self.first_at(place).formula.shape()) {
            Some(effect) => {
                let Cell { formula, .. } = self.take_up(floor, place)?;
                match self.open_focused(effect, level, floor, formula) {
                    Ok(()) => Ok(()),
                    Err(_) => Err(StepRefusal::OutOfMemory),
                }
            }
            None => Err(StepRefusal::DoesNotFit),
        }
    }

    /// Plays a step at a sequent that was taken off the others.
    fn play_at(&mut self, alloc: Global, sequent: &Open, step: Step) -> Result<(), StepRefusal>
        requires taken { IsTaken sequent.now self.old }
        requires level { sequent.now.level < 2 ^ 64 - 1 }
        ensures sound { IsSound self.new }
        ensures played { IsPlayed step result
            ((sequent.now.level, taken_sequent sequent.now self.old) ∷ pending_of self.old)
            (pending_of self.new) }
    {
        self.forget(sequent);
        let level = sequent.level;
        let floor = sequent.floor;
        match sequent.task {
            Task::Focus(place) => self.play_on_focus(level, floor, place, step),
            Task::Work(place) => {
                if place == 0 {
                    self.play_on_nothing(alloc, level, floor, step)
                } else {
                    self.play_on_first(level, floor, place, &step)
                }
            }
        }
    }

    /// Plays a step at the next sequent. Where none is left, it does not fit.
    pub(crate) fn play(&mut self, alloc: Global, step: Step) -> Result<(), StepRefusal>
        requires sound { IsSound self.old }
        requires levels { AllByRecursion (λ p. p.0 < 2 ^ 64 - 1) (pending_of self.old) }
        ensures sound { IsSound self.new }
        ensures played { IsPlayed step result (pending_of self.old) (pending_of self.new) }
    {
        let Some(sequent) = self.sequents.pop() else {
            return Err(StepRefusal::DoesNotFit);
        };
        self.play_at(alloc, &sequent, step)
    }
}
