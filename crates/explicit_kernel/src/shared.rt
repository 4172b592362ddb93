//! Sequents still to be derived that share their formulas.
//!
//! The stored formulas of each sequent are a front of those of the next one to be derived, worked
//! lists share their ends, and the terms that steps brought are in a table. So a step takes
//! constant time but for the opening of a quantifier and for the arguments that `init` compares,
//! and what a finished branch has left behind is dropped when the next sequent is taken up.
ghost use Rattle.std.specs.Prelude.{◌≡◌, ◌≤◌, ◌<◌, ◌++◌, ◌∷◌, ℕ, [], length, OnOk, IfOk, IsTrue, ◌↔◌};
ghost use Rattle.fpc_terms.specs.Term.{Each, Always, Never};
ghost use Rattle.polarised_formulas.specs.Formula.{IsProper};
ghost use Rattle.lkf_rules.specs.Sequent.{up, down};
ghost use Rattle.explicit_kernel.specs.Shared.{meant, IsServed, IsServedTask, IsPlace, IsFirst, stored_of, worked_at, chain, GoDown, sequent_of, IsBelow, IsReady, IsSound, Grows, HasTerms, IsTaken, taken_sequent, pending_of};

mod rules;

use crate::stack::Stack;
use fpc_base::outside::OutOfMemory;
use fpc_terms::term::TermBuf;
use polarised_formulas::closure::Closure;
use polarised_formulas::formula::Formula;
use polarised_formulas::held::Given;
use std::alloc::Global;

/// A formula of a worked list, and the place of the next one. Places count the cells from 1; 0 is
/// the end of a list.
#[derive(Drop)]
pub(crate) struct Cell {
    pub(crate) formula: Closure<Given>,
    pub(crate) next: usize,
}

impl Cell {
    /// The same cell. Constant time.
    fn copy(&self) -> Result<Cell, OutOfMemory>
        ensures { IfOk result (λ c. c ≡ self.now) }
    {
        Ok(Cell {
            formula: self.formula.copy()?,
            next: self.next,
        })
    }
}

/// What a sequent's derivation works on.
#[derive(Clone, Copy)]
pub(crate) enum Task {
    /// The worked list that begins at this place.
    Work(usize),
    /// The formula under focus, alone in a list at this place.
    Focus(usize),
}

/// A sequent still to be derived.
#[derive(Clone, Copy)]
pub(crate) struct Open {
    pub(crate) level: u64,
    /// How many of the stored formulas are its own.
    pub(crate) stored: usize,
    /// How many of the terms its formulas may name.
    pub(crate) terms: usize,
    /// How many cells the sequents behind it need.
    pub(crate) floor: usize,
    pub(crate) task: Task,
}

/// The sequents still to be derived, the next one on top.
#[derive(Drop)]
pub(crate) struct Shared {
    pub(crate) stored: Vec<Closure<Given>>,
    pub(crate) terms: Vec<TermBuf>,
    pub(crate) cells: Stack<Cell>,
    pub(crate) sequents: Stack<Open>,
}

/// The larger of two numbers.
#[inline]
fn larger(a: usize, b: usize) -> usize
    ensures first { a ≤ result }
    ensures second { b ≤ result }
    ensures one { (n : ℕ) → a ≤ n → b ≤ n → result ≤ n }
{
    a.max(b)
}

impl Shared {
    /// No sequent.
    fn empty(alloc: Global) -> Shared
        ensures ready { IsReady 0 result }
        ensures stored { result.stored.items ≡ [] }
        ensures terms { result.terms.items ≡ [] }
        ensures cells { result.cells ≡ [] }
        ensures sequents { result.sequents ≡ [] }
    {
        Shared {
            stored: Vec::new(alloc),
            terms: Vec::new(alloc),
            cells: Stack::new(alloc),
            sequents: Stack::new(alloc),
        }
    }

    /// The goal's root sequent alone. Time and memory are linear in the goal's size.
    pub(crate) fn start(alloc: Global, goal: &Formula) -> Result<Shared, OutOfMemory>
        requires { IsProper Always goal.now }
        ensures sound { IfOk result IsSound }
        ensures pending { IfOk result (λ x. pending_of x ≡ (0, up [] (goal.now ∷ [])) ∷ []) }
    {
        let mut shared = Shared::empty(alloc);
        let goal = Closure::of_formula(alloc, goal.copy()?)?;
        shared.open_first(0, 0, goal, 0)?;
        Ok(shared)
    }

    /// Is no sequent left?
    pub(crate) fn is_empty(&self) -> bool
        ensures { IsTrue result ↔ (pending_of self.now ≡ []) }
    {
        self.sequents.top().is_none()
    }

    /// Puts a formula before the worked list at a place, and gives the place of the longer list.
    #[inline]
    #[tactic(auto, using(crate::proofs::Sharing::ready_facts))]
    fn put_before(&mut self, formula: Closure<Given>, next: usize) -> Result<usize, OutOfMemory>
        requires sound { IsSound self.old }
        requires served { IsServed (length self.old.terms.items) formula }
        requires next { IsPlace self.old next }
        ensures grows { Grows self.old self.new }
        ensures place { IfOk result (λ n. IsPlace self.new n) }
        ensures chain { IfOk result (λ n. chain self.new.cells n ≡ formula ∷ chain self.old.cells next) }
    {
        self.cells.push(Cell { formula, next })?;
        Ok(self.cells.len())
    }

    /// Puts a sequent with all the stored formulas before the others, which need no cell above the
    /// floor.
    #[inline]
    fn open_task(&mut self, level: u64, floor: usize, task: Task) -> Result<(), OutOfMemory>
        requires ready { IsReady floor self.old }
        requires task { IsBelow (length self.old.cells) task }
        requires served { IsServedTask (length self.old.terms.items) self.old.cells task }
        ensures sound { IsSound self.new }
        ensures stored { self.new.stored ≡ self.old.stored }
        ensures terms { self.new.terms.items ≡ self.old.terms.items }
        ensures cells { self.new.cells ≡ self.old.cells }
        ensures pending { OnOk result (pending_of self.new ≡
            (level, sequent_of self.old.terms.items self.old.stored.items self.old.cells task)
            ∷ pending_of self.old) }
    {
        let stored = self.stored.as_slice().len();
        let terms = self.terms.as_slice().len();
        self.sequents.push(Open {
            level,
            stored,
            terms,
            floor,
            task,
        })
    }

    /// Puts a sequent before the others that works on a formula and then on the list at a place.
    #[inline]
    #[tactic(auto, using(crate::proofs::Sharing::ready_facts))]
    fn open_first(
        &mut self,
        level: u64,
        floor: usize,
        formula: Closure<Given>,
        rest: usize,
    ) -> Result<(), OutOfMemory>
        requires ready { IsReady floor self.old }
        requires served { IsServed (length self.old.terms.items) formula }
        requires rest { IsPlace self.old rest }
        ensures sound { IsSound self.new }
        ensures stored { self.new.stored ≡ self.old.stored }
        ensures terms { self.new.terms.items ≡ self.old.terms.items }
        ensures rest { IsPlace self.new rest }
        ensures chain { chain self.new.cells rest ≡ chain self.old.cells rest }
        ensures pending { OnOk result (pending_of self.new ≡
            (level, up (stored_of self.old) (meant self.old.terms.items formula ∷ worked_at self.old rest))
            ∷ pending_of self.old) }
    {
        let place = self.put_before(formula, rest)?;
        self.open_task(level, floor, Task::Work(place))
    }

    /// Puts a sequent before the others that has a formula under focus.
    #[inline]
    #[tactic(auto, using(crate::proofs::Sharing::ready_facts))]
    fn open_focus(
        &mut self,
        level: u64,
        floor: usize,
        formula: Closure<Given>,
    ) -> Result<(), OutOfMemory>
        requires ready { IsReady floor self.old }
        requires served { IsServed (length self.old.terms.items) formula }
        ensures sound { IsSound self.new }
        ensures stored { self.new.stored ≡ self.old.stored }
        ensures terms { self.new.terms.items ≡ self.old.terms.items }
        ensures pending { OnOk result (pending_of self.new ≡
            (level, down (stored_of self.old) (meant self.old.terms.items formula))
            ∷ pending_of self.old) }
    {
        let place = self.put_before(formula, 0)?;
        self.open_task(level, floor, Task::Focus(place))
    }

    /// Puts a formula behind the stored ones.
    #[inline]
    fn store(&mut self, formula: Closure<Given>, floor: usize) -> Result<(), OutOfMemory>
        requires ready { IsReady floor self.old }
        requires served { IsServed (length self.old.terms.items) formula }
        ensures ready { IsReady floor self.new }
        ensures cells { self.new.cells ≡ self.old.cells }
        ensures terms { self.new.terms.items ≡ self.old.terms.items }
        ensures pending { pending_of self.new ≡ pending_of self.old }
        ensures stored { OnOk result (self.new.stored.items ≡ self.old.stored.items ++ formula ∷ []) }
    {
        self.stored.push(formula)?;
        Ok(())
    }

    /// Puts a term that a step brought into the table, and gives its place.
    fn keep_term(&mut self, t: TermBuf) -> Result<usize, OutOfMemory>
        requires { Each Always Never Always t }
        ensures grows { HasTerms self.old self.new }
        ensures place { IfOk result (λ k. k ≡ length self.old.terms.items) }
        ensures last { OnOk result (self.new.terms.items ≡ self.old.terms.items ++ t ∷ []) }
    {
        let place = self.terms.as_slice().len();
        self.terms.push(t)?;
        Ok(place)
    }

    /// Drops the stored formulas and the terms that neither a sequent nor those behind it need.
    #[inline]
    fn forget(&mut self, sequent: &Open)
        requires { IsTaken sequent.now self.old }
        ensures ready { IsReady sequent.now.floor self.new }
        ensures task { IsBelow (length self.new.cells) sequent.now.task }
        ensures served { IsServedTask (length self.new.terms.items) self.new.cells
            sequent.now.task }
        ensures same { sequent_of self.new.terms.items self.new.stored.items self.new.cells
            sequent.now.task ≡ taken_sequent sequent.now self.old }
        ensures pending { pending_of self.new ≡ pending_of self.old }
    {
        self.stored.truncate(sequent.stored);
        self.terms.truncate(sequent.terms);
    }

    /// Drops the cells that neither the sequents nor the worked list at a place need.
    #[inline]
    fn cut_back(&mut self, floor: usize, rest: usize)
        requires ready { IsReady floor self.old }
        requires rest { IsPlace self.old rest }
        ensures ready { IsReady floor self.new }
        ensures rest { IsPlace self.new rest }
        ensures stored { self.new.stored ≡ self.old.stored }
        ensures terms { self.new.terms ≡ self.old.terms }
        ensures chain { chain self.new.cells rest ≡ chain self.old.cells rest }
        ensures pending { pending_of self.new ≡ pending_of self.old }
        ensures dropped { (n : ℕ) → floor ≤ n → rest ≤ n → length self.new.cells ≤ n }
    {
        self.cells.keep(larger(floor, rest));
    }

    /// The first cell of the worked list at a place.
    #[inline]
    #[tactic(auto, using(crate::proofs::Sharing::ready_facts))]
    fn first_at(&self, place: usize) -> &Cell
        requires down { GoDown self.now.cells }
        requires place { IsPlace self.now place }
        requires first { 0 < place }
        ensures { IsFirst result.now place self.now self.now }
    {
        self.cells.at(place - 1)
    }

    /// Takes the first cell off the worked list at a place; a cell that the other sequents need
    /// stays, and is copied.
    #[inline]
    #[tactic(auto, using(crate::proofs::Sharing::ready_facts))]
    fn take_first(&mut self, floor: usize, place: usize) -> Result<Cell, OutOfMemory>
        requires ready { IsReady floor self.old }
        requires place { IsPlace self.old place }
        requires first { 0 < place }
        ensures ready { IsReady floor self.new }
        ensures stored { self.new.stored ≡ self.old.stored }
        ensures terms { self.new.terms ≡ self.old.terms }
        ensures pending { pending_of self.new ≡ pending_of self.old }
        ensures first { IfOk result (λ c. IsFirst c place self.old self.new) }
    {
        if floor < place {
            Ok(self.cells.take(place - 1))
        } else {
            self.first_at(place).copy()
        }
    }

    /// Takes the first cell off the worked list at a place, and drops the cells that neither the
    /// sequents nor the rest of the list need.
    #[inline]
    #[tactic(auto, using(crate::proofs::Sharing::ready_facts))]
    fn take_up(&mut self, floor: usize, place: usize) -> Result<Cell, OutOfMemory>
        requires ready { IsReady floor self.old }
        requires place { IsPlace self.old place }
        requires first { 0 < place }
        ensures ready { IsReady floor self.new }
        ensures stored { self.new.stored ≡ self.old.stored }
        ensures terms { self.new.terms ≡ self.old.terms }
        ensures pending { pending_of self.new ≡ pending_of self.old }
        ensures first { IfOk result (λ c. IsFirst c place self.old self.new) }
        ensures dropped { IfOk result (λ c. (n : ℕ) → floor ≤ n → c.next ≤ n → length self.new.cells ≤ n) }
    {
        let cell = self.take_first(floor, place)?;
        self.cut_back(floor, cell.next);
        Ok(cell)
    }
}
