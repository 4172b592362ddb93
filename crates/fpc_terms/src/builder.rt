//! Terms that are built from the left, with no recursion.
ghost use Rattle.std.specs.Prelude.{◌≡◌, ℕ, ◌<◌, ◌+◌, ◌++◌, ◌∷◌, [], List, length, drop, IsTrue, IfOk, OnOk, OnErr, IfSome, IfNone, MatchOption, ◌↔◌, Some};
ghost use Rattle.fpc_terms.specs.Term.{Term, eigen, bound, variable, app, no_args, count, cells_of, all_before, cells_before};
ghost use Rattle.fpc_terms.specs.declared.cell.Cell.{Cell};
ghost use Rattle.fpc_terms.specs.declared.cell.Cell.TheVariants.{App};
ghost use Rattle.fpc_terms.specs.Partial.{Frame, Partial, arguments_of, nothing, with_term, opened, closed, innermost, only_term, flat, leaf_term, Is, IsBefore, IsPartial, StandsAt};

use crate::cell::Cell;
use crate::name::NameId;
use crate::term::TermBuf;
use fpc_base::outside::OutOfMemory;
use std::alloc::Global;
use std::marker::Model;

/// The places of open applications, the innermost first.
#[derive(Drop)]
struct Places {
    items: Vec<usize>,
}

impl Model for Places {
    ghost use Rattle.std.specs.Prelude.{ℕ, List, reverse};
    ghost use Rattle.std.specs.Coded.{coded_list, coded_ℕ};

    ghost Value = { List ℕ };

    ghost coded = { coded_list coded_ℕ };

    ghost view = { λ s. reverse s.items.items };
}

impl Places {
    fn new(alloc: Global) -> Places
        ensures { result ≡ [] }
    {
        Places {
            items: Vec::new(alloc),
        }
    }

    fn push(&mut self, place: usize) -> Result<(), OutOfMemory>
        ensures ok { OnOk result (self.new ≡ place ∷ self.old) }
        ensures err { OnErr result (self.new ≡ self.old) }
    {
        self.items.push(place)?;
        Ok(())
    }

    /// Takes the innermost place away, if there is one, and answers whether there was.
    fn pop(&mut self) -> bool
        ensures some { IsTrue result → (place : ℕ) × (self.old ≡ place ∷ self.new) }
        ensures none { ¬ (IsTrue result) → (self.old ≡ []) × (self.new ≡ []) }
    {
        self.items.pop().is_some()
    }

    /// The innermost place.
    fn top(&self) -> Option<usize>
        ensures some { IfSome result (λ place. (rest : List ℕ) × (self.now ≡ place ∷ rest)) }
        ensures none { IfNone result (self.now ≡ []) }
    {
        self.items.last().copied()
    }

    fn clear(&mut self)
        ensures { self.new ≡ [] }
    {
        self.items.clear();
    }
}

/// How many arguments the application at a place has.
fn arguments_at(cells: &[Cell], at: usize) -> u8
    ensures { (front back : List Cell) (f n : ℕ) → StandsAt cells.now at front f n back → result ≡ n }
{
    if at < cells.len() {
        let cell = cells[at];
        if let Cell::App(_, arguments) = cell {
            return arguments;
        }
    }
    0
}

/// How many whole terms stand innermost.
fn innermost(cells: &[Cell], places: &Places, whole: u8) -> u8
    ensures { (base : List Term) (fs : List Frame) → Is cells.now places.now whole base fs → result ≡ innermost base fs }
{
    match places.top() {
        Some(at) => arguments_at(cells, at),
        None => whole,
    }
}

/// Gives an application one more argument.
fn raise_cell(cell: &mut Cell)
    ensures { (f n : ℕ) → n < 255 → cell.old ≡ App f n → cell.new ≡ App f (n + 1) }
{
    if let Cell::App(_, arguments) = cell {
        if *arguments < 255 {
            *arguments += 1;
        }
    }
}

/// Gives the application at a place one more argument.
fn raise(cells: &mut Vec<Cell>, at: usize)
    ensures { (front back : List Cell) (f n : ℕ) → n < 255 → StandsAt cells.old.items at front f n back → cells.new.items ≡ front ++ App f (n + 1) ∷ back }
{
    if at < cells.len() {
        raise_cell(&mut cells[at]);
    }
}

/// Counts one more whole term, whose cells stand at the end.
fn count_term(cells: &mut Vec<Cell>, places: &Places, whole: &mut u8)
    ensures { (t : Term) (base : List Term) (fs : List Frame) → IsBefore t cells.old.items places.now whole.old base fs → IsPartial cells.new.items places.now whole.new (with_term t base fs) }
{
    if let Some(at) = places.top() {
        raise(cells, at);
    } else if *whole < 255 {
        *whole += 1;
    }
}

/// Terms one after another that are built from the left, each cell in constant time. Contracts see the whole terms and
/// the applications that are open.
#[derive(Drop)]
pub struct TermBuilder {
    /// The cells so far. An open application has the number of its arguments so far.
    cells: Vec<Cell>,
    /// Where the open applications stand.
    places: Places,
    /// How many whole terms stand in no application.
    whole: u8,
    /// How many whole terms stand innermost: in the innermost application, or in none.
    innermost: u8,
}

impl Model for TermBuilder {
    ghost use Rattle.fpc_terms.specs.Partial.{Partial, partial_code, partial_of, IsPartial, IsCount};

    ghost Value = { Partial };

    ghost coded = { partial_code };

    ghost view = { λ b. partial_of b.cells.items b.places };

    ghost invariant = { λ b. IsPartial b.cells.items b.places b.whole (partial_of b.cells.items b.places)
        × IsCount b.innermost (partial_of b.cells.items b.places) };
}

impl TermBuilder {
    /// The builder with nothing in it. It takes no memory.
    pub fn new(alloc: Global) -> TermBuilder
        ensures { result ≡ nothing }
    {
        TermBuilder {
            cells: Vec::new(alloc),
            places: Places::new(alloc),
            whole: 0,
            innermost: 0,
        }
    }

    /// Whether one more term can stand innermost: an application has at most 255 arguments, and so have the terms in no
    /// application.
    pub fn has_room(&self) -> bool
        ensures { IsTrue result ↔ innermost self.now.base self.now.frames < 255 }
    {
        self.innermost < 255
    }

    /// Whether no application is open.
    pub fn is_closed(&self) -> bool
        ensures { IsTrue result ↔ (self.now.frames ≡ []) }
    {
        self.places.top().is_none()
    }

    #[inline(always)]
    fn add_leaf(&mut self, cell: Cell) -> Result<bool, OutOfMemory>
        requires { cells_of (leaf_term cell) ≡ cell ∷ [] }
        ensures room { IfOk result (λ done. IsTrue done ↔ innermost self.old.base self.old.frames < 255) }
        ensures done { IfOk result (λ done. IsTrue done → self.new ≡ with_term (leaf_term cell) self.old.base self.old.frames) }
        ensures full { IfOk result (λ done. ¬ (IsTrue done) → self.new ≡ self.old) }
        ensures err { OnErr result (self.new ≡ self.old) }
    {
        if self.innermost >= 255 {
            return Ok(false);
        }
        self.cells.push(cell)?;
        count_term(&mut self.cells, &self.places, &mut self.whole);
        self.innermost += 1;
        Ok(true)
    }

    /// Adds an eigenvariable. Without room nothing changes, and the answer is false.
    pub fn eigen(&mut self, n: u64) -> Result<bool, OutOfMemory>
        ensures room { IfOk result (λ done. IsTrue done ↔ innermost self.old.base self.old.frames < 255) }
        ensures done { IfOk result (λ done. IsTrue done → self.new ≡ with_term (eigen n) self.old.base self.old.frames) }
        ensures full { IfOk result (λ done. ¬ (IsTrue done) → self.new ≡ self.old) }
        ensures err { OnErr result (self.new ≡ self.old) }
    {
        self.add_leaf(Cell::Eigen(n))
    }

    /// Adds a bound index. Without room nothing changes, and the answer is false.
    pub fn bound(&mut self, k: u32) -> Result<bool, OutOfMemory>
        ensures room { IfOk result (λ done. IsTrue done ↔ innermost self.old.base self.old.frames < 255) }
        ensures done { IfOk result (λ done. IsTrue done → self.new ≡ with_term (bound k) self.old.base self.old.frames) }
        ensures full { IfOk result (λ done. ¬ (IsTrue done) → self.new ≡ self.old) }
        ensures err { OnErr result (self.new ≡ self.old) }
    {
        self.add_leaf(Cell::Bound(k))
    }

    /// Adds a variable. Without room nothing changes, and the answer is false.
    pub fn variable(&mut self, v: u64) -> Result<bool, OutOfMemory>
        ensures room { IfOk result (λ done. IsTrue done ↔ innermost self.old.base self.old.frames < 255) }
        ensures done { IfOk result (λ done. IsTrue done → self.new ≡ with_term (variable v) self.old.base self.old.frames) }
        ensures full { IfOk result (λ done. ¬ (IsTrue done) → self.new ≡ self.old) }
        ensures err { OnErr result (self.new ≡ self.old) }
    {
        self.add_leaf(Cell::Var(v))
    }

    /// Adds a name without arguments. Without room nothing changes, and the answer is false.
    pub fn constant(&mut self, name: NameId) -> Result<bool, OutOfMemory>
        ensures room { IfOk result (λ done. IsTrue done ↔ innermost self.old.base self.old.frames < 255) }
        ensures done { IfOk result (λ done. IsTrue done → self.new ≡ with_term (app name no_args) self.old.base self.old.frames) }
        ensures full { IfOk result (λ done. ¬ (IsTrue done) → self.new ≡ self.old) }
        ensures err { OnErr result (self.new ≡ self.old) }
    {
        self.add_leaf(Cell::App(name, 0))
    }

    /// Opens the application of a name; the terms that come next are its arguments. Without room nothing changes, and
    /// the answer is false.
    pub fn open_application(&mut self, name: NameId) -> Result<bool, OutOfMemory>
        ensures room { IfOk result (λ done. IsTrue done ↔ innermost self.old.base self.old.frames < 255) }
        ensures done { IfOk result (λ done. IsTrue done → self.new ≡ opened name self.old.base self.old.frames) }
        ensures full { IfOk result (λ done. ¬ (IsTrue done) → self.new ≡ self.old) }
        ensures err { OnErr result (self.new ≡ self.old) }
    {
        if !self.has_room() {
            return Ok(false);
        }
        let place = self.cells.len();
        self.cells.reserve(1)?;
        self.places.push(place)?;
        self.cells.push(Cell::App(name, 0))?;
        self.innermost = 0;
        Ok(true)
    }

    /// Ends the innermost application. With none open nothing happens.
    pub fn close(&mut self)
        ensures { self.new ≡ closed self.old.base self.old.frames }
    {
        if self.places.pop() {
            count_term(&mut self.cells, &self.places, &mut self.whole);
            self.innermost = innermost(self.cells.as_slice(), &self.places, self.whole);
        }
    }

    /// Takes all out. The memory is kept.
    pub fn clear(&mut self)
        ensures { self.new ≡ nothing }
    {
        self.cells.clear();
        self.places.clear();
        self.whole = 0;
        self.innermost = 0;
    }

    /// How many whole terms stand in no application.
    pub fn count(&self) -> u8
        ensures count { result ≡ length self.now.base }
        ensures arguments { result ≡ count (arguments_of self.now.base) }
    {
        self.whole
    }

    /// The cells so far, in prefix order; an open application has the number of its arguments so far.
    pub fn cells(&self) -> &[Cell]
        ensures cells { result.now ≡ flat self.now.base self.now.frames [] }
        ensures whole { self.now.frames ≡ [] → result.now ≡ all_before (arguments_of self.now.base) [] }
    {
        self.cells.as_slice()
    }

    /// The term, where just one is whole and nothing is open. Time and memory are linear in its size.
    pub fn finish(&self, alloc: Global) -> Result<Option<TermBuf>, OutOfMemory>
        ensures { IfOk result (λ found. found ≡ only_term self.now.base self.now.frames) }
    {
        if self.whole != 1 || !self.is_closed() {
            return Ok(None);
        }
        match TermBuf::from_cells(alloc, self.cells.as_slice()) {
            Ok(term) => Ok(Some(term)),
            Err(error) => Err(error),
        }
    }
}
