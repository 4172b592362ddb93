//! Many bytes of a line in plain form.
ghost use Rattle.std.specs.Prelude.{◌≡◌, ℕ, ◌<◌, ◌≤◌, [], ◌∷◌, List, true, length};
ghost use Rattle.fpc_terms.specs.Name.{Agrees, Grows};
ghost use Rattle.fpc_terms.specs.Adding.{AddsOnly};
ghost use Rattle.fpc_terms.specs.Term.{Term};
ghost use Rattle.polarised_formulas.specs.Adding.{IsPartIn};
ghost use Rattle.polarised_formulas.specs.declared.logic.Logic.{Logic};
ghost use Rattle.polarised_formulas.specs.Formula.{formula_of};
ghost use Rattle.polarised_formulas.specs.Unfinished.{holes_in};
ghost use Rattle.polarised_formulas.specs.declared.plain.reader.PlainReader.{PlainReader};
ghost use Rattle.polarised_formulas.specs.PlainReading.{Around, Reading, at_term, behind_term, whole_formula};
ghost use Rattle.polarised_formulas.specs.PlainStanding.{Stands, IsNext};
ghost use Rattle.polarised_formulas.specs.PlainRuns.{IsRun, IsStop};
ghost use Rattle.polarised_formulas.specs.PlainFronts.{is_unit, IsNameAt};

use crate::formula::Formula;
use crate::node::Node;
use crate::plain::reader::fronts::{name_at, unit_line};
use crate::plain::reader::{Mode, PlainReader, Progress, name_of};
use fpc_base::refusal::TokenRefusal;
use fpc_terms::cell::Cell;
use fpc_terms::names::Names;
use std::alloc::Global;

/// How many bytes were passed, and the answer to the next one; `Going` where there is none.
#[derive(Drop)]
pub struct PlainRun {
    pub passed: usize,
    pub last: Result<Progress, TokenRefusal>,
}

/// The run that ends so.
pub(super) fn stopped(passed: usize, last: Result<Progress, TokenRefusal>) -> PlainRun
    ensures { result ≡ record { passed = passed; last = last } }
{
    PlainRun { passed, last }
}

/// The answer to the end of a line that holds a unit alone.
fn one_unit(alloc: Global, unit: Node) -> Result<Progress, TokenRefusal>
    requires { is_unit unit ≡ true }
    ensures { (logic : Logic) (r : PlainReader) → IsNext logic 0 result r (whole_formula (formula_of (unit ∷ []))) }
{
    let _cell: Option<Cell> = None;
    let mut nodes = Vec::new(alloc);
    match nodes.push(unit) {
        Ok(()) => Ok(Progress::Formula(Formula::from_node_list(nodes))),
        Err(_) => Err(TokenRefusal::OutOfMemory),
    }
}

impl PlainReader {
    /// Takes bytes of the line up to one that ends it or isn't taken, or all of them.
    pub fn bytes(&mut self, names: &mut Names, bytes: &[u8]) -> PlainRun
        ensures grows { Grows names.old names.new }
        ensures only { (number : List ℕ → ℕ) (logic : Logic) (q : Reading) → Agrees number names.new → Stands logic q self.old
            → AddsOnly (IsPartIn self.old.word.items bytes.now) names.old names.new }
        ensures run { (number : List ℕ → ℕ) (logic : Logic) (q : Reading) → Agrees number names.new → Stands logic q self.old
            → IsRun number logic q bytes.now result.passed result.last self.new }
        ensures within { result.passed ≤ length bytes.now }
    {
        if self.mode == Mode::AtFormula && self.formula.depth() == 0 {
            self.begun_line(names, bytes)
        } else {
            self.pieces(names, bytes)
        }
    }

    /// Takes bytes where the outermost formula comes: the line of a unit at once.
    fn begun_line(&mut self, names: &mut Names, bytes: &[u8]) -> PlainRun
        requires mode { self.old.mode ≡ Mode.AtFormula }
        requires alone { length (holes_in self.old.formula) ≡ 0 }
        ensures grows { Grows names.old names.new }
        ensures only { (number : List ℕ → ℕ) (logic : Logic) (q : Reading) → Agrees number names.new → Stands logic q self.old
            → AddsOnly (IsPartIn self.old.word.items bytes.now) names.old names.new }
        ensures run { (number : List ℕ → ℕ) (logic : Logic) (q : Reading) → Agrees number names.new → Stands logic q self.old
            → IsRun number logic q bytes.now result.passed result.last self.new }
        ensures within { result.passed ≤ length bytes.now }
    {
        match unit_line(self.logic, bytes) {
            Some((unit, n)) => stopped(n, one_unit(self.alloc, unit)),
            None => self.pieces(names, bytes),
        }
    }

    /// Takes bytes piece by piece.
    fn pieces(&mut self, names: &mut Names, bytes: &[u8]) -> PlainRun
        ensures grows { Grows names.old names.new }
        ensures only { (number : List ℕ → ℕ) (logic : Logic) (q : Reading) → Agrees number names.new → Stands logic q self.old
            → AddsOnly (IsPartIn self.old.word.items bytes.now) names.old names.new }
        ensures run { (number : List ℕ → ℕ) (logic : Logic) (q : Reading) → Agrees number names.new → Stands logic q self.old
            → IsRun number logic q bytes.now result.passed result.last self.new }
        ensures within { result.passed ≤ length bytes.now }
    {
        let mut passed = 0;
        while passed < bytes.len() {
            let (_, rest) = bytes.split_at(passed);
            let PlainRun { passed: more, last } = self.piece(names, rest);
            match last {
                Ok(Progress::Going) => passed += more + 1,
                Ok(Progress::Term(term)) => {
                    return stopped(passed + more, Ok(Progress::Term(term)));
                }
                Ok(Progress::Formula(formula)) => {
                    return stopped(passed + more, Ok(Progress::Formula(formula)));
                }
                Err(refusal) => return stopped(passed + more, Err(refusal)),
            }
        }
        stopped(passed, Ok(Progress::Going))
    }

    /// Takes the next byte, or what begins with it and lies whole in the bytes.
    fn piece(&mut self, names: &mut Names, bytes: &[u8]) -> PlainRun
        requires { 0 < length bytes.now }
        ensures grows { Grows names.old names.new }
        ensures only { AddsOnly (IsPartIn self.old.word.items bytes.now) names.old names.new }
        ensures stop { (number : List ℕ → ℕ) (logic : Logic) (q : Reading) → Agrees number names.new → Stands logic q self.old
            → IsStop number logic q bytes.now result.passed result.last self.new }
        ensures within { result.passed < length bytes.now }
    {
        let mode = self.mode;
        match mode {
            Mode::AtFormula => self.formula_piece(names, bytes),
            Mode::AtName(positive) => self.marked_piece(names, positive, bytes),
            Mode::BehindFormula => self.behind_piece(bytes),
            Mode::AtTerm => self.term_piece(names, bytes),
            Mode::BehindTerm => self.behind_term_piece(bytes),
            _ => self.one_byte(names, bytes),
        }
    }

    /// Takes the next byte.
    pub(super) fn one_byte(&mut self, names: &mut Names, bytes: &[u8]) -> PlainRun
        requires { 0 < length bytes.now }
        ensures grows { Grows names.old names.new }
        ensures only { AddsOnly (IsPartIn self.old.word.items bytes.now) names.old names.new }
        ensures stop { (number : List ℕ → ℕ) (logic : Logic) (q : Reading) → Agrees number names.new → Stands logic q self.old
            → IsStop number logic q bytes.now result.passed result.last self.new }
        ensures within { result.passed < length bytes.now }
    {
        stopped(0, self.byte(names, bytes[0]))
    }

    /// Takes a name where a term comes, with the byte behind it, or a byte.
    fn term_piece(&mut self, names: &mut Names, bytes: &[u8]) -> PlainRun
        requires mode { self.old.mode ≡ Mode.AtTerm }
        requires some { 0 < length bytes.now }
        ensures grows { Grows names.old names.new }
        ensures only { AddsOnly (IsPartIn self.old.word.items bytes.now) names.old names.new }
        ensures stop { (number : List ℕ → ℕ) (logic : Logic) (up : Around) → Agrees number names.new → Stands logic (at_term up) self.old
            → IsStop number logic (at_term up) bytes.now result.passed result.last self.new }
        ensures within { result.passed < length bytes.now }
    {
        match name_at(bytes) {
            Some(n) => self.named_term(names, n, bytes),
            None => stopped(0, self.at_term(bytes[0])),
        }
    }

    /// Takes the byte behind a term.
    fn behind_term_piece(&mut self, bytes: &[u8]) -> PlainRun
        requires { 0 < length bytes.now }
        ensures stop { (number : List ℕ → ℕ) (logic : Logic) (up : Around) (t : Term) → Stands logic (behind_term up t) self.old
            → IsStop number logic (behind_term up t) bytes.now result.passed result.last self.new }
        ensures within { result.passed < length bytes.now }
    {
        stopped(0, self.behind_term(bytes[0]))
    }

    /// Takes a whole name of so many bytes where a term comes, and the byte behind it.
    fn named_term(&mut self, names: &mut Names, n: usize, bytes: &[u8]) -> PlainRun
        requires mode { self.old.mode ≡ Mode.AtTerm }
        requires name { IsNameAt bytes.now n }
        requires within { n < length bytes.now }
        ensures grows { Grows names.old names.new }
        ensures only { AddsOnly (IsPartIn self.old.word.items bytes.now) names.old names.new }
        ensures stop { (number : List ℕ → ℕ) (logic : Logic) (q : Reading) → Agrees number names.new → Stands logic q self.old
            → IsStop number logic q bytes.now result.passed result.last self.new }
        ensures within { result.passed < length bytes.now }
    {
        let (word, _) = bytes.split_at(n);
        let behind = bytes[n];
        match name_of(names, word) {
            Ok(name) => stopped(n, self.end_named_term(name, behind)),
            Err(refusal) => stopped(n, Err(refusal)),
        }
    }
}
