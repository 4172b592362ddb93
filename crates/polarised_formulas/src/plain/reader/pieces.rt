//! Words, names and connectives of a formula that lie whole in the bytes at hand.
ghost use Rattle.std.specs.Prelude.{◌≡◌, ℕ, ◌<◌, ◌≤◌, ◌-◌, [], List, Bool, Ok, length, slice_index};
ghost use Rattle.fpc_terms.specs.Name.{Agrees, Grows};
ghost use Rattle.fpc_terms.specs.Adding.{AddsOnly};
ghost use Rattle.polarised_formulas.specs.Adding.{IsPartIn};
ghost use Rattle.polarised_formulas.specs.declared.logic.Logic.{Logic};
ghost use Rattle.polarised_formulas.specs.declared.logic.Logic.TheVariants.{Lkf};
ghost use Rattle.polarised_formulas.specs.declared.plain.reader.Progress.TheVariants.{Going};
ghost use Rattle.polarised_formulas.specs.Formula.{Formula};
ghost use Rattle.polarised_formulas.specs.PlainReading.{Hole, Reading, at_formula, at_name, behind_formula};
ghost use Rattle.polarised_formulas.specs.PlainStanding.{Stands, IsLiteral, word_meant, operator_of};
ghost use Rattle.polarised_formulas.specs.PlainRuns.{IsStop};
ghost use Rattle.polarised_formulas.specs.PlainFronts.{IsWordAt, IsLinkAt, IsNameAt, EndsName, IsBehindName};

use crate::connective::Joiner;
use crate::logic::Logic;
use crate::plain::reader::fronts::{link_at, name_at, word_at};
use crate::plain::reader::runs::{PlainRun, stopped};
use crate::plain::reader::words::Word;
use crate::plain::reader::{Mode, PlainReader, Progress, name_of};
use fpc_base::refusal::{Code, TokenRefusal};
use fpc_terms::name::NameId;
use fpc_terms::names::Names;

impl PlainReader {
    /// Takes a word or name where a formula comes, with what stands behind it, or a byte.
    pub(super) fn formula_piece(&mut self, names: &mut Names, bytes: &[u8]) -> PlainRun
        requires { 0 < length bytes.now }
        ensures grows { Grows names.old names.new }
        ensures only { AddsOnly (IsPartIn self.old.word.items bytes.now) names.old names.new }
        ensures stop { (number : List ℕ → ℕ) (logic : Logic) (hs : List Hole) → Agrees number names.new → Stands logic (at_formula hs) self.old
            → IsStop number logic (at_formula hs) bytes.now result.passed result.last self.new }
        ensures within { result.passed < length bytes.now }
    {
        if self.formula.depth() >= 10_000 {
            return self.one_byte(names, bytes);
        }
        match word_at(self.logic, bytes) {
            Some((word, n)) => self.word_piece(word, n, bytes),
            None => self.name_piece(names, bytes),
        }
    }

    /// Takes a whole word of so many bytes, and what stands behind a unit.
    fn word_piece(&mut self, word: Word, n: usize, bytes: &[u8]) -> PlainRun
        requires word { IsWordAt self.old.logic bytes.now (word_meant word) n }
        requires some { 0 < n }
        requires within { n ≤ length bytes.now }
        ensures stop { (number : List ℕ → ℕ) (logic : Logic) (hs : List Hole) → length hs < 10000 → Stands logic (at_formula hs) self.old
            → IsStop number logic (at_formula hs) bytes.now result.passed result.last self.new }
        ensures within { result.passed < length bytes.now }
    {
        if let Err(refusal) = self.end_word(word) {
            return stopped(n - 1, Err(refusal));
        }
        self.behind_word(n, bytes)
    }

    /// Takes what stands behind a word of so many bytes, where it is a unit.
    #[inline(always)]
    fn behind_word(&mut self, n: usize, bytes: &[u8]) -> PlainRun
        requires some { 0 < n }
        requires within { n ≤ length bytes.now }
        ensures stop { (number : List ℕ → ℕ) (logic : Logic) (q : Reading) → IsStop number logic q bytes.now (n - 1) (Ok Going) self.old
            → IsStop number logic q bytes.now result.passed result.last self.new }
        ensures within { result.passed < length bytes.now }
    {
        if self.mode == Mode::BehindFormula && n < bytes.len() {
            self.behind_unit(n, bytes)
        } else {
            stopped(n - 1, Ok(Progress::Going))
        }
    }

    /// Takes what stands behind a unit of so many bytes.
    #[inline(always)]
    fn behind_unit(&mut self, n: usize, bytes: &[u8]) -> PlainRun
        requires mode { self.old.mode ≡ Mode.BehindFormula }
        requires some { 0 < n }
        requires within { n < length bytes.now }
        ensures stop { (number : List ℕ → ℕ) (logic : Logic) (q : Reading) → IsStop number logic q bytes.now (n - 1) (Ok Going) self.old
            → IsStop number logic q bytes.now result.passed result.last self.new }
        ensures within { result.passed < length bytes.now }
    {
        let (_, rest) = bytes.split_at(n);
        let PlainRun { passed, last } = self.behind_piece(rest);
        stopped(n + passed, last)
    }

    /// Takes a name without a mark, with what stands behind it, or a byte.
    fn name_piece(&mut self, names: &mut Names, bytes: &[u8]) -> PlainRun
        requires { 0 < length bytes.now }
        ensures grows { Grows names.old names.new }
        ensures only { AddsOnly (IsPartIn self.old.word.items bytes.now) names.old names.new }
        ensures stop { (number : List ℕ → ℕ) (logic : Logic) (hs : List Hole) → length hs < 10000 → Agrees number names.new → Stands logic (at_formula hs) self.old
            → IsStop number logic (at_formula hs) bytes.now result.passed result.last self.new }
        ensures within { result.passed < length bytes.now }
    {
        let logic = self.logic;
        match logic {
            Logic::Lkf => self.bare_piece(names, bytes),
            Logic::Ljf => self.formula_byte(bytes),
        }
    }

    /// Takes a name of LKF, with what stands behind it, or a byte.
    fn bare_piece(&mut self, names: &mut Names, bytes: &[u8]) -> PlainRun
        requires { 0 < length bytes.now }
        ensures grows { Grows names.old names.new }
        ensures only { AddsOnly (IsPartIn self.old.word.items bytes.now) names.old names.new }
        ensures stop { (number : List ℕ → ℕ) (hs : List Hole) → length hs < 10000 → Agrees number names.new → Stands Lkf (at_formula hs) self.old
            → IsStop number Lkf (at_formula hs) bytes.now result.passed result.last self.new }
        ensures within { result.passed < length bytes.now }
    {
        match name_at(bytes) {
            Some(n) => self.literal_piece(names, true, n, bytes),
            None => self.formula_byte(bytes),
        }
    }

    /// Takes a byte where a formula comes.
    fn formula_byte(&mut self, bytes: &[u8]) -> PlainRun
        requires { 0 < length bytes.now }
        ensures stop { (number : List ℕ → ℕ) (logic : Logic) (hs : List Hole) → Stands logic (at_formula hs) self.old
            → IsStop number logic (at_formula hs) bytes.now result.passed result.last self.new }
        ensures within { result.passed < length bytes.now }
    {
        stopped(0, self.at_formula(bytes[0]))
    }

    /// Takes a name behind the mark of a literal, with what stands behind it, or a byte.
    pub(super) fn marked_piece(
        &mut self,
        names: &mut Names,
        positive: bool,
        bytes: &[u8],
    ) -> PlainRun
        requires { 0 < length bytes.now }
        ensures grows { Grows names.old names.new }
        ensures only { AddsOnly (IsPartIn self.old.word.items bytes.now) names.old names.new }
        ensures stop { (number : List ℕ → ℕ) (logic : Logic) (hs : List Hole) → Agrees number names.new → Stands logic (at_name hs positive) self.old
            → IsStop number logic (at_name hs positive) bytes.now result.passed result.last self.new }
        ensures within { result.passed < length bytes.now }
    {
        match name_at(bytes) {
            Some(n) => self.literal_piece(names, positive, n, bytes),
            None => self.one_byte(names, bytes),
        }
    }

    /// Takes the whole name of a literal, of so many bytes, with what stands behind it, or a byte.
    #[inline(always)]
    fn literal_piece(
        &mut self,
        names: &mut Names,
        positive: bool,
        n: usize,
        bytes: &[u8],
    ) -> PlainRun
        requires name { IsNameAt bytes.now n }
        requires within { n < length bytes.now }
        ensures grows { Grows names.old names.new }
        ensures only { AddsOnly (IsPartIn self.old.word.items bytes.now) names.old names.new }
        ensures stop { (number : List ℕ → ℕ) (logic : Logic) (hs : List Hole) (q : Reading) → Agrees number names.new → Stands logic q self.old
            → IsLiteral logic hs [] self.old → EndsName number logic hs positive bytes.now n q → IsStop number logic q bytes.now result.passed result.last self.new }
        ensures within { result.passed < length bytes.now }
    {
        let (word, rest) = bytes.split_at(n);
        match name_of(names, word) {
            Ok(name) => {
                let PlainRun { passed, last } = self.behind_name(positive, name, rest);
                stopped(n + passed, last)
            }
            Err(_) => self.one_byte(names, bytes),
        }
    }

    /// Takes what stands behind the name of a literal.
    #[inline(always)]
    fn behind_name(&mut self, positive: bool, name: NameId, bytes: &[u8]) -> PlainRun
        requires { 0 < length bytes.now }
        ensures stop { (number : List ℕ → ℕ) (logic : Logic) (hs : List Hole) (q : Reading) → IsLiteral logic hs [] self.old
            → IsBehindName number logic hs positive name (slice_index bytes.now 0) q → IsStop number logic q bytes.now result.passed result.last self.new }
        ensures within { result.passed < length bytes.now }
    {
        if bytes[0] == b'(' {
            return stopped(0, self.end_named_literal(positive, name, bytes[0]));
        }
        match self.add_literal(positive, name) {
            Ok(()) => self.behind_piece(bytes),
            Err(refusal) => stopped(0, Err(refusal)),
        }
    }

    /// Takes a connective behind a formula, with its blanks, or a byte.
    #[inline(always)]
    pub(super) fn behind_piece(&mut self, bytes: &[u8]) -> PlainRun
        requires { 0 < length bytes.now }
        ensures stop { (number : List ℕ → ℕ) (logic : Logic) (hs : List Hole) (f : Formula) → Stands logic (behind_formula hs f) self.old
            → IsStop number logic (behind_formula hs f) bytes.now result.passed result.last self.new }
        ensures within { result.passed < length bytes.now }
    {
        match link_at(self.logic, bytes) {
            Some((joiner, n)) => self.link_piece(joiner, n),
            None => stopped(0, self.behind_formula(bytes[0])),
        }
    }

    /// Takes a whole connective of so many bytes, with its blanks.
    fn link_piece(&mut self, joiner: Joiner, n: usize) -> PlainRun
        requires { 0 < n }
        ensures stop { (number : List ℕ → ℕ) (logic : Logic) (hs : List Hole) (f : Formula) (bytes : List ℕ) → IsLinkAt logic bytes (operator_of joiner) n
            → Stands logic (behind_formula hs f) self.old → IsStop number logic (behind_formula hs f) bytes result.passed result.last self.new }
        ensures within { result.passed < n }
    {
        if self.formula.operator(joiner) {
            self.mode = Mode::AtFormula;
            stopped(n - 1, Ok(Progress::Going))
        } else {
            stopped(0, Err(TokenRefusal::Refused(Code::Unexpected)))
        }
    }
}
