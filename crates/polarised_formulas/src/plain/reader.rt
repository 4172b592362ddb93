//! A term or a formula in plain form that is read byte by byte.
ghost use Rattle.std.specs.Prelude.{◌≡◌, ℕ, suc, ◌∷◌, ◌++◌, [], List, Bool, true, Some, Ok, Err, OnOk, ◌≤◌, length, nat_eq, nat_lt, if◌then◌else◌};
ghost use Rattle.fpc_base.specs.declared.refusal.Code.TheVariants.{LongName};
ghost use Rattle.fpc_base.specs.declared.refusal.TokenRefusal.TheVariants.{Refused};
ghost use Rattle.fpc_terms.specs.Name.{Agrees, Grows, IsNameBegun, is_name_byte};
ghost use Rattle.fpc_terms.specs.Adding.{AddsOnly, IsText};
ghost use Rattle.fpc_terms.specs.Term.{Term, no_args};
ghost use Rattle.polarised_formulas.specs.declared.logic.Logic.{Logic};
ghost use Rattle.polarised_formulas.specs.declared.logic.Logic.TheVariants.{Lkf, Ljf};
ghost use Rattle.polarised_formulas.specs.Formula.{Formula, atom};
ghost use Rattle.polarised_formulas.specs.Unfinished.{wants, has};
ghost use Rattle.polarised_formulas.specs.PlainReading.{Hole, Around, alone, in_atom, Reading, at_formula, in_word, at_name, in_name, behind_formula, in_operator, at_term, in_function, on, first_of, second_of, next, end_formula, end_name, after_word, args_onto, is_keyword};
ghost use Rattle.polarised_formulas.specs.PlainLimits.{nesting};
ghost use Rattle.polarised_formulas.specs.PlainStanding.{Stands, IsOutside, IsLiteral, IsNext, IsOn, IsNamed, begun, BeginsWord, word_meant, operator_of, built_holes, told_of, next_unnamed};

mod fronts;
mod pieces;
pub mod runs;
mod terms;
mod words;

use crate::builder::FormulaBuilder;
use crate::connective::{Binder, Joiner};
use crate::formula::Formula;
use crate::logic::Logic;
use crate::plain::reader::words::{
    Word, begins_operator, begins_with, begins_word, is_name_byte, is_small_letter, operator_with,
    word_with,
};
use fpc_base::outside::OutOfMemory;
use fpc_base::refusal::{Code, TokenRefusal};
use fpc_terms::builder::TermBuilder;
use fpc_terms::name::{NameId, is_name};
use fpc_terms::names::Names;
use fpc_terms::term::TermBuf;
use std::alloc::Global;

/// What a byte did.
#[derive(Drop)]
pub enum Progress {
    /// The line goes on.
    Going,
    /// The byte ended the line, which holds this term.
    Term(TermBuf),
    /// The byte ended the line, which holds this formula.
    Formula(Formula),
}

/// What comes next.
#[derive(Clone, Copy, PartialEq, Eq, Debug)]
enum Mode {
    /// A formula.
    AtFormula,
    /// More of a word or, in LKF, of the name of an atom.
    InWord,
    /// The name of an atom, positive or not.
    AtName(bool),
    InName(bool),
    BehindFormula,
    /// More of a connective.
    InOperator,
    /// A term.
    AtTerm,
    InFunction,
    /// The number of an eigenvariable.
    AtEigen,
    InEigen(u32),
    /// A bound index.
    AtIndex,
    InIndex(u32),
    BehindTerm,
}

/// What the terms that are read belong to.
#[derive(Clone, Copy, PartialEq, Eq, Debug)]
enum Outside {
    /// Nothing: they are one term by itself, or none are read.
    Nothing,
    /// A literal, positive or not, whose name this is.
    Literal(bool, NameId),
}

/// How a formula begins.
#[derive(Clone, Copy, PartialEq, Eq, Debug)]
enum Beginning {
    Pair,
    /// The mark of a literal, positive or not.
    Mark(bool),
    /// The first letter of a word or name.
    Letter,
}

/// A term or a formula in plain form that is read byte by byte, or in larger parts where they lie
/// whole in the bytes at hand. Each byte takes constant time, averaged over the line, but for the
/// look-up of a name at its end; the byte that ends the line of a term takes time linear in it.
/// Memory is linear in the longest line so far. Behind an error, or a line that has ended, nothing is
/// said of a byte until the next line begins.
#[derive(Drop)]
pub struct PlainReader {
    alloc: Global,
    logic: Logic,
    mode: Mode,
    /// The bytes of the word or name in progress.
    word: Vec<u8>,
    outside: Outside,
    /// The term by itself, or the arguments of the literal.
    terms: TermBuilder,
    formula: FormulaBuilder,
}

/// The number of a name that was read. Time is logarithmic in the number of names.
fn name_of(names: &mut Names, word: &[u8]) -> Result<NameId, TokenRefusal>
    ensures grows { Grows names.old names.new }
    ensures only { AddsOnly (IsText word.now) names.old names.new }
    ensures name { (number : List ℕ → ℕ) → Agrees number names.new → IsNameBegun word.now → IsNamed number (is_keyword word.now) word.now result }
{
    if !is_name(word) {
        return Err(TokenRefusal::Refused(Code::Unexpected));
    }
    match names.intern(word) {
        Ok(name) => Ok(name),
        Err(_) => Err(TokenRefusal::OutOfMemory),
    }
}

#[tactic(auto, using(crate::proofs::Answering::answering))]
impl PlainReader {
    /// The reader of a formula of the logic, which is to come. It takes no memory.
    pub fn new(alloc: Global, logic: Logic) -> PlainReader
        ensures { Stands logic (at_formula []) result }
    {
        PlainReader {
            alloc,
            logic,
            mode: Mode::AtFormula,
            word: Vec::new(alloc),
            outside: Outside::Nothing,
            terms: TermBuilder::new(alloc),
            formula: FormulaBuilder::new(alloc),
        }
    }

    /// Begins the line of a term of the logic.
    pub fn begin_term(&mut self, logic: Logic)
        ensures { Stands logic (at_term alone) self.new }
    {
        self.logic = logic;
        self.clear();
        self.mode = Mode::AtTerm;
    }

    /// Begins the line of a formula of the logic.
    pub fn begin_formula(&mut self, logic: Logic)
        ensures { Stands logic (at_formula []) self.new }
    {
        self.logic = logic;
        self.clear();
        self.mode = Mode::AtFormula;
    }

    /// Takes all out. The memory is kept.
    fn clear(&mut self)
        ensures word { self.new.word.items ≡ [] }
        ensures parts { IsOutside self.old.logic (wants []) self.new }
    {
        self.word.clear();
        self.outside = Outside::Nothing;
        self.terms.clear();
        self.formula.clear();
    }

    /// Takes the next byte of the line. What the numbering says of the names of the table decides what a name means.
    pub fn byte(&mut self, names: &mut Names, b: u8) -> Result<Progress, TokenRefusal>
        ensures grows { Grows names.old names.new }
        ensures only { AddsOnly (IsText self.old.word.items) names.old names.new }
        ensures next { (number : List ℕ → ℕ) (logic : Logic) (q : Reading) → Agrees number names.new → Stands logic q self.old
            → IsNext logic (nesting q) result self.new (next number logic q b) }
    {
        let mode = self.mode;
        match mode {
            Mode::AtFormula => self.at_formula(b),
            Mode::InWord => self.in_word(names, b),
            Mode::AtName(positive) => self.at_name(positive, b),
            Mode::InName(positive) => self.in_name(names, positive, b),
            Mode::BehindFormula => self.behind_formula(b),
            Mode::InOperator => self.in_operator(b),
            Mode::AtTerm => self.at_term(b),
            Mode::InFunction => self.in_function(names, b),
            Mode::AtEigen => self.at_eigen(b),
            Mode::InEigen(number) => self.in_eigen(number, b),
            Mode::AtIndex => self.at_index(b),
            Mode::InIndex(number) => self.in_index(number, b),
            Mode::BehindTerm => self.behind_term(b),
        }
    }

    fn at_formula(&mut self, b: u8) -> Result<Progress, TokenRefusal>
        ensures { (logic : Logic) (hs : List Hole) → Stands logic (at_formula hs) self.old
            → IsNext logic (suc (length hs)) result self.new (next_unnamed logic (at_formula hs) b) }
    {
        match begins_with(self.logic, b) {
            Some(beginning) => self.begin_part(beginning, b),
            None => Err(TokenRefusal::Refused(Code::Unexpected)),
        }
    }

    /// Begins a formula, where it is not too deep.
    fn begin_part(&mut self, beginning: Beginning, b: u8) -> Result<Progress, TokenRefusal>
        ensures { (logic : Logic) (hs : List Hole) → Stands logic (at_formula hs) self.old → BeginsWord logic b beginning
            → IsNext logic (suc (length hs)) result self.new (begun hs b (Some beginning)) }
    {
        if self.formula.depth() >= 10_000 {
            Err(TokenRefusal::Refused(Code::TooDeep))
        } else {
            self.begin_shallow_part(beginning, b)
        }
    }

    /// Begins a formula that is not too deep.
    fn begin_shallow_part(&mut self, beginning: Beginning, b: u8) -> Result<Progress, TokenRefusal>
        ensures { (logic : Logic) (hs : List Hole) (n : ℕ) → Stands logic (at_formula hs) self.old → n ≤ 10000 → BeginsWord logic b beginning
            → IsNext logic n result self.new (begun hs b (Some beginning)) }
    {
        match beginning {
            Beginning::Pair => went_on(self.formula.open_pair()),
            Beginning::Mark(positive) => {
                self.mode = Mode::AtName(positive);
                Ok(Progress::Going)
            }
            Beginning::Letter => {
                push(&mut self.word, b)?;
                self.mode = Mode::InWord;
                Ok(Progress::Going)
            }
        }
    }

    fn in_word(&mut self, names: &mut Names, b: u8) -> Result<Progress, TokenRefusal>
        ensures grows { Grows names.old names.new }
        ensures only { AddsOnly (IsText self.old.word.items) names.old names.new }
        ensures next { (number : List ℕ → ℕ) (logic : Logic) (hs : List Hole) (w : List ℕ) → Agrees number names.new → Stands logic (in_word hs w) self.old
            → IsNext logic 0 result self.new (next number logic (in_word hs w) b) }
    {
        let logic = self.logic;
        match logic {
            Logic::Lkf => self.in_lkf_word(names, b),
            Logic::Ljf => self.in_ljf_word(b),
        }
    }

    fn in_lkf_word(&mut self, names: &mut Names, b: u8) -> Result<Progress, TokenRefusal>
        ensures grows { Grows names.old names.new }
        ensures only { AddsOnly (IsText self.old.word.items) names.old names.new }
        ensures next { (number : List ℕ → ℕ) (hs : List Hole) (w : List ℕ) → Agrees number names.new → Stands Lkf (in_word hs w) self.old
            → IsNext Lkf 0 result self.new (next number Lkf (in_word hs w) b) }
    {
        if is_name_byte(b) {
            return self.lengthen(b);
        }
        push(&mut self.word, b)?;
        match word_with(Logic::Lkf, self.word.as_slice()) {
            Some(word) => self.end_word(word),
            None => {
                self.word.pop();
                self.mode = Mode::InName(true);
                self.end_name(names, true, b)
            }
        }
    }

    fn in_ljf_word(&mut self, b: u8) -> Result<Progress, TokenRefusal>
        ensures { (hs : List Hole) (w : List ℕ) → Stands Ljf (in_word hs w) self.old
            → IsNext Ljf 0 result self.new (next_unnamed Ljf (in_word hs w) b) }
    {
        push(&mut self.word, b)?;
        if let Some(word) = word_with(Logic::Ljf, self.word.as_slice()) {
            return self.end_word(word);
        }
        if !begins_word(self.word.as_slice()) {
            return Err(TokenRefusal::Refused(Code::Unexpected));
        }
        self.keep_word()
    }

    /// Goes on with the word or name in progress, where it is not too long.
    fn keep_word(&self) -> Result<Progress, TokenRefusal>
        ensures { result ≡ (if nat_lt 255 (length self.now.word.items) then Err (Refused LongName) else Ok Progress.Going) }
    {
        if self.word.len() > 255 {
            Err(TokenRefusal::Refused(Code::LongName))
        } else {
            Ok(Progress::Going)
        }
    }

    /// Takes one more byte of a name.
    fn lengthen(&mut self, b: u8) -> Result<Progress, TokenRefusal>
        ensures word { (hs : List Hole) (w : List ℕ) → Stands Lkf (in_word hs w) self.old → is_name_byte b ≡ true → IsNext Lkf 0 result self.new (on (in_word hs (w ++ b ∷ []))) }
        ensures name { (logic : Logic) (hs : List Hole) (positive : Bool) (w : List ℕ) → Stands logic (in_name hs positive w) self.old → is_name_byte b ≡ true
            → IsNext logic 0 result self.new (on (in_name hs positive (w ++ b ∷ []))) }
        ensures function { (logic : Logic) (up : Around) (w : List ℕ) → Stands logic (in_function up w) self.old → is_name_byte b ≡ true
            → IsNext logic 0 result self.new (on (in_function up (w ++ b ∷ []))) }
    {
        push(&mut self.word, b)?;
        self.keep_word()
    }

    /// Takes a word that is whole.
    fn end_word(&mut self, word: Word) -> Result<Progress, TokenRefusal>
        ensures { (logic : Logic) (hs : List Hole) → IsOutside logic (wants (built_holes hs)) self.old → IsNext logic 0 result self.new (after_word hs (word_meant word)) }
    {
        self.word.clear();
        match word {
            Word::True(polarity) => {
                self.mode = Mode::BehindFormula;
                went_on(self.formula.truth(polarity))
            }
            Word::False(polarity) => {
                self.mode = Mode::BehindFormula;
                went_on(self.formula.falsity(polarity))
            }
            Word::All => {
                self.mode = Mode::AtFormula;
                went_on(self.formula.quantifier(Binder::ForAll))
            }
            Word::Some => {
                self.mode = Mode::AtFormula;
                went_on(self.formula.quantifier(Binder::Exists))
            }
        }
    }

    fn at_name(&mut self, positive: bool, b: u8) -> Result<Progress, TokenRefusal>
        ensures { (logic : Logic) (hs : List Hole) → Stands logic (at_name hs positive) self.old
            → IsNext logic 0 result self.new (next_unnamed logic (at_name hs positive) b) }
    {
        if !is_small_letter(b) {
            return Err(TokenRefusal::Refused(Code::Unexpected));
        }
        push(&mut self.word, b)?;
        self.mode = Mode::InName(positive);
        Ok(Progress::Going)
    }

    fn in_name(
        &mut self,
        names: &mut Names,
        positive: bool,
        b: u8,
    ) -> Result<Progress, TokenRefusal>
        ensures grows { Grows names.old names.new }
        ensures only { AddsOnly (IsText self.old.word.items) names.old names.new }
        ensures next { (number : List ℕ → ℕ) (logic : Logic) (hs : List Hole) (w : List ℕ) → Agrees number names.new → Stands logic (in_name hs positive w) self.old
            → IsNext logic 0 result self.new (next number logic (in_name hs positive w) b) }
    {
        if is_name_byte(b) {
            self.lengthen(b)
        } else {
            self.end_name(names, positive, b)
        }
    }

    /// Takes the byte behind the name of a literal.
    fn end_name(
        &mut self,
        names: &mut Names,
        positive: bool,
        b: u8,
    ) -> Result<Progress, TokenRefusal>
        ensures grows { Grows names.old names.new }
        ensures only { AddsOnly (IsText self.old.word.items) names.old names.new }
        ensures next { (number : List ℕ → ℕ) (logic : Logic) (hs : List Hole) (w : List ℕ) → Agrees number names.new → Stands logic (in_name hs positive w) self.old
            → IsNext logic 0 result self.new (end_name number hs positive w b) }
    {
        match name_of(names, self.word.as_slice()) {
            Ok(name) => {
                self.word.clear();
                self.end_named_literal(positive, name, b)
            }
            Err(refusal) => Err(refusal),
        }
    }

    /// Takes the byte behind a literal so far.
    fn end_named_literal(
        &mut self,
        positive: bool,
        name: NameId,
        b: u8,
    ) -> Result<Progress, TokenRefusal>
        ensures { (logic : Logic) (hs : List Hole) → IsLiteral logic hs [] self.old
            → IsNext logic 0 result self.new (if nat_eq b 40 then on (at_term (in_atom hs positive name [])) else end_formula hs (atom positive name no_args) b) }
    {
        if b == b'(' {
            self.outside = Outside::Literal(positive, name);
            self.mode = Mode::AtTerm;
            return Ok(Progress::Going);
        }
        match self.add_literal(positive, name) {
            Ok(()) => self.behind_formula(b),
            Err(refusal) => Err(refusal),
        }
    }

    /// Adds a literal with the terms that were read.
    fn add_literal(&mut self, positive: bool, name: NameId) -> Result<(), TokenRefusal>
        ensures { (logic : Logic) (hs : List Hole) (ts : List Term) → IsLiteral logic hs ts self.old
            → IsOn logic (behind_formula hs (atom positive name (args_onto ts no_args))) result self.new }
    {
        match self.formula.literal(positive, name, &self.terms) {
            Ok(true) => {
                self.terms.clear();
                self.outside = Outside::Nothing;
                self.mode = Mode::BehindFormula;
                Ok(())
            }
            Ok(false) => Err(TokenRefusal::Refused(Code::Unexpected)),
            Err(_) => Err(TokenRefusal::OutOfMemory),
        }
    }

    #[inline(always)]
    fn behind_formula(&mut self, b: u8) -> Result<Progress, TokenRefusal>
        ensures { (logic : Logic) (hs : List Hole) (f : Formula) → Stands logic (behind_formula hs f) self.old → IsNext logic 0 result self.new (end_formula hs f b) }
    {
        match b {
            b' ' => self.end_first_part(),
            b')' => self.end_pair(),
            b'\n' => self.end_formula(),
            _ => Err(TokenRefusal::Refused(Code::Unexpected)),
        }
    }

    /// Takes the blank behind the first part of a pair.
    fn end_first_part(&mut self) -> Result<Progress, TokenRefusal>
        ensures { (logic : Logic) (hs : List Hole) (f : Formula) → Stands logic (behind_formula hs f) self.old → IsNext logic 0 result self.new (end_formula hs f 32) }
    {
        if self.formula.close() {
            return Err(TokenRefusal::Refused(Code::Unexpected));
        }
        if self.formula.depth() == 0 {
            return Err(TokenRefusal::Refused(Code::Unexpected));
        }
        self.mode = Mode::InOperator;
        Ok(Progress::Going)
    }

    /// Takes the parenthesis behind the second part of a pair.
    fn end_pair(&mut self) -> Result<Progress, TokenRefusal>
        ensures { (logic : Logic) (hs : List Hole) (f : Formula) → Stands logic (behind_formula hs f) self.old → IsNext logic 0 result self.new (end_formula hs f 41) }
    {
        if self.formula.close() {
            Ok(Progress::Going)
        } else {
            Err(TokenRefusal::Refused(Code::Unexpected))
        }
    }

    /// Takes the end of the line behind a whole formula.
    #[inline(always)]
    fn end_formula(&mut self) -> Result<Progress, TokenRefusal>
        ensures { (logic : Logic) (hs : List Hole) (f : Formula) → Stands logic (behind_formula hs f) self.old → IsNext logic 0 result self.new (end_formula hs f 10) }
    {
        match self.formula.take(self.alloc) {
            Some(formula) => Ok(Progress::Formula(formula)),
            None => Err(TokenRefusal::Refused(Code::Unexpected)),
        }
    }

    fn in_operator(&mut self, b: u8) -> Result<Progress, TokenRefusal>
        ensures { (logic : Logic) (hs : List Hole) (a : Formula) (w : List ℕ) → Stands logic (in_operator hs a w) self.old
            → IsNext logic 0 result self.new (next_unnamed logic (in_operator hs a w) b) }
    {
        push(&mut self.word, b)?;
        if let Some(joiner) = operator_with(self.logic, self.word.as_slice()) {
            return self.end_operator(joiner);
        }
        if begins_operator(self.logic, self.word.as_slice()) {
            Ok(Progress::Going)
        } else {
            Err(TokenRefusal::Refused(Code::Unexpected))
        }
    }

    /// Takes a connective that is whole.
    fn end_operator(&mut self, joiner: Joiner) -> Result<Progress, TokenRefusal>
        ensures { (logic : Logic) (hs : List Hole) (a : Formula) → IsOutside logic (has a (built_holes (first_of ∷ hs))) self.old
            → IsNext logic 0 result self.new (on (at_formula (second_of (operator_of joiner) a ∷ hs))) }
    {
        self.word.clear();
        self.mode = Mode::AtFormula;
        if self.formula.operator(joiner) {
            Ok(Progress::Going)
        } else {
            Err(TokenRefusal::Refused(Code::Unexpected))
        }
    }
}

/// Adds a byte to a word.
fn push(word: &mut Vec<u8>, b: u8) -> Result<(), OutOfMemory>
    ensures { OnOk result (word.new.items ≡ word.old.items ++ b ∷ []) }
{
    word.push(b)?;
    Ok(())
}

/// Tells that a part was added.
fn went_on(added: Result<bool, OutOfMemory>) -> Result<Progress, TokenRefusal>
    ensures { result ≡ told_of added }
{
    match added {
        Ok(true) => Ok(Progress::Going),
        Ok(false) => Err(TokenRefusal::Refused(Code::Unexpected)),
        Err(_) => Err(TokenRefusal::OutOfMemory),
    }
}
