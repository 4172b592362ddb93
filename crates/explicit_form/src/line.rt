//! A line of a certificate that is read byte by byte.
ghost use Rattle.std.specs.Prelude.{◌≡◌, ℕ, ◌∷◌, ◌++◌, [], List, Some, None, IfSome, OnOk, IsTrue};
ghost use Rattle.fpc_terms.specs.Name.{Agrees, Grows};
ghost use Rattle.fpc_terms.specs.Adding.{AddsOnly, IsText};
ghost use Rattle.polarised_formulas.specs.declared.logic.Logic.{Logic};
ghost use Rattle.polarised_formulas.specs.PlainReading.{Reading};
ghost use Rattle.polarised_formulas.specs.declared.step.Step.{Step};
ghost use Rattle.explicit_form.specs.StepReading.{Line, in_word, at_place, in_place, in_plain, next, behind_word, placed_step, bare_step, in_line, use_of, with_term, with_formula};
ghost use Rattle.explicit_form.specs.LineStanding.{Stands, IsNext, IsPlainWord, next_unnamed, plain_start, stepped};
ghost use Rattle.explicit_form.specs.Fronts.{IsLineBegin};
ghost use Rattle.explicit_form.specs.LineRuns.{answer_in};

use crate::word::{Placed, Word, Written, bare_step, placed_step};
use crate::words::{begins_word, word_with};
use fpc_base::outside::OutOfMemory;
use fpc_base::refusal::{Code, TokenRefusal};
use fpc_terms::names::Names;
use fpc_terms::term::TermBuf;
use polarised_formulas::formula::Formula;
use polarised_formulas::logic::Logic;
use polarised_formulas::plain::digits::{is_digit, with_digit};
use polarised_formulas::step::Step;
use polarised_formulas::{PlainReader, Progress};
use std::alloc::Global;

/// What a byte did.
#[derive(Drop)]
pub(crate) enum Taken {
    /// The line goes on.
    Going,
    /// The byte ended the line of this step.
    Whole(Step),
    /// The byte ended the last line.
    Last,
}

/// What comes next.
#[derive(Clone, Copy, PartialEq, Eq, Debug)]
enum Mode {
    /// More of a word.
    InWord,
    /// The place behind a word.
    AtPlace(Placed),
    InPlace(Placed, u32),
    /// More of a term or a formula behind a word.
    InPlain(Written),
}

/// A line that is read byte by byte. Behind an error, or a line that has ended, nothing is said until the next line begins.
#[derive(Drop)]
pub(crate) struct LineReader {
    alloc: Global,
    pub(crate) logic: Logic,
    mode: Mode,
    /// The bytes of the word in progress.
    pub(crate) word: Vec<u8>,
    pub(crate) plain: PlainReader,
}

impl LineReader {
    /// The reader of a line that is to come. It takes no memory.
    pub(crate) fn new(alloc: Global, logic: Logic) -> LineReader
        ensures { Stands logic (in_word []) result }
    {
        LineReader {
            alloc,
            logic,
            mode: Mode::InWord,
            word: Vec::new(alloc),
            plain: PlainReader::new(alloc, logic),
        }
    }

    /// Begins the next line.
    pub(crate) fn begin(&mut self)
        ensures { Stands self.old.logic (in_word []) self.new }
    {
        self.word.clear();
        self.mode = Mode::InWord;
    }

    /// Whether no byte of the line was taken.
    #[inline(always)]
    pub(crate) fn is_at_begin(&self) -> bool
        ensures { IsTrue result → IsLineBegin self.now }
    {
        self.mode == Mode::InWord && self.word.is_empty()
    }

    /// The word behind which more of a term or a formula comes, if any.
    pub(crate) fn written(&self) -> Option<Written>
        ensures { IfSome result (λ w. self.now.mode ≡ Mode.InPlain w) }
    {
        let mode = self.mode;
        match mode {
            Mode::InPlain(written) => Some(written),
            Mode::InWord | Mode::AtPlace(_) | Mode::InPlace(_, _) => None,
        }
    }

    /// Takes the next byte of the line.
    pub(crate) fn byte(&mut self, names: &mut Names, b: u8) -> Result<Taken, TokenRefusal>
        ensures grows { Grows names.old names.new }
        ensures only { AddsOnly (IsPlainWord self.old) names.old names.new }
        ensures next { (number : List ℕ → ℕ) (logic : Logic) (l : Line) → Agrees number names.new → Stands logic l self.old
            → IsNext logic l result self.new (next number logic l b) }
    {
        let mode = self.mode;
        match mode {
            Mode::InWord => self.in_word(b),
            Mode::AtPlace(placed) => self.at_place(placed, b),
            Mode::InPlace(placed, place) => self.in_place(placed, place, b),
            Mode::InPlain(written) => self.in_plain(names, written, b),
        }
    }

    fn in_word(&mut self, b: u8) -> Result<Taken, TokenRefusal>
        ensures { (logic : Logic) (w : List ℕ) → Stands logic (in_word w) self.old
            → IsNext logic (in_word w) result self.new (next_unnamed logic (in_word w) b) }
    {
        push(&mut self.word, b)?;
        if let Some(word) = word_with(self.logic, self.word.as_slice()) {
            return self.end_word(word);
        }
        if begins_word(self.logic, self.word.as_slice()) {
            Ok(Taken::Going)
        } else {
            Err(TokenRefusal::Refused(Code::Unexpected))
        }
    }

    /// Takes a word that is whole.
    fn end_word(&mut self, word: Word) -> Result<Taken, TokenRefusal>
        ensures { (w : List ℕ) → IsNext self.old.logic (in_word w) result self.new (behind_word word) }
    {
        self.word.clear();
        match word {
            Word::Bare(bare) => Ok(Taken::Whole(bare_step(bare))),
            Word::Placed(placed) => {
                self.mode = Mode::AtPlace(placed);
                Ok(Taken::Going)
            }
            Word::Written(written) => {
                self.begin_plain(written);
                Ok(Taken::Going)
            }
            Word::End => Ok(Taken::Last),
        }
    }

    /// Begins the term or formula behind a word.
    #[inline(always)]
    pub(crate) fn begin_plain(&mut self, written: Written)
        ensures { self.old.word.items ≡ [] → Stands self.old.logic (in_plain written (plain_start written)) self.new }
    {
        self.mode = Mode::InPlain(written);
        let logic = self.logic;
        match written {
            Written::Exists | Written::FocLEvery | Written::FocRExists => {
                self.plain.begin_term(logic);
            }
            Written::Cut => self.plain.begin_formula(logic),
        }
    }

    fn at_place(&mut self, placed: Placed, b: u8) -> Result<Taken, TokenRefusal>
        ensures { (logic : Logic) → Stands logic (at_place placed) self.old
            → IsNext logic (at_place placed) result self.new (next_unnamed logic (at_place placed) b) }
    {
        if !is_digit(b) {
            return Err(TokenRefusal::Refused(Code::Unexpected));
        }
        self.mode = Mode::InPlace(placed, u32::from(b - b'0'));
        Ok(Taken::Going)
    }

    fn in_place(&mut self, placed: Placed, place: u32, b: u8) -> Result<Taken, TokenRefusal>
        ensures { (logic : Logic) → Stands logic (in_place placed place) self.old
            → IsNext logic (in_place placed place) result self.new (next_unnamed logic (in_place placed place) b) }
    {
        if let Some(grown) = with_digit(place, b) {
            self.mode = Mode::InPlace(placed, grown);
            return Ok(Taken::Going);
        }
        if b == b'\n' {
            Ok(Taken::Whole(placed_step(placed, u64::from(place))))
        } else {
            Err(TokenRefusal::Refused(Code::Unexpected))
        }
    }

    fn in_plain(
        &mut self,
        names: &mut Names,
        written: Written,
        b: u8,
    ) -> Result<Taken, TokenRefusal>
        ensures grows { Grows names.old names.new }
        ensures only { AddsOnly (IsText self.old.plain.word.items) names.old names.new }
        ensures next { (number : List ℕ → ℕ) (logic : Logic) (q : Reading) → Agrees number names.new → Stands logic (in_plain written q) self.old
            → IsNext logic (in_plain written q) result self.new (next number logic (in_plain written q) b) }
    {
        match self.plain.byte(names, b) {
            Ok(Progress::Going) => Ok(Taken::Going),
            Ok(Progress::Term(term)) => whole(step_with_term(written, term)),
            Ok(Progress::Formula(formula)) => whole(step_with_formula(written, formula)),
            Err(refusal) => Err(refusal),
        }
    }
}

/// What the answer of the reader of a term or a formula means in a line.
#[inline(always)]
pub(crate) fn answer_in(
    written: Written,
    answer: Result<Progress, TokenRefusal>,
) -> Result<Taken, TokenRefusal>
    ensures { result ≡ answer_in written answer }
{
    match answer {
        Ok(Progress::Going) => Ok(Taken::Going),
        Ok(Progress::Term(term)) => whole(step_with_term(written, term)),
        Ok(Progress::Formula(formula)) => whole(step_with_formula(written, formula)),
        Err(refusal) => Err(refusal),
    }
}

/// Tells that a line is whole, if there is a step of it.
#[inline(always)]
fn whole(step: Option<Step>) -> Result<Taken, TokenRefusal>
    ensures some { (s : Step) → step ≡ Some s → result ≡ Ok (Taken.Whole s) }
    ensures none { step ≡ None → result ≡ Err (TokenRefusal.Refused Code.Unexpected) }
{
    match step {
        Some(step) => Ok(Taken::Whole(step)),
        None => Err(TokenRefusal::Refused(Code::Unexpected)),
    }
}

/// The step with this term.
#[inline(always)]
fn step_with_term(written: Written, term: TermBuf) -> Option<Step>
    ensures { stepped result ≡ with_term written term }
{
    match written {
        Written::Exists => Some(Step::Exists(term)),
        Written::FocLEvery => Some(Step::FocLEvery(term)),
        Written::FocRExists => Some(Step::FocRExists(term)),
        Written::Cut => None,
    }
}

/// The step with this formula.
#[inline(always)]
fn step_with_formula(written: Written, formula: Formula) -> Option<Step>
    ensures { stepped result ≡ with_formula written formula }
{
    match written {
        Written::Exists | Written::FocLEvery | Written::FocRExists => None,
        Written::Cut => Some(Step::Cut(formula)),
    }
}

/// Adds a byte to a word.
pub(crate) fn push(word: &mut Vec<u8>, b: u8) -> Result<(), OutOfMemory>
    ensures { OnOk result (word.new.items ≡ word.old.items ++ b ∷ []) }
{
    word.push(b)?;
    Ok(())
}
