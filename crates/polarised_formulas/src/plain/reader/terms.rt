//! The terms of a line in plain form.
ghost use Rattle.std.specs.Prelude.{◌≡◌, ℕ, ◌∷◌, [], List, IsTrue, ◌↔◌, nat_eq, nat_lt, if◌then◌else◌};
ghost use Rattle.fpc_terms.specs.Name.{Agrees, Grows, is_small_letter};
ghost use Rattle.fpc_terms.specs.Adding.{AddsOnly, IsText};
ghost use Rattle.fpc_terms.specs.Term.{Term, bound, app, no_args};
ghost use Rattle.polarised_formulas.specs.declared.logic.Logic.{Logic};
ghost use Rattle.polarised_formulas.specs.Formula.{atom};
ghost use Rattle.polarised_formulas.specs.PlainReading.{Hole, Around, in_term, behind_formula, at_term, in_function, at_eigen, in_eigen, at_index, in_index, behind_term, on, wrong, next, end_term, end_function, args_onto, depth_around};
ghost use Rattle.polarised_formulas.specs.PlainStanding.{Stands, IsLiteral, IsAround, IsBehind, IsNext, formula_around, next_unnamed};

use crate::plain::digits::{is_digit, with_digit};
use crate::plain::reader::words::{is_name_byte, is_small_letter};
use crate::plain::reader::{Mode, Outside, PlainReader, Progress, name_of, push};
use fpc_base::refusal::{Code, TokenRefusal};
use fpc_terms::name::NameId;
use fpc_terms::names::Names;

#[tactic(auto, using(crate::proofs::Answering::answering))]
impl PlainReader {
    pub(super) fn at_term(&mut self, b: u8) -> Result<Progress, TokenRefusal>
        ensures { (logic : Logic) (up : Around) → Stands logic (at_term up) self.old
            → IsNext logic 0 result self.new (next_unnamed logic (at_term up) b) }
    {
        if b == b'$' {
            self.mode = Mode::AtEigen;
            Ok(Progress::Going)
        } else if b == b'#' {
            self.begin_index()
        } else {
            self.begin_function(b)
        }
    }

    /// Takes the mark of a bound index, which stands under a quantifier.
    fn begin_index(&mut self) -> Result<Progress, TokenRefusal>
        ensures { (logic : Logic) (up : Around) → Stands logic (at_term up) self.old
            → IsNext logic 0 result self.new (if nat_lt 0 (depth_around up) then on (at_index up) else wrong) }
    {
        if self.formula.quantifiers() > 0 {
            self.mode = Mode::AtIndex;
            Ok(Progress::Going)
        } else {
            Err(TokenRefusal::Refused(Code::Unexpected))
        }
    }

    fn begin_function(&mut self, b: u8) -> Result<Progress, TokenRefusal>
        ensures { (logic : Logic) (up : Around) → Stands logic (at_term up) self.old
            → IsNext logic 0 result self.new (if is_small_letter b then on (in_function up (b ∷ [])) else wrong) }
    {
        if !is_small_letter(b) {
            return Err(TokenRefusal::Refused(Code::Unexpected));
        }
        push(&mut self.word, b)?;
        self.mode = Mode::InFunction;
        Ok(Progress::Going)
    }

    pub(super) fn in_function(&mut self, names: &mut Names, b: u8) -> Result<Progress, TokenRefusal>
        ensures grows { Grows names.old names.new }
        ensures only { AddsOnly (IsText self.old.word.items) names.old names.new }
        ensures next { (number : List ℕ → ℕ) (logic : Logic) (up : Around) (w : List ℕ) → Agrees number names.new → Stands logic (in_function up w) self.old
            → IsNext logic 0 result self.new (next number logic (in_function up w) b) }
    {
        if is_name_byte(b) {
            self.lengthen(b)
        } else {
            self.end_function(names, b)
        }
    }

    /// Takes the byte behind the name of a term.
    fn end_function(&mut self, names: &mut Names, b: u8) -> Result<Progress, TokenRefusal>
        ensures grows { Grows names.old names.new }
        ensures only { AddsOnly (IsText self.old.word.items) names.old names.new }
        ensures next { (number : List ℕ → ℕ) (logic : Logic) (up : Around) (w : List ℕ) → Agrees number names.new → Stands logic (in_function up w) self.old
            → IsNext logic 0 result self.new (end_function number up w b) }
    {
        match name_of(names, self.word.as_slice()) {
            Ok(name) => {
                self.word.clear();
                self.end_named_term(name, b)
            }
            Err(refusal) => Err(refusal),
        }
    }

    /// Takes the byte behind a name so far.
    pub(super) fn end_named_term(&mut self, name: NameId, b: u8) -> Result<Progress, TokenRefusal>
        ensures { (logic : Logic) (up : Around) → IsAround logic up self.old
            → IsNext logic 0 result self.new (if nat_eq b 40 then on (at_term (in_term name [] up)) else end_term up (app name no_args) b) }
    {
        if b == b'(' {
            self.open_application(name)
        } else {
            self.end_constant(name, b)
        }
    }

    /// Takes the parenthesis behind the name of a term.
    fn open_application(&mut self, name: NameId) -> Result<Progress, TokenRefusal>
        ensures { (logic : Logic) (up : Around) → IsAround logic up self.old → IsNext logic 0 result self.new (on (at_term (in_term name [] up))) }
    {
        match self.terms.open_application(name) {
            Ok(true) => {
                self.mode = Mode::AtTerm;
                Ok(Progress::Going)
            }
            Ok(false) => Err(TokenRefusal::Refused(Code::ManyArguments)),
            Err(_) => Err(TokenRefusal::OutOfMemory),
        }
    }

    /// Takes another byte behind the name of a term.
    fn end_constant(&mut self, name: NameId, b: u8) -> Result<Progress, TokenRefusal>
        ensures { (logic : Logic) (up : Around) → IsAround logic up self.old → IsNext logic 0 result self.new (end_term up (app name no_args) b) }
    {
        match self.terms.constant(name) {
            Ok(true) => self.end_leaf(b),
            Ok(false) => Err(TokenRefusal::Refused(Code::ManyArguments)),
            Err(_) => Err(TokenRefusal::OutOfMemory),
        }
    }

    /// Takes the byte behind a name or number that was added.
    fn end_leaf(&mut self, b: u8) -> Result<Progress, TokenRefusal>
        ensures { (logic : Logic) (up : Around) (t : Term) → IsBehind logic up t self.old → IsNext logic 0 result self.new (end_term up t b) }
    {
        self.mode = Mode::BehindTerm;
        self.behind_term(b)
    }

    pub(super) fn at_eigen(&mut self, b: u8) -> Result<Progress, TokenRefusal>
        ensures { (logic : Logic) (up : Around) → Stands logic (at_eigen up) self.old
            → IsNext logic 0 result self.new (next_unnamed logic (at_eigen up) b) }
    {
        if !is_digit(b) {
            return Err(TokenRefusal::Refused(Code::Unexpected));
        }
        self.mode = Mode::InEigen(u32::from(b - b'0'));
        Ok(Progress::Going)
    }

    pub(super) fn in_eigen(&mut self, number: u32, b: u8) -> Result<Progress, TokenRefusal>
        ensures { (logic : Logic) (up : Around) → Stands logic (in_eigen up number) self.old
            → IsNext logic 0 result self.new (next_unnamed logic (in_eigen up number) b) }
    {
        if let Some(grown) = with_digit(number, b) {
            self.mode = Mode::InEigen(grown);
            return Ok(Progress::Going);
        }
        match self.terms.eigen(u64::from(number)) {
            Ok(true) => self.end_leaf(b),
            Ok(false) => Err(TokenRefusal::Refused(Code::ManyArguments)),
            Err(_) => Err(TokenRefusal::OutOfMemory),
        }
    }

    pub(super) fn at_index(&mut self, b: u8) -> Result<Progress, TokenRefusal>
        ensures { (logic : Logic) (up : Around) → Stands logic (at_index up) self.old
            → IsNext logic 0 result self.new (next_unnamed logic (at_index up) b) }
    {
        if !is_digit(b) || !self.binds(u32::from(b - b'0')) {
            return Err(TokenRefusal::Refused(Code::Unexpected));
        }
        self.mode = Mode::InIndex(u32::from(b - b'0'));
        Ok(Progress::Going)
    }

    /// Whether the quantifiers around the literal bind this index.
    fn binds(&self, index: u32) -> bool
        ensures { (up : Around) → self.now.formula ≡ formula_around up → result ≡ nat_lt index (depth_around up) }
    {
        (index as usize) < self.formula.quantifiers()
    }

    pub(super) fn in_index(&mut self, index: u32, b: u8) -> Result<Progress, TokenRefusal>
        ensures { (logic : Logic) (up : Around) → Stands logic (in_index up index) self.old
            → IsNext logic 0 result self.new (next_unnamed logic (in_index up index) b) }
    {
        match with_digit(index, b) {
            Some(grown) if self.binds(grown) => {
                self.mode = Mode::InIndex(grown);
                Ok(Progress::Going)
            }
            _ => self.end_index(index, b),
        }
    }

    /// Takes the byte behind a bound index.
    fn end_index(&mut self, index: u32, b: u8) -> Result<Progress, TokenRefusal>
        ensures { (logic : Logic) (up : Around) → IsAround logic up self.old → IsNext logic 0 result self.new (end_term up (bound index) b) }
    {
        match self.terms.bound(index) {
            Ok(true) => self.end_leaf(b),
            Ok(false) => Err(TokenRefusal::Refused(Code::ManyArguments)),
            Err(_) => Err(TokenRefusal::OutOfMemory),
        }
    }

    pub(super) fn behind_term(&mut self, b: u8) -> Result<Progress, TokenRefusal>
        ensures { (logic : Logic) (up : Around) (t : Term) → Stands logic (behind_term up t) self.old → IsNext logic 0 result self.new (end_term up t b) }
    {
        match b {
            b',' => self.end_argument(),
            b')' => self.end_arguments(),
            b'\n' => self.end_term(),
            _ => Err(TokenRefusal::Refused(Code::Unexpected)),
        }
    }

    /// Takes the comma behind an argument.
    fn end_argument(&mut self) -> Result<Progress, TokenRefusal>
        ensures { (logic : Logic) (up : Around) (t : Term) → Stands logic (behind_term up t) self.old → IsNext logic 0 result self.new (end_term up t 44) }
    {
        if self.stands_alone() {
            return Err(TokenRefusal::Refused(Code::Unexpected));
        }
        if !self.terms.has_room() {
            return Err(TokenRefusal::Refused(Code::ManyArguments));
        }
        self.mode = Mode::AtTerm;
        Ok(Progress::Going)
    }

    /// Takes the parenthesis behind the last argument.
    fn end_arguments(&mut self) -> Result<Progress, TokenRefusal>
        ensures { (logic : Logic) (up : Around) (t : Term) → Stands logic (behind_term up t) self.old → IsNext logic 0 result self.new (end_term up t 41) }
    {
        if !self.terms.is_closed() {
            self.terms.close();
            return Ok(Progress::Going);
        }
        let outside = self.outside;
        match outside {
            Outside::Nothing => Err(TokenRefusal::Refused(Code::Unexpected)),
            Outside::Literal(positive, name) => self.end_literal(positive, name),
        }
    }

    /// Adds the literal whose arguments are whole.
    fn end_literal(&mut self, positive: bool, name: NameId) -> Result<Progress, TokenRefusal>
        ensures { (logic : Logic) (hs : List Hole) (ts : List Term) → IsLiteral logic hs ts self.old
            → IsNext logic 0 result self.new (on (behind_formula hs (atom positive name (args_onto ts no_args)))) }
    {
        match self.add_literal(positive, name) {
            Ok(()) => Ok(Progress::Going),
            Err(refusal) => Err(refusal),
        }
    }

    /// Takes the end of the line behind a term by itself.
    fn end_term(&mut self) -> Result<Progress, TokenRefusal>
        ensures { (logic : Logic) (up : Around) (t : Term) → Stands logic (behind_term up t) self.old → IsNext logic 0 result self.new (end_term up t 10) }
    {
        if !self.stands_alone() {
            return Err(TokenRefusal::Refused(Code::Unexpected));
        }
        match self.terms.finish(self.alloc) {
            Ok(Some(term)) => Ok(Progress::Term(term)),
            Ok(None) => Err(TokenRefusal::Refused(Code::Unexpected)),
            Err(_) => Err(TokenRefusal::OutOfMemory),
        }
    }

    /// Whether the term that was read is no argument.
    fn stands_alone(&self) -> bool
        ensures { IsTrue result ↔ ((self.now.outside ≡ Outside.Nothing) × (self.now.terms.frames ≡ [])) }
    {
        self.outside == Outside::Nothing && self.terms.is_closed()
    }
}
