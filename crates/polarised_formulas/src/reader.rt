//! A formula that is being read, token by token.
ghost use Rattle.std.specs.Prelude.{◌≡◌, ◌∷◌, [], ℕ, List, Bool, true, false, Some, None, Ok, IfOk, IfErr, OnOk, is_some, IsTrue, ◌↔◌, slice_get, length};
ghost use Rattle.fpc_base.specs.Lexeme.{lexeme_as, a_sign, a_name, a_variable};
ghost use Rattle.fpc_base.specs.declared.tokens.lexeme.Sign.TheVariants.{CloseParenthesis, OpenParenthesis};
ghost use Rattle.fpc_terms.specs.Name.{IsName, Agrees, Grows};
ghost use Rattle.fpc_terms.specs.Adding.{AddsOnly, IsNameOf};
ghost use Rattle.fpc_terms.specs.Term.{Term, no_args};
ghost use Rattle.fpc_terms.specs.Written.{WrittenArgs, args_meant};
ghost use Rattle.fpc_terms.specs.Partial.{arguments_of};
ghost use Rattle.fpc_terms.specs.Machine as term;
ghost use Rattle.fpc_terms.specs.Holding as held;
ghost use Rattle.fpc_terms.specs.Holding.{IsNamed};
ghost use Rattle.polarised_formulas.specs.Formula.{truth, falsity, atom};
ghost use Rattle.polarised_formulas.specs.Unfinished.{holes_in, quantifiers_in, placed, opened, quantified, left, closed, joined, takes_joiner, takes_close, whole};
ghost use Rattle.polarised_formulas.specs.Bound.{outermost};
ghost use Rattle.polarised_formulas.specs.Written.{WrittenFormula, formula_meant, variable_meant, is_known};
ghost use Rattle.polarised_formulas.specs.Place.{whole as outermost_place};
ghost use Rattle.polarised_formulas.specs.Machine.{FormulaState, wants, limited, whole_of, is_ended, joiner_of};
ghost use Rattle.polarised_formulas.specs.Holding.{Holds, Takes, beginning_of, begins_within, is_standing};

use crate::bound::BoundNames;
use crate::builder::FormulaBuilder;
use crate::connective::{Binder, Joiner};
use crate::formula::Formula;
use crate::logic::{Logic, Polarity};
use fpc_base::outside::OutOfMemory;
use fpc_base::refusal::{Code, TokenRefusal};
use fpc_base::tokens::lexeme::{Lexeme, Sign};
use fpc_terms::builder::TermBuilder;
use fpc_terms::name::NameId;
use fpc_terms::names::Names;
use fpc_terms::reader::TermReader;
use fpc_terms::var_table::VarTable;
use std::alloc::Global;

/// How many formulas may stand around one: nested 10,000 deep, the outermost counted.
const MOST_AROUND: usize = 10_000;

/// What comes next.
#[derive(Clone, Copy, PartialEq, Eq, Debug)]
pub enum Mode {
    /// A formula.
    Wants,
    /// The name of an atom; whether it is positive.
    Marked(bool),
    /// The variable of a quantifier.
    Binding(Binder),
    /// The colon behind the variable of a quantifier.
    BoundTo(Binder),
    /// The arguments of an atom, or what stands behind an atom without arguments.
    Named(bool, NameId),
    /// A token of the arguments of an atom.
    InAtom(bool, NameId),
    /// What stands behind a formula.
    Has,
}

/// What a formula begins with, if it begins with a sign.
#[derive(Clone, Copy, PartialEq, Eq, Debug)]
pub enum Beginning {
    Truth(Polarity),
    Falsity(Polarity),
    /// The mark of an atom; whether it is positive.
    Mark(bool),
    Pair,
    Quantifier(Binder),
}

fn begins(logic: Logic, sign: Sign) -> Option<Beginning>
    ensures { result ≡ beginning_of logic sign }
{
    match (logic, sign) {
        (_, Sign::TruePlus) => Some(Beginning::Truth(Polarity::Positive)),
        (_, Sign::TrueMinus) => Some(Beginning::Truth(Polarity::Negative)),
        (Logic::Lkf, Sign::FalsePlus) => Some(Beginning::Falsity(Polarity::Positive)),
        (Logic::Lkf, Sign::FalseMinus) => Some(Beginning::Falsity(Polarity::Negative)),
        (Logic::Ljf, Sign::False) => Some(Beginning::Falsity(Polarity::Positive)),
        (Logic::Lkf, Sign::Tilde) => Some(Beginning::Mark(false)),
        (Logic::Ljf, Sign::Plus) => Some(Beginning::Mark(true)),
        (Logic::Ljf, Sign::Minus) => Some(Beginning::Mark(false)),
        (_, Sign::OpenParenthesis) => Some(Beginning::Pair),
        (_, Sign::All) => Some(Beginning::Quantifier(Binder::ForAll)),
        (_, Sign::Some) => Some(Beginning::Quantifier(Binder::Exists)),
        _ => None,
    }
}

fn joiner(logic: Logic, sign: Sign) -> Option<Joiner>
    ensures { result ≡ joiner_of logic sign }
{
    match (logic, sign) {
        (_, Sign::AndPlus) => Some(Joiner::And(Polarity::Positive)),
        (_, Sign::AndMinus) => Some(Joiner::And(Polarity::Negative)),
        (Logic::Lkf, Sign::BarPlus) => Some(Joiner::Or(Polarity::Positive)),
        (Logic::Lkf, Sign::BarMinus) => Some(Joiner::Or(Polarity::Negative)),
        (Logic::Ljf, Sign::Bar) => Some(Joiner::Or(Polarity::Positive)),
        (Logic::Ljf, Sign::Arrow) => Some(Joiner::Implies),
        _ => None,
    }
}

/// Takes a token of the arguments of an atom. A variable is looked up among those that quantifiers bind, the innermost
/// first, and then among the parameters.
fn take_argument(
    terms: &mut TermReader,
    names: &mut Names,
    bound: &BoundNames<'_>,
    parameters: &VarTable,
    lexeme: Lexeme<'_>,
) -> Result<(), TokenRefusal>
    requires { IsNamed lexeme }
    ensures grows { Grows names.old names.new }
    ensures only { AddsOnly (IsNameOf (lexeme_as lexeme.entry)) names.old names.new }
    ensures taken { (number : List ℕ → ℕ) (t : term.TermState) → Agrees number names.new → held.Holds number (variable_meant parameters.now bound.now) t terms.old
        → held.Takes result number (variable_meant parameters.now bound.now) (term.limited (is_known parameters.now bound.now) None [] t (lexeme_as lexeme.entry)) terms.new }
{
    match lexeme {
        Lexeme::Variable(text) => take_variable(terms, bound, parameters, text),
        _ => terms.take(names, lexeme),
    }
}

fn take_variable(
    terms: &mut TermReader,
    bound: &BoundNames<'_>,
    parameters: &VarTable,
    text: &[u8],
) -> Result<(), TokenRefusal>
    ensures { (number : List ℕ → ℕ) (t : term.TermState) → held.Holds number (variable_meant parameters.now bound.now) t terms.old
        → held.Takes result number (variable_meant parameters.now bound.now) (term.limited (is_known parameters.now bound.now) None [] t (a_variable text.now)) terms.new }
{
    if let Some(index) = bound.find(text) {
        return terms.take_bound(index);
    }
    match parameters.find(text) {
        Some(number) => terms.take_numbered(number),
        None => Err(TokenRefusal::Refused(Code::Unexpected)),
    }
}

/// A formula, read token by token. Each token takes constant time, but for the look-ups of names and of variables, and
/// for the quantifiers that end: each of these takes logarithmic time.
#[derive(Drop)]
pub struct FormulaReader<'a> {
    alloc: Global,
    logic: Logic,
    mode: Mode,
    builder: FormulaBuilder,
    terms: TermReader,
    bound: BoundNames<'a>,
}

impl<'a> FormulaReader<'a> {
    /// The reader of a formula that is to come. It takes no memory.
    pub fn new(alloc: Global, logic: Logic) -> FormulaReader<'a>
        ensures { (number : List ℕ → ℕ) (parameters : List (List ℕ)) → Holds number logic parameters (wants outermost_place) result }
    {
        FormulaReader {
            alloc,
            logic,
            mode: Mode::Wants,
            builder: FormulaBuilder::new(alloc),
            terms: TermReader::new(alloc),
            bound: BoundNames::new(alloc),
        }
    }

    /// Makes this logic that of the formula that is to come.
    pub(crate) fn turn_to(&mut self, logic: Logic)
        ensures { self.new ≡ record self.old { logic = logic } }
    {
        self.logic = logic;
    }

    /// Takes a token. Names and parameters are looked up in the tables. What follows a refusal means nothing.
    pub fn take(
        &mut self,
        names: &mut Names,
        parameters: &VarTable,
        lexeme: Lexeme<'a>,
    ) -> Result<(), TokenRefusal>
        requires { IsNamed lexeme }
        ensures grows { Grows names.old names.new }
        ensures only { AddsOnly (IsNameOf (lexeme_as lexeme.entry)) names.old names.new }
        ensures taken { (number : List ℕ → ℕ) (logic : Logic) (s : FormulaState) → Agrees number names.new → Holds number logic parameters.now s self.old
            → Takes result number logic parameters.now (limited logic parameters.now s (lexeme_as lexeme.entry)) self.new }
    {
        let mode = self.mode;
        match mode {
            Mode::Wants => self.take_first(names, lexeme),
            Mode::Marked(positive) => self.take_name(names, positive, lexeme),
            Mode::Binding(binder) => self.take_binding(binder, lexeme),
            Mode::BoundTo(binder) => self.take_colon(binder, lexeme),
            Mode::Named(positive, name) => self.take_behind_name(positive, name, lexeme),
            Mode::InAtom(positive, name) => {
                self.take_in_atom(names, parameters, positive, name, lexeme)
            }
            Mode::Has => self.take_behind(lexeme),
        }
    }

    /// Takes the first token of a formula.
    fn take_first(&mut self, names: &mut Names, lexeme: Lexeme<'a>) -> Result<(), TokenRefusal>
        requires { IsNamed lexeme }
        ensures grows { Grows names.old names.new }
        ensures only { AddsOnly (IsNameOf (lexeme_as lexeme.entry)) names.old names.new }
        ensures taken { (number : List ℕ → ℕ) (logic : Logic) (parameters : List (List ℕ)) (s : FormulaState) → Agrees number names.new → Holds number logic parameters s self.old
            → self.old.mode ≡ Mode.Wants → Takes result number logic parameters (limited logic parameters s (lexeme_as lexeme.entry)) self.new }
    {
        match lexeme {
            Lexeme::Sign(sign) => self.take_sign(sign),
            Lexeme::Name(text) => self.take_plain_name(names, text),
            _ => Err(TokenRefusal::Refused(Code::Unexpected)),
        }
    }

    /// Takes the sign that a formula begins with.
    fn take_sign(&mut self, sign: Sign) -> Result<(), TokenRefusal>
        ensures { (number : List ℕ → ℕ) (logic : Logic) (parameters : List (List ℕ)) (s : FormulaState) → Holds number logic parameters s self.old → self.old.mode ≡ Mode.Wants
            → Takes result number logic parameters (limited logic parameters s (a_sign sign)) self.new }
    {
        let logic = self.logic;
        match begins(logic, sign) {
            Some(beginning) => self.begin(beginning),
            None => Err(TokenRefusal::Refused(Code::Unexpected)),
        }
    }

    /// Whether the formula that is to come would be nested too deep.
    fn is_deep(&self) -> bool
        ensures { IsTrue result ↔ (length (holes_in self.now.builder) ≡ 10000) }
    {
        self.builder.depth() == MOST_AROUND
    }

    fn begin(&mut self, beginning: Beginning) -> Result<(), TokenRefusal>
        ensures { (number : List ℕ → ℕ) (logic : Logic) (parameters : List (List ℕ)) (s : FormulaState) → Holds number logic parameters s self.old → self.old.mode ≡ Mode.Wants
            → Takes result number logic parameters (begins_within beginning s) self.new }
    {
        if self.is_deep() {
            return Err(TokenRefusal::Refused(Code::TooDeep));
        }
        match beginning {
            Beginning::Truth(polarity) => self.add_truth(polarity),
            Beginning::Falsity(polarity) => self.add_falsity(polarity),
            Beginning::Mark(positive) => {
                self.mode = Mode::Marked(positive);
                Ok(())
            }
            Beginning::Pair => self.open_pair(),
            Beginning::Quantifier(binder) => {
                self.mode = Mode::Binding(binder);
                Ok(())
            }
        }
    }

    fn add_truth(&mut self, polarity: Polarity) -> Result<(), TokenRefusal>
        ensures ok { OnOk result (self.new ≡ record self.old { mode = Mode.Has; builder = placed (truth polarity) self.old.builder }) }
        ensures err { IfErr result (λ e. e ≡ TokenRefusal.OutOfMemory) }
    {
        self.builder.truth(polarity)?;
        self.mode = Mode::Has;
        Ok(())
    }

    fn add_falsity(&mut self, polarity: Polarity) -> Result<(), TokenRefusal>
        ensures ok { OnOk result (self.new ≡ record self.old { mode = Mode.Has; builder = placed (falsity polarity) self.old.builder }) }
        ensures err { IfErr result (λ e. e ≡ TokenRefusal.OutOfMemory) }
    {
        self.builder.falsity(polarity)?;
        self.mode = Mode::Has;
        Ok(())
    }

    fn open_pair(&mut self) -> Result<(), TokenRefusal>
        ensures ok { OnOk result (self.new ≡ record self.old { mode = Mode.Wants; builder = opened self.old.builder }) }
        ensures err { IfErr result (λ e. e ≡ TokenRefusal.OutOfMemory) }
    {
        self.builder.open_pair()?;
        self.mode = Mode::Wants;
        Ok(())
    }

    /// Takes the name that a formula begins with. Only an atom of LKF has no mark.
    fn take_plain_name(&mut self, names: &mut Names, text: &[u8]) -> Result<(), TokenRefusal>
        requires { IsName text.now }
        ensures grows { Grows names.old names.new }
        ensures only { AddsOnly (IsNameOf (a_name text.now)) names.old names.new }
        ensures taken { (number : List ℕ → ℕ) (logic : Logic) (parameters : List (List ℕ)) (s : FormulaState) → Agrees number names.new → Holds number logic parameters s self.old
            → self.old.mode ≡ Mode.Wants → Takes result number logic parameters (limited logic parameters s (a_name text.now)) self.new }
    {
        let logic = self.logic;
        match logic {
            Logic::Ljf => Err(TokenRefusal::Refused(Code::Unexpected)),
            Logic::Lkf => {
                if self.is_deep() {
                    return Err(TokenRefusal::Refused(Code::TooDeep));
                }
                self.name_atom(names, true, text)
            }
        }
    }

    fn name_atom(
        &mut self,
        names: &mut Names,
        positive: bool,
        text: &[u8],
    ) -> Result<(), TokenRefusal>
        requires { IsName text.now }
        ensures grows { Grows names.old names.new }
        ensures only { AddsOnly (IsNameOf (a_name text.now)) names.old names.new }
        ensures ok { OnOk result ((id : ℕ) × (slice_get names.new id ≡ Some text.now) × (self.new ≡ record self.old { mode = Mode.Named positive id })) }
        ensures err { IfErr result (λ e. e ≡ TokenRefusal.OutOfMemory) }
    {
        let name = names.intern(text)?;
        self.mode = Mode::Named(positive, name);
        Ok(())
    }

    /// Takes the name behind the mark of an atom.
    fn take_name(
        &mut self,
        names: &mut Names,
        positive: bool,
        lexeme: Lexeme<'a>,
    ) -> Result<(), TokenRefusal>
        requires { IsNamed lexeme }
        ensures grows { Grows names.old names.new }
        ensures only { AddsOnly (IsNameOf (lexeme_as lexeme.entry)) names.old names.new }
        ensures taken { (number : List ℕ → ℕ) (logic : Logic) (parameters : List (List ℕ)) (s : FormulaState) → Agrees number names.new → Holds number logic parameters s self.old
            → self.old.mode ≡ Mode.Marked positive → Takes result number logic parameters (limited logic parameters s (lexeme_as lexeme.entry)) self.new }
    {
        match lexeme {
            Lexeme::Name(text) => self.name_atom(names, positive, text),
            _ => Err(TokenRefusal::Refused(Code::Unexpected)),
        }
    }

    /// Takes the variable of a quantifier.
    fn take_binding(&mut self, binder: Binder, lexeme: Lexeme<'a>) -> Result<(), TokenRefusal>
        ensures { (number : List ℕ → ℕ) (logic : Logic) (parameters : List (List ℕ)) (s : FormulaState) → Holds number logic parameters s self.old
            → self.old.mode ≡ Mode.Binding binder → Takes result number logic parameters (limited logic parameters s (lexeme_as lexeme.entry)) self.new }
    {
        match lexeme {
            Lexeme::Variable(text) => self.bind(binder, text),
            _ => Err(TokenRefusal::Refused(Code::Unexpected)),
        }
    }

    fn bind(&mut self, binder: Binder, text: &'a [u8]) -> Result<(), TokenRefusal>
        ensures ok { OnOk result (self.new ≡ record self.old { mode = Mode.BoundTo binder; bound = text.now ∷ self.old.bound }) }
        ensures err { IfErr result (λ e. e ≡ TokenRefusal.OutOfMemory) }
    {
        self.bound.push(text)?;
        self.mode = Mode::BoundTo(binder);
        Ok(())
    }

    /// Takes the colon behind the variable of a quantifier.
    fn take_colon(&mut self, binder: Binder, lexeme: Lexeme<'a>) -> Result<(), TokenRefusal>
        ensures { (number : List ℕ → ℕ) (logic : Logic) (parameters : List (List ℕ)) (s : FormulaState) → Holds number logic parameters s self.old
            → self.old.mode ≡ Mode.BoundTo binder → Takes result number logic parameters (limited logic parameters s (lexeme_as lexeme.entry)) self.new }
    {
        match lexeme {
            Lexeme::Sign(Sign::Colon) => self.add_quantifier(binder),
            _ => Err(TokenRefusal::Refused(Code::Unexpected)),
        }
    }

    fn add_quantifier(&mut self, binder: Binder) -> Result<(), TokenRefusal>
        ensures ok { OnOk result (self.new ≡ record self.old { mode = Mode.Wants; builder = quantified binder self.old.builder }) }
        ensures err { IfErr result (λ e. e ≡ TokenRefusal.OutOfMemory) }
    {
        self.builder.quantifier(binder)?;
        self.mode = Mode::Wants;
        Ok(())
    }

    /// Takes a token behind the name of an atom.
    fn take_behind_name(
        &mut self,
        positive: bool,
        name: NameId,
        lexeme: Lexeme<'a>,
    ) -> Result<(), TokenRefusal>
        ensures { (number : List ℕ → ℕ) (logic : Logic) (parameters : List (List ℕ)) (s : FormulaState) → Holds number logic parameters s self.old
            → self.old.mode ≡ Mode.Named positive name → Takes result number logic parameters (limited logic parameters s (lexeme_as lexeme.entry)) self.new }
    {
        if lexeme.is(Sign::OpenParenthesis) {
            self.terms.begin_arguments();
            self.mode = Mode::InAtom(positive, name);
            return Ok(());
        }
        match self.add_plain_atom(positive, name) {
            Ok(()) => self.take_behind(lexeme),
            Err(error) => Err(error),
        }
    }

    /// Adds an atom without arguments.
    fn add_plain_atom(&mut self, positive: bool, name: NameId) -> Result<(), TokenRefusal>
        ensures ok { OnOk result (self.new ≡ record self.old { mode = Mode.Has; builder = placed (atom positive name no_args) self.old.builder }) }
        ensures err { IfErr result (λ e. e ≡ TokenRefusal.OutOfMemory) }
    {
        let none = TermBuilder::new(self.alloc);
        match self.builder.literal(positive, name, &none) {
            Ok(true) => {
                self.mode = Mode::Has;
                Ok(())
            }
            Ok(false) | Err(_) => Err(TokenRefusal::OutOfMemory),
        }
    }

    /// Takes a token of the arguments of an atom.
    fn take_in_atom(
        &mut self,
        names: &mut Names,
        parameters: &VarTable,
        positive: bool,
        name: NameId,
        lexeme: Lexeme<'a>,
    ) -> Result<(), TokenRefusal>
        requires { IsNamed lexeme }
        ensures grows { Grows names.old names.new }
        ensures only { AddsOnly (IsNameOf (lexeme_as lexeme.entry)) names.old names.new }
        ensures taken { (number : List ℕ → ℕ) (logic : Logic) (s : FormulaState) → Agrees number names.new → Holds number logic parameters.now s self.old
            → self.old.mode ≡ Mode.InAtom positive name → Takes result number logic parameters.now (limited logic parameters.now s (lexeme_as lexeme.entry)) self.new }
    {
        match take_argument(&mut self.terms, names, &self.bound, parameters, lexeme) {
            Ok(()) => {}
            Err(error) => return Err(error),
        }
        if !self.terms.is_ended() {
            return Ok(());
        }
        self.add_atom(positive, name)
    }

    /// Adds an atom with the arguments that were read.
    fn add_atom(&mut self, positive: bool, name: NameId) -> Result<(), TokenRefusal>
        ensures ok { (number : List ℕ → ℕ) (leaf : List ℕ → Term) (args : WrittenArgs) → held.Holds number leaf (term.ended args) self.old.terms
            → OnOk result (self.new ≡ record self.old { mode = Mode.Has; builder = placed (atom positive name (args_meant number leaf args)) self.old.builder }) }
        ensures err { IfErr result (λ e. e ≡ TokenRefusal.OutOfMemory) }
    {
        match self.builder.literal(positive, name, self.terms.terms()) {
            Ok(true) => {
                self.mode = Mode::Has;
                Ok(())
            }
            Ok(false) | Err(_) => Err(TokenRefusal::OutOfMemory),
        }
    }

    /// Takes a token behind a formula.
    fn take_behind(&mut self, lexeme: Lexeme<'a>) -> Result<(), TokenRefusal>
        ensures { (number : List ℕ → ℕ) (logic : Logic) (parameters : List (List ℕ)) (s : FormulaState) → Holds number logic parameters s self.old
            → self.old.mode ≡ Mode.Has → Takes result number logic parameters (limited logic parameters s (lexeme_as lexeme.entry)) self.new }
    {
        match lexeme {
            Lexeme::Sign(sign) => self.take_sign_behind(sign),
            _ => Err(TokenRefusal::Refused(Code::Unexpected)),
        }
    }

    fn take_close(&mut self) -> Result<(), TokenRefusal>
        ensures { (number : List ℕ → ℕ) (logic : Logic) (parameters : List (List ℕ)) (s : FormulaState) → Holds number logic parameters s self.old
            → self.old.mode ≡ Mode.Has → Takes result number logic parameters (limited logic parameters s (a_sign CloseParenthesis)) self.new }
    {
        if !self.builder.close() {
            return Err(TokenRefusal::Refused(Code::Unexpected));
        }
        self.bound.keep(self.builder.quantifiers());
        Ok(())
    }

    /// Takes a sign behind a formula.
    fn take_sign_behind(&mut self, sign: Sign) -> Result<(), TokenRefusal>
        ensures { (number : List ℕ → ℕ) (logic : Logic) (parameters : List (List ℕ)) (s : FormulaState) → Holds number logic parameters s self.old
            → self.old.mode ≡ Mode.Has → Takes result number logic parameters (limited logic parameters s (a_sign sign)) self.new }
    {
        match sign {
            Sign::CloseParenthesis => self.take_close(),
            _ => self.take_operator(sign),
        }
    }

    fn take_operator(&mut self, sign: Sign) -> Result<(), TokenRefusal>
        ensures { (number : List ℕ → ℕ) (logic : Logic) (parameters : List (List ℕ)) (s : FormulaState) → Holds number logic parameters s self.old
            → self.old.mode ≡ Mode.Has → (sign ≡ CloseParenthesis → ⊥) → Takes result number logic parameters (limited logic parameters s (a_sign sign)) self.new }
    {
        let logic = self.logic;
        match joiner(logic, sign) {
            Some(joiner) => self.join(joiner),
            None => Err(TokenRefusal::Refused(Code::Unexpected)),
        }
    }

    fn join(&mut self, joiner: Joiner) -> Result<(), TokenRefusal>
        ensures { (number : List ℕ → ℕ) (logic : Logic) (parameters : List (List ℕ)) (s : FormulaState) (sign : Sign) → Holds number logic parameters s self.old
            → self.old.mode ≡ Mode.Has → joiner_of logic sign ≡ Some joiner → Takes result number logic parameters (limited logic parameters s (a_sign sign)) self.new }
    {
        if !self.builder.operator(joiner) {
            return Err(TokenRefusal::Refused(Code::Unexpected));
        }
        self.bound.keep(self.builder.quantifiers());
        self.mode = Mode::Wants;
        Ok(())
    }

    /// Whether only quantifiers stand around the formula.
    fn is_outermost(&self) -> bool
        ensures { IsTrue result ↔ (length (holes_in self.now.builder) ≡ quantifiers_in (holes_in self.now.builder)) }
    {
        self.builder.depth() == self.builder.quantifiers()
    }

    /// Whether a formula was read that may be whole, or an atom that may still get arguments.
    fn stands(&self) -> bool
        ensures { result ≡ is_standing self.now.mode }
    {
        let mode = self.mode;
        match mode {
            Mode::Named(_, _) | Mode::Has => true,
            _ => false,
        }
    }

    /// Whether the formula is whole, and no token goes on behind it.
    pub fn is_final(&self) -> bool
        ensures { (number : List ℕ → ℕ) (logic : Logic) (parameters : List (List ℕ)) (s : FormulaState) → Holds number logic parameters s self.now → result ≡ is_ended s }
    {
        let mode = self.mode;
        match mode {
            Mode::Has => self.is_outermost(),
            _ => false,
        }
    }

    /// Whether the formula is whole; an atom may still get arguments.
    pub fn is_whole(&self) -> bool
        ensures { (number : List ℕ → ℕ) (logic : Logic) (parameters : List (List ℕ)) (s : FormulaState) → Holds number logic parameters s self.now → result ≡ is_some (whole_of s) }
    {
        self.stands() && self.is_outermost()
    }

    /// The formula, where it is whole. It takes the nodes over, in constant time.
    pub fn finish(self) -> Result<Option<Formula>, OutOfMemory>
        ensures whole { (number : List ℕ → ℕ) (logic : Logic) (parameters : List (List ℕ))
            (s : FormulaState) (w : WrittenFormula) → Holds number logic parameters s self.entry
            → whole_of s ≡ Some w
            → IfOk result (λ found. found ≡ Some (formula_meant number parameters [] w)) }
        ensures none { (number : List ℕ → ℕ) (logic : Logic) (parameters : List (List ℕ))
            (s : FormulaState) → Holds number logic parameters s self.entry
            → whole_of s ≡ None → result ≡ Ok None }
    {
        if self.is_whole() {
            return self.finish_whole();
        }
        Ok(None)
    }

    /// The formula, which is whole.
    fn finish_whole(self) -> Result<Option<Formula>, OutOfMemory>
        ensures { (number : List ℕ → ℕ) (logic : Logic) (parameters : List (List ℕ))
            (s : FormulaState) (w : WrittenFormula) → Holds number logic parameters s self.entry
            → whole_of s ≡ Some w
            → IfOk result (λ found. found ≡ Some (formula_meant number parameters [] w)) }
    {
        let alloc = self.alloc;
        let mode = self.mode;
        match mode {
            Mode::Named(positive, name) => finish_plain_atom(self.builder, alloc, positive, name),
            _ => Ok(self.builder.into_formula()),
        }
    }
}

/// The formula with an atom without arguments at its end.
fn finish_plain_atom(
    builder: FormulaBuilder,
    alloc: Global,
    positive: bool,
    name: NameId,
) -> Result<Option<Formula>, OutOfMemory>
    ensures { IfOk result (λ found. found ≡ whole (left (placed (atom positive name no_args) builder))) }
{
    let mut builder = builder;
    let none = TermBuilder::new(alloc);
    match builder.literal(positive, name, &none) {
        Ok(true) => Ok(builder.into_formula()),
        // A formula is to come, so only memory can be missing.
        Ok(false) | Err(_) => Err(OutOfMemory),
    }
}
