//! A declared formula that is being read, token by token.
ghost use Rattle.std.specs.Prelude.{◌≡◌, ◌↔◌, ℕ, List, [], Err, IfOk, Some, IsTrue};
ghost use Rattle.fpc_base.specs.Lexeme.{lexeme_as, a_sign};
ghost use Rattle.fpc_base.specs.declared.tokens.lexeme.Sign.TheVariants.{Dot};
ghost use Rattle.fpc_terms.specs.Name.{Grows, Agrees};
ghost use Rattle.fpc_terms.specs.Adding.{AddsOnly, IsNameOf};
ghost use Rattle.fpc_terms.specs.Holding.{IsNamed};
ghost use Rattle.polarised_formulas.specs.Written.{WrittenFormula};
ghost use Rattle.clause_language.specs.Meant.{declaration_meant};
ghost use Rattle.clause_language.specs.DeclarationMachine.{DeclarationState, at_name, ended, limited};
ghost use Rattle.clause_language.specs.HoldingDeclaration.{HoldsDeclaration, TakesDeclaration};

use crate::declaration::DeclaredFormula;
use fpc_base::outside::OutOfMemory;
use fpc_base::refusal::{Code, TokenRefusal};
use fpc_base::tokens::lexeme::{Lexeme, Sign};
use fpc_terms::name::NameId;
use fpc_terms::names::Names;
use fpc_terms::var_table::VarTable;
use polarised_formulas::logic::Logic;
use polarised_formulas::read::take_token;
use polarised_formulas::reader::FormulaReader;
use std::alloc::Global;

/// How many parameters a declared formula may have.
const MOST_PARAMETERS: u64 = 255;

/// What comes next.
#[derive(Clone, Copy, PartialEq, Eq, Debug)]
pub enum Mode {
    /// The name.
    AtName,
    /// The first parenthesis, or `:=`.
    BehindName,
    /// A parameter.
    AtParameter,
    /// A comma or the last parenthesis.
    BehindParameter,
    /// `:=`.
    AtDefined,
    /// A token of the formula, or the dot behind it.
    InFormula,
    /// Nothing.
    Ended,
}

/// A declared formula that is being read, token by token, behind the word `formula`. Each token takes constant time, but for the look-ups of names,
/// parameters and bound variables.
#[derive(Drop)]
pub struct DeclarationReader<'a> {
    mode: Mode,
    /// The name, once it is read.
    name: Option<NameId>,
    parameters: VarTable,
    formula: FormulaReader<'a>,
}

fn refused(code: Code) -> Result<(), TokenRefusal>
    ensures { result ≡ Err (TokenRefusal.Refused code) }
{
    Err(TokenRefusal::Refused(code))
}

impl<'a> DeclarationReader<'a> {
    /// The reader of a declared formula of the logic, behind the word `formula`. It takes no memory.
    pub fn new(alloc: Global, logic: Logic) -> DeclarationReader<'a>
        ensures { (names : List (List ℕ)) → HoldsDeclaration names logic at_name result }
    {
        DeclarationReader {
            mode: Mode::AtName,
            name: None,
            parameters: VarTable::new(alloc),
            formula: FormulaReader::new(alloc, logic),
        }
    }

    /// Whether the name is to come.
    pub fn is_at_name(&self) -> bool
        ensures { IsTrue result ↔ (self.now.mode ≡ Mode.AtName) }
    {
        self.mode == Mode::AtName
    }

    /// Whether the dot behind the formula was read.
    pub fn is_ended(&self) -> bool
        ensures { IsTrue result ↔ (self.now.mode ≡ Mode.Ended) }
    {
        self.mode == Mode::Ended
    }

    /// Takes a token. Whether a formula of the same name is declared already is for the caller to see. What follows a refusal means nothing.
    pub fn take(&mut self, names: &mut Names, lexeme: Lexeme<'a>) -> Result<(), TokenRefusal>
        requires { IsNamed lexeme }
        ensures taken { (logic : Logic) (s : DeclarationState) → HoldsDeclaration names.old logic s self.old
            → TakesDeclaration result names.new logic (limited logic [] s (lexeme_as lexeme.entry)) self.new }
        ensures names { Grows names.old names.new }
        ensures only { AddsOnly (IsNameOf (lexeme_as lexeme.entry)) names.old names.new }
    {
        let mode = self.mode;
        match mode {
            Mode::AtName => self.take_name(names, lexeme),
            Mode::BehindName => self.take_behind_name(lexeme),
            Mode::AtParameter => self.take_parameter(lexeme),
            Mode::BehindParameter => self.take_behind_parameter(lexeme),
            Mode::AtDefined => self.take_defined(lexeme),
            Mode::InFormula => self.take_in_formula(names, lexeme),
            Mode::Ended => refused(Code::Unexpected),
        }
    }

    /// Takes the name of the formula.
    fn take_name(&mut self, names: &mut Names, lexeme: Lexeme<'a>) -> Result<(), TokenRefusal>
        requires { IsNamed lexeme }
        ensures taken { (logic : Logic) (s : DeclarationState) → HoldsDeclaration names.old logic s self.old → self.old.mode ≡ Mode.AtName
            → TakesDeclaration result names.new logic (limited logic [] s (lexeme_as lexeme.entry)) self.new }
        ensures names { Grows names.old names.new }
        ensures only { AddsOnly (IsNameOf (lexeme_as lexeme.entry)) names.old names.new }
    {
        match lexeme {
            Lexeme::Name(text) => {
                let name = names.intern(text)?;
                self.name = Some(name);
                self.mode = Mode::BehindName;
                Ok(())
            }
            _ => refused(Code::Unexpected),
        }
    }

    /// Takes the parenthesis before the parameters, or `:=`.
    fn take_behind_name(&mut self, lexeme: Lexeme<'a>) -> Result<(), TokenRefusal>
        ensures { (names : List (List ℕ)) (logic : Logic) (s : DeclarationState) → HoldsDeclaration names logic s self.old → self.old.mode ≡ Mode.BehindName
            → TakesDeclaration result names logic (limited logic [] s (lexeme_as lexeme.entry)) self.new }
    {
        match lexeme {
            Lexeme::Sign(Sign::OpenParenthesis) => {
                self.mode = Mode::AtParameter;
                Ok(())
            }
            Lexeme::Sign(Sign::Defined) => {
                self.mode = Mode::InFormula;
                Ok(())
            }
            _ => refused(Code::Unexpected),
        }
    }

    /// Takes a parameter, which has to be different from those before it.
    fn take_parameter(&mut self, lexeme: Lexeme<'a>) -> Result<(), TokenRefusal>
        ensures { (names : List (List ℕ)) (logic : Logic) (s : DeclarationState) → HoldsDeclaration names logic s self.old → self.old.mode ≡ Mode.AtParameter
            → TakesDeclaration result names logic (limited logic [] s (lexeme_as lexeme.entry)) self.new }
    {
        match lexeme {
            Lexeme::Variable(text) => {
                if self.parameters.find(text).is_some() {
                    return refused(Code::Unexpected);
                }
                self.parameters.number(text)?;
                self.mode = Mode::BehindParameter;
                Ok(())
            }
            _ => refused(Code::Unexpected),
        }
    }

    /// Takes the comma or the parenthesis behind a parameter.
    fn take_behind_parameter(&mut self, lexeme: Lexeme<'a>) -> Result<(), TokenRefusal>
        ensures { (names : List (List ℕ)) (logic : Logic) (s : DeclarationState) → HoldsDeclaration names logic s self.old → self.old.mode ≡ Mode.BehindParameter
            → TakesDeclaration result names logic (limited logic [] s (lexeme_as lexeme.entry)) self.new }
    {
        match lexeme {
            Lexeme::Sign(Sign::Comma) => {
                if self.parameters.count() == MOST_PARAMETERS {
                    return refused(Code::ManyArguments);
                }
                self.mode = Mode::AtParameter;
                Ok(())
            }
            Lexeme::Sign(Sign::CloseParenthesis) => {
                self.mode = Mode::AtDefined;
                Ok(())
            }
            _ => refused(Code::Unexpected),
        }
    }

    /// Takes `:=` behind the parameters.
    fn take_defined(&mut self, lexeme: Lexeme<'a>) -> Result<(), TokenRefusal>
        ensures { (names : List (List ℕ)) (logic : Logic) (s : DeclarationState) → HoldsDeclaration names logic s self.old → self.old.mode ≡ Mode.AtDefined
            → TakesDeclaration result names logic (limited logic [] s (lexeme_as lexeme.entry)) self.new }
    {
        match lexeme {
            Lexeme::Sign(Sign::Defined) => {
                self.mode = Mode::InFormula;
                Ok(())
            }
            _ => refused(Code::Unexpected),
        }
    }

    /// Takes a token of the formula, or the dot behind it.
    fn take_in_formula(&mut self, names: &mut Names, lexeme: Lexeme<'a>) -> Result<(), TokenRefusal>
        requires { IsNamed lexeme }
        ensures taken { (logic : Logic) (s : DeclarationState) → HoldsDeclaration names.old logic s self.old → self.old.mode ≡ Mode.InFormula
            → TakesDeclaration result names.new logic (limited logic [] s (lexeme_as lexeme.entry)) self.new }
        ensures names { Grows names.old names.new }
        ensures only { AddsOnly (IsNameOf (lexeme_as lexeme.entry)) names.old names.new }
    {
        if lexeme.is(Sign::Dot) {
            return self.take_dot(names);
        }
        take_token(&mut self.formula, names, &self.parameters, lexeme)
    }

    /// Takes the dot behind the formula.
    fn take_dot(&mut self, names: &Names) -> Result<(), TokenRefusal>
        ensures { (logic : Logic) (s : DeclarationState) → HoldsDeclaration names.now logic s self.old → self.old.mode ≡ Mode.InFormula
            → TakesDeclaration result names.now logic (limited logic [] s (a_sign Dot)) self.new }
    {
        names.distinct();
        if !self.formula.is_whole() {
            return refused(Code::Unexpected);
        }
        self.mode = Mode::Ended;
        Ok(())
    }

    /// The declared formula, where it ended. Time and memory are linear in its size.
    pub fn finish(self) -> Result<Option<DeclaredFormula>, OutOfMemory>
        ensures { (names : List (List ℕ)) (logic : Logic) (x : List ℕ) (parameters : List (List ℕ)) (w : WrittenFormula) (number : List ℕ → ℕ)
            → HoldsDeclaration names logic (ended x parameters w) self.entry → Agrees number names → IfOk result (λ found. found ≡ Some (declaration_meant number x parameters w)) }
    {
        // A comma behind 255 parameters is refused, so the number fits.
        let Ok(parameters) = u8::try_from(self.parameters.count()) else {
            return Ok(None);
        };
        let Some(formula) = self.formula.finish()? else {
            return Ok(None);
        };
        match self.name {
            Some(name) => Ok(Some(DeclaredFormula {
                name,
                parameters,
                formula,
            })),
            None => Ok(None),
        }
    }
}
