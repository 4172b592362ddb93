//! A definition or certificate file that is being read, token by token.
ghost use Rattle.std.specs.Prelude.{◌≡◌, ℕ, List, Option, Some, Err, OnOk, IfErr};
ghost use Rattle.fpc_base.specs.declared.refusal.Code.TheVariants.{Unexpected};
ghost use Rattle.fpc_base.specs.declared.tokens.lexeme.Sign.TheVariants.{Dot};
ghost use Rattle.fpc_base.specs.declared.tokens.lexeme.Sign.TheVariants as sign;
ghost use Rattle.fpc_base.specs.Lexeme.{lexeme_as, a_name, a_sign};
ghost use Rattle.fpc_terms.specs.Name.{Grows, AreDifferent};
ghost use Rattle.fpc_terms.specs.Adding.{AddsOnly, IsNameOf};
ghost use Rattle.fpc_terms.specs.Holding.{IsNamed};
ghost use Rattle.clause_language.specs.Written.{WrittenItem};
ghost use Rattle.clause_language.specs.ClauseMachine.{ClauseState};
ghost use Rattle.clause_language.specs.DeclarationMachine.{DeclarationState, at_name};
ghost use Rattle.clause_language.specs.FileMachine.{FileState, start, in_declaration, in_clause, declared, claused, is_other, begun_within, limited};
ghost use Rattle.clause_language.specs.HoldingFile.{HoldsFile, TakesFile, AreTaken, IsDefinitionEnd, IsCertificateEnd};

use crate::certificate::Certificate;
use crate::clause_list::Clauses;
use crate::clause_reader::ClauseReader;
use crate::declaration_list::Declared;
use crate::declaration_reader::DeclarationReader;
use crate::definition::Definition;
use fpc_base::outside::OutOfMemory;
use fpc_base::refusal::{Code, ParseRefusal, Refusal, TokenRefusal};
use fpc_base::tokens::lexeme::{Lexeme, Sign};
use fpc_terms::names::Names;
use fpc_terms::read::take_token;
use fpc_terms::reader::TermReader;
use fpc_terms::var_table::VarTable;
use polarised_formulas::logic::Logic;
use polarised_formulas::problem::logic_of;
use std::alloc::Global;
use std::mem;

/// What a file is.
#[derive(Clone, Copy, PartialEq, Eq, Debug)]
pub enum FileKind {
    Definition,
    Certificate,
}

/// What comes next.
#[derive(Clone, Copy, PartialEq, Eq, Debug)]
pub enum Phase {
    /// The word of the logic.
    Start,
    /// An item, the word `certificate`, or the end.
    AtItem,
    /// A token of a declared formula.
    InDeclaration,
    /// A token of a clause.
    InClause,
    /// A token of the certificate's term, or the dot behind it.
    InTerm,
    /// Nothing.
    Finished,
}

/// A definition or certificate file that is being read, token by token. Each token takes constant time, but for the look-ups of names and variables,
/// and the end of an atom or of an item, which takes time linear in it. Memory is linear in what was read.
#[derive(Drop)]
pub struct FileReader<'a> {
    alloc: Global,
    kind: FileKind,
    /// The logic that is expected, if there is one.
    expected: Option<Logic>,
    phase: Phase,
    /// The logic of the file, once its word is read.
    logic: Logic,
    /// The names of the formulas that are declared.
    taken: VarTable,
    declared: Declared,
    clauses: Clauses,
    declaration: DeclarationReader<'a>,
    clause: ClauseReader,
    /// The certificate's term and its variables.
    terms: TermReader,
    variables: VarTable,
}

/// Whether a logic is expected and this is the other one.
fn is_other(expected: Option<Logic>, logic: Logic) -> bool
    ensures { result ≡ is_other expected logic }
{
    match (expected, logic) {
        (Some(Logic::Lkf), Logic::Ljf) => true,
        (Some(Logic::Ljf), Logic::Lkf) => true,
        _ => false,
    }
}

fn refused(code: Code) -> Result<(), TokenRefusal>
    ensures { result ≡ Err (TokenRefusal.Refused code) }
{
    Err(TokenRefusal::Refused(code))
}

impl<'a> FileReader<'a> {
    /// The reader of a file that is to come, where a logic may be expected and the formulas of some names are declared already. It takes no memory.
    pub fn new(
        alloc: Global,
        kind: FileKind,
        expected: Option<Logic>,
        taken: VarTable,
    ) -> FileReader<'a>
        ensures { (names earlier : List (List ℕ)) → AreTaken earlier taken → HoldsFile names kind expected earlier start result }
    {
        FileReader {
            alloc,
            kind,
            expected,
            phase: Phase::Start,
            // The word of the logic tells which it is.
            logic: Logic::Lkf,
            taken,
            declared: Declared::new(alloc),
            clauses: Clauses::new(alloc),
            declaration: DeclarationReader::new(alloc, Logic::Lkf),
            clause: ClauseReader::new(alloc),
            terms: TermReader::new(alloc),
            variables: VarTable::new(alloc),
        }
    }

    /// Takes a token. What follows a refusal means nothing.
    pub fn take(&mut self, names: &mut Names, lexeme: Lexeme<'a>) -> Result<(), TokenRefusal>
        requires { IsNamed lexeme }
        ensures taken { (kind : FileKind) (expected : Option Logic) (earlier : List (List ℕ)) (s : FileState) → HoldsFile names.old kind expected earlier s self.old
            → TakesFile result names.new kind expected earlier (limited kind expected earlier s (lexeme_as lexeme.entry)) self.new }
        ensures names { Grows names.old names.new }
        ensures only { AddsOnly (IsNameOf (lexeme_as lexeme.entry)) names.old names.new }
    {
        let phase = self.phase;
        match phase {
            Phase::Start => self.take_logic(lexeme),
            Phase::AtItem => self.begin(names, lexeme),
            Phase::InDeclaration => self.take_in_declaration(names, lexeme),
            Phase::InClause => self.take_in_clause(names, lexeme),
            Phase::InTerm => self.take_in_term(names, lexeme),
            Phase::Finished => refused(Code::Unexpected),
        }
    }

    /// Takes the word of the logic.
    fn take_logic(&mut self, lexeme: Lexeme<'a>) -> Result<(), TokenRefusal>
        ensures { (names : List (List ℕ)) (kind : FileKind) (expected : Option Logic) (earlier : List (List ℕ)) (s : FileState) → HoldsFile names kind expected earlier s self.old
            → self.old.phase ≡ Phase.Start → TakesFile result names kind expected earlier (limited kind expected earlier s (lexeme_as lexeme.entry)) self.new }
    {
        match lexeme {
            Lexeme::Name(text) => match logic_of(text) {
                Some(logic) => self.begin_in(logic),
                None => refused(Code::Unexpected),
            },
            _ => refused(Code::Unexpected),
        }
    }

    /// Begins the items of a file of the logic.
    fn begin_in(&mut self, logic: Logic) -> Result<(), TokenRefusal>
        ensures { (names : List (List ℕ)) (kind : FileKind) (expected : Option Logic) (earlier : List (List ℕ)) → HoldsFile names kind expected earlier start self.old
            → TakesFile result names kind expected earlier (begun_within expected (Some logic)) self.new }
    {
        if is_other(self.expected, logic) {
            return refused(Code::WrongCalculus);
        }
        self.logic = logic;
        self.phase = Phase::AtItem;
        Ok(())
    }

    /// Takes the first token of an item, or the word `certificate`.
    fn begin(&mut self, names: &mut Names, lexeme: Lexeme<'a>) -> Result<(), TokenRefusal>
        requires { IsNamed lexeme }
        ensures taken { (kind : FileKind) (expected : Option Logic) (earlier : List (List ℕ)) (s : FileState) → HoldsFile names.old kind expected earlier s self.old
            → self.old.phase ≡ Phase.AtItem → TakesFile result names.new kind expected earlier (limited kind expected earlier s (lexeme_as lexeme.entry)) self.new }
        ensures names { Grows names.old names.new }
        ensures only { AddsOnly (IsNameOf (lexeme_as lexeme.entry)) names.old names.new }
    {
        match lexeme {
            Lexeme::Sign(Sign::Formula) => {
                self.declaration = DeclarationReader::new(self.alloc, self.logic);
                self.phase = Phase::InDeclaration;
                Ok(())
            }
            Lexeme::Sign(Sign::Certificate) => self.begin_term(),
            Lexeme::Name(_) => self.begin_clause(names, lexeme),
            _ => refused(Code::Unexpected),
        }
    }

    /// Takes the word `certificate`, which a definition doesn't have.
    fn begin_term(&mut self) -> Result<(), TokenRefusal>
        ensures { (names : List (List ℕ)) (kind : FileKind) (expected : Option Logic) (earlier : List (List ℕ)) (s : FileState) → HoldsFile names kind expected earlier s self.old
            → self.old.phase ≡ Phase.AtItem → TakesFile result names kind expected earlier (limited kind expected earlier s (a_sign sign.Certificate)) self.new }
    {
        let kind = self.kind;
        match kind {
            FileKind::Definition => refused(Code::Unexpected),
            FileKind::Certificate => {
                self.phase = Phase::InTerm;
                Ok(())
            }
        }
    }

    /// Takes the name that a clause begins with.
    fn begin_clause(&mut self, names: &mut Names, lexeme: Lexeme<'a>) -> Result<(), TokenRefusal>
        requires { IsNamed lexeme }
        ensures taken { (kind : FileKind) (expected : Option Logic) (earlier : List (List ℕ)) (s : FileState) (x : List ℕ) → HoldsFile names.old kind expected earlier s self.old
            → self.old.phase ≡ Phase.AtItem → lexeme_as lexeme.entry ≡ a_name x
            → TakesFile result names.new kind expected earlier (limited kind expected earlier s (lexeme_as lexeme.entry)) self.new }
        ensures names { Grows names.old names.new }
        ensures only { AddsOnly (IsNameOf (lexeme_as lexeme.entry)) names.old names.new }
    {
        self.clause = ClauseReader::new(self.alloc);
        self.phase = Phase::InClause;
        self.clause.take(names, lexeme)
    }

    /// Takes a token of a declared formula.
    fn take_in_declaration(
        &mut self,
        names: &mut Names,
        lexeme: Lexeme<'a>,
    ) -> Result<(), TokenRefusal>
        requires { IsNamed lexeme }
        ensures taken { (kind : FileKind) (expected : Option Logic) (earlier : List (List ℕ)) (s : FileState) → HoldsFile names.old kind expected earlier s self.old
            → self.old.phase ≡ Phase.InDeclaration → TakesFile result names.new kind expected earlier (limited kind expected earlier s (lexeme_as lexeme.entry)) self.new }
        ensures names { Grows names.old names.new }
        ensures only { AddsOnly (IsNameOf (lexeme_as lexeme.entry)) names.old names.new }
    {
        if self.declaration.is_at_name() {
            return self.take_declared_name(names, lexeme);
        }
        match self.declaration.take(names, lexeme) {
            Ok(()) => {
                names.distinct();
                self.end_declaration()
            }
            Err(refusal) => Err(refusal),
        }
    }

    /// Takes the name of a declared formula, which has to be new.
    fn take_declared_name(
        &mut self,
        names: &mut Names,
        lexeme: Lexeme<'a>,
    ) -> Result<(), TokenRefusal>
        requires { IsNamed lexeme }
        ensures taken { (kind : FileKind) (expected : Option Logic) (earlier : List (List ℕ)) (logic : Logic) (items : List WrittenItem)
            → HoldsFile names.old kind expected earlier (in_declaration logic items at_name) self.old
            → TakesFile result names.new kind expected earlier (limited kind expected earlier (in_declaration logic items at_name) (lexeme_as lexeme.entry)) self.new }
        ensures names { Grows names.old names.new }
        ensures only { AddsOnly (IsNameOf (lexeme_as lexeme.entry)) names.old names.new }
    {
        match lexeme {
            Lexeme::Name(text) => {
                if self.taken.find(text).is_some() {
                    return refused(Code::DuplicateFormula);
                }
                self.taken.number(text)?;
                self.declaration.take(names, lexeme)
            }
            _ => refused(Code::Unexpected),
        }
    }

    /// Puts the declared formula behind the others, where it ended.
    fn end_declaration(&mut self) -> Result<(), TokenRefusal>
        ensures ok { (names : List (List ℕ)) (kind : FileKind) (expected : Option Logic) (earlier : List (List ℕ)) (logic : Logic) (items : List WrittenItem) (d : DeclarationState)
            → AreDifferent names → HoldsFile names kind expected earlier (in_declaration logic items d) self.old → OnOk result (HoldsFile names kind expected earlier (declared logic items d) self.new) }
        ensures err { IfErr result (λ e. e ≡ TokenRefusal.OutOfMemory) }
    {
        if !self.declaration.is_ended() {
            return Ok(());
        }
        let next = DeclarationReader::new(self.alloc, self.logic);
        let ended = mem::replace(&mut self.declaration, next);
        match ended.finish()? {
            Some(declared) => {
                self.declared.push(declared)?;
                self.phase = Phase::AtItem;
                Ok(())
            }
            // It ended, so only memory can be missing.
            None => Err(TokenRefusal::OutOfMemory),
        }
    }

    /// Takes a token of a clause.
    fn take_in_clause(&mut self, names: &mut Names, lexeme: Lexeme<'a>) -> Result<(), TokenRefusal>
        requires { IsNamed lexeme }
        ensures taken { (kind : FileKind) (expected : Option Logic) (earlier : List (List ℕ)) (s : FileState) → HoldsFile names.old kind expected earlier s self.old
            → self.old.phase ≡ Phase.InClause → TakesFile result names.new kind expected earlier (limited kind expected earlier s (lexeme_as lexeme.entry)) self.new }
        ensures names { Grows names.old names.new }
        ensures only { AddsOnly (IsNameOf (lexeme_as lexeme.entry)) names.old names.new }
    {
        match self.clause.take(names, lexeme) {
            Ok(()) => {
                names.distinct();
                self.end_clause()
            }
            Err(refusal) => Err(refusal),
        }
    }

    /// Puts the clause behind the others, where it ended.
    fn end_clause(&mut self) -> Result<(), TokenRefusal>
        ensures ok { (names : List (List ℕ)) (kind : FileKind) (expected : Option Logic) (earlier : List (List ℕ)) (logic : Logic) (items : List WrittenItem) (s : ClauseState)
            → AreDifferent names → HoldsFile names kind expected earlier (in_clause logic items s) self.old → OnOk result (HoldsFile names kind expected earlier (claused logic items s) self.new) }
        ensures err { IfErr result (λ e. e ≡ TokenRefusal.OutOfMemory) }
    {
        if !self.clause.is_ended() {
            return Ok(());
        }
        let ended = mem::replace(&mut self.clause, ClauseReader::new(self.alloc));
        match ended.finish() {
            Some(clause) => {
                self.clauses.push(clause)?;
                self.phase = Phase::AtItem;
                Ok(())
            }
            // It ended, so there is one.
            None => Err(TokenRefusal::OutOfMemory),
        }
    }

    /// Takes a token of the certificate's term, or the dot behind it.
    fn take_in_term(&mut self, names: &mut Names, lexeme: Lexeme<'a>) -> Result<(), TokenRefusal>
        requires { IsNamed lexeme }
        ensures taken { (kind : FileKind) (expected : Option Logic) (earlier : List (List ℕ)) (s : FileState) → HoldsFile names.old kind expected earlier s self.old
            → self.old.phase ≡ Phase.InTerm → TakesFile result names.new kind expected earlier (limited kind expected earlier s (lexeme_as lexeme.entry)) self.new }
        ensures names { Grows names.old names.new }
        ensures only { AddsOnly (IsNameOf (lexeme_as lexeme.entry)) names.old names.new }
    {
        if lexeme.is(Sign::Dot) {
            return self.take_dot(names);
        }
        take_token(&mut self.terms, names, &mut self.variables, None, lexeme)
    }

    /// Takes the dot behind the certificate's term.
    fn take_dot(&mut self, names: &Names) -> Result<(), TokenRefusal>
        ensures { (kind : FileKind) (expected : Option Logic) (earlier : List (List ℕ)) (s : FileState) → HoldsFile names.now kind expected earlier s self.old
            → self.old.phase ≡ Phase.InTerm → TakesFile result names.now kind expected earlier (limited kind expected earlier s (a_sign Dot)) self.new }
    {
        names.distinct();
        self.variables.distinct();
        if !self.terms.is_whole() {
            return refused(Code::Unexpected);
        }
        self.phase = Phase::Finished;
        Ok(())
    }

    /// The definition, at the end of a file of so many bytes.
    pub fn finish_definition(self, length: usize) -> Result<Definition, ParseRefusal>
        ensures { (names : List (List ℕ)) (kind : FileKind) (expected : Option Logic) (earlier : List (List ℕ)) (s : FileState) → HoldsFile names kind expected earlier s self.entry
            → IsDefinitionEnd names length s result }
    {
        match self.phase {
            Phase::AtItem => Ok(Definition {
                logic: self.logic,
                declared: self.declared,
                clauses: self.clauses,
            }),
            _ => Err(unfinished(length)),
        }
    }

    /// The certificate, at the end of a file of so many bytes. Time and memory are linear in the size of its term.
    pub fn finish_certificate(self, length: usize) -> Result<Certificate, ParseRefusal>
        ensures { (names : List (List ℕ)) (kind : FileKind) (expected : Option Logic) (earlier : List (List ℕ)) (s : FileState) → HoldsFile names kind expected earlier s self.entry
            → IsCertificateEnd names length s result }
    {
        match self.phase {
            Phase::Finished => {
                self.variables.distinct();
                let mut terms = self.terms;
                match terms.finish(self.alloc) {
                    Ok(Some(term)) => Ok(Certificate {
                        logic: self.logic,
                        declared: self.declared,
                        clauses: self.clauses,
                        term,
                        variables: self.variables.count(),
                    }),
                    // A whole term was read, so only memory can be missing.
                    Ok(None) | Err(_) => Err(ParseRefusal::OutOfMemory),
                }
            }
            _ => Err(unfinished(length)),
        }
    }
}

/// The refusal of a text that ends too early, after so many bytes.
pub(crate) fn unfinished(length: usize) -> ParseRefusal
    ensures { result ≡ ParseRefusal.Refused (record { code = Unexpected; at = length }) }
{
    ParseRefusal::Refused(Refusal {
        code: Code::Unexpected,
        at: length,
    })
}
