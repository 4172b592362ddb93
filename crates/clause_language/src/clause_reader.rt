//! A clause that is being read, token by token.
ghost use Rattle.std.specs.Prelude.{◌≡◌, ◌↔◌, ◌++◌, ◌∷◌, [], ℕ, List, true, false, Some, IfOk, IfErr, OnOk, IsTrue};
ghost use Rattle.fpc_base.specs.Lexeme.{lexeme_as, a_sign};
ghost use Rattle.fpc_base.specs.declared.tokens.lexeme.Sign.TheVariants.{If, Comma, Dot};
ghost use Rattle.fpc_terms.specs.Name.{Grows, Agrees, AreDifferent};
ghost use Rattle.fpc_terms.specs.Adding.{AddsOnly, IsNameOf};
ghost use Rattle.fpc_terms.specs.Term.{Args, app, terms_in};
ghost use Rattle.fpc_terms.specs.Holding.{IsNamed};
ghost use Rattle.clause_language.specs.Written.{WrittenClause};
ghost use Rattle.clause_language.specs.Meant.{clause_meant};
ghost use Rattle.clause_language.specs.ClauseMachine.{ClauseState, ended, limited, clause_start};
ghost use Rattle.clause_language.specs.HoldingClause.{HoldsClause, TakesClause, IsAtomOf, is_separator, stands_behind};

use crate::atom::Atom;
use crate::atom_list::Atoms;
use crate::clause::Clause;
use fpc_base::outside::OutOfMemory;
use fpc_base::refusal::{Code, TokenRefusal};
use fpc_base::tokens::lexeme::{Lexeme, Sign};
use fpc_terms::arguments::{arguments, head};
use fpc_terms::names::Names;
use fpc_terms::read::take_token;
use fpc_terms::reader::TermReader;
use fpc_terms::term::TermBuf;
use fpc_terms::var_table::VarTable;
use std::alloc::Global;

/// How many different variables a clause may have.
const MOST_VARIABLES: u64 = 255;

/// What comes next.
#[derive(Clone, Copy, PartialEq, Eq, Debug)]
pub enum Mode {
    /// The name of an atom.
    AtAtom,
    /// A token of an atom, or what stands behind it.
    InAtom,
    /// Nothing.
    Ended,
}

/// A clause that is being read, token by token. Each token takes constant time, but for the look-ups of names and variables, and the end of an
/// atom, which takes time linear in the atom.
#[derive(Drop)]
pub struct ClauseReader {
    alloc: Global,
    mode: Mode,
    /// The head, once it is whole.
    head: Option<Atom>,
    /// The whole atoms of the body.
    body: Atoms,
    /// The atom that is being read.
    terms: TermReader,
    /// The variables of the clause so far.
    variables: VarTable,
}

/// Whether the token may stand behind an atom.
fn is_separator(lexeme: Lexeme<'_>) -> bool
    ensures { result ≡ is_separator (lexeme_as lexeme.entry) }
{
    match lexeme {
        Lexeme::Sign(Sign::If) | Lexeme::Sign(Sign::Comma) | Lexeme::Sign(Sign::Dot) => true,
        _ => false,
    }
}

impl ClauseReader {
    /// The reader of a clause that is to come. It takes no memory.
    pub fn new(alloc: Global) -> ClauseReader
        ensures { (names : List (List ℕ)) → HoldsClause names clause_start result }
    {
        ClauseReader {
            alloc,
            mode: Mode::AtAtom,
            head: None,
            body: Atoms::new(alloc),
            terms: TermReader::new(alloc),
            variables: VarTable::new(alloc),
        }
    }

    /// Whether the dot behind the clause was read.
    pub fn is_ended(&self) -> bool
        ensures { IsTrue result ↔ (self.now.mode ≡ Mode.Ended) }
    {
        self.mode == Mode::Ended
    }

    /// Takes a token. What follows a refusal means nothing.
    pub fn take(&mut self, names: &mut Names, lexeme: Lexeme<'_>) -> Result<(), TokenRefusal>
        requires { IsNamed lexeme }
        ensures taken { (s : ClauseState) → HoldsClause names.old s self.old → TakesClause result names.new (limited s (lexeme_as lexeme.entry)) self.new }
        ensures names { Grows names.old names.new }
        ensures only { AddsOnly (IsNameOf (lexeme_as lexeme.entry)) names.old names.new }
    {
        let mode = self.mode;
        match mode {
            Mode::AtAtom => self.begin_atom(names, lexeme),
            Mode::InAtom => {
                names.distinct();
                if self.stands_behind(lexeme) {
                    return self.take_separator(lexeme);
                }
                self.take_in_atom(names, lexeme)
            }
            Mode::Ended => Err(TokenRefusal::Refused(Code::Unexpected)),
        }
    }

    /// Whether the token stands behind an atom that is whole.
    fn stands_behind(&self, lexeme: Lexeme<'_>) -> bool
        ensures { (names : List (List ℕ)) (s : ClauseState) → AreDifferent names → HoldsClause names s self.now → self.now.mode ≡ Mode.InAtom
            → result ≡ stands_behind s (lexeme_as lexeme.entry) }
    {
        self.variables.distinct();
        is_separator(lexeme) && self.terms.is_whole()
    }

    /// Takes the name of an atom.
    fn begin_atom(&mut self, names: &mut Names, lexeme: Lexeme<'_>) -> Result<(), TokenRefusal>
        requires { IsNamed lexeme }
        ensures taken { (s : ClauseState) → HoldsClause names.old s self.old → self.old.mode ≡ Mode.AtAtom
            → TakesClause result names.new (limited s (lexeme_as lexeme.entry)) self.new }
        ensures names { Grows names.old names.new }
        ensures only { AddsOnly (IsNameOf (lexeme_as lexeme.entry)) names.old names.new }
    {
        match lexeme {
            Lexeme::Name(_) => {
                self.terms = TermReader::new(self.alloc);
                self.mode = Mode::InAtom;
                let most = Some(MOST_VARIABLES);
                take_token(&mut self.terms, names, &mut self.variables, most, lexeme)
            }
            _ => Err(TokenRefusal::Refused(Code::Unexpected)),
        }
    }

    /// Takes a token of an atom.
    fn take_in_atom(&mut self, names: &mut Names, lexeme: Lexeme<'_>) -> Result<(), TokenRefusal>
        requires { IsNamed lexeme }
        ensures taken { (s : ClauseState) → HoldsClause names.old s self.old → self.old.mode ≡ Mode.InAtom → stands_behind s (lexeme_as lexeme.entry) ≡ false
            → TakesClause result names.new (limited s (lexeme_as lexeme.entry)) self.new }
        ensures names { Grows names.old names.new }
        ensures only { AddsOnly (IsNameOf (lexeme_as lexeme.entry)) names.old names.new }
    {
        let most = Some(MOST_VARIABLES);
        take_token(&mut self.terms, names, &mut self.variables, most, lexeme)
    }

    /// Takes a comma, `:-` or a dot behind a whole atom.
    fn take_separator(&mut self, lexeme: Lexeme<'_>) -> Result<(), TokenRefusal>
        ensures { (names : List (List ℕ)) (s : ClauseState) → AreDifferent names → HoldsClause names s self.old → stands_behind s (lexeme_as lexeme.entry) ≡ true
            → TakesClause result names (limited s (lexeme_as lexeme.entry)) self.new }
    {
        match lexeme {
            Lexeme::Sign(Sign::If) => self.end_head(),
            Lexeme::Sign(Sign::Comma) => self.end_body_atom(),
            Lexeme::Sign(Sign::Dot) => self.end(),
            _ => Err(TokenRefusal::Refused(Code::Unexpected)),
        }
    }

    /// Takes `:-` behind the head.
    fn end_head(&mut self) -> Result<(), TokenRefusal>
        ensures { (names : List (List ℕ)) (s : ClauseState) → AreDifferent names → HoldsClause names s self.old → stands_behind s (a_sign If) ≡ true
            → TakesClause result names (limited s (a_sign If)) self.new }
    {
        self.variables.distinct();
        if self.head.is_some() {
            return Err(TokenRefusal::Refused(Code::Unexpected));
        }
        self.put_head(Mode::AtAtom)
    }

    /// Takes a comma behind an atom of the body.
    fn end_body_atom(&mut self) -> Result<(), TokenRefusal>
        ensures { (names : List (List ℕ)) (s : ClauseState) → AreDifferent names → HoldsClause names s self.old → stands_behind s (a_sign Comma) ≡ true
            → TakesClause result names (limited s (a_sign Comma)) self.new }
    {
        self.variables.distinct();
        if self.head.is_none() {
            return Err(TokenRefusal::Refused(Code::Unexpected));
        }
        self.put_in_body(Mode::AtAtom)
    }

    /// Takes the dot behind the last atom.
    fn end(&mut self) -> Result<(), TokenRefusal>
        ensures { (names : List (List ℕ)) (s : ClauseState) → AreDifferent names → HoldsClause names s self.old → stands_behind s (a_sign Dot) ≡ true
            → TakesClause result names (limited s (a_sign Dot)) self.new }
    {
        self.variables.distinct();
        if self.head.is_none() {
            return self.put_head(Mode::Ended);
        }
        self.put_in_body(Mode::Ended)
    }

    /// Makes the atom that is being read the head.
    fn put_head(&mut self, next: Mode) -> Result<(), TokenRefusal>
        ensures ok { OnOk result ((a : Atom) × (IsAtomOf self.old.terms a × (self.new ≡ record self.old { mode = next; head = Some a; terms = self.new.terms }))) }
        ensures err { IfErr result (λ e. e ≡ TokenRefusal.OutOfMemory) }
    {
        let atom = finish_atom(self.alloc, &mut self.terms)?;
        self.head = Some(atom);
        self.mode = next;
        Ok(())
    }

    /// Puts the atom that is being read behind the others of the body.
    fn put_in_body(&mut self, next: Mode) -> Result<(), TokenRefusal>
        ensures ok { OnOk result ((a : Atom) × (IsAtomOf self.old.terms a × (self.new ≡ record self.old { mode = next; body = self.old.body ++ a ∷ []; terms = self.new.terms }))) }
        ensures err { IfErr result (λ e. e ≡ TokenRefusal.OutOfMemory) }
    {
        let atom = finish_atom(self.alloc, &mut self.terms)?;
        self.body.push(atom)?;
        self.mode = next;
        Ok(())
    }

    /// The clause, where it ended.
    pub fn finish(self) -> Option<Clause>
        ensures { (names : List (List ℕ)) (c : WrittenClause) (number : List ℕ → ℕ) → HoldsClause names (ended c) self → Agrees number names
            → result ≡ Some (clause_meant number c) }
    {
        let ClauseReader {
            head,
            body,
            variables,
            ..
        } = self;
        variables.distinct();
        match head {
            Some(head) => Some(Clause {
                head,
                body,
                variables: variables.count(),
            }),
            None => None,
        }
    }
}

/// The atom that the reader of terms holds, where it is whole.
pub(crate) fn finish_atom(alloc: Global, terms: &mut TermReader) -> Result<Atom, OutOfMemory>
    ensures { IfOk result (IsAtomOf terms.old) }
{
    match terms.finish(alloc)? {
        Some(term) => atom_of(alloc, &term),
        // A whole term was read, so only memory can be missing.
        None => Err(OutOfMemory),
    }
}

/// The atom that is written as the term, which is an application.
fn atom_of(alloc: Global, term: &TermBuf) -> Result<Atom, OutOfMemory>
    ensures { (name : ℕ) (ts : Args) → term.now ≡ app name ts → IfOk result (λ a. (a.name ≡ name) × (a.arguments ≡ terms_in ts)) }
{
    match head(term) {
        Some(name) => {
            let arguments = arguments(alloc, term)?;
            Ok(Atom { name, arguments })
        }
        // It is an application, so only memory can be missing.
        None => Err(OutOfMemory),
    }
}
