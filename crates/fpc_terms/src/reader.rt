//! A term that is being read, token by token.
ghost use Rattle.std.specs.Prelude.{◌≡◌, ◌∷◌, [], ℕ, List, Bool, true, false, Some, None, Ok, IfOk, is_some, IsTrue, ◌↔◌};
ghost use Rattle.fpc_base.specs.Lexeme.{lexeme_as, a_variable, a_sign};
ghost use Rattle.fpc_base.specs.declared.tokens.lexeme.Sign.TheVariants.{OpenParenthesis, CloseParenthesis, Comma};
ghost use Rattle.fpc_terms.specs.Name.{Agrees, Grows};
ghost use Rattle.fpc_terms.specs.Adding.{AddsOnly, IsNameOf};
ghost use Rattle.fpc_terms.specs.Term.{Term, all_before, count, cells_of};
ghost use Rattle.fpc_terms.specs.Partial.{leaf_term, arguments_of};
ghost use Rattle.fpc_terms.specs.Written.{WrittenTerm, WrittenArgs, term_meant, args_meant};
ghost use Rattle.fpc_terms.specs.Spot.{Spot, alone, in_arguments};
ghost use Rattle.fpc_terms.specs.Machine.{TermState, wants, named, has, ended, limited, whole_of, is_final};
ghost use Rattle.fpc_terms.specs.Holding.{Holds, Takes, IsNamed, is_variable};

use crate::builder::TermBuilder;
use crate::cell::Cell;
use crate::name::NameId;
use crate::names::Names;
use crate::term::TermBuf;
use fpc_base::outside::OutOfMemory;
use fpc_base::refusal::{Code, TokenRefusal};
use fpc_base::tokens::lexeme::{Lexeme, Sign};
use std::alloc::Global;

/// What comes next.
#[derive(Clone, Copy, PartialEq, Eq, Debug)]
pub enum Mode {
    /// A term.
    Wants,
    /// The arguments of this name, or what stands behind a name without arguments.
    Named(NameId),
    /// What stands behind a term.
    Has,
    /// Nothing: the arguments of the atom are whole.
    Ended,
}

/// A term by itself, or the arguments of an atom, read token by token. Each token takes constant time, but for the look-up
/// of a name.
#[derive(Drop)]
pub struct TermReader {
    mode: Mode,
    is_alone: bool,
    terms: TermBuilder,
}

impl TermReader {
    /// The reader of a term by itself, which is to come. It takes no memory.
    pub fn new(alloc: Global) -> TermReader
        ensures { (number : List ℕ → ℕ) (leaf : List ℕ → Term) → Holds number leaf (wants alone) result }
    {
        TermReader {
            mode: Mode::Wants,
            is_alone: true,
            terms: TermBuilder::new(alloc),
        }
    }

    /// Begins with the arguments of an atom, the first of which is to come. The memory is kept.
    pub fn begin_arguments(&mut self)
        ensures { (number : List ℕ → ℕ) (leaf : List ℕ → Term) → Holds number leaf (wants (in_arguments [])) self.new }
    {
        self.mode = Mode::Wants;
        self.is_alone = false;
        self.terms.clear();
    }

    /// Whether a term comes next.
    pub fn wants_term(&self) -> bool
        ensures { IsTrue result ↔ (self.now.mode ≡ Mode.Wants) }
    {
        self.mode == Mode::Wants
    }

    /// Takes a variable that stands for a bound index.
    pub fn take_bound(&mut self, index: u32) -> Result<(), TokenRefusal>
        ensures { (number : List ℕ → ℕ) (leaf : List ℕ → Term) (known : List ℕ → Bool) (s : TermState) (text : List ℕ)
            → Holds number leaf s self.old → known text ≡ true → leaf text ≡ leaf_term (Cell.Bound index)
            → Takes result number leaf (limited known None [] s (a_variable text)) self.new }
    {
        if !self.wants_term() {
            return Err(TokenRefusal::Refused(Code::Unexpected));
        }
        match self.terms.bound(index) {
            Ok(true) => {
                self.mode = Mode::Has;
                Ok(())
            }
            Ok(false) => Err(TokenRefusal::Refused(Code::ManyArguments)),
            Err(_) => Err(TokenRefusal::OutOfMemory),
        }
    }

    /// Takes a variable that keeps a number.
    pub fn take_numbered(&mut self, number: u64) -> Result<(), TokenRefusal>
        ensures { (numbering : List ℕ → ℕ) (leaf : List ℕ → Term) (known : List ℕ → Bool) (s : TermState) (text : List ℕ)
            → Holds numbering leaf s self.old → known text ≡ true → leaf text ≡ leaf_term (Cell.Var number)
            → Takes result numbering leaf (limited known None [] s (a_variable text)) self.new }
    {
        if !self.wants_term() {
            return Err(TokenRefusal::Refused(Code::Unexpected));
        }
        match self.terms.variable(number) {
            Ok(true) => {
                self.mode = Mode::Has;
                Ok(())
            }
            Ok(false) => Err(TokenRefusal::Refused(Code::ManyArguments)),
            Err(_) => Err(TokenRefusal::OutOfMemory),
        }
    }

    /// Takes a token that is no variable. A name is looked up in the table.
    pub fn take(&mut self, names: &mut Names, lexeme: Lexeme<'_>) -> Result<(), TokenRefusal>
        requires { IsNamed lexeme }
        ensures grows { Grows names.old names.new }
        ensures only { AddsOnly (IsNameOf (lexeme_as lexeme.entry)) names.old names.new }
        ensures taken { (number : List ℕ → ℕ) (leaf : List ℕ → Term) (known : List ℕ → Bool) (s : TermState)
            → Agrees number names.new → Holds number leaf s self.old → is_variable lexeme.entry ≡ false
            → Takes result number leaf (limited known None [] s (lexeme_as lexeme.entry)) self.new }
    {
        let mode = self.mode;
        match mode {
            Mode::Wants => self.take_name(names, lexeme),
            Mode::Named(name) => self.take_behind_name(name, lexeme),
            Mode::Has => self.take_behind(lexeme),
            Mode::Ended => Err(TokenRefusal::Refused(Code::Unexpected)),
        }
    }

    /// Takes the name of a term.
    fn take_name(&mut self, names: &mut Names, lexeme: Lexeme<'_>) -> Result<(), TokenRefusal>
        requires { IsNamed lexeme }
        ensures grows { Grows names.old names.new }
        ensures only { AddsOnly (IsNameOf (lexeme_as lexeme.entry)) names.old names.new }
        ensures taken { (number : List ℕ → ℕ) (leaf : List ℕ → Term) (known : List ℕ → Bool) (s : TermState)
            → Agrees number names.new → Holds number leaf s self.old → self.old.mode ≡ Mode.Wants → is_variable lexeme.entry ≡ false
            → Takes result number leaf (limited known None [] s (lexeme_as lexeme.entry)) self.new }
    {
        match lexeme {
            Lexeme::Name(text) => match names.intern(text) {
                Ok(name) => {
                    self.mode = Mode::Named(name);
                    Ok(())
                }
                Err(_) => Err(TokenRefusal::OutOfMemory),
            },
            _ => Err(TokenRefusal::Refused(Code::Unexpected)),
        }
    }

    /// Takes a token behind a name.
    fn take_behind_name(&mut self, name: NameId, lexeme: Lexeme<'_>) -> Result<(), TokenRefusal>
        ensures { (number : List ℕ → ℕ) (leaf : List ℕ → Term) (known : List ℕ → Bool) (s : TermState)
            → Holds number leaf s self.old → self.old.mode ≡ Mode.Named name
            → Takes result number leaf (limited known None [] s (lexeme_as lexeme.entry)) self.new }
    {
        if lexeme.is(Sign::OpenParenthesis) {
            return self.open_application(name);
        }
        match self.terms.constant(name) {
            Ok(true) => {
                self.mode = Mode::Has;
                self.take_behind(lexeme)
            }
            Ok(false) => Err(TokenRefusal::Refused(Code::ManyArguments)),
            Err(_) => Err(TokenRefusal::OutOfMemory),
        }
    }

    /// Takes the open parenthesis behind a name.
    fn open_application(&mut self, name: NameId) -> Result<(), TokenRefusal>
        ensures { (number : List ℕ → ℕ) (leaf : List ℕ → Term) (known : List ℕ → Bool) (s : TermState)
            → Holds number leaf s self.old → self.old.mode ≡ Mode.Named name
            → Takes result number leaf (limited known None [] s (a_sign OpenParenthesis)) self.new }
    {
        match self.terms.open_application(name) {
            Ok(true) => {
                self.mode = Mode::Wants;
                Ok(())
            }
            Ok(false) => Err(TokenRefusal::Refused(Code::ManyArguments)),
            Err(_) => Err(TokenRefusal::OutOfMemory),
        }
    }

    /// Takes a token behind a term.
    fn take_behind(&mut self, lexeme: Lexeme<'_>) -> Result<(), TokenRefusal>
        ensures { (number : List ℕ → ℕ) (leaf : List ℕ → Term) (known : List ℕ → Bool) (s : TermState)
            → Holds number leaf s self.old → self.old.mode ≡ Mode.Has
            → Takes result number leaf (limited known None [] s (lexeme_as lexeme.entry)) self.new }
    {
        match lexeme {
            Lexeme::Sign(Sign::Comma) => self.take_comma(),
            Lexeme::Sign(Sign::CloseParenthesis) => self.take_close(),
            _ => Err(TokenRefusal::Refused(Code::Unexpected)),
        }
    }

    fn take_comma(&mut self) -> Result<(), TokenRefusal>
        ensures { (number : List ℕ → ℕ) (leaf : List ℕ → Term) (known : List ℕ → Bool) (s : TermState)
            → Holds number leaf s self.old → self.old.mode ≡ Mode.Has → Takes result number leaf (limited known None [] s (a_sign Comma)) self.new }
    {
        if self.stands_alone() {
            return Err(TokenRefusal::Refused(Code::Unexpected));
        }
        if !self.terms.has_room() {
            return Err(TokenRefusal::Refused(Code::ManyArguments));
        }
        self.mode = Mode::Wants;
        Ok(())
    }

    fn take_close(&mut self) -> Result<(), TokenRefusal>
        ensures { (number : List ℕ → ℕ) (leaf : List ℕ → Term) (known : List ℕ → Bool) (s : TermState)
            → Holds number leaf s self.old → self.old.mode ≡ Mode.Has → Takes result number leaf (limited known None [] s (a_sign CloseParenthesis)) self.new }
    {
        if !self.terms.is_closed() {
            self.terms.close();
            return Ok(());
        }
        if self.is_alone {
            return Err(TokenRefusal::Refused(Code::Unexpected));
        }
        self.mode = Mode::Ended;
        Ok(())
    }

    /// Whether what stands here is no argument.
    fn stands_alone(&self) -> bool
        ensures { IsTrue result ↔ ((self.now.is_alone ≡ true) × (self.now.terms.frames ≡ [])) }
    {
        self.is_alone && self.terms.is_closed()
    }

    /// Whether the arguments of the atom are whole.
    pub fn is_ended(&self) -> bool
        ensures { IsTrue result ↔ (self.now.mode ≡ Mode.Ended) }
    {
        self.mode == Mode::Ended
    }

    /// Whether a term by itself is whole, and nothing goes on behind it.
    pub fn is_final(&self) -> bool
        ensures { (number : List ℕ → ℕ) (leaf : List ℕ → Term) (s : TermState) → Holds number leaf s self.now → result ≡ is_final s }
    {
        self.mode == Mode::Has && self.stands_alone()
    }

    /// Whether a term by itself is whole; a name may still get arguments.
    pub fn is_whole(&self) -> bool
        ensures { (number : List ℕ → ℕ) (leaf : List ℕ → Term) (s : TermState) → Holds number leaf s self.now → result ≡ is_some (whole_of s) }
    {
        let mode = self.mode;
        let stands = match mode {
            Mode::Named(_) | Mode::Has => true,
            Mode::Wants | Mode::Ended => false,
        };
        stands && self.stands_alone()
    }

    /// The term by itself, where it is whole. Time and memory are linear in its size.
    pub fn finish(&mut self, alloc: Global) -> Result<Option<TermBuf>, OutOfMemory>
        ensures whole { (number : List ℕ → ℕ) (leaf : List ℕ → Term) (s : TermState)
            (w : WrittenTerm) → Holds number leaf s self.old → whole_of s ≡ Some w
            → IfOk result (λ found. found ≡ Some (term_meant number leaf w)) }
        ensures none { (number : List ℕ → ℕ) (leaf : List ℕ → Term) (s : TermState)
            → Holds number leaf s self.old → whole_of s ≡ None → result ≡ Ok None }
    {
        if !self.is_whole() {
            return Ok(None);
        }
        let mode = self.mode;
        if let Mode::Named(name) = mode {
            self.terms.constant(name)?;
        }
        self.terms.finish(alloc)
    }

    /// The terms that were built: behind the last argument, the arguments.
    pub fn terms(&self) -> &TermBuilder
        ensures { (number : List ℕ → ℕ) (leaf : List ℕ → Term) (args : WrittenArgs) → Holds number leaf (ended args) self.now
            → (result.now.frames ≡ []) × (arguments_of result.now.base ≡ args_meant number leaf args) }
    {
        &self.terms
    }
}
