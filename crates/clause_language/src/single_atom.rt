//! Atoms read from a text of their own.
ghost use Rattle.std.specs.Prelude.{◌≡◌, ◌<◌, ◌≤◌, ℕ, List, [], true, false, IfOk, IfErr, length};
ghost use Rattle.fpc_base.specs.Lexeme.{items_of, lexeme_as};
ghost use Rattle.fpc_terms.specs.Adding.{AddsOnly, IsNameAmong, IsNameOf};
ghost use Rattle.fpc_terms.specs.Holding.{IsNamed};
ghost use Rattle.fpc_terms.specs.Name.{AreDifferent, Grows};
ghost use Rattle.fpc_terms.specs.Open.{AreOpen};
ghost use Rattle.clause_language.specs.HoldingAtom.{AtomIsTaken, Front, HoldsAtom, IsAtomEnd, TakesAtom};
ghost use Rattle.clause_language.specs.Naming.{IsAtomNamedBelow};
ghost use Rattle.clause_language.specs.Program.{HasFewArguments};
ghost use Rattle.clause_language.specs.ReadAtom.{AtomIsRead, IsAtomRefusal};
ghost use Rattle.polarised_formulas.specs.ReadProblem.{IsTooLarge};

use crate::atom::Atom;
use crate::clause_reader::finish_atom;
use crate::file::unfinished;
use crate::read::{MOST_BYTES, too_large};
use fpc_base::refusal::{Code, ParseRefusal, TokenRefusal};
use fpc_base::tokens::Tokens;
use fpc_base::tokens::lexeme::Lexeme;
use fpc_terms::names::Names;
use fpc_terms::read::take_token;
use fpc_terms::reader::TermReader;
use fpc_terms::var_table::VarTable;
use std::alloc::Global;

/// Reads an atom: a name with its arguments, and nothing behind it. The number counts its variables, of which there may be any number. Time is
/// linear in the text's length, but for the look-ups of names and variables.
pub fn read_atom(
    alloc: Global,
    names: &mut Names,
    bytes: &[u8],
) -> Result<(Atom, u64), ParseRefusal>
    ensures read { IfOk result (AtomIsRead (items_of bytes.now) names.new) }
    ensures named { IfOk result (λ read. IsAtomNamedBelow (length names.new) read.0) }
    ensures is_open { IfOk result (λ read. AreOpen read.1 read.0.arguments) }
    ensures few { IfOk result (λ read. HasFewArguments read.0) }
    ensures large { 16777216 < length bytes.now → IsTooLarge result }
    ensures refused { length bytes.now ≤ 16777216 → IfErr result (IsAtomRefusal (items_of bytes.now) (length bytes.now)) }
    ensures names { Grows names.old names.new }
    ensures only { AddsOnly (IsNameAmong (items_of bytes.now)) names.old names.new }
{
    if bytes.len() > MOST_BYTES {
        return Err(too_large());
    }
    match read_tokens(alloc, names, bytes) {
        Ok(reader) => {
            names.distinct();
            reader.finish(bytes.len())
        }
        Err(error) => Err(error),
    }
}

/// Reads the tokens of a text, whatever its size.
fn read_tokens(alloc: Global, names: &mut Names, bytes: &[u8]) -> Result<AtomReader, ParseRefusal>
    ensures ok { IfOk result (AtomIsTaken (length bytes.now) (items_of bytes.now) [] names.new) }
    ensures err { IfErr result (IsAtomRefusal (items_of bytes.now) (length bytes.now)) }
    ensures names { Grows names.old names.new }
    ensures only { AddsOnly (IsNameAmong (items_of bytes.now)) names.old names.new }
{
    let mut reader = AtomReader::new(alloc);
    let mut tokens = Tokens::new(bytes);
    'reading: loop {
        match tokens.next() {
            Err(refusal) => return Err(ParseRefusal::Refused(refusal)),
            Ok(None) => return Ok(reader),
            Ok(Some(token)) => {
                let lexeme = token.lexeme();
                match reader.take(names, lexeme) {
                    Ok(()) => {}
                    Err(refusal) => return Err(refusal.placed(token.at)),
                }
            }
        }
    }
}

/// An atom that is being read, token by token. Each token takes constant time, but for the look-ups of names and variables.
#[derive(Drop)]
struct AtomReader {
    alloc: Global,
    /// Whether the atom's name was read.
    is_begun: bool,
    /// The atom as a term, which begins with a name.
    terms: TermReader,
    /// The variables of the atom so far.
    variables: VarTable,
}

impl AtomReader {
    /// The reader of an atom that is to come. It takes no memory.
    fn new(alloc: Global) -> AtomReader
        ensures { (names : List (List ℕ)) → HoldsAtom names [] result }
    {
        AtomReader {
            alloc,
            is_begun: false,
            terms: TermReader::new(alloc),
            variables: VarTable::new(alloc),
        }
    }

    /// Takes a token. What follows a refusal means nothing.
    fn take(&mut self, names: &mut Names, lexeme: Lexeme<'_>) -> Result<(), TokenRefusal>
        requires { IsNamed lexeme }
        ensures taken { (before : Front) → HoldsAtom names.old before self.old → TakesAtom result names.new before (lexeme_as lexeme.entry) self.new }
        ensures names { Grows names.old names.new }
        ensures only { AddsOnly (IsNameOf (lexeme_as lexeme.entry)) names.old names.new }
    {
        if !self.is_begun {
            return self.begin(names, lexeme);
        }
        take_token(&mut self.terms, names, &mut self.variables, None, lexeme)
    }

    /// Takes the first token, which has to be a name.
    fn begin(&mut self, names: &mut Names, lexeme: Lexeme<'_>) -> Result<(), TokenRefusal>
        requires { IsNamed lexeme }
        ensures taken { (before : Front) → HoldsAtom names.old before self.old → self.old.is_begun ≡ false
            → TakesAtom result names.new before (lexeme_as lexeme.entry) self.new }
        ensures names { Grows names.old names.new }
        ensures only { AddsOnly (IsNameOf (lexeme_as lexeme.entry)) names.old names.new }
    {
        match lexeme {
            Lexeme::Name(_) => {
                self.is_begun = true;
                take_token(&mut self.terms, names, &mut self.variables, None, lexeme)
            }
            _ => Err(TokenRefusal::Refused(Code::Unexpected)),
        }
    }

    /// The atom with the number of its variables, at the end of a text of so many bytes. Time and memory are linear in the size of the atom.
    fn finish(self, length: usize) -> Result<(Atom, u64), ParseRefusal>
        ensures { (names : List (List ℕ)) (before : Front) → AreDifferent names → HoldsAtom names before self → IsAtomEnd names length before result }
    {
        self.variables.distinct();
        if !self.terms.is_whole() {
            return Err(unfinished(length));
        }
        let mut terms = self.terms;
        match finish_atom(self.alloc, &mut terms) {
            Ok(atom) => Ok((atom, self.variables.count())),
            Err(_) => Err(ParseRefusal::OutOfMemory),
        }
    }
}
