//! Terms read from tokens.
ghost use Rattle.std.specs.Prelude.{◌≡◌, ◌∷◌, [], ℕ, List, IfOk, IfErr, OnOk, length, Option, false};
ghost use Rattle.fpc_base.specs.Lexeme.{lexeme_as, items_left, a_variable};
ghost use Rattle.fpc_base.specs.Tokens.{source_of};
ghost use Rattle.fpc_terms.specs.Name.{Grows, AreDifferent, with_text};
ghost use Rattle.fpc_terms.specs.Adding.{AddsOnly, AddsTaken, IsNameOf, IsNameAmong};
ghost use Rattle.fpc_terms.specs.Printing.{HasNamesBelow};
ghost use Rattle.fpc_terms.specs.Term.{Term};
ghost use Rattle.fpc_terms.specs.Written.{variables_in};
ghost use Rattle.fpc_terms.specs.Machine.{TermState, limited, is_too_many, is_open, ends_before};
ghost use Rattle.fpc_terms.specs.Holding.{IsNamed, is_variable, Holds};
ghost use Rattle.fpc_terms.specs.ReadTerm.{any_variable, TermIsRead, IsTermRefusal, HoldsFor, TakesFor, Leads};

use crate::names::Names;
use crate::reader::TermReader;
use crate::term::TermBuf;
use crate::var_table::VarTable;
use fpc_base::refusal::{Code, ParseRefusal, Refusal, TokenRefusal};
use fpc_base::tokens::Tokens;
use fpc_base::tokens::lexeme::{Lexeme, Sign};
use std::alloc::Global;

/// Reads one term and leaves the tokens directly behind it. A name without arguments is told by the token behind it;
/// where that token is refused, so is the term. Names and variables get their numbers in the tables. Where the table has `most` variables or more, a
/// variable that it doesn't have is refused as ManyVariables. Time is linear in the term's bytes, but for the look-ups.
pub fn read_term(
    alloc: Global,
    names: &mut Names,
    tokens: &mut Tokens<'_>,
    vars: &mut VarTable,
    most: Option<u64>,
) -> Result<TermBuf, ParseRefusal>
    ensures ok { IfOk result (TermIsRead most (items_left tokens.old) (items_left tokens.new) names.new vars.old vars.new) }
    ensures err { IfErr result (IsTermRefusal most (items_left tokens.old) vars.old (length (source_of tokens.old))) }
    ensures source { source_of tokens.new ≡ source_of tokens.old }
    ensures named { IfOk result (HasNamesBelow (length names.new)) }
    ensures names { Grows names.old names.new }
    ensures only { AddsOnly (IsNameAmong (items_left tokens.old)) names.old names.new }
    ensures only_taken { OnOk result (AddsTaken (items_left tokens.old) (items_left tokens.new) names.old names.new) }
    ensures variables { Grows vars.old vars.new }
{
    let (mut reader, left) = read_whole(alloc, names, *tokens, vars, most)?;
    *tokens = left;
    names.distinct();
    vars.distinct();
    match reader.finish(alloc) {
        Ok(Some(term)) => Ok(term),
        // A whole term was read, so only memory can be missing.
        Ok(None) | Err(_) => Err(ParseRefusal::OutOfMemory),
    }
}

/// Reads tokens until a term is whole.
fn read_whole<'a>(
    alloc: Global,
    names: &mut Names,
    start: Tokens<'a>,
    vars: &mut VarTable,
    most: Option<u64>,
) -> Result<(TermReader, Tokens<'a>), ParseRefusal>
    ensures ok { IfOk result (λ p. Leads most (items_left start.entry) (items_left p.1) names.new vars.old vars.new p.0) }
    ensures err { IfErr result (IsTermRefusal most (items_left start.entry) vars.old (length (source_of start.entry))) }
    ensures source { IfOk result (λ p. source_of p.1 ≡ source_of start.entry) }
    ensures names { Grows names.old names.new }
    ensures only { AddsOnly (IsNameAmong (items_left start.entry)) names.old names.new }
    ensures only_taken { IfOk result (λ p. AddsTaken (items_left start.entry) (items_left p.1) names.old names.new) }
    ensures variables { Grows vars.old vars.new }
{
    let mut reader = TermReader::new(alloc);
    let mut tokens = start;
    'reading: loop {
        names.distinct();
        vars.distinct();
        if reader.is_final() {
            return Ok((reader, tokens));
        }
        let mut ahead = tokens;
        match ahead.next() {
            Err(refusal) => return Err(ParseRefusal::Refused(refusal)),
            Ok(None) => {
                if reader.is_whole() {
                    return Ok((reader, tokens));
                }
                return Err(ParseRefusal::Refused(Refusal {
                    code: Code::Unexpected,
                    at: tokens.length(),
                }));
            }
            Ok(Some(token)) => {
                let lexeme = token.lexeme();
                if ends_before(&reader, lexeme) {
                    return Ok((reader, tokens));
                }
                match take_token(&mut reader, names, vars, most, lexeme) {
                    Ok(()) => tokens = ahead,
                    Err(refusal) => return Err(refusal.placed(token.at)),
                }
            }
        }
    }
}

/// Whether the term is whole and doesn't go on with the token.
fn ends_before(reader: &TermReader, lexeme: Lexeme<'_>) -> bool
    ensures { (number : List ℕ → ℕ) (leaf : List ℕ → Term) (s : TermState) → Holds number leaf s reader.now → result ≡ ends_before s (lexeme_as lexeme.entry) }
{
    reader.is_whole() && !is_open(lexeme)
}

fn is_open(lexeme: Lexeme<'_>) -> bool
    ensures { result ≡ is_open (lexeme_as lexeme.entry) }
{
    match lexeme {
        Lexeme::Sign(Sign::OpenParenthesis) => true,
        _ => false,
    }
}

/// Takes one token of a term whose variables get numbers in the table, where the table may hold at most `most` variables: with that many in it, a variable
/// that it doesn't have is refused as ManyVariables. On a refusal the tables may have grown, and the reader means nothing until it begins anew. Time is constant,
/// but for the look-ups.
pub fn take_token(
    reader: &mut TermReader,
    names: &mut Names,
    vars: &mut VarTable,
    most: Option<u64>,
    lexeme: Lexeme<'_>,
) -> Result<(), TokenRefusal>
    requires { IsNamed lexeme }
    ensures taken { (s : TermState) → HoldsFor names.old vars.old s reader.old
        → TakesFor result names.new vars.new (limited any_variable most vars.old s (lexeme_as lexeme.entry)) reader.new }
    ensures names { Grows names.old names.new }
    ensures only { AddsOnly (IsNameOf (lexeme_as lexeme.entry)) names.old names.new }
    ensures variables { Grows vars.old vars.new }
    ensures counted { OnOk result (vars.new ≡ variables_in (lexeme_as lexeme.entry ∷ []) vars.old) }
{
    match lexeme {
        Lexeme::Variable(name) => {
            names.distinct();
            take_variable(reader, vars, most, name)
        }
        _ => {
            vars.distinct();
            take_other(reader, names, lexeme)
        }
    }
}

/// Takes a token that is no variable.
fn take_other(
    reader: &mut TermReader,
    names: &mut Names,
    lexeme: Lexeme<'_>,
) -> Result<(), TokenRefusal>
    requires { IsNamed lexeme }
    ensures taken { (most : Option ℕ) (vars : List (List ℕ)) (s : TermState) → AreDifferent vars → is_variable lexeme.entry ≡ false → HoldsFor names.old vars s reader.old
        → TakesFor result names.new vars (limited any_variable most vars s (lexeme_as lexeme.entry)) reader.new }
    ensures names { Grows names.old names.new }
    ensures only { AddsOnly (IsNameOf (lexeme_as lexeme.entry)) names.old names.new }
{
    let taken = reader.take(names, lexeme);
    names.distinct();
    taken
}

/// Takes a variable, where it may come and the table may hold it.
fn take_variable(
    reader: &mut TermReader,
    vars: &mut VarTable,
    most: Option<u64>,
    name: &[u8],
) -> Result<(), TokenRefusal>
    ensures taken { (names : List (List ℕ)) (s : TermState) → AreDifferent names → HoldsFor names vars.old s reader.old
        → TakesFor result names vars.new (limited any_variable most vars.old s (a_variable name.now)) reader.new }
    ensures variables { Grows vars.old vars.new }
    ensures counted { OnOk result (vars.new ≡ with_text vars.old name.now) }
{
    vars.distinct();
    if !reader.wants_term() {
        return Err(TokenRefusal::Refused(Code::Unexpected));
    }
    if is_too_many(vars, most, name) {
        return Err(TokenRefusal::Refused(Code::ManyVariables));
    }
    match vars.number(name) {
        Ok(number) => {
            vars.distinct();
            reader.take_numbered(number)
        }
        Err(_) => Err(TokenRefusal::OutOfMemory),
    }
}

/// Whether the variable is new, and there are as many as may be.
fn is_too_many(vars: &VarTable, most: Option<u64>, name: &[u8]) -> bool
    ensures { result ≡ is_too_many most vars.now (a_variable name.now) }
{
    match most {
        Some(most) => vars.find(name).is_none() && most <= vars.count(),
        None => false,
    }
}
