//! Formulas read from tokens.
ghost use Rattle.std.specs.Prelude.{◌≡◌, ℕ, List, IfOk, IfErr, OnOk, length};
ghost use Rattle.fpc_base.specs.Lexeme.{lexeme_as, items_left};
ghost use Rattle.fpc_base.specs.Tokens.{source_of};
ghost use Rattle.fpc_terms.specs.Name.{Grows, AreDifferent};
ghost use Rattle.fpc_terms.specs.Adding.{AddsOnly, AddsTaken, IsNameOf, IsNameAmong};
ghost use Rattle.fpc_terms.specs.Holding.{IsNamed};
ghost use Rattle.polarised_formulas.specs.Machine.{FormulaState, limited};
ghost use Rattle.fpc_terms.specs.Machine.{is_open};
ghost use Rattle.polarised_formulas.specs.Holding.{Holds};
ghost use Rattle.polarised_formulas.specs.Printing.{AllNamesBelow};
ghost use Rattle.polarised_formulas.specs.ReadFormula.{FormulaIsRead, IsFormulaRefusal, HoldsFor, TakesFor, Leads, ends_before};

use crate::formula::Formula;
use crate::logic::Logic;
use crate::reader::FormulaReader;
use fpc_base::refusal::{Code, ParseRefusal, Refusal, TokenRefusal};
use fpc_base::tokens::Tokens;
use fpc_base::tokens::lexeme::{Lexeme, Sign};
use fpc_terms::names::Names;
use fpc_terms::var_table::VarTable;
use std::alloc::Global;

/// Reads one formula and leaves the tokens directly behind it. A formula that ends with an atom without arguments is
/// told by the token behind it; where that token is refused, so is the formula. Names get their numbers in the table; a
/// variable is one that a quantifier binds or a parameter. Time is linear in the formula's bytes, but for the look-ups
/// of names and of variables.
pub fn read_formula(
    alloc: Global,
    names: &mut Names,
    logic: Logic,
    tokens: &mut Tokens<'_>,
    parameters: &VarTable,
) -> Result<Formula, ParseRefusal>
    ensures ok { IfOk result (FormulaIsRead logic parameters.now (items_left tokens.old) (items_left tokens.new) names.new) }
    ensures err { IfErr result (IsFormulaRefusal logic parameters.now (items_left tokens.old) (length (source_of tokens.old))) }
    ensures source { source_of tokens.new ≡ source_of tokens.old }
    ensures named { IfOk result (AllNamesBelow (length names.new)) }
    ensures names { Grows names.old names.new }
    ensures only { AddsOnly (IsNameAmong (items_left tokens.old)) names.old names.new }
    ensures only_taken { OnOk result (AddsTaken (items_left tokens.old) (items_left tokens.new) names.old names.new) }
{
    match read_whole(alloc, names, logic, *tokens, parameters) {
        Ok((reader, left)) => {
            *tokens = left;
            names.distinct();
            match reader.finish() {
                Ok(Some(formula)) => Ok(formula),
                // A whole formula was read, so only memory can be missing.
                Ok(None) | Err(_) => Err(ParseRefusal::OutOfMemory),
            }
        }
        Err(error) => Err(error),
    }
}

/// Reads tokens until a formula is whole.
fn read_whole<'a>(
    alloc: Global,
    names: &mut Names,
    logic: Logic,
    start: Tokens<'a>,
    parameters: &VarTable,
) -> Result<(FormulaReader<'a>, Tokens<'a>), ParseRefusal>
    ensures ok { IfOk result (λ p. Leads logic parameters.now (items_left start.entry) (items_left p.1) names.new p.0) }
    ensures err { IfErr result (IsFormulaRefusal logic parameters.now (items_left start.entry) (length (source_of start.entry))) }
    ensures source { IfOk result (λ p. source_of p.1 ≡ source_of start.entry) }
    ensures names { Grows names.old names.new }
    ensures only { AddsOnly (IsNameAmong (items_left start.entry)) names.old names.new }
    ensures only_taken { IfOk result (λ p. AddsTaken (items_left start.entry) (items_left p.1) names.old names.new) }
{
    let mut reader = FormulaReader::new(alloc, logic);
    let mut tokens = start;
    'reading: loop {
        names.distinct();
        if reader.is_final() {
            return Ok((reader, tokens));
        }
        let mut ahead = tokens;
        match ahead.next() {
            Err(refusal) => return Err(ParseRefusal::Refused(refusal)),
            Ok(None) => {
                if reader.is_whole() {
                    return Ok((reader, tokens));
                }
                return Err(ParseRefusal::Refused(Refusal {
                    code: Code::Unexpected,
                    at: tokens.length(),
                }));
            }
            Ok(Some(token)) => {
                let lexeme = token.lexeme();
                if ends_before(&reader, lexeme) {
                    return Ok((reader, tokens));
                }
                match take_token(&mut reader, names, parameters, lexeme) {
                    Ok(()) => tokens = ahead,
                    Err(refusal) => return Err(refusal.placed(token.at)),
                }
            }
        }
    }
}

/// Whether the formula is whole and doesn't go on with the token.
fn ends_before(reader: &FormulaReader<'_>, lexeme: Lexeme<'_>) -> bool
    ensures { (number : List ℕ → ℕ) (logic : Logic) (parameters : List (List ℕ)) (s : FormulaState) → Holds number logic parameters s reader.now → result ≡ ends_before s (lexeme_as lexeme.entry) }
{
    reader.is_whole() && !is_open(lexeme)
}

fn is_open(lexeme: Lexeme<'_>) -> bool
    ensures { result ≡ is_open (lexeme_as lexeme.entry) }
{
    match lexeme {
        Lexeme::Sign(Sign::OpenParenthesis) => true,
        _ => false,
    }
}

/// Takes one token of a formula, whose variables are those that a quantifier binds and the parameters. On a refusal the table of names may have grown, and
/// the reader means nothing until another is made. Time is constant, but for the look-ups. Contracts speak of all numberings that agree with the table.
pub fn take_token<'a>(
    reader: &mut FormulaReader<'a>,
    names: &mut Names,
    parameters: &VarTable,
    lexeme: Lexeme<'a>,
) -> Result<(), TokenRefusal>
    requires { IsNamed lexeme }
    ensures taken { (logic : Logic) (s : FormulaState) → HoldsFor names.old logic parameters.now s reader.old
        → TakesFor result names.new logic parameters.now (limited logic parameters.now s (lexeme_as lexeme.entry)) reader.new }
    ensures names { Grows names.old names.new }
    ensures only { AddsOnly (IsNameOf (lexeme_as lexeme.entry)) names.old names.new }
{
    let taken = reader.take(names, parameters, lexeme);
    names.distinct();
    taken
}
