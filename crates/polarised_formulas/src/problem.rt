//! Problems: a formula and the logic in which it is to be proved.
ghost use Rattle.std.specs.Prelude.{◌≡◌, [], ℕ, List, ◌<◌, ◌≤◌, length, IfOk, IfErr};
ghost use Rattle.fpc_base.specs.Lexeme.{lexeme_as, items_of, a_sign};
ghost use Rattle.fpc_base.specs.declared.tokens.lexeme.Sign.TheVariants.{Dot};
ghost use Rattle.fpc_terms.specs.Name.{Grows};
ghost use Rattle.fpc_terms.specs.Adding.{AddsOnly, IsNameOf, IsNameAmong};
ghost use Rattle.fpc_terms.specs.Holding.{IsNamed};
ghost use Rattle.polarised_formulas.specs.Formula.{IsClosed, IsLkf, IsOfLogic};
ghost use Rattle.polarised_formulas.specs.declared.logic.Logic.TheVariants.{Lkf};
ghost use Rattle.polarised_formulas.specs.Machine.{ProblemState, start, limited_problem, logic_of};
ghost use Rattle.polarised_formulas.specs.Printing.{AllNamesBelow};
ghost use Rattle.polarised_formulas.specs.ReadProblem.{IsTooLarge, ProblemIsRead, IsProblemRefusal, HoldsProblem, TakesProblem, is_dot, GoalOf, IsUnfinished};

use crate::formula::Formula;
use crate::logic::Logic;
use crate::read::take_token;
use crate::reader::FormulaReader;
use fpc_base::refusal::{Code, ParseRefusal, Refusal, TokenRefusal};
use fpc_base::tokens::Tokens;
use fpc_base::tokens::lexeme::{Lexeme, Sign};
use fpc_terms::names::Names;
use fpc_terms::var_table::VarTable;
use std::alloc::Global;

/// How many bytes a problem may have.
const MOST_BYTES: usize = 16_777_216;

/// A formula, and the logic in which it is to be proved.
#[derive(Drop)]
pub struct Problem {
    pub logic: Logic,
    pub goal: Formula,
}

/// Reads a problem: `lkf F.` or `ljf F.`. Names get their numbers in the table.
/// Memory is linear in the number of bytes, and so is the time, but for the look-ups of names and of variables.
pub fn read_problem(alloc: Global, names: &mut Names, bytes: &[u8]) -> Result<Problem, ParseRefusal>
    ensures closed { IfOk result (λ p. IsClosed p.goal) }
    ensures of_logic { IfOk result (λ p. IsOfLogic p.logic p.goal) }
    ensures lkf { IfOk result (λ p. p.logic ≡ Lkf → IsLkf p.goal) }
    ensures read { IfOk result (λ p. ProblemIsRead (items_of bytes.now) names.new p.logic p.goal) }
    ensures named { IfOk result (λ p. AllNamesBelow (length names.new) p.goal) }
    ensures large { 16777216 < length bytes.now → IsTooLarge result }
    ensures refused { length bytes.now ≤ 16777216 → IfErr result (IsProblemRefusal (items_of bytes.now) (length bytes.now)) }
    ensures names { Grows names.old names.new }
    ensures only { AddsOnly (IsNameAmong (items_of bytes.now)) names.old names.new }
{
    if bytes.len() > MOST_BYTES {
        return Err(ParseRefusal::Refused(Refusal {
            code: Code::TooLarge,
            at: MOST_BYTES,
        }));
    }
    match read_tokens(alloc, names, bytes) {
        Ok(problem) => {
            names.distinct();
            Ok(problem)
        }
        Err(error) => Err(error),
    }
}

/// Reads a problem, whatever its size.
fn read_tokens(alloc: Global, names: &mut Names, bytes: &[u8]) -> Result<Problem, ParseRefusal>
    ensures ok { IfOk result (λ p. ProblemIsRead (items_of bytes.now) names.new p.logic p.goal) }
    ensures err { IfErr result (IsProblemRefusal (items_of bytes.now) (length bytes.now)) }
    ensures names { Grows names.old names.new }
    ensures only { AddsOnly (IsNameAmong (items_of bytes.now)) names.old names.new }
{
    let none = VarTable::new(alloc);
    let mut reader = ProblemReader::new(alloc);
    let mut tokens = Tokens::new(bytes);
    'reading: loop {
        match tokens.next() {
            Err(refusal) => return Err(ParseRefusal::Refused(refusal)),
            Ok(None) => return reader.finish(bytes.len()),
            Ok(Some(token)) => {
                let lexeme = token.lexeme();
                match reader.take(names, &none, lexeme) {
                    Ok(()) => {}
                    Err(refusal) => return Err(refusal.placed(token.at)),
                }
            }
        }
    }
}

/// What comes next.
#[derive(Clone, Copy, PartialEq, Eq, Debug)]
pub enum Phase {
    /// The word of the logic.
    Start,
    /// The formula of a logic, or the dot behind it.
    Reading(Logic),
    /// Nothing.
    Finished(Logic),
}

/// A problem that is being read, token by token.
#[derive(Drop)]
pub struct ProblemReader<'a> {
    phase: Phase,
    formula: FormulaReader<'a>,
}

/// The logic of a word, `lkf` or `ljf`, that a file begins with.
pub fn logic_of(text: &[u8]) -> Option<Logic>
    ensures { result ≡ logic_of text.now }
{
    if text == b"lkf".as_slice() {
        Some(Logic::Lkf)
    } else if text == b"ljf".as_slice() {
        Some(Logic::Ljf)
    } else {
        None
    }
}

fn is_dot(lexeme: Lexeme<'_>) -> bool
    ensures { result ≡ is_dot (lexeme_as lexeme.entry) }
{
    match lexeme {
        Lexeme::Sign(Sign::Dot) => true,
        _ => false,
    }
}

impl<'a> ProblemReader<'a> {
    fn new(alloc: Global) -> ProblemReader<'a>
        ensures { (names : List (List ℕ)) → HoldsProblem names start result }
    {
        ProblemReader {
            phase: Phase::Start,
            // The word of the logic tells which it is.
            formula: FormulaReader::new(alloc, Logic::Lkf),
        }
    }

    /// Takes a token. There are no parameters.
    fn take(
        &mut self,
        names: &mut Names,
        none: &VarTable,
        lexeme: Lexeme<'a>,
    ) -> Result<(), TokenRefusal>
        requires named { IsNamed lexeme }
        requires none { none.now ≡ [] }
        ensures taken { (s : ProblemState) → HoldsProblem names.old s self.old → TakesProblem result names.new (limited_problem s (lexeme_as lexeme.entry)) self.new }
        ensures names { Grows names.old names.new }
        ensures only { AddsOnly (IsNameOf (lexeme_as lexeme.entry)) names.old names.new }
    {
        let phase = self.phase;
        match phase {
            Phase::Start => self.take_logic(lexeme),
            Phase::Reading(logic) => {
                if is_dot(lexeme) {
                    return self.take_dot(names, logic);
                }
                take_token(&mut self.formula, names, none, lexeme)
            }
            Phase::Finished(_) => Err(TokenRefusal::Refused(Code::Unexpected)),
        }
    }

    /// Takes the word of the logic.
    fn take_logic(&mut self, lexeme: Lexeme<'a>) -> Result<(), TokenRefusal>
        ensures { (names : List (List ℕ)) (s : ProblemState) → HoldsProblem names s self.old → self.old.phase ≡ Phase.Start → TakesProblem result names (limited_problem s (lexeme_as lexeme.entry)) self.new }
    {
        match lexeme {
            Lexeme::Name(text) => match logic_of(text) {
                Some(logic) => {
                    self.formula.turn_to(logic);
                    self.phase = Phase::Reading(logic);
                    Ok(())
                }
                None => Err(TokenRefusal::Refused(Code::Unexpected)),
            },
            _ => Err(TokenRefusal::Refused(Code::Unexpected)),
        }
    }

    /// Takes the dot behind the formula.
    fn take_dot(&mut self, names: &Names, logic: Logic) -> Result<(), TokenRefusal>
        ensures { (s : ProblemState) → HoldsProblem names.now s self.old → self.old.phase ≡ Phase.Reading logic → TakesProblem result names.now (limited_problem s (a_sign Dot)) self.new }
    {
        names.distinct();
        if !self.formula.is_whole() {
            return Err(TokenRefusal::Refused(Code::Unexpected));
        }
        self.phase = Phase::Finished(logic);
        Ok(())
    }

    /// The problem, at the end of a file of so many bytes.
    fn finish(self, length: usize) -> Result<Problem, ParseRefusal>
        ensures ok { (names : List (List ℕ)) (s : ProblemState) → HoldsProblem names s self.entry → IfOk result (λ p. GoalOf names s p.logic p.goal) }
        ensures err { (names : List (List ℕ)) (s : ProblemState) → HoldsProblem names s self.entry → IfErr result (IsUnfinished length s) }
    {
        let phase = self.phase;
        match phase {
            Phase::Finished(logic) => match self.formula.finish() {
                Ok(Some(goal)) => Ok(Problem { logic, goal }),
                // A whole formula was read, so only memory can be missing.
                Ok(None) | Err(_) => Err(ParseRefusal::OutOfMemory),
            },
            _ => Err(ParseRefusal::Refused(Refusal {
                code: Code::Unexpected,
                at: length,
            })),
        }
    }
}
