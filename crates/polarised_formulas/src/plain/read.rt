//! Whole texts in plain form.
ghost use Rattle.std.specs.Prelude.{◌≡◌, ℕ, ◌<◌, ◌≤◌, List, length, IfOk, OnOk};
ghost use Rattle.fpc_terms.specs.Name.{Agrees, Grows, AreDifferent};
ghost use Rattle.fpc_terms.specs.Adding.{AddsOnly, IsText};
ghost use Rattle.polarised_formulas.specs.Adding.{IsPartOf};
ghost use Rattle.polarised_formulas.specs.declared.logic.Logic.{Logic};
ghost use Rattle.polarised_formulas.specs.PlainReading.{Reading, next};
ghost use Rattle.polarised_formulas.specs.PlainLimits.{outcome_at_end};
ghost use Rattle.polarised_formulas.specs.PlainStanding.{Stands};
ghost use Rattle.polarised_formulas.specs.PlainTaking.{IsTaken, IsEnded, IsAnswer, IsExplained, IsOfFormula};

use crate::formula::Formula;
use crate::logic::Logic;
use crate::plain::reader::{PlainReader, Progress};
use fpc_base::refusal::{Code, ParseRefusal, Refusal, TokenRefusal};
use fpc_terms::names::Names;
use std::alloc::Global;

/// How many bytes a text may have.
const MOST_BYTES: usize = 67_108_864;

fn refused(code: Code, at: usize) -> ParseRefusal
    ensures { result ≡ ParseRefusal.Refused (record { code = code; at = at }) }
{
    ParseRefusal::Refused(Refusal { code, at })
}

/// Reads a formula of the logic in plain form. Its names get numbers, also where the text is refused. Time and memory are
/// linear in the number of bytes, but for the look-up of each name.
#[tactic(auto, using(crate::proofs::Explained::explained))]
pub fn read_plain_formula(
    alloc: Global,
    names: &mut Names,
    logic: Logic,
    bytes: &[u8],
) -> Result<Formula, ParseRefusal>
    ensures grows { Grows names.old names.new }
    ensures only { AddsOnly (IsPartOf bytes.now) names.old names.new }
    ensures outcome { IsAnswer names.new logic bytes.now result }
    ensures explained { IsExplained names.new logic bytes.now result }
{
    let result = read_bytes(alloc, names, logic, bytes);
    names.distinct();
    result
}

fn read_bytes(
    alloc: Global,
    names: &mut Names,
    logic: Logic,
    bytes: &[u8],
) -> Result<Formula, ParseRefusal>
    ensures grows { Grows names.old names.new }
    ensures only { AreDifferent names.new → AddsOnly (IsPartOf bytes.now) names.old names.new }
    ensures outcome { IsAnswer names.new logic bytes.now result }
{
    let mut reader = PlainReader::new(alloc, logic);
    for (at, b) in bytes.iter().enumerate() {
        match take(&mut reader, names, at, *b) {
            Ok(()) => {}
            Err(refusal) => return Err(refusal),
        }
    }
    end(&mut reader, names, bytes.len())
}

/// Takes a byte inside a text.
fn take(reader: &mut PlainReader, names: &mut Names, at: usize, b: u8) -> Result<(), ParseRefusal>
    ensures grows { Grows names.old names.new }
    ensures only { AddsOnly (IsText reader.old.word.items) names.old names.new }
    ensures small { OnOk result (at < 67108864) }
    ensures taken { (number : List ℕ → ℕ) (logic : Logic) (q : Reading) → Agrees number names.new → Stands logic q reader.old
        → IsTaken logic q at result reader.new (next number logic q b) }
{
    if at >= MOST_BYTES {
        return Err(refused(Code::TooLarge, at));
    }
    match reader.byte(names, b) {
        Ok(Progress::Going) => Ok(()),
        Ok(Progress::Term(_)) => Err(refused(Code::Unexpected, at)),
        Ok(Progress::Formula(_)) => Err(refused(Code::Unexpected, at)),
        Err(TokenRefusal::Refused(code)) => Err(refused(code, at)),
        Err(TokenRefusal::OutOfMemory) => Err(ParseRefusal::OutOfMemory),
    }
}

/// Ends a text.
fn end(reader: &mut PlainReader, names: &mut Names, at: usize) -> Result<Formula, ParseRefusal>
    ensures grows { Grows names.old names.new }
    ensures only { AddsOnly (IsText reader.old.word.items) names.old names.new }
    ensures ended { (number : List ℕ → ℕ) (logic : Logic) (q : Reading) → Agrees number names.new → Stands logic q reader.old → IsOfFormula q
        → IsEnded at result (outcome_at_end at (next number logic q 10)) }
{
    match reader.byte(names, b'\n') {
        Ok(Progress::Formula(formula)) => Ok(formula),
        Ok(Progress::Term(_)) => Err(refused(Code::Unexpected, at)),
        Ok(Progress::Going) => Err(refused(Code::Unexpected, at)),
        Err(TokenRefusal::Refused(_)) => Err(refused(Code::Unexpected, at)),
        Err(TokenRefusal::OutOfMemory) => Err(ParseRefusal::OutOfMemory),
    }
}
