//! Definitions and certificates read from files.
ghost use Rattle.std.specs.Prelude.{◌≡◌, ◌<◌, ◌≤◌, ℕ, List, [], length, IfOk, IfErr};
ghost use Rattle.fpc_base.specs.declared.refusal.Code.TheVariants.{TooLarge};
ghost use Rattle.fpc_base.specs.Lexeme.{items_of};
ghost use Rattle.fpc_terms.specs.Name.{Grows};
ghost use Rattle.fpc_terms.specs.Adding.{AddsOnly, IsNameAmong};
ghost use Rattle.polarised_formulas.specs.ReadProblem.{IsTooLarge};
ghost use Rattle.clause_language.specs.Naming.{AreDeclaredNamedBelow, IsDefinitionNamedBelow, IsCertificateNamedBelow};
ghost use Rattle.clause_language.specs.HoldingFile.{AreTaken};
ghost use Rattle.clause_language.specs.ReadFile.{DefinitionIsRead, IsDefinitionRefusal, CertificateIsRead, IsCertificateRefusal, names_of, FileIsRead, IsFileRefusal};

use crate::certificate::Certificate;
use crate::declaration::DeclaredFormula;
use crate::declaration_list::Declared;
use crate::definition::Definition;
use crate::file::{FileKind, FileReader};
use fpc_base::outside::OutOfMemory;
use fpc_base::refusal::{Code, ParseRefusal, Refusal};
use fpc_base::tokens::Tokens;
use fpc_terms::names::Names;
use fpc_terms::var_table::VarTable;
use polarised_formulas::logic::Logic;
use std::alloc::Global;

/// How many bytes a file may have.
pub(crate) const MOST_BYTES: usize = 16_777_216;

/// Reads a definition: the word of its logic, and then declared formulas and clauses in any order. Where a logic is expected, the word of the other one is refused as
/// WrongCalculus. Names get their numbers in the table, also where the file is refused. Memory is linear in the number of bytes, and so is the time, but for the
/// look-ups of names and of variables, which take logarithmic time.
pub fn read_definition(
    alloc: Global,
    names: &mut Names,
    expected: Option<Logic>,
    bytes: &[u8],
) -> Result<Definition, ParseRefusal>
    ensures read { IfOk result (DefinitionIsRead expected (items_of bytes.now) names.new) }
    ensures named { IfOk result (IsDefinitionNamedBelow (length names.new)) }
    ensures large { 16777216 < length bytes.now → IsTooLarge result }
    ensures refused { length bytes.now ≤ 16777216 → IfErr result (IsDefinitionRefusal expected (items_of bytes.now) (length bytes.now)) }
    ensures names { Grows names.old names.new }
    ensures only { AddsOnly (IsNameAmong (items_of bytes.now)) names.old names.new }
{
    if bytes.len() > MOST_BYTES {
        return Err(too_large());
    }
    let none = VarTable::new(alloc);
    match read_tokens(alloc, FileKind::Definition, expected, none, names, bytes) {
        Ok(reader) => {
            names.distinct();
            reader.finish_definition(bytes.len())
        }
        Err(error) => Err(error),
    }
}

/// Reads a certificate: the word of its logic, declared formulas and clauses of its own in any order, and its term. A declared formula whose name stands among the
/// earlier ones, which are those of the definition, is refused as DuplicateFormula. Else it is read as a definition.
pub fn read_certificate(
    alloc: Global,
    names: &mut Names,
    expected: Option<Logic>,
    earlier: &Declared,
    bytes: &[u8],
) -> Result<Certificate, ParseRefusal>
    requires { AreDeclaredNamedBelow (length names.old) earlier.now }
    ensures read { IfOk result (CertificateIsRead expected (names_of names.old earlier.now) (items_of bytes.now) names.new) }
    ensures named { IfOk result (IsCertificateNamedBelow (length names.new)) }
    ensures large { 16777216 < length bytes.now → IsTooLarge result }
    ensures refused { length bytes.now ≤ 16777216
        → IfErr result (IsCertificateRefusal expected (names_of names.old earlier.now) (items_of bytes.now) (length bytes.now)) }
    ensures names { Grows names.old names.new }
    ensures only { AddsOnly (IsNameAmong (items_of bytes.now)) names.old names.new }
{
    if bytes.len() > MOST_BYTES {
        return Err(too_large());
    }
    let taken = match taken_names(alloc, names, earlier.items()) {
        Ok(taken) => taken,
        Err(_) => return Err(ParseRefusal::OutOfMemory),
    };
    match read_tokens(alloc, FileKind::Certificate, expected, taken, names, bytes) {
        Ok(reader) => {
            names.distinct();
            reader.finish_certificate(bytes.len())
        }
        Err(error) => Err(error),
    }
}

pub(crate) fn too_large() -> ParseRefusal
    ensures { result ≡ ParseRefusal.Refused (record { code = TooLarge; at = 16777216 }) }
{
    ParseRefusal::Refused(Refusal {
        code: Code::TooLarge,
        at: MOST_BYTES,
    })
}

/// The names of declared formulas.
fn taken_names(
    alloc: Global,
    names: &Names,
    declared: &[DeclaredFormula],
) -> Result<VarTable, OutOfMemory>
    requires { AreDeclaredNamedBelow (length names.now) declared.now }
    ensures { IfOk result (AreTaken (names_of names.now declared.now)) }
{
    let mut taken = VarTable::new(alloc);
    for one in declared {
        taken.number(names.text(one.name))?;
    }
    Ok(taken)
}

/// Reads the tokens of a file, whatever its size. The formulas of some names are declared already.
fn read_tokens<'a>(
    alloc: Global,
    kind: FileKind,
    expected: Option<Logic>,
    taken: VarTable,
    names: &mut Names,
    bytes: &'a [u8],
) -> Result<FileReader<'a>, ParseRefusal>
    ensures ok { (earlier : List (List ℕ)) → AreTaken earlier taken → IfOk result (FileIsRead kind expected earlier (items_of bytes.now) names.new) }
    ensures err { (earlier : List (List ℕ)) → AreTaken earlier taken → IfErr result (IsFileRefusal kind expected earlier (items_of bytes.now)) }
    ensures names { Grows names.old names.new }
    ensures only { AddsOnly (IsNameAmong (items_of bytes.now)) names.old names.new }
{
    let mut reader = FileReader::new(alloc, kind, expected, taken);
    let mut tokens = Tokens::new(bytes);
    'reading: loop {
        match tokens.next() {
            Err(refusal) => return Err(ParseRefusal::Refused(refusal)),
            Ok(None) => return Ok(reader),
            Ok(Some(token)) => {
                let lexeme = token.lexeme();
                match reader.take(names, lexeme) {
                    Ok(()) => {}
                    Err(refusal) => return Err(refusal.placed(token.at)),
                }
            }
        }
    }
}
