//! Problems, definitions and certificates that are read from files.
ghost use Rattle.std.specs.Prelude.{◌≡◌, ◌⊎◌, ◌≤◌, [], List, ℕ, length, Some, IfOk, IfErr};
ghost use Rattle.fpc_base.specs.Lexeme.{items_of};
ghost use Rattle.fpc_terms.specs.Name.{Grows};
ghost use Rattle.polarised_formulas.specs.Formula.{IsClosed, IsLkf};
ghost use Rattle.polarised_formulas.specs.Printing.{AllNamesBelow};
ghost use Rattle.polarised_formulas.specs.ReadProblem.{ProblemIsRead};
ghost use Rattle.polarised_formulas.specs.declared.logic.Logic.TheVariants.{Lkf};
ghost use Rattle.clause_language.specs.Naming.{AreDeclaredNamedBelow, IsDefinitionNamedBelow, IsCertificateNamedBelow};
ghost use Rattle.clause_language.specs.ReadFile.{DefinitionIsRead, CertificateIsRead, names_of};
ghost use Rattle.fpc_cli.specs.Command.{chosen_of};
ghost use Rattle.fpc_cli.specs.Grammars.{first_place, lkf_problem, definition as definitions, certificate as certificates};
ghost use Rattle.fpc_cli.specs.Inputs.{source, IsReadWhole, Decides};
ghost use Rattle.fpc_cli.specs.Origins.{AreHad, AreNotHad, AreHadAndRefused};

use crate::answer::{Answer, Role};
use crate::command::Origin;
use crate::source::source_in;
use clause_language::certificate::Certificate;
use clause_language::declaration_list::Declared;
use clause_language::definition::Definition;
use clause_language::read::{read_certificate, read_definition};
use fpc_base::outside::Files;
use fpc_base::refusal::{Code, ParseRefusal, Refusal};
use fpc_base::tokens::Tokens;
use fpc_terms::names::Names;
use polarised_formulas::logic::Logic;
use polarised_formulas::problem::{Problem, read_problem};
use std::alloc::Global;

/// The place of the first token.
fn first_place(bytes: &[u8]) -> usize
    ensures { result ≡ first_place (items_of bytes.now) }
{
    let mut tokens = Tokens::new(bytes);
    match tokens.next() {
        Ok(Some(token)) => token.at,
        _ => 0,
    }
}

/// The refusal of a problem of LJF.
fn not_built(bytes: &[u8]) -> Answer
    ensures { result ≡ Answer.Refused Role.Problem
        (record { code = Code.NotBuilt; at = first_place (items_of bytes.now) }) }
{
    Answer::Refused {
        role: Role::Problem,
        refusal: Refusal {
            code: Code::NotBuilt,
            at: first_place(bytes),
        },
    }
}

/// Opens and reads a problem's file.
pub fn problem_in<F: Files>(
    alloc: Global,
    names: &mut Names,
    name: &str,
    files: &mut F,
) -> Result<Problem, Answer>
    ensures logic { IfOk result (λ p. p.logic ≡ Lkf) }
    ensures closed { IfOk result (λ p. IsClosed p.goal) }
    ensures lkf { IfOk result (λ p. IsLkf p.goal) }
    ensures named { IfOk result (λ p. AllNamesBelow (length names.new) p.goal) }
    ensures read { IfOk result (λ p. (bytes : List ℕ)
        × (IsReadWhole ((F.outside files.old).content name.now) name.now
        (F.outside files.old) (F.outside files.new) bytes
        × ProblemIsRead (items_of bytes) names.new Lkf p.goal)) }
    ensures names { Grows names.old names.new }
    ensures decides { IfErr result (Decides (F.outside files.old).content []
        (source Role.Problem name.now (λ earlier. lkf_problem))
        (F.outside files.old) (F.outside files.new)) }
    ensures never_falls { (F.outside files.old).faults ≤ (F.outside files.new).faults }
    ensures content { (F.outside files.new).content ≡ (F.outside files.old).content }
{
    let bytes = match source_in(alloc, Role::Problem, name, files) {
        Ok(bytes) => bytes,
        Err(answer) => return Err(answer),
    };
    match read_problem(alloc, names, bytes.as_slice()) {
        Ok(problem) => {
            let logic = problem.logic;
            match logic {
                Logic::Lkf => Ok(problem),
                Logic::Ljf => Err(not_built(bytes.as_slice())),
            }
        }
        Err(ParseRefusal::Refused(refusal)) => Err(Answer::Refused {
            role: Role::Problem,
            refusal,
        }),
        Err(ParseRefusal::OutOfMemory) => Err(Answer::OutOfMemory),
    }
}

/// The bytes of a definition: a file is opened and read to its end, and a text that is built in is
/// copied.
fn definition_bytes<F: Files>(
    alloc: Global,
    origin: Origin<'_>,
    files: &mut F,
) -> Result<Vec<u8>, Answer>
    ensures had { IfOk result (λ v. AreHad (chosen_of origin.entry) (F.outside files.old).content
        (F.outside files.old) (F.outside files.new) v.items) }
    ensures size { IfOk result (λ v. length v.items ≤ 16777216) }
    ensures not_had { IfErr result (AreNotHad (chosen_of origin.entry) (F.outside files.old).content
        (F.outside files.old) (F.outside files.new)) }
    ensures never_falls { (F.outside files.old).faults ≤ (F.outside files.new).faults }
    ensures content { (F.outside files.new).content ≡ (F.outside files.old).content }
{
    match origin {
        Origin::File(name) => match source_in(alloc, Role::Definition, name, files) {
            Ok(bytes) => Ok(bytes),
            Err(answer) => Err(answer),
        },
        Origin::BuiltIn(definition) => match Vec::from_slice(alloc, definition.text()) {
            Ok(bytes) => Ok(bytes),
            Err(_) => Err(Answer::OutOfMemory),
        },
    }
}

/// Reads a definition. Where a logic is expected, one of the other logic is refused.
pub fn definition_in<F: Files>(
    alloc: Global,
    names: &mut Names,
    expected: Option<Logic>,
    origin: Origin<'_>,
    files: &mut F,
) -> Result<Definition, Answer>
    ensures read { IfOk result (λ d. (bytes : List ℕ)
        × (AreHad (chosen_of origin.entry) (F.outside files.old).content
        (F.outside files.old) (F.outside files.new) bytes
        × DefinitionIsRead expected (items_of bytes) names.new d)) }
    ensures named { IfOk result (IsDefinitionNamedBelow (length names.new)) }
    ensures decides { IfErr result (λ answer.
        AreNotHad (chosen_of origin.entry) (F.outside files.old).content
        (F.outside files.old) (F.outside files.new) answer
        ⊎ AreHadAndRefused (chosen_of origin.entry) (definitions expected)
        (F.outside files.old).content (F.outside files.old) (F.outside files.new) answer) }
    ensures names { Grows names.old names.new }
    ensures never_falls { (F.outside files.old).faults ≤ (F.outside files.new).faults }
    ensures content { (F.outside files.new).content ≡ (F.outside files.old).content }
{
    let bytes = match definition_bytes(alloc, origin, files) {
        Ok(bytes) => bytes,
        Err(answer) => return Err(answer),
    };
    match read_definition(alloc, names, expected, bytes.as_slice()) {
        Ok(definition) => Ok(definition),
        Err(ParseRefusal::Refused(refusal)) => Err(Answer::Refused {
            role: Role::Definition,
            refusal,
        }),
        Err(ParseRefusal::OutOfMemory) => Err(Answer::OutOfMemory),
    }
}

/// Opens and reads the file of a certificate of LKF. The formulas that its definition declares are
/// earlier ones.
pub fn certificate_in<F: Files>(
    alloc: Global,
    names: &mut Names,
    earlier: &Declared,
    name: &str,
    files: &mut F,
) -> Result<Certificate, Answer>
    requires { AreDeclaredNamedBelow (length names.old) earlier.now }
    ensures read { IfOk result (λ c. (bytes : List ℕ)
        × (IsReadWhole ((F.outside files.old).content name.now) name.now
        (F.outside files.old) (F.outside files.new) bytes
        × CertificateIsRead (Some Lkf) (names_of names.old earlier.now) (items_of bytes)
        names.new c)) }
    ensures named { IfOk result (IsCertificateNamedBelow (length names.new)) }
    ensures decides { IfErr result (Decides (F.outside files.old).content []
        (source Role.Certificate name.now
        (λ before. certificates (Some Lkf) (names_of names.old earlier.now)))
        (F.outside files.old) (F.outside files.new)) }
    ensures names { Grows names.old names.new }
    ensures never_falls { (F.outside files.old).faults ≤ (F.outside files.new).faults }
    ensures content { (F.outside files.new).content ≡ (F.outside files.old).content }
{
    let bytes = match source_in(alloc, Role::Certificate, name, files) {
        Ok(bytes) => bytes,
        Err(answer) => return Err(answer),
    };
    match read_certificate(alloc, names, Some(Logic::Lkf), earlier, bytes.as_slice()) {
        Ok(certificate) => Ok(certificate),
        Err(ParseRefusal::Refused(refusal)) => Err(Answer::Refused {
            role: Role::Certificate,
            refusal,
        }),
        Err(ParseRefusal::OutOfMemory) => Err(Answer::OutOfMemory),
    }
}
