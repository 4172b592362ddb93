//! `format`: the printed forms of files.
ghost use Rattle.std.specs.Prelude.{◌≡◌, ◌≤◌, [], IfOk, IfErr, None, length};
ghost use Rattle.fpc_cli.specs.Command.{format as asked_to_format};
ghost use Rattle.fpc_cli.specs.Grammars.{grammar_of, problem, definition, certificate};
ghost use Rattle.fpc_cli.specs.Inputs.{IsParseRefusal};
ghost use Rattle.fpc_cli.specs.Run.{IsCaused};
ghost use Rattle.fpc_cli.specs.commands.Format.{IsProblemPrinted, IsDefinitionPrinted, IsCertificatePrinted, IsPrintedForm};

use crate::answer::Answer;
use crate::command::Form;
use crate::source::source_in;
use crate::text::Text;
use clause_language::declaration_list::Declared;
use clause_language::print::{print_certificate, print_definition};
use clause_language::read::{read_certificate, read_definition};
use fpc_base::outside::Files;
use fpc_base::refusal::ParseRefusal;
use fpc_terms::names::Names;
use polarised_formulas::print::print_problem;
use polarised_formulas::problem::read_problem;
use std::alloc::Global;

/// The printed form of a problem of either logic.
fn printed_problem(alloc: Global, bytes: &[u8]) -> Result<Vec<u8>, ParseRefusal>
    ensures printed { IfOk result (λ text. IsProblemPrinted bytes.now text.items) }
    ensures refused { length bytes.now ≤ 16777216
        → IfErr result (IsParseRefusal problem bytes.now) }
{
    let mut names = Names::new(alloc);
    match read_problem(alloc, &mut names, bytes) {
        Ok(problem) => {
            names.distinct();
            match print_problem(alloc, &names, &problem) {
                Ok(text) => Ok(text),
                Err(_) => Err(ParseRefusal::OutOfMemory),
            }
        }
        Err(refusal) => Err(refusal),
    }
}

/// The printed form of a definition of either logic.
fn printed_definition(alloc: Global, bytes: &[u8]) -> Result<Vec<u8>, ParseRefusal>
    ensures printed { IfOk result (λ text. IsDefinitionPrinted bytes.now text.items) }
    ensures refused { length bytes.now ≤ 16777216
        → IfErr result (IsParseRefusal (definition None) bytes.now) }
{
    let mut names = Names::new(alloc);
    match read_definition(alloc, &mut names, None, bytes) {
        Ok(definition) => {
            names.distinct();
            match print_definition(alloc, &names, &definition) {
                Ok(text) => Ok(text),
                Err(_) => Err(ParseRefusal::OutOfMemory),
            }
        }
        Err(refusal) => Err(refusal),
    }
}

/// The printed form of a certificate of either logic, which stands alone: no formulas are declared
/// before.
fn printed_certificate(alloc: Global, bytes: &[u8]) -> Result<Vec<u8>, ParseRefusal>
    ensures printed { IfOk result (λ text. IsCertificatePrinted bytes.now text.items) }
    ensures refused { length bytes.now ≤ 16777216
        → IfErr result (IsParseRefusal (certificate None []) bytes.now) }
{
    let mut names = Names::new(alloc);
    let earlier = Declared::new(alloc);
    match read_certificate(alloc, &mut names, None, &earlier, bytes) {
        Ok(certificate) => {
            names.distinct();
            match print_certificate(alloc, &names, &certificate) {
                Ok(text) => Ok(text),
                Err(_) => Err(ParseRefusal::OutOfMemory),
            }
        }
        Err(refusal) => Err(refusal),
    }
}

/// The printed form of the bytes of a file.
fn printed(alloc: Global, form: Form, bytes: &[u8]) -> Result<Vec<u8>, ParseRefusal>
    ensures printed { IfOk result (λ text. IsPrintedForm form bytes.now text.items) }
    ensures refused { length bytes.now ≤ 16777216
        → IfErr result (IsParseRefusal (grammar_of form) bytes.now) }
{
    match form {
        Form::Problem => printed_problem(alloc, bytes),
        Form::Definition => printed_definition(alloc, bytes),
        Form::Certificate => printed_certificate(alloc, bytes),
    }
}

/// The answer to `format`.
pub fn formatted<F: Files>(alloc: Global, form: Form, file: &str, files: &mut F) -> Answer
    ensures caused { IsCaused (asked_to_format form file.now) (F.outside files.old).content
        (F.outside files.old) (F.outside files.new) result }
    ensures never_falls { (F.outside files.old).faults ≤ (F.outside files.new).faults }
    ensures content { (F.outside files.new).content ≡ (F.outside files.old).content }
{
    let bytes = match source_in(alloc, form.role(), file, files) {
        Ok(bytes) => bytes,
        Err(answer) => return answer,
    };
    match printed(alloc, form, bytes.as_slice()) {
        Ok(text) => Answer::Formatted {
            text: Text::new(text),
        },
        Err(ParseRefusal::Refused(refusal)) => Answer::Refused {
            role: form.role(),
            refusal,
        },
        Err(ParseRefusal::OutOfMemory) => Answer::OutOfMemory,
    }
}
