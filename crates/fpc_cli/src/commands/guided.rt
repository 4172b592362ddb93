//! `check` and `elaborate`: the search for a derivation of a problem's goal, guided by a definition
//! and a certificate.
ghost use Rattle.std.specs.Prelude.{◌≡◌, ◌≤◌, [], ◌∷◌, List, ℕ, length, Some, IfOk};
ghost use Rattle.fpc_base.specs.Lexeme.{Item, items_of};
ghost use Rattle.fpc_terms.specs.Name.{AreDifferent};
ghost use Rattle.polarised_formulas.specs.Formula.{IsClosed, IsLkf};
ghost use Rattle.polarised_formulas.specs.Printing.{AllNamesBelow};
ghost use Rattle.polarised_formulas.specs.ReadProblem.{ProblemIsRead};
ghost use Rattle.polarised_formulas.specs.declared.logic.Logic.TheVariants.{Lkf};
ghost use Rattle.clause_language.specs.Naming.{IsDefinitionNamedBelow};
ghost use Rattle.clause_language.specs.Program.{IsOpenProgram, IsProgram};
ghost use Rattle.clause_language.specs.ReadFile.{DefinitionIsRead, CertificateIsRead, names_of};
ghost use Rattle.elaborator.specs.Elaborate.{IsElaborated};
ghost use Rattle.fpc_cli.specs.declared.command.Wanted.TheVariants.{Verdict, Explicit};
ghost use Rattle.fpc_cli.specs.Command.{chosen_of};
ghost use Rattle.fpc_cli.specs.Grammars.{definition as definitions};
ghost use Rattle.fpc_cli.specs.Inputs.{Comes, ComesOf};
ghost use Rattle.fpc_cli.specs.Origins.{definition_input};
ghost use Rattle.fpc_cli.specs.commands.Guided.{AreRead, IsSearched, EndsGuided, IsGuidedAnswer, answer_of, certificate_input, guided_task};

use crate::answer::Answer;
use crate::command::{Origin, Wanted};
use crate::reading::{certificate_in, definition_in, problem_in};
use crate::text::Text;
use clause_language::certificate::Certificate;
use clause_language::definition::Definition;
use clause_language::laws::joined_files_are_programs;
use clause_language::program::{Program, join};
use elaborator::check::check;
use elaborator::elaborate::{Elaborated, elaborate};
use fpc_base::OutOfMemory;
use fpc_base::outside::Files;
use fpc_terms::names::Names;
use polarised_formulas::logic::Logic;
use polarised_formulas::problem::Problem;
use search_model::Outcome;
use std::alloc::Global;

/// The answer that an outcome is, where the verdict is wanted.
fn verdict_of(outcome: Outcome) -> Answer
    ensures { (names : List (List ℕ)) → result ≡ answer_of Verdict names outcome }
{
    match outcome {
        Outcome::Accepted { trace, .. } => Answer::Accepted { steps: trace.len() },
        Outcome::Rejected { .. } => Answer::NotProved,
        Outcome::Spent => Answer::BudgetSpent,
    }
}

/// The answer that an elaborated outcome is, where the explicit certificate is wanted.
fn explicit_of(elaborated: Elaborated) -> Answer
    ensures { (names : List (List ℕ)) (outcome : Outcome)
        → IsElaborated names outcome elaborated → result ≡ answer_of Explicit names outcome }
{
    match elaborated {
        Elaborated::Text { bytes, .. } => Answer::Formatted {
            text: Text::new(bytes),
        },
        Elaborated::Rejected { .. } => Answer::NotProved,
        Elaborated::Spent => Answer::BudgetSpent,
        Elaborated::TooLong => Answer::TooLong,
    }
}

/// The verdict on a goal by a program.
fn verdict(
    alloc: Global,
    problem: &Problem,
    program: &Program,
    budget: u64,
) -> Result<Answer, OutOfMemory>
    requires program { IsOpenProgram program.now }
    requires logic { program.now.logic ≡ problem.now.logic }
    requires lkf { problem.now.logic ≡ Lkf }
    requires closed { IsClosed problem.now.goal }
    ensures { (names : List (List ℕ))
        → IfOk result (IsSearched Verdict names program.now problem.now.goal budget) }
{
    let outcome = check(alloc, problem, program, budget)?;
    Ok(verdict_of(outcome))
}

/// The explicit certificate of a goal by a program.
fn explicit(
    alloc: Global,
    names: &Names,
    problem: &Problem,
    program: &Program,
    budget: u64,
) -> Result<Answer, OutOfMemory>
    requires program { IsProgram names.now program.now }
    requires goal { AllNamesBelow (length names.now) problem.now.goal }
    requires logic { program.now.logic ≡ problem.now.logic }
    requires lkf { problem.now.logic ≡ Lkf }
    requires closed { IsClosed problem.now.goal }
    ensures { IfOk result (IsSearched Explicit names.now program.now problem.now.goal budget) }
{
    let elaborated = elaborate(alloc, names, problem, program, budget)?;
    Ok(explicit_of(elaborated))
}

/// Searches for a derivation of a problem's goal, by a definition and a certificate that were read.
fn guided_answer(
    alloc: Global,
    names: &mut Names,
    problem: &Problem,
    definition: Definition,
    certificate: Certificate,
    wanted: Wanted,
    budget: u64,
) -> Result<Answer, OutOfMemory>
    requires logic { problem.now.logic ≡ Lkf }
    requires closed { IsClosed problem.now.goal }
    requires lkf { IsLkf problem.now.goal }
    requires named { AllNamesBelow (length names.old) problem.now.goal }
    requires different { AreDifferent names.old }
    requires read { AreRead names.old definition certificate }
    ensures { IfOk result (λ answer. (first second third : List ℕ)
        → ProblemIsRead (items_of first) names.old Lkf problem.now.goal
        → DefinitionIsRead (Some Lkf) (items_of second) names.old definition
        → CertificateIsRead (Some Lkf) (names_of names.old definition.declared) (items_of third)
        names.old certificate
        → IsGuidedAnswer wanted budget first second third answer) }
{
    let program = join(alloc, names, definition, certificate)?;
    names.distinct();
    joined_files_are_programs();
    match wanted {
        Wanted::Verdict => verdict(alloc, problem, &program, budget),
        Wanted::Explicit => explicit(alloc, names, problem, &program, budget),
    }
}

/// Opens and reads the certificate, and searches.
fn certificate_searched<F: Files>(
    alloc: Global,
    names: &mut Names,
    problem: &Problem,
    definition: Definition,
    certificate: &str,
    wanted: Wanted,
    budget: u64,
    files: &mut F,
) -> Answer
    requires logic { problem.now.logic ≡ Lkf }
    requires closed { IsClosed problem.now.goal }
    requires lkf { IsLkf problem.now.goal }
    requires goal { AllNamesBelow (length names.old) problem.now.goal }
    requires read { (items : List Item) × DefinitionIsRead (Some Lkf) items names.old definition }
    requires named { IsDefinitionNamedBelow (length names.old) definition }
    ensures comes { (first second : List ℕ)
        → ProblemIsRead (items_of first) names.old Lkf problem.now.goal
        → DefinitionIsRead (Some Lkf) (items_of second) names.old definition
        → Comes (F.outside files.old).content (EndsGuided wanted budget) (first ∷ second ∷ [])
        (certificate_input certificate.now ∷ [])
        (F.outside files.old) (F.outside files.new) result }
    ensures never_falls { (F.outside files.old).faults ≤ (F.outside files.new).faults }
    ensures content { (F.outside files.new).content ≡ (F.outside files.old).content }
{
    names.distinct();
    match certificate_in(alloc, names, &definition.declared, certificate, files) {
        Ok(certificate) => {
            names.distinct();
            match guided_answer(
                alloc,
                names,
                problem,
                definition,
                certificate,
                wanted,
                budget,
            ) {
                Ok(answer) => answer,
                Err(_) => Answer::OutOfMemory,
            }
        }
        Err(answer) => answer,
    }
}

/// Reads the definition, then the certificate, and searches.
fn definition_searched<F: Files>(
    alloc: Global,
    names: &mut Names,
    problem: &Problem,
    definition: Origin<'_>,
    certificate: &str,
    wanted: Wanted,
    budget: u64,
    files: &mut F,
) -> Answer
    requires logic { problem.now.logic ≡ Lkf }
    requires closed { IsClosed problem.now.goal }
    requires lkf { IsLkf problem.now.goal }
    requires goal { AllNamesBelow (length names.old) problem.now.goal }
    ensures comes { (first : List ℕ) → ProblemIsRead (items_of first) names.old Lkf problem.now.goal
        → Comes (F.outside files.old).content (EndsGuided wanted budget) (first ∷ [])
        (definition_input (chosen_of definition.entry) (λ earlier. definitions (Some Lkf))
        ∷ certificate_input certificate.now ∷ [])
        (F.outside files.old) (F.outside files.new) result }
    ensures never_falls { (F.outside files.old).faults ≤ (F.outside files.new).faults }
    ensures content { (F.outside files.new).content ≡ (F.outside files.old).content }
{
    match definition_in(alloc, names, Some(Logic::Lkf), definition, files) {
        Ok(definition) => {
            certificate_searched(
                alloc,
                names,
                problem,
                definition,
                certificate,
                wanted,
                budget,
                files,
            )
        }
        Err(answer) => answer,
    }
}

/// The answer to `check` or `elaborate`, as is wanted.
pub fn searched<F: Files>(
    alloc: Global,
    wanted: Wanted,
    budget: u64,
    problem: &str,
    definition: Origin<'_>,
    certificate: &str,
    files: &mut F,
) -> Answer
    ensures caused { ComesOf (F.outside files.old).content
        (guided_task wanted budget problem.now (chosen_of definition.entry) certificate.now)
        (F.outside files.old) (F.outside files.new) result }
    ensures never_falls { (F.outside files.old).faults ≤ (F.outside files.new).faults }
    ensures content { (F.outside files.new).content ≡ (F.outside files.old).content }
{
    let mut names = Names::new(alloc);
    match problem_in(alloc, &mut names, problem, files) {
        Ok(problem) => {
            definition_searched(
                alloc,
                &mut names,
                &problem,
                definition,
                certificate,
                wanted,
                budget,
                files,
            )
        }
        Err(answer) => answer,
    }
}
