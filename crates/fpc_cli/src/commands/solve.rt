//! `solve`: the search for an atom over a definition.
ghost use Rattle.std.specs.Prelude.{◌≡◌, ◌≤◌, ℕ, List, length, slice_get, codes, IfOk, IfErr, OnOk, Some};
ghost use Rattle.fpc_base.specs.Lexeme.{items_of};
ghost use Rattle.fpc_terms.specs.Name.{AreDifferent, Grows};
ghost use Rattle.fpc_terms.specs.Open.{AreOpen};
ghost use Rattle.clause_language.specs.Joined.{IsBare};
ghost use Rattle.clause_language.specs.Naming.{IsAtomNamedBelow};
ghost use Rattle.clause_language.specs.Program.{HasFewArguments};
ghost use Rattle.clause_language.specs.ReadFile.{DefinitionIsRead};
ghost use Rattle.search_model.specs.declared.solve.Solved.{Solved};
ghost use Rattle.fpc_cli.specs.Command.{solve as asked_to_solve, chosen_of};
ghost use Rattle.fpc_cli.specs.Run.{IsCaused};
ghost use Rattle.fpc_cli.specs.commands.Solve.{IsRead, IsProgramOf, IsSearch, IsEndNamed, HasText, answer_of, IsAtomAnswer};

use crate::answer::{Answer, Role};
use crate::command::Origin;
use crate::reading::definition_in;
use crate::text::Text;
use clause_language::atom::Atom;
use clause_language::certificate::Certificate;
use clause_language::clause_list::Clauses;
use clause_language::declaration_list::Declared;
use clause_language::definition::Definition;
use clause_language::laws::joined_files_are_programs;
use clause_language::print::print_atom;
use clause_language::program::{Program, join};
use clause_language::single_atom::read_atom;
use fpc_base::OutOfMemory;
use fpc_base::outside::Files;
use fpc_base::refusal::ParseRefusal;
use fpc_terms::cell::Cell;
use fpc_terms::names::Names;
use fpc_terms::term::TermBuf;
use polarised_formulas::logic::Logic;
use search_model::solve::{Solved, plain_solve};
use std::alloc::Global;

/// The certificate that adds nothing to a definition: its term is `any`.
fn bare_certificate(
    alloc: Global,
    names: &mut Names,
    logic: Logic,
) -> Result<Certificate, OutOfMemory>
    ensures certificate { IfOk result (λ c. (any : ℕ)
        × ((slice_get names.new any ≡ Some (codes "any")) × IsBare logic any c)) }
    ensures names { Grows names.old names.new }
{
    let any = names.intern(b"any")?;
    Ok(Certificate {
        logic,
        declared: Declared::new(alloc),
        clauses: Clauses::new(alloc),
        term: TermBuf::from_cells(alloc, &[Cell::App(any, 0)])?,
        variables: 0,
    })
}

/// The program of a definition alone.
fn program_of(
    alloc: Global,
    names: &mut Names,
    definition: Definition,
) -> Result<Program, OutOfMemory>
    ensures program { IfOk result (IsProgramOf names.new definition) }
    ensures names { Grows names.old names.new }
{
    let certificate = bare_certificate(alloc, names, definition.logic)?;
    join(alloc, names, definition, certificate)
}

/// Searches for an atom with so many variables over a definition alone.
fn searched(
    alloc: Global,
    names: &mut Names,
    definition: Definition,
    atom: &Atom,
    variables: u64,
    budget: u64,
) -> Result<Solved, OutOfMemory>
    requires read { IsRead names.old definition }
    requires named { IsAtomNamedBelow (length names.old) atom.now }
    requires is_open { AreOpen variables atom.now.arguments }
    requires few { HasFewArguments atom.now }
    ensures search { IfOk result (IsSearch names.new definition atom.now variables budget) }
    ensures end_named { IfOk result (IsEndNamed (length names.new)) }
    ensures different { OnOk result (AreDifferent names.new) }
    ensures names { Grows names.old names.new }
{
    let program = program_of(alloc, names, definition)?;
    names.distinct();
    joined_files_are_programs();
    plain_solve(alloc, names, &program, atom, variables, budget)
}

/// The answer that the end of a search is. Memory may run out for the text of an atom alone.
fn answer_of(alloc: Global, names: &Names, end: Solved) -> Result<Answer, OutOfMemory>
    requires { IsEndNamed (length names.now) end }
    ensures answer { IfOk result (λ answer. answer ≡ answer_of names.now end) }
    ensures memory { IfErr result (λ e. HasText end) }
{
    match end {
        Solved::Accepted { atom, .. } => {
            let mut text = Vec::new(alloc);
            print_atom(alloc, names, &atom, &mut text)?;
            Ok(Answer::Holds {
                atom: Text::new(text),
            })
        }
        Solved::Rejected { .. } => Ok(Answer::NotProved),
        Solved::Spent => Ok(Answer::BudgetSpent),
        Solved::TooLong => Ok(Answer::TooLong),
    }
}

/// The answer of the search for an atom over a definition alone.
fn search_answer(
    alloc: Global,
    names: &mut Names,
    definition: Definition,
    atom: &Atom,
    variables: u64,
    budget: u64,
) -> Result<Answer, OutOfMemory>
    requires read { IsRead names.old definition }
    requires named { IsAtomNamedBelow (length names.old) atom.now }
    requires is_open { AreOpen variables atom.now.arguments }
    requires few { HasFewArguments atom.now }
    ensures answer { IfOk result (λ a. (end : Solved)
        × (IsSearch names.new definition atom.now variables budget end
        × (a ≡ answer_of names.new end))) }
    ensures different { OnOk result (AreDifferent names.new) }
    ensures names { Grows names.old names.new }
{
    let end = searched(alloc, names, definition, atom, variables, budget)?;
    answer_of(alloc, names, end)
}

/// The answer to a definition that was read and the word of an atom.
fn atom_answer(
    alloc: Global,
    names: &mut Names,
    definition: Definition,
    word: &str,
    budget: u64,
) -> Answer
    requires { IsRead names.old definition }
    ensures { (bytes : List ℕ) → DefinitionIsRead None (items_of bytes) names.old definition
        → IsAtomAnswer budget bytes word.now result }
{
    match read_atom(alloc, names, word.as_bytes()) {
        Ok((atom, variables)) => {
            match search_answer(alloc, names, definition, &atom, variables, budget) {
                Ok(answer) => answer,
                Err(_) => Answer::OutOfMemory,
            }
        }
        Err(ParseRefusal::Refused(refusal)) => Answer::Refused {
            role: Role::Atom,
            refusal,
        },
        Err(ParseRefusal::OutOfMemory) => Answer::OutOfMemory,
    }
}

/// The answer to `solve`.
pub fn solved<F: Files>(
    alloc: Global,
    budget: u64,
    definition: Origin<'_>,
    atom: &str,
    files: &mut F,
) -> Answer
    ensures caused { IsCaused (asked_to_solve budget (chosen_of definition.entry) atom.now)
        (F.outside files.old).content
        (F.outside files.old) (F.outside files.new) result }
    ensures never_falls { (F.outside files.old).faults ≤ (F.outside files.new).faults }
    ensures content { (F.outside files.new).content ≡ (F.outside files.old).content }
{
    let mut names = Names::new(alloc);
    match definition_in(alloc, &mut names, None, definition, files) {
        Ok(definition) => atom_answer(alloc, &mut names, definition, atom, budget),
        Err(answer) => answer,
    }
}
