//! The search over clauses alone.
ghost use Rattle.std.specs.Prelude.{◌≡◌, IfOk, length, map};
ghost use Rattle.fpc_terms.specs.Open.{AreOpen, constant};
ghost use Rattle.fpc_terms.specs.Term.{put};
ghost use Rattle.clause_language.specs.Naming.{IsAtomNamedBelow};
ghost use Rattle.clause_language.specs.Program.{IsOpenProgram, IsProgram, HasFewArguments};
ghost use Rattle.search_model.specs.Solve.{IsRight, IsSolved, IsWithin, solving};
ghost use Rattle.search_model.specs.States.{IsFoundAlone};

use crate::alternative::{copied_atom, copied_terms};
use crate::clauses_alone::ClausesAlone;
use crate::goals::GoalItem;
use crate::search::{Found, few_parameters, search_goal};
use clause_language::atom::Atom;
use clause_language::print::atom_room;
use clause_language::program::Program;
use fpc_base::outside::OutOfMemory;
use fpc_terms::list::Terms;
use fpc_terms::name::NameId;
use fpc_terms::names::Names;
use fpc_terms::substitution::all_with_constant;
use std::alloc::Global;

/// The most bytes of the text of an accepted atom.
const TEXT_LIMIT: u64 = 67_108_864;

/// How the search for an atom ends.
#[derive(Drop)]
pub enum Solved {
    /// The atom holds with its bindings, and `any` for each variable that is left.
    Accepted { atom: Atom, units: u64 },
    /// No instance of the atom holds.
    Rejected { units: u64 },
    /// A unit was needed, and all of the budget were taken.
    Spent,
    /// The search is accepted, and the atom's text has more than 67,108,864 bytes.
    TooLong,
}

/// Searches for an atom over the clauses of a program. Its variables have no level.
fn search_for(
    alloc: Global,
    program: &Program,
    atom: &Atom,
    variables: u64,
    budget: u64,
) -> Result<Found, OutOfMemory>
    requires program { IsOpenProgram program.now }
    requires is_open { AreOpen variables atom.now.arguments }
    ensures { IfOk result (λ found. IsFoundAlone found
        (solving program.now.clauses budget atom.now variables)) }
{
    few_parameters(program);
    let question = copied_atom(atom)?;
    let asked = copied_terms(&atom.arguments)?;
    let goal = GoalItem::Call(question);
    search_goal(
        alloc,
        &ClausesAlone,
        program,
        goal,
        asked,
        variables,
        budget,
    )
}

/// The atom with these arguments, and a constant for each variable in them.
fn closed(alloc: Global, atom: &Atom, asked: &Terms, any: NameId) -> Result<Atom, OutOfMemory>
    ensures { IfOk result (λ a. a ≡ record {
      name = atom.now.name;
      arguments = map (put (constant any)) asked.now;
    }) }
{
    Ok(Atom {
        name: atom.name,
        arguments: all_with_constant(alloc, asked.items(), any)?,
    })
}

/// Searches for an instance of an atom that holds, depth first, the clauses in order. The answer is
/// that of the definition: one unit for each call and each equality that is taken, and one for each
/// node of a term that is looked through before a variable becomes it. Each alternative is a copy,
/// so time and memory grow with the size of the alternatives.
pub fn plain_solve(
    alloc: Global,
    names: &Names,
    program: &Program,
    atom: &Atom,
    variables: u64,
    budget: u64,
) -> Result<Solved, OutOfMemory>
    requires program { IsProgram names.now program.now }
    requires named { IsAtomNamedBelow (length names.now) atom.now }
    requires is_open { AreOpen variables atom.now.arguments }
    requires few { HasFewArguments atom.now }
    ensures solved { IfOk result (IsSolved names.now program.now atom.now variables budget) }
    ensures units { IfOk result (IsWithin budget) }
    ensures right { IfOk result (IsRight program.now.clauses atom.now) }
{
    match search_for(alloc, program, atom, variables, budget)? {
        Found::Rejected { units } => Ok(Solved::Rejected { units }),
        Found::Spent => Ok(Solved::Spent),
        Found::Accepted { asked, units, .. } => {
            let found = closed(alloc, atom, &asked, program.ids.any)?;
            match atom_room(names, &found, TEXT_LIMIT) {
                Some(_) => Ok(Solved::Accepted { atom: found, units }),
                None => Ok(Solved::TooLong),
            }
        }
    }
}
