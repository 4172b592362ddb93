//! The explicit certificate of a goal that a program's certificate guides to.
ghost use Rattle.std.specs.Prelude.{◌≡◌, length, IfOk};
ghost use Rattle.polarised_formulas.specs.Formula.{IsClosed};
ghost use Rattle.polarised_formulas.specs.Printing.{AllNamesBelow};
ghost use Rattle.polarised_formulas.specs.declared.logic.Logic.TheVariants.{Lkf as LogicOfLkf};
ghost use Rattle.clause_language.specs.Program.{IsProgram};
ghost use Rattle.search_model.specs.declared.plain.Outcome.TheVariants.{Accepted};
ghost use Rattle.explicit_form.specs.Sizes.{StepsNamedBelow};
ghost use Rattle.elaborator.specs.Elaborate.{IsElaborated, IsElaboration, IsTextVerified};

use crate::check::check;
use clause_language::program::Program;
use explicit_form::print::{PrintRefusal, print_steps};
use explicit_kernel::laws::own_text;
use fpc_base::outside::OutOfMemory;
use fpc_terms::names::Names;
use polarised_formulas::arity::few_in_steps;
use polarised_formulas::logic::Logic;
use polarised_formulas::problem::Problem;
use search_model::{Outcome, Trace};
use std::alloc::Global;

/// What becomes of a goal under a program.
#[derive(Drop)]
pub enum Elaborated {
    /// The goal is accepted, and these bytes are the explicit certificate of so many steps.
    Text {
        bytes: Vec<u8>,
        steps: u64,
        units: u64,
    },
    /// The certificate guides no derivation of the goal.
    Rejected {
        units: u64,
    },
    /// A unit was needed, and all of the budget were taken.
    Spent,
    /// The goal is accepted, and its explicit certificate would have more bytes than one may have.
    TooLong,
}

/// The text of the steps of an accepted search; its length is found before it is made.
fn text_of(
    alloc: Global,
    names: &Names,
    trace: &Trace,
    units: u64,
) -> Result<Elaborated, OutOfMemory>
    requires { StepsNamedBelow (length names.now) trace.now }
    ensures { IfOk result (IsElaborated names.now (Accepted trace.now units)) }
{
    match print_steps(alloc, names, Logic::Lkf, trace.steps().items()) {
        Ok(bytes) => {
            let steps = trace.len();
            Ok(Elaborated::Text {
                bytes,
                steps,
                units,
            })
        }
        Err(PrintRefusal::TooLong) => Ok(Elaborated::TooLong),
        Err(PrintRefusal::OutOfMemory) => Err(OutOfMemory),
    }
}

/// Searches for a derivation of a problem's goal as `check` does, and writes the steps of an accepted
/// search as an explicit certificate, which `verify` accepts with as many steps. Behind the search,
/// time and memory are linear in the size of the text.
pub fn elaborate(
    alloc: Global,
    names: &Names,
    problem: &Problem,
    program: &Program,
    budget: u64,
) -> Result<Elaborated, OutOfMemory>
    requires program { IsProgram names.now program.now }
    requires goal { AllNamesBelow (length names.now) problem.now.goal }
    requires logic { program.now.logic ≡ problem.now.logic }
    requires lkf { problem.now.logic ≡ LogicOfLkf }
    requires closed { IsClosed problem.now.goal }
    ensures elaborated { IfOk result
        (IsElaboration names.now program.now problem.now.goal budget) }
    ensures verified { IfOk result (IsTextVerified names.now problem.now.goal) }
{
    let outcome = check(alloc, problem, program, budget)?;
    match outcome {
        Outcome::Accepted { trace, units } => {
            names.distinct();
            names.proper();
            few_in_steps(trace.steps().items());
            own_text();
            text_of(alloc, names, &trace, units)
        }
        Outcome::Rejected { units } => Ok(Elaborated::Rejected { units }),
        Outcome::Spent => Ok(Elaborated::Spent),
    }
}
