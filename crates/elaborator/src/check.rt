//! The check of a goal by a program's certificate.
ghost use Rattle.std.specs.Prelude.{◌≡◌, IfOk};
ghost use Rattle.polarised_formulas.specs.Formula.{IsClosed};
ghost use Rattle.polarised_formulas.specs.declared.logic.Logic.TheVariants.{Lkf as LogicOfLkf};
ghost use Rattle.clause_language.specs.Program.{IsOpenProgram};
ghost use Rattle.search_model.specs.Checking.{IsOutcome, IsOutcomeWithin};
ghost use Rattle.lkf_kernel.specs.Guided.{lkf_table};
ghost use Rattle.elaborator.specs.Check.{IsRight};

use clause_language::program::Program;
use fpc_base::outside::OutOfMemory;
use lkf_kernel::Lkf;
use lkf_kernel::laws::erasure;
use polarised_formulas::problem::Problem;
use search_model::{Outcome, plain_search};
use std::alloc::Global;

/// Searches for a derivation of a problem's goal, guided by a program's certificate, within a
/// budget of units. The logic is LKF. Accepted: the steps spell a derivation of the goal in LKF, the
/// one that a guided derivation is without certificates. Rejected: no closing of the certificate
/// guides one; the goal may still have a derivation. Each alternative of the search is a copy, so
/// time and memory grow with the size of the alternatives.
pub fn check(
    alloc: Global,
    problem: &Problem,
    program: &Program,
    budget: u64,
) -> Result<Outcome, OutOfMemory>
    requires program { IsOpenProgram program.now }
    requires logic { program.now.logic ≡ problem.now.logic }
    requires lkf { problem.now.logic ≡ LogicOfLkf }
    requires closed { IsClosed problem.now.goal }
    ensures outcome { IfOk result
        (IsOutcome (lkf_table program.now) program.now problem.now.goal budget) }
    ensures units { IfOk result (IsOutcomeWithin budget) }
    ensures right { IfOk result (IsRight program.now problem.now.goal) }
{
    erasure();
    plain_search(alloc, &Lkf, program, &problem.goal, budget)
}
