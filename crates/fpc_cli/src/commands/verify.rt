//! `verify`: the verdict on an explicit certificate.
ghost use Rattle.std.specs.Prelude.{◌≡◌, ◌≤◌, ◌<◌, [], ◌∷◌, List, ℕ};
ghost use Rattle.fpc_base.specs.Lexeme.{items_of};
ghost use Rattle.fpc_base.specs.Outside.{IsAtStartOf};
ghost use Rattle.polarised_formulas.specs.Formula.{IsClosed, IsLkf};
ghost use Rattle.polarised_formulas.specs.ReadProblem.{ProblemIsRead};
ghost use Rattle.polarised_formulas.specs.declared.logic.Logic.TheVariants.{Lkf};
ghost use Rattle.fpc_cli.specs.Command.{verify as asked_to_verify};
ghost use Rattle.fpc_cli.specs.Inputs.{stream, Comes};
ghost use Rattle.fpc_cli.specs.Run.{IsCaused};
ghost use Rattle.fpc_cli.specs.commands.Verify.{IsAnswerOf, VerifyEnds, EndsVerify};

use crate::answer::{Answer, Role};
use crate::reading::problem_in;
use explicit_kernel::laws::first_judgment;
use explicit_kernel::verify::{Verdict, VerifyRefusal, verify};
use fpc_base::outside::Files;
use fpc_base::steps::Steps;
use fpc_terms::names::Names;
use polarised_formulas::problem::Problem;
use std::alloc::Global;
use std::marker::Brand;
use std::sync::ledger::{Blank, Ledger};

/// The answer that a verdict is.
fn answer_of(verdict: Result<Verdict, VerifyRefusal>) -> Answer
    ensures { IsAnswerOf verdict result }
{
    match verdict {
        Ok(Verdict::Accepted { steps }) => Answer::Accepted { steps },
        Ok(Verdict::Rejected { at }) => Answer::Rejected { at },
        Err(VerifyRefusal::Refused(refusal)) => Answer::Refused {
            role: Role::Explicit,
            refusal,
        },
        Err(VerifyRefusal::ReadFault) => Answer::ReadFault,
        Err(VerifyRefusal::OutOfMemory) => Answer::OutOfMemory,
    }
}

/// Checks the open explicit certificate against the problem.
fn judged<F: Files, L: Ledger>(
    alloc: Global,
    names: &mut Names,
    problem: &Problem,
    files: &mut F,
    blank: Blank,
) -> Answer
    requires logic { problem.now.logic ≡ Lkf }
    requires closed { IsClosed problem.now.goal }
    requires lkf { IsLkf problem.now.goal }
    requires name { blank.name ≡ L.name }
    requires parts { blank.parts ≡ L.parts }
    requires one { 0 < L.parts }
    ensures ends { (bytes name : List ℕ)
        → ProblemIsRead (items_of bytes) names.old Lkf problem.now.goal
        → IsAtStartOf ((F.outside files.old).content name) (F.outside files.old).left
        → VerifyEnds bytes ((F.outside files.old).content name)
        (F.outside files.old) (F.outside files.new) result }
    ensures never_falls { (F.outside files.old).faults ≤ (F.outside files.new).faults }
    ensures content { (F.outside files.new).content ≡ (F.outside files.old).content }
{
    let mut steps = Steps::<L>::new(blank);
    let verdict = verify(alloc, names, problem, files, &mut steps);
    names.distinct();
    first_judgment();
    answer_of(verdict)
}

/// Opens the explicit certificate and checks it against the problem.
fn checked<F: Files>(
    alloc: Global,
    names: &mut Names,
    problem: &Problem,
    name: &str,
    files: &mut F,
) -> Answer
    requires logic { problem.now.logic ≡ Lkf }
    requires closed { IsClosed problem.now.goal }
    requires lkf { IsLkf problem.now.goal }
    ensures comes { (bytes : List ℕ)
        → ProblemIsRead (items_of bytes) names.old Lkf problem.now.goal
        → Comes (F.outside files.old).content (EndsVerify ((F.outside files.old).content name.now))
        (bytes ∷ [])
        (stream name.now ∷ [])
        (F.outside files.old) (F.outside files.new) result }
    ensures never_falls { (F.outside files.old).faults ≤ (F.outside files.new).faults }
    ensures content { (F.outside files.new).content ≡ (F.outside files.old).content }
{
    if files.open(name).is_err() {
        return Answer::ReadFault;
    }
    judged::<F, Brand>(alloc, names, problem, files, Blank::new(1))
}

/// The answer to `verify`.
pub fn verified<F: Files>(alloc: Global, problem: &str, explicit: &str, files: &mut F) -> Answer
    ensures caused { IsCaused (asked_to_verify problem.now explicit.now)
        (F.outside files.old).content
        (F.outside files.old) (F.outside files.new) result }
    ensures never_falls { (F.outside files.old).faults ≤ (F.outside files.new).faults }
    ensures content { (F.outside files.new).content ≡ (F.outside files.old).content }
{
    let mut names = Names::new(alloc);
    match problem_in(alloc, &mut names, problem, files) {
        Ok(problem) => checked(alloc, &mut names, &problem, explicit, files),
        Err(answer) => answer,
    }
}
