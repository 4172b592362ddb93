//! The verdict on an explicit certificate whose bytes come from a source.
ghost use Rattle.std.specs.Prelude.{◌≡◌, ℕ, ◌+◌, ◌≤◌, List, length, OnOk, IfOk, IfErr};
ghost use Rattle.fpc_terms.specs.Name.{Grows};
ghost use Rattle.polarised_formulas.specs.Formula.{IsClosed, IsLkf};
ghost use Rattle.polarised_formulas.specs.declared.logic.Logic.TheVariants.{Lkf};
ghost use Rattle.explicit_kernel.specs.Check.{IsAnswerTo};
ghost use Rattle.explicit_kernel.specs.VerdictIn.{IsJudged as IsJudgedIn};
ghost use Rattle.explicit_kernel.specs.Verdict.{IsJudged, IsRight, HasReason, AddsRead};

use crate::check::{Check, Stop};
use crate::lkf::LkfPending;
use crate::pending::Pending;
use fpc_base::outside::{Failed, Source};
use fpc_base::refusal::Refusal;
use fpc_base::steps::Steps;
use fpc_terms::names::Names;
use polarised_formulas::formula::Formula;
use polarised_formulas::problem::Problem;
use std::alloc::Global;
use std::sync::ledger::Ledger;

/// The most bytes that one call of `read` is asked for.
const PIECE: usize = 32_768;

/// What an explicit certificate comes to.
#[derive(Clone, Copy, PartialEq, Eq, Debug)]
pub enum Verdict {
    /// The steps spell a derivation of the goal; it has as many nodes.
    Accepted { steps: u64 },
    /// The step with this number, counted from 1, does not fit, is missing at `end`, or comes when no sequent is left.
    Rejected { at: u64 },
}

/// Why there is no verdict.
#[derive(Clone, Copy, PartialEq, Eq, Debug)]
pub enum VerifyRefusal {
    /// The bytes are no explicit certificate of the calculus, or none within the limits.
    Refused(Refusal),
    /// A read failed, and the bytes before show neither a refusal nor a rejection.
    ReadFault,
    OutOfMemory,
}

/// The answer where the check stopped.
fn answer_to(stop: Stop) -> Result<Verdict, VerifyRefusal>
    ensures { IsAnswerTo stop result }
{
    match stop {
        Stop::Rejected(at) => Ok(Verdict::Rejected { at }),
        Stop::Refused(refusal) => Err(VerifyRefusal::Refused(refusal)),
        Stop::OutOfMemory => Err(VerifyRefusal::OutOfMemory),
    }
}

/// Checks the certificate that a source holds, by way of a buffer.
fn verify_through<P: Pending, S: Source, L: Ledger>(
    alloc: Global,
    names: &mut Names,
    goal: &Formula,
    source: &mut S,
    buffer: &mut [u8],
    steps: &mut Steps<L>,
) -> Result<Verdict, VerifyRefusal>
    requires closed { IsClosed goal.now }
    requires buffer { length buffer.old ≡ PIECE }
    ensures judged { IsJudgedIn P.calculus names.new goal.now
        (S.outside source.old).left (S.outside source.new).left steps.old steps.new result }
    ensures count { OnOk result ((S.outside source.new).faults ≡ (S.outside source.old).faults) }
    ensures reason { IfErr result (HasReason (S.outside source.old).faults (S.outside source.new).faults) }
    ensures never_falls { (S.outside source.old).faults ≤ (S.outside source.new).faults }
    ensures content { (S.outside source.new).content ≡ (S.outside source.old).content }
    ensures opened { (S.outside source.new).opened ≡ (S.outside source.old).opened }
    ensures calls { (S.outside source.new).calls ≤ (S.outside source.old).calls + 67_108_864 + 1 }
    ensures grows { Grows names.old names.new }
    ensures only { AddsRead (S.outside source.old).left (S.outside source.new).left names.old names.new }
{
    let mut check = match Check::<P>::start(alloc, goal) {
        Ok(check) => check,
        Err(_) => return Err(VerifyRefusal::OutOfMemory),
    };
    loop {
        match source.read(buffer) {
            Ok(0) => {
                names.distinct();
                match check.finish() {
                    Ok(steps) => return Ok(Verdict::Accepted { steps }),
                    Err(stop) => return answer_to(stop),
                }
            }
            Ok(n) => {
                let (piece, _) = buffer.split_at(n);
                match check.take_piece(alloc, names, piece, steps) {
                    Ok(()) => {}
                    Err(stop) => return answer_to(stop),
                }
            }
            Err(Failed) => return Err(VerifyRefusal::ReadFault),
        }
    }
}

/// Checks the explicit certificate that the source holds for the problem's goal, as its bytes come:
/// each step replaces the next sequent by the premises of the rule that it names. Each step that
/// fits is one tick. A step is judged when its line end is read, so of a refusal and a rejection
/// the one that lies first is reported. At most 65,536 bytes are taken after the byte at which an
/// answer lies. Time is linear in the bytes of the certificate and in the size of the goal, but for
/// the look-ups of names and of what quantifiers bind, which are logarithmic, and for `init`, which
/// takes time linear in the two literals. Memory is that of the goal, of the sequents still to be
/// derived, of the terms and cut formulas that they name, of one line and of the names.
pub fn verify<S: Source, L: Ledger>(
    alloc: Global,
    names: &mut Names,
    problem: &Problem,
    source: &mut S,
    steps: &mut Steps<L>,
) -> Result<Verdict, VerifyRefusal>
    requires logic { problem.now.logic ≡ Lkf }
    requires closed { IsClosed problem.now.goal }
    requires lkf { IsLkf problem.now.goal }
    ensures judged { IsJudged names.new problem.now.goal (S.outside source.old).left
        (S.outside source.new).left steps.old steps.new result }
    ensures right { IfOk result (IsRight problem.now.goal) }
    ensures count { OnOk result ((S.outside source.new).faults ≡ (S.outside source.old).faults) }
    ensures reason { IfErr result (HasReason (S.outside source.old).faults
        (S.outside source.new).faults) }
    ensures never_falls { (S.outside source.old).faults ≤ (S.outside source.new).faults }
    ensures content { (S.outside source.new).content ≡ (S.outside source.old).content }
    ensures opened { (S.outside source.new).opened ≡ (S.outside source.old).opened }
    ensures calls { (S.outside source.new).calls ≤ (S.outside source.old).calls + 67_108_864 + 1 }
    ensures grows { Grows names.old names.new }
    ensures only { AddsRead (S.outside source.old).left (S.outside source.new).left names.old names.new }
{
    let mut buffer = match vec![in alloc; 0u8; PIECE] {
        Ok(buffer) => buffer,
        Err(_) => return Err(VerifyRefusal::OutOfMemory),
    };
    let verdict = verify_through::<LkfPending, S, L>(
        alloc,
        names,
        &problem.goal,
        source,
        buffer.as_mut_slice(),
        steps,
    );
    names.distinct();
    verdict
}
