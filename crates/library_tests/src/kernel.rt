//! Certificates from a source in memory: what they come to in pieces, and reads that fail.
ghost use Rattle.std.specs.Prelude.{◌≡◌, ℕ, ◌<◌};
ghost use Rattle.polarised_formulas.specs.Formula.{IsClosed, IsLkf};
ghost use Rattle.polarised_formulas.specs.declared.logic.Logic.TheVariants.{Lkf};

use explicit_kernel::verify::verify;
use explicit_kernel::{Verdict, VerifyRefusal};
use fpc_base::{MemSource, Refusal, Steps};
use fpc_terms::Names;
use polarised_formulas::{Logic, Problem, read_problem};
use std::alloc::{AllocError, Global};
use std::marker::Brand;
use std::sync::ledger::{Blank, Ledger};
use std::test::Fail;

/// The verdict on a source, by a count of its own.
fn verdict_on<L: Ledger>(
    alloc: Global,
    names: &mut Names,
    problem: &Problem,
    source: &mut MemSource,
    blank: Blank,
) -> Result<Verdict, VerifyRefusal>
    requires logic { problem.now.logic ≡ Lkf }
    requires closed { IsClosed problem.now.goal }
    requires lkf { IsLkf problem.now.goal }
    requires name { blank.name ≡ L.name }
    requires parts { blank.parts ≡ L.parts }
    requires one { 0 < L.parts }
{
    let mut steps = Steps::<L>::new(blank);
    verify(alloc, names, problem, source, &mut steps)
}

/// A verdict, or why there is none, as text.
fn text_of(alloc: Global, verdict: Result<Verdict, VerifyRefusal>) -> Result<String, AllocError> {
    match verdict {
        Ok(Verdict::Accepted { steps }) => format!(in alloc; "accepted, {steps} steps"),
        Ok(Verdict::Rejected { at }) => format!(in alloc; "rejected at step {at}"),
        Err(VerifyRefusal::Refused(Refusal { code, at })) => format!(in alloc; "{code} at {at}"),
        Err(VerifyRefusal::ReadFault) => String::from_str(alloc, "read fault"),
        Err(VerifyRefusal::OutOfMemory) => String::from_str(alloc, "want of memory"),
    }
}

/// What a certificate comes to for a problem of LKF that comes in pieces; the read with the number fails.
fn told(
    alloc: Global,
    problem: &[u8],
    certificate: Vec<u8>,
    failing: u64,
    piece: usize,
) -> Result<String, Fail> {
    let mut names = Names::new(alloc);
    let problem = read_problem(alloc, &mut names, problem)?;
    let mut source = MemSource::new(certificate, vec![in alloc; failing]?, piece.max(1));
    let logic = problem.logic;
    if logic != Logic::Lkf {
        return Ok(String::from_str(alloc, "another logic")?);
    }
    let verdict = verdict_on::<Brand>(alloc, &mut names, &problem, &mut source, Blank::new(1));
    Ok(text_of(alloc, verdict)?)
}

const CERTIFICATE: &str = "fpc 1 lkf\nor-\nstore\nstore\ndecide 0\ninit 1\nend\n";

/// Certificates of `(p |- ~p)`, with the read that fails and the size of a piece.
const VERDICTS: &[(&str, u64, usize, &str)] = &[
    (CERTIFICATE, 99, 1, "accepted, 5 steps"),
    (CERTIFICATE, 3, 7, "read fault"),
    ("fpc 1 lkf\nend\n", 9, 7, "rejected at step 1"),
    ("fpc 1 ljf\nend\n", 9, 7, "WrongCalculus at 6"),
];

#[test]
fn certificates_come_to_a_verdict(rt: HostRuntime) -> Result<(), Fail> {
    for (certificate, failing, piece, due) in VERDICTS {
        let bytes = certificate.as_bytes().to_vec(rt.alloc())?;
        let text = told(rt.alloc(), b"lkf (p |- ~p).", bytes, *failing, *piece)?;
        assert_eq!(rt; text.as_str(), *due, "{certificate:?} {failing} {piece}");
    }
    Ok(())
}
