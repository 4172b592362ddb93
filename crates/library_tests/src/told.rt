//! Refusals as texts, and steps of lines.
use explicit_form::StepReader;
use fpc_base::ParseRefusal;
use fpc_terms::Names;
use polarised_formulas::{Logic, Step};
use std::alloc::{AllocError, Global};
use std::process::Abort;
use std::test::Fail;

/// A refusal as `CODE at PLACE`.
pub(crate) fn refusal_text(alloc: Global, refusal: ParseRefusal) -> Result<Vec<u8>, AllocError> {
    match refusal {
        ParseRefusal::Refused(refusal) => {
            let code = refusal.code;
            let at = refusal.at;
            Ok(format!(in alloc; "{code} at {at}")?.into_bytes())
        }
        ParseRefusal::OutOfMemory => b"want of memory".to_vec(alloc),
    }
}

/// The step of a line.
pub(crate) fn step_of(
    rt: &impl Abort,
    alloc: Global,
    names: &mut Names,
    logic: Logic,
    line: &str,
) -> Result<Step, Fail> {
    let header = match logic {
        Logic::Lkf => "fpc 1 lkf\n",
        Logic::Ljf => "fpc 1 ljf\n",
    };
    let mut reader = StepReader::new(alloc, logic);
    assert_eq!(rt; reader.feed(names, header.as_bytes()), Ok(10));
    assert_eq!(rt; reader.feed(names, line.as_bytes()), Ok(line.len()));
    assert_eq!(rt; reader.feed(names, b"\n"), Ok(1), "{line}");
    Ok(reader.take().ok_or("no step")?)
}
