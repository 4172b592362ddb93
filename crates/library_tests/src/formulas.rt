//! Formulas by themselves, in their two forms.
ghost use Rattle.std.specs.Prelude.{IfOk, length};
ghost use Rattle.polarised_formulas.specs.Printing.{AllNamesBelow};

use crate::told::refusal_text;
use Logic::{Ljf, Lkf};
use fpc_base::{ParseRefusal, Tokens};
use fpc_terms::{Names, VarTable};
use polarised_formulas::{Formula, Logic, print_formula, read_formula, read_plain_formula};
use std::alloc::Global;
use std::test::Fail;

/// A formula with the parameter `A`.
fn formula(
    alloc: Global,
    names: &mut Names,
    logic: Logic,
    text: &str,
) -> Result<Formula, ParseRefusal>
    ensures { IfOk result (AllNamesBelow (length names.new)) }
{
    let mut parameters = VarTable::new(alloc);
    parameters.number(b"A")?;
    let mut tokens = Tokens::new(text.as_bytes());
    read_formula(alloc, names, logic, &mut tokens, &parameters)
}

/// The plain form of a formula, or why it is refused.
fn told(alloc: Global, logic: Logic, source: &str) -> Result<Vec<u8>, Fail> {
    let mut names = Names::new(alloc);
    match formula(alloc, &mut names, logic, source) {
        Ok(found) => {
            let mut out = Vec::new(alloc);
            print_formula(alloc, &names, logic, &found, &mut out)?;
            Ok(out)
        }
        Err(refusal) => Ok(refusal_text(alloc, refusal)?),
    }
}

/// Formulas, each with its plain form or its refusal.
const FORMULAS: &[(Logic, &str, &str)] = &[
    (
        Lkf,
        "all X : some Y : (~d(X,A) |- d(Y)) . more",
        "all some (~d(#1,V0) |- d(#0))",
    ),
    (Ljf, "(+d=>(-e|ff))", "(+d => (-e | ff))"),
    (Lkf, "p(C)", "Unexpected at 2"),
];

#[test]
fn formulas_are_read_and_printed(rt: HostRuntime) -> Result<(), Fail> {
    for (logic, source, due) in FORMULAS {
        let text = told(rt.alloc(), *logic, source)?;
        assert_eq!(rt; text.as_slice(), due.as_bytes(), "{source}");
    }
    Ok(())
}

/// How many nodes a formula in plain form has, or why it is refused.
fn plain_told(alloc: Global, logic: Logic, source: &[u8]) -> Result<Vec<u8>, Fail> {
    let mut names = Names::new(alloc);
    match read_plain_formula(alloc, &mut names, logic, source) {
        Ok(found) => {
            let nodes = found.nodes().len();
            Ok(format!(in alloc; "{nodes} nodes")?.into_bytes())
        }
        Err(refusal) => Ok(refusal_text(alloc, refusal)?),
    }
}

const PLAIN: &[(Logic, &str, &str)] = &[
    (Lkf, "all (~p(f(#0,$3)) |- tt+)", "7 nodes"),
    (Ljf, "(+p => -q)", "3 nodes"),
    (Lkf, "p(00)", "Unexpected at 2"),
    (Ljf, "ff+", "Unexpected at 2"),
];

#[test]
fn the_plain_form_is_read(rt: HostRuntime) -> Result<(), Fail> {
    for (logic, source, due) in PLAIN {
        let text = plain_told(rt.alloc(), *logic, source.as_bytes())?;
        assert_eq!(rt; text.as_slice(), due.as_bytes(), "{source}");
    }
    Ok(())
}
