//! Explicit certificates printed, and the lines of LJF, which no command reads.
ghost use Rattle.std.specs.Prelude.{length};
ghost use Rattle.explicit_form.specs.Sizes.{StepsNamedBelow};

use crate::told::step_of;
use Logic::{Ljf, Lkf};
use explicit_form::{StepReader, print_steps};
use fpc_terms::{Cell, Names, TermBuf};
use polarised_formulas::{Formula, Logic, Node, Polarity, Side, Step};
use std::alloc::Global;
use std::process::Abort;
use std::test::Fail;

/// Prints the steps.
fn expect_printed(
    rt: &impl Abort,
    alloc: Global,
    names: &Names,
    logic: Logic,
    steps: &[Step],
    due: &str,
) -> Result<(), Fail>
    requires { StepsNamedBelow (length names.now) steps.now }
{
    let text = print_steps(alloc, names, logic, steps)?;
    assert_eq!(rt; text.as_slice(), due.as_bytes());
    Ok(())
}

#[test]
fn certificates_are_printed(rt: HostRuntime) -> Result<(), Fail> {
    let names = Names::new(rt.alloc());
    let term = TermBuf::from_cells(rt.alloc(), &[Cell::Eigen(5)])?;
    let formula = Formula::from_nodes(rt.alloc(), &[Node::False(Polarity::Negative)])?;
    let steps = [
        Step::Decide(10),
        Step::Exists(term),
        Step::Cut(formula),
        Step::OrP(Side::Right),
    ];
    let due = "fpc 1 lkf\ndecide 10\nsome $5\ncut ff-\nor+ right\nend\n";
    expect_printed(&rt, rt.alloc(), &names, Lkf, &steps, due)?;
    let due = "fpc 1 ljf\nr-imp\nrf-init 3\nend\n";
    expect_printed(
        &rt,
        rt.alloc(),
        &names,
        Ljf,
        &[Step::RImp, Step::FocRInit(3)],
        due,
    )
}

/// Lines of LJF, one for each kind of what comes after the word.
const LINES: &[&str] = &[
    "l-tt",
    "decide-l 0",
    "lf-and left",
    "lf-all f($1)",
    "cut (ff | +p)",
];

#[test]
fn lines_of_ljf_are_steps(rt: HostRuntime) -> Result<(), Fail> {
    for line in LINES {
        let mut names = Names::new(rt.alloc());
        step_of(&rt, rt.alloc(), &mut names, Ljf, line)?;
    }
    let mut names = Names::new(rt.alloc());
    let mut reader = StepReader::new(rt.alloc(), Ljf);
    assert!(rt; reader.feed(&mut names, b"fpc 1 lkf\n").is_err());
    assert!(rt; reader.finish().is_err());
    Ok(())
}
