//! Formulas and problems as texts.
ghost use Rattle.std.specs.Prelude.{◌≡◌, ◌++◌, [], OnOk, OnErr, IfOk, length};
ghost use Rattle.fpc_terms.specs.Text.{name_in};
ghost use Rattle.polarised_formulas.specs.Text.{plain_text, named_style, formula_before, problem_text};
ghost use Rattle.polarised_formulas.specs.Printing.{AllNamesBelow};

mod progress;
mod waiting;
pub mod words;
mod writer;

use crate::formula::Formula;
use crate::logic::Logic;
use crate::print::words::logic_word;
use crate::print::writer::{Form, Writer};
use crate::problem::Problem;
use fpc_base::outside::OutOfMemory;
use fpc_terms::names::Names;
use std::alloc::Global;

/// Adds the plain form of a formula after other bytes. In LJF, which has one `ff` and one
/// disjunction, their polarity is left out. On a refusal `out` is as before. Time and memory are
/// linear in the text's size.
pub fn print_formula(
    alloc: Global,
    names: &Names,
    logic: Logic,
    f: &Formula,
    out: &mut Vec<u8>,
) -> Result<(), OutOfMemory>
    requires { AllNamesBelow (length names.now) f.now }
    ensures ok { OnOk result (out.new.items ≡ out.old.items ++ plain_text names.now logic f.now) }
    ensures err { OnErr result (out.new.items ≡ out.old.items) }
{
    let writer = Writer {
        alloc,
        names,
        logic,
        form: Form::Plain,
    };
    writer.push_formula(f, out)
}

/// Adds a formula with named variables, as in the text of a problem, after other bytes. On a
/// refusal `out` is as before. Time and memory are linear in the text's size.
pub fn push_named_formula(
    alloc: Global,
    names: &Names,
    logic: Logic,
    f: &Formula,
    out: &mut Vec<u8>,
) -> Result<(), OutOfMemory>
    requires { AllNamesBelow (length names.now) f.now }
    ensures ok { OnOk result (out.new.items ≡ out.old.items
        ++ formula_before (named_style (name_in names.now)) logic 0 f.now []) }
    ensures err { OnErr result (out.new.items ≡ out.old.items) }
{
    let writer = Writer {
        alloc,
        names,
        logic,
        form: Form::Named,
    };
    writer.push_formula(f, out)
}

/// The text of a problem, with named variables. Time and memory are linear in the text's size.
#[tactic(auto, using(crate::proofs::PrintFacts::print_facts))]
pub fn print_problem(
    alloc: Global,
    names: &Names,
    problem: &Problem,
) -> Result<Vec<u8>, OutOfMemory>
    requires { AllNamesBelow (length names.now) problem.now.goal }
    ensures { IfOk result (λ text. text.items ≡ problem_text names.now problem.now.logic problem.now.goal) }
{
    let mut text = Vec::new(alloc);
    text.extend_from_slice(logic_word(problem.logic).as_bytes())?;
    text.push(b' ')?;
    push_named_formula(alloc, names, problem.logic, &problem.goal, &mut text)?;
    text.extend_from_slice(b".\n")?;
    Ok(text)
}
