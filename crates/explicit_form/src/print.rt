//! Certificates as bytes.
ghost use Rattle.std.specs.Prelude.{◌≡◌, ◌<◌, ◌↔◌, ◌++◌, ◌∷◌, [], OnOk, OnErr, IfOk, Err, length};
ghost use Rattle.fpc_terms.specs.Text.{name_in, term_text};
ghost use Rattle.fpc_terms.specs.Printing.{HasNamesBelow};
ghost use Rattle.polarised_formulas.specs.Text.{plain_text};
ghost use Rattle.polarised_formulas.specs.Printing.{AllNamesBelow};
ghost use Rattle.std.specs.Fmt.{decimal};
ghost use Rattle.explicit_form.specs.StepText.{argument_before, line_before, certificate_text};
ghost use Rattle.explicit_form.specs.StepLimits.{most_bytes};
ghost use Rattle.explicit_form.specs.Sizes.{StepNamedBelow, StepsNamedBelow};
ghost use Rattle.explicit_form.specs.declared.print.PrintRefusal.TheVariants.{TooLong};

use crate::size::certificate_size;
use crate::word::{Word, step_word, word_bytes};
use crate::words::header_line;
use fpc_base::outside::OutOfMemory;
use fpc_terms::names::Names;
use fpc_terms::print::print_term;
use fpc_terms::term::TermBuf;
use polarised_formulas::formula::Formula;
use polarised_formulas::logic::Logic;
use polarised_formulas::print::print_formula;
use polarised_formulas::step::Step;
use std::alloc::{AllocError, AllocFailed, Global};

/// The most bytes of a certificate that is read again.
const MOST_BYTES: u64 = 67_108_864;

/// Why steps were not printed.
#[derive(Clone, Copy, PartialEq, Eq, Debug)]
pub enum PrintRefusal {
    /// The text has more bytes than a certificate may have.
    TooLong,
    OutOfMemory,
}

impl From<OutOfMemory> for PrintRefusal {
    ghost use Rattle.std.specs.Prelude.{◌≡◌};
    ghost use Rattle.explicit_form.specs.declared.print.PrintRefusal.TheVariants.{OutOfMemory};

    ghost from_gives = { λ _ e. e ≡ OutOfMemory };

    fn from(_e: OutOfMemory) -> PrintRefusal {
        PrintRefusal::OutOfMemory
    }
}

impl From<AllocError> for PrintRefusal {
    ghost use Rattle.std.specs.Prelude.{◌≡◌};
    ghost use Rattle.explicit_form.specs.declared.print.PrintRefusal.TheVariants.{OutOfMemory};

    ghost from_gives = { λ _ e. e ≡ OutOfMemory };

    fn from(_e: AllocError) -> PrintRefusal {
        PrintRefusal::OutOfMemory
    }
}

impl<T: Drop> From<AllocFailed<T>> for PrintRefusal {
    ghost use Rattle.std.specs.Prelude.{◌≡◌};
    ghost use Rattle.explicit_form.specs.declared.print.PrintRefusal.TheVariants.{OutOfMemory};

    ghost from_gives = { λ _ e. e ≡ OutOfMemory };

    fn from(_e: AllocFailed<T>) -> PrintRefusal {
        PrintRefusal::OutOfMemory
    }
}

/// The text of a certificate with these steps. A text that is too long is found before any of it is made. Time and memory are linear in the text's size.
#[tactic(auto, using(crate::proofs::PrintFacts::print_facts))]
pub fn print_steps(
    alloc: Global,
    names: &Names,
    logic: Logic,
    steps: &[Step],
) -> Result<Vec<u8>, PrintRefusal>
    requires { StepsNamedBelow (length names.now) steps.now }
    ensures text { IfOk result (λ text. text.items ≡ certificate_text (name_in names.now) logic steps.now) }
    ensures long { (result ≡ Err TooLong) ↔ (most_bytes < length (certificate_text (name_in names.now) logic steps.now)) }
{
    if certificate_size(names, logic, steps) > MOST_BYTES {
        return Err(PrintRefusal::TooLong);
    }
    match push_steps(alloc, names, logic, steps) {
        Ok(text) => Ok(text),
        Err(OutOfMemory) => Err(PrintRefusal::OutOfMemory),
    }
}

/// The text of a certificate with these steps, however long.
#[tactic(auto, using(crate::proofs::PrintFacts::print_facts))]
fn push_steps(
    alloc: Global,
    names: &Names,
    logic: Logic,
    steps: &[Step],
) -> Result<Vec<u8>, OutOfMemory>
    requires { StepsNamedBelow (length names.now) steps.now }
    ensures { IfOk result (λ text. text.items ≡ certificate_text (name_in names.now) logic steps.now) }
{
    let mut out = Vec::new(alloc);
    out.extend_from_slice(header_line(logic))?;
    for step in steps {
        push_step(alloc, names, logic, step, &mut out)?;
    }
    out.extend_from_slice(word_bytes(Word::End))?;
    Ok(out)
}

/// Puts the line of a step behind other bytes.
#[tactic(auto, using(crate::proofs::PrintFacts::print_facts))]
fn push_step(
    alloc: Global,
    names: &Names,
    logic: Logic,
    step: &Step,
    out: &mut Vec<u8>,
) -> Result<(), OutOfMemory>
    requires { StepNamedBelow (length names.now) step.now }
    ensures { OnOk result (out.new.items ≡ out.old.items ++ line_before (name_in names.now) logic step.now []) }
{
    out.extend_from_slice(word_bytes(step_word(step)))?;
    push_argument(alloc, names, logic, step, out)
}

/// Puts what stands behind the word of a step behind other bytes.
#[tactic(auto, using(crate::proofs::PrintFacts::print_facts))]
fn push_argument(
    alloc: Global,
    names: &Names,
    logic: Logic,
    step: &Step,
    out: &mut Vec<u8>,
) -> Result<(), OutOfMemory>
    requires { StepNamedBelow (length names.now) step.now }
    ensures { OnOk result (out.new.items ≡ out.old.items ++ argument_before (name_in names.now) logic step.now []) }
{
    match step {
        Step::Decide(k) | Step::Init(k) | Step::DecideL(k) | Step::FocRInit(k) => {
            push_place(alloc, *k, out)
        }
        Step::Exists(term) | Step::FocLEvery(term) | Step::FocRExists(term) => {
            print_term(alloc, names, term, out)?;
            push_end(out)
        }
        Step::Cut(formula) => {
            print_formula(alloc, names, logic, formula, out)?;
            push_end(out)
        }
        _ => Ok(()),
    }
}

/// Puts a place and the end of its line behind other bytes.
#[tactic(auto, using(crate::proofs::PrintFacts::print_facts))]
fn push_place(alloc: Global, place: u64, out: &mut Vec<u8>) -> Result<(), OutOfMemory>
    ensures { OnOk result (out.new.items ≡ out.old.items ++ (decimal place ++ 10 ∷ [])) }
{
    let digits = format!(in alloc; "{place}")?;
    out.extend_from_slice(digits.as_bytes())?;
    push_end(out)
}

fn push_end(out: &mut Vec<u8>) -> Result<(), OutOfMemory>
    ensures { OnOk result (out.new.items ≡ out.old.items ++ 10 ∷ []) }
{
    out.push(b'\n')?;
    Ok(())
}
