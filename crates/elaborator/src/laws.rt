//! Laws over the outcomes of a check, each the contract of a function with nothing to run.
ghost use Rattle.elaborator.specs.OneOutcome.{CheckedOnce};

/// The outcome of a check depends on what the three files say, and on no numbering of their names.
pub fn one_outcome()
    ensures { CheckedOnce }
{}
