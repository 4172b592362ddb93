//! Laws over the definitions of problems and their texts, each the contract of a function with nothing to run.
ghost use Rattle.polarised_formulas.specs.RoundTrip.{ReadIsPrintable, ReadIsReadBack, TextIsRead, TextIsScanned};
ghost use Rattle.polarised_formulas.specs.OneAnswer.{IsReadOnce, IsRefusedOnce, IsNotBoth, IsRefusedWithin, FormulaIsReadOnce, FormulaIsRefusedOnce, FormulaIsNotBoth, FormulaIsRefusedWithin};

/// A file is read as one problem, or it is refused in one way, and not both. A refusal lies within the
/// file, or at its end.
pub fn one_answer()
    ensures read { IsReadOnce }
    ensures refused { IsRefusedOnce }
    ensures both { IsNotBoth }
    ensures within { IsRefusedWithin }
{}

/// The front of a source is read as one formula, or it is refused in one way, and not both. A refusal
/// lies within the source, or at its end.
pub fn one_answer_in_front()
    ensures read { FormulaIsReadOnce }
    ensures refused { FormulaIsRefusedOnce }
    ensures both { FormulaIsNotBoth }
    ensures within { FormulaIsRefusedWithin }
{}

/// The printed form of a problem says the tokens of its formula. A problem within the limits is read from it, and what was read is such
/// a problem, so it is read back from its printed form.
pub fn problems_are_read_back()
    ensures scanned { TextIsScanned }
    ensures printed { TextIsRead }
    ensures printable { ReadIsPrintable }
    ensures back { ReadIsReadBack }
{}
