//! Laws of the plain form, each the contract of a function with nothing to run.
ghost use Rattle.polarised_formulas.specs.PlainForm.{FormulaIsOne, FormulaIsWhole, GoingBegins, PlainFormulaIsProper, PlainTermIsProper, TermIsOne, TermIsWhole};
ghost use Rattle.polarised_formulas.specs.PlainLimits.{FormulaOutcome, PlainGrows, PlainTermGrows, RefusalIsTold, TermOutcome};
ghost use Rattle.polarised_formulas.specs.PlainPrinting.{FormulaIsPlain, FormulaIsReadBack, TermIsPlain, TermIsReadBack};
ghost use Rattle.polarised_formulas.specs.PlainTexts.{PlainFormulaIsNamed, PlainTermIsNamed, FormulaIsRead, LineEnds, LinesAreShared, OnBegins, TableHasNumbering, TermIsRead};

/// Laws of lines: the reading goes on exactly where the bytes begin a line, and what is whole is what the line holds. A line ends with the byte 10, which stands
/// nowhere inside one, and holds one term or formula. What is a line hangs on no numbering.
#[tactic(auto, using(crate::proofs::PlainLaws::laws))]
pub fn laws_of_lines()
    ensures begins { GoingBegins }
    ensures whole_term { TermIsWhole }
    ensures whole_formula { FormulaIsWhole }
    ensures one_term { TermIsOne }
    ensures one_formula { FormulaIsOne }
    ensures line_end { LineEnds }
    ensures shared { LinesAreShared }
{}

/// Laws of texts: the reading stands inside a line exactly where the bytes begin a text, and with a table of different names a term or formula is read exactly
/// from its text.
#[tactic(auto, using(crate::proofs::PlainLaws::laws))]
pub fn laws_of_texts()
    ensures begins { OnBegins }
    ensures term { TermIsRead }
    ensures formula { FormulaIsRead }
    ensures numbering { TableHasNumbering }
{}

/// Laws of outcomes: with a table of different names a whole text is read exactly where it is the text of a term or formula that keeps the limits, and it is
/// refused exactly at the first byte that goes on to begin no text or goes past a limit, or at the end of bytes that are no text.
#[tactic(auto, using(crate::proofs::PlainLaws::laws))]
pub fn laws_of_outcomes()
    ensures term { TermOutcome }
    ensures formula { FormulaOutcome }
    ensures refusal { RefusalIsTold }
{}

/// Laws of what is read: it has no variable and no free bound index, its names stand in the table, a formula is of its logic, and both keep their texts as the table of names grows.
#[tactic(auto, using(crate::proofs::PlainLaws::laws))]
pub fn laws_of_what_is_read()
    ensures term { PlainTermIsProper }
    ensures formula { PlainFormulaIsProper }
    ensures named_term { PlainTermIsNamed }
    ensures named_formula { PlainFormulaIsNamed }
    ensures grown_term { PlainTermGrows }
    ensures grown_formula { PlainGrows }
{}

/// Laws of what is printed: a term or formula is read back from its text exactly where it is of the logic, has no variable and no free bound index, small
/// eigenvariables, only names of the table, and keeps the limits.
#[tactic(auto, using(crate::proofs::PlainLaws::laws))]
pub fn laws_of_what_is_printed()
    ensures plain_term { TermIsPlain }
    ensures plain_formula { FormulaIsPlain }
    ensures term { TermIsReadBack }
    ensures formula { FormulaIsReadBack }
{}
