//! Explicit certificates as texts.
#![tactic(auto)]

mod front;
mod line;
pub mod print;
mod size;
pub mod step_reader;
pub mod word;
mod words;

ghost use Rattle.explicit_form.specs.StepFeeding.{EndIsRefused, EndIsWhole, FeedingGives, LinesAreTaken, NothingGiven, ToldIsRefused};
ghost use Rattle.explicit_form.specs.StepLaws.{CertificateBegins, CertificateIsOne, CertificateIsWhole, LineEnds, LinesAreRead, OtherCalculus, PlainStepIsProper};
ghost use Rattle.explicit_form.specs.StepLimits.{CertificateOutcome, RefusalIsTold};
ghost use Rattle.explicit_form.specs.StepTables.{LinesInTable, PlainIsNamed, StepGrows, StepsAreRead, StepsOutcome};

pub use print::{PrintRefusal, print_steps};
pub use step_reader::{StepFault, StepReader};

/// Laws of certificates: the reading goes on exactly where the bytes begin a certificate, or no more than the first line of one for the other calculus. It ends
/// with steps exactly behind their text, which is the text of no other steps. The rules take these steps.
#[tactic(auto, using(crate::proofs::Laws::laws))]
pub fn laws_of_certificates()
    ensures begins { CertificateBegins }
    ensures whole { CertificateIsWhole }
    ensures other { OtherCalculus }
    ensures one { CertificateIsOne }
    ensures proper { PlainStepIsProper }
{}

/// Laws of lines: a line ends with the byte 10, which stands nowhere inside one, and the steps that are read inside a certificate are those whose lines have
/// ended.
#[tactic(auto, using(crate::proofs::Laws::laws))]
pub fn laws_of_lines()
    ensures ends { LineEnds }
    ensures read { LinesAreRead }
{}

/// Laws of outcomes: a whole certificate is read exactly where it is the text of steps that keep the limits, and a refusal is told at the first byte with which
/// the bytes begin no text or go past a limit, or at the end of bytes that are no certificate.
#[tactic(auto, using(crate::proofs::Laws::laws))]
pub fn laws_of_outcomes()
    ensures steps { CertificateOutcome }
    ensures refusal { RefusalIsTold }
{}

/// Laws of tables: with a table of different names steps are read exactly from their text, within the limits, and they keep it as the table grows.
#[tactic(auto, using(crate::proofs::Laws::laws))]
pub fn laws_of_tables()
    ensures read { StepsAreRead }
    ensures lines { LinesInTable }
    ensures outcome { StepsOutcome }
    ensures grown { StepGrows }
    ensures named { PlainIsNamed }
{}

/// Laws of feeding: the steps that a reader gives, at most one behind each piece, are those of the lines so far, in order and each once. Where the last line is
/// read the bytes are their text, within the limits, and what the reader tells is why the bytes are refused.
#[tactic(auto, using(crate::proofs::Laws::laws))]
pub fn laws_of_feeding()
    ensures begins { NothingGiven }
    ensures gives { FeedingGives }
    ensures whole { EndIsWhole }
    ensures lines { LinesAreTaken }
    ensures told { ToldIsRefused }
    ensures unfinished { EndIsRefused }
{}
