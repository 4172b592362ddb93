//! Laws of the judgment of a certificate. The functions do nothing: their contracts say the laws.
ghost use Rattle.lkf_rules.specs.Lkf.{lkf};
ghost use Rattle.explicit_kernel.specs.JudgmentLaws.{AcceptedHasNodes, AcceptedIsSpelled, JudgmentStays, NumbersDontMatter, RefusedFirst, RejectedAtLine, RejectedBegins};
ghost use Rattle.explicit_kernel.specs.OwnText.{OwnTextIsAccepted, OwnTextIsVerified};

/// A certificate for a closed goal is accepted with so many steps exactly where it is the text of
/// so many, within the limits, which spell a derivation of the goal. The derivation has as many
/// nodes.
pub fn acceptance()
    ensures spelled { AcceptedIsSpelled lkf }
    ensures nodes { AcceptedHasNodes lkf }
{}

/// A certificate is rejected exactly at the first line that shows that its steps spell nothing:
/// that of a step that does not fit, or the last one where a sequent is left. The bytes up to and
/// with the end of this line begin a certificate.
pub fn rejection()
    ensures line { RejectedAtLine lkf }
    ensures begins { RejectedBegins lkf }
{}

/// A certificate is refused exactly where its bytes are, before a line of it is rejected. The steps
/// before that fit are counted.
pub fn refusal()
    ensures { RefusedFirst lkf }
{}

/// Bytes that show a judgment keep it whatever comes after them.
pub fn first_judgment()
    ensures { JudgmentStays lkf }
{}

/// The judgment of a certificate depends on no choice of numbers for names: it is the same by any
/// two numberings by which each name has its text, with the goal that a written formula stands for
/// by each.
pub fn numbers()
    ensures { NumbersDontMatter lkf }
{}

/// Steps that spell a derivation of a closed goal are accepted from their own text, with as many
/// steps, where names stand in the table and the limits are kept. `verify` of a source that holds
/// this text answers just that, unless a read fails or memory runs out.
pub fn own_text()
    ensures accepted { OwnTextIsAccepted lkf }
    ensures verified { OwnTextIsVerified lkf }
{}
