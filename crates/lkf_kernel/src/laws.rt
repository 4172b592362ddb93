//! Laws of LKF's guided derivations, each the contract of a function with nothing to run.
ghost use Rattle.lkf_kernel.specs.Erasure.{GuidedIsSpelling};
ghost use Rattle.lkf_kernel.specs.Rows.{CnfRow, CutRow, RuleRow, StoredUnitRow, UnitRow};

/// The steps of a guided derivation are the preorder of a certificate, which spells the derivation
/// without levels, certificates and indexes: a derivation in LKF.
pub fn erasure()
    ensures { GuidedIsSpelling }
{}

/// Worked searches: their steps, their units and the outcome with fewer units.
pub fn rows()
    ensures units { UnitRow }
    ensures stored { StoredUnitRow }
    ensures cnf { CnfRow }
    ensures rules { RuleRow }
    ensures cut { CutRow }
{}
