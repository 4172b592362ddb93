//! Laws over the definitions of files and their texts, each the contract of a function with nothing to run.
ghost use Rattle.clause_language.specs.RoundTrip.{CertificateIsReadBack, CertificateTextIsRead, DefinitionIsReadBack, DefinitionTextIsRead, ReadCertificateIsPrintable, ReadDefinitionIsPrintable};
ghost use Rattle.clause_language.specs.OneAnswer.{AtomIsNotBoth, AtomIsReadOnce, AtomIsRefusedOnce, AtomIsRefusedWithin, CertificateIsRefusedWithin, DefinitionIsRefusedWithin, CertificateIsNotBoth, CertificateIsReadOnce, CertificateIsRefusedOnce, DefinitionIsNotBoth, DefinitionIsReadOnce, DefinitionIsRefusedOnce};
ghost use Rattle.clause_language.specs.ReadAs.{ReadCertificateIsAs, ReadDefinitionIsAs};
ghost use Rattle.clause_language.specs.Joined.{DefinitionIsProgram, JoinedIsProgram};

/// A file is read as one definition or certificate, and a text as one atom, or it is refused as one in
/// one way, and not both. A refusal lies within the file or the text, or at its end.
pub fn one_answer()
    ensures definition_read { DefinitionIsReadOnce }
    ensures definition_refused { DefinitionIsRefusedOnce }
    ensures definition_both { DefinitionIsNotBoth }
    ensures certificate_read { CertificateIsReadOnce }
    ensures certificate_refused { CertificateIsRefusedOnce }
    ensures certificate_both { CertificateIsNotBoth }
    ensures atom_read { AtomIsReadOnce }
    ensures atom_refused { AtomIsRefusedOnce }
    ensures atom_both { AtomIsNotBoth }
    ensures definition_within { DefinitionIsRefusedWithin }
    ensures certificate_within { CertificateIsRefusedWithin }
    ensures atom_within { AtomIsRefusedWithin }
{}

/// A definition or a certificate within the limits is read from its printed form, and what was read is within the limits, so it is read
/// back from its printed form. What the readers say of a file is what these laws ask for.
pub fn files_are_read_back()
    ensures definition_read { ReadDefinitionIsAs }
    ensures certificate_read { ReadCertificateIsAs }
    ensures definition_printed { DefinitionTextIsRead }
    ensures definition_printable { ReadDefinitionIsPrintable }
    ensures definition_back { DefinitionIsReadBack }
    ensures certificate_printed { CertificateTextIsRead }
    ensures certificate_printable { ReadCertificateIsPrintable }
    ensures certificate_back { CertificateIsReadBack }
{}

/// A definition and a certificate of its logic that were read, joined, are what a search asks of a program; and so is the definition with the
/// certificate that adds nothing.
pub fn joined_files_are_programs()
    ensures joined { JoinedIsProgram }
    ensures alone { DefinitionIsProgram }
{}
