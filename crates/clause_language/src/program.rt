//! Programs: a definition with a certificate.
ghost use Rattle.std.specs.Prelude.{◌≡◌, IfOk};
ghost use Rattle.fpc_terms.specs.Name.{Grows};
ghost use Rattle.fpc_terms.specs.Adding.{AddsOnly};
ghost use Rattle.clause_language.specs.Program.{IsJoined, HaveWords, IsWord};

use crate::certificate::Certificate;
use crate::clause_list::Clauses;
use crate::declaration_list::Declared;
use crate::definition::Definition;
use crate::word_ids::WordIds;
use fpc_base::outside::OutOfMemory;
use fpc_terms::names::Names;
use fpc_terms::term::TermBuf;
use polarised_formulas::logic::Logic;
use std::alloc::Global;

/// What a search reads: declared formulas and clauses, those of the definition before those of the certificate, and the certificate's term.
#[derive(Drop)]
pub struct Program {
    pub logic: Logic,
    pub declared: Declared,
    pub clauses: Clauses,
    pub term: TermBuf,
    /// How many variables the term has; they are numbered from 0.
    pub variables: u64,
    pub ids: WordIds,
}

/// The program of a definition and a certificate, which are both taken. Time is linear in the certificate's number of formulas and clauses.
pub fn join(
    alloc: Global,
    names: &mut Names,
    definition: Definition,
    certificate: Certificate,
) -> Result<Program, OutOfMemory>
    requires { definition.logic ≡ certificate.logic }
    ensures joined { IfOk result (IsJoined definition certificate) }
    ensures words { IfOk result (λ p. HaveWords names.new p.ids) }
    ensures names { Grows names.old names.new }
    ensures only { AddsOnly IsWord names.old names.new }
{
    let ids = WordIds::new(names)?;
    let mut declared = definition.declared;
    declared.append(certificate.declared)?;
    let mut clauses = definition.clauses;
    clauses.append(certificate.clauses)?;
    Ok(Program {
        logic: definition.logic,
        declared,
        clauses,
        term: certificate.term,
        variables: certificate.variables,
        ids,
    })
}
