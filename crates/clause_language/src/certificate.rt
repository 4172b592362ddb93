//! Certificates of proof formats.
use crate::clause_list::Clauses;
use crate::declaration_list::Declared;
use fpc_terms::term::TermBuf;
use polarised_formulas::logic::Logic;

/// A certificate file: declared formulas and clauses of its own, and the certificate's term.
#[derive(Drop)]
pub struct Certificate {
    pub logic: Logic,
    pub declared: Declared,
    pub clauses: Clauses,
    pub term: TermBuf,
    /// How many variables the term has; they are numbered from 0.
    pub variables: u64,
}
