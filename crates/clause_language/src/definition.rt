//! Definitions of proof formats.
use crate::clause_list::Clauses;
use crate::declaration_list::Declared;
use polarised_formulas::logic::Logic;

/// A definition of a proof format: the logic, and the declared formulas and clauses, each in order.
#[derive(Drop)]
pub struct Definition {
    pub logic: Logic,
    pub declared: Declared,
    pub clauses: Clauses,
}
