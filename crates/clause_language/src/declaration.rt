//! Declared formulas.
use fpc_terms::name::NameId;
use polarised_formulas::formula::Formula;

/// A formula that a file declares by a name. Parameter k stands in it as the variable k.
#[derive(Drop)]
pub struct DeclaredFormula {
    pub name: NameId,
    /// How many parameters there are.
    pub parameters: u8,
    pub formula: Formula,
}
