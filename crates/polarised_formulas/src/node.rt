//! The nodes of formulas.
use crate::logic::Polarity;
use fpc_terms::cell::Cell;
use fpc_terms::name::NameId;

/// A node of a formula, in prefix order.
#[derive(Clone, Copy, PartialEq, Eq, Debug)]
pub enum Node {
    True(Polarity),
    False(Polarity),
    /// A literal with as many arguments as said; their cells stand behind it.
    Atom {
        positive: bool,
        name: NameId,
        arguments: u8,
    },
    And(Polarity),
    Or(Polarity),
    /// The implication of LJF.
    Implies,
    ForAll,
    Exists,
    /// A cell of a literal's arguments.
    Inside(Cell),
}
