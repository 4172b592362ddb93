//! What waits to be written.
use crate::logic::Polarity;

/// An operator between two formulas.
#[derive(Clone, Copy)]
pub(crate) enum Operator {
    Conjunction(Polarity),
    Disjunction(Polarity),
    Implication,
}

/// What waits to be written behind a part of a formula or term.
#[derive(Clone, Copy)]
pub(crate) enum Waiting {
    /// So many further arguments, and the parenthesis that closes them.
    Arguments(u8),
    /// The operator, and the second part under so many quantifiers.
    Second(Operator, u64),
    /// The parenthesis that closes a formula.
    Close,
}
