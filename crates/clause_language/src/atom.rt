//! The atoms of clauses.
use fpc_terms::list::Terms;
use fpc_terms::name::NameId;

/// An atom of a clause: a name with its arguments.
#[derive(Drop)]
pub struct Atom {
    pub name: NameId,
    pub arguments: Terms,
}
