//! Clauses.
use crate::atom::Atom;
use crate::atom_list::Atoms;

/// A clause: its head holds where all atoms of its body do. Its variables are numbered from 0.
#[derive(Drop)]
pub struct Clause {
    pub head: Atom,
    pub body: Atoms,
    /// How many variables there are.
    pub variables: u64,
}
