//! Definition and certificate files of proof formats: clauses, declared formulas and certificate terms, and their texts.
#![tactic(auto)]

pub mod atom;
pub mod atom_list;
pub mod certificate;
pub mod clause;
pub mod clause_list;
mod clause_reader;
pub mod declaration;
pub mod declaration_list;
mod declaration_reader;
pub mod definition;
mod file;
pub mod laws;
pub mod print;
pub mod program;
pub mod read;
pub mod single_atom;
pub mod word_ids;

pub use atom::Atom;
pub use atom_list::Atoms;
pub use certificate::Certificate;
pub use clause::Clause;
pub use clause_list::Clauses;
pub use declaration::DeclaredFormula;
pub use declaration_list::Declared;
pub use definition::Definition;
pub use print::{atom_room, print_atom, print_certificate, print_definition};
pub use program::{Program, join};
pub use read::{read_certificate, read_definition};
pub use single_atom::read_atom;
pub use word_ids::WordIds;
