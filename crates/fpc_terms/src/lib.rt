//! Names and terms. A term is a flat list of cells in prefix order, which contracts see as a tree.
#![tactic(auto)]

pub mod arguments;
pub mod arity;
pub mod builder;
pub mod cell;
mod hints;
pub mod laws;
pub mod list;
pub mod name;
pub mod names;
pub mod print;
pub mod read;
pub mod reader;
pub mod scope;
pub mod substitution;
pub mod term;
mod texts;
pub mod var_table;

pub use cell::Cell;
pub use list::Terms;
pub use name::{NameId, is_name};
pub use names::Names;
pub use print::print_term;
pub use read::read_term;
pub use substitution::{
    all_with_constant, all_with_later_variables, all_with_term, with_constant,
    with_later_variables, with_term,
};
pub use term::TermBuf;
pub use var_table::VarTable;
