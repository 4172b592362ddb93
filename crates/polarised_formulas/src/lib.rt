//! Formulas with polarity in both logics, the steps of proofs, and problems.
#![tactic(auto)]

mod argument_cells;
pub mod arity;
mod bound;
pub mod builder;
pub mod closure;
pub mod connective;
pub mod depths;
pub mod dual;
pub mod formula;
pub mod held;
pub mod laws;
pub mod list;
pub mod logic;
pub mod node;
pub mod opening;
pub mod parts;
pub mod plain;
pub mod print;
pub mod problem;
pub mod read;
pub mod reader;
mod references;
pub mod scope;
pub mod shape;
pub mod step;
pub mod step_list;
pub mod step_substitution;
pub mod substitution;
mod tree;

pub use closure::Closure;
pub use formula::Formula;
pub use held::{Given, HeldFormula};
pub use list::Formulas;
pub use logic::{Logic, Polarity, Side};
pub use node::Node;
pub use plain::read::read_plain_formula;
pub use plain::reader::runs::PlainRun;
pub use plain::reader::{PlainReader, Progress};
pub use print::{print_formula, print_problem};
pub use problem::{Problem, read_problem};
pub use read::read_formula;
pub use step::Step;
pub use step_list::StepList;
