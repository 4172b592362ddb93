//! The search that gives definition and certificate files their meaning.
#![tactic(auto)]

pub mod alternative;
pub mod calculus;
mod calls;
pub mod clauses_alone;
mod comparison;
pub mod goals;
pub mod laws;
pub mod lines;
pub mod plain;
mod search;
pub mod solve;
pub mod stored;
mod walk;

pub use plain::{Outcome, Trace, plain_search};
pub use solve::{Solved, plain_solve};
