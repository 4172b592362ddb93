//! The rules of LKF, and its derivations, certificates and play.
#![tactic(auto)]

pub mod laws;
pub mod rules;
pub mod sequent;

pub use rules::outcome::{Premises, StepRefusal};
pub use sequent::Sequent;
