//! Tests of the libraries over their public calls, a file for each: of calls that take memory, where no row of
//! a command reaches an answer.
#![tactic(auto)]

#[cfg(test)]
mod base;
#[cfg(test)]
mod form;
#[cfg(test)]
mod formulas;
#[cfg(test)]
mod kernel;
#[cfg(test)]
mod rules;
#[cfg(test)]
mod search;
#[cfg(test)]
mod terms;
#[cfg(test)]
mod told;
