//! What the program's commands do: each in a file of its own.

pub mod format;
pub mod guided;
pub mod solve;
pub mod verify;
