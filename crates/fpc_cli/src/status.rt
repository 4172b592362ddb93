//! The program's exit statuses.

/// An exit status: 0 accepted or done, 1 rejected, 2 budget spent, 3 input refused, 4 usage, 5 read
/// fault, 6 write fault, 7 too long, 8 want of memory.
#[derive(Clone, Copy, PartialEq, Eq, Debug)]
pub struct Status {
    pub code: u8,
}
