//! What the program reads from and writes to.
ghost use Rattle.std.specs.Prelude.{◌≡◌, ℕ, ◌+◌, ◌<◌, ◌≤◌, ◌⊎◌, take, length, OnOk, OnErr, IfOk};
ghost use Rattle.fpc_base.specs.Outside.{Outside, Output, missing, Rose, TakesFront, IsAtEnd, IsAtStartOf, Opens, Adds};

use std::alloc::{AllocError, AllocFailed};

/// A read, a write or an opening failed.
#[derive(Clone, Copy, PartialEq, Eq, Debug)]
pub struct Failed;

/// There was no memory for what was asked. The same call may succeed later.
#[derive(Clone, Copy, PartialEq, Eq, Debug)]
pub struct OutOfMemory;

impl From<AllocError> for OutOfMemory {
    fn from(_e: AllocError) -> OutOfMemory {
        OutOfMemory
    }
}

impl<T: Drop> From<AllocFailed<T>> for OutOfMemory {
    fn from(_e: AllocFailed<T>) -> OutOfMemory {
        OutOfMemory
    }
}

/// Where bytes come from. Its ghost `outside` is a record: `faults` counts its failures and never
/// falls; at its last value, the greatest `u64`, it stands still. `left` has the bytes still to
/// come and `content` the files by name, each where the source tells it; `opened` has the names of
/// the files that were opened so far, one after the other, where they are told; `calls` bounds the
/// number of calls so far for a source that counts them.
pub trait Source {
    ghost outside: { Self → Outside };

    /// Reads into the front of the buffer and answers how many bytes came; 0 only at the end.
    fn read(&mut self, buf: &mut [u8]) -> Result<usize, Failed>
        requires { 0 < length buf.old }
        ensures never_falls { (outside self.old).faults ≤ (outside self.new).faults }
        ensures ok_count { OnOk result ((outside self.new).faults ≡ (outside self.old).faults) }
        ensures failed { OnErr result (Rose (outside self.old).faults (outside self.new).faults) }
        ensures within { IfOk result (λ n. n ≤ length buf.new) }
        ensures taken { IfOk result (λ n. TakesFront (outside self.old).left (take n buf.new)
            (outside self.new).left) }
        ensures end { IfOk result (λ n. n ≡ 0 → IsAtEnd (outside self.old).left) }
        ensures none_taken { OnErr result ((outside self.new).left ≡ (outside self.old).left) }
        ensures content { (outside self.new).content ≡ (outside self.old).content }
        ensures opened { (outside self.new).opened ≡ (outside self.old).opened }
        ensures calls { (outside self.new).calls ≤ (outside self.old).calls + 1 };
}

/// Files by name, one of which is open at a time and is read as a `Source`.
pub trait Files: Source {
    /// Opens the file of that name in place of the one that was open.
    fn open(&mut self, name: &str) -> Result<(), Failed>
        ensures never_falls { (Self.outside self.old).faults ≤ (Self.outside self.new).faults }
        ensures ok_count { OnOk result ((Self.outside self.new).faults ≡
            (Self.outside self.old).faults) }
        ensures failed { OnErr result (Rose (Self.outside self.old).faults
            (Self.outside self.new).faults ⊎ ((Self.outside self.old).content name.now ≡ missing)) }
        ensures opened { OnOk result (IsAtStartOf ((Self.outside self.old).content name.now)
            (Self.outside self.new).left) }
        ensures content { (Self.outside self.new).content ≡ (Self.outside self.old).content }
        ensures named { OnOk result (Opens (Self.outside self.old).opened name.now
            (Self.outside self.new).opened) }
        ensures not_named { OnErr result ((Self.outside self.new).opened ≡
            (Self.outside self.old).opened) }
        ensures calls { (Self.outside self.new).calls ≤ (Self.outside self.old).calls + 1 };
}

/// Where bytes go. Its ghost `output` is a record: `faults` is as of a `Source`, `taken` has the
/// bytes taken so far, where the sink tells them, and `calls` bounds the number of calls so far.
pub trait Sink {
    ghost output: { Self → Output };

    /// Writes some of the bytes, from their front, and answers how many: at least one.
    fn write(&mut self, bytes: &[u8]) -> Result<usize, Failed>
        requires { 0 < length bytes.now }
        ensures never_falls { (output self.old).faults ≤ (output self.new).faults }
        ensures ok_count { OnOk result ((output self.new).faults ≡ (output self.old).faults) }
        ensures failed { OnErr result (Rose (output self.old).faults (output self.new).faults) }
        ensures some { IfOk result (λ n. 0 < n) }
        ensures within { IfOk result (λ n. n ≤ length bytes.now) }
        ensures added { IfOk result (λ n. Adds (output self.old).taken (take n bytes.now)
            (output self.new).taken) }
        ensures none_added { OnErr result ((output self.new).taken ≡ (output self.old).taken) }
        ensures calls { (output self.new).calls ≤ (output self.old).calls + 1 };
}
