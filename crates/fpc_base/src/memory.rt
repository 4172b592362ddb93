//! Sources and sinks in memory, some of whose calls fail.
ghost use Rattle.std.specs.Prelude.{◌≡◌, ℕ, ◌+◌, ◌-◌, ◌<◌, ◌≤◌, ◌⊎◌, Bool, if◌then◌else◌, OnOk, OnErr, IfOk, IfSome, IfNone, is_ok, is_err, take, drop, length, List, [], ◌++◌, not, ◌&&◌, ◌||◌, true, false, Some};
ghost use Rattle.fpc_base.specs.Outside.{Content, missing, holds, last_count, next_count, Rose, TakesFront, IsAtEnd, IsAtStartOf, Adds};
ghost use Rattle.fpc_base.specs.Memory.{Plan, first_plan, fails_next, after_call, after_fault, Stream, moved, Folder, named_files, content_in, open_bytes, after_open, is_held, is_full};

use crate::outside::{Failed, Files, OutOfMemory, Sink, Source};
use std::alloc::Global;
use std::marker::Model;

/// The numbering of calls: those that fail, and the most bytes that one call moves.
#[derive(Drop)]
struct Schedule {
    failing: Vec<u64>,
    piece: usize,
    calls: u64,
    faults: u64,
}

impl Model for Schedule {
    ghost use Rattle.std.specs.Prelude.{◌<◌};
    ghost use Rattle.fpc_base.specs.Memory.{Plan};

    ghost Value = { Plan };

    ghost view = { λ s. record { calls = s.calls; faults = s.faults; failing = s.failing.items; piece = s.piece } };

    ghost invariant = { λ s. 0 < s.piece };
}

impl Schedule {
    fn new(failing: Vec<u64>, piece: usize) -> Schedule
        requires { 0 < piece }
        ensures { result ≡ first_plan failing.items piece }
    {
        Schedule {
            failing,
            piece,
            calls: 0,
            faults: 0,
        }
    }

    fn piece(&self) -> usize
        ensures value { result ≡ self.now.piece }
        ensures some { 0 < result }
    {
        self.piece
    }

    // Raises the count of faults.
    fn add_fault(&mut self)
        ensures after { self.new ≡ record self.old { faults = next_count self.old.faults } }
        ensures never_falls { self.old.faults ≤ self.new.faults }
    {
        self.faults = self.faults.saturating_add(1);
    }

    // Numbers this call, and tells whether it fails.
    fn next_fails(&mut self) -> bool
        ensures answer { result ≡ fails_next self.old }
        ensures after { self.new ≡ (if fails_next self.old then after_fault self.old else after_call self.old) }
        ensures never_falls { self.old.faults ≤ self.new.faults }
    {
        let fails = self.failing.contains(&self.calls);
        self.calls = self.calls.saturating_add(1);
        if fails {
            self.add_fault();
        }
        fails
    }
}

// Copies from the front of `bytes` into the buffer, at most `piece` bytes, and answers how many.
fn copy_front(bytes: &[u8], buf: &mut [u8], piece: usize) -> usize
    ensures count { result ≡ moved piece (length buf.old) (length bytes.now) }
    ensures bytes { take result buf.new ≡ take result bytes.now }
{
    let n = piece.min(buf.len().min(bytes.len()));
    buf[..n].copy_from_slice(&bytes[..n]);
    n
}

/// Bytes in memory as a source.
#[derive(Drop)]
pub struct MemSource {
    bytes: Vec<u8>,
    at: usize,
    schedule: Schedule,
}

impl Model for MemSource {
    ghost use Rattle.std.specs.Prelude.{◌≤◌, drop, vec_len};
    ghost use Rattle.fpc_base.specs.Memory.{Stream};

    ghost Value = { Stream };

    ghost view = { λ s. record { left = drop s.at s.bytes.items; plan = s.schedule } };

    ghost invariant = { λ s. s.at ≤ vec_len s.bytes };
}

impl MemSource {
    /// A source of these bytes. The calls whose numbers, from 0, stand in `failing` fail, and the others move at most
    /// `piece` bytes.
    pub fn new(bytes: Vec<u8>, failing: Vec<u64>, piece: usize) -> MemSource
        requires { 0 < piece }
        ensures { result ≡ record { left = bytes.items; plan = first_plan failing.items piece } }
    {
        MemSource {
            bytes,
            at: 0,
            schedule: Schedule::new(failing, piece),
        }
    }
}

impl Source for MemSource {
    ghost use Rattle.std.specs.Prelude.{Some, None};
    ghost use Rattle.fpc_base.specs.Outside.{untold};

    ghost outside = { λ s. record {
      faults = s.plan.faults;
      left = Some s.left;
      content = λ name. untold;
      opened = None;
      calls = s.plan.calls;
    } };

    fn read(&mut self, buf: &mut [u8]) -> Result<usize, Failed>
        requires { 0 < length buf.old }
        ensures never_falls { self.old.plan.faults ≤ self.new.plan.faults }
        ensures ok_count { OnOk result (self.new.plan.faults ≡ self.old.plan.faults) }
        ensures failed { OnErr result (Rose self.old.plan.faults self.new.plan.faults) }
        ensures within { IfOk result (λ n. n ≤ length buf.new) }
        ensures taken { IfOk result (λ n. self.old.left ≡ take n buf.new ++ self.new.left) }
        ensures end { IfOk result (λ n. n ≡ 0 → self.old.left ≡ []) }
        ensures none_taken { OnErr result (self.new.left ≡ self.old.left) }
        ensures calls { self.new.plan.calls ≤ self.old.plan.calls + 1 }
        ensures fails { is_err result ≡ fails_next self.old.plan }
        ensures after_failure { OnErr result (self.new ≡ record self.old { plan = after_fault self.old.plan }) }
        ensures count { IfOk result (λ n. n ≡ moved self.old.plan.piece (length buf.old) (length self.old.left)) }
        ensures bytes { IfOk result (λ n. take n buf.new ≡ take n self.old.left) }
        ensures after { IfOk result (λ n. self.new ≡ record { left = drop n self.old.left; plan = after_call self.old.plan }) }
    {
        if self.schedule.next_fails() {
            return Err(Failed);
        }
        let n = copy_front(&self.bytes[self.at..], buf, self.schedule.piece());
        self.at += n;
        Ok(n)
    }
}

// The number of the first file of that name.
fn position_of(files: &[(String, Vec<u8>)], name: &str) -> Option<usize>
    ensures missing { IfNone result (content_in (named_files files.now) name.now ≡ missing) }
    ensures within { IfSome result (λ i. i < length files.now) }
    ensures first { IfSome result (λ i.
        content_in (named_files files.now) name.now ≡ holds (open_bytes (named_files files.now) (Some i))) }
{
    for (i, file) in files.iter().enumerate() {
        if file.0.as_str() == name {
            return Some(i);
        }
    }
    None
}

// The bytes of the file that is open.
fn bytes_of(files: &[(String, Vec<u8>)], opened: Option<usize>) -> &[u8]
    requires { IfSome opened (λ i. i < length files.now) }
    ensures { result.now ≡ open_bytes (named_files files.now) opened }
{
    match opened {
        Some(i) => files[i].1.as_slice(),
        None => &[],
    }
}

/// Files in memory. Of two files of one name the first counts.
#[derive(Drop)]
pub struct MemFiles {
    files: Vec<(String, Vec<u8>)>,
    opened: Option<usize>,
    at: usize,
    schedule: Schedule,
}

impl Model for MemFiles {
    ghost use Rattle.std.specs.Prelude.{◌≤◌, ◌<◌, drop, length, vec_len, IfSome};
    ghost use Rattle.fpc_base.specs.Memory.{Folder, named_files, open_bytes};

    ghost Value = { Folder };

    ghost view = { λ s.
        let files = named_files s.files.items in
        record { files = files; left = drop s.at (open_bytes files s.opened); plan = s.schedule } };

    ghost invariant = { λ s.
        (IfSome s.opened (λ i. i < vec_len s.files)) × (s.at ≤ length (open_bytes (named_files s.files.items) s.opened)) };
}

impl MemFiles {
    /// These files, with none open. The calls of `open` and `read` are numbered together from 0. Those whose numbers
    /// stand in `failing` fail, and the others move at most `piece` bytes.
    pub fn new(files: Vec<(String, Vec<u8>)>, failing: Vec<u64>, piece: usize) -> MemFiles
        requires { 0 < piece }
        ensures { result ≡ record { files = named_files files.items; left = []; plan = first_plan failing.items piece } }
    {
        MemFiles {
            files,
            opened: None,
            at: 0,
            schedule: Schedule::new(failing, piece),
        }
    }
}

impl Source for MemFiles {
    ghost use Rattle.std.specs.Prelude.{Some, None};
    ghost use Rattle.fpc_base.specs.Memory.{content_in};

    ghost outside = { λ s. record {
      faults = s.plan.faults;
      left = Some s.left;
      content = λ name. content_in s.files name;
      opened = None;
      calls = s.plan.calls;
    } };

    fn read(&mut self, buf: &mut [u8]) -> Result<usize, Failed>
        requires { 0 < length buf.old }
        ensures never_falls { self.old.plan.faults ≤ self.new.plan.faults }
        ensures ok_count { OnOk result (self.new.plan.faults ≡ self.old.plan.faults) }
        ensures failed { OnErr result (Rose self.old.plan.faults self.new.plan.faults) }
        ensures within { IfOk result (λ n. n ≤ length buf.new) }
        ensures taken { IfOk result (λ n. self.old.left ≡ take n buf.new ++ self.new.left) }
        ensures end { IfOk result (λ n. n ≡ 0 → self.old.left ≡ []) }
        ensures none_taken { OnErr result (self.new.left ≡ self.old.left) }
        ensures content { self.new.files ≡ self.old.files }
        ensures calls { self.new.plan.calls ≤ self.old.plan.calls + 1 }
        ensures fails { is_err result ≡ fails_next self.old.plan }
        ensures after_failure { OnErr result (self.new ≡ record self.old { plan = after_fault self.old.plan }) }
        ensures count { IfOk result (λ n. n ≡ moved self.old.plan.piece (length buf.old) (length self.old.left)) }
        ensures bytes { IfOk result (λ n. take n buf.new ≡ take n self.old.left) }
        ensures after { IfOk result (λ n.
            self.new ≡ record self.old { left = drop n self.old.left; plan = after_call self.old.plan }) }
    {
        if self.schedule.next_fails() {
            return Err(Failed);
        }
        let left = &bytes_of(&self.files, self.opened)[self.at..];
        let n = copy_front(left, buf, self.schedule.piece());
        self.at += n;
        Ok(n)
    }
}

impl Files for MemFiles {
    fn open(&mut self, name: &str) -> Result<(), Failed>
        ensures never_falls { self.old.plan.faults ≤ self.new.plan.faults }
        ensures ok_count { OnOk result (self.new.plan.faults ≡ self.old.plan.faults) }
        ensures failed { OnErr result (Rose self.old.plan.faults self.new.plan.faults
            ⊎ (content_in self.old.files name.now ≡ missing)) }
        ensures opened { OnOk result (content_in self.old.files name.now ≡ holds self.new.left) }
        ensures content { self.new.files ≡ self.old.files }
        ensures calls { self.new.plan.calls ≤ self.old.plan.calls + 1 }
        ensures succeeds { is_ok result
            ≡ (not (fails_next self.old.plan) && is_held (content_in self.old.files name.now)) }
        ensures after_failure { fails_next self.old.plan ≡ true
            → self.new ≡ record self.old { plan = after_fault self.old.plan } }
        ensures after { fails_next self.old.plan ≡ false
            → self.new ≡ after_open self.old (content_in self.old.files name.now) }
    {
        if self.schedule.next_fails() {
            return Err(Failed);
        }
        let Some(i) = position_of(&self.files, name) else {
            return Err(Failed);
        };
        self.opened = Some(i);
        self.at = 0;
        Ok(())
    }
}

/// A sink in memory with room for a number of bytes. A write fails where no room is left.
#[derive(Drop)]
pub struct MemSink {
    bytes: Vec<u8>,
    room: usize,
    schedule: Schedule,
}

impl Model for MemSink {
    ghost use Rattle.std.specs.Prelude.{◌≤◌, vec_len, vec_capacity};
    ghost use Rattle.fpc_base.specs.Memory.{Target};

    ghost Value = { Target };

    ghost view = { λ s. record { taken = s.bytes.items; room = s.room; plan = s.schedule } };

    ghost invariant = { λ s. (vec_len s.bytes ≤ s.room) × (s.room ≤ vec_capacity s.bytes) };
}

impl MemSink {
    /// An empty sink, which takes its memory here. The calls of `write` whose numbers, from 0, stand in `failing` fail,
    /// and the others move at most `piece` bytes.
    pub fn new(
        alloc: Global,
        room: usize,
        failing: Vec<u64>,
        piece: usize,
    ) -> Result<MemSink, OutOfMemory>
        requires { 0 < piece }
        ensures { IfOk result (λ s. s ≡ record { taken = []; room = room; plan = first_plan failing.items piece }) }
    {
        let bytes = Vec::with_capacity(alloc, room)?;
        Ok(MemSink {
            bytes,
            room,
            schedule: Schedule::new(failing, piece),
        })
    }

    /// The bytes taken so far.
    pub fn bytes(&self) -> &[u8]
        ensures { result.now ≡ self.now.taken }
    {
        &self.bytes
    }
}

impl Sink for MemSink {
    ghost use Rattle.std.specs.Prelude.{Some};

    ghost output = { λ s. record {
      faults = s.plan.faults;
      taken = Some s.taken;
      calls = s.plan.calls;
    } };

    fn write(&mut self, bytes: &[u8]) -> Result<usize, Failed>
        requires { 0 < length bytes.now }
        ensures never_falls { self.old.plan.faults ≤ self.new.plan.faults }
        ensures ok_count { OnOk result (self.new.plan.faults ≡ self.old.plan.faults) }
        ensures failed { OnErr result (Rose self.old.plan.faults self.new.plan.faults) }
        ensures some { IfOk result (λ n. 0 < n) }
        ensures within { IfOk result (λ n. n ≤ length bytes.now) }
        ensures added { IfOk result (λ n. self.new.taken ≡ self.old.taken ++ take n bytes.now) }
        ensures none_added { OnErr result (self.new.taken ≡ self.old.taken) }
        ensures calls { self.new.plan.calls ≤ self.old.plan.calls + 1 }
        ensures fails { is_err result ≡ (fails_next self.old.plan || is_full self.old) }
        ensures after_failure { OnErr result (self.new ≡ record self.old { plan = after_fault self.old.plan }) }
        ensures count { IfOk result (λ n.
            n ≡ moved self.old.plan.piece (length bytes.now) (self.old.room - length self.old.taken)) }
        ensures after { IfOk result (λ n.
            self.new ≡ record self.old { taken = self.old.taken ++ take n bytes.now; plan = after_call self.old.plan }) }
    {
        if self.schedule.next_fails() {
            return Err(Failed);
        }
        let room_left = self.room - self.bytes.len();
        if room_left == 0 {
            self.schedule.add_fault();
            return Err(Failed);
        }
        let n = self.schedule.piece().min(bytes.len().min(room_left));
        if self.bytes.extend_from_slice(&bytes[..n]).is_err() {
            unreachable!();
        }
        Ok(n)
    }
}
