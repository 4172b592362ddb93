//! Files, readers and writers of the standard library as sources and sinks.
ghost use Rattle.std.specs.Prelude.{◌≡◌, ◌+◌, ◌<◌, ◌≤◌, None, OnOk, OnErr, IfOk, length, take};
ghost use Rattle.std.specs.Option.{IsSome};
ghost use Rattle.std.specs.Io.KnownBytes.{ReadConsumes, WriteAppends};
ghost use Rattle.fpc_base.specs.Outside.{next_count, Rose};
ghost use Rattle.fpc_base.specs.Adapter.{Adapter, remaining_in};

use crate::outside::{Failed, Files, Sink, Source};
use std::io::{Read, Write};
use std::marker::Model;
use std::{fs, rt};

fn count_failure(faults: &mut u64) -> Failed
    ensures after { faults.new ≡ next_count faults.old }
    ensures never_falls { faults.old ≤ faults.new }
{
    *faults = faults.saturating_add(1);
    Failed
}

/// The files of a system, opened by path. A read with no file open is at the end.
#[derive(Drop)]
pub struct StdFiles<'a, R: rt::Files> {
    rt: &'a R,
    file: Option<R::File>,
    faults: u64,
}

impl<'a, R: rt::Files> Model for StdFiles<'a, R> {
    ghost use Rattle.std.specs.Prelude.{Option};
    ghost use Rattle.fpc_base.specs.Adapter.{Adapter};

    ghost Value = { Adapter (Option R.File) };

    ghost view = { λ s. record { adapted = s.file; faults = s.faults } };
}

impl<'a, R: rt::Files> StdFiles<'a, R> {
    /// With no file open yet.
    pub fn new(rt: &'a R) -> StdFiles<'a, R>
        ensures { result ≡ record { adapted = None; faults = 0 } }
    {
        StdFiles {
            rt,
            file: None,
            faults: 0,
        }
    }
}

impl<'a, R: rt::Files> Source for StdFiles<'a, R> {
    ghost use Rattle.std.specs.Prelude.{None};
    ghost use Rattle.fpc_base.specs.Outside.{untold};

    ghost outside = { λ s. record {
      faults = s.faults;
      left = None;
      content = λ name. untold;
      opened = None;
      calls = 0;
    } };

    fn read(&mut self, buf: &mut [u8]) -> Result<usize, Failed>
        requires { 0 < length buf.old }
        ensures never_falls { self.old.faults ≤ self.new.faults }
        ensures ok_count { OnOk result (self.new.faults ≡ self.old.faults) }
        ensures failed { OnErr result (Rose self.old.faults self.new.faults) }
        ensures within { IfOk result (λ n. n ≤ length buf.new) }
        ensures bytes { ReadConsumes (remaining_in R.File.Read.remaining self.old.adapted) (remaining_in R.File.Read.remaining self.new.adapted) result buf.new }
    {
        let Some(file) = &mut self.file else {
            return Ok(0);
        };
        match file.read(buf) {
            Ok(n) => Ok(n),
            Err(_) => Err(count_failure(&mut self.faults)),
        }
    }
}

impl<'a, R: rt::Files> Files for StdFiles<'a, R> {
    fn open(&mut self, name: &str) -> Result<(), Failed>
        ensures never_falls { self.old.faults ≤ self.new.faults }
        ensures ok_count { OnOk result (self.new.faults ≡ self.old.faults) }
        ensures failed { OnErr result (Rose self.old.faults self.new.faults) }
        ensures keeps_open { OnOk result (IsSome self.new.adapted) }
        ensures as_before { OnErr result (self.new.adapted ≡ self.old.adapted) }
    {
        match fs::open(self.rt, name) {
            Ok(file) => {
                self.file = Some(file);
                Ok(())
            }
            Err(_) => Err(count_failure(&mut self.faults)),
        }
    }
}

/// What a reader gives.
#[derive(Drop)]
pub struct StdSource<R: Read> {
    reader: R,
    faults: u64,
}

impl<R: Read> Model for StdSource<R> {
    ghost use Rattle.fpc_base.specs.Adapter.{Adapter};

    ghost Value = { Adapter R };

    ghost view = { λ s. record { adapted = s.reader; faults = s.faults } };
}

impl<R: Read> StdSource<R> {
    pub fn new(reader: R) -> StdSource<R>
        ensures { result ≡ record { adapted = reader; faults = 0 } }
    {
        StdSource { reader, faults: 0 }
    }
}

impl<R: Read> Source for StdSource<R> {
    ghost use Rattle.std.specs.Prelude.{None};
    ghost use Rattle.fpc_base.specs.Outside.{untold};

    ghost outside = { λ s. record {
      faults = s.faults;
      left = None;
      content = λ name. untold;
      opened = None;
      calls = 0;
    } };

    fn read(&mut self, buf: &mut [u8]) -> Result<usize, Failed>
        requires { 0 < length buf.old }
        ensures never_falls { self.old.faults ≤ self.new.faults }
        ensures ok_count { OnOk result (self.new.faults ≡ self.old.faults) }
        ensures failed { OnErr result (Rose self.old.faults self.new.faults) }
        ensures within { IfOk result (λ n. n ≤ length buf.new) }
        ensures bytes { ReadConsumes (R.remaining self.old.adapted) (R.remaining self.new.adapted) result buf.new }
    {
        match self.reader.read(buf) {
            Ok(n) => Ok(n),
            Err(_) => Err(count_failure(&mut self.faults)),
        }
    }
}

/// What a writer takes. A write of which it takes nothing has failed.
#[derive(Drop)]
pub struct StdSink<W: Write> {
    writer: W,
    faults: u64,
}

impl<W: Write> Model for StdSink<W> {
    ghost use Rattle.fpc_base.specs.Adapter.{Adapter};

    ghost Value = { Adapter W };

    ghost view = { λ s. record { adapted = s.writer; faults = s.faults } };
}

impl<W: Write> StdSink<W> {
    pub fn new(writer: W) -> StdSink<W>
        ensures { result ≡ record { adapted = writer; faults = 0 } }
    {
        StdSink { writer, faults: 0 }
    }
}

impl<W: Write> Sink for StdSink<W> {
    ghost use Rattle.std.specs.Prelude.{None};

    ghost output = { λ s. record { faults = s.faults; taken = None; calls = 0 } };

    fn write(&mut self, bytes: &[u8]) -> Result<usize, Failed>
        requires { 0 < length bytes.now }
        ensures never_falls { self.old.faults ≤ self.new.faults }
        ensures ok_count { OnOk result (self.new.faults ≡ self.old.faults) }
        ensures failed { OnErr result (Rose self.old.faults self.new.faults) }
        ensures some { IfOk result (λ n. 0 < n) }
        ensures within { IfOk result (λ n. n ≤ length bytes.now) }
        ensures bytes { WriteAppends (W.contents self.old.adapted) (W.contents self.new.adapted)
            result bytes.now }
    {
        match self.writer.write(bytes) {
            Ok(n) if n > 0 => Ok(n),
            _ => Err(count_failure(&mut self.faults)),
        }
    }
}
