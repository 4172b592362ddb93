//! The adapters to the world, and a sink in memory.
use fpc_base::{Failed, MemSink, Sink, Source, StdSink, StdSource, put};
use std::alloc::{AllocError, Global};
use std::fs;
use std::test::Fail;

/// Tells so many reads of at most four bytes: each as its bytes, or as `!` where it fails, and a bar.
fn reads<S: Source>(alloc: Global, source: &mut S, times: usize) -> Result<String, AllocError> {
    let mut told = String::new(alloc);
    let mut buf = [0u8; 4];
    for _ in 0..times {
        match source.read(&mut buf) {
            Ok(n) => {
                for b in &buf[..n] {
                    told.push(char::from(*b))?;
                }
            }
            Err(Failed) => told.push('!')?,
        }
        told.push('|')?;
    }
    Ok(told)
}

#[test]
fn readers_are_sources(rt: HostRuntime) -> Result<(), Fail> {
    let mut bytes = StdSource::new(b"hello".as_slice());
    let told = reads(rt.alloc(), &mut bytes, 3)?;
    assert_eq!(rt; told.as_str(), "hell|o||");
    let mut folder = StdSource::new(fs::open(&rt, ".")?);
    let told = reads(rt.alloc(), &mut folder, 1)?;
    assert_eq!(rt; told.as_str(), "!|");
    Ok(())
}

#[test]
fn writers_are_sinks(rt: HostRuntime) -> Result<(), Fail> {
    let mut bytes = [0u8; 3];
    let mut sink = StdSink::new(bytes.as_mut_slice());
    assert_eq!(rt; sink.write(b"abcd"), Ok(3));
    assert_eq!(rt; sink.write(b"d"), Err(Failed), "a full slice takes nothing");
    assert_eq!(rt; bytes, *b"abc");
    let mut folder = StdSink::new(fs::open(&rt, ".")?);
    assert_eq!(rt; folder.write(b"d"), Err(Failed), "a folder takes nothing");
    let mut memory = MemSink::new(rt.alloc(), 3, Vec::new(rt.alloc()), 2)?;
    assert_eq!(rt; put(&mut memory, b"abc"), Ok(()));
    assert_eq!(rt; memory.bytes(), b"abc".as_slice());
    Ok(())
}
