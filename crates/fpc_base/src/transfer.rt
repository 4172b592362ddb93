//! Whole sources read, and whole pieces written.
ghost use Rattle.std.specs.Prelude.{◌≡◌, ◌+◌, ◌<◌, ◌≤◌, OnOk, OnErr, IfOk, length, take, vec_len};
ghost use Rattle.std.specs.Prelude.{IsErrOf};
ghost use Rattle.fpc_base.specs.Outside.{Rose, TakesFront, TakesAtMost, IsAtEnd, HasMoreThan, Adds, AddsPrefix};

use crate::outside::{Failed, Sink, Source};
use crate::refusal::ReadRefusal;
use std::alloc::Global;

/// The most bytes that one call of `read` is asked for.
const PIECE: usize = 65_536;

/// Reads at most `most` bytes into the front of the buffer.
fn read_piece<S: Source>(src: &mut S, buffer: &mut [u8], most: usize) -> Result<usize, Failed>
    requires some { 0 < most }
    requires room { most ≤ length buffer.old }
    ensures never_falls { (S.outside src.old).faults ≤ (S.outside src.new).faults }
    ensures ok_count { OnOk result ((S.outside src.new).faults ≡ (S.outside src.old).faults) }
    ensures failed { OnErr result (Rose (S.outside src.old).faults (S.outside src.new).faults) }
    ensures within { IfOk result (λ n. n ≤ most) }
    ensures taken { IfOk result (λ n. TakesFront (S.outside src.old).left (take n buffer.new)
        (S.outside src.new).left) }
    ensures end { IfOk result (λ n. n ≡ 0 → IsAtEnd (S.outside src.old).left) }
    ensures none_taken { OnErr result ((S.outside src.new).left ≡ (S.outside src.old).left) }
    ensures content { (S.outside src.new).content ≡ (S.outside src.old).content }
    ensures opened { (S.outside src.new).opened ≡ (S.outside src.old).opened }
    ensures calls { (S.outside src.new).calls ≤ (S.outside src.old).calls + 1 }
{
    let (front, _) = buffer.split_at_mut(most);
    src.read(front)
}

/// Reads the source to its end, if it holds at most `limit` bytes, by way of a buffer.
fn read_through<S: Source>(
    alloc: Global,
    src: &mut S,
    buffer: &mut [u8],
    limit: usize,
) -> Result<Vec<u8>, ReadRefusal>
    requires { length buffer.old ≡ PIECE }
    ensures never_falls { (S.outside src.old).faults ≤ (S.outside src.new).faults }
    ensures ok_count { OnOk result ((S.outside src.new).faults ≡ (S.outside src.old).faults) }
    ensures all { IfOk result (λ v. TakesFront (S.outside src.old).left v.items
        (S.outside src.new).left) }
    ensures end { OnOk result (IsAtEnd (S.outside src.new).left) }
    ensures size { IfOk result (λ v. vec_len v ≤ limit) }

    ensures too_large { IsErrOf result ReadRefusal.TooLarge → HasMoreThan limit
        (S.outside src.old).left }
    ensures too_large_count { IsErrOf result ReadRefusal.TooLarge
        → (S.outside src.new).faults ≡ (S.outside src.old).faults }
    ensures failed { IsErrOf result ReadRefusal.Failed → Rose (S.outside src.old).faults
        (S.outside src.new).faults }
    ensures memory_count { IsErrOf result ReadRefusal.OutOfMemory
        → (S.outside src.new).faults ≡ (S.outside src.old).faults }
    ensures taken { OnErr result (TakesAtMost (limit + 1) (S.outside src.old).left
        (S.outside src.new).left) }

    ensures content { (S.outside src.new).content ≡ (S.outside src.old).content }
    ensures opened { (S.outside src.new).opened ≡ (S.outside src.old).opened }
    ensures calls { (S.outside src.new).calls ≤ (S.outside src.old).calls + limit + 1 }
{
    let mut bytes = Vec::new(alloc);
    while bytes.len() <= limit {
        let most = (limit - bytes.len()).min(PIECE - 1) + 1;
        match read_piece(src, buffer, most) {
            Ok(0) => return Ok(bytes),
            Ok(n) => {
                let (piece, _) = buffer.split_at(n);
                if bytes.extend_from_slice(piece).is_err() {
                    return Err(ReadRefusal::OutOfMemory);
                }
            }
            Err(Failed) => return Err(ReadRefusal::Failed),
        }
    }
    Err(ReadRefusal::TooLarge)
}

/// Reads the source to its end, if it holds at most `limit` bytes. Memory is a small multiple of the bytes read.
pub fn read_all<S: Source>(alloc: Global, src: &mut S, limit: usize) -> Result<Vec<u8>, ReadRefusal>
    ensures never_falls { (S.outside src.old).faults ≤ (S.outside src.new).faults }
    ensures ok_count { OnOk result ((S.outside src.new).faults ≡ (S.outside src.old).faults) }
    ensures all { IfOk result (λ v. TakesFront (S.outside src.old).left v.items
        (S.outside src.new).left) }
    ensures end { OnOk result (IsAtEnd (S.outside src.new).left) }
    ensures size { IfOk result (λ v. vec_len v ≤ limit) }

    ensures too_large { IsErrOf result ReadRefusal.TooLarge → HasMoreThan limit
        (S.outside src.old).left }
    ensures too_large_count { IsErrOf result ReadRefusal.TooLarge
        → (S.outside src.new).faults ≡ (S.outside src.old).faults }
    ensures failed { IsErrOf result ReadRefusal.Failed → Rose (S.outside src.old).faults
        (S.outside src.new).faults }
    ensures memory_count { IsErrOf result ReadRefusal.OutOfMemory
        → (S.outside src.new).faults ≡ (S.outside src.old).faults }
    ensures taken { OnErr result (TakesAtMost (limit + 1) (S.outside src.old).left
        (S.outside src.new).left) }

    ensures content { (S.outside src.new).content ≡ (S.outside src.old).content }
    ensures opened { (S.outside src.new).opened ≡ (S.outside src.old).opened }
    ensures calls { (S.outside src.new).calls ≤ (S.outside src.old).calls + limit + 1 }
{
    match vec![in alloc; 0u8; PIECE] {
        Ok(mut buffer) => read_through(alloc, src, buffer.as_mut_slice(), limit),
        Err(_) => Err(ReadRefusal::OutOfMemory),
    }
}

/// Writes all of the bytes. It takes no memory.
pub fn put<S: Sink>(sink: &mut S, bytes: &[u8]) -> Result<(), Failed>
    ensures never_falls { (S.output sink.old).faults ≤ (S.output sink.new).faults }
    ensures ok_count { OnOk result ((S.output sink.new).faults ≡ (S.output sink.old).faults) }
    ensures all { OnOk result (Adds (S.output sink.old).taken bytes.now (S.output sink.new).taken) }
    ensures failed { OnErr result (Rose (S.output sink.old).faults (S.output sink.new).faults) }
    ensures prefix { OnErr result (AddsPrefix (S.output sink.old).taken bytes.now
        (S.output sink.new).taken) }
    ensures calls { (S.output sink.new).calls ≤ (S.output sink.old).calls + length bytes.now + 1 }
{
    let mut done = 0;
    while done < bytes.len() {
        let (_, rest) = bytes.split_at(done);
        match sink.write(rest) {
            Ok(n) => done += n,
            Err(Failed) => return Err(Failed),
        }
    }
    Ok(())
}
