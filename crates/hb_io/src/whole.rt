// All bytes of a source, and all bytes into a sink.
ghost use Rattle.std.specs.Prelude.{◌≡◌, ◌+◌, ◌≤◌, IfOk, OnOk, OnErr, Err};
ghost use Rattle.std.specs.Io.KnownBytes.{Appends};
ghost use Rattle.hb_io.specs.Causes.{HasCause, Rose};
ghost use Rattle.hb_io.specs.Moves.{AppendsFront, TakesAll, TakesAtMost, TakesCount};
ghost use Rattle.hb_io.specs.declared.whole.ReadFail.TheVariants.{NoMemory};

use crate::{Sink, Source};
use std::alloc::{AllocError, Global};
use std::error::Error;
use std::fmt;

// How many bytes are asked for at a time.
const CHUNK: usize = 4096;

/// Why not all bytes of a source were read.
#[derive(Clone, Copy, Debug, PartialEq, Eq, Hash)]
pub enum ReadFail {
    /// The source failed.
    Fault,
    /// There are more bytes than were allowed.
    TooLong,
    /// Memory ran out.
    NoMemory,
}

impl fmt::Display for ReadFail {
    fn fmt<W: fmt::Write>(&self, f: &mut fmt::Formatter<W>) -> fmt::Result {
        f.write_str(match self {
            ReadFail::Fault => "the source failed",
            ReadFail::TooLong => "the input is too long",
            ReadFail::NoMemory => "out of memory",
        })
    }
}

impl Error for ReadFail {}

impl From<AllocError> for ReadFail {
    ghost from_gives = { λ _ fail. fail ≡ NoMemory };

    fn from(_error: AllocError) -> ReadFail {
        ReadFail::NoMemory
    }
}

/// The sink failed before all bytes were written.
#[derive(Clone, Copy, Debug, PartialEq, Eq, Hash)]
pub struct WriteFault;

impl fmt::Display for WriteFault {
    fn fmt<W: fmt::Write>(&self, f: &mut fmt::Formatter<W>) -> fmt::Result {
        f.write_str("the sink failed")
    }
}

impl Error for WriteFault {}

/// All bytes of the source to its end, of which there are at most `most`.
///
/// `TooLong` comes exactly where `most + 1` bytes were taken, and `Fault` only where the source's
/// count of faults rose in this call. After a refusal the bytes that were taken are gone.
pub fn read_all<S: Source>(alloc: Global, s: &mut S, most: u32) -> Result<Vec<u8>, ReadFail>
    ensures all { IfOk result (λ v. TakesAll (S.left s.old) (S.left s.new) most v.items) }

    // Every other answer has taken fewer.
    ensures too_long { result ≡ Err ReadFail.TooLong
        → TakesCount (S.left s.old) (S.left s.new) (most + 1) }
    ensures fault { result ≡ Err ReadFail.Fault
        → Rose (S.faults s.old) (S.faults s.new) × TakesAtMost (S.left s.old) (S.left s.new) most }
    ensures memory { result ≡ Err ReadFail.NoMemory
        → TakesAtMost (S.left s.old) (S.left s.new) most }
    ensures later { S.faults s.old ≤ S.faults s.new }
{
    let most = most as usize;
    let mut all = Vec::new(alloc);
    let mut chunk = [0u8; CHUNK];
    loop {
        let want = (most + 1 - all.len()).min(CHUNK);
        let piece = match s.read(&mut chunk[..want]) {
            Ok(0) => return Ok(all),
            Ok(count) => &chunk[..count],
            Err(_) => return Err(ReadFail::Fault),
        };
        if piece.len() > most - all.len() {
            return Err(ReadFail::TooLong);
        }
        all.extend_from_slice(piece)?;
    }
}

/// Appends all of `bytes` to the sink.
///
/// `WriteFault` comes only where the sink's count of faults rose in this call, and then a front of
/// `bytes` was appended.
pub fn write_all_of<K: Sink>(k: &mut K, bytes: &[u8]) -> Result<(), WriteFault>
    ensures all { OnOk result (Appends (K.held k.old) (K.held k.new) bytes.now) }
    ensures front { OnErr result (AppendsFront (K.held k.old) (K.held k.new) bytes.now) }
    ensures cause { HasCause (K.faults k.old) (K.faults k.new) result }
{
    let mut rest = bytes;
    while !rest.is_empty() {
        match k.write(rest) {
            Ok(count) => rest = &rest[count..],
            Err(_) => return Err(WriteFault),
        }
    }
    Ok(())
}
