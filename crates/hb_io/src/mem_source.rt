ghost use Rattle.std.specs.Prelude.{◌≡◌, ◌<◌, ◌≤◌, ◌↔◌, [], length, min, take, vec_len};
ghost use Rattle.std.specs.Prelude.{IfOk, IsErr, Some};
ghost use Rattle.std.specs.Io.{ReadsAtMost};
ghost use Rattle.std.specs.Io.KnownBytes.{ReadConsumes};
ghost use Rattle.hb_io.specs.Causes.{HasCause};

use crate::calls::Calls;
use crate::{Failed, Source};

/// A source in memory, which gives its bytes in small pieces and fails where it was told to.
#[derive(Debug, Drop)]
pub struct MemSource {
    bytes: Vec<u8>,
    at: usize,
    most: usize,
    calls: Calls,
    ghost in_bytes: { at ≤ vec_len bytes },
    ghost some_each: { 1 ≤ most },
}

impl MemSource {
    ghost use Rattle.hb_io.specs.MemSource.{IsNewSource, source_bytes};

    /// A source of `bytes` that gives at most `most` of them a call. The calls whose numbers stand
    /// in `fails`, counted from 1 and over all calls, fail.
    pub fn new(bytes: Vec<u8>, most: usize, fails: Vec<u32>) -> MemSource
        requires { 1 ≤ most }
        ensures { IsNewSource result bytes.items most fails.items }
    {
        MemSource {
            bytes,
            at: 0,
            most,
            calls: Calls::new(fails),
        }
    }

    // The bytes that are left.
    fn left(&self) -> &[u8]
        ensures { result.now ≡ source_bytes self.now }
    {
        &self.bytes[self.at..]
    }
}

impl Source for MemSource {
    ghost use Rattle.hb_io.specs.MemSource.{given_count, source_bytes, source_faults};
    ghost use Rattle.hb_io.specs.MemSource.{SourceFailsNext, StaysSource};

    ghost left = { λ s. Some (source_bytes s) };

    ghost faults = { λ s. source_faults s };

    /// As every source, and fails exactly where the call's number is listed.
    fn read(&mut self, buf: &mut [u8]) -> Result<usize, Failed>
        ensures bound { ReadsAtMost result buf.new }
        ensures bytes { ReadConsumes (Some (source_bytes self.old)) (Some (source_bytes self.new))
            result buf.new }
        ensures cause { HasCause (source_faults self.old) (source_faults self.new) result }
        ensures fails { IsErr result ↔ SourceFailsNext self.old }
        ensures each { IfOk result (λ n. n ≡ given_count self.old (length buf.old)) }
        ensures stays { StaysSource self.old self.new result }
    {
        self.calls.count(false)?;
        let count = copy_front(self.left(), self.most, buf);
        self.at += count;
        Ok(count)
    }
}

// Copies a front of `left` to the front of `buf`, and says how long it is.
fn copy_front(left: &[u8], most: usize, buf: &mut [u8]) -> usize
    requires { 1 ≤ most }
    ensures within { result ≡ min (min (length left.now) most) (length buf.old) }
    ensures copied { take result buf.new ≡ take result left.now }
    ensures end { result ≡ 0 → 0 < length buf.new → left.now ≡ [] }
{
    let count = left.len().min(most).min(buf.len());
    buf[..count].copy_from_slice(&left[..count]);
    count
}
