ghost use Rattle.std.specs.Prelude.{◌≡◌, ◌<◌, ◌≤◌, ◌↔◌, length, min, vec_capacity, vec_len};
ghost use Rattle.std.specs.Prelude.{IfOk, IsErr, Some};
ghost use Rattle.std.specs.Io.{WritesAtMost};
ghost use Rattle.std.specs.Io.KnownBytes.{WriteAppends};
ghost use Rattle.hb_io.specs.Causes.{HasCause};

use crate::calls::Calls;
use crate::{Failed, NoMemory, Sink};
use std::alloc::Global;

/// A sink in memory with a fixed room, which takes small pieces and fails where it was told to.
#[derive(Debug, Drop)]
pub struct MemSink {
    held: Vec<u8>,
    room: usize,
    most: usize,
    calls: Calls,
    ghost in_room: { vec_len held ≤ room },
    ghost reserved: { room ≤ vec_capacity held },
    ghost some_each: { 1 ≤ most },
}

impl MemSink {
    ghost use Rattle.hb_io.specs.MemSink.{IsNewSink, sink_bytes};

    /// An empty sink with room for `room` bytes, which takes at most `most` of them a call. The
    /// calls whose numbers stand in `fails`, counted from 1 and over all calls, fail.
    ///
    /// All its memory is taken here: no later call asks for more.
    pub fn new(
        alloc: Global,
        room: usize,
        most: usize,
        fails: Vec<u32>,
    ) -> Result<MemSink, NoMemory>
        requires { 1 ≤ most }
        ensures { IfOk result (λ sink. IsNewSink sink room most fails.items) }
    {
        Ok(MemSink {
            held: Vec::with_capacity(alloc, room)?,
            room,
            most,
            calls: Calls::new(fails),
        })
    }

    /// The bytes that were written, in their order.
    pub fn bytes(&self) -> &[u8]
        ensures { result.now ≡ sink_bytes self.now }
    {
        &self.held
    }
}

impl Sink for MemSink {
    ghost use Rattle.hb_io.specs.MemSink.{sink_bytes, sink_faults, taken_count};
    ghost use Rattle.hb_io.specs.MemSink.{SinkFailsNext, StaysSink};

    ghost held = { λ s. Some (sink_bytes s) };

    ghost faults = { λ s. sink_faults s };

    /// As every sink, and fails exactly where the call's number is listed, or where the piece has a
    /// byte and no room is left.
    fn write(&mut self, piece: &[u8]) -> Result<usize, Failed>
        ensures bound { WritesAtMost result piece.now }
        ensures some { IfOk result (λ n. 0 < length piece.now → 0 < n) }
        ensures bytes { WriteAppends (Some (sink_bytes self.old)) (Some (sink_bytes self.new))
            result piece.now }
        ensures cause { HasCause (sink_faults self.old) (sink_faults self.new) result }
        ensures fails { IsErr result ↔ SinkFailsNext self.old piece.now }
        ensures each { IfOk result (λ n. n ≡ taken_count self.old piece.now) }
        ensures stays { StaysSink self.old self.new result }
    {
        let count = piece.len().min(self.most).min(self.room - self.held.len());
        self.calls.count(count == 0 && !piece.is_empty())?;
        self.held.extend_from_slice(&piece[..count]).unwrap();
        Ok(count)
    }
}
