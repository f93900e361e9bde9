//! A stream that is interrupted, behind the real adapters.

ghost use Rattle.std.specs.Prelude.{◌≤◌, IfOk};

use hb_io::{ReadFail, RealSink, RealSource, WriteFault, read_all, write_all_of};
use std::io::{self, ErrorKind, Read, Write};

// A stream that is interrupted so often before each call is done, and moves three bytes a call.
#[derive(Drop)]
struct Interrupted {
    times: u32,
    so_far: u32,
    bytes_left: usize,
}

impl Interrupted {
    fn new(times: u32, bytes_left: usize) -> Interrupted {
        Interrupted {
            times,
            so_far: 0,
            bytes_left,
        }
    }

    fn step(&mut self, room: usize) -> io::Result<usize>
        ensures { IfOk result (λ n. n ≤ room) }
    {
        if self.so_far < self.times {
            self.so_far += 1;
            return Err(io::Error::from(ErrorKind::Interrupted));
        }
        self.so_far = 0;
        let count = self.bytes_left.min(room).min(3);
        self.bytes_left -= count;
        Ok(count)
    }
}

impl Read for Interrupted {
    fn read(&mut self, buf: &mut [u8]) -> io::Result<usize> {
        self.step(buf.len())
    }
}

impl Write for Interrupted {
    fn write(&mut self, buf: &[u8]) -> io::Result<usize> {
        self.step(buf.len())
    }

    fn flush(&mut self) -> io::Result<()> {
        Ok(())
    }
}

#[test]
fn interruptions_are_tried_again(rt: HostRuntime) {
    for (times, bytes_left, read, written) in [
        (0, 7, Ok(7), Ok(())),
        (1000, 7, Ok(7), Ok(())),
        (1001, 7, Err(ReadFail::Fault), Err(WriteFault)),
        (0, 8, Err(ReadFail::TooLong), Ok(())),
        (0, 6, Ok(6), Err(WriteFault)),
    ] {
        let mut source = RealSource::new(Interrupted::new(times, bytes_left));
        let bytes = read_all(rt.alloc(), &mut source, 7);
        assert_eq!(rt;
            bytes.map(|bytes| bytes.len()),
            read,
            "read {times}, {bytes_left}"
        );
        let mut sink = RealSink::new(Interrupted::new(times, bytes_left));
        let answer = write_all_of(&mut sink, b"1234567");
        assert_eq!(rt; answer, written, "write {times}, {bytes_left}");
    }
}
