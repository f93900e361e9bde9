//! Sources and sinks whose calls fail at known places.

use hb_io::{
    Failed, MemSink, MemSource, NoMemory, ReadFail, Sink, Source, WriteFault, read_all,
    write_all_of,
};
use std::test::Fail;

#[test]
fn a_call_fails_in_mid_stream_and_at_the_end_of_room(rt: HostRuntime) -> Result<(), Fail> {
    let fails = [2].to_vec(rt.alloc())?;
    let mut sink = MemSink::new(rt.alloc(), 4, 3, fails)?;
    for (piece, want, held) in [
        ("abcd", Ok(3), "abc"),
        ("d", Err(Failed), "abc"),
        ("de", Ok(1), "abcd"),
        ("", Ok(0), "abcd"),
        ("e", Err(Failed), "abcd"),
    ] {
        assert_eq!(rt; sink.write(piece.as_bytes()), want, "writing {piece:?}");
        assert_eq!(rt; sink.bytes(), held.as_bytes(), "after {piece:?}");
    }
    Ok(())
}

#[test]
fn a_call_fails_in_mid_stream(rt: HostRuntime) -> Result<(), Fail> {
    let bytes = b"abcdefg".to_vec(rt.alloc())?;
    let mut source = MemSource::new(bytes, 3, [2, 5].to_vec(rt.alloc())?);
    let mut buf = [0u8; 8];
    for (call, want) in [
        Ok("abc"),
        Err(Failed),
        Ok("def"),
        Ok("g"),
        Err(Failed),
        Ok(""),
    ]
    .iter()
    .enumerate()
    {
        let got = source.read(&mut buf).map(|count| &buf[..count]);
        assert_eq!(rt; got, want.map(|text| text.as_bytes()), "call {call}");
    }
    Ok(())
}

#[test]
fn all_bytes_move_or_the_call_says_why_not(rt: HostRuntime) -> Result<(), Fail> {
    for (failing, bytes, read, written) in [
        (0, "", Ok(0), Ok(())),
        (0, "abcdefg", Ok(7), Ok(())),
        (3, "abcdefg", Err(ReadFail::Fault), Err(WriteFault)),
        (0, "abcdefgh", Err(ReadFail::TooLong), Err(WriteFault)),
    ] {
        let fails = [failing].to_vec(rt.alloc())?;
        let mut source = MemSource::new(bytes.as_bytes().to_vec(rt.alloc())?, 3, fails);
        let answer = read_all(rt.alloc(), &mut source, 7).map(|all| all.len());
        assert_eq!(rt; answer, read, "reading {bytes}");
        let mut sink = MemSink::new(rt.alloc(), 7, 3, [failing].to_vec(rt.alloc())?)?;
        let answer = write_all_of(&mut sink, bytes.as_bytes());
        assert_eq!(rt; answer, written, "writing {bytes}");
    }
    Ok(())
}

#[test]
fn refusals_have_texts(rt: HostRuntime) -> Result<(), Fail> {
    for (fail, text) in [
        (ReadFail::Fault, "the source failed"),
        (ReadFail::TooLong, "the input is too long"),
        (ReadFail::NoMemory, "out of memory"),
    ] {
        assert_eq!(rt; format!(in rt.alloc(); "{fail}")?.as_str(), text);
    }
    let texts = format!(in rt.alloc(); "{WriteFault}, {Failed}, {NoMemory}")?;
    assert_eq!(rt;
        texts.as_str(),
        "the sink failed, a read or a write failed, out of memory"
    );
    Ok(())
}
