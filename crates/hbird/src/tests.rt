use super::*;
use hb_io::{MemSink, MemSource};
use hb_threads::OpenGate;
use std::alloc::Global;
use std::test::Fail;
use std::thread::Threads;

const GREETING: &str =
    "class A\nscript main\ntype A.hi : (Str) -> Str\ndef A.hi(x) \"hi \" ++ x end\nprint A.new.hi(\"bob\")\nend\n";

const GREETED: &str = "script main\n> hi bob\ndone\ncalls 1 own 0 shared 0 fresh 1\n";

const BUNDLE: &str =
    "program 98\nclass A\nscript main\ntype A.hi : (Str) -> Str\ndef A.hi(x) \"hi \" ++ x end\nprint A.new.hi(\"bob\")\nend\nderivation A 4:1 3:1\nstep 4:13 Str\nstep 4:22 Str\nstep 4:19 Str\nend\n";

// One call: the words, the text and the calls that fail, and then the status and what is written.
#[derive(Clone, Copy)]
struct Row {
    words: &'static [&'static str],
    text: &'static str,
    read_fails: &'static [u32],
    write_fails: &'static [u32],
    status: u8,
    written: &'static str,
}

fn answer<R: Threads + Sync>(rt: &R, alloc: Global, row: &Row) -> Result<(u8, String), Fail> {
    let input = row.text.as_bytes().to_vec(alloc)?;
    let mut source = MemSource::new(input, 7, row.read_fails.to_vec(alloc)?);
    let mut sink = MemSink::new(alloc, 4096, 10, row.write_fails.to_vec(alloc)?)?;
    let status = hbird(rt, alloc, row.words, &mut source, &mut sink, &OpenGate);
    let written = String::from_utf8(sink.bytes().to_vec(alloc)?)?;
    Ok((status, written))
}

const fn on_text(text: &'static str, status: u8, written: &'static str) -> Row {
    Row {
        words: &["run"],
        text,
        read_fails: &[],
        write_fails: &[],
        status,
        written,
    }
}

#[test]
fn answers_by_words_bytes_and_faults(rt: HostRuntime) -> Result<(), Fail> {
    let refused = "words refused\n";
    let rows = [
        on_text(GREETING, 0, GREETED),
        // Ten bytes a call.
        Row {
            write_fails: &[2],
            status: 5,
            written: "script mai",
            ..on_text(GREETING, 5, "")
        },
        Row {
            read_fails: &[1],
            ..on_text(GREETING, 4, "")
        },
        Row {
            words: &[],
            read_fails: &[1],
            ..on_text(GREETING, 2, refused)
        },
        Row {
            words: &["run", "x"],
            read_fails: &[1],
            ..on_text(GREETING, 2, refused)
        },
        Row {
            words: &["walk"],
            read_fails: &[1],
            ..on_text(GREETING, 2, refused)
        },
        on_text("", 0, ""),
        on_text("class A\nclass A", 1, "text TwiceClass 2:7\n"),
        on_text(
            "setup\nend\n",
            0,
            "setup\ndone\ncalls 0 own 0 shared 0 fresh 0\n",
        ),
        on_text(
            "script a\nend\nscript b\nend\n",
            0,
            "script a\ndone\ncalls 0 own 0 shared 0 fresh 0\nscript b\ndone\ncalls 0 own 0 shared 0 fresh 0\n",
        ),
        Row {
            words: &["run", "--order", "2", "--trace"],
            ..on_text(
                "class A\nscript a\ndef A.m() 1 end\nend\nscript b\ndef A.m() 2 end\nend\n",
                0,
                "script a\ndone\ncalls 0 own 0 shared 0 fresh 0\nscript b\ndone\ncalls 0 own 0 shared 0 fresh 0\ntrace\n2 def A.m 6:1\n1 def A.m 3:1\n",
            )
        },
        Row {
            words: &["derive"],
            ..on_text(GREETING, 0, BUNDLE)
        },
        Row {
            words: &["derive"],
            ..on_text("class A\nclass A", 1, "text TwiceClass 2:7\n")
        },
        Row {
            words: &["derive"],
            ..on_text("", 0, "program 0\n\n")
        },
        Row {
            words: &["derive"],
            read_fails: &[1],
            ..on_text(GREETING, 4, "")
        },
        // Ten bytes a call.
        Row {
            words: &["derive"],
            write_fails: &[2],
            ..on_text(GREETING, 5, "program 98")
        },
        Row {
            words: &["derive", "5"],
            read_fails: &[1],
            ..on_text(GREETING, 2, refused)
        },
        Row {
            words: &["verify"],
            ..on_text(BUNDLE, 0, "ok\n")
        },
        Row {
            words: &["verify"],
            ..on_text("program x\n", 1, "text BadBundle 1:1\n")
        },
        Row {
            words: &["verify"],
            ..on_text("program 1\n@\n", 1, "text BadByte 1:1\n")
        },
        Row {
            words: &["verify"],
            ..on_text("program 1\n \nend\n", 1, "text BadBundle 3:1\n")
        },
        Row {
            words: &["verify"],
            read_fails: &[1],
            ..on_text(BUNDLE, 4, "")
        },
        Row {
            words: &["verify"],
            write_fails: &[1],
            ..on_text(BUNDLE, 5, "")
        },
        Row {
            words: &["verify", "--trace"],
            read_fails: &[1],
            ..on_text(BUNDLE, 2, refused)
        },
        Row {
            words: &["run", "--order", "h"],
            read_fails: &[1],
            ..on_text(GREETING, 2, refused)
        },
        on_text(
            "class A\nscript main\nprint 1\nA.new.hi(3)\nend\n",
            6,
            "script main\n> 1\nstop NoBody 4:7\ncalls 1 own 0 shared 0 fresh 0\n",
        ),
    ];
    for row in &rows {
        let (status, written) = answer(&rt, rt.alloc(), row)?;
        assert_eq!(rt; status, row.status, "at {:?}", row.text);
        assert_eq!(rt; written.as_str(), row.written, "at {:?}", row.text);
    }
    Ok(())
}

#[test]
fn a_text_is_too_long_by_one_byte(rt: HostRuntime) -> Result<(), Fail> {
    for (len, status, written) in [(1_048_576, 0, ""), (1_048_577, 1, "text TooLong\n")] {
        let input = vec![in rt.alloc(); b' '; len]?;
        let mut source = MemSource::new(input, 65536, Vec::new(rt.alloc()));
        let mut sink = MemSink::new(rt.alloc(), 4096, 4096, Vec::new(rt.alloc()))?;
        let answer = hbird(&rt, rt.alloc(), &["run"], &mut source, &mut sink, &OpenGate);
        assert_eq!(rt; answer, status);
        assert_eq!(rt; sink.bytes(), written.as_bytes());
    }
    Ok(())
}

// Each generated text is a program: its runs are told, and none stops.
#[test]
fn generated_texts_are_programs(rt: HostRuntime) -> Result<(), Fail> {
    for size in 1..=200u32 {
        let number = format!(in rt.alloc(); "{size}")?;
        let words = ["work", number.as_str()];
        let mut source = MemSource::new(Vec::new(rt.alloc()), 64, Vec::new(rt.alloc()));
        let mut sink = MemSink::new(rt.alloc(), 4096, 4096, Vec::new(rt.alloc()))?;
        let status = hbird(&rt, rt.alloc(), &words, &mut source, &mut sink, &OpenGate);
        assert_eq!(rt; status, 0, "work {size}");
    }
    Ok(())
}
