//! Bundles, written, opened and verified.

use crate::derivations::{derived, verified};
use crate::texts::read;
use hb_bundle::{TextsFail, bundle, open_bundle, verify_texts};
use hb_deriv::raw::Derivation;
use hb_tree::program::Program;
use hb_types::ids::{BodySite, ClassId, TypeSite};
use std::alloc::{AllocError, Global};
use std::process::Abort;
use std::test::Fail;

const PROGRAM: &[u8] =
    b"class A\nscript main\ntype A.g : () -> Int\ndef A.g() 1 end\ntype A.f : () -> Int\ndef A.f() self.g end\nprint A.new.f\ntype A.g : () -> Str\nprint A.new.f\nend\n";

const OF_F: &[u8] = b"derivation A 6:1 5:1\nuse A.g 3:1\nstep 6:11 A\nstep 6:16 Int\nend\n";

const OF_G: &[u8] = b"derivation A 4:1 3:1\nstep 4:11 Int\nend\n";

// The derivation of the body at a site, whose type is declared at the site of the same number.
fn derivation(rt: &impl Abort, alloc: Global, prog: &Program, site: u16) -> Derivation {
    let raw = derived(rt, alloc, prog, ClassId(0), BodySite(site), TypeSite(site));
    verified(rt, alloc, prog, &raw).expect(rt, "a derivation")
}

fn joined(alloc: Global, pieces: &[&[u8]]) -> Result<Vec<u8>, AllocError> {
    let mut bytes = Vec::new(alloc);
    for piece in pieces {
        bytes.extend_from_slice(piece)?;
    }
    Ok(bytes)
}

#[test]
fn a_bundle_has_its_text_behind_its_length(rt: HostRuntime) -> Result<(), Fail> {
    let prog = read(&rt, rt.alloc(), PROGRAM);
    let mut made = Vec::new(rt.alloc());
    made.push(derivation(&rt, rt.alloc(), &prog, 1))?;
    made.push(derivation(&rt, rt.alloc(), &prog, 0))?;
    let written = bundle(rt.alloc(), &prog, PROGRAM, &made)?;
    let rest = joined(rt.alloc(), &[OF_F, OF_G])?;
    let whole = joined(rt.alloc(), &[b"program 152\n", PROGRAM, &rest])?;
    assert_eq!(rt; written.as_slice(), whole.as_slice());
    let opened = open_bundle(&written).expect(&rt, "a program");
    assert_eq!(rt; opened.text, PROGRAM);
    assert_eq!(rt; opened.rest, rest.as_slice());
    Ok(())
}

/// Bytes that a program begins, with its text and what stands behind it.
const OPENED: [(&[u8], &[u8], &[u8]); 5] = [
    (b"program 0\n\n", b"", b""),
    (b"program 0\n\nmore", b"", b"more"),
    (b"program 3\nabc\n", b"abc", b""),
    (b"program 3\nab\n", b"ab\n", b""),
    (b"program 10\nclass A\n\n\n\n", b"class A\n\n\n", b"\n"),
];

#[test]
fn a_line_feed_stands_behind_a_text_without_one(rt: HostRuntime) -> Result<(), Fail> {
    for (bytes, text, rest) in &OPENED {
        let opened = open_bundle(bytes).expect(&rt, "a program");
        assert_eq!(rt; opened.text, *text);
        assert_eq!(rt; opened.rest, *rest);
    }
    Ok(())
}

/// Bytes that no program begins.
const CLOSED: [&[u8]; 10] = [
    b"",
    b"program",
    b"program 0",
    b"program 0\n",
    b"program \n\n",
    b"program 3\nabc",
    b"program 4\nab\n",
    b"program 03\nab\n",
    b"Program 3\nab\n",
    b"program 1048577\nab\n",
];

#[test]
fn a_length_is_that_of_the_text(rt: HostRuntime) -> Result<(), Fail> {
    for bytes in &CLOSED {
        assert!(rt; open_bundle(bytes).is_none(), "{bytes:?}");
    }
    Ok(())
}

/// Texts of derivations, their lines, and whether all are good.
const TOLD: [(&[u8], &[u8], bool); 5] = [
    (b"", b"", true),
    (
        b"derivation A 6:1 5:1\nuse A.g 3:1\nstep 6:11 A\nstep 6:16 Int\nend\nderivation A 4:1 3:1\nstep 4:11 Int\nend\n",
        b"ok\nok\n",
        true,
    ),
    (
        b"derivation A 6:1 5:1\nstep 6:11 A\nstep 6:16 Int\nend\nderivation A 4:1 3:1\nstep 4:11 Int\nend\n",
        b"no uses 0\nok\n",
        false,
    ),
    (
        b"derivation A 6:1 5:1\nuse A.g 3:1\nstep 6:11 A\nstep 6:16 Str\nend\nderivation A 4:1 3:1\nstep 4:11 Int\nend\n",
        b"no step 1\nok\n",
        false,
    ),
    (
        b"derivation A 4:1 3:1\nstep 4:11 Int\nend\nderivation A 4:1 8:1\nstep 4:11 Int\nend\n",
        b"ok\nno step 1\n",
        false,
    ),
];

#[test]
fn each_text_has_its_line(rt: HostRuntime) -> Result<(), Fail> {
    let prog = read(&rt, rt.alloc(), PROGRAM);
    for (bytes, lines, good) in &TOLD {
        assert!(rt; bytes.len() < 1000);
        let found = verify_texts(rt.alloc(), &prog, bytes).expect(&rt, "verdicts");
        assert_eq!(rt; found.lines.as_slice(), *lines);
        assert_eq!(rt; found.all_good, *good);
    }
    Ok(())
}

/// Bytes that are no texts of derivations, and the byte from which on they go wrong.
const WRONG: [(&[u8], u32); 6] = [
    (b"\n", 0),
    (b"derivation A 4:1 3:1\nstep 4:11 Int\n", 35),
    (b"derivation A 4:1 3:1\nstep 4:11 Int\nend", 35),
    (b"derivation A 4:1 3:1\nstep 4:11 Int\nend\nend\n", 39),
    (
        b"derivation A 4:1 3:1\nstep 4:11 Int\nend\nderivation A 4:1 3:1\n",
        60,
    ),
    (
        b"derivation A 4:1 3:1\nend\nderivation A 4:1 3:1\nstep 4:9 Int\nend\n",
        46,
    ),
];

#[test]
fn texts_go_wrong_where_the_first_that_is_none_does(rt: HostRuntime) -> Result<(), Fail> {
    let prog = read(&rt, rt.alloc(), PROGRAM);
    for (bytes, at) in &WRONG {
        assert!(rt; bytes.len() < 1000);
        let found = verify_texts(rt.alloc(), &prog, bytes).err();
        assert_eq!(rt; found, Some(TextsFail::BadTexts(*at)), "{bytes:?}");
    }
    Ok(())
}
