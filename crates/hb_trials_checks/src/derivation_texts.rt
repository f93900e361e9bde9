//! Texts of derivations, written and read.

use crate::derivations::{derived, verified};
use crate::texts::read;
use hb_deriv::raw::RawDerivation;
use hb_deriv_text::{DerivFail, Finder, fits, read_text, read_with, to_raw, write_text};
use hb_tree::program::Program;
use hb_types::ids::{BodySite, ClassId, TypeSite};
use std::alloc::Global;
use std::process::Abort;
use std::test::Fail;

const PROGRAM: &[u8] =
    b"class A\nscript main\ntype A.g : () -> Int\ndef A.g() 1 end\ntype A.f : () -> Int\ndef A.f() self.g end\nprint A.new.f\nend\n";

const OF_G: &str = "derivation A 4:1 3:1\nstep 4:11 Int\nend\n";

const OF_F: &str = "derivation A 6:1 5:1\nuse A.g 3:1\nstep 6:11 A\nstep 6:16 Int\nend\n";

#[test]
fn what_is_written_is_read_again(rt: HostRuntime) -> Result<(), Fail> {
    let prog = read(&rt, rt.alloc(), PROGRAM);
    for (site, text) in [(0, OF_G), (1, OF_F)] {
        let (body, declared) = (BodySite(site), TypeSite(site));
        let raw = derived(&rt, rt.alloc(), &prog, ClassId(0), body, declared);
        assert!(rt; fits(&raw, &prog));
        let derivation = verified(&rt, rt.alloc(), &prog, &raw).expect(&rt, "a derivation");
        let written = write_text(rt.alloc(), &prog, &derivation)?;
        assert_eq!(rt; written.as_slice(), text.as_bytes());
        let again = answer(&rt, rt.alloc(), &prog, text).expect(&rt, "a derivation");
        let copy = to_raw(rt.alloc(), &derivation)?;
        for found in [&again, &copy] {
            assert_eq!(rt; found.class, raw.class);
            assert_eq!(rt; found.body, raw.body);
            assert_eq!(rt; found.declared, raw.declared);
            assert_eq!(rt; found.uses, raw.uses);
            assert_eq!(rt; found.steps, raw.steps);
        }
    }
    Ok(())
}

// What the text is read as.
fn answer(
    rt: &impl Abort,
    alloc: Global,
    prog: &Program,
    text: &str,
) -> Result<RawDerivation, DerivFail> {
    assert!(rt; text.len() < 1000);
    read_text(alloc, prog, text.as_bytes())
}

/// Texts that are none of a derivation, and the byte from which on they go wrong.
const WRONG: [(&str, u32); 12] = [
    ("", 0),
    ("derivation A 6:1 5:1", 0),
    ("derivation B 6:1 5:1\n", 0),
    ("derivation A 6:2 5:1\n", 0),
    ("derivation A 6:1  5:1\n", 0),
    ("derivation A 6:1 5:1\n", 21),
    ("derivation A 6:1 5:1\nuse A.h 3:1\n", 21),
    ("derivation A 6:1 5:1\nstep 6:11 A\nuse A.g 3:1\nend\n", 33),
    ("derivation A 6:1 5:1\nstep 06:11 A\nend\n", 21),
    ("derivation A 6:1 5:1\nstep 6:12 A\nend\n", 21),
    ("derivation A 6:1 5:1\nend", 21),
    ("derivation A 6:1 5:1\nend\nend\n", 25),
];

#[test]
fn a_text_goes_wrong_at_its_first_line_that_does_not_fit(rt: HostRuntime) -> Result<(), Fail> {
    let prog = read(&rt, rt.alloc(), PROGRAM);
    for (text, at) in &WRONG {
        let found = answer(&rt, rt.alloc(), &prog, text).err();
        assert_eq!(rt; found, Some(DerivFail::BadText(*at)), "{text:?}");
    }
    Ok(())
}

#[test]
fn one_index_serves_all_texts_of_a_program(rt: HostRuntime) -> Result<(), Fail> {
    let prog = read(&rt, rt.alloc(), PROGRAM);
    let finder = Finder::new(rt.alloc(), &prog)?;
    for (text, steps) in [(OF_G, 1), (OF_F, 2), (OF_G, 1)] {
        let raw = found_by(&rt, rt.alloc(), &finder, text).expect(&rt, "a derivation");
        assert_eq!(rt; raw.steps.len(), steps);
    }
    Ok(())
}

// What the text is read as, by an index that was made before.
fn found_by(
    rt: &impl Abort,
    alloc: Global,
    finder: &Finder,
    text: &str,
) -> Result<RawDerivation, DerivFail> {
    assert!(rt; text.len() < 1000);
    read_with(alloc, finder, text.as_bytes())
}
