//! Texts that are made from numbers.

use crate::texts::made;
use hb_gen::{GenFail, generate};
use std::test::Fail;

/// The whole text of 1.
const ONE: &[u8] = b"class C1
script s1
type C1.add : (Int, Int) -> Int
def C1.add(a, b) a + b end
type C1.sum : (Int) -> Int
def C1.sum(n) t = 0; while 0 < n do t = self.add(t, n); n = n - 1 end; t end
print C1.new.sum(1)
end
";

/// Numbers, how many bytes their texts have, and a line with the number of the byte at which it begins.
const LINES: [(u32, usize, usize, &[u8]); 7] = [
    (4, 824, 627, b"script s4\ntype C4.add"),
    (5, 1016, 218, b"print C1.new.sum(1)\ntype C5.add"),
    (
        10,
        1983,
        1197,
        b"print C10.new.sum(10)\nend\nscript s3\ntype C3.add",
    ),
    (200, 40500, 0, b"class C1\nclass C2\n"),
    (
        200,
        40500,
        2081,
        b"class C200\nscript s1\ntype C1.add : (Int, Int) -> Int\n",
    ),
    (200, 40500, 30892, b"script s4\ntype C4.add"),
    (200, 40500, 40472, b"print C200.new.sum(200)\nend\n"),
];

#[test]
fn the_text_of_one_is_this(rt: HostRuntime) -> Result<(), Fail> {
    let text = generate(rt.alloc(), 1).expect(&rt, "a text");
    assert_eq!(rt; text.as_slice(), ONE);
    Ok(())
}

#[test]
fn texts_have_their_lines(rt: HostRuntime) -> Result<(), Fail> {
    for (n, length, begin, line) in &LINES {
        let text = generate(rt.alloc(), *n).expect(&rt, "a text");
        assert_eq!(rt; text.len(), *length, "{n}");
        let found = text.get(*begin..).map(|rest| rest.starts_with(line));
        assert_eq!(rt; found, Some(true), "{n} at {begin}");
    }
    Ok(())
}

#[test]
fn a_number_out_of_range_is_refused(rt: HostRuntime) -> Result<(), Fail> {
    for n in [0, 201, u32::MAX] {
        assert_eq!(rt; generate(rt.alloc(), n).err(), Some(GenFail::Range));
    }
    Ok(())
}

#[test]
fn texts_are_programs(rt: HostRuntime) -> Result<(), Fail> {
    for (n, scripts) in [(1, 1), (3, 3), (5, 4), (200, 4)] {
        let prog = made(&rt, rt.alloc(), n as u32);
        assert_eq!(rt; prog.classes(), n);
        assert_eq!(rt; prog.scripts(), scripts);
        assert_eq!(rt; (prog.bodies(), prog.types()), (2 * n, 2 * n));
    }
    Ok(())
}
