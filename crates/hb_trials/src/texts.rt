//! Texts as programs, and texts of several tests.

use hb_lex::lex;
use hb_parse::parse;
use hb_tree::program::Program;
use std::alloc::Global;
use std::process::Abort;

/// The program of a text.
pub fn read(rt: &impl Abort, alloc: Global, text: &[u8]) -> Program {
    assert!(rt; text.len() < 1_000_000);
    let tokens = lex(alloc, text).expect(rt, "tokens");
    parse(alloc, text, &tokens).expect(rt, "a program")
}

/// Two methods, of which the second calls the first, whose type changes.
pub const TWO: &[u8] = b"class A
script main
type A.g : () -> Int
def A.g() 1 end
type A.f : () -> Int
def A.f() self.g end
print A.new.f
type A.g : () -> Str
print A.new.f
end
";

/// Branches of unlike types, joined to any.
pub const UNLIKE: &[u8] = b"class A
script main
type A.f : (Bool) -> Int
def A.f(c) x = if c then 1 else \"a\" end; x + 1 end
print A.new.f(true)
end
";
