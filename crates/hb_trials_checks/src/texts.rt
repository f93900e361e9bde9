//! Texts as programs.

use hb_gen::generate;
use hb_lex::lex;
use hb_parse::parse;
use hb_tree::program::Program;
use std::alloc::Global;
use std::process::Abort;

/// The program of a text.
pub fn read(rt: &impl Abort, alloc: Global, text: &[u8]) -> Program {
    assert!(rt; text.len() < 1_000_000);
    let tokens = lex(alloc, text).expect(rt, "tokens");
    parse(alloc, text, &tokens).expect(rt, "a program")
}

/// The program that is made from a number.
pub fn made(rt: &impl Abort, alloc: Global, n: u32) -> Program {
    let text = generate(alloc, n).expect(rt, "a text");
    read(rt, alloc, &text)
}
