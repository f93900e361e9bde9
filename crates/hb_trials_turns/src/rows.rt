//! A type that one script changes while the frames of the other use it, by several orders.

use crate::comparing::compare;
use hb_lex::lex;
use hb_parse::parse;
use hb_tree::program::Program;
use hb_types::ids::CallerId;
use std::alloc::Global;
use std::process::Abort;
use std::test::Fail;

// The program of a text.
fn read(rt: &impl Abort, alloc: Global, text: &[u8]) -> Program {
    assert!(rt; text.len() < 1_000_000);
    let tokens = lex(alloc, text).expect(rt, "tokens");
    parse(alloc, text, &tokens).expect(rt, "a program")
}

/// Two scripts, of which the second changes a type that the first one's frames use.
const SCRIPTS: &[u8] = b"class A
setup
type A.g : () -> Int
def A.g() 1 end
type A.f : () -> Int
def A.f() self.g end
end
script one
print A.new.f
end
script two
print type? A.g : () -> Int
end
";

const ONE: CallerId = CallerId(1);

const TWO: CallerId = CallerId(2);

/// Turns, and what the second script prints: whether the type was changed.
const ORDERS: [(&[CallerId], &str); 3] = [
    (&[ONE, ONE, ONE, TWO, TWO], "false"),
    (&[ONE, ONE, ONE, ONE, ONE, ONE, TWO, TWO], "true"),
    (&[ONE, ONE, ONE, TWO], "true"),
];

/// The part of a type word that counts its pins.
const PINS: u64 = 1 << 24;

#[test]
fn turns_over_words_give_the_runs_of_the_order(rt: HostRuntime) -> Result<(), Fail> {
    let prog = read(&rt, rt.alloc(), SCRIPTS);
    let setup = prog.setup().expect(&rt, "a setup");
    assert!(rt; prog.scripts() == 2);
    for (order, changed) in ORDERS {
        let compared = compare(rt.alloc(), &prog, setup, order)?;
        let expected = format!(in rt.alloc();
            "setup\ndone\ncalls 0 own 0 shared 0 fresh 0\nscript one\n> 1\ndone\ncalls 2 own 0 shared 0 fresh 2\nscript two\n> {changed}\ndone\ncalls 0 own 0 shared 0 fresh 0\n"
        )?;
        assert_eq!(rt; compared.over_words.as_slice(), expected.as_bytes());
        assert_eq!(rt; compared.plain.as_slice(), expected.as_bytes());
        assert_eq!(rt; compared.word % PINS, 0);
    }
    Ok(())
}
