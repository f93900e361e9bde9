//! Texts with their first faults, and a program that is printed and read back.

ghost use Rattle.std.specs.Prelude.{◌<◌, length};

use hb_lex::lex;
use hb_parse::{Limit, ParseFail, Wanted, parse};
use hb_tree::node::Node;
use hb_tree::print::print_program;
use hb_tree::program::Program;
use hb_types::ids::{BodySite, ClassId, NameId, NodeId, TypeSite};
use hb_types::types::Ty;
use std::test::Fail;

/// Texts and their first faults: none where the text is a program.
const TEXTS: [(&[u8], Option<ParseFail>); 18] = [
    (b"", None),
    (
        b"class A\nscript main\ntype A.hi : (Str) -> Str\ndef A.hi(x) \"hi \" ++ x end\nprint A.new.hi(\"bob\")\nend\n",
        None,
    ),
    (
        b"class A;script s;def A.m(a, b, c, d) A.new.m(a, b, c, d) end;end",
        None,
    ),
    (
        b"class A\nscript main",
        Some(ParseFail::Expected(Wanted::End, 19)),
    ),
    (b"class 5", Some(ParseFail::Expected(Wanted::ClassName, 6))),
    (
        b"script s while a then",
        Some(ParseFail::Expected(Wanted::Do, 17)),
    ),
    (
        b"script s 1 + end",
        Some(ParseFail::Expected(Wanted::Expression, 13)),
    ),
    (b"script s B.new end", Some(ParseFail::UnknownClass(9))),
    (b"class A\nclass A", Some(ParseFail::TwiceClass(14))),
    (
        b"script s end\nscript s 5 5",
        Some(ParseFail::TwiceScript(20)),
    ),
    (
        b"class A;script s;def A.m(a, b, a) a end;end",
        Some(ParseFail::TwiceParam(31)),
    ),
    (
        b"class A;script s;def A.m(a, b, c, d, e) a end;end",
        Some(ParseFail::TooMany(Limit::Parameters, 37)),
    ),
    (
        b"class A;script s;type A.m : (A, A, A, A, A) -> A;end",
        Some(ParseFail::TooMany(Limit::Parameters, 41)),
    ),
    (
        b"class A;script s;A.new.m(1, 2, 3, 4, 5);end",
        Some(ParseFail::TooMany(Limit::Arguments, 37)),
    ),
    // Of two faults at one token the one that is told.
    (
        b"class A;script s;A.new.m(1, 2, 3, 4, B.new);end",
        Some(ParseFail::UnknownClass(37)),
    ),
    (
        b"class A;script s;A.new.m(1, 2, 3, 4, end",
        Some(ParseFail::Expected(Wanted::Expression, 37)),
    ),
    (
        b"class A;script s;type A.m : (A, A, A, A, B) -> A;end",
        Some(ParseFail::UnknownClass(41)),
    ),
    (
        b"class A;script s;def A.m(a, b, c, d, a) a end;end",
        Some(ParseFail::TwiceParam(37)),
    ),
];

#[test]
fn the_first_fault_is_told(rt: HostRuntime) {
    for (text, want) in TEXTS {
        assert!(rt; text.len() < 200);
        let tokens = lex(rt.alloc(), text).expect(&rt, "tokens");
        let fault = parse(rt.alloc(), text, &tokens).err();
        assert_eq!(rt; fault, want, "at {text:?}");
    }
}

/// A program in its own layout.
const LAID_OUT: &[u8] = b"class A; setup
  i = (1) # one
  while i < 4 do
    type A.((\"get_\") ++ str(i)):()->Int
    def A.(\"get_\" ++ str(i))() 7 end
    i = i + 1
  end
end
script main print (A.new).get_2() end";

/// The canonical text of that program.
const CANONICAL: &[u8] = b"class A
setup
i = 1
while i < 4 do type A.(\"get_\" ++ str(i)) : () -> Int; def A.(\"get_\" ++ str(i))() 7 end; i = i + 1 end
end
script main
print A.new.get_2
end
";

// Whether no node before this one stands at its place, blocks aside.
fn stands_alone(program: &Program, id: NodeId) -> bool
    requires { id.0 < length program.now.nodes }
{
    for i in 0..id.0 {
        let is_block = matches!(program.node(NodeId(i)), Node::Block(_, _));
        if !is_block && program.place(NodeId(i)) == program.place(id) {
            return false;
        }
    }
    true
}

#[test]
fn a_printed_program_is_read_back(rt: HostRuntime) -> Result<(), Fail> {
    let tokens = lex(rt.alloc(), LAID_OUT).expect(&rt, "tokens");
    let program = parse(rt.alloc(), LAID_OUT, &tokens).expect(&rt, "program");
    let text = print_program(rt.alloc(), &program)?;
    assert_eq!(rt; text.as_slice(), CANONICAL);
    let tokens = lex(rt.alloc(), CANONICAL).expect(&rt, "tokens");
    let again = parse(rt.alloc(), CANONICAL, &tokens).expect(&rt, "program");
    let text = print_program(rt.alloc(), &again)?;
    assert_eq!(rt; text.as_slice(), CANONICAL);
    assert_eq!(rt; program.nodes(), 28);
    assert_eq!(rt; again.nodes(), 28);
    for i in 0..28 {
        let id = NodeId(i);
        assert_eq!(rt; again.node(id), program.node(id), "node {i}");
        if let (Node::Text(text), Node::Text(same)) = (program.node(id), again.node(id)) {
            assert_eq!(rt; again.text(same), program.text(text));
        }
        if !matches!(again.node(id), Node::Block(_, _)) {
            assert!(rt; stands_alone(&program, id), "node {i}");
            assert!(rt; stands_alone(&again, id), "node {i}");
        }
    }
    for program in [&program, &again] {
        assert_eq!(rt; program.classes(), 1);
        assert_eq!(rt; program.names(), 3);
        assert_eq!(rt; program.bodies(), 1);
        assert_eq!(rt; program.types(), 1);
        assert_eq!(rt; program.scripts(), 1);
        assert_eq!(rt; program.class_name(ClassId(0)), b"A".as_slice());
        assert_eq!(rt; program.name(NameId(2)), b"get_2".as_slice());
        assert_eq!(rt; program.body(BodySite(0)).block, NodeId(15));
        assert_eq!(rt; program.type_of(TypeSite(0)).result, Ty::Int);
        assert_eq!(rt; program.type_node(TypeSite(0)), NodeId(9));
        assert_eq!(rt; program.script(0), (NameId(1), NodeId(27)));
        assert_eq!(rt; program.setup(), Some(NodeId(23)));
    }
    Ok(())
}
