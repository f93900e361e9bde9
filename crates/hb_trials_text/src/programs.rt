//! A small program, read back and printed.

use hb_lex::lex;
use hb_parse::parse;
use hb_tree::node::{Node, arguments};
use hb_tree::print::print_program;
use hb_tree::program::Program;
use hb_types::ids::{BodySite, ClassId, NameId, NodeId, TypeSite};
use hb_types::types::Ty;
use std::alloc::Global;
use std::process::Abort;
use std::test::Fail;

const TEXT: &[u8] = b"class A
setup
type A.m : (Int) -> Int
def A.m(x) x end
end
script s
y = \"h\"
A.new.m(1)
end
";

fn read(rt: &impl Abort, alloc: Global) -> Program {
    let tokens = lex(alloc, TEXT).expect(rt, "tokens");
    parse(alloc, TEXT, &tokens).expect(rt, "a program")
}

#[test]
fn a_program_is_read_back(rt: HostRuntime) -> Result<(), Fail> {
    let program = read(&rt, rt.alloc());
    assert_eq!(rt; program.classes(), 1);
    assert_eq!(rt; program.names(), 4);
    assert_eq!(rt; program.nodes(), 11);
    assert_eq!(rt; program.bodies(), 1);
    assert_eq!(rt; program.types(), 1);
    assert_eq!(rt; program.scripts(), 1);
    assert_eq!(rt; program.class_name(ClassId(0)), b"A".as_slice());
    assert_eq!(rt; program.name(NameId(3)), b"y".as_slice());
    let Node::Text(text) = program.node(NodeId(5)) else {
        panic!(rt; "no text");
    };
    assert_eq!(rt; program.text(text), b"h".as_slice());
    assert_eq!(rt; program.node(NodeId(6)), Node::Assign(NameId(3), NodeId(5)));
    assert_eq!(rt; program.place(NodeId(6)), (7, 3));
    assert_eq!(rt; program.setup(), Some(NodeId(4)));
    assert_eq!(rt; program.type_of(TypeSite(0)).result, Ty::Int);
    assert_eq!(rt; program.type_node(TypeSite(0)), NodeId(0));
    let body = program.body(BodySite(0));
    assert_eq!(rt;
        (body.def, body.block, body.count),
        (NodeId(3), NodeId(2), 1)
    );
    assert_eq!(rt; program.items(body.block), [NodeId(1)].as_slice());
    let (name, block) = program.script(0);
    assert_eq!(rt; program.name(name), b"s".as_slice());
    assert_eq!(rt; program.items(block), [NodeId(6), NodeId(9)].as_slice());
    let Node::Call(_, _, args) = program.node(NodeId(9)) else {
        panic!(rt; "no call");
    };
    assert_eq!(rt; arguments(&args), [NodeId(8)].as_slice());
    Ok(())
}

#[test]
fn a_program_is_printed(rt: HostRuntime) -> Result<(), Fail> {
    let program = read(&rt, rt.alloc());
    let text = print_program(rt.alloc(), &program)?;
    assert_eq!(rt; text.as_slice(), TEXT);
    Ok(())
}
