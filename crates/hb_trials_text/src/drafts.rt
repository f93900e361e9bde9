//! A small program, built and read back.

use hb_draft::Draft;
use hb_tree::node::Node;
use hb_tree::program::Program;
use hb_types::ids::{NameId, NodeId};
use std::alloc::{AllocError, Global};
use std::test::Fail;

// class A / script main / print "hi" / end
fn hello(alloc: Global) -> Result<Program, AllocError> {
    let mut draft = Draft::new(alloc);
    let _class = draft.class(b"A")?;
    let main = draft.name(b"main")?;
    draft.text(b"hi", (3, 7))?;
    draft.print((3, 1))?;
    draft.block(1, (4, 1))?;
    draft.script(main)?;
    draft.finish()
}

#[test]
fn a_program_is_built_and_read_back(rt: HostRuntime) -> Result<(), Fail> {
    let program = hello(rt.alloc())?;
    assert_eq!(rt; program.classes(), 1);
    assert_eq!(rt; program.names(), 1);
    assert_eq!(rt; program.nodes(), 3);
    assert_eq!(rt; program.scripts(), 1);
    assert_eq!(rt; program.name(NameId(0)), b"main".as_slice());
    let (name, block) = program.script(0);
    assert_eq!(rt; name, NameId(0));
    assert_eq!(rt; block, NodeId(2));
    assert_eq!(rt; program.node(NodeId(2)), Node::Block(0, 1));
    assert_eq!(rt; program.node(NodeId(1)), Node::Print(NodeId(0)));
    assert_eq!(rt; program.place(NodeId(0)), (3, 7));
    Ok(())
}
