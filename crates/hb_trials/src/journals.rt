//! The journal that a machine keeps, beside the history of its tables.

use crate::hands::CALLER;
use crate::texts::read;
use hb_eval::machine::Machine;
use hb_eval::script_run::ScriptRun;
use hb_names::PlainNames;
use hb_run::run_to_end;
use hb_tables::entry::{Act, Entry};
use hb_tables::plain::PlainTables;
use std::alloc::{AllocError, Global};
use std::process::Abort;
use std::test::Fail;

/// Scripts with acts of each kind, where a method changes once, and which act is the last.
const TEXTS: [(&[u8], char); 2] = [
    (
        b"class A
script main
type A.g : () -> Int
def A.g() 1 end
type A.f : () -> Int
def A.f() print type? A.f : () -> Str; self.g end
print A.new.f
type A.g : () -> Str
end
",
        'w',
    ),
    (
        b"class A
script main
type A.g : () -> Int
def A.g() 1 end
type A.f : () -> Int
def A.f() print type? A.f : () -> Str; self.g end
print A.new.f
def A.g() 2 end
end
",
        'v',
    ),
];

/// Which act it is, of which call, if of one, and its key.
type Shape = (char, u32, u16);

// The shape of an entry of the script.
fn shape(rt: &impl Abort, entry: &Entry) -> Shape {
    assert!(rt; entry.caller == CALLER);
    match entry.act {
        Act::Hold { key, q, .. } => ('h', q.0, key.0),
        Act::Free { key, q } => ('f', q.0, key.0),
        Act::Retype { key, .. } => ('t', 0, key.0),
        Act::Busy { key, .. } => ('b', 0, key.0),
        Act::WornType { key } => ('w', 0, key.0),
        Act::Define { key, .. } => ('d', 0, key.0),
        Act::WornDef { key } => ('v', 0, key.0),
        Act::Call { key, q, .. } => ('c', q.0, key.0),
    }
}

fn shapes(rt: &impl Abort, alloc: Global, entries: &[Entry]) -> Result<Vec<Shape>, AllocError> {
    let mut shapes = Vec::new(alloc);
    for entry in entries {
        shapes.push(shape(rt, entry))?;
    }
    Ok(shapes)
}

// The journal of a text's script, where it is asked for, and the history.
fn kept(
    rt: &impl Abort,
    alloc: Global,
    text: &[u8],
    keep: bool,
) -> Result<(Option<Vec<Shape>>, Vec<Shape>), Fail> {
    let prog = read(rt, alloc, text);
    assert!(rt; prog.scripts() == 1);
    let (_, block) = prog.script(0);
    let mut tables = PlainTables::new(alloc, 1)?;
    let mut names = PlainNames::new(alloc);
    let mut machine = Machine::new(alloc, CALLER, block, 1_000, keep)?;
    let mut desk = tables.desk(CALLER);
    run_to_end(alloc, &prog, &mut machine, &mut desk, &mut names)?;
    let history = shapes(rt, alloc, tables.history())?;
    let ScriptRun { journal, .. } = machine.finish();
    let journal = match journal {
        None => None,
        Some(entries) => Some(shapes(rt, alloc, &entries)?),
    };
    Ok((journal, history))
}

#[test]
fn a_journal_is_kept_where_it_is_asked_for(rt: HostRuntime) -> Result<(), Fail> {
    for (text, last) in TEXTS {
        let expected = [
            ('t', 0, 0),
            ('d', 0, 0),
            ('t', 0, 1),
            ('d', 0, 1),
            ('h', 1, 1),
            ('h', 1, 0),
            ('c', 1, 1),
            ('b', 0, 1),
            ('h', 2, 0),
            ('c', 2, 0),
            ('f', 2, 0),
            ('f', 1, 1),
            ('f', 1, 0),
            (last, 0, 0),
        ];
        let (journal, history) = kept(&rt, rt.alloc(), text, true)?;
        assert_eq!(rt; history.as_slice(), expected.as_slice());
        assert!(rt; matches!(&journal, Some(entries) if entries.as_slice() == expected.as_slice()));
        let (journal, history) = kept(&rt, rt.alloc(), text, false)?;
        assert_eq!(rt; history.as_slice(), expected.as_slice());
        assert!(rt; journal.is_none());
    }
    Ok(())
}
