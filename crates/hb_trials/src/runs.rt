//! Programs of one script, and their reports.

use crate::texts::read;
use hb_call::Share;
use hb_eval::script_run::ScriptRun;
use hb_eval::stop::{Outcome, Stop};
use hb_eval::value::Value;
use hb_report::{all_done, report};
use hb_tables::entry::VERSIONS_MAX;
use hb_turns::run_ordered;
use hb_types::ids::{CallerId, NodeId};
use std::alloc::Global;
use std::process::Abort;
use std::test::Fail;

// The report of a program's text, for so many steps and changes of a method.
fn reported(
    rt: &impl Abort,
    alloc: Global,
    text: &str,
    steps: u32,
    versions: u32,
) -> Result<String, Fail> {
    let program = read(rt, alloc, text.as_bytes());
    assert!(rt; 1 <= versions && versions <= VERSIONS_MAX);
    let mut share = Share::Off;
    let runs = run_ordered(alloc, &program, &[], steps, versions, &mut share)?.runs;
    let report = report(alloc, &program, &runs)?;
    Ok(String::from_utf8(report)?)
}

const STEPS: u32 = 1_000_000;

/// Code of a script with two classes, and the lines between the script's name and the counts.
const CODE: [(&str, &str); 56] = [
    ("print nil", "> nil\ndone"),
    ("print true; print false", "> true\n> false\ndone"),
    ("print 9223372036854775807", "> 9223372036854775807\ndone"),
    (r#"print "a\\b\n\tc\"""#, "> a\\\\b\\n\\tc\"\ndone"),
    ("print A.new", "> #<A>\ndone"),
    (
        "x = 1; print x; print (x = 2); print x",
        "> 1\n> 2\n> 2\ndone",
    ),
    ("print x", "stop Unbound 2:7"),
    ("print 1; self", "> 1\nstop NoSelf 2:10"),
    ("print print 1", "> 1\n> nil\ndone"),
    (
        r#"print str(nil) ++ str(true) ++ str(0 - 7) ++ str("t") ++ str(B.new)"#,
        "> niltrue-7t#<B>\ndone",
    ),
    (
        "print not nil; print not false; print not 0",
        "> true\n> true\n> false\ndone",
    ),
    (
        "print 2 + 3; print 2 - 3; print 4 * 5",
        "> 5\n> -1\n> 20\ndone",
    ),
    ("1 + nil", "stop NilValue 2:3"),
    ("nil + true", "stop NilValue 2:5"),
    ("true - nil", "stop NilValue 2:6"),
    ("true * 1", "stop BadOperand 2:6"),
    ("1 + true", "stop BadOperand 2:3"),
    ("9223372036854775807 + 1", "stop Overflow 2:21"),
    ("(0 - 9223372036854775807) - 2", "stop Overflow 2:27"),
    ("9223372036854775807 * 2", "stop Overflow 2:21"),
    (r#"print "a" ++ "b""#, "> ab\ndone"),
    ("1 ++ nil", "stop NilValue 2:3"),
    (r#"1 ++ "a""#, "stop BadOperand 2:3"),
    (r#""a" ++ 1"#, "stop BadOperand 2:5"),
    (
        r#"x = "a"; i = 0; while i < 10 do x = x ++ x; i = i + 1 end; print x == x ++ ""; x ++ "b""#,
        "> true\nstop LongText 2:82",
    ),
    (
        "print 1 < 2; print 2 < 1; print 1 < 1",
        "> true\n> false\n> false\ndone",
    ),
    ("nil < 1", "stop NilValue 2:5"),
    (r#""a" < "b""#, "stop BadOperand 2:5"),
    (
        r#"print nil == nil; print 1 == 1; print "a" == "b"; print true == false"#,
        "> true\n> true\n> false\n> false\ndone",
    ),
    (
        r#"print A.new == A.new; print A.new == B.new; print 1 == true; print nil == false"#,
        "> true\n> false\n> false\n> false\ndone",
    ),
    (
        "print if 1 then 2 else 3 end; print if nil then 2 end",
        "> 2\n> nil\ndone",
    ),
    ("print if false then 2 else 3; 4 end", "> 4\ndone"),
    (
        "i = 0; while i < 3 do i = i + 1; j = i end; print i + j",
        "> 6\ndone",
    ),
    ("print while false do 1 end", "> nil\ndone"),
    ("nil.m", "stop NilValue 2:5"),
    ("x = true; x.m(1)", "stop BadOperand 2:13"),
    ("A.new.m(1)", "stop NoBody 2:7"),
    ("def A.m(x) x end; A.new.m(1)", "stop NoType 2:25"),
    (
        "type A.m : (Int) -> Int; def A.m(x) x end; A.new.m(\"a\")",
        "stop BadArgs 2:50",
    ),
    (
        "type A.m : (Int) -> Int; def A.m(x) x end; A.new.m",
        "stop BadArgs 2:50",
    ),
    (
        "type A.m : (Int) -> Int; def A.m(x) true end; A.new.m(1)",
        "stop IllTyped 2:53 Result 2:42",
    ),
    (
        "type A.m : (Any) -> Any; def A.m(x) x end; print A.new.m(B.new)",
        "> #<B>\ndone",
    ),
    (
        "x = 1; type A.m : (Int) -> Int; def A.m(y) x = y; x + 1 end; print A.new.m(5); print x",
        "> 6\n> 1\ndone",
    ),
    ("print def A.m() 1 end", "> nil\ndone"),
    ("def A.(nil)() 1 end", "stop NilValue 2:1"),
    ("def A.(1)() 1 end", "stop BadOperand 2:1"),
    (r#"def A.("M")() 1 end"#, "stop BadName 2:1"),
    ("print type A.m : () -> Int", "> nil\ndone"),
    ("type A.(nil) : () -> Int", "stop NilValue 2:1"),
    ("type A.(A.new) : () -> Int", "stop BadOperand 2:1"),
    (r#"type A.("end") : () -> Int"#, "stop BadName 2:1"),
    (
        "print type? A.m : () -> Int; print type? A.m : () -> Int",
        "> true\n> true\ndone",
    ),
    ("type? A.(nil) : () -> Int", "stop NilValue 2:1"),
    ("type? A.(1) : () -> Int", "stop BadOperand 2:1"),
    (r#"type? A.("") : () -> Int"#, "stop BadName 2:1"),
    (
        "type A.m : () -> Any; def A.m() print type? A.m : () -> Int; type A.m : () -> Int end; A.new.m",
        "> false\nstop Busy 2:62",
    ),
];

// The lines of a report between the script's name and the counts.
fn inner(report: &str) -> Option<&str> {
    let (_, behind) = report.split_once('\n')?;
    let (lines, _) = behind.rsplit_once("\ncalls ")?;
    Some(lines)
}

#[test]
fn each_expression_has_its_value_and_its_stops(rt: HostRuntime) -> Result<(), Fail> {
    for (code, expected) in &CODE {
        let text = format!(in rt.alloc(); "class A; class B; script s\n{code}\nend\n")?;
        let report = reported(&rt, rt.alloc(), &text, STEPS, VERSIONS_MAX)?;
        assert_eq!(rt; inner(&report), Some(*expected), "{code}");
    }
    Ok(())
}

/// A program's text, the steps and the changes that it may take, and its report.
type Row = (&'static str, u32, u32, &'static str);

const GREETING: &str =
    "class A\nscript main\ntype A.hi : (Str) -> Str\ndef A.hi(x) \"hi \" ++ x end\nprint A.new.hi(\"bob\")\nend\n";

const BUSY: &str =
    "class A\nscript main\ntype A.g : () -> Int\ndef A.g() 1 end\ntype A.f : () -> Int\ndef A.f() type A.g : () -> Str; self.g end\nprint A.new.f\nend\n";

const ROWS: [Row; 33] = [
    ("", STEPS, VERSIONS_MAX, ""),
    (
        GREETING,
        STEPS,
        VERSIONS_MAX,
        "script main\n> hi bob\ndone\ncalls 1 own 0 shared 0 fresh 1\n",
    ),
    (
        GREETING,
        9,
        VERSIONS_MAX,
        "script main\n> hi bob\ndone\ncalls 1 own 0 shared 0 fresh 1\n",
    ),
    (
        GREETING,
        8,
        VERSIONS_MAX,
        "script main\nstop Steps 4:22\ncalls 1 own 0 shared 0 fresh 1\n",
    ),
    // A type that the body's check used is another one at the second call.
    (
        "class A\nscript main\ntype A.g : () -> Int\ndef A.g() 1 end\ntype A.f : () -> Int\ndef A.f() self.g end\nprint A.new.f\ntype A.g : () -> Str\nprint A.new.f\nend\n",
        STEPS,
        VERSIONS_MAX,
        "script main\n> 1\nstop IllTyped 9:13 Result 6:18\ncalls 3 own 0 shared 0 fresh 2\n",
    ),
    // A check is taken again until a type that it used or the definition is given again.
    (
        "class A\nscript main\ntype A.hi : (Str) -> Str\ndef A.hi(x) \"hi \" ++ x end\nprint A.new.hi(\"bob\")\nprint A.new.hi(\"bob\")\nend\n",
        STEPS,
        VERSIONS_MAX,
        "script main\n> hi bob\n> hi bob\ndone\ncalls 2 own 1 shared 0 fresh 1\n",
    ),
    (
        "class A\nscript main\ntype A.hi : (Str) -> Str\ndef A.hi(x) \"hi \" ++ x end\nprint A.new.hi(\"bob\")\ntype A.hi : (Str) -> Str\nprint A.new.hi(\"bob\")\nend\n",
        STEPS,
        VERSIONS_MAX,
        "script main\n> hi bob\n> hi bob\ndone\ncalls 2 own 0 shared 0 fresh 2\n",
    ),
    (
        "class A\nscript main\ntype A.hi : (Str) -> Str\ndef A.hi(x) \"hi \" ++ x end\nprint A.new.hi(\"bob\")\ndef A.hi(x) \"ho \" ++ x end\nprint A.new.hi(\"bob\")\nend\n",
        STEPS,
        VERSIONS_MAX,
        "script main\n> hi bob\n> ho bob\ndone\ncalls 2 own 0 shared 0 fresh 2\n",
    ),
    // A new definition of a method that a body calls leaves the check of the body.
    (
        "class A\nscript main\ntype A.g : () -> Int\ndef A.g() 1 end\ntype A.f : () -> Int\ndef A.f() self.g end\nprint A.new.f\ndef A.g() 2 end\nprint A.new.f\nend\n",
        STEPS,
        VERSIONS_MAX,
        "script main\n> 1\n> 2\ndone\ncalls 4 own 1 shared 0 fresh 3\n",
    ),
    // A type that a live frame uses stays.
    (
        BUSY,
        STEPS,
        VERSIONS_MAX,
        "script main\nstop Busy 6:11\ncalls 1 own 0 shared 0 fresh 1\n",
    ),
    (
        BUSY,
        STEPS,
        1,
        "script main\nstop Busy 6:11\ncalls 1 own 0 shared 0 fresh 1\n",
    ),
    (
        "class A\nscript main\ntype A.g : () -> Int\ndef A.g() 1 end\ntype A.f : () -> Int\ndef A.f() print type? A.g : () -> Str; self.g end\nprint A.new.f\nend\n",
        STEPS,
        VERSIONS_MAX,
        "script main\n> false\n> 1\ndone\ncalls 2 own 0 shared 0 fresh 2\n",
    ),
    // A type that was refused leaves the checks that used it.
    (
        "class A\nscript main\ntype A.g : () -> Int\ndef A.g() 1 end\ntype A.f : () -> Int\ndef A.f() print type? A.g : () -> Str; self.g end\nprint A.new.f\nprint A.new.f\nend\n",
        STEPS,
        VERSIONS_MAX,
        "script main\n> false\n> 1\n> false\n> 1\ndone\ncalls 4 own 2 shared 0 fresh 2\n",
    ),
    // Nil conforms to each type.
    (
        "class A\nclass B\nscript main\ntype A.f : (B) -> Int\ndef A.f(x) x.m end\ntype B.m : () -> Int\nprint A.new.f(nil)\nend\n",
        STEPS,
        VERSIONS_MAX,
        "script main\nstop NilValue 5:14\ncalls 1 own 0 shared 0 fresh 1\n",
    ),
    // A body calls a method that has a type and no body.
    (
        "class A\nscript main\ntype A.g : () -> Int\ntype A.f : () -> Int\ndef A.f() self.g end\nprint A.new.f\nend\n",
        STEPS,
        VERSIONS_MAX,
        "script main\nstop NoBody 5:16\ncalls 2 own 0 shared 0 fresh 1\n",
    ),
    (
        "class A\nscript main\ntype A.hi : (Str) -> Str\ndef A.hi(x) \"hi \" ++ x end\nprint A.new.hi(3)\nend\n",
        STEPS,
        VERSIONS_MAX,
        "script main\nstop BadArgs 5:13\ncalls 1 own 0 shared 0 fresh 0\n",
    ),
    (
        "class A\nscript main\ndef A.hi(x) \"hi \" ++ x end\nprint A.new.hi(\"bob\")\nend\n",
        STEPS,
        VERSIONS_MAX,
        "script main\nstop NoType 4:13\ncalls 1 own 0 shared 0 fresh 0\n",
    ),
    (
        "class A\nscript main\nA.new.hi(3)\nend\n",
        STEPS,
        VERSIONS_MAX,
        "script main\nstop NoBody 3:7\ncalls 1 own 0 shared 0 fresh 0\n",
    ),
    (
        "class A\nscript main\ntype A.(\"\") : () -> Int\nend\n",
        STEPS,
        VERSIONS_MAX,
        "script main\nstop BadName 3:1\ncalls 0 own 0 shared 0 fresh 0\n",
    ),
    (
        "class A\nscript main\ntype A.(\"9x\") : () -> Int\nend\n",
        STEPS,
        VERSIONS_MAX,
        "script main\nstop BadName 3:1\ncalls 0 own 0 shared 0 fresh 0\n",
    ),
    // The list of names is full: known names go on, and a new one does not.
    (
        "class A\nscript main\ni = 0\nwhile i < 1024 do\ndef A.(\"m\" ++ str(i))() 0 end\ni = i + 1\nend\ndef A.m0() 1 end\ndef A.n() 1 end\nend\n",
        STEPS,
        VERSIONS_MAX,
        "script main\nstop Full 9:1\ncalls 0 own 0 shared 0 fresh 0\n",
    ),
    (
        "class A\nscript main\ni = 0\nwhile i < 1024 do\ndef A.(\"m\" ++ str(i))() 0 end\ni = i + 1\nend\ntype A.n : () -> Int\nend\n",
        STEPS,
        VERSIONS_MAX,
        "script main\nstop Full 8:1\ncalls 0 own 0 shared 0 fresh 0\n",
    ),
    (
        "class A\nscript main\ni = 0\nwhile i < 1024 do\ndef A.(\"m\" ++ str(i))() 0 end\ni = i + 1\nend\ntype? A.n : () -> Int\nend\n",
        STEPS,
        VERSIONS_MAX,
        "script main\nstop Full 8:1\ncalls 0 own 0 shared 0 fresh 0\n",
    ),
    (
        "class A\nscript main\ni = 0\nwhile i < 1024 do\ndef A.(\"m\" ++ str(i))() 0 end\ni = i + 1\nend\nA.new.n\nend\n",
        STEPS,
        VERSIONS_MAX,
        "script main\nstop Full 8:7\ncalls 0 own 0 shared 0 fresh 0\n",
    ),
    // The check of the called body looks at one more name.
    (
        "class A\nscript main\ntype A.m0 : () -> Int\ndef A.m0() self.q end\ni = 1\nwhile i < 1024 do\ndef A.(\"m\" ++ str(i))() 0 end\ni = i + 1\nend\nA.new.m0\nend\n",
        STEPS,
        VERSIONS_MAX,
        "script main\nstop Full 10:7\ncalls 0 own 0 shared 0 fresh 0\n",
    ),
    // Arguments that do not fit come first: nothing is looked at.
    (
        "class A\nscript main\ntype A.m0 : () -> Int\ndef A.m0() self.q end\ni = 1\nwhile i < 1024 do\ndef A.(\"m\" ++ str(i))() 0 end\ni = i + 1\nend\nA.new.m0(1)\nend\n",
        STEPS,
        VERSIONS_MAX,
        "script main\nstop BadArgs 10:7\ncalls 1 own 0 shared 0 fresh 0\n",
    ),
    (
        "class A\nscript main\ntype A.g : () -> Int\ntype A.g : () -> Int\nend\n",
        STEPS,
        1,
        "script main\nstop Worn 4:1\ncalls 0 own 0 shared 0 fresh 0\n",
    ),
    (
        "class A\nscript main\ntype A.g : () -> Int\ntype? A.g : () -> Int\nend\n",
        STEPS,
        1,
        "script main\nstop Worn 4:1\ncalls 0 own 0 shared 0 fresh 0\n",
    ),
    (
        "class A\nscript main\ndef A.g() 1 end\ndef A.g() 1 end\nend\n",
        STEPS,
        1,
        "script main\nstop Worn 4:1\ncalls 0 own 0 shared 0 fresh 0\n",
    ),
    (
        "class A\nscript main\ntype A.f : () -> Int\ndef A.f() 9223372036854775807 + 1 end\nprint A.new.f\nend\n",
        STEPS,
        VERSIONS_MAX,
        "script main\nstop Overflow 4:31\ncalls 1 own 0 shared 0 fresh 1\n",
    ),
    // Each frame of a method that calls itself takes the check of the first, and there are at most 4,096.
    (
        "class A\nscript main\ntype A.f : (Int) -> Int\ndef A.f(n) if n == 0 then 0 else self.f(n - 1) end end\nprint A.new.f(4095)\nend\n",
        STEPS,
        VERSIONS_MAX,
        "script main\n> 0\ndone\ncalls 4096 own 4095 shared 0 fresh 1\n",
    ),
    (
        "class A\nscript main\ntype A.f : (Int) -> Int\ndef A.f(n) if n == 0 then 0 else self.f(n - 1) end end\nprint A.new.f(4096)\nend\n",
        STEPS,
        VERSIONS_MAX,
        "script main\nstop Deep 4:39\ncalls 4096 own 4095 shared 0 fresh 1\n",
    ),
    (
        "class A\nscript main\ntype A.f : (Bool) -> Int\ndef A.f(c) x = if c then 1 else \"a\" end; x + 1 end\nprint A.new.f(true)\nend\n",
        STEPS,
        VERSIONS_MAX,
        "script main\nstop IllTyped 5:13 Operand 4:44\ncalls 1 own 0 shared 0 fresh 0\n",
    ),
];

#[test]
fn programs_have_their_reports(rt: HostRuntime) -> Result<(), Fail> {
    for (text, steps, versions, expected) in &ROWS {
        let report = reported(&rt, rt.alloc(), text, *steps, *versions)?;
        assert_eq!(rt; report.as_str(), *expected, "{text}");
    }
    Ok(())
}

#[test]
fn a_script_prints_so_many_bytes(rt: HostRuntime) -> Result<(), Fail> {
    let lines =
        "x = \"a\"; i = 1; while i < 1021 do x = x ++ \"a\"; i = i + 1 end\ni = 0; while i < 1024 do print x; i = i + 1 end";
    for (more, end) in [("", "done"), ("print nil", "stop OutputFull 4:1")] {
        let text = format!(in rt.alloc(); "script s\n{lines}\n{more}\nend\n")?;
        let report = reported(&rt, rt.alloc(), &text, STEPS, VERSIONS_MAX)?;
        let tail = format!(in rt.alloc(); "a\n{end}\ncalls 0 own 0 shared 0 fresh 0\n")?;
        assert_eq!(rt; report.len(), 9 + 1_048_576 + tail.len() - 2);
        assert!(rt; report.ends_with(tail.as_str()));
    }
    Ok(())
}

// A run that is told by hand.
fn told(alloc: Global, caller: u8, outcome: Outcome, own: u32, shared: u32) -> ScriptRun {
    ScriptRun {
        caller: CallerId(caller),
        outcome,
        output: Vec::new(alloc),
        calls: 7,
        own,
        shared,
        fresh: 1,
        journal: None,
    }
}

#[test]
fn each_run_has_its_section(rt: HostRuntime) -> Result<(), Fail> {
    let program = read(&rt, rt.alloc(), b"setup 1 end script a end script b end");
    let runs = [
        told(rt.alloc(), 0, Outcome::Done(Value::Nil), 2, 0),
        told(
            rt.alloc(),
            2,
            Outcome::Stopped(Stop::Steps, NodeId(0)),
            0,
            3,
        ),
    ];
    let report = report(rt.alloc(), &program, &runs)?;
    let expected =
        "setup\ndone\ncalls 7 own 2 shared 0 fresh 1\nscript b\nstop Steps 1:7\ncalls 7 own 0 shared 3 fresh 1\n";
    assert_eq!(rt; report.as_slice(), expected.as_bytes());
    assert!(rt; all_done(&runs[..1]) && !all_done(&runs));
    Ok(())
}

/// A definition that two scripts check, each at its second turn, and one that the second script alone checks.
const CHECKED: &str =
    "class A\nclass B\nsetup\ndef A.f() 1 end\ntype A.f : () -> Int\ndef B.g() 2 end\ntype B.g : () -> Int\nend\nscript a\nA.new.f\nend\nscript b\nB.new.g\nA.new.f\nend\n";

// The classes of the derivations that the scripts' checks give by this order.
fn classes_by(rt: &impl Abort, alloc: Global, order: &[CallerId]) -> Result<Vec<u8>, Fail> {
    let program = read(rt, alloc, CHECKED.as_bytes());
    let mut share = Share::Collect(Vec::new(alloc));
    run_ordered(alloc, &program, order, STEPS, 1, &mut share)?;
    let mut classes = Vec::new(alloc);
    if let Share::Collect(made) = &share {
        for derivation in made {
            classes.push(derivation.class.0)?;
        }
    }
    Ok(classes)
}

#[test]
fn checks_are_collected_in_the_order_of_the_history(rt: HostRuntime) -> Result<(), Fail> {
    let first = classes_by(&rt, rt.alloc(), &[])?;
    assert_eq!(rt; first.as_slice(), [0, 1, 0].as_slice());
    let second = classes_by(
        &rt,
        rt.alloc(),
        &[CallerId(2), CallerId(2), CallerId(2), CallerId(1)],
    )?;
    assert_eq!(rt; second.as_slice(), [1, 0, 0].as_slice());
    Ok(())
}
