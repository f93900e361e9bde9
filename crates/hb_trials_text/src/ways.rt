//! Ways through the grammar.

use hb_grammar::Action::{self, *};
use hb_grammar::{Course, Step, Wanted};
use hb_lex::lex;
use std::alloc::AllocError;
use std::test::Fail;

/// Texts, and where their tokens stop to begin a program, with what is wanted there.
const TEXTS: [(&[u8], Option<(usize, Wanted)>); 40] = [
    (b"", None),
    (b";;\n# nothing", None),
    (
        b"class A class B; setup end script s end script t end",
        None,
    ),
    (b"class A\nscript main", Some((5, Wanted::End))),
    (b"class 5", Some((1, Wanted::ClassName))),
    (b"class A setup script", Some((3, Wanted::End))),
    (b"class A end", Some((2, Wanted::Item))),
    (b"script s end setup end", Some((3, Wanted::Item))),
    (b"script s end\nclass A", Some((4, Wanted::Item))),
    (b"script S", Some((1, Wanted::Name))),
    (b"script s 1 2", Some((3, Wanted::End))),
    (b"script s x = y = print not z end", None),
    (b"script s x + y = 1 end", Some((5, Wanted::End))),
    (b"script s 1 < 2 < 3 end", Some((5, Wanted::End))),
    (b"script s 1 + not 2 * not 3 == a ++ b - c end", None),
    (b"script s not ) end", Some((3, Wanted::Expression))),
    (b"script s 1 + end", Some((4, Wanted::Expression))),
    (b"script s x = end", Some((4, Wanted::Expression))),
    (b"script s print print x end", None),
    (b"script s 1 + print x end", Some((4, Wanted::Expression))),
    (b"script s (1 + 2 end", Some((6, Wanted::Close))),
    (b"script s str 1 end", Some((3, Wanted::Open))),
    (b"script s if a then b; c else d end end", None),
    (b"script s if a; b then", Some((4, Wanted::Then))),
    (
        b"script s if a then b else c else d end",
        Some((8, Wanted::End)),
    ),
    (b"script s while a then", Some((4, Wanted::Do))),
    (b"script s while a do end end", None),
    (b"script s A.new.m.n(1, x, (2)).m() end", None),
    (b"script s A.m", Some((4, Wanted::New))),
    (b"script s A end", Some((3, Wanted::Dot))),
    (b"script s x.1", Some((4, Wanted::Name))),
    (b"script s x.m(1 2", Some((7, Wanted::Close))),
    (b"script s x.m(1,)", Some((8, Wanted::Expression))),
    (
        b"script s def A.m(a, b) x end; def B.(\"m\")() end end",
        None,
    ),
    (b"script s def A.m x", Some((6, Wanted::Open))),
    (b"script s def A.m(1", Some((7, Wanted::Close))),
    (
        b"script s type A.m : (A, Nil) -> Any; type? A.(x) : () -> Str end",
        None,
    ),
    (b"script s type A.m ()", Some((6, Wanted::Colon))),
    (b"script s type A.m : () Str", Some((9, Wanted::Arrow))),
    (b"script s type A.m : () -> 5", Some((10, Wanted::TypeWord))),
];

/// Where a way ends: where its tokens stop to begin a program, with what is wanted there, if they do.
fn end_of(mut course: Course) -> Result<Option<(usize, Wanted)>, AllocError> {
    for _ in 0..u64::MAX {
        match course.next_step()? {
            Step::Act(_) => {}
            Step::Done => break,
            Step::Missed(wanted) => return Ok(Some((course.read(), wanted))),
        }
    }
    Ok(None)
}

#[test]
fn texts_are_programs_or_miss_something(rt: HostRuntime) -> Result<(), Fail> {
    for (text, want) in TEXTS {
        assert!(rt; text.len() < 100);
        let tokens = lex(rt.alloc(), text).expect(&rt, "tokens");
        let course = Course::new(rt.alloc(), tokens.as_slice())?;
        assert_eq!(rt; end_of(course)?, want, "at {text:?}");
    }
    Ok(())
}

/// Texts, and their actions, each with the number of tokens that were read before it.
const ACTIONS: [(&[u8], &[(Action, usize)]); 2] = [
    (
        b"script s x = not 1 end",
        &[
            (BeginScript, 2),
            (BeginBlock, 2),
            (HoldName, 3),
            (OpenAssign, 4),
            (OpenWord, 5),
            (PutNumber, 6),
            (PutNot, 6),
            (PutAssign, 6),
            (AddItem, 6),
            (EndBlock, 7),
            (EndScript, 7),
        ],
    ),
    (
        b"script s if a then b.m(1) else end end",
        &[
            (BeginScript, 2),
            (BeginBlock, 2),
            (OpenWord, 3),
            (HoldName, 4),
            (PutVariable, 4),
            (BeginBlock, 5),
            (HoldName, 6),
            (PutVariable, 6),
            (HoldCall, 8),
            (Open, 9),
            (PutNumber, 10),
            (AddArgument, 10),
            (Close, 11),
            (PutCall, 11),
            (AddItem, 11),
            (EndBlock, 12),
            (BeginBlock, 12),
            (EndBlock, 13),
            (PutIf, 13),
            (AddItem, 13),
            (EndBlock, 14),
            (EndScript, 14),
        ],
    ),
];

#[test]
fn actions_come_in_order(rt: HostRuntime) -> Result<(), Fail> {
    for (text, actions) in ACTIONS {
        assert!(rt; text.len() < 100);
        let tokens = lex(rt.alloc(), text).expect(&rt, "tokens");
        let mut course = Course::new(rt.alloc(), tokens.as_slice())?;
        for &(action, read) in actions {
            assert_eq!(rt; course.next_step()?, Step::Act(action));
            assert_eq!(rt; course.read(), read);
        }
        assert_eq!(rt; course.next_step()?, Step::Done);
    }
    Ok(())
}

#[test]
fn deep_texts_take_no_stack(rt: HostRuntime) -> Result<(), Fail> {
    let mut text = b"script s ".to_vec(rt.alloc())?;
    for _ in 0..100_000 {
        text.push(b'(')?;
    }
    assert!(rt; text.len() < 200_000);
    let tokens = lex(rt.alloc(), &text).expect(&rt, "tokens");
    let course = Course::new(rt.alloc(), tokens.as_slice())?;
    assert_eq!(rt; end_of(course)?, Some((100_002, Wanted::Expression)));
    Ok(())
}
