//! Values at the edges of what they may be.

ghost use Rattle.std.specs.Prelude.{◌≤◌};

use hb_eval::arguments::kinds;
use hb_eval::operators::{on_ints, operate};
use hb_eval::printed::{OUTPUT_MAX, print};
use hb_eval::spelling::is_name;
use hb_eval::stop::{Fail, Stop};
use hb_eval::text::Text;
use hb_eval::value::Value;
use hb_tree::node::Op;
use hb_types::types::Ty;
use std::alloc::{AllocError, Global};

// The number, where the answer is one.
fn number(answer: Result<Value, Stop>) -> Result<Option<i64>, Stop> {
    match answer {
        Ok(Value::Int(number)) => Ok(Some(number)),
        Ok(_) => Ok(None),
        Err(stop) => Err(stop),
    }
}

#[test]
fn numbers_have_64_bits(rt: HostRuntime) {
    let cases = [
        (Op::Add, i64::MAX, 1, Err(Stop::Overflow)),
        (Op::Add, 2, -5, Ok(Some(-3))),
        (Op::Sub, i64::MIN, 1, Err(Stop::Overflow)),
        (Op::Sub, 2, -5, Ok(Some(7))),
        (Op::Mul, i64::MIN, -1, Err(Stop::Overflow)),
        (Op::Mul, -4, 6, Ok(Some(-24))),
        (Op::Concat, 1, 2, Err(Stop::BadOperand)),
        (Op::Less, 1, 2, Ok(None)),
    ];
    for (op, x, y, expected) in cases {
        assert_eq!(rt; number(on_ints(op, x, y)), expected, "{x} {op:?} {y}");
    }
}

// A text of so many bytes.
fn long_text(alloc: Global, count: usize) -> Result<Value, AllocError>
    requires { count ≤ 1024 }
{
    let bytes = vec![in alloc; b'a'; count]?;
    Ok(Value::Str(Text::new(alloc, bytes)?))
}

#[test]
fn texts_have_1024_bytes(rt: HostRuntime) -> Result<(), AllocError> {
    let cases = [(24, None), (25, Some(Fail::Stopped(Stop::LongText)))];
    for (count, expected) in cases {
        let (left, right) = (long_text(rt.alloc(), 1000)?, long_text(rt.alloc(), count)?);
        let answer = operate(rt.alloc(), Op::Concat, &left, &right);
        assert_eq!(rt; answer.err(), expected, "{count}");
    }
    Ok(())
}

#[test]
fn names_are_spelled(rt: HostRuntime) {
    let cases: [(&str, bool); 8] = [
        ("a", true),
        ("_9", true),
        ("ends", true),
        ("end", false),
        ("9x", false),
        ("A", false),
        ("a b", false),
        ("", false),
    ];
    for (name, expected) in cases {
        assert_eq!(rt; is_name(name.as_bytes()), expected, "{name}");
    }
}

#[test]
fn output_has_room_to_the_last_byte(rt: HostRuntime) -> Result<(), AllocError> {
    let cases = [(4, Ok(())), (3, Err(Fail::Stopped(Stop::OutputFull)))];
    for (room, expected) in cases {
        let mut output = vec![in rt.alloc(); b' '; OUTPUT_MAX - room]?;
        assert_eq!(rt; print(&mut output, b"a"), expected, "{room}");
    }
    Ok(())
}

#[test]
fn arguments_have_kinds(rt: HostRuntime) {
    let kinds = kinds(&[Value::Nil, Value::Int(1), Value::Bool(true)]);
    assert_eq!(rt; kinds.count, 3);
    assert_eq!(rt; kinds.kinds, [Ty::Nil, Ty::Int, Ty::Bool, Ty::Nil]);
}
