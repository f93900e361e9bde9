//! Names and their keys.

use hb_names::{NAMES_MAX, NameFail, Names, PlainNames};
use hb_types::ids::{ClassId, KeyId};
use std::alloc::Global;

#[test]
fn each_pair_has_its_key(rt: HostRuntime) {
    let cases = [
        (0, *b"hi", 0),
        (0, *b"hi", 0),
        (1, *b"hi", 1),
        (0, *b"ho", 2),
        (1, *b"hi", 1),
        (0, *b"hi", 0),
    ];
    let mut names = PlainNames::new(rt.alloc());
    for (class, name, key) in cases {
        let given = names.key(rt.alloc(), ClassId(class), &name);
        assert_eq!(rt; given, Ok(KeyId(key)), "{class} {name:?}");
        if let Ok(given) = given {
            assert_eq!(rt; names.name_of(given), (ClassId(class), name.as_slice()));
        }
    }
    assert_eq!(rt; names.into_list().len(), 3);
}

#[test]
fn the_last_key_is_given_and_then_no_new_one(rt: HostRuntime) {
    let mut names = PlainNames::new(rt.alloc());
    let count = NAMES_MAX as u16;
    for number in 0..count {
        assert_eq!(rt;
            key_of(&mut names, rt.alloc(), 0, number),
            Ok(KeyId(number))
        );
    }
    let cases = [
        (0, count, Err(NameFail::Full)),
        (1, 0, Err(NameFail::Full)),
        (0, count - 1, Ok(KeyId(count - 1))),
        (0, 0, Ok(KeyId(0))),
    ];
    for (class, number, want) in cases {
        let given = key_of(&mut names, rt.alloc(), class, number);
        assert_eq!(rt; given, want, "{class} {number}");
    }
    assert_eq!(rt; names.into_list().len(), NAMES_MAX);
}

fn key_of<N: Names>(
    names: &mut N,
    alloc: Global,
    class: u8,
    number: u16,
) -> Result<KeyId, NameFail> {
    names.key(alloc, ClassId(class), &number.to_be_bytes())
}
