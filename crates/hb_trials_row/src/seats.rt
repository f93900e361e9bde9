//! Seats of a row in one thread.

use crate::asking::{Order, ask_one, ask_row};
use hb_names::{NAMES_MAX, NameFail, Names};
use hb_row::{NameDoor, NameRow};
use hb_types::ids::{ClassId, KeyId};

#[test]
fn two_seats_in_opposite_orders_agree_on_keys(rt: HostRuntime) {
    let Ok((row, mut first)) = NameRow::make(rt.alloc()) else {
        return;
    };
    let mut second = row.fork(&mut first);
    let (one, two, three, four, five) = (
        (0, *b"aa", 0),
        (1, *b"aa", 4),
        (0, *b"ab", 2),
        (7, *b"cc", 3),
        (2, *b"aa", 1),
    );
    let steps = [
        (one, five),
        (three, four),
        (two, three),
        (four, two),
        (five, one),
    ];
    for (rising, falling) in steps {
        let (class, name, key) = rising;
        let given = ask_one(&row, &mut first, rt.alloc(), ClassId(class), &name);
        assert_eq!(rt; given, Ok(KeyId(key)), "{class} {name:?}");
        let (class, name, key) = falling;
        let given = ask_one(&row, &mut second, rt.alloc(), ClassId(class), &name);
        assert_eq!(rt; given, Ok(KeyId(key)), "{class} {name:?}");
    }
}

#[test]
fn the_last_key_is_given_and_then_no_new_one(rt: HostRuntime) {
    let Ok((row, mut first)) = NameRow::make(rt.alloc()) else {
        return;
    };
    let mut second = row.fork(&mut first);
    let count = NAMES_MAX as u16;
    let filled = ask_row(
        &row,
        &mut first,
        rt.alloc(),
        ClassId(0),
        count,
        Order::Rising,
    );
    assert_eq!(rt; filled, Ok(()));
    let more = ask_row(
        &row,
        &mut second,
        rt.alloc(),
        ClassId(0),
        count + 1,
        Order::Rising,
    );
    assert_eq!(rt; more, Err(NameFail::Full));
    let mut door = NameDoor::new(&row, &mut second);
    let cases = [
        (0, 0, Ok(KeyId(0))),
        (0, count - 1, Ok(KeyId(count - 1))),
        (0, count, Err(NameFail::Full)),
        (1, 0, Err(NameFail::Full)),
    ];
    for (class, number, want) in cases {
        let given = door.key(rt.alloc(), ClassId(class), &number.to_be_bytes());
        assert_eq!(rt; given, want, "{class} {number}");
    }
}

#[test]
fn names_of_each_length_are_read_whole(rt: HostRuntime) {
    let Ok((row, mut first)) = NameRow::make(rt.alloc()) else {
        return;
    };
    let mut second = row.fork(&mut first);
    let name = b"abcdefghijklmnopqrstuvwxyzABCDEFGHIJKLMNOPQRSTUVWXYZ0123456789_?";
    let mut door = NameDoor::new(&row, &mut first);
    for length in 1..65 {
        let given = door.key(rt.alloc(), ClassId(255), &name[..length]);
        assert_eq!(rt; given, Ok(KeyId(length as u16 - 1)));
    }
    let mut other = NameDoor::new(&row, &mut second);
    for length in 1..65 {
        let given = other.key(rt.alloc(), ClassId(255), &name[..length]);
        assert_eq!(rt; given, Ok(KeyId(length as u16 - 1)));
        if let Ok(key) = given {
            assert_eq!(rt; other.name_of(key), (ClassId(255), &name[..length]));
        }
    }
}
