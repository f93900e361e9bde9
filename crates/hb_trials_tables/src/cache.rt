//! Checks that are kept, and the changes that drop them.

use hb_cache::{Cache, Kept, Seen};
use hb_deriv::raw::{Derivation, Used};
use hb_types::ids::{BodySite, ClassId, KeyId, NameId, TypeSite};
use std::alloc::{AllocError, Global};
use std::test::Fail;

/// A change of a type or a definition.
#[derive(Clone, Copy, Debug)]
enum Change {
    Type(u16),
    Def(u16),
}

/// What is done to a cache.
#[derive(Clone, Copy, Debug)]
enum Act {
    /// Puts a check of this key and body that used two types.
    Put(u16, u16, [u16; 2]),
    Change(Change),
}

// A check of this key and body, which used the types of these keys.
fn check(alloc: Global, key: u16, body: u16, uses: [u16; 2]) -> Result<Kept, AllocError> {
    let seen = |key| Seen {
        key: KeyId(key),
        site: Some(TypeSite(key)),
        changes: 1,
    };
    let used = |key: u16| Used {
        class: ClassId(0),
        name: NameId(u32::from(key)),
        site: TypeSite(key),
    };
    let [first, second] = uses;
    Ok(Kept {
        key: KeyId(key),
        changes: 1,
        counts: vec![in alloc; seen(first), seen(second)]?,
        derivation: Derivation {
            class: ClassId(0),
            body: BodySite(body),
            declared: TypeSite(key),
            uses: vec![in alloc; used(first), used(second)]?,
            steps: Vec::new(alloc),
        },
    })
}

fn apply(cache: &mut Cache, change: Change) {
    match change {
        Change::Type(key) => cache.drop_type(KeyId(key)),
        Change::Def(key) => cache.drop_def(KeyId(key)),
    }
}

// Whether a check of this body is kept for the key.
fn has(cache: &Cache, key: u16, body: u16) -> bool {
    match cache.find(KeyId(key), BodySite(body)) {
        Some(kept) => kept.key == KeyId(key),
        None => false,
    }
}

#[test]
fn a_check_is_found_under_its_key_and_body(rt: HostRuntime) -> Result<(), Fail> {
    let mut cache = Cache::new(rt.alloc());
    assert_eq!(rt; cache.width(KeyId(3)), 0);
    cache.put(rt.alloc(), check(rt.alloc(), 3, 30, [1, 9])?)?;
    let rows = [
        (3, 30, true),
        (3, 31, false),
        (1, 30, false),
        (9, 30, false),
        (u16::MAX, 30, false),
    ];
    for (key, body, expected) in rows {
        assert_eq!(rt; has(&cache, key, body), expected, "{key} {body}");
    }
    let widths = [(3, 2), (1, 0), (u16::MAX, 0)];
    for (key, width) in widths {
        assert_eq!(rt; cache.width(KeyId(key)), width, "{key}");
    }
    Ok(())
}

/// The changes round a check of the key 2 that used the types of 1 and 5, and whether it stays.
const CHANGES: [(Change, bool); 6] = [
    (Change::Type(2), false),
    (Change::Type(1), false),
    (Change::Type(5), false),
    (Change::Def(2), false),
    (Change::Type(3), true),
    (Change::Def(1), true),
];

#[test]
fn a_check_stays_until_a_change_that_it_rests_on(rt: HostRuntime) -> Result<(), Fail> {
    let count = CHANGES.len();
    for order in 0..count * count * count {
        let mut cache = Cache::new(rt.alloc());
        cache.put(rt.alloc(), check(rt.alloc(), 2, 20, [1, 5])?)?;
        let mut stays = true;
        for place in [
            order % count,
            order / count % count,
            order / count / count % count,
        ] {
            let (next, harmless) = CHANGES[place];
            apply(&mut cache, next);
            stays = stays && harmless;
            assert_eq!(rt; has(&cache, 2, 20), stays, "{order} {next:?}");
        }
    }
    Ok(())
}

#[test]
fn checks_come_and_go(rt: HostRuntime) -> Result<(), Fail> {
    // The bodies of what is kept for the keys 1, 2 and 3, and 0 for nothing.
    let rows = [
        (Act::Put(1, 10, [2, 3]), [10, 0, 0]),
        (Act::Put(2, 20, [2, 3]), [10, 20, 0]),
        // It replaces the key's own, which used 2.
        (Act::Put(1, 11, [3, 4]), [11, 20, 0]),
        (Act::Put(3, 30, [1, 1]), [11, 20, 30]),
        // Only what is kept now counts: 1 was registered at 2, and uses it no longer.
        (Act::Change(Change::Type(2)), [11, 0, 30]),
        (Act::Put(2, 21, [4, 4]), [11, 21, 30]),
        (Act::Put(2, 22, [4, 1]), [11, 22, 30]),
        (Act::Change(Change::Def(4)), [11, 22, 30]),
        (Act::Change(Change::Type(4)), [0, 0, 30]),
        (Act::Put(1, 12, [4, 2]), [12, 0, 30]),
        (Act::Change(Change::Def(3)), [12, 0, 0]),
        (Act::Change(Change::Type(4)), [0, 0, 0]),
    ];
    let mut cache = Cache::new(rt.alloc());
    for (act, bodies) in rows {
        match act {
            Act::Put(key, body, uses) => cache.put(
                rt.alloc(),
                check(rt.alloc(), key, body, uses)?,
            )?,
            Act::Change(next) => apply(&mut cache, next),
        }
        let [first, second, third] = bodies;
        for (key, body) in [(1, first), (2, second), (3, third)] {
            let is_kept = has(&cache, key, body);
            assert_eq!(rt; is_kept, body != 0, "{act:?} {key}");
        }
    }
    Ok(())
}
