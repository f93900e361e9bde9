//! Calls that take a check which their script made before, decided by hand.

ghost use Rattle.std.specs.Prelude.{◌≤◌, length, OnOk};
ghost use Rattle.hb_trials.specs.Desks.{IsReady};

use crate::counted::CountedNames;
use crate::desks::verdict;
use crate::hands::{BOTH, CALLER, Change, NO_ARGUMENT, make_change, make_changes, method};
use crate::texts::read;
use hb_cache::Cache;
use hb_call::Share;
use hb_names::{Names, PlainNames};
use hb_tables::desk::Desk;
use hb_tables::entry::{By, VERSIONS_MAX, Verdict};
use hb_tables::plain::PlainTables;
use hb_tree::program::Program;
use std::alloc::Global;
use std::process::Abort;
use std::test::Fail;

/// A method, one that calls it, and one that has no part in that.
const TEXT: &[u8] = b"class A
script main
type A.g : () -> Int
def A.g() 1 end
type A.f : () -> Int
def A.f() self.g end
type A.h : () -> Int
end
";

// How the method that calls the other one is entered.
fn way<D: Desk, N: Names>(
    rt: &impl Abort,
    alloc: Global,
    prog: &Program,
    desk: &mut D,
    names: &mut N,
    cache: &mut Cache,
    share: &mut Share,
) -> Result<By, Fail>
    requires { IsReady prog.now (N.known names.old) (N.asked names.old) (D.fixed desk.old) (D.front desk.old) cache.old }
    ensures { OnOk result (IsReady prog.now (N.known names.new) (N.asked names.new) (D.fixed desk.new) (D.front desk.new) cache.new) }
{
    let f = method(rt, prog, 1);
    let verdict = verdict(alloc, prog, f, NO_ARGUMENT, desk, names, cache, share)?;
    let Verdict::Enter(way) = verdict else {
        panic!(rt; "{verdict:?}");
    };
    Ok(way)
}

// How it is entered, and once more then.
fn twice<D: Desk, N: Names>(
    rt: &impl Abort,
    alloc: Global,
    prog: &Program,
    desk: &mut D,
    names: &mut N,
    cache: &mut Cache,
) -> Result<[By; 2], Fail>
    requires { IsReady prog.now (N.known names.old) (N.asked names.old) (D.fixed desk.old) (D.front desk.old) cache.old }
    ensures { OnOk result (IsReady prog.now (N.known names.new) (N.asked names.new) (D.fixed desk.new) (D.front desk.new) cache.new) }
{
    let mut share = Share::Off;
    let first = way(rt, alloc, prog, desk, names, cache, &mut share)?;
    let second = way(rt, alloc, prog, desk, names, cache, &mut share)?;
    Ok([first, second])
}

#[test]
fn no_check_is_taken_that_the_caller_made_before_its_machine_began(
    rt: HostRuntime,
) -> Result<(), Fail> {
    let alloc = rt.alloc();
    let prog = read(&rt, alloc, TEXT);
    let mut tables = PlainTables::new(alloc, VERSIONS_MAX)?;
    let mut desk = tables.desk(CALLER);
    let mut names = PlainNames::new(alloc);
    let mut before = Cache::new(alloc);
    make_changes(&rt, alloc, &prog, &BOTH, &mut desk, &mut names, &mut before)?;
    let first = twice(&rt, alloc, &prog, &mut desk, &mut names, &mut before)?;
    let mut behind = Cache::new(alloc);
    let second = twice(&rt, alloc, &prog, &mut desk, &mut names, &mut behind)?;
    assert_eq!(rt; [first, second], [[By::Fresh, By::Own]; 2]);
    Ok(())
}

#[test]
fn a_kept_check_asks_for_the_called_name_alone(rt: HostRuntime) -> Result<(), Fail> {
    let alloc = rt.alloc();
    let prog = read(&rt, alloc, TEXT);
    let mut tables = PlainTables::new(alloc, VERSIONS_MAX)?;
    let mut desk = tables.desk(CALLER);
    let mut names = CountedNames::new(alloc);
    let mut cache = Cache::new(alloc);
    make_changes(&rt, alloc, &prog, &BOTH, &mut desk, &mut names, &mut cache)?;
    let before = names.questions();
    let first = way(
        &rt,
        alloc,
        &prog,
        &mut desk,
        &mut names,
        &mut cache,
        &mut Share::Off,
    )?;
    let between = names.questions();
    let second = way(
        &rt,
        alloc,
        &prog,
        &mut desk,
        &mut names,
        &mut cache,
        &mut Share::Off,
    )?;
    let behind = names.questions();
    assert_eq!(rt; (first, between.checked_sub(before)), (By::Fresh, Some(2)));
    assert_eq!(rt; (second, behind.checked_sub(between)), (By::Own, Some(1)));
    Ok(())
}

/// Changes, and whether a check of the method that calls the other one stays.
const CHANGES: [(Change, bool); 5] = [
    (Change::Type(0), false),
    (Change::Type(1), false),
    (Change::Def(1), false),
    (Change::Def(0), true),
    (Change::Type(2), true),
];

// How the method is entered behind these changes, and once more then, where a first call comes before the change of this
// place.
fn ways(
    rt: &impl Abort,
    alloc: Global,
    prog: &Program,
    changes: &[Change],
    place: usize,
) -> Result<[By; 2], Fail>
    requires { place ≤ length changes.now }
{
    let mut tables = PlainTables::new(alloc, VERSIONS_MAX)?;
    let mut desk = tables.desk(CALLER);
    let mut names = PlainNames::new(alloc);
    let mut cache = Cache::new(alloc);
    let mut share = Share::Off;
    let (before, behind) = changes.split_at(place);
    make_changes(rt, alloc, prog, &BOTH, &mut desk, &mut names, &mut cache)?;
    make_changes(rt, alloc, prog, before, &mut desk, &mut names, &mut cache)?;
    way(
        rt, alloc, prog, &mut desk, &mut names, &mut cache, &mut share,
    )?;
    make_changes(rt, alloc, prog, behind, &mut desk, &mut names, &mut cache)?;
    let first = way(
        rt, alloc, prog, &mut desk, &mut names, &mut cache, &mut share,
    )?;
    let second = way(
        rt, alloc, prog, &mut desk, &mut names, &mut cache, &mut share,
    )?;
    Ok([first, second])
}

#[test]
fn a_check_is_kept_until_its_definition_or_a_type_of_it_changes(
    rt: HostRuntime,
) -> Result<(), Fail> {
    let prog = read(&rt, rt.alloc(), TEXT);
    // Each order of three changes, and each place of the first call among them.
    for number in 0..500_usize {
        let place = number % 4;
        let rows = [
            CHANGES[number / 4 % 5],
            CHANGES[number / 20 % 5],
            CHANGES[number / 100],
        ];
        let changes = rows.map(|(change, _)| change);
        let stays = rows[place..].iter().all(|(_, stays)| *stays);
        let found = ways(&rt, rt.alloc(), &prog, &changes, place)?;
        let expected = if stays { By::Own } else { By::Fresh };
        assert_eq!(rt; found, [expected, By::Own], "{changes:?} {place}");
    }
    Ok(())
}

// How many derivations were collected, where any are.
fn collected(share: &Share) -> Option<usize> {
    match share {
        Share::Off => None,
        Share::Collect(made) => Some(made.len()),
    }
}

// How many derivations are collected behind a fresh call, and one that takes its check.
fn collected_on<D: Desk, N: Names>(
    rt: &impl Abort,
    alloc: Global,
    prog: &Program,
    desk: &mut D,
    names: &mut N,
    cache: &mut Cache,
    share: &mut Share,
) -> Result<Option<usize>, Fail>
    requires { IsReady prog.now (N.known names.old) (N.asked names.old) (D.fixed desk.old) (D.front desk.old) cache.old }
    ensures { OnOk result (IsReady prog.now (N.known names.new) (N.asked names.new) (D.fixed desk.new) (D.front desk.new) cache.new) }
{
    make_change(rt, alloc, prog, Change::Type(1), desk, names, cache)?;
    let first = way(rt, alloc, prog, desk, names, cache, share)?;
    let second = way(rt, alloc, prog, desk, names, cache, share)?;
    assert_eq!(rt; [first, second], [By::Fresh, By::Own]);
    Ok(collected(share))
}

// The same for so many fresh calls.
fn collected_by<D: Desk, N: Names>(
    rt: &impl Abort,
    alloc: Global,
    prog: &Program,
    calls: u32,
    desk: &mut D,
    names: &mut N,
    cache: &mut Cache,
    share: &mut Share,
) -> Result<Vec<Option<usize>>, Fail>
    requires { IsReady prog.now (N.known names.old) (N.asked names.old) (D.fixed desk.old) (D.front desk.old) cache.old }
{
    let mut counts = Vec::new(alloc);
    for _ in 0..calls {
        counts.push(collected_on(rt, alloc, prog, desk, names, cache, share)?)?;
    }
    Ok(counts)
}

// The same for the calls of a script that begins.
fn counts(
    rt: &impl Abort,
    alloc: Global,
    prog: &Program,
    calls: u32,
    share: &mut Share,
) -> Result<Vec<Option<usize>>, Fail> {
    let mut tables = PlainTables::new(alloc, VERSIONS_MAX)?;
    let mut desk = tables.desk(CALLER);
    let mut names = PlainNames::new(alloc);
    let mut cache = Cache::new(alloc);
    make_changes(rt, alloc, prog, &BOTH, &mut desk, &mut names, &mut cache)?;
    collected_by(
        rt, alloc, prog, calls, &mut desk, &mut names, &mut cache, share,
    )
}

#[test]
fn the_first_fresh_checks_are_collected(rt: HostRuntime) -> Result<(), Fail> {
    let prog = read(&rt, rt.alloc(), TEXT);
    let mut share = Share::Collect(Vec::new(rt.alloc()));
    let found = counts(&rt, rt.alloc(), &prog, 66, &mut share)?;
    let expected = (1..=66_usize)
        .map(|count| Some(count.min(64)))
        .collect::<Vec<Option<usize>>>(rt.alloc())?;
    assert_eq!(rt; found.as_slice(), expected.as_slice());
    let found = counts(&rt, rt.alloc(), &prog, 2, &mut Share::Off)?;
    assert_eq!(rt; found.as_slice(), [None, None].as_slice());
    Ok(())
}
