//! Seats of a row in threads of their own.

use crate::asking::{ask_each, gather_all};
use hb_row::NameRow;
use std::alloc::{AllocError, Global};
use std::thread::Threads;

// How many names a row has after two seats asked for the same.
fn count_of_two<R: Threads + Sync>(rt: &R, alloc: Global) -> Result<usize, AllocError> {
    let (row, mut first) = NameRow::make(alloc)?;
    let second = row.fork(&mut first);
    let seats = Vec::from_array(alloc, [first, second])?;
    let seats = ask_each(rt, &row, seats, alloc, 500, 0);
    let list = gather_all(row, seats)?;
    Ok(list.len())
}

// How many names a row has after four seats asked for 125 that are shared and for 125 of their own.
fn count_of_four<R: Threads + Sync>(rt: &R, alloc: Global) -> Result<usize, AllocError> {
    let (row, mut first) = NameRow::make(alloc)?;
    let second = row.fork(&mut first);
    let third = row.fork(&mut first);
    let fourth = row.fork(&mut first);
    let seats = Vec::from_array(alloc, [first, second, third, fourth])?;
    let seats = ask_each(rt, &row, seats, alloc, 125, 125);
    let list = gather_all(row, seats)?;
    Ok(list.len())
}

#[test]
fn two_threads_in_opposite_orders_share_the_names(rt: HostRuntime) {
    assert_eq!(rt; count_of_two(&rt, rt.alloc()), Ok(500));
}

#[test]
fn four_threads_share_half_of_their_names_each_time(rt: HostRuntime) {
    for run in 0..20 {
        assert_eq!(rt; count_of_four(&rt, rt.alloc()), Ok(625), "run {run}");
    }
}
