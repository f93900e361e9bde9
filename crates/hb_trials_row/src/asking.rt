//! Seats that ask for names, each by a door or each in a thread of its own.

ghost use Rattle.std.specs.Prelude.{◌≡◌, ◌<◌, ◌≤◌, length, slice_index_or, IfOk};
ghost use Rattle.hb_row.specs.declared.seat.NameSeat.{NameSeat};
ghost use Rattle.hb_row.specs.Seats.{IsSeatOf, IsGathered};
ghost use Rattle.hb_trials_row.specs.Asking.{AreSeatsOf, IsStill, HaveMade};

use hb_names::{NAME_BYTES_MAX, NameFail, NameList, Names};
use hb_row::{NameDoor, NameRow, NameSeat};
use hb_types::ids::{ClassId, KeyId};
use std::alloc::{AllocError, Global};
use std::thread::{Threads, for_each_mut};

/// How a seat goes through the numbers whose names it asks for.
#[derive(Clone, Copy)]
pub enum Order {
    Rising,
    Falling,
}

/// Asks a row for one name.
pub fn ask_one(
    row: &NameRow,
    seat: &mut NameSeat,
    alloc: Global,
    class: ClassId,
    name: &[u8],
) -> Result<KeyId, NameFail>
    requires seat { IsSeatOf row.now.table.shared.table_id seat.old }
    requires some { 0 < length name.now }
    requires short { length name.now ≤ NAME_BYTES_MAX }
    ensures seat { IsStill row.now.table.shared.table_id seat.old seat.new }
{
    let mut door = NameDoor::new(row, seat);
    door.key(alloc, class, name)
}

/// Asks for the names of a class that are the numbers below a count, whoever gives the keys.
pub fn ask_numbers<N: Names>(
    names: &mut N,
    alloc: Global,
    class: ClassId,
    count: u16,
    order: Order,
) -> Result<(), NameFail>
    ensures alike { N.alike names.old names.new }
{
    for step in 0..count {
        let number = match order {
            Order::Rising => step,
            Order::Falling => count - 1 - step,
        };
        names.key(alloc, class, &number.to_be_bytes())?;
    }
    Ok(())
}

/// The same of a row, by a seat.
pub fn ask_row(
    row: &NameRow,
    seat: &mut NameSeat,
    alloc: Global,
    class: ClassId,
    count: u16,
    order: Order,
) -> Result<(), NameFail>
    requires { IsSeatOf row.now.table.shared.table_id seat.old }
    ensures { IsStill row.now.table.shared.table_id seat.old seat.new }
{
    let mut door = NameDoor::new(row, seat);
    ask_numbers(&mut door, alloc, class, count, order)
}

// Asks for names that every seat asks for, and for as many as `own` that are this seat's alone. Every second seat goes the other way.
fn ask_shared_and_own(
    row: &NameRow,
    seat: &mut NameSeat,
    alloc: Global,
    at: usize,
    shared: u16,
    own: u16,
)
    requires { IsSeatOf row.now.table.shared.table_id seat.old }
    ensures { IsStill row.now.table.shared.table_id seat.old seat.new }
{
    let order = if at % 2 == 0 {
        Order::Rising
    } else {
        Order::Falling
    };
    let class = ClassId((at % 17) as u8 + 1);
    let _ = ask_row(row, seat, alloc, ClassId(0), shared, order);
    let _ = ask_row(row, seat, alloc, class, own, order);
}

// Each seat asks in a thread of its own.
fn ask_all<R: Threads + Sync>(
    rt: &R,
    row: &NameRow,
    seats: &mut [NameSeat],
    alloc: Global,
    shared: u16,
    own: u16,
)
    requires { AreSeatsOf row.now.table.shared.table_id seats.old }
    ensures seats { AreSeatsOf row.now.table.shared.table_id seats.new }
    ensures count { length seats.new ≡ length seats.old }
    ensures made { HaveMade seats.old seats.new }
{
    for_each_mut(
        rt,
        seats,
        17,
        &|at: usize, seat: &mut NameSeat|
            requires { IsSeatOf row.now.table.shared.table_id seat.now }
            ensures { IsStill row.entry.now.table.shared.table_id seat.entry.now seat.exit.now }
        {
            ask_shared_and_own(row, seat, alloc, at, shared, own);
        },
    );
}

/// Each seat of a vector asks in a thread of its own: for the names that are shared, and for its own.
pub fn ask_each<R: Threads + Sync>(
    rt: &R,
    row: &NameRow,
    mut seats: Vec<NameSeat>,
    alloc: Global,
    shared: u16,
    own: u16,
) -> Vec<NameSeat>
    requires { AreSeatsOf row.now.table.shared.table_id seats.items }
    ensures seats { AreSeatsOf row.now.table.shared.table_id result.items }
    ensures count { length result.items ≡ length seats.items }
    ensures made { HaveMade seats.items result.items }
{
    ask_all(rt, row, seats.as_mut_slice(), alloc, shared, own);
    seats
}

/// All seats of a row are put together.
pub fn gather_all(row: NameRow, mut seats: Vec<NameSeat>) -> Result<NameList, AllocError>
    requires seats { AreSeatsOf row.table.shared.table_id seats.items }
    requires all { (first : NameSeat) → (slice_index_or seats.items 0 first).made ≡ length seats.items }
    requires some_seat { 0 < length seats.items }
    ensures { IfOk result (λ list. IsGathered seats.items list) }
{
    let first = seats.remove(0);
    row.gather(first, seats)
}
