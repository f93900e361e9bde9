//! Gates that keep callers back for a while.

use hb_threads::{Gate, Point};
use hb_types::ids::CallerId;
use std::sync::atomic::{AtomicU64, Ordering};

/// How often a caller that waits looks whether it may go on, at most.
const LOOKS_MAX: u32 = 100_000_000;

/// Something that happens once, for which others wait a bounded time.
#[derive(Drop)]
pub struct Flag {
    raised: AtomicU64,
}

impl Flag {
    pub fn new() -> Flag {
        Flag {
            raised: AtomicU64::new(0),
        }
    }

    pub fn raise(&self) {
        self.raised.store(1, Ordering::SeqCst);
    }

    pub fn is_raised(&self) -> bool {
        self.raised.load(Ordering::SeqCst) == 1
    }

    // Waits until it is raised, or as long as anyone waits. The answer is whether it was raised.
    fn wait(&self) -> bool {
        for _ in 0..LOOKS_MAX {
            if self.is_raised() {
                return true;
            }
        }
        false
    }
}

/// Keeps one caller before its first call until another is about to make so many calls.
#[derive(Drop)]
pub struct LateGate {
    pub late: CallerId,
    pub early: CallerId,
    pub number: u32,
    pub reached: Flag,
    /// The late caller waited for nothing.
    pub gave_up: Flag,
}

impl Gate for LateGate {
    fn before(&self, caller: CallerId, number: u32, _point: Point) {
        if caller == self.early && number == self.number {
            self.reached.raise();
        }
        if caller == self.late && number == 1 && !self.reached.wait() {
            self.gave_up.raise();
        }
    }
}

/// Lets the callers 1 and 2 make the call of this number only once both are about to.
#[derive(Drop)]
pub struct MeetingGate {
    pub number: u32,
    pub first: Flag,
    pub second: Flag,
    /// One of them waited for nothing.
    pub gave_up: Flag,
}

impl Gate for MeetingGate {
    fn before(&self, caller: CallerId, number: u32, _point: Point) {
        if number != self.number {
            return;
        }
        if caller == CallerId(1) {
            self.first.raise();
            if !self.second.wait() {
                self.gave_up.raise();
            }
        }
        if caller == CallerId(2) {
            self.second.raise();
            if !self.first.wait() {
                self.gave_up.raise();
            }
        }
    }
}
