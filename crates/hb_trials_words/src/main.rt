//! Tables without a lock, tried: single calls by hand, and callers in threads. No part stands on these tests, so none is
//! proved again for them. As a program it does what bench/measure-words measures: with the words `WHAT CALLERS TIMES`
//! so many callers do a thing so often, each in a thread of its own; without words it does nothing.
#![tactic(auto)]

mod calls;
#[cfg(test)]
mod contending;
#[cfg(test)]
mod rows;
mod threads;

use std::rt::Env;
use threads::{Task, measure};

fn number(word: Option<String>) -> Option<u32> {
    word?.as_str().parse::<u32>().ok()
}

// What is to be done, by how many callers, and how often.
fn asked(rt: &(impl Env + AllocGlobal)) -> Option<(Task, u32, u32)> {
    let mut words = std::env::args(rt).ok()?.skip(1);
    let task = match words.next()?.as_str() {
        "visit" => Task::Visit,
        "look" => Task::Look,
        _ => return None,
    };
    Some((task, number(words.next())?, number(words.next())?))
}

fn main(rt: HostRuntime) {
    if let Some((task, callers, times)) = asked(&rt) {
        let _ = measure(&rt, rt.alloc(), task, callers, times);
    }
}
