//! Reports of scripts that ran at once. The order of their calls is never the same: what is asked is that each report is
//! one that some order gives.

use crate::gates::{Flag, LateGate, MeetingGate};
use crate::texts::{
    CHANGED, CHANGED_REPORTS, CROSSED, CROSSED_REPORTS, DEFINED, DEFINED_BEFORE, STOPPED,
    STOPPED_REPORT,
};
use hb_fronts::CallerOptions;
use hb_lex::lex;
use hb_parse::parse;
use hb_report::report;
use hb_tables::entry::VERSIONS_MAX;
use hb_threads::{Gate, OpenGate, run_program};
use hb_tree::program::Program;
use hb_types::ids::{CallerId, KeyId};
use std::alloc::Global;
use std::process::Abort;
use std::test::Fail;
use std::thread::Threads;

const OPTIONS: CallerOptions = CallerOptions {
    steps: 100_000,
    keep_journal: true,
};

/// A type word without the pins is a multiple of it.
const PINS: u64 = 16_777_216;

// The program of a text.
fn read(rt: &impl Abort, alloc: Global, text: &[u8]) -> Program {
    assert!(rt; text.len() < 1_000_000);
    let tokens = lex(alloc, text).expect(rt, "tokens");
    parse(alloc, text, &tokens).expect(rt, "a program")
}

// The report of a text whose scripts run at once. No call holds the first key at the end.
fn reported<R: Threads + Abort + Sync, G: Gate + Sync>(
    rt: &R,
    alloc: Global,
    text: &[u8],
    gate: &G,
) -> Result<String, Fail> {
    let prog = read(rt, alloc, text);
    let ran = run_program(rt, alloc, &prog, VERSIONS_MAX, OPTIONS, gate)?;
    assert_eq!(rt; ran.closed.type_word(KeyId(0)) % PINS, 0);
    let bytes = report(alloc, &prog, &ran.runs)?;
    Ok(String::from_utf8(bytes)?)
}

// Whether the report is one of these.
fn is_among(told: &str, legal: &[&str]) -> bool {
    for one in legal {
        if *one == told {
            return true;
        }
    }
    false
}

// Runs a text so often, and compares each report with those that may come.
fn has_these_reports<R: Threads + Abort + Sync>(
    rt: &R,
    alloc: Global,
    text: &[u8],
    legal: &[&str],
    times: u32,
) -> Result<(), Fail> {
    for _ in 0..times {
        let told = reported(rt, alloc, text, &OpenGate)?;
        assert!(rt; is_among(&told, legal), "{told}");
    }
    Ok(())
}

#[test]
fn a_type_is_changed_or_in_use(rt: HostRuntime) -> Result<(), Fail> {
    has_these_reports(&rt, rt.alloc(), CHANGED, &CHANGED_REPORTS, 200)
}

#[test]
fn one_script_at_most_is_too_early(rt: HostRuntime) -> Result<(), Fail> {
    has_these_reports(&rt, rt.alloc(), CROSSED, &CROSSED_REPORTS, 100)
}

#[test]
fn no_script_runs_behind_a_setup_that_stopped(rt: HostRuntime) -> Result<(), Fail> {
    has_these_reports(&rt, rt.alloc(), STOPPED, &[STOPPED_REPORT], 1)
}

#[test]
fn a_script_waits_at_its_gate_for_another(rt: HostRuntime) -> Result<(), Fail> {
    for _ in 0..50 {
        let gate = LateGate {
            late: CallerId(1),
            early: CallerId(2),
            number: 2,
            reached: Flag::new(),
            gave_up: Flag::new(),
        };
        let told = reported(&rt, rt.alloc(), DEFINED, &gate)?;
        assert!(rt; !gate.gave_up.is_raised());
        assert_eq!(rt; told.as_str(), DEFINED_BEFORE);
    }
    Ok(())
}

// Each script is past its definition before the other calls it, which no run of one script behind the other can do.
#[test]
fn scripts_meet_between_their_calls(rt: HostRuntime) -> Result<(), Fail> {
    for _ in 0..20 {
        let gate = MeetingGate {
            number: 3,
            first: Flag::new(),
            second: Flag::new(),
            gave_up: Flag::new(),
        };
        let told = reported(&rt, rt.alloc(), CROSSED, &gate)?;
        assert!(rt; !gate.gave_up.is_raised());
        assert_eq!(rt; told.as_str(), CROSSED_REPORTS[0]);
    }
    Ok(())
}

// Sixteen scripts, of which each has a method of its own.
#[test]
fn sixteen_scripts_without_a_shared_method_have_one_report(rt: HostRuntime) -> Result<(), Fail> {
    let alloc = rt.alloc();
    let mut text = String::new(alloc);
    let mut expected = String::new(alloc);
    text.push_str("class A\n")?;
    for name in "abcdefghijklmnop".chars() {
        text.push_str(&format!(in alloc;
            "script {name}\ntype A.{name} : () -> Int\ndef A.{name}() 3 end\nprint A.new.{name}\nend\n"
        )?)?;
        expected.push_str(&format!(in alloc;
            "script {name}\n> 3\ndone\ncalls 1 own 0 shared 0 fresh 1\n"
        )?)?;
    }
    has_these_reports(&rt, alloc, text.as_bytes(), &[expected.as_str()], 20)
}
