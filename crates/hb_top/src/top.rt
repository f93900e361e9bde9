//! The top call: all that the program does, over any source and sink.

ghost use Rattle.std.specs.Prelude.{◌≡◌, ◌≤◌, ℕ, List, Option, Err, IfOk, OnErr, length};
ghost use Rattle.std.specs.Io.KnownBytes.{Keeps};
ghost use Rattle.std.specs.Option.{option_map};
ghost use Rattle.hb_io.specs.Causes.{Rose};
ghost use Rattle.hb_jobs.specs.Given.{texts};
ghost use Rattle.hb_jobs.specs.Jobs.{Options, Wanted, job_of, options_told, told};
ghost use Rattle.hb_tree.specs.Table.{Table};
ghost use Rattle.hb_top.specs.Answers.{Answers, Ends, IsDeriveOf, IsDueFor, IsOne, IsOutcomeOf, IsReport, IsRunOf, Reads};
ghost use Rattle.hb_top.specs.Complete.{IsComplete};
ghost use Rattle.hb_top.specs.Outcomes.{IsDueBy, IsDueFrom, Outcome};
ghost use Rattle.hb_top.specs.Reports.{AreFixed, IsReported};

use crate::derive::derive;
use crate::due::{Due, Ending, Stop};
use crate::reports::report_of_program;
use crate::sources::{bytes_of, too_long};
use crate::texts::{Reading, read_text};
use crate::verify::verify;
use crate::work::{generated_due, work};
use hb_deriv::laws::programs_derivation_derives;
use hb_io::{Sink, Source, write_all_of};
use hb_jobs::{Job, RunOptions, job_asked};
use hb_ordered::laws::an_order_has_one_history;
use hb_threads::Gate;
use std::alloc::Global;
use std::thread::Threads;

/// The bytes of a text, at most.
pub const LIMIT: u32 = 1_048_576;

const MEMORY: u8 = 3;

const READ_FAULT: u8 = 4;

const WRITE_FAULT: u8 = 5;

// What a text within the limit comes to.
fn run_text<R: Threads + Sync, G: Gate + Sync>(
    rt: &R,
    alloc: Global,
    text: &[u8],
    options: &RunOptions,
    gate: &G,
) -> Result<Due, Stop>
    requires { length text.now ≤ LIMIT }
    ensures due { IfOk result (λ due. IsDueBy (IsReport (options_told options.now) text.now) (length text.now) due) }
    ensures memory { OnErr result (result ≡ Err Stop.Memory) }
{
    let reading = read_text(alloc, text)?;
    match reading {
        Reading::Program(program) => report_of_program(rt, alloc, &program, options, gate),
        Reading::Refused(due) => Ok(due),
    }
}

// Reads a text to its end, and runs it.
fn run<R: Threads + Sync, S: Source, G: Gate + Sync>(
    rt: &R,
    alloc: Global,
    source: &mut S,
    options: &RunOptions,
    gate: &G,
) -> Result<Due, Stop>
    ensures due { IfOk result (IsDueFrom (IsOutcomeOf (IsRunOf (options_told options.now)) (S.left source.old)) (S.left source.old) (S.left source.new)) }
    ensures fault { result ≡ Err Stop.Fault → Rose (S.faults source.old) (S.faults source.new) }
    ensures later { S.faults source.old ≤ S.faults source.new }
{
    let text = bytes_of(alloc, source, LIMIT)?;
    match text {
        Some(text) => run_text(rt, alloc, text.as_slice(), options, gate),
        None => too_long(alloc),
    }
}

// What is due for the job, or for words that ask for none.
fn due_for<R: Threads + Sync, S: Source, G: Gate + Sync>(
    rt: &R,
    alloc: Global,
    job: &Option<Job>,
    source: &mut S,
    gate: &G,
) -> Result<Due, Stop>
    ensures due { IfOk result (IsDueFrom (IsDueFor (option_map told job.now) (S.left source.old)) (S.left source.old) (S.left source.new)) }
    ensures fault { result ≡ Err Stop.Fault
        → Rose (S.faults source.old) (S.faults source.new) × Reads (option_map told job.now) }
    ensures unread { (Reads (option_map told job.now) → ⊥) → Keeps (S.left source.old) (S.left source.new) }
    ensures later { S.faults source.old ≤ S.faults source.new }
{
    match job {
        None => Ok(Due::new(alloc, Ending::WordsRefused, "words refused\n")?),
        Some(Job::Run(options)) => run(rt, alloc, source, options, gate),
        Some(Job::Derive) => derive(alloc, source),
        Some(Job::Verify) => verify(alloc, source),
        Some(Job::Gen(size)) => generated_due(alloc, size),
        Some(Job::Work(size)) => work(rt, alloc, size, gate),
    }
}

/// A text that is refused has one outcome, and so has one with an order, or of one script at most: its report and its trace.
pub fn one_due()
    ensures { (options : Options) (text : List ℕ) (a b : Outcome) → IsRunOf options text a → IsRunOf options text b → IsOne options text a b }
{
    hb_lex::one_answer();
    hb_parse::one_answer();
    hb_parse::one_program();
    one_report();
}

/// With an order a program has one report and one trace, and so has one of one script without an order.
pub fn one_report()
    ensures { (t : Table) (options : Options) (len : ℕ) (a b : Outcome) → AreFixed t options.order → IsReported t options len a → IsReported t options len b → a ≡ b }
{
    an_order_has_one_history();
}

/// A text has one bundle: one line of its fault, or one list of derivations, since an order fixes which calls were checked and against which types.
pub fn one_bundle()
    ensures { (text : List ℕ) (a b : Outcome) → IsDeriveOf text a → IsDeriveOf text b → a ≡ b }
{
    hb_lex::one_answer();
    hb_parse::one_answer();
    hb_parse::one_program();
    one_report();
    an_order_has_one_history();
    programs_derivation_derives();
}

/// Where the words ask for a job, what it goes by has no fault and no count of faults rose, each answer but want of memory is that of what is due: 0, or 6.
pub fn complete()
    ensures { (asked : Option Wanted) (old new : Ends) (answer : ℕ) → Answers asked old new answer → IsComplete asked old new answer }
{
    hb_lex::one_answer();
    hb_parse::one_answer();
    hb_parse::one_program();
    one_report();
}

// The job that the words ask for is done.
fn answer<'a, R: Threads + Sync, S: Source, K: Sink, G: Gate + Sync>(
    rt: &R,
    alloc: Global,
    words: &'a [&'a str],
    source: &mut S,
    out: &mut K,
    gate: &G,
) -> u8
    ensures { let old : Ends = record {
      left = S.left source.old;
      read_faults = S.faults source.old;
      held = K.held out.old;
      write_faults = K.faults out.old;
    } in
        let new : Ends = record {
          left = S.left source.new;
          read_faults = S.faults source.new;
          held = K.held out.new;
          write_faults = K.faults out.new;
        } in
        Answers (job_of (texts words.entry.now)) old new result }
{
    let job = match job_asked(alloc, words) {
        Ok(job) => job,
        Err(_) => return MEMORY,
    };
    let due = match due_for(rt, alloc, &job, source, gate) {
        Ok(due) => due,
        Err(Stop::Fault) => return READ_FAULT,
        Err(Stop::Memory) => return MEMORY,
    };
    match write_all_of(out, due.text.as_slice()) {
        Ok(()) => due.ending.status(),
        Err(_) => WRITE_FAULT,
    }
}

/// All that the program does: takes the words after its name, a source and a sink, and answers the
/// exit status. Scripts that no order gives turns run at once, and each of their table calls passes
/// the gate.
///
/// 0 and 6 say that the text was run to its end or stopped, 1 that it was refused, 2 that the words
/// were, 3 that memory ran out, 4 that the source failed and 5 that the sink did.
pub fn hbird<'a, R: Threads + Sync, S: Source, K: Sink, G: Gate + Sync>(
    rt: &R,
    alloc: Global,
    words: &'a [&'a str],
    source: &mut S,
    out: &mut K,
    gate: &G,
) -> u8
    ensures one_due { (options : Options) (text : List ℕ) (a b : Outcome) → IsRunOf options text a → IsRunOf options text b → IsOne options text a b }
    ensures one_report { (t : Table) (options : Options) (len : ℕ) (a b : Outcome) → AreFixed t options.order → IsReported t options len a → IsReported t options len b → a ≡ b }
    ensures one_bundle { (text : List ℕ) (a b : Outcome) → IsDeriveOf text a → IsDeriveOf text b → a ≡ b }
    ensures answers { let old : Ends = record {
      left = S.left source.old;
      read_faults = S.faults source.old;
      held = K.held out.old;
      write_faults = K.faults out.old;
    } in
        let new : Ends = record {
          left = S.left source.new;
          read_faults = S.faults source.new;
          held = K.held out.new;
          write_faults = K.faults out.new;
        } in
        Answers (job_of (texts words.entry.now)) old new result }
    ensures complete { let old : Ends = record {
      left = S.left source.old;
      read_faults = S.faults source.old;
      held = K.held out.old;
      write_faults = K.faults out.old;
    } in
        let new : Ends = record {
          left = S.left source.new;
          read_faults = S.faults source.new;
          held = K.held out.new;
          write_faults = K.faults out.new;
        } in
        IsComplete (job_of (texts words.entry.now)) old new result }
{
    one_due();
    one_report();
    one_bundle();
    complete();
    answer(rt, alloc, words, source, out, gate)
}
