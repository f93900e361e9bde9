//! What is due for a job whose bytes are in hand, with no thread: scripts that no order gives turns run one after another.

ghost use Rattle.std.specs.Prelude.{◌≡◌, ◌≤◌, Err, IfOk, OnErr, Some, length};
ghost use Rattle.std.specs.Option.{option_map};
ghost use Rattle.hb_jobs.specs.Jobs.{options_told, told};
ghost use Rattle.hb_top.specs.Answers.{IsDeriveOf, IsDueFor, IsReport, IsRunOf, IsVerifyOf};
ghost use Rattle.hb_top.specs.Outcomes.{IsDueBy, IsDueOf};

use crate::derive::derive_text;
use crate::due::{Due, Ending, Stop};
use crate::reports::report_by_turns;
use crate::sources::too_long;
use crate::texts::{Reading, read_text};
use crate::top::LIMIT;
use crate::verify::{BUNDLE_LIMIT, verify_bundle};
use crate::work::{generated_due, work_by_turns};
use hb_jobs::{Job, RunOptions};
use std::alloc::Global;

// What a text within the limit comes to.
fn run_text(alloc: Global, text: &[u8], options: &RunOptions) -> Result<Due, Stop>
    requires { length text.now ≤ LIMIT }
    ensures due { IfOk result (IsDueBy (IsReport (options_told options.now) text.now) (length text.now)) }
    ensures memory { OnErr result (result ≡ Err Stop.Memory) }
{
    let reading = read_text(alloc, text)?;
    match reading {
        Reading::Program(program) => report_by_turns(alloc, &program, options),
        Reading::Refused(due) => Ok(due),
    }
}

fn run(alloc: Global, text: &[u8], options: &RunOptions) -> Result<Due, Stop>
    ensures due { IfOk result (IsDueOf (IsRunOf (options_told options.now) text.now)) }
    ensures memory { OnErr result (result ≡ Err Stop.Memory) }
{
    if text.len() > LIMIT as usize {
        too_long(alloc)
    } else {
        run_text(alloc, text, options)
    }
}

fn derive(alloc: Global, text: &[u8]) -> Result<Due, Stop>
    ensures due { IfOk result (IsDueOf (IsDeriveOf text.now)) }
    ensures memory { OnErr result (result ≡ Err Stop.Memory) }
{
    if text.len() > LIMIT as usize {
        too_long(alloc)
    } else {
        derive_text(alloc, text)
    }
}

fn verify(alloc: Global, bytes: &[u8]) -> Result<Due, Stop>
    ensures due { IfOk result (IsDueOf (IsVerifyOf bytes.now)) }
    ensures memory { OnErr result (result ≡ Err Stop.Memory) }
{
    if bytes.len() > BUNDLE_LIMIT as usize {
        too_long(alloc)
    } else {
        verify_bundle(alloc, bytes)
    }
}

/// What is due for a job, or for words that ask for none, on these bytes.
pub fn due_in_turns(alloc: Global, job: &Option<Job>, bytes: &[u8]) -> Result<Due, Stop>
    ensures due { IfOk result (IsDueOf (IsDueFor (option_map told job.now) (Some bytes.now))) }
    ensures memory { OnErr result (result ≡ Err Stop.Memory) }
{
    match job {
        None => Ok(Due::new(alloc, Ending::WordsRefused, "words refused\n")?),
        Some(Job::Run(options)) => run(alloc, bytes, options),
        Some(Job::Derive) => derive(alloc, bytes),
        Some(Job::Verify) => verify(alloc, bytes),
        Some(Job::Gen(size)) => generated_due(alloc, size),
        Some(Job::Work(size)) => work_by_turns(alloc, size),
    }
}
