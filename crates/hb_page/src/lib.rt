//! The program for a page: words and bytes in, a status and bytes out, with no thread.
#![tactic(auto)]

ghost use Rattle.std.specs.Prelude.{◌≡◌, ◌≢◌, ◌≤◌, IfOk, Some, length, take};
ghost use Rattle.std.specs.Option.{option_map};
ghost use Rattle.std.specs.Str.Lines.{lines};
ghost use Rattle.hb_jobs.specs.Given.{texts};
ghost use Rattle.hb_jobs.specs.Jobs.{told};
ghost use Rattle.hb_top.specs.Answers.{IsDueFor};
ghost use Rattle.hb_top.specs.Outcomes.{IsDueOf, Outcome, status_of};
ghost use Rattle.hb_page.specs.Words.{job_in};
ghost use Rattle.hb_page.specs.declared.TheConstants.{NO_MEMORY};

use hb_jobs::{Job, job_asked};
use hb_top::due::{Due, Stop};
use hb_top::in_turns::due_in_turns;
use std::alloc::{AllocError, Global};

const NO_MEMORY: u32 = 3;

// The lines of a text.
fn lines_of<'a>(alloc: Global, text: &'a str) -> Result<Vec<&'a str>, AllocError>
    ensures { IfOk result (λ words. texts words.items ≡ lines text.now) }
{
    text.lines().collect(alloc)
}

// The job that the lines of a text ask for, or none.
fn job_in(alloc: Global, words: &[u8]) -> Result<Option<Job>, AllocError>
    ensures { IfOk result (λ job. option_map told job ≡ job_in words.now) }
{
    let Ok(text) = std::str::from_utf8(words) else {
        return Ok(None);
    };
    let lines = lines_of(alloc, text)?;
    job_asked(alloc, &lines)
}

// What is due for the job that the words ask for.
fn due_for(alloc: Global, words: &[u8], bytes: &[u8]) -> Result<Due, Stop>
    ensures { IfOk result (IsDueOf (IsDueFor (job_in words.now) (Some bytes.now))) }
{
    let job = job_in(alloc, words)?;
    due_in_turns(alloc, &job, bytes)
}

/// Does the job for which the words ask, one a line, on the bytes in place of a source, and answers the status. The text
/// that is due stands at the front of `out` where it has room, and its length in `len`. With 3 memory ran out.
/// (docs/ARCHITECTURE.md, "The page")
#[unsafe(no_mangle)]
pub extern "C" fn hb_page_run(
    alloc: Global,
    words: &[u8],
    bytes: &[u8],
    out: &mut [u8],
    len: &mut usize,
) -> u32
    ensures due { result ≢ NO_MEMORY → (o : Outcome) × IsDueFor (job_in words.now) (Some bytes.now) o × (result ≡ status_of o.ending)
        × (len.new ≡ length o.text)
        × (length o.text ≤ length out.old → take (length o.text) out.new ≡ o.text) }
{
    match due_for(alloc, words, bytes) {
        Ok(due) => {
            let said = due.text.as_slice();
            *len = said.len();
            if said.len() <= out.len() {
                out[..said.len()].copy_from_slice(said);
            }
            u32::from(due.ending.status())
        }
        Err(_) => NO_MEMORY,
    }
}
