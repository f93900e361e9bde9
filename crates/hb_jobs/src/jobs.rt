//! The job that the words ask for.

ghost use Rattle.std.specs.Prelude.{◌≡◌, ◌≤◌, option_map, map, IfOk, IfSome};
ghost use Rattle.hb_jobs.specs.Given.{texts};
ghost use Rattle.hb_jobs.specs.Jobs.{alone_in, is_named, is_plain, job_by, job_of, number_or, options_in, options_told, order_in, run_in, size_in, steps_in, told};

use crate::command::WordsFail;
use crate::given::{GivenWords, given_words};
use crate::numbers::number_in;
use crate::options::{CHANGES_MAX, Job, RunOptions, STEPS_MAX, STEPS_SEEN_MAX, STEPS_USUAL, Size};
use crate::orders;
use hb_gen::NUMBER_MAX;
use hb_types::ids::CallerId;
use std::alloc::{AllocError, Global};

// A number that the words give, or the usual one.
fn number_or(text: Option<&str>, usual: u32, most: u32) -> Option<u32>
    requires { (1 ≤ usual) × (usual ≤ most) }
    ensures value { result ≡ number_or usual 1 most (option_map (λ s. s.now) text.entry) }
    ensures range { IfSome result (λ n. (1 ≤ n) × (n ≤ most)) }
{
    match text {
        None => Some(usual),
        Some(text) => number_in(text, 1, most),
    }
}

// The steps of a script. They are fewer where its acts are to be seen, or its turns are ordered.
fn steps_in(seen: bool, text: Option<&str>) -> Option<u32>
    ensures { result ≡ steps_in seen (option_map (λ s. s.now) text.entry) }
{
    if seen {
        number_or(text, STEPS_SEEN_MAX, STEPS_SEEN_MAX)
    } else {
        number_or(text, STEPS_USUAL, STEPS_MAX)
    }
}

// The options of a run whose order is this.
fn options_with(order: Option<Vec<CallerId>>, given: &GivenWords<'_>) -> Option<RunOptions>
    ensures { option_map options_told result ≡ options_in (Some (option_map (λ order. map (λ c. c.0) order.items) order)) given.now.trace (option_map (λ s. s.now) given.now.steps) (option_map (λ s. s.now) given.now.versions) }
{
    let steps = steps_in(given.trace || order.is_some(), given.steps)?;
    let changes = number_or(given.versions, CHANGES_MAX, CHANGES_MAX)?;
    Some(RunOptions {
        order,
        trace: given.trace,
        steps,
        changes,
    })
}

// How the words say that a text is to run.
fn options_given(alloc: Global, given: &GivenWords<'_>) -> Result<Option<RunOptions>, AllocError>
    ensures { IfOk result (λ options. option_map options_told options ≡ options_in (order_in (option_map (λ s. s.now) given.now.order)) given.now.trace (option_map (λ s. s.now) given.now.steps) (option_map (λ s. s.now) given.now.versions)) }
{
    match given.order {
        None => Ok(options_with(None, given)),
        Some(text) => match orders::order_in(alloc, text)? {
            None => Ok(None),
            Some(order) => Ok(options_with(Some(order), given)),
        },
    }
}

// What a run is asked for, which takes no number.
fn run_asked(alloc: Global, given: &GivenWords<'_>) -> Result<Option<Job>, AllocError>
    ensures { IfOk result (λ job. option_map told job ≡ run_in (option_map (λ s. s.now) given.now.number) (options_in (order_in (option_map (λ s. s.now) given.now.order)) given.now.trace (option_map (λ s. s.now) given.now.steps) (option_map (λ s. s.now) given.now.versions))) }
{
    if given.number.is_some() {
        return Ok(None);
    }
    match options_given(alloc, given)? {
        None => Ok(None),
        Some(options) => Ok(Some(Job::Run(options))),
    }
}

// Whether no option is given.
fn is_plain(given: &GivenWords<'_>) -> bool
    ensures { result ≡ is_plain (option_map (λ s. s.now) given.now.order) (option_map (λ s. s.now) given.now.steps) (option_map (λ s. s.now) given.now.versions) given.now.trace }
{
    given.order.is_none() && given.steps.is_none() && given.versions.is_none() && !given.trace
}

// The job of a command that stands alone, without a number and an option.
fn alone(given: &GivenWords<'_>, job: Job) -> Option<Job>
    ensures { option_map told result ≡ alone_in (is_plain (option_map (λ s. s.now) given.now.order) (option_map (λ s. s.now) given.now.steps) (option_map (λ s. s.now) given.now.versions) given.now.trace) (option_map (λ s. s.now) given.now.number) (told job) }
{
    if is_plain(given) && given.number.is_none() {
        Some(job)
    } else {
        None
    }
}

// The size that a command is given, and no option.
fn size_given(given: &GivenWords<'_>) -> Option<Size>
    ensures { option_map (λ s. s.number) result ≡ size_in (is_plain (option_map (λ s. s.now) given.now.order) (option_map (λ s. s.now) given.now.steps) (option_map (λ s. s.now) given.now.versions) given.now.trace) (option_map (λ s. s.now) given.now.number) }
{
    if !is_plain(given) {
        return None;
    }
    let number = number_in(given.number?, 1, NUMBER_MAX)?;
    Some(Size { number })
}

// Whether the command has this name.
fn is_named(name: &str, command: Option<&str>) -> bool
    ensures { result ≡ is_named name.now (option_map (λ s. s.now) command.entry) }
{
    match command {
        Some(command) => command == name,
        None => false,
    }
}

// What the named command does.
fn job_given(alloc: Global, given: &GivenWords<'_>) -> Result<Option<Job>, AllocError>
    ensures { IfOk result (λ job. option_map told job ≡ job_by (option_map (λ s. s.now) given.now.command) (option_map (λ s. s.now) given.now.number)
        (options_in (order_in (option_map (λ s. s.now) given.now.order)) given.now.trace (option_map (λ s. s.now) given.now.steps) (option_map (λ s. s.now) given.now.versions))
        (is_plain (option_map (λ s. s.now) given.now.order) (option_map (λ s. s.now) given.now.steps) (option_map (λ s. s.now) given.now.versions) given.now.trace)) }
{
    if is_named("run", given.command) {
        return run_asked(alloc, given);
    }
    if is_named("derive", given.command) {
        return Ok(alone(given, Job::Derive));
    }
    if is_named("verify", given.command) {
        return Ok(alone(given, Job::Verify));
    }
    if is_named("gen", given.command) {
        return Ok(size_given(given).map(|size| Job::Gen(size)));
    }
    if is_named("work", given.command) {
        return Ok(size_given(given).map(|size| Job::Work(size)));
    }
    Ok(None)
}

/// The job that the words ask for, or none. (docs/FORMATS.md, "Words")
pub fn job_asked<'a>(alloc: Global, words: &'a [&'a str]) -> Result<Option<Job>, AllocError>
    ensures { IfOk result (λ job. option_map told job ≡ job_of (texts words.entry.now)) }
{
    match given_words(alloc, words) {
        Ok(given) => job_given(alloc, &given),
        Err(WordsFail::Refused) => Ok(None),
        Err(WordsFail::NoMemory) => Err(AllocError),
    }
}
