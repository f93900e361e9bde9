//! The bundle of a text and of the derivations of its run.

ghost use Rattle.std.specs.Prelude.{◌≡◌, ◌≤◌, Err, IfOk, IfSome, OnErr, length};
ghost use Rattle.hb_call.specs.Sharing.{collected};
ghost use Rattle.hb_io.specs.Causes.{Rose};
ghost use Rattle.hb_jobs.specs.Jobs.{options_told};
ghost use Rattle.hb_tree.specs.Program.{IsProgram};
ghost use Rattle.hb_tree.specs.Roots.{IsReachedOnce};
ghost use Rattle.hb_top.specs.Answers.{IsBundle, IsDeriveOf, IsOutcomeOf};
ghost use Rattle.hb_top.specs.Derived.{IsDerived, derive_options};
ghost use Rattle.hb_top.specs.Outcomes.{IsDueBy, IsDueFrom};

use crate::due::{Due, Stop};
use crate::reports::ending;
use crate::runs::run_by_turns;
use crate::sources::{bytes_of, too_long};
use crate::texts::{Reading, read_text};
use crate::top::LIMIT;
use hb_bundle::bundle;
use hb_call::Share;
use hb_deriv::raw::Derivation;
use hb_io::Source;
use hb_jobs::RunOptions;
use hb_jobs::options::{CHANGES_MAX, STEPS_SEEN_MAX};
use hb_tree::program::Program;
use hb_types::ids::CallerId;
use std::alloc::{AllocError, Global};

// How the text runs: its scripts one after another, since the first one's turn comes first.
fn derive_options(alloc: Global) -> Result<RunOptions, AllocError>
    ensures { IfOk result (λ options. options_told options ≡ derive_options) }
{
    Ok(RunOptions {
        order: Some(vec![in alloc; CallerId(1)]?),
        trace: false,
        steps: STEPS_SEEN_MAX,
        changes: CHANGES_MAX,
    })
}

// What was collected.
fn collected(share: &Share) -> &[Derivation]
    ensures { IfSome (collected share.now) (λ made. result.now ≡ made) }
{
    match share {
        Share::Collect(made) => made.as_slice(),
        Share::Off => &[],
    }
}

// The bundle of a program, of this text.
fn derive_program(alloc: Global, program: &Program, text: &[u8]) -> Result<Due, Stop>
    requires { IsReachedOnce program.now }
    ensures is { IsProgram program.now }
    ensures due { IfOk result (IsDueBy (IsDerived program.now text.now) (length text.now)) }
    ensures memory { OnErr result (result ≡ Err Stop.Memory) }
{
    // Its count tells that it is a program.
    let _nodes = program.nodes();
    let options = derive_options(alloc)?;
    let mut share = Share::Collect(Vec::new(alloc));
    let ran = run_by_turns(alloc, program, &options, &mut share)?;
    let text = bundle(alloc, program, text, collected(&share))?;
    Ok(Due {
        ending: ending(&ran.runs),
        text,
    })
}

/// What a text within the limit comes to.
pub fn derive_text(alloc: Global, text: &[u8]) -> Result<Due, Stop>
    requires { length text.now ≤ LIMIT }
    ensures due { IfOk result (IsDueBy (IsBundle text.now) (length text.now)) }
    ensures memory { OnErr result (result ≡ Err Stop.Memory) }
{
    let reading = read_text(alloc, text)?;
    match reading {
        Reading::Program(program) => derive_program(alloc, &program, text),
        Reading::Refused(due) => Ok(due),
    }
}

/// Reads a text to its end, runs it, and makes its bundle. (docs/FORMATS.md, "A bundle")
pub fn derive<S: Source>(alloc: Global, source: &mut S) -> Result<Due, Stop>
    ensures due { IfOk result (IsDueFrom (IsOutcomeOf IsDeriveOf (S.left source.old)) (S.left source.old) (S.left source.new)) }
    ensures fault { result ≡ Err Stop.Fault → Rose (S.faults source.old) (S.faults source.new) }
    ensures later { S.faults source.old ≤ S.faults source.new }
{
    let text = bytes_of(alloc, source, LIMIT)?;
    match text {
        Some(text) => derive_text(alloc, text.as_slice()),
        None => too_long(alloc),
    }
}
