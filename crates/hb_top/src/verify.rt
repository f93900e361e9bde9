//! The verdicts on the derivations of a bundle.

ghost use Rattle.std.specs.Prelude.{◌≡◌, ◌≤◌, Err, IfOk, OnErr, length};
ghost use Rattle.hb_bundle.specs.Bundle.{HasProgram};
ghost use Rattle.hb_io.specs.Causes.{Rose};
ghost use Rattle.hb_tree.specs.Program.{IsProgram};
ghost use Rattle.hb_top.specs.Answers.{AreVerdicts, IsOutcomeOf, IsVerifyOf};
ghost use Rattle.hb_top.specs.Faults.{fault_line};
ghost use Rattle.hb_top.specs.Outcomes.{IsDue, IsDueBy, IsDueFrom};
ghost use Rattle.hb_top.specs.Verified.{IsVerified, bundle_fault, ending_by};
ghost use Rattle.hb_top.specs.declared.due.Ending.TheVariants.{TextRefused};

use crate::due::{Due, Ending, Stop};
use crate::faults::{Fault, fault_line};
use crate::sources::{bytes_of, too_long};
use crate::texts::{Reading, read_text};
use hb_bundle::{Opened, TextsFail, open_bundle, verify_texts};
use hb_io::Source;
use hb_tree::program::Program;
use std::alloc::Global;

/// The bytes of a bundle, at most.
pub const BUNDLE_LIMIT: u32 = 33_554_432;

// The line of a bundle that is none from this byte on.
fn bad_bundle(alloc: Global, bytes: &[u8], at: u32) -> Result<Due, Stop>
    requires { length bytes.now ≤ BUNDLE_LIMIT }
    ensures due { IfOk result (λ due. IsDue due TextRefused (fault_line bytes.now (bundle_fault at))) }
    ensures memory { OnErr result (result ≡ Err Stop.Memory) }
{
    let fault = Fault {
        words: "BadBundle",
        at,
    };
    let line = fault_line(alloc, bytes, fault)?;
    Ok(Due::new(alloc, Ending::TextRefused, &line)?)
}

// Done, where all derivations are good.
fn ending_by(good: bool) -> Ending
    ensures { result ≡ ending_by good }
{
    if good { Ending::Done } else { Ending::Stopped }
}

// The verdicts on what stands behind the program.
fn verify_rest(
    alloc: Global,
    program: &Program,
    bytes: &[u8],
    opened: Opened<'_>,
) -> Result<Due, Stop>
    requires short { length bytes.now ≤ BUNDLE_LIMIT }
    requires begins { HasProgram bytes.now opened.text.now opened.rest.now }
    ensures is { IsProgram program.now }
    ensures due { IfOk result (IsDueBy (IsVerified bytes.now opened.entry.text.now opened.entry.rest.now program.now) (length bytes.now)) }
    ensures memory { OnErr result (result ≡ Err Stop.Memory) }
{
    // Its count tells that it is a program.
    let _nodes = program.nodes();
    let rest = opened.rest;
    match verify_texts(alloc, program, rest) {
        Ok(verdicts) => Ok(Due {
            ending: ending_by(verdicts.all_good),
            text: verdicts.lines,
        }),
        Err(TextsFail::BadTexts(at)) => {
            let front = (bytes.len() - rest.len()) as u32;
            bad_bundle(alloc, bytes, front + at)
        }
        Err(TextsFail::NoMemory) => Err(Stop::Memory),
    }
}

/// What a bundle within the limit comes to.
pub fn verify_bundle(alloc: Global, bytes: &[u8]) -> Result<Due, Stop>
    requires { length bytes.now ≤ BUNDLE_LIMIT }
    ensures due { IfOk result (IsDueBy (AreVerdicts bytes.now) (length bytes.now)) }
    ensures memory { OnErr result (result ≡ Err Stop.Memory) }
{
    let Some(opened) = open_bundle(bytes) else {
        return bad_bundle(alloc, bytes, 0);
    };
    let reading = read_text(alloc, opened.text)?;
    match reading {
        Reading::Program(program) => verify_rest(alloc, &program, bytes, opened),
        Reading::Refused(due) => Ok(due),
    }
}

/// Reads a bundle to its end, and verifies its derivations. (docs/FORMATS.md, "A bundle")
pub fn verify<S: Source>(alloc: Global, source: &mut S) -> Result<Due, Stop>
    ensures due { IfOk result (IsDueFrom (IsOutcomeOf IsVerifyOf (S.left source.old)) (S.left source.old) (S.left source.new)) }
    ensures fault { result ≡ Err Stop.Fault → Rose (S.faults source.old) (S.faults source.new) }
    ensures later { S.faults source.old ≤ S.faults source.new }
{
    let bytes = bytes_of(alloc, source, BUNDLE_LIMIT)?;
    match bytes {
        Some(bytes) => verify_bundle(alloc, bytes.as_slice()),
        None => too_long(alloc),
    }
}
