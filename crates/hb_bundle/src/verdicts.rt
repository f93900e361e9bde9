//! What is told of derivations: a line of each, and whether all are good.

ghost use Rattle.std.specs.Prelude.{◌≡◌, ◌<◌, ◌++◌, OnOk, length};
ghost use Rattle.hb_deriv_text.specs.Text.{raw_content_of};
ghost use Rattle.hb_bundle.specs.Verdicts.{no_step, no_uses};
ghost use Rattle.hb_bundle.specs.Told.{Adds};

use hb_deriv::raw::RawDerivation;
use hb_tree::program::Program;
use hb_verify::{VerifyFail, verify};
use std::alloc::{AllocError, Global};

/// What was found of texts of derivations.
#[derive(Debug, Drop)]
pub struct Verdicts {
    /// A line of each.
    pub lines: Vec<u8>,
    pub all_good: bool,
}

/// Adds what the verifier finds of a derivation.
pub fn add_verdict(
    alloc: Global,
    prog: &Program,
    raw: &RawDerivation,
    verdicts: &mut Verdicts,
) -> Result<(), AllocError>
    requires body { raw.now.body.0 < length prog.now.bodies }
    requires declared { raw.now.declared.0 < length prog.now.types }
    ensures { OnOk result (Adds prog.now (raw_content_of raw.now) verdicts.old verdicts.new) }
{
    match verify(alloc, prog, raw) {
        Ok(_) => verdicts.lines.extend_from_slice(b"ok\n"),
        Err(VerifyFail::Step(n)) => {
            verdicts.all_good = false;
            push_no_step(alloc, &mut verdicts.lines, n)
        }
        Err(VerifyFail::Uses(n)) => {
            verdicts.all_good = false;
            push_no_uses(alloc, &mut verdicts.lines, n)
        }
        Err(VerifyFail::NoMemory) => Err(AllocError),
    }
}

fn push_no_step(alloc: Global, lines: &mut Vec<u8>, n: u32) -> Result<(), AllocError>
    ensures { OnOk result (lines.new.items ≡ lines.old.items ++ no_step n) }
{
    lines.extend_from_slice(format!(in alloc; "no step {n}\n")?.as_bytes())
}

fn push_no_uses(alloc: Global, lines: &mut Vec<u8>, n: u32) -> Result<(), AllocError>
    ensures { OnOk result (lines.new.items ≡ lines.old.items ++ no_uses n) }
{
    lines.extend_from_slice(format!(in alloc; "no uses {n}\n")?.as_bytes())
}
