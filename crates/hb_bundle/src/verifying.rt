//! The texts of derivations behind a bundle's program, verified one after another.

ghost use Rattle.std.specs.Prelude.{◌<◌, ◌^◌, length};
ghost use Rattle.hb_tree.specs.Program.{IsProgram};
ghost use Rattle.hb_bundle.specs.Verifies.{VerifiesFirst, VerifiesTexts};

use crate::ends::up_to_end;
use crate::verdicts::{Verdicts, add_verdict};
use hb_deriv_text::{DerivFail, Finder, read_with};
use hb_tree::program::Program;
use std::alloc::{AllocError, Global};

/// Why texts of derivations are not verified.
#[derive(Clone, Copy, Debug, PartialEq, Eq, Hash)]
pub enum TextsFail {
    /// From this byte on they are no texts of derivations for the program.
    BadTexts(u32),
    NoMemory,
}

impl From<AllocError> for TextsFail {
    ghost use Rattle.std.specs.Prelude.{◌≡◌};
    ghost use Rattle.hb_bundle.specs.declared.verifying.TextsFail.TheVariants.{NoMemory};

    ghost from_gives = { λ _ e. e ≡ NoMemory };

    fn from(_: AllocError) -> Self {
        TextsFail::NoMemory
    }
}

/// Verifies texts of derivations for a program, and tells a line of each: `ok`, `no step I` or `no uses I`.
/// (docs/FORMATS.md, "A bundle")
pub fn verify_texts(alloc: Global, prog: &Program, bytes: &[u8]) -> Result<Verdicts, TextsFail>
    requires { length bytes.now < 2 ^ 32 }
    ensures { VerifiesTexts prog.now bytes.now result }
{
    // Its count tells that it is a program.
    let _nodes = prog.nodes();
    let finder = Finder::new(alloc, prog)?;
    let mut verdicts = Verdicts {
        lines: Vec::new(alloc),
        all_good: true,
    };
    let mut at = 0;
    while at < bytes.len() {
        match verify_first(alloc, &finder, &bytes[at..], &mut verdicts) {
            Ok(length) => at += length,
            Err(TextsFail::BadTexts(further)) => {
                return Err(TextsFail::BadTexts(at as u32 + further));
            }
            Err(TextsFail::NoMemory) => return Err(TextsFail::NoMemory),
        }
    }
    Ok(verdicts)
}

// Verifies the first text, and tells its length.
fn verify_first(
    alloc: Global,
    finder: &Finder<'_>,
    bytes: &[u8],
    verdicts: &mut Verdicts,
) -> Result<usize, TextsFail>
    requires some { 0 < length bytes.now }
    requires few { length bytes.now < 2 ^ 32 }
    requires program { IsProgram finder.now }
    ensures { VerifiesFirst finder.now bytes.now verdicts.old verdicts.new result }
{
    let prog = finder.program();
    let length = up_to_end(bytes);
    match read_with(alloc, finder, &bytes[..length]) {
        Ok(raw) => {
            add_verdict(alloc, prog, &raw, verdicts)?;
            Ok(length)
        }
        Err(DerivFail::BadText(at)) => Err(TextsFail::BadTexts(at)),
        Err(DerivFail::NoMemory) => Err(TextsFail::NoMemory),
    }
}
