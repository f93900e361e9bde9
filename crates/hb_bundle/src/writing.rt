//! A bundle written.

ghost use Rattle.std.specs.Prelude.{◌≡◌, ◌++◌, IfOk, OnOk, map};
ghost use Rattle.hb_deriv.specs.Derivation.{content_of};
ghost use Rattle.hb_bundle.specs.Bundle.{bundle_of, program_of, texts_of};

use crate::opening::closing;
use hb_deriv::raw::Derivation;
use hb_deriv_text::write_text;
use hb_tree::program::Program;
use std::alloc::{AllocError, Global};

/// The bundle of a program's text and of derivations for it. (docs/FORMATS.md, "A bundle")
pub fn bundle(
    alloc: Global,
    prog: &Program,
    text: &[u8],
    made: &[Derivation],
) -> Result<Vec<u8>, AllocError>
    ensures { IfOk result (λ bytes. bytes.items ≡ bundle_of text.now prog.now (map content_of made.now)) }
{
    let mut bytes = Vec::new(alloc);
    push_program(alloc, &mut bytes, text)?;
    push_texts(alloc, &mut bytes, prog, made)?;
    Ok(bytes)
}

fn push_program(alloc: Global, bytes: &mut Vec<u8>, text: &[u8]) -> Result<(), AllocError>
    ensures { OnOk result (bytes.new.items ≡ bytes.old.items ++ program_of text.now) }
{
    let length = text.len();
    bytes.extend_from_slice(format!(in alloc; "program {length}\n")?.as_bytes())?;
    bytes.extend_from_slice(text)?;
    bytes.extend_from_slice(closing(text))?;
    Ok(())
}

fn push_texts(
    alloc: Global,
    bytes: &mut Vec<u8>,
    prog: &Program,
    made: &[Derivation],
) -> Result<(), AllocError>
    ensures { OnOk result (bytes.new.items ≡ bytes.old.items ++ texts_of prog.now (map content_of made.now)) }
{
    for derivation in made {
        bytes.extend_from_slice(&write_text(alloc, prog, derivation)?)?;
    }
    Ok(())
}
