//! A derivation written as a text.

ghost use Rattle.std.specs.Prelude.{◌≡◌, ◌++◌, IfOk, OnOk};
ghost use Rattle.std.specs.List.{flat_map};
ghost use Rattle.hb_deriv.specs.Derivation.{content_of};
ghost use Rattle.hb_deriv_text.specs.Text.{head_line, head_word, step_line, text_of, use_line, where_defined};

use crate::words::{class_word, name_word, place, place_of_def, place_of_type, type_word};
use hb_deriv::raw::{Derivation, Step, Used};
use hb_tree::program::Program;
use std::alloc::{AllocError, Global};

/// The text of a derivation for a program. (docs/FORMATS.md, "The text of a derivation")
pub fn write_text(
    alloc: Global,
    prog: &Program,
    derivation: &Derivation,
) -> Result<Vec<u8>, AllocError>
    ensures { IfOk result (λ text. text.items ≡ text_of prog.now (content_of derivation.now)) }
{
    let mut text = Vec::new(alloc);
    push_head(alloc, &mut text, prog, derivation)?;
    push_uses(alloc, &mut text, prog, &derivation.uses)?;
    push_steps(alloc, &mut text, prog, &derivation.steps)?;
    text.extend_from_slice(b"end\n")?;
    Ok(text)
}

fn push_head(
    alloc: Global,
    text: &mut Vec<u8>,
    prog: &Program,
    derivation: &Derivation,
) -> Result<(), AllocError>
    ensures { OnOk result (text.new.items ≡ text.old.items
        ++ head_line prog.now derivation.now.class.0 derivation.now.body.0 derivation.now.declared.0) }
{
    push_head_word(text)?;
    text.extend_from_slice(class_word(prog, derivation.class))?;
    push_sites(alloc, text, prog, derivation)?;
    Ok(())
}

#[tactic(auto, unfolding(crate::specs::Text::head_word))]
fn push_head_word(text: &mut Vec<u8>) -> Result<(), AllocError>
    ensures { OnOk result (text.new.items ≡ text.old.items ++ head_word) }
{
    text.extend_from_slice(b"derivation ")?;
    Ok(())
}

// Where the body is defined, and its type is declared.
fn push_sites(
    alloc: Global,
    text: &mut Vec<u8>,
    prog: &Program,
    derivation: &Derivation,
) -> Result<(), AllocError>
    ensures { OnOk result (text.new.items ≡ text.old.items
        ++ where_defined prog.now derivation.now.body.0 derivation.now.declared.0) }
{
    text.push(b' ')?;
    text.extend_from_slice(place_of_def(alloc, prog, derivation.body)?.as_bytes())?;
    text.push(b' ')?;
    text.extend_from_slice(place_of_type(alloc, prog, derivation.declared)?.as_bytes())?;
    text.push(b'\n')?;
    Ok(())
}

fn push_uses(
    alloc: Global,
    text: &mut Vec<u8>,
    prog: &Program,
    uses: &[Used],
) -> Result<(), AllocError>
    ensures { OnOk result (text.new.items ≡ text.old.items ++ flat_map (use_line prog.now) uses.now) }
{
    for used in uses {
        push_use(alloc, text, prog, *used)?;
    }
    Ok(())
}

fn push_use(alloc: Global, text: &mut Vec<u8>, prog: &Program, used: Used) -> Result<(), AllocError>
    ensures { OnOk result (text.new.items ≡ text.old.items ++ use_line prog.now used) }
{
    text.extend_from_slice(b"use ")?;
    text.extend_from_slice(class_word(prog, used.class))?;
    text.push(b'.')?;
    text.extend_from_slice(name_word(prog, used.name))?;
    text.push(b' ')?;
    text.extend_from_slice(place_of_type(alloc, prog, used.site)?.as_bytes())?;
    text.push(b'\n')?;
    Ok(())
}

fn push_steps(
    alloc: Global,
    text: &mut Vec<u8>,
    prog: &Program,
    steps: &[Step],
) -> Result<(), AllocError>
    ensures { OnOk result (text.new.items ≡ text.old.items ++ flat_map (step_line prog.now) steps.now) }
{
    for step in steps {
        push_step(alloc, text, prog, *step)?;
    }
    Ok(())
}

fn push_step(
    alloc: Global,
    text: &mut Vec<u8>,
    prog: &Program,
    step: Step,
) -> Result<(), AllocError>
    ensures { OnOk result (text.new.items ≡ text.old.items ++ step_line prog.now step) }
{
    text.extend_from_slice(b"step ")?;
    text.extend_from_slice(place(alloc, prog, step.node)?.as_bytes())?;
    text.push(b' ')?;
    text.extend_from_slice(type_word(prog, step.ty))?;
    text.push(b'\n')?;
    Ok(())
}
