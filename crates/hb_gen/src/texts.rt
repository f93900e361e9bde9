//! The text of a generated program.

ghost use Rattle.std.specs.Prelude.{◌≡◌, ◌++◌, min, OnOk, string_bytes};
ghost use Rattle.std.specs.List.{flat_map};
ghost use Rattle.hb_gen.specs.Generated.{block_in, class_line, numbers, script};
ghost use Rattle.hb_gen.specs.Generates.{Generates};

use crate::blocks::{push_block, push_class};
use std::alloc::{AllocError, Global};
use std::fmt::Write;

/// The greatest number of which a program is made.
pub const NUMBER_MAX: u32 = 200;

/// How many scripts a generated program has at most.
pub const SCRIPTS_MAX: u32 = 4;

/// Why there is no generated program.
#[derive(Clone, Copy, Debug, PartialEq, Eq, Hash)]
pub enum GenFail {
    /// The number is 0, or above the greatest one.
    Range,
    NoMemory,
}

impl From<AllocError> for GenFail {
    ghost use Rattle.std.specs.Prelude.{◌≡◌};
    ghost use Rattle.hb_gen.specs.declared.texts.GenFail.TheVariants.{NoMemory};

    ghost from_gives = { λ _ e. e ≡ NoMemory };

    fn from(_: AllocError) -> Self {
        GenFail::NoMemory
    }
}

/// The text of the program that is made from a number: so many classes, and at most four scripts that share them.
/// (docs/FORMATS.md, "Generated programs")
pub fn generate(alloc: Global, n: u32) -> Result<Vec<u8>, GenFail>
    ensures { Generates n result }
{
    if n == 0 || n > NUMBER_MAX {
        return Err(GenFail::Range);
    }
    let mut text = String::new(alloc);
    push_classes(&mut text, n)?;
    push_scripts(&mut text, n)?;
    Ok(text.into_bytes())
}

// Adds the lines that declare the classes.
fn push_classes(text: &mut String, n: u32) -> Result<(), AllocError>
    ensures { OnOk result (string_bytes text.new ≡ string_bytes text.old ++ flat_map class_line (numbers n)) }
{
    for before in 0..n {
        push_class(text, before + 1)?;
    }
    Ok(())
}

// Adds the scripts.
fn push_scripts(text: &mut String, n: u32) -> Result<(), AllocError>
    ensures { OnOk result (string_bytes text.new ≡ string_bytes text.old ++ flat_map (script n) (numbers (min n SCRIPTS_MAX))) }
{
    for before in 0..n.min(SCRIPTS_MAX) {
        push_script(text, n, before + 1)?;
    }
    Ok(())
}

// Adds the script of this number.
fn push_script(text: &mut String, n: u32, j: u32) -> Result<(), AllocError>
    ensures { OnOk result (string_bytes text.new ≡ string_bytes text.old ++ script n j) }
{
    write!(text, "script s{j}\n")?;
    push_blocks(text, n, j)?;
    write!(text, "end\n")
}

// Adds the blocks of a script.
fn push_blocks(text: &mut String, n: u32, j: u32) -> Result<(), AllocError>
    ensures { OnOk result (string_bytes text.new ≡ string_bytes text.old ++ flat_map (block_in j) (numbers n)) }
{
    for before in 0..n {
        push_block_in(text, j, before + 1)?;
    }
    Ok(())
}

// Adds the block of a class, where it is in this script.
fn push_block_in(text: &mut String, j: u32, i: u32) -> Result<(), AllocError>
    ensures { OnOk result (string_bytes text.new ≡ string_bytes text.old ++ block_in j i) }
{
    if i % SCRIPTS_MAX == j % SCRIPTS_MAX {
        return push_block(text, i);
    }
    Ok(())
}
