//! A text read as a derivation of which nothing is known.

ghost use Rattle.std.specs.Prelude.{◌≡◌, ◌<◌, ◌^◌, length};
ghost use Rattle.std.specs.Option.{option_map};
ghost use Rattle.hb_deriv_text.specs.Reading as reading;
ghost use Rattle.hb_deriv_text.specs.Reads.{Reads, ReadsLines, Takes, TakesLine, draft_of};
ghost use Rattle.hb_deriv_text.specs.Text.{raw_content_of};

use crate::index::Finder;
use crate::lines::{head_in, step_in, use_in};
use crate::stage::Stage;
use hb_deriv::raw::RawDerivation;
use hb_tree::program::Program;
use hb_types::ids::{BodySite, ClassId, TypeSite};
use std::alloc::{AllocError, AllocFailed, Global};

/// Why a text is not read.
#[derive(Clone, Copy, Debug, PartialEq, Eq, Hash)]
pub enum DerivFail {
    /// From this byte on it is no text of a derivation for the program.
    BadText(u32),
    NoMemory,
}

impl<T: Drop> From<AllocFailed<T>> for DerivFail {
    ghost use Rattle.std.specs.Prelude.{◌≡◌};
    ghost use Rattle.hb_deriv_text.specs.declared.texts.DerivFail.TheVariants.{NoMemory};

    ghost from_gives = { λ _ e. e ≡ NoMemory };

    fn from(_: AllocFailed<T>) -> Self {
        DerivFail::NoMemory
    }
}

impl From<AllocError> for DerivFail {
    ghost use Rattle.std.specs.Prelude.{◌≡◌};
    ghost use Rattle.hb_deriv_text.specs.declared.texts.DerivFail.TheVariants.{NoMemory};

    ghost from_gives = { λ _ e. e ≡ NoMemory };

    fn from(_: AllocError) -> Self {
        DerivFail::NoMemory
    }
}

/// What the lines so far say, and which lines may follow.
#[derive(Drop)]
pub struct Draft {
    pub stage: Stage,
    pub content: RawDerivation,
}

/// Reads the text of one derivation for a program. (docs/FORMATS.md, "The text of a derivation")
///
/// It makes the program's index first. Where many texts are read for one program, make it once and call `read_with`.
pub fn read_text(alloc: Global, prog: &Program, bytes: &[u8]) -> Result<RawDerivation, DerivFail>
    requires { length bytes.now < 2 ^ 32 }
    ensures { Reads prog.now bytes.now result }
{
    let finder = Finder::new(alloc, prog)?;
    read_with(alloc, &finder, bytes)
}

/// Reads the text of one derivation for the program of an index. (docs/FORMATS.md, "The text of a derivation")
pub fn read_with(alloc: Global, finder: &Finder, bytes: &[u8]) -> Result<RawDerivation, DerivFail>
    requires { length bytes.now < 2 ^ 32 }
    ensures { Reads finder.now bytes.now result }
{
    read_lines(alloc, finder, bytes)
}

// The text line by line.
fn read_lines(alloc: Global, finder: &Finder, bytes: &[u8]) -> Result<RawDerivation, DerivFail>
    requires { length bytes.now < 2 ^ 32 }
    ensures { ReadsLines finder.now bytes.now result }
{
    let mut draft = empty(alloc);
    let mut at = 0;
    for i in 0..bytes.len() {
        if bytes[i] == b'\n' {
            if !take_line(finder, &bytes[at..i], &mut draft)? {
                return Err(DerivFail::BadText(at as u32));
            }
            at = i + 1;
        }
    }
    if at < bytes.len() {
        return Err(DerivFail::BadText(at as u32));
    }
    if !is_ended(draft.stage) {
        return Err(DerivFail::BadText(at as u32));
    }
    Ok(draft.content)
}

fn empty(alloc: Global) -> Draft
    ensures { draft_of result ≡ reading.nothing }
{
    Draft {
        stage: Stage::Head,
        content: RawDerivation {
            class: ClassId(0),
            body: BodySite(0),
            declared: TypeSite(0),
            uses: Vec::new(alloc),
            steps: Vec::new(alloc),
        },
    }
}

fn is_ended(stage: Stage) -> bool
    ensures { result ≡ reading.is_ended stage }
{
    matches!(stage, Stage::Ended)
}

// Takes a line where it may follow, and tells whether it may.
fn take_line(finder: &Finder, line: &[u8], draft: &mut Draft) -> Result<bool, DerivFail>
    ensures { TakesLine (reading.with_line finder.now (draft_of draft.old) line.now) (draft_of draft.new) result }
{
    match draft.stage {
        Stage::Head => Ok(take_head(finder, line, draft)),
        Stage::Uses => take_use_or_more(finder, line, draft),
        Stage::Steps => take_step_or_end(finder, line, draft),
        Stage::Ended => Ok(false),
    }
}

fn take_head(finder: &Finder, line: &[u8], draft: &mut Draft) -> bool
    ensures { Takes (option_map (reading.begun (raw_content_of draft.old.content)) (reading.head_in finder.now line.now)) (draft_of draft.new) result }
{
    match head_in(finder, line) {
        Some(head) => {
            draft.stage = Stage::Uses;
            draft.content.class = head.class;
            draft.content.body = head.body;
            draft.content.declared = head.declared;
            true
        }
        None => false,
    }
}

fn take_use_or_more(finder: &Finder, line: &[u8], draft: &mut Draft) -> Result<bool, DerivFail>
    ensures { TakesLine (reading.use_or_more finder.now (raw_content_of draft.old.content) line.now (reading.use_in finder.now line.now)) (draft_of draft.new) result }
{
    match use_in(finder, line) {
        Some(used) => {
            draft.content.uses.push(used)?;
            draft.stage = Stage::Uses;
            Ok(true)
        }
        None => take_step_or_end(finder, line, draft),
    }
}

fn take_step_or_end(finder: &Finder, line: &[u8], draft: &mut Draft) -> Result<bool, DerivFail>
    ensures { TakesLine (reading.step_or_end (raw_content_of draft.old.content) line.now (reading.step_in finder.now line.now)) (draft_of draft.new) result }
{
    match step_in(finder, line) {
        Some(step) => {
            draft.content.steps.push(step)?;
            draft.stage = Stage::Steps;
            Ok(true)
        }
        None => Ok(take_end(line, draft)),
    }
}

fn take_end(line: &[u8], draft: &mut Draft) -> bool
    ensures { Takes (reading.ended (raw_content_of draft.old.content) line.now) (draft_of draft.new) result }
{
    if line == b"end".as_slice() {
        draft.stage = Stage::Ended;
        true
    } else {
        false
    }
}
