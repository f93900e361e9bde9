//! The lines of a text, without their line feeds.

ghost use Rattle.std.specs.Prelude.{◌≡◌};
ghost use Rattle.std.specs.Option.{option_map};
ghost use Rattle.hb_deriv_text.specs.Text.{head_word};
ghost use Rattle.hb_deriv_text.specs.Reading as reading;

use crate::finding::{body_there, expression_there, type_there, type_written};
use crate::index::Finder;
use crate::pieces::{behind, split};
use hb_deriv::raw::{Step, Used};
use hb_types::ids::{BodySite, ClassId, TypeSite};

/// What a first line names: the class of `self`, the body and what declares its type.
#[derive(Clone, Copy)]
pub struct Head {
    pub class: ClassId,
    pub body: BodySite,
    pub declared: TypeSite,
}

/// What a first line says, where it is one.
pub fn head_in(finder: &Finder, line: &[u8]) -> Option<Head>
    ensures { option_map reading.head_of result ≡ reading.head_in finder.now line.now }
{
    let words = behind_head_word(line)?;
    let (class, places) = split(words, b' ')?;
    let (body, declared) = split(places, b' ')?;
    Some(Head {
        class: finder.class(class)?,
        body: body_there(finder, body)?,
        declared: type_there(finder, declared)?,
    })
}

#[tactic(auto, unfolding(crate::specs::Text::head_word))]
fn behind_head_word(line: &[u8]) -> Option<&[u8]>
    ensures { option_map (λ w. w.now) result ≡ reading.behind head_word line.now }
{
    behind(b"derivation ", line)
}

/// What a line of a use says, where it is one.
pub fn use_in(finder: &Finder, line: &[u8]) -> Option<Used>
    ensures { result ≡ reading.use_in finder.now line.now }
{
    let words = behind(b"use ", line)?;
    let (class, rest) = split(words, b'.')?;
    let (name, site) = split(rest, b' ')?;
    Some(Used {
        class: finder.class(class)?,
        name: finder.name(name)?,
        site: type_there(finder, site)?,
    })
}

/// What a line of a step says, where it is one.
pub fn step_in(finder: &Finder, line: &[u8]) -> Option<Step>
    ensures { result ≡ reading.step_in finder.now line.now }
{
    let words = behind(b"step ", line)?;
    let (node, ty) = split(words, b' ')?;
    Some(Step {
        node: expression_there(finder, node)?,
        ty: type_written(finder, ty)?,
    })
}
