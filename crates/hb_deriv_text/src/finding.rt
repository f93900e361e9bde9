//! What of a program a word of a text names: the first that is written so.

ghost use Rattle.std.specs.Prelude.{◌≡◌};
ghost use Rattle.std.specs.Option.{option_map};
ghost use Rattle.hb_deriv_text.specs.Reading as reading;

use crate::index::Finder;
use crate::pieces::place_in;
use hb_types::ids::{BodySite, NodeId, TypeSite};
use hb_types::types::Ty;

/// The body that is defined at this place.
pub fn body_there(finder: &Finder, word: &[u8]) -> Option<BodySite>
    ensures { option_map (λ b. b.0) result ≡ reading.body_there finder.now word.now }
{
    let place = place_in(word)?;
    finder.body(place)
}

/// The type that is declared at this place.
pub fn type_there(finder: &Finder, word: &[u8]) -> Option<TypeSite>
    ensures { option_map (λ y. y.0) result ≡ reading.type_there finder.now word.now }
{
    let place = place_in(word)?;
    finder.declared(place)
}

/// The expression at this place.
pub fn expression_there(finder: &Finder, word: &[u8]) -> Option<NodeId>
    ensures { option_map (λ e. e.0) result ≡ reading.expr_there finder.now word.now }
{
    let place = place_in(word)?;
    finder.expression(place)
}

/// The type that is written so.
pub fn type_written(finder: &Finder, word: &[u8]) -> Option<Ty>
    ensures { result ≡ reading.type_in finder.now word.now }
{
    if word == b"Nil".as_slice() {
        return Some(Ty::Nil);
    }
    if word == b"Bool".as_slice() {
        return Some(Ty::Bool);
    }
    if word == b"Int".as_slice() {
        return Some(Ty::Int);
    }
    if word == b"Str".as_slice() {
        return Some(Ty::Str);
    }
    if word == b"Any".as_slice() {
        return Some(Ty::Any);
    }
    Some(Ty::Class(finder.class(word)?))
}
