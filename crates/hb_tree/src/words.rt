//! What the nodes of a program name: words and texts, parameters and types.

ghost use Rattle.std.specs.Prelude.{◌≡◌, ◌<◌, [], ◌∷◌, All, OnOk, length, map};
ghost use Rattle.hb_lex.specs.declared.kinds.TokenKind.TheVariants as kind;
ghost use Rattle.hb_tree.specs.Pieces.{mark, word};
ghost use Rattle.hb_tree.specs.Program.{IsTyIn};
ghost use Rattle.hb_tree.specs.Canon.{bytes_at, class_piece, name_piece, parameters, quoted, separated, signature, type_piece};
ghost use Rattle.hb_tree.specs.Page.{written};

use crate::program::Program;
use crate::sheet::Sheet;
use hb_lex::TokenKind;
use hb_types::ids::{BodySite, ClassId, NameId, TextId, TypeSite};
use hb_types::types::Ty;
use std::alloc::AllocError;

/// Writes a name.
pub fn push_name(sheet: &mut Sheet, prog: &Program, name: NameId) -> Result<(), AllocError>
    requires { name.0 < length prog.now.names }
    ensures { OnOk result (sheet.new ≡ written sheet.old (name_piece prog.now name.0 ∷ [])) }
{
    sheet.name(prog.name(name))
}

/// Writes the name of a class.
pub fn push_class(sheet: &mut Sheet, prog: &Program, class: ClassId) -> Result<(), AllocError>
    requires { class.0 < length prog.now.classes }
    ensures { OnOk result (sheet.new ≡ written sheet.old (class_piece prog.now class.0 ∷ [])) }
{
    sheet.class_name(prog.class_name(class))
}

/// Writes a text literal.
pub fn push_text(sheet: &mut Sheet, prog: &Program, text: TextId) -> Result<(), AllocError>
    requires { text.0 < length prog.now.texts }
    ensures { OnOk result (sheet.new ≡ written sheet.old
        (word kind.Text (quoted (bytes_at prog.now.texts text.0)) ∷ [])) }
{
    sheet.text(prog.text(text))
}

/// Writes the parameters that a `def` gives to its method.
pub fn push_parameters(sheet: &mut Sheet, prog: &Program, site: BodySite) -> Result<(), AllocError>
    requires { site.0 < length prog.now.bodies }
    ensures { OnOk result (sheet.new ≡ written sheet.old (parameters prog.now site.0)) }
{
    let body = prog.body(site);
    sheet.joined_paren()?;
    push_names(sheet, prog, &body.params[..body.count as usize])?;
    sheet.mark(TokenKind::CloseParen)
}

// Writes names with commas between them.
fn push_names(sheet: &mut Sheet, prog: &Program, names: &[NameId]) -> Result<(), AllocError>
    requires { All (λ x. x.0 < length prog.now.names) names.now }
    ensures { OnOk result (sheet.new ≡ written sheet.old
        (separated (mark kind.Comma) (map (λ x. name_piece prog.now x.0 ∷ []) names.now))) }
{
    let [first, rest @ ..] = names else {
        return Ok(());
    };
    push_name(sheet, prog, *first)?;
    for name in rest {
        sheet.mark(TokenKind::Comma)?;
        push_name(sheet, prog, *name)?;
    }
    Ok(())
}

/// Writes the type that a `type` or `type?` gives to its method.
pub fn push_signature(sheet: &mut Sheet, prog: &Program, site: TypeSite) -> Result<(), AllocError>
    requires { site.0 < length prog.now.types }
    ensures { OnOk result (sheet.new ≡ written sheet.old (signature prog.now site.0)) }
{
    let ty = prog.type_of(site);
    sheet.mark(TokenKind::Colon)?;
    sheet.mark(TokenKind::OpenParen)?;
    push_types(sheet, prog, &ty.params[..ty.count as usize])?;
    sheet.mark(TokenKind::CloseParen)?;
    sheet.mark(TokenKind::Arrow)?;
    push_type(sheet, prog, ty.result)
}

// Writes types with commas between them.
fn push_types(sheet: &mut Sheet, prog: &Program, types: &[Ty]) -> Result<(), AllocError>
    requires { All (IsTyIn prog.now) types.now }
    ensures { OnOk result (sheet.new ≡ written sheet.old
        (separated (mark kind.Comma) (map (λ y. type_piece prog.now y ∷ []) types.now))) }
{
    let [first, rest @ ..] = types else {
        return Ok(());
    };
    push_type(sheet, prog, *first)?;
    for ty in rest {
        sheet.mark(TokenKind::Comma)?;
        push_type(sheet, prog, *ty)?;
    }
    Ok(())
}

fn push_type(sheet: &mut Sheet, prog: &Program, ty: Ty) -> Result<(), AllocError>
    requires { IsTyIn prog.now ty }
    ensures { OnOk result (sheet.new ≡ written sheet.old (type_piece prog.now ty ∷ [])) }
{
    match ty {
        Ty::Nil => sheet.mark(TokenKind::TyNil),
        Ty::Bool => sheet.mark(TokenKind::TyBool),
        Ty::Int => sheet.mark(TokenKind::TyInt),
        Ty::Str => sheet.mark(TokenKind::TyStr),
        Ty::Any => sheet.mark(TokenKind::TyAny),
        Ty::Class(class) => push_class(sheet, prog, class),
    }
}
