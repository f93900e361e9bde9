//! The canonical text of a program.

ghost use Rattle.std.specs.Prelude.{◌≡◌, ◌<◌, ◌^◌, IfOk, OnOk, length};
ghost use Rattle.std.specs.List.{flat_map};
ghost use Rattle.hb_tree.specs.TreeAt.{tree_at, IsBlockAt};
ghost use Rattle.hb_tree.specs.Canon.{canon, class_line, lines_of, script_lines, setup_lines};
ghost use Rattle.hb_tree.specs.Page.{written};
ghost use Rattle.hb_tree.specs.Roots.{IsReachedOnce};

use crate::forms::push_expression;
use crate::program::Program;
use crate::sheet::Sheet;
use crate::words::push_name;
use hb_lex::TokenKind;
use hb_types::ids::{ClassId, NodeId};
use std::alloc::{AllocError, Global};

/// The canonical text of a program: each class, the setup and each script, with one item on a line.
pub fn print_program(alloc: Global, prog: &Program) -> Result<Vec<u8>, AllocError>
    ensures text { IfOk result (λ text. text.items ≡ canon prog.now) }
    ensures short { IsReachedOnce prog.now → IfOk result (λ text. length text.items < 2 ^ 28) }
{
    // The limits of a program bound its text.
    let _nodes = prog.nodes();
    let mut sheet = Sheet::new(alloc);
    push_classes(&mut sheet, prog)?;
    push_setup(&mut sheet, prog)?;
    push_scripts(&mut sheet, prog)?;
    Ok(sheet.into_text())
}

fn push_classes(sheet: &mut Sheet, prog: &Program) -> Result<(), AllocError>
    ensures { OnOk result (sheet.new ≡ written sheet.old (flat_map class_line prog.now.classes)) }
{
    for class in 0..prog.classes() {
        sheet.mark(TokenKind::KwClass)?;
        sheet.class_name(prog.class_name(ClassId(class as u8)))?;
        sheet.line_end()?;
    }
    Ok(())
}

fn push_setup(sheet: &mut Sheet, prog: &Program) -> Result<(), AllocError>
    ensures { OnOk result (sheet.new ≡ written sheet.old (setup_lines prog.now prog.now.setup)) }
{
    let Some(block) = prog.setup() else {
        return Ok(());
    };
    sheet.mark(TokenKind::KwSetup)?;
    sheet.line_end()?;
    push_lines(sheet, prog, block)
}

fn push_scripts(sheet: &mut Sheet, prog: &Program) -> Result<(), AllocError>
    ensures { OnOk result (sheet.new ≡ written sheet.old
        (flat_map (script_lines prog.now) prog.now.scripts)) }
{
    for i in 0..prog.scripts() {
        let (name, block) = prog.script(i);
        sheet.mark(TokenKind::KwScript)?;
        push_name(sheet, prog, name)?;
        sheet.line_end()?;
        push_lines(sheet, prog, block)?;
    }
    Ok(())
}

// Writes the items of a block, each on a line, and the `end`.
fn push_lines(sheet: &mut Sheet, prog: &Program, block: NodeId) -> Result<(), AllocError>
    requires { IsBlockAt prog.now block.0 }
    ensures { OnOk result (sheet.new ≡ written sheet.old (lines_of prog.now (tree_at prog.now block.0))) }
{
    for item in prog.items(block) {
        push_expression(sheet, prog, *item)?;
        sheet.line_end()?;
    }
    sheet.mark(TokenKind::KwEnd)?;
    sheet.line_end()
}
