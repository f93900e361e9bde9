//! Expressions and blocks, written by their forms.

ghost use Rattle.std.specs.Prelude.{◌≡◌, ◌<◌, All, OnOk, length};
ghost use Rattle.std.specs.List.{AllByRecursion};
ghost use Rattle.hb_tree.specs.Tree.{TAssign, TPrint, TToStr, TNot, TBinary, TIf, TWhile, TCall, TNew};
ghost use Rattle.hb_tree.specs.Nodes.{name_parts};
ghost use Rattle.hb_tree.specs.TreeAt.{forest_at, tree_at, tree_of, IsExprAt, IsBlockAt};
ghost use Rattle.hb_tree.specs.Program.{IsMethodIn};
ghost use Rattle.hb_tree.specs.Pieces.{mark};
ghost use Rattle.hb_tree.specs.Canon.{arguments, declares, each, least_left, least_right, op_kind, otherwise, own, separated, wrap};
ghost use Rattle.hb_tree.specs.Forms.{method_pieces, node_level};
ghost use Rattle.hb_tree.specs.Page.{written};
ghost use Rattle.hb_tree.specs.declared.node.Node.TheVariants as node;

use crate::node::{Method, Node, Op, arguments};
use crate::program::Program;
use crate::sheet::Sheet;
use crate::words::{push_class, push_name, push_parameters, push_signature, push_text};
use hb_lex::TokenKind;
use hb_types::ids::{BodySite, ClassId, NameId, NodeId, TypeSite};
use std::alloc::AllocError;

/// Writes an expression, without parentheses round it.
#[cycle(forms)]
pub fn push_expression(sheet: &mut Sheet, prog: &Program, id: NodeId) -> Result<(), AllocError>
    requires { IsExprAt prog.now id.0 }
    ensures { OnOk result (sheet.new ≡ written sheet.old (own prog.now (tree_at prog.now id.0))) }
{
    match prog.node(id) {
        Node::Nil => sheet.mark(TokenKind::KwNil),
        Node::True => sheet.mark(TokenKind::KwTrue),
        Node::False => sheet.mark(TokenKind::KwFalse),
        Node::SelfRef => sheet.mark(TokenKind::KwSelf),
        Node::Int(number) => sheet.number(number),
        Node::Text(text) => push_text(sheet, prog, text),
        Node::Var(name) => push_name(sheet, prog, name),
        Node::New(class) => push_new(sheet, prog, class),
        Node::Assign(name, value) => push_assign(sheet, prog, name, value),
        Node::Print(value) => push_print(sheet, prog, value),
        Node::ToStr(value) => push_to_str(sheet, prog, value),
        Node::Not(operand) => push_not(sheet, prog, operand),
        Node::Binary(op, left, right) => push_binary(sheet, prog, op, left, right),
        Node::If(condition, then, other) => push_if(sheet, prog, condition, then, other),
        Node::While(condition, body) => push_while(sheet, prog, condition, body),
        Node::Call(receiver, name, args) => push_call(
            sheet,
            prog,
            receiver,
            name,
            arguments(&args),
        ),
        Node::Def(method, site) => push_def(sheet, prog, method, site),
        Node::Declare(method, site, asks) => push_declare(sheet, prog, method, site, asks),
        Node::Block(_, _) => unreachable!(),
    }
}

// Writes an operand, in parentheses where it is below this level.
#[cycle(forms)]
fn push_operand(sheet: &mut Sheet, prog: &Program, id: NodeId, least: u8) -> Result<(), AllocError>
    requires { IsExprAt prog.now id.0 }
    ensures { let operand = tree_at prog.now id.0 in
        OnOk result (sheet.new ≡ written sheet.old (wrap least operand (own prog.now operand))) }
{
    if level(prog.node(id)) < least {
        sheet.mark(TokenKind::OpenParen)?;
        push_expression(sheet, prog, id)?;
        sheet.mark(TokenKind::CloseParen)
    } else {
        push_expression(sheet, prog, id)
    }
}

fn push_new(sheet: &mut Sheet, prog: &Program, class: ClassId) -> Result<(), AllocError>
    requires { class.0 < length prog.now.classes }
    ensures { OnOk result (sheet.new ≡ written sheet.old (own prog.now (TNew 0 class.0))) }
{
    push_class(sheet, prog, class)?;
    sheet.mark(TokenKind::Dot)?;
    sheet.mark(TokenKind::KwNew)
}

#[cycle(forms)]
fn push_assign(
    sheet: &mut Sheet,
    prog: &Program,
    name: NameId,
    value: NodeId,
) -> Result<(), AllocError>
    requires name { name.0 < length prog.now.names }
    requires value { IsExprAt prog.now value.0 }
    ensures { OnOk result (sheet.new ≡ written sheet.old
        (own prog.now (TAssign 0 name.0 (tree_at prog.now value.0)))) }
{
    push_name(sheet, prog, name)?;
    sheet.mark(TokenKind::Assign)?;
    push_expression(sheet, prog, value)
}

#[cycle(forms)]
fn push_print(sheet: &mut Sheet, prog: &Program, value: NodeId) -> Result<(), AllocError>
    requires { IsExprAt prog.now value.0 }
    ensures { OnOk result (sheet.new ≡ written sheet.old
        (own prog.now (TPrint 0 (tree_at prog.now value.0)))) }
{
    sheet.mark(TokenKind::KwPrint)?;
    push_expression(sheet, prog, value)
}

#[cycle(forms)]
fn push_to_str(sheet: &mut Sheet, prog: &Program, value: NodeId) -> Result<(), AllocError>
    requires { IsExprAt prog.now value.0 }
    ensures { OnOk result (sheet.new ≡ written sheet.old
        (own prog.now (TToStr 0 (tree_at prog.now value.0)))) }
{
    sheet.mark(TokenKind::KwStr)?;
    sheet.joined_paren()?;
    push_expression(sheet, prog, value)?;
    sheet.mark(TokenKind::CloseParen)
}

#[cycle(forms)]
fn push_not(sheet: &mut Sheet, prog: &Program, operand: NodeId) -> Result<(), AllocError>
    requires { IsExprAt prog.now operand.0 }
    ensures { OnOk result (sheet.new ≡ written sheet.old
        (own prog.now (TNot 0 (tree_at prog.now operand.0)))) }
{
    sheet.mark(TokenKind::KwNot)?;
    push_operand(sheet, prog, operand, 4)
}

#[cycle(forms)]
fn push_binary(
    sheet: &mut Sheet,
    prog: &Program,
    op: Op,
    left: NodeId,
    right: NodeId,
) -> Result<(), AllocError>
    requires left { IsExprAt prog.now left.0 }
    requires right { IsExprAt prog.now right.0 }
    ensures { OnOk result (sheet.new ≡ written sheet.old
        (own prog.now (TBinary 0 op (tree_at prog.now left.0) (tree_at prog.now right.0)))) }
{
    push_operand(sheet, prog, left, least_left(op))?;
    sheet.mark(op_kind(op))?;
    push_operand(sheet, prog, right, least_right(op))
}

#[cycle(forms)]
fn push_if(
    sheet: &mut Sheet,
    prog: &Program,
    condition: NodeId,
    then: NodeId,
    other: NodeId,
) -> Result<(), AllocError>
    requires condition { IsExprAt prog.now condition.0 }
    requires block { IsBlockAt prog.now then.0 }
    requires other { IsBlockAt prog.now other.0 }
    ensures { OnOk result (sheet.new ≡ written sheet.old (own prog.now
        (TIf 0 (tree_at prog.now condition.0) (tree_at prog.now then.0) (tree_at prog.now other.0)))) }
{
    sheet.mark(TokenKind::KwIf)?;
    push_expression(sheet, prog, condition)?;
    sheet.mark(TokenKind::KwThen)?;
    push_block(sheet, prog, then)?;
    push_else(sheet, prog, other)?;
    sheet.mark(TokenKind::KwEnd)
}

// Writes the block behind `else`, which is left out where it is empty.
#[cycle(forms)]
fn push_else(sheet: &mut Sheet, prog: &Program, block: NodeId) -> Result<(), AllocError>
    requires { IsBlockAt prog.now block.0 }
    ensures { let other = tree_at prog.now block.0 in
        OnOk result (sheet.new ≡ written sheet.old (otherwise other (own prog.now other))) }
{
    if prog.items(block).is_empty() {
        return Ok(());
    }
    sheet.mark(TokenKind::KwElse)?;
    push_block(sheet, prog, block)
}

#[cycle(forms)]
fn push_while(
    sheet: &mut Sheet,
    prog: &Program,
    condition: NodeId,
    body: NodeId,
) -> Result<(), AllocError>
    requires condition { IsExprAt prog.now condition.0 }
    requires body { IsBlockAt prog.now body.0 }
    ensures { OnOk result (sheet.new ≡ written sheet.old
        (own prog.now (TWhile 0 (tree_at prog.now condition.0) (tree_at prog.now body.0)))) }
{
    sheet.mark(TokenKind::KwWhile)?;
    push_expression(sheet, prog, condition)?;
    sheet.mark(TokenKind::KwDo)?;
    push_block(sheet, prog, body)?;
    sheet.mark(TokenKind::KwEnd)
}

#[cycle(forms)]
fn push_call(
    sheet: &mut Sheet,
    prog: &Program,
    receiver: NodeId,
    name: NameId,
    args: &[NodeId],
) -> Result<(), AllocError>
    requires receiver { IsExprAt prog.now receiver.0 }
    requires name { name.0 < length prog.now.names }
    requires args { All (λ i. IsExprAt prog.now i.0) args.now }
    ensures { let part = tree_at prog.now in OnOk result (sheet.new ≡ written sheet.old
        (own prog.now (TCall 0 (part receiver.0) name.0 (forest_at part args.now)))) }
{
    push_operand(sheet, prog, receiver, 5)?;
    sheet.mark(TokenKind::Dot)?;
    push_name(sheet, prog, name)?;
    push_arguments(sheet, prog, args)
}

#[cycle(forms)]
fn push_arguments(sheet: &mut Sheet, prog: &Program, args: &[NodeId]) -> Result<(), AllocError>
    requires { All (λ i. IsExprAt prog.now i.0) args.now }
    ensures { OnOk result (sheet.new ≡ written sheet.old
        (arguments (each prog.now (forest_at (tree_at prog.now) args.now)))) }
{
    if args.is_empty() {
        return Ok(());
    }
    sheet.joined_paren()?;
    push_separated(sheet, prog, TokenKind::Comma, args)?;
    sheet.mark(TokenKind::CloseParen)
}

#[cycle(forms)]
fn push_def(
    sheet: &mut Sheet,
    prog: &Program,
    method: Method,
    site: BodySite,
) -> Result<(), AllocError>
    requires method { IsMethodIn prog.now method }
    requires name { AllByRecursion (IsExprAt prog.now) (name_parts method) }
    requires site { site.0 < length prog.now.bodies }
    ensures { OnOk result (sheet.new ≡ written sheet.old
        (own prog.now (tree_of prog.now (tree_at prog.now) 0 (node.Def method site)))) }
{
    sheet.mark(TokenKind::KwDef)?;
    push_method(sheet, prog, method)?;
    push_parameters(sheet, prog, site)?;
    push_block(sheet, prog, prog.body(site).block)?;
    sheet.mark(TokenKind::KwEnd)
}

#[cycle(forms)]
fn push_declare(
    sheet: &mut Sheet,
    prog: &Program,
    method: Method,
    site: TypeSite,
    asks: bool,
) -> Result<(), AllocError>
    requires method { IsMethodIn prog.now method }
    requires name { AllByRecursion (IsExprAt prog.now) (name_parts method) }
    requires site { site.0 < length prog.now.types }
    ensures { OnOk result (sheet.new ≡ written sheet.old
        (own prog.now (tree_of prog.now (tree_at prog.now) 0 (node.Declare method site asks)))) }
{
    sheet.mark(declares(asks))?;
    push_method(sheet, prog, method)?;
    push_signature(sheet, prog, site)
}

#[cycle(forms)]
fn push_method(sheet: &mut Sheet, prog: &Program, method: Method) -> Result<(), AllocError>
    requires method { IsMethodIn prog.now method }
    requires name { AllByRecursion (IsExprAt prog.now) (name_parts method) }
    ensures { OnOk result (sheet.new ≡ written sheet.old (method_pieces prog.now method)) }
{
    match method {
        Method::Named(class, name) => {
            push_class(sheet, prog, class)?;
            sheet.mark(TokenKind::Dot)?;
            push_name(sheet, prog, name)
        }
        Method::Computed(class, name) => {
            push_class(sheet, prog, class)?;
            sheet.mark(TokenKind::Dot)?;
            sheet.mark(TokenKind::OpenParen)?;
            push_expression(sheet, prog, name)?;
            sheet.mark(TokenKind::CloseParen)
        }
    }
}

// Writes the items of a block within a line.
#[cycle(forms)]
fn push_block(sheet: &mut Sheet, prog: &Program, block: NodeId) -> Result<(), AllocError>
    requires { IsBlockAt prog.now block.0 }
    ensures { OnOk result (sheet.new ≡ written sheet.old (own prog.now (tree_at prog.now block.0))) }
{
    push_separated(sheet, prog, TokenKind::Separator, prog.items(block))
}

// Writes expressions with a mark between each two.
#[cycle(forms)]
fn push_separated(
    sheet: &mut Sheet,
    prog: &Program,
    between: TokenKind,
    ids: &[NodeId],
) -> Result<(), AllocError>
    requires { All (λ i. IsExprAt prog.now i.0) ids.now }
    ensures { OnOk result (sheet.new ≡ written sheet.old
        (separated (mark between) (each prog.now (forest_at (tree_at prog.now) ids.now)))) }
{
    let [first, rest @ ..] = ids else {
        return Ok(());
    };
    push_expression(sheet, prog, *first)?;
    for id in rest {
        sheet.mark(between)?;
        push_expression(sheet, prog, *id)?;
    }
    Ok(())
}

fn declares(asks: bool) -> TokenKind
    ensures { result ≡ declares asks }
{
    if asks {
        TokenKind::KwTypeAsk
    } else {
        TokenKind::KwType
    }
}

// How tightly an expression holds together.
fn level(node: Node) -> u8
    ensures { result ≡ node_level node }
{
    match node {
        Node::Assign(_, _) | Node::Print(_) | Node::Declare(_, _, _) => 0,
        Node::Binary(Op::Less | Op::Equal, _, _) => 1,
        Node::Binary(Op::Add | Op::Sub | Op::Concat, _, _) => 2,
        Node::Binary(Op::Mul, _, _) => 3,
        Node::Not(_) => 4,
        _ => 5,
    }
}

// The least level of a left operand without parentheses.
fn least_left(op: Op) -> u8
    ensures { result ≡ least_left op }
{
    match op {
        Op::Less | Op::Equal | Op::Add | Op::Sub | Op::Concat => 2,
        Op::Mul => 3,
    }
}

// The least level of a right operand without parentheses.
fn least_right(op: Op) -> u8
    ensures { result ≡ least_right op }
{
    match op {
        Op::Less | Op::Equal => 2,
        Op::Add | Op::Sub | Op::Concat => 3,
        Op::Mul => 4,
    }
}

fn op_kind(op: Op) -> TokenKind
    ensures { result ≡ op_kind op }
{
    match op {
        Op::Add => TokenKind::Plus,
        Op::Sub => TokenKind::Minus,
        Op::Mul => TokenKind::Times,
        Op::Concat => TokenKind::Concat,
        Op::Less => TokenKind::Less,
        Op::Equal => TokenKind::Equals,
    }
}
