//! The trace of a history.

ghost use Rattle.std.specs.Prelude.{◌≡◌, ◌++◌, slice_get, IfOk, OnOk};
ghost use Rattle.hb_tables.specs.Rows.{kinds_of};
ghost use Rattle.hb_report.specs.Trace as trace;

use crate::places::{push_fault, push_number, push_place};
use hb_names::NameList;
use hb_tables::entry::{Act, ArgKinds, By, Entry, Verdict};
use hb_tree::program::Program;
use hb_types::ids::{BodySite, CallNo, ClassId, KeyId, TypeSite};
use hb_types::types::Ty;
use std::alloc::{AllocError, Global};

// Adds the name of a class. There is none where the program has no such class.
fn push_class(lines: &mut Vec<u8>, prog: &Program, class: ClassId) -> Result<(), AllocError>
    ensures { OnOk result (lines.new.items ≡ lines.old.items ++ trace.class_name prog.now class.0) }
{
    if class.0 as usize >= prog.classes() {
        return Ok(());
    }
    lines.extend_from_slice(prog.class_name(class))?;
    Ok(())
}

// Adds a method, by its class and its name. There is none where the key has no name.
fn push_method(
    lines: &mut Vec<u8>,
    prog: &Program,
    names: &NameList,
    key: KeyId,
) -> Result<(), AllocError>
    ensures { OnOk result (lines.new.items ≡ lines.old.items ++ trace.method prog.now (slice_get names.now key.0)) }
{
    if key.0 as usize >= names.len() {
        return Ok(());
    }
    let (class, name) = names.name_of(key);
    push_class(lines, prog, class)?;
    lines.push(b'.')?;
    lines.extend_from_slice(name)?;
    Ok(())
}

// Adds a call, by its number and its method.
fn push_call(
    lines: &mut Vec<u8>,
    prog: &Program,
    names: &NameList,
    q: CallNo,
    key: KeyId,
) -> Result<(), AllocError>
    ensures { OnOk result (lines.new.items ≡ lines.old.items ++ trace.call prog.now names.now q.0 key.0) }
{
    push_number(lines, q.0)?;
    lines.push(b' ')?;
    push_method(lines, prog, names, key)?;
    Ok(())
}

// Adds the place of a `type` or `type?`. There is none where the program has no such site.
fn push_type_place(lines: &mut Vec<u8>, prog: &Program, site: TypeSite) -> Result<(), AllocError>
    ensures { OnOk result (lines.new.items ≡ lines.old.items ++ trace.type_place prog.now site) }
{
    if site.0 as usize >= prog.types() {
        return Ok(());
    }
    push_place(lines, prog, prog.type_node(site))
}

// Adds the place of a `def`. There is none where the program has no such site.
fn push_def_place(lines: &mut Vec<u8>, prog: &Program, site: BodySite) -> Result<(), AllocError>
    ensures { OnOk result (lines.new.items ≡ lines.old.items ++ trace.def_place prog.now site) }
{
    if site.0 as usize >= prog.bodies() {
        return Ok(());
    }
    push_place(lines, prog, prog.body(site).def)
}

// Adds the place of the type that a hold found, if it found one.
fn push_type_found(
    lines: &mut Vec<u8>,
    prog: &Program,
    site: Option<TypeSite>,
) -> Result<(), AllocError>
    ensures { OnOk result (lines.new.items ≡ lines.old.items ++ trace.type_or_none prog.now site) }
{
    match site {
        None => {
            lines.extend_from_slice(b"none")?;
            Ok(())
        }
        Some(site) => push_type_place(lines, prog, site),
    }
}

// Adds the place of the definition that a call had, if it had one.
fn push_def_found(
    lines: &mut Vec<u8>,
    prog: &Program,
    site: Option<BodySite>,
) -> Result<(), AllocError>
    ensures { OnOk result (lines.new.items ≡ lines.old.items ++ trace.def_or_none prog.now site) }
{
    match site {
        None => {
            lines.extend_from_slice(b"none")?;
            Ok(())
        }
        Some(site) => push_def_place(lines, prog, site),
    }
}

// Adds the word of a kind.
fn push_kind(lines: &mut Vec<u8>, prog: &Program, kind: Ty) -> Result<(), AllocError>
    ensures { OnOk result (lines.new.items ≡ lines.old.items ++ trace.kind_word prog.now kind) }
{
    let word = match kind {
        Ty::Nil => "Nil",
        Ty::Bool => "Bool",
        Ty::Int => "Int",
        Ty::Str => "Str",
        Ty::Any => "Any",
        Ty::Class(class) => return push_class(lines, prog, class),
    };
    lines.extend_from_slice(word.as_bytes())?;
    Ok(())
}

// The kinds of a call's arguments.
fn kinds(args: &ArgKinds) -> &[Ty]
    ensures { result.now ≡ kinds_of args.now }
{
    let kinds: &[Ty] = &args.kinds;
    let count = (args.count as usize).min(kinds.len());
    &kinds[..count]
}

// Adds the kinds of a call's arguments, with a comma between two.
fn push_kinds(lines: &mut Vec<u8>, prog: &Program, kinds: &[Ty]) -> Result<(), AllocError>
    ensures { OnOk result (lines.new.items ≡ lines.old.items ++ trace.kinds_text prog.now kinds.now) }
{
    let Some((first, others)) = kinds.split_first() else {
        return Ok(());
    };
    push_kind(lines, prog, *first)?;
    for kind in others {
        lines.push(b',')?;
        push_kind(lines, prog, *kind)?;
    }
    Ok(())
}

// The word for the way on which a body was entered.
fn way_word(way: By) -> &'static str
    ensures { result.now ≡ trace.way_word way }
{
    match way {
        By::Own => "own",
        By::Shared => "shared",
        By::Fresh => "fresh",
    }
}

// Adds what a call came to.
fn push_verdict(lines: &mut Vec<u8>, prog: &Program, verdict: Verdict) -> Result<(), AllocError>
    ensures { OnOk result (lines.new.items ≡ lines.old.items ++ trace.verdict_text prog.now verdict) }
{
    match verdict {
        Verdict::Enter(way) => {
            lines.extend_from_slice(b"enter ")?;
            lines.extend_from_slice(way_word(way).as_bytes())?;
            Ok(())
        }
        Verdict::NoBody => Ok(lines.extend_from_slice(b"NoBody")?),
        Verdict::NoType => Ok(lines.extend_from_slice(b"NoType")?),
        Verdict::BadArgs => Ok(lines.extend_from_slice(b"BadArgs")?),
        Verdict::IllTyped(ill) => {
            lines.extend_from_slice(b"IllTyped")?;
            push_fault(lines, prog, ill)
        }
    }
}

// Adds the end of a call's line: its definition, its arguments' kinds, and what it came to.
fn push_decision(
    lines: &mut Vec<u8>,
    prog: &Program,
    site: Option<BodySite>,
    args: &ArgKinds,
    verdict: Verdict,
) -> Result<(), AllocError>
    ensures { OnOk result (lines.new.items ≡ lines.old.items ++ trace.decision prog.now site (kinds_of args.now) verdict) }
{
    push_def_found(lines, prog, site)?;
    lines.extend_from_slice(b" (")?;
    push_kinds(lines, prog, kinds(args))?;
    lines.extend_from_slice(b") ")?;
    push_verdict(lines, prog, verdict)?;
    Ok(())
}

// The word for what was done.
fn word(act: &Act) -> &'static str
    ensures { result.now ≡ trace.word act.now }
{
    match act {
        Act::Hold { .. } => " hold ",
        Act::Free { .. } => " free ",
        Act::Retype { .. } => " type ",
        Act::Busy { .. } => " busy ",
        Act::WornType { .. } => " worn type ",
        Act::Define { .. } => " def ",
        Act::WornDef { .. } => " worn def ",
        Act::Call { .. } => " call ",
    }
}

// Adds what was done.
fn push_act(
    lines: &mut Vec<u8>,
    prog: &Program,
    names: &NameList,
    act: &Act,
) -> Result<(), AllocError>
    ensures { OnOk result (lines.new.items ≡ lines.old.items ++ (trace.word act.now ++ trace.about prog.now names.now act.now)) }
{
    lines.extend_from_slice(word(act).as_bytes())?;
    match *act {
        Act::Hold {
            key,
            q,
            ty,
            changes,
        } => {
            push_call(lines, prog, names, q, key)?;
            lines.push(b' ')?;
            push_type_found(lines, prog, ty)?;
            lines.push(b' ')?;
            push_number(lines, changes)?;
            Ok(())
        }
        Act::Free { key, q } => push_call(lines, prog, names, q, key),
        Act::Retype { key, site } => {
            push_method(lines, prog, names, key)?;
            lines.push(b' ')?;
            push_type_place(lines, prog, site)
        }
        Act::Busy { key, pins } => {
            push_method(lines, prog, names, key)?;
            lines.push(b' ')?;
            push_number(lines, pins)
        }
        Act::Define { key, site } => {
            push_method(lines, prog, names, key)?;
            lines.push(b' ')?;
            push_def_place(lines, prog, site)
        }
        Act::WornType { key } | Act::WornDef { key } => push_method(lines, prog, names, key),
        Act::Call {
            key,
            q,
            site,
            args,
            verdict,
        } => {
            push_call(lines, prog, names, q, key)?;
            lines.push(b' ')?;
            push_decision(lines, prog, site, &args, verdict)
        }
    }
}

/// The trace of these entries, whose keys have these names: a line for each, in their order. (docs/FORMATS.md, "Trace")
pub fn trace(
    alloc: Global,
    prog: &Program,
    names: &NameList,
    entries: &[Entry],
) -> Result<Vec<u8>, AllocError>
    ensures { IfOk result (λ bytes. bytes.items ≡ trace.trace_of prog.now names.now entries.now) }
{
    let mut lines = Vec::from_slice(alloc, b"trace\n")?;
    for entry in entries {
        push_number(&mut lines, u32::from(entry.caller.0))?;
        push_act(&mut lines, prog, names, &entry.act)?;
        lines.push(b'\n')?;
    }
    Ok(lines)
}
