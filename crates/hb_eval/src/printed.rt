//! Values as texts, and the lines that a script prints.

ghost use Rattle.std.specs.Prelude.{◌≡◌, ◌++◌, ◌≤◌, ◌<◌, ◌↔◌, Ok, Err, length, IfOk, IfErr, OnOk, ◌⊎◌, flat_map};
ghost use Rattle.hb_eval.specs.declared.stop.Fail.TheVariants as fail;
ghost use Rattle.hb_eval.specs.declared.stop.Stop.TheVariants as stop;
ghost use Rattle.hb_eval.specs.Values.{IsKnown};
ghost use Rattle.hb_eval.specs.Printing as printing;

use crate::stop::{Fail, Stop};
use crate::text::Text;
use crate::value::Value;
use hb_tree::limits::TEXT_BYTES_MAX;
use hb_tree::program::Program;
use hb_types::ids::ClassId;
use std::alloc::{AllocError, Global};

/// How many bytes of lines a script prints at most.
pub const OUTPUT_MAX: usize = 1_048_576;

// A text with a copy of these bytes.
fn text_of(alloc: Global, bytes: &[u8]) -> Result<Text, AllocError>
    requires { length bytes.now ≤ TEXT_BYTES_MAX }
    ensures { IfOk result (λ text. text ≡ bytes.now) }
{
    let mut copy = Vec::new(alloc);
    copy.extend_from_slice(bytes)?;
    Text::new(alloc, copy)
}

// The text of a number.
fn number_text(alloc: Global, number: i64) -> Result<Text, AllocError>
    ensures { IfOk result (λ text. text ≡ printing.shown_int number) }
{
    let digits = format!(in alloc; "{number}")?;
    text_of(alloc, digits.as_bytes())
}

// The text of an object.
fn object_text(alloc: Global, prog: &Program, class: ClassId) -> Result<Text, AllocError>
    requires { class.0 < length prog.now.classes }
    ensures { IfOk result (λ text. text ≡ printing.shown_object prog.now class) }
{
    let mut bytes = Vec::new(alloc);
    bytes.extend_from_slice(b"#<")?;
    bytes.extend_from_slice(prog.class_name(class))?;
    bytes.push(b'>')?;
    Text::new(alloc, bytes)
}

/// The text of a value.
pub fn shown(alloc: Global, prog: &Program, value: &Value) -> Result<Text, AllocError>
    requires { IsKnown prog.now value.now }
    ensures { IfOk result (λ text. text ≡ printing.shown prog.now value.now) }
{
    match value {
        Value::Nil => text_of(alloc, b"nil"),
        Value::Bool(true) => text_of(alloc, b"true"),
        Value::Bool(false) => text_of(alloc, b"false"),
        Value::Int(number) => number_text(alloc, *number),
        Value::Str(text) => text.shared(),
        Value::Object(class) => object_text(alloc, prog, *class),
    }
}

// Adds a byte as it is printed.
fn push_byte(output: &mut Vec<u8>, byte: u8) -> Result<(), AllocError>
    ensures { OnOk result (output.new.items ≡ output.old.items ++ printing.escape byte) }
{
    match byte {
        b'\\' => output.extend_from_slice(b"\\\\")?,
        b'\n' => output.extend_from_slice(b"\\n")?,
        b'\t' => output.extend_from_slice(b"\\t")?,
        plain => output.push(plain)?,
    }
    Ok(())
}

// Adds a text as it is printed.
fn push_escaped(output: &mut Vec<u8>, text: &[u8]) -> Result<(), AllocError>
    ensures { OnOk result (output.new.items ≡ output.old.items ++ flat_map printing.escape text.now) }
{
    for byte in text {
        push_byte(output, *byte)?;
    }
    Ok(())
}

// Adds the line that prints a text.
fn push_line(output: &mut Vec<u8>, text: &[u8]) -> Result<(), AllocError>
    ensures { OnOk result (output.new.items ≡ output.old.items ++ printing.print_line text.now) }
{
    output.extend_from_slice(b"> ")?;
    push_escaped(output, text)?;
    output.push(b'\n')?;
    Ok(())
}

/// Prints a text, where there is room for its line. Else nothing is printed.
pub fn print(output: &mut Vec<u8>, text: &[u8]) -> Result<(), Fail>
    ensures printed { OnOk result (output.new.items ≡ output.old.items ++ printing.print_line text.now) }
    ensures fits { OnOk result (length output.new.items ≤ OUTPUT_MAX) }
    ensures full { result ≡ Err (fail.Stopped stop.OutputFull) → (OUTPUT_MAX < length (output.old.items ++ printing.print_line text.now)) × (output.new.items ≡ output.old.items) }
    ensures causes { IfErr result (λ f. (f ≡ fail.NoMemory) ⊎ (f ≡ fail.Stopped stop.OutputFull)) }
{
    let before = output.len();
    push_line(output, text)?;
    if output.len() > OUTPUT_MAX {
        output.truncate(before);
        return Err(Fail::Stopped(Stop::OutputFull));
    }
    Ok(())
}
