//! What a generated program says of one class.

ghost use Rattle.std.specs.Prelude.{◌≡◌, ◌++◌, OnOk, string_bytes};
ghost use Rattle.hb_gen.specs.Generated.{add_lines, block, class_line, print_line, sum_lines};

use std::alloc::AllocError;
use std::fmt::Write;

/// Adds the line that declares the class of this number.
pub fn push_class(text: &mut String, i: u32) -> Result<(), AllocError>
    ensures { OnOk result (string_bytes text.new ≡ string_bytes text.old ++ class_line i) }
{
    write!(text, "class C{i}\n")
}

// Adds the method that adds two numbers.
fn push_add(text: &mut String, i: u32) -> Result<(), AllocError>
    ensures { OnOk result (string_bytes text.new ≡ string_bytes text.old ++ add_lines i) }
{
    write!(text, "type C{i}.add : (Int, Int) -> Int\n")?;
    write!(text, "def C{i}.add(a, b) a + b end\n")
}

// Adds the method that adds the numbers up to a number.
fn push_sum(text: &mut String, i: u32) -> Result<(), AllocError>
    ensures { OnOk result (string_bytes text.new ≡ string_bytes text.old ++ sum_lines i) }
{
    write!(text, "type C{i}.sum : (Int) -> Int\n")?;
    write!(
        text,
        "def C{i}.sum(n) t = 0; while 0 < n do t = self.add(t, n); n = n - 1 end; t end\n"
    )
}

// Adds the line that prints a sum.
fn push_print(text: &mut String, i: u32) -> Result<(), AllocError>
    ensures { OnOk result (string_bytes text.new ≡ string_bytes text.old ++ print_line i) }
{
    write!(text, "print C{i}.new.sum({i})\n")
}

/// Adds the block of the class of this number: its two methods, and a line that prints a sum by them.
pub fn push_block(text: &mut String, i: u32) -> Result<(), AllocError>
    ensures { OnOk result (string_bytes text.new ≡ string_bytes text.old ++ block i) }
{
    push_add(text, i)?;
    push_sum(text, i)?;
    push_print(text, i)
}
