//! The order of turns among the words.

ghost use Rattle.std.specs.Prelude.{◌≡◌, map, option_map, IfOk};
ghost use Rattle.hb_jobs.specs.Orders.{order_of, script_of, scripts_of};

use hb_types::ids::CallerId;
use std::alloc::{AllocError, Global};

/// The turns that may be ordered, at most.
pub const TURNS_MAX: usize = 10_000;

// The script that a character names.
fn script_named(character: u8) -> Option<CallerId>
    ensures { option_map (λ c. c.0) result ≡ script_of character }
{
    match character {
        b'1'..=b'9' => Some(CallerId(character - b'0')),
        b'a'..=b'g' => Some(CallerId(character - b'a' + 10)),
        _ => None,
    }
}

// The scripts that the characters name, where each names one.
fn scripts_named(alloc: Global, text: &[u8]) -> Result<Option<Vec<CallerId>>, AllocError>
    ensures { IfOk result (λ order. option_map (λ scripts. map (λ c. c.0) scripts.items) order ≡ scripts_of text.now) }
{
    let mut scripts = Vec::with_capacity(alloc, text.len())?;
    for character in text {
        match script_named(*character) {
            Some(script) => scripts.push(script)?,
            None => return Ok(None),
        }
    }
    Ok(Some(scripts))
}

/// The turns that a text orders, where it has 1 to `TURNS_MAX` characters and each names a script. (docs/FORMATS.md, "Words")
pub fn order_in(alloc: Global, text: &str) -> Result<Option<Vec<CallerId>>, AllocError>
    ensures { IfOk result (λ order. option_map (λ scripts. map (λ c. c.0) scripts.items) order ≡ order_of text.now) }
{
    if text.is_empty() || text.len() > TURNS_MAX {
        return Ok(None);
    }
    scripts_named(alloc, text.as_bytes())
}
