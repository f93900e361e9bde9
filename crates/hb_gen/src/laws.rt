//! What is true of each generated text.

ghost use Rattle.std.specs.Prelude.{◌≤◌, ◌^◌, ℕ, length};
ghost use Rattle.hb_gen.specs.Generated.{generated};

use crate::texts::NUMBER_MAX;

/// A generated text has at most 1,048,576 bytes, the limit of a text.
pub fn generated_texts_are_short()
    ensures { (n : ℕ) → n ≤ NUMBER_MAX → length (generated n) ≤ 2 ^ 20 }
{}
