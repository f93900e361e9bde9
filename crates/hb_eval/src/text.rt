//! Texts of a run.

ghost use Rattle.std.specs.Prelude.{◌≡◌, ◌≤◌, length, IfOk};

use hb_tree::limits::TEXT_BYTES_MAX;
use std::alloc::{AllocError, Global};
use std::marker::Model;
use std::sync::Arc;

/// A text, whose bytes its copies share. Contracts see the bytes.
#[derive(Drop)]
pub struct Text {
    bytes: Arc<Vec<u8>>,
}

impl Model for Text {
    ghost use Rattle.std.specs.Prelude.{ℕ, List, ◌≤◌, length};
    ghost use Rattle.std.specs.Arc.{arc_value};
    ghost use Rattle.hb_tree.specs.declared.limits.TheConstants.{TEXT_BYTES_MAX};

    ghost Value = { List ℕ };

    ghost view = { λ t. (arc_value t.bytes).items };

    ghost invariant = { λ t. length (arc_value t.bytes).items ≤ TEXT_BYTES_MAX };
}

impl Text {
    /// The text of these bytes.
    pub fn new(alloc: Global, bytes: Vec<u8>) -> Result<Text, AllocError>
        requires { length bytes.items ≤ TEXT_BYTES_MAX }
        ensures { IfOk result (λ text. text ≡ bytes.items) }
    {
        match Arc::new(alloc, bytes) {
            Ok(bytes) => Ok(Text { bytes }),
            Err(_) => Err(AllocError),
        }
    }

    /// Its bytes.
    pub fn bytes(&self) -> &[u8]
        ensures value { result.now ≡ self.now }
        ensures short { length self.now ≤ TEXT_BYTES_MAX }
    {
        &self.bytes
    }

    /// The same text once more. It shares the bytes.
    pub fn shared(&self) -> Result<Text, AllocError>
        ensures { IfOk result (λ text. text ≡ self.now) }
    {
        let bytes = Arc::try_clone(&self.bytes)?;
        Ok(Text { bytes })
    }
}
