//! Values of a run.

ghost use Rattle.std.specs.Prelude.{◌≡◌, IfOk};
ghost use Rattle.hb_eval.specs.Values as values;

use crate::text::Text;
use hb_types::ids::ClassId;
use hb_types::types::{Ty, below};
use std::alloc::AllocError;

/// A value. An object has no fields and no identity.
#[derive(Drop)]
pub enum Value {
    Nil,
    Bool(bool),
    Int(i64),
    Str(Text),
    Object(ClassId),
}

impl Value {
    /// Whether it counts as false.
    pub fn is_false(&self) -> bool
        ensures { result ≡ values.is_false self.now }
    {
        match self {
            Value::Nil => true,
            Value::Bool(truth) => !*truth,
            _ => false,
        }
    }

    /// Its least type.
    pub fn kind(&self) -> Ty
        ensures { result ≡ values.kind_of self.now }
    {
        match self {
            Value::Nil => Ty::Nil,
            Value::Bool(_) => Ty::Bool,
            Value::Int(_) => Ty::Int,
            Value::Str(_) => Ty::Str,
            Value::Object(class) => Ty::Class(*class),
        }
    }

    /// Whether it is one of the type.
    pub fn conforms(&self, ty: Ty) -> bool
        ensures { result ≡ values.conforms self.now ty }
    {
        below(self.kind(), ty)
    }

    /// Whether both are the same.
    pub fn is_same(&self, other: &Value) -> bool
        ensures { result ≡ values.same self.now other.now }
    {
        match (self, other) {
            (Value::Nil, Value::Nil) => true,
            (Value::Bool(x), Value::Bool(y)) => *x == *y,
            (Value::Int(x), Value::Int(y)) => *x == *y,
            (Value::Str(x), Value::Str(y)) => x.bytes() == y.bytes(),
            (Value::Object(x), Value::Object(y)) => x.0 == y.0,
            _ => false,
        }
    }

    /// The same value once more. A text shares its bytes.
    #[inline(always)]
    pub fn copied(&self) -> Result<Value, AllocError>
        ensures { IfOk result (λ value. value ≡ self.now) }
    {
        match self {
            // Numbers are most frequent.
            Value::Int(number) => Ok(Value::Int(*number)),
            _ => Ok(self.copied_apart()?),
        }
    }

    // The same out of line.
    #[inline(never)]
    fn copied_apart(&self) -> Result<Value, AllocError>
        ensures { IfOk result (λ value. value ≡ self.now) }
    {
        match self {
            Value::Nil => Ok(Value::Nil),
            Value::Bool(truth) => Ok(Value::Bool(*truth)),
            Value::Int(number) => Ok(Value::Int(*number)),
            Value::Str(text) => match text.shared() {
                Ok(text) => Ok(Value::Str(text)),
                Err(fail) => Err(fail),
            },
            Value::Object(class) => Ok(Value::Object(*class)),
        }
    }
}
