//! How far a machine goes at once.

/// How many expressions may begin in one advance of a machine.
pub trait Pace {
    ghost use Rattle.std.specs.Prelude.{◌≡◌, Bool};

    /// Whether more than one may begin.
    ghost far: { Bool };

    /// Whether more than one may begin.
    fn is_far() -> bool
        ensures { result ≡ far };
}

/// One expression begins, as scripts that take turns want it.
#[derive(Clone, Copy, Debug)]
pub struct One;

/// As many expressions begin at once as are read where they stand, all but the last of which ask no table.
#[derive(Clone, Copy, Debug)]
pub struct Far;

impl Pace for One {
    ghost use Rattle.std.specs.Prelude.{false};

    ghost far = { false };

    #[inline(always)]
    fn is_far() -> bool {
        false
    }
}

impl Pace for Far {
    ghost use Rattle.std.specs.Prelude.{true};

    ghost far = { true };

    #[inline(always)]
    fn is_far() -> bool {
        true
    }
}
