//! How much a program has at most.

pub const CLASSES_MAX: usize = 256;

pub const SCRIPTS_MAX: usize = 16;

pub const NODES_MAX: usize = 65_535;

/// `type`s and `type?`s.
pub const TYPES_MAX: usize = 65_534;

/// How high a node is: one more than the highest of its parts.
pub const HEIGHT_MAX: usize = 256;

/// How many constructs of a text are open inside one another.
pub const CONSTRUCTS_MAX: usize = 256;

pub const NODES_IN_BODY_MAX: usize = 4_096;

pub const CALLS_IN_BODY_MAX: usize = 32;

/// Names that a body, the setup or a script assigns or has as parameters.
pub const VARIABLES_MAX: usize = hb_types::env::VARIABLES_MAX;

pub const ARGUMENTS_MAX: usize = 4;

/// Bytes of a name or of the name of a class.
pub const WORD_BYTES_MAX: usize = 64;

/// Bytes of a text.
pub const TEXT_BYTES_MAX: usize = 1_024;
