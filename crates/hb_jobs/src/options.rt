//! What the words may ask for.

ghost use Rattle.std.specs.Prelude.{◌≤◌};
ghost use Rattle.hb_gen.specs.declared.texts.TheConstants.{NUMBER_MAX};
ghost use Rattle.hb_jobs.specs.declared.options.TheConstants.{CHANGES_MAX};

use hb_types::ids::CallerId;

/// The steps of a script where nothing else is said.
pub const STEPS_USUAL: u32 = 1_000_000;

/// The steps of a script, at most.
pub const STEPS_MAX: u32 = 2_000_000;

/// The steps of a script whose acts are to be seen, or whose turns are ordered, at most.
pub const STEPS_SEEN_MAX: u32 = 100_000;

/// How often a type and a definition may change, at most.
pub const CHANGES_MAX: u32 = 16_777_215;

/// The size of a generated text. (docs/FORMATS.md, "Generated programs")
#[derive(Debug, Drop)]
pub struct Size {
    pub number: u32,
    ghost in_range: { (1 ≤ number) × (number ≤ NUMBER_MAX) },
}

/// How a text is to run.
#[derive(Debug, Drop)]
pub struct RunOptions {
    /// The scripts whose turns come first, where an order was given.
    pub order: Option<Vec<CallerId>>,
    /// Whether the trace is wanted.
    pub trace: bool,
    /// The steps of a script.
    pub steps: u32,
    /// How often the type and the definition of a method may change.
    pub changes: u32,
    ghost in_range: { (1 ≤ changes) × (changes ≤ CHANGES_MAX) },
}

/// What the words may ask for.
#[derive(Debug, Drop)]
pub enum Job {
    /// Read a text, run it, and write its report.
    Run(RunOptions),
    /// Read a text, run it, and write its bundle: the text and the derivations of its fresh checks.
    Derive,
    /// Read a bundle, and write for each of its derivations whether it is good.
    Verify,
    /// Write the generated text of this size.
    Gen(Size),
    /// Run the generated text of this size, and write a line of how many calls it made.
    Work(Size),
}
