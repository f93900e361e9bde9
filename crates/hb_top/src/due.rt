//! What a call of the program comes to.

ghost use Rattle.std.specs.Prelude.{◌≡◌, IfOk};

use std::alloc::{AllocError, Global};

/// Why nothing is due.
#[derive(Clone, Copy, Debug, PartialEq, Eq)]
pub enum Stop {
    Memory,
    Fault,
}

impl From<AllocError> for Stop {
    ghost use Rattle.hb_top.specs.declared.due.Stop.TheVariants.{Memory};

    ghost from_gives = { λ _ e. e ≡ Memory };

    fn from(_: AllocError) -> Stop {
        Stop::Memory
    }
}

/// How a call ends that met no want of memory and no fault.
#[derive(Clone, Copy, Debug, PartialEq, Eq)]
pub enum Ending {
    Done,
    Stopped,
    TextRefused,
    WordsRefused,
}

impl Ending {
    ghost use Rattle.hb_top.specs.Outcomes.{status_of};

    /// The exit status.
    pub fn status(self) -> u8
        ensures { result ≡ status_of self }
    {
        match self {
            Ending::Done => 0,
            Ending::Stopped => 6,
            Ending::TextRefused => 1,
            Ending::WordsRefused => 2,
        }
    }
}

/// What is due: how the call ends, and the text.
#[derive(Debug, Drop)]
pub struct Due {
    pub ending: Ending,
    pub text: Vec<u8>,
}

impl Due {
    ghost use Rattle.hb_top.specs.Outcomes.{IsDue};

    /// One text.
    pub fn new(alloc: Global, ending: Ending, text: &str) -> Result<Due, AllocError>
        ensures { IfOk result (λ due. IsDue due ending text.now) }
    {
        let text = text.as_bytes().to_vec(alloc)?;
        Ok(Due { ending, text })
    }
}
