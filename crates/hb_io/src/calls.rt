// The calls of an object in memory: it counts them, and those whose numbers are listed fail.
ghost use Rattle.std.specs.Prelude.{◌↔◌, ◌⊎◌, IsTrue, IsErr, Contains};
ghost use Rattle.hb_io.specs.Causes.{HasCause};
ghost use Rattle.hb_io.specs.Calls.{Counts, FailsNext, IsNewCalls, faults_of};

use crate::Failed;

#[derive(Debug, Drop)]
pub(crate) struct Calls {
    fails: Vec<u32>,
    made: u64,
    faults: u64,
}

impl Calls {
    // No call was made; those with these numbers, from 1, are to fail.
    pub(crate) fn new(fails: Vec<u32>) -> Calls
        ensures { IsNewCalls result fails.items }
    {
        Calls {
            fails,
            made: 0,
            faults: 0,
        }
    }

    // Counts one more call, which fails where its number is listed, or where it is refused anyhow.
    pub(crate) fn count(&mut self, is_refused: bool) -> Result<(), Failed>
        ensures counted { Counts self.old self.new result }
        ensures cause { HasCause (faults_of self.old) (faults_of self.new) result }
        ensures fails { IsErr result ↔ (FailsNext self.old ⊎ IsTrue is_refused) }
    {
        self.made = self.made.saturating_add(1);
        if is_refused || is_listed(self.fails.as_slice(), self.made) {
            self.faults = self.faults.saturating_add(1);
            return Err(Failed);
        }
        Ok(())
    }
}

// Whether the call with this number is one of those that fail.
fn is_listed(fails: &[u32], call: u64) -> bool
    ensures { IsTrue result ↔ Contains fails.now call }
{
    fails.iter().any(|number| u64::from(*number) == call)
}
