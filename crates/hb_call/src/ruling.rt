//! What a call comes to, from its definition on.

ghost use Rattle.std.specs.Prelude.{◌≡◌};
ghost use Rattle.hb_call.specs.Deciding.{told, verdict_by};

use crate::frame::Frame;
use hb_check::Checked;
use hb_deriv::raw::Derivation;
use hb_tables::entry::{By, Verdict};
use hb_types::ids::BodySite;

/// What a call comes to, before it is decided.
#[derive(Debug, Drop)]
pub enum Ruling {
    /// Its body may run by the check that is kept.
    Kept(BodySite),
    /// Its body may run by this check.
    Checked(Derivation),
    /// With this definition it may not run, for this reason.
    Refused(Option<BodySite>, Verdict),
}

impl Ruling {
    /// The verdict that is written down.
    pub fn verdict(&self) -> Verdict
        ensures { result ≡ verdict_by self.now }
    {
        match self {
            Ruling::Kept(_) => Verdict::Enter(By::Own),
            Ruling::Checked(_) => Verdict::Enter(By::Fresh),
            Ruling::Refused(_, verdict) => *verdict,
        }
    }
}

/// What a check of the body comes to.
pub fn told(body: BodySite, found: Checked) -> Ruling
    ensures { result ≡ told body found }
{
    match found {
        Checked::Good(derivation) => Ruling::Checked(derivation),
        Checked::Bad(ill) => Ruling::Refused(Some(body), Verdict::IllTyped(ill)),
    }
}

/// A call that was decided. Nothing was kept of it yet.
#[derive(Debug, Drop)]
pub enum Ended {
    /// Its body may run by the check that is kept.
    Own(Frame),
    /// Its body may run by this check.
    Fresh(Frame, Derivation),
    /// It may not, for this reason.
    Refused(Verdict),
}
