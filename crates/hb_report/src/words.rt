//! The words of a report.

ghost use Rattle.std.specs.Prelude.{◌≡◌};
ghost use Rattle.hb_report.specs.Words as words;

use hb_deriv::ill::Reason;
use hb_eval::stop::Stop;

/// The word for a stop.
pub fn stop_word(stop: Stop) -> &'static str
    ensures { result.now ≡ words.stop_word stop }
{
    match stop {
        Stop::NilValue => "NilValue",
        Stop::NoBody => "NoBody",
        Stop::IllTyped(_) => "IllTyped",
        Stop::Overflow => "Overflow",
        Stop::LongText => "LongText",
        Stop::OutputFull => "OutputFull",
        Stop::Busy => "Busy",
        Stop::BadName => "BadName",
        Stop::Deep => "Deep",
        Stop::Full => "Full",
        Stop::Worn => "Worn",
        Stop::Steps => "Steps",
        Stop::NoType => "NoType",
        Stop::BadArgs => "BadArgs",
        Stop::BadOperand => "BadOperand",
        Stop::Unbound => "Unbound",
        Stop::NoSelf => "NoSelf",
    }
}

/// The word for what is wrong in a body.
pub fn reason_word(reason: Reason) -> &'static str
    ensures { result.now ≡ words.reason_word reason }
{
    match reason {
        Reason::Unbound => "Unbound",
        Reason::NoType => "NoType",
        Reason::Receiver => "Receiver",
        Reason::Count => "Count",
        Reason::Argument => "Argument",
        Reason::Operand => "Operand",
        Reason::Loop => "Loop",
        Reason::Result => "Result",
    }
}
