//! The line of a text's first fault.

ghost use Rattle.std.specs.Prelude.{◌≡◌, ◌<◌, ◌+◌, ◌^◌, IfOk, length, string_bytes};
ghost use Rattle.std.specs.Option.{option_map};
ghost use Rattle.hb_lex.specs.Place.{column_at, line_at};
ghost use Rattle.hb_top.specs.Faults.{fault_line, lex_fault, limit_words, parse_fault, wanted_words};
ghost use Rattle.hb_top.specs.Outcomes.{fault_of};

use hb_lex::{LexFail, place_of};
use hb_parse::{Limit, ParseFail, Wanted};
use std::alloc::{AllocError, Global};

/// A fault as it is told: the words of its kind, and the number of its byte.
#[derive(Clone, Copy, Debug)]
pub struct Fault {
    pub words: &'static str,
    pub at: u32,
}

fn wanted_words(wanted: Wanted) -> &'static str
    ensures { result.now ≡ wanted_words wanted }
{
    match wanted {
        Wanted::End => "Expected end",
        Wanted::Then => "Expected then",
        Wanted::Do => "Expected do",
        Wanted::Close => "Expected )",
        Wanted::Expression => "Expected expression",
        Wanted::Name => "Expected name",
        Wanted::TypeWord => "Expected type",
        Wanted::ClassName => "Expected classname",
        Wanted::Open => "Expected (",
        Wanted::Dot => "Expected .",
        Wanted::Colon => "Expected :",
        Wanted::Arrow => "Expected ->",
        Wanted::New => "Expected new",
        Wanted::Item => "Expected item",
    }
}

fn limit_words(limit: Limit) -> &'static str
    ensures { result.now ≡ limit_words limit }
{
    match limit {
        Limit::Classes => "TooMany classes",
        Limit::Scripts => "TooMany scripts",
        Limit::Nodes => "TooMany nodes",
        Limit::Types => "TooMany types",
        Limit::Body => "TooMany body",
        Limit::Calls => "TooMany calls",
        Limit::Variables => "TooMany variables",
        Limit::Parameters => "TooMany parameters",
        Limit::Arguments => "TooMany arguments",
    }
}

/// The fault of a text's bytes. None where memory ran out.
pub fn lex_fault(fail: LexFail) -> Option<Fault>
    ensures { option_map fault_of result ≡ lex_fault fail }
{
    let (words, at) = match fail {
        LexFail::BadByte(at) => ("BadByte", at),
        LexFail::OpenText(at) => ("OpenText", at),
        LexFail::BadEscape(at) => ("BadEscape", at),
        LexFail::BigNumber(at) => ("BigNumber", at),
        LexFail::LongName(at) => ("LongName", at),
        LexFail::LongLiteral(at) => ("LongLiteral", at),
        LexFail::NoMemory => return None,
    };
    Some(Fault { words, at })
}

/// The fault of a text's tokens. None where memory ran out.
pub fn parse_fault(fail: ParseFail) -> Option<Fault>
    ensures { option_map fault_of result ≡ parse_fault fail }
{
    let (words, at) = match fail {
        ParseFail::Expected(wanted, at) => (wanted_words(wanted), at),
        ParseFail::UnknownClass(at) => ("UnknownClass", at),
        ParseFail::TwiceClass(at) => ("TwiceClass", at),
        ParseFail::TwiceScript(at) => ("TwiceScript", at),
        ParseFail::TwiceParam(at) => ("TwiceParam", at),
        ParseFail::TooDeep(at) => ("TooDeep", at),
        ParseFail::TooMany(limit, at) => (limit_words(limit), at),
        ParseFail::NoMemory => return None,
    };
    Some(Fault { words, at })
}

// Line and column of a byte. One behind the end would have those of the end.
fn place_at(text: &[u8], at: u32) -> (u32, u32)
    requires { length text.now + 1 < 2 ^ 32 }
    ensures line { result.0 ≡ line_at text.now at }
    ensures column { result.1 ≡ column_at text.now at }
{
    place_of(text, at.min(text.len() as u32))
}

/// The line of a text's fault.
pub fn fault_line(alloc: Global, text: &[u8], fault: Fault) -> Result<String, AllocError>
    requires { length text.now + 1 < 2 ^ 32 }
    ensures { IfOk result (λ line. string_bytes line ≡ fault_line text.now (fault_of fault)) }
{
    let (line, column) = place_at(text, fault.at);
    let words = fault.words;
    format!(in alloc; "text {words} {line}:{column}\n")
}
