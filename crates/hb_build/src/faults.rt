//! Why tokens are no program.

use hb_grammar::Wanted;
use std::alloc::{AllocError, AllocFailed};
use std::error::Error;
use std::fmt;

/// A thing of which a program has too many.
#[derive(Clone, Copy, Debug, PartialEq, Eq)]
pub enum Limit {
    Classes,
    Scripts,
    Nodes,
    Types,
    /// Nodes of one body.
    Body,
    /// Calls of one body.
    Calls,
    /// Variables of one body, of the setup or of a script.
    Variables,
    Parameters,
    Arguments,
}

/// Why tokens are no program: the first fault, at the byte with this number, counted from 0.
#[derive(Clone, Copy, Debug, PartialEq, Eq)]
pub enum ParseFail {
    /// The tokens stop here to begin a program, which goes on with what is wanted.
    Expected(Wanted, u32),
    /// No class of this name is declared before.
    UnknownClass(u32),
    TwiceClass(u32),
    TwiceScript(u32),
    TwiceParam(u32),
    /// More than 256 constructs inside one another, or a node that is higher.
    TooDeep(u32),
    TooMany(Limit, u32),
    /// No fault of the tokens: memory ran out.
    NoMemory,
}

impl fmt::Display for Limit {
    fn fmt<W: fmt::Write>(&self, f: &mut fmt::Formatter<W>) -> fmt::Result {
        f.write_str(match self {
            Limit::Classes => "classes",
            Limit::Scripts => "scripts",
            Limit::Nodes => "nodes",
            Limit::Types => "types",
            Limit::Body => "body",
            Limit::Calls => "calls",
            Limit::Variables => "variables",
            Limit::Parameters => "parameters",
            Limit::Arguments => "arguments",
        })
    }
}

impl From<AllocError> for ParseFail {
    ghost use Rattle.std.specs.Prelude.{◌≡◌};
    ghost use Rattle.hb_build.specs.declared.faults.ParseFail.TheVariants.{NoMemory};

    ghost from_gives = { λ _ e. e ≡ NoMemory };

    fn from(_: AllocError) -> Self {
        ParseFail::NoMemory
    }
}

impl<T: Drop> From<AllocFailed<T>> for ParseFail {
    ghost use Rattle.std.specs.Prelude.{◌≡◌};
    ghost use Rattle.hb_build.specs.declared.faults.ParseFail.TheVariants.{NoMemory};

    ghost from_gives = { λ _ e. e ≡ NoMemory };

    fn from(_: AllocFailed<T>) -> Self {
        ParseFail::NoMemory
    }
}

impl fmt::Display for ParseFail {
    fn fmt<W: fmt::Write>(&self, f: &mut fmt::Formatter<W>) -> fmt::Result {
        match self {
            ParseFail::Expected(wanted, _) => write!(f, "Expected {wanted}"),
            ParseFail::UnknownClass(_) => f.write_str("UnknownClass"),
            ParseFail::TwiceClass(_) => f.write_str("TwiceClass"),
            ParseFail::TwiceScript(_) => f.write_str("TwiceScript"),
            ParseFail::TwiceParam(_) => f.write_str("TwiceParam"),
            ParseFail::TooDeep(_) => f.write_str("TooDeep"),
            ParseFail::TooMany(limit, _) => write!(f, "TooMany {limit}"),
            ParseFail::NoMemory => f.write_str("out of memory"),
        }
    }
}

impl Error for ParseFail {}
