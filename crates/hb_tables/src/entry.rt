//! What a caller did to the tables.

use hb_deriv::ill::Ill;
use hb_types::ids::{BodySite, CallNo, CallerId, KeyId, TypeSite};
use hb_types::types::{PARAMS_MAX, Ty};

/// How many calls of one caller hold a key at once: those of the frames, and the one that is being decided.
pub const HOLDS_MAX: usize = 4_097;

/// Each body site is below this number, since a definition is a node.
pub const BODIES_MAX: usize = hb_tree::limits::NODES_MAX;

/// The greatest limit of changes.
pub const VERSIONS_MAX: u32 = 16_777_215;

/// Where the derivation comes from by which a body is entered.
#[derive(Clone, Copy, Debug, PartialEq, Eq)]
pub enum By {
    /// The caller's own cache.
    Own,
    /// Another caller.
    Shared,
    /// A check of this call.
    Fresh,
}

/// What becomes of a call.
#[derive(Clone, Copy, Debug, PartialEq, Eq)]
pub enum Verdict {
    Enter(By),
    /// The method has no definition.
    NoBody,
    /// The method has no type.
    NoType,
    /// The type does not take these arguments.
    BadArgs,
    IllTyped(Ill),
}

/// The kinds of the arguments of a call, each the least type of its value.
#[derive(Clone, Copy, Debug, PartialEq, Eq)]
pub struct ArgKinds {
    /// How many arguments there are.
    pub count: u8,
    /// The kinds in their order, filled with `Nil` past the count.
    pub kinds: [Ty; PARAMS_MAX],
}

/// What is done at one step. A key is one of the run's names of methods, and comes first, so that an entry is small.
#[derive(Clone, Copy)]
pub enum Act {
    /// The call `q` begins to hold the key, and finds this type and this number of changes.
    Hold {
        key: KeyId,
        q: CallNo,
        ty: Option<TypeSite>,
        changes: u32,
    },
    /// The call `q` holds the key no longer.
    Free {
        key: KeyId,
        q: CallNo,
    },
    /// The key gets the type of the site.
    Retype {
        key: KeyId,
        site: TypeSite,
    },
    /// It would get one, but so many calls hold it.
    Busy {
        key: KeyId,
        pins: u32,
    },
    /// It would get one, but its type was changed as often as may be.
    WornType {
        key: KeyId,
    },
    /// The key gets the definition of the site.
    Define {
        key: KeyId,
        site: BodySite,
    },
    /// It would get one, but its definition was changed as often as may be.
    WornDef {
        key: KeyId,
    },
    /// The call `q` of the key, with its definition and with arguments of these kinds, is decided.
    Call {
        key: KeyId,
        q: CallNo,
        site: Option<BodySite>,
        args: ArgKinds,
        verdict: Verdict,
    },
}

/// An act and who did it.
#[derive(Clone, Copy)]
pub struct Entry {
    pub caller: CallerId,
    pub act: Act,
}

/// How many bytes an entry may take in memory: docs/SPEED.md.
const ENTRY_BYTES: usize = 32;

const _: () = prove!(size_of::<Entry>() <= ENTRY_BYTES);
