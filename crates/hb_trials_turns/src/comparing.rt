//! The runs of a program's setup and two scripts over words, beside those over plain tables.

ghost use Rattle.std.specs.Prelude.{◌≡◌, length};
ghost use Rattle.hb_tree.specs.TreeAt.{IsBlockAt};

use crate::pair::run_by_turns;
use crate::script::STEPS;
use hb_call::Share;
use hb_report::report;
use hb_tables::entry::VERSIONS_MAX;
use hb_tree::program::Program;
use hb_turns::run_ordered;
use hb_types::ids::{CallerId, KeyId, NodeId};
use std::alloc::{AllocError, Global};

/// What the same order gives over words and over plain tables.
#[derive(Drop)]
pub struct Compared {
    pub over_words: Vec<u8>,
    pub plain: Vec<u8>,
    /// The type word of the first key, when nobody changes it any more.
    pub word: u64,
}

/// The reports by this order.
pub fn compare(
    alloc: Global,
    prog: &Program,
    setup: NodeId,
    order: &[CallerId],
) -> Result<Compared, AllocError>
    requires setup { IsBlockAt prog.now setup.0 }
    requires scripts { length prog.now.scripts ≡ 2 }
{
    let over_words = run_by_turns(alloc, prog, setup, order, VERSIONS_MAX)?;
    let word = over_words.closed.type_word(KeyId(0));
    let plain = run_ordered(alloc, prog, order, STEPS, VERSIONS_MAX, &mut Share::Off)?;
    Ok(Compared {
        over_words: report(alloc, prog, &over_words.runs)?,
        plain: report(alloc, prog, &plain.runs)?,
        word,
    })
}
