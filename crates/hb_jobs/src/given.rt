//! What the words give, by the matches of the command.

ghost use Rattle.std.specs.Prelude.{◌≡◌, true, false, option_map, IfOk, Err};
ghost use Rattle.hb_jobs.specs.CommandLine.{has_matches};
ghost use Rattle.hb_jobs.specs.Given.{Gives, is_true_text, texts};

use crate::command::{WordsFail, matches_for};
use std::alloc::Global;

/// What the words give, by the argument's id.
#[derive(Drop)]
pub struct GivenWords<'a> {
    pub command: Option<&'a str>,
    pub number: Option<&'a str>,
    pub steps: Option<&'a str>,
    pub versions: Option<&'a str>,
    pub order: Option<&'a str>,
    pub trace: bool,
}

// Whether the text of a flag says that it was given.
fn is_true(text: Option<&str>) -> bool
    ensures { result ≡ is_true_text (option_map (λ s. s.now) text.entry) }
{
    match text {
        Some(text) => text == "true",
        None => false,
    }
}

/// What the words give, where the command's matches for them exist.
pub fn given_words<'a>(alloc: Global, words: &'a [&'a str]) -> Result<GivenWords<'a>, WordsFail>
    ensures exist { IfOk result (λ _. has_matches (texts words.entry.now) ≡ true) }
    ensures given { IfOk result (Gives (texts words.entry.now)) }
    ensures refused { result ≡ Err WordsFail.Refused → has_matches (texts words.entry.now) ≡ false }
{
    let matches = matches_for(alloc, words)?;
    Ok(GivenWords {
        command: matches.get_str("command"),
        number: matches.get_str("n"),
        steps: matches.get_str("steps"),
        versions: matches.get_str("versions"),
        order: matches.get_str("order"),
        trace: is_true(matches.get_str("trace")),
    })
}
