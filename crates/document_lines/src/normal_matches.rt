//! The matches of a normal form.

ghost use Rattle.form_lines.specs.Matches.{matches};
ghost use Rattle.form_lines.specs.MatchLaws.{matches_within_line, matches_are_items};
ghost use Rattle.gosper_form.specs.NormalView.{match_of};
ghost use Rattle.hypergeometric.specs.Match.{Match as MatchValue};

use form_lines::Matches;
use gosper_form::Match;
use spelled::{ItemSpelling, Spelling};
use std::alloc::{AllocError, Global};

/// The matches of a normal form: a form, ` by `, its shift, and behind it ` x` and the power where that isn't 1.
#[derive(Clone, Copy)]
pub struct NormalMatches;

impl Spelling for NormalMatches {
    type Item = Match;

    ghost Value = { MatchValue };

    ghost value_of = { match_of };

    ghost format = { λ _. matches };

    fn write(&self, item: &Match, text: &mut String) -> Result<(), AllocError> {
        Matches.write(&(item.form, item.shift, item.power), text)
    }

    fn read(&self, alloc: Global, text: &[u8]) -> Result<Option<Match>, AllocError> {
        match Matches.read(alloc, text)? {
            Some((form, shift, power)) => Ok(Some(Match { form, shift, power })),
            None => Ok(None),
        }
    }

    ghost within_line = { λ _. matches_within_line };
}

impl ItemSpelling for NormalMatches {
    ghost are_items = { λ _. matches_are_items };
}
