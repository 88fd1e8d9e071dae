//! Matches: a form with its shift and its power.

ghost use Rattle.std.specs.Prelude.{◌≡◌, ◌<◌, ◌^◌, MatchOption};
ghost use Rattle.hypergeometric.specs.Match.{Match};
ghost use Rattle.form_lines.specs.Matches.{matches};
ghost use Rattle.form_lines.specs.MatchLaws.{matches_within_line, matches_are_items};
ghost use Rattle.form_lines.specs.Views.{match_of};

use crate::forms::Forms;
use lin_form::LinForm;
use spelled::{Beside, ItemSpelling, Naturals, Powered, Separator, Spelling};
use std::alloc::{AllocError, Global};

const PARTS: Beside<Forms, Powered<Naturals>> = Beside {
    first: Forms,
    separator: Separator::By,
    second: Powered { each: Naturals },
};

// The same number in 64 bits, none where it has more.
fn narrow(number: u128) -> Option<u64>
    ensures { MatchOption result (¬ (number < 2 ^ 64)) (λ narrow. narrow ≡ number) }
{
    u64::try_from(number).ok()
}

/// Matches: a form, ` by `, its shift, which is below 2^64, and behind it ` x` and the power where that isn't 1.
#[derive(Clone, Copy)]
pub struct Matches;

impl Spelling for Matches {
    type Item = (LinForm, u64, u32);

    ghost Value = { Match };

    ghost value_of = { match_of };

    ghost format = { λ _. matches };

    fn write(&self, item: &(LinForm, u64, u32), text: &mut String) -> Result<(), AllocError> {
        PARTS.write(&(item.0, (u128::from(item.1), item.2)), text)
    }

    fn read(&self, alloc: Global, text: &[u8]) -> Result<Option<(LinForm, u64, u32)>, AllocError> {
        let Some((form, (shift, power))) = PARTS.read(alloc, text)? else {
            return Ok(None);
        };
        match narrow(shift) {
            Some(shift) => Ok(Some((form, shift, power))),
            None => Ok(None),
        }
    }

    ghost within_line = { λ _. matches_within_line };
}

impl ItemSpelling for Matches {
    ghost are_items = { λ _. matches_are_items };
}
