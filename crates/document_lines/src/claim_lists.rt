//! The claims of a command, one after another.

ghost use Rattle.std.specs.Prelude.{◌≡◌, ◌≤◌, ◌-◌, ◌++◌, ◌&&◌, nat_lt, map, OnOk, string_bytes};
ghost use Rattle.std.specs.List.{AllByRecursion};
ghost use Rattle.spelled.specs.Reading.{ReadsLines};
ghost use Rattle.documents.specs.Views.{claim_said, command_said};
ghost use Rattle.document_lines.specs.ClaimTexts.{claims_text, claims_from, HasLines, says_empty};
ghost use Rattle.document_lines.specs.DocumentTexts.{IsCommand, claims_of};

use crate::claims::{read_claim, write_claim};
use documents::{Claim, CommandWord, Version};
use spelled::{LineFault, Lines};
use std::alloc::{AllocError, Global};

/// Writes the lines of claims.
pub(crate) fn write_claims(
    text: &mut String,
    version: Version,
    claims: &[Claim],
) -> Result<(), AllocError>
    requires { AllByRecursion (HasLines version) (map claim_said claims.now) }
    ensures { OnOk result (string_bytes text.new ≡ string_bytes text.old ++ claims_text version (map claim_said claims.now)) }
{
    for claim in claims {
        write_claim(text, version, claim)?;
    }
    Ok(())
}

// Whether a claim of the next order follows.
fn goes_on(claim: &Claim, order: u32, last: u32) -> bool
    ensures { result ≡ (nat_lt order last && says_empty (claim_said claim.now)) }
{
    match claim {
        Claim::Empty(_) => order < last,
        _ => false,
    }
}

// Reads the claims of the orders from the first to the last, up to the first with a recurrence.
fn read_claims(
    alloc: Global,
    lines: &mut Lines<'_>,
    version: Version,
    first: u32,
    last: u32,
) -> Result<Vec<Claim>, LineFault>
    requires rising { first ≤ last }
    requires few { last ≤ 6 }
    ensures { ReadsLines (claims_from version first (last - first)) (λ claims. map claim_said claims.items)
        lines.old.rest.now lines.new.rest.now result }
{
    let mut claims = Vec::new(alloc);
    let mut order = first;
    loop {
        let claim = read_claim(alloc, lines, version, order)?;
        let more = goes_on(&claim, order, last);
        claims.push(claim)?;
        if !more {
            return Ok(claims);
        }
        order += 1;
    }
}

/// Reads the claims of a command.
pub(crate) fn read_claims_of(
    alloc: Global,
    lines: &mut Lines<'_>,
    version: Version,
    command: CommandWord,
) -> Result<Vec<Claim>, LineFault>
    requires { IsCommand (command_said command) }
    ensures { ReadsLines (claims_of version (command_said command)) (λ claims. map claim_said claims.items)
        lines.old.rest.now lines.new.rest.now result }
{
    match command {
        CommandWord::Gosper => read_claims(alloc, lines, version, 0, 0),
        CommandWord::Ct(order) => read_claims(alloc, lines, version, order, order),
        CommandWord::Zeil(most) => read_claims(alloc, lines, version, 0, most),
        CommandWord::Wz | CommandWord::Companion(_) | CommandWord::Hyper => Ok(Vec::new(alloc)),
    }
}
