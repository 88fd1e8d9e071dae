//! The lines of one claim.

ghost use Rattle.std.specs.Prelude.{◌≡◌, ◌≤◌, ◌++◌, OnOk, string_bytes};
ghost use Rattle.spelled.specs.Reading.{ReadsLines};
ghost use Rattle.documents.specs.WellFormed.{IsFound, IsEmpty};
ghost use Rattle.documents.specs.Views.{found_said, empty_said, claim_said};
ghost use Rattle.document_lines.specs.ClaimTexts.{solution_text, ratio_text, found_text, found_lines, empty_text, empty_lines};
ghost use Rattle.document_lines.specs.ClaimTexts.{claim_text, claim_at, HasLines};

use crate::forms::{ListLine, NormalForms};
use crate::headings::{Heading, Headings};
use crate::ranges::Ranges;
use crate::witnesses::Witnesses;
use crate::worded_line::WordedLine;
use crate::words::LineWord;
use documents::{Claim, Empty, Found, Version};
use form_lines::{FactorLists, PrimitiveFactors};
use poly_generic::{Zn, Znk};
use polynomial_lines::{POLYNOMIALS_IN_N, POLYNOMIALS_IN_N_AND_K, Polynomials};
use spelled::{InTurn, LineFault, LineSpelling, Lines, Optional, Parts, read_line, write_line};
use std::alloc::{AllocError, Global};
use term_lines::Carriers;

type PolesLine = WordedLine<LineWord, PrimitiveFactors>;

type RangeLine = WordedLine<LineWord, Optional<Ranges>>;

const MULTIPLIERS: WordedLine<LineWord, Parts<Polynomials<Zn>>> = WordedLine {
    word: LineWord::Multipliers,
    each: Parts {
        each: POLYNOMIALS_IN_N,
    },
};

const Y: WordedLine<LineWord, Polynomials<Znk>> = WordedLine {
    word: LineWord::Y,
    each: POLYNOMIALS_IN_N_AND_K,
};

const POLES: PolesLine = WordedLine {
    word: LineWord::Poles,
    each: PrimitiveFactors,
};

const RATIO_TOP: ListLine = WordedLine {
    word: LineWord::RatioTop,
    each: FactorLists,
};

const RATIO_BOTTOM: ListLine = WordedLine {
    word: LineWord::RatioBottom,
    each: FactorLists,
};

const RANGE: RangeLine = WordedLine {
    word: LineWord::Range,
    each: Optional { each: Ranges },
};

// The lines behind Y.
const RATIO: InTurn<PolesLine, InTurn<ListLine, InTurn<ListLine, RangeLine>>> = InTurn {
    first: POLES,
    second: InTurn {
        first: RATIO_TOP,
        second: InTurn {
            first: RATIO_BOTTOM,
            second: RANGE,
        },
    },
};

const WITNESS: WordedLine<LineWord, Witnesses> = WordedLine {
    word: LineWord::Witness,
    each: Witnesses,
};

// Writes the normal form, the multipliers, K and Y of a recurrence.
fn write_solution(text: &mut String, version: Version, found: &Found) -> Result<(), AllocError>
    requires { IsFound version (found_said found.now) }
    ensures { OnOk result (string_bytes text.new ≡ string_bytes text.old ++ solution_text version (found_said found.now)) }
{
    NormalForms.write_lines(&found.form, text)?;
    MULTIPLIERS.write_lines(&found.multipliers, text)?;
    let carrier = WordedLine {
        word: LineWord::Carrier,
        each: Carriers { version },
    };
    carrier.write_lines(&found.carrier, text)?;
    Y.write_lines(&found.y, text)
}

// Writes the poles, the ratio and the range of a recurrence.
fn write_ratio(text: &mut String, version: Version, found: &Found) -> Result<(), AllocError>
    requires { IsFound version (found_said found.now) }
    ensures { OnOk result (string_bytes text.new ≡ string_bytes text.old ++ ratio_text (found_said found.now)) }
{
    POLES.write_lines(&found.poles, text)?;
    RATIO_TOP.write_lines(&found.ratio_top, text)?;
    RATIO_BOTTOM.write_lines(&found.ratio_bottom, text)?;
    RANGE.write_lines(&found.range, text)
}

// Writes the lines of a recurrence, behind its order.
fn write_found(text: &mut String, version: Version, found: &Found) -> Result<(), AllocError>
    requires { IsFound version (found_said found.now) }
    ensures { OnOk result (string_bytes text.new ≡ string_bytes text.old ++ found_text version (found_said found.now)) }
{
    write_solution(text, version, found)?;
    write_ratio(text, version, found)
}

// Reads a recurrence of an order, behind the line of the order.
fn read_found(
    alloc: Global,
    lines: &mut Lines<'_>,
    version: Version,
    order: u32,
) -> Result<Found, LineFault>
    requires { order ≤ 6 }
    ensures { ReadsLines (found_lines version order) found_said lines.old.rest.now lines.new.rest.now result }
{
    let spelling = InTurn {
        first: InTurn {
            first: NormalForms,
            second: InTurn {
                first: MULTIPLIERS,
                second: InTurn {
                    first: WordedLine {
                        word: LineWord::Carrier,
                        each: Carriers { version },
                    },
                    second: Y,
                },
            },
        },
        second: RATIO,
    };
    let (solution, ratio) = spelling.read_lines(alloc, lines)?;
    let (form, (multipliers, (carrier, y))) = solution;
    let (poles, (ratio_top, (ratio_bottom, range))) = ratio;
    Ok(Found {
        order,
        form,
        multipliers,
        carrier,
        y,
        poles,
        ratio_top,
        ratio_bottom,
        range,
    })
}

// Writes the lines of an empty order, behind its number.
fn write_empty(text: &mut String, empty: &Empty) -> Result<(), AllocError>
    requires { IsEmpty (empty_said empty.now) }
    ensures { OnOk result (string_bytes text.new ≡ string_bytes text.old ++ empty_text (empty_said empty.now)) }
{
    NormalForms.write_lines(&empty.form, text)?;
    WITNESS.write_lines(&empty.evidence, text)
}

// Reads what is said of an empty order, behind the line of the order.
fn read_empty(alloc: Global, lines: &mut Lines<'_>, order: u32) -> Result<Empty, LineFault>
    requires { order ≤ 6 }
    ensures { ReadsLines (empty_lines order) empty_said lines.old.rest.now lines.new.rest.now result }
{
    let spelling = InTurn {
        first: NormalForms,
        second: WITNESS,
    };
    let (form, evidence) = spelling.read_lines(alloc, lines)?;
    Ok(Empty {
        order,
        form,
        evidence,
    })
}

/// Writes the lines of a claim.
pub(crate) fn write_claim(
    text: &mut String,
    version: Version,
    claim: &Claim,
) -> Result<(), AllocError>
    requires { HasLines version (claim_said claim.now) }
    ensures { OnOk result (string_bytes text.new ≡ string_bytes text.old ++ claim_text version (claim_said claim.now)) }
{
    match claim {
        Claim::Found(found) => {
            let headings = Headings { order: found.order };
            write_line(text, "", &headings, &Heading::Found)?;
            write_found(text, version, found)
        }
        Claim::Empty(empty) => {
            let headings = Headings { order: empty.order };
            write_line(text, "", &headings, &Heading::Empty)?;
            write_empty(text, empty)
        }
        _ => Ok(()),
    }
}

/// Reads a claim of an order.
pub(crate) fn read_claim(
    alloc: Global,
    lines: &mut Lines<'_>,
    version: Version,
    order: u32,
) -> Result<Claim, LineFault>
    requires { order ≤ 6 }
    ensures { ReadsLines (claim_at version order) claim_said lines.old.rest.now lines.new.rest.now result }
{
    match read_line(alloc, lines, b"", &Headings { order })? {
        Heading::Found => {
            let found = read_found(alloc, lines, version, order)?;
            Ok(Claim::Found(found))
        }
        Heading::Empty => {
            let empty = read_empty(alloc, lines, order)?;
            Ok(Claim::Empty(empty))
        }
    }
}
