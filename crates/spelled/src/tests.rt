ghost use Rattle.std.specs.Prelude.{codes, refl};

use crate::{
    InTurn, Items, Line, Naturals, Optional, Parts, Spelling, Sums, TextFault, Wholes, Word,
    Worded, read_text, write_text,
};
use std::alloc::{AllocError, Global};

// Whether the text is read as a sum and written again as it was.
fn is_sum(alloc: Global, text: &[u8]) -> Result<bool, AllocError> {
    let Some(monomials) = Sums.read(alloc, text)? else {
        return Ok(false);
    };
    let mut written = String::new(alloc);
    Sums.write(&monomials, &mut written)?;
    Ok(written.as_bytes() == text)
}

#[test]
fn sums_are_read_as_they_are_written(rt: HostRuntime) -> Result<(), AllocError> {
    let table: [(&[u8], bool); 18] = [
        (b"0", true),
        (b"1", true),
        (b"-1", true),
        (b"2*n^2*k^3-n*x+k-12", true),
        (b"-n^255*k*x^2+x", true),
        (b"170141183460469231731687303715884105727*k", true),
        (b"170141183460469231731687303715884105728*k", false),
        (b"", false),
        (b"-", false),
        (b"+n", false),
        (b"n+", false),
        (b"1*n", false),
        (b"n^1", false),
        (b"n^256", false),
        (b"k*n", false),
        (b"02", false),
        (b"n+0", false),
        (b"n**k", false),
    ];
    for (text, expected) in table {
        assert_eq!(rt; is_sum(rt.alloc(), text)?, expected);
    }
    Ok(())
}

// Whether the text is read as parts and written again as it was.
fn are_parts(alloc: Global, text: &[u8]) -> Result<bool, AllocError> {
    let parts = Parts { each: Wholes };
    let Some(numbers) = parts.read(alloc, text)? else {
        return Ok(false);
    };
    let mut written = String::new(alloc);
    parts.write(&numbers, &mut written)?;
    Ok(written.as_bytes() == text)
}

// Whether the text is read as a number or none and written again as it was.
fn is_optional(alloc: Global, text: &[u8]) -> Result<bool, AllocError> {
    let optional = Optional { each: Wholes };
    let Some(number) = optional.read(alloc, text)? else {
        return Ok(false);
    };
    let mut written = String::new(alloc);
    optional.write(&number, &mut written)?;
    Ok(written.as_bytes() == text)
}

#[test]
fn signed_numbers_are_read_as_they_are_written(rt: HostRuntime) -> Result<(), AllocError> {
    let table: [(&[u8], bool, bool); 8] = [
        (b"0", true, true),
        (b"-12", true, true),
        (b"7; -1; 0", true, false),
        (b"-", false, true),
        (b"-0", false, false),
        (b"+1", false, false),
        (b"", false, false),
        (b"1;2", false, false),
    ];
    for (text, parts, optional) in table {
        assert_eq!(rt; are_parts(rt.alloc(), text)?, parts);
        assert_eq!(rt; is_optional(rt.alloc(), text)?, optional);
    }
    Ok(())
}

// The word in front of a sum.
struct Poly;

impl Word for Poly {
    ghost text = { λ _. codes "poly " };

    fn text(&self) -> &'static str {
        "poly "
    }

    ghost in_one_line = { λ _. refl };
}

// Three lines: a sum behind a word, numbers with commas between them, and a number or none.
const THREE: InTurn<
    Line<Worded<Poly, Sums>>,
    InTurn<Line<Items<Naturals>>, Line<Optional<Wholes>>>,
> = InTurn {
    first: Line {
        each: Worded {
            word: Poly,
            each: Sums,
        },
    },
    second: InTurn {
        first: Line {
            each: Items { each: Naturals },
        },
        second: Line {
            each: Optional { each: Wholes },
        },
    },
};

// The first bad line of a text, 0 where it is read whole and written again as it was.
fn bad_line(alloc: Global, text: &[u8]) -> Result<u32, AllocError> {
    match read_text(alloc, &THREE, text) {
        Ok(item) => {
            let written = write_text(alloc, &THREE, &item)?;
            Ok(if written.as_bytes() == text {
                0
            } else {
                u32::MAX
            })
        }
        Err(TextFault::Line { at }) => Ok(at),
        Err(TextFault::Memory) => Err(AllocError),
    }
}

#[test]
fn texts_of_three_lines_and_their_first_bad_lines(rt: HostRuntime) -> Result<(), AllocError> {
    let table: [(&[u8], u32); 15] = [
        (b"poly 2*n^2*k-1\n1, 2\n-\n", 0),
        (b"poly 0\n-\n-5\n", 0),
        (b"", 1),
        (b"poly n", 1),
        (b"poly +n\n1\n5\n", 1),
        (b"Poly n\n1\n5\n", 1),
        (b"poly n\n", 2),
        (b"poly n\n1, 2", 2),
        (b"poly n\n1,2\n+5\n", 2),
        (b"poly n\n\n5\n", 2),
        (b"poly n\n1\n+5\n", 3),
        (b"poly n\n1\n5", 3),
        (b"poly n\n1\n5\n\n", 4),
        (b"poly n\n1\n5\nx", 4),
        (b"poly n\n1\n5\nx\ny\n", 4),
    ];
    for (text, line) in table {
        assert_eq!(rt; bad_line(rt.alloc(), text)?, line);
    }
    Ok(())
}
