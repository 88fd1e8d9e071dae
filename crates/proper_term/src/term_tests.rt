//! The facts of terms and their natural ranges.

use crate::tests::{Factor, fraction, list_of, poly_of, term_of, whole};
use crate::{Proper, natural};
use ring_laws::RingFault;
use std::alloc::Global;
use std::test::Fail;

// A term with one field changed.
fn made(
    alloc: Global,
    poly: i128,
    scale: (i128, i128),
    base: (i128, i128),
    up_scale: i128,
    over: Factor,
) -> Result<bool, RingFault> {
    let mut up = list_of(alloc, &[(1, 0, 0, 1)])?;
    up.multiply_scale(whole(up_scale)?)?;
    let term = Proper::new(
        poly_of(alloc, poly, 0)?,
        fraction(scale.0, scale.1)?,
        fraction(base.0, base.1)?,
        fraction(1, 1)?,
        up,
        list_of(alloc, &[])?,
        list_of(alloc, &[over])?,
        list_of(alloc, &[])?,
    );
    Ok(term.is_some())
}

#[test]
fn facts_of_terms(rt: HostRuntime) -> Result<(), Fail> {
    let alloc = rt.alloc();
    let over = (1, 2, -3, 1);
    for (poly, scale, base, up_scale, over, is_made) in [
        (5, (-2, 3), (3, 2), 1, over, true),
        (0, (-2, 3), (3, 2), 1, over, false),
        (5, (2, -3), (3, 2), 1, over, false),
        (5, (-2, 4), (3, 2), 1, over, false),
        (5, (-2, 3), (0, 1), 1, over, false),
        (5, (-2, 3), (3, 2), 2, over, false),
        (5, (-2, 3), (3, 2), 1, (2, 4, -6, 1), false),
        (5, (-2, 3), (3, 2), 1, (1, -2, -3, 1), false),
        (5, (-2, 3), (3, 2), 1, (0, 0, 1, 1), false),
    ] {
        assert_eq!(rt; made(alloc, poly, scale, base, up_scale, over)?, is_made);
    }
    Ok(())
}

// The numbers of both ends.
fn range_of(term: &Proper) -> Option<((i64, i64), (i64, i64))> {
    let (low, high) = natural(term)?;
    Some((
        (low.n_slope(), low.offset()),
        (high.n_slope(), high.offset()),
    ))
}

#[test]
fn natural_ranges(rt: HostRuntime) -> Result<(), Fail> {
    let alloc = rt.alloc();
    let rising = (2, 1, 3, 1);
    let falling = (1, -1, 5, 1);
    for (down, range) in [
        ([rising, falling], Some(((-2, -3), (1, 5)))),
        ([falling, rising], Some(((-2, -3), (1, 5)))),
        ([(1, 2, 0, 1), falling], None),
        ([rising, (0, 1, 7, 1)], None),
    ] {
        let term = term_of(alloc, (1, 0), (1, 1), &[], &down, &[])?;
        assert_eq!(rt; range_of(&term), range);
    }
    Ok(())
}
