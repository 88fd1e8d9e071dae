//! Values of terms, at points worked out by hand.

use crate::{Proper, value};
use lin_form::{FactorList, LinForm};
use poly_fraction::Frac;
use poly_generic::{Zn, Znk};
use ring_laws::{Ring, RingFault, Whole};
use std::alloc::Global;
use std::test::Fail;

// n slope, k slope, offset and power.
pub(crate) type Factor = (i64, i64, i64, u32);

pub(crate) fn whole(value: i128) -> Result<Whole, RingFault> {
    Whole::new(value).ok_or(RingFault::TooLarge)
}

pub(crate) fn fraction(top: i128, bottom: i128) -> Result<Frac<Whole>, RingFault> {
    Frac::new(whole(top)?, whole(bottom)?).ok_or(RingFault::TooLarge)
}

pub(crate) fn list_of(alloc: Global, factors: &[Factor]) -> Result<FactorList, RingFault> {
    let mut list = FactorList::new(alloc)?;
    for (n_slope, k_slope, offset, power) in factors {
        let Some(form) = LinForm::new(*n_slope, *k_slope, *offset) else {
            return Err(RingFault::TooLarge);
        };
        if *power == 0 || *power > 100 || list.power(&form) > 100 {
            return Err(RingFault::TooLarge);
        }
        list.multiply(form, *power)?;
    }
    Ok(list)
}

// The polynomial `constant + slope * k`.
pub(crate) fn poly_of(alloc: Global, constant: i128, slope: i128) -> Result<Znk, RingFault> {
    let mut coefficients = Vec::new(alloc);
    coefficients.push(Zn::whole(alloc, whole(constant)?)?)?;
    coefficients.push(Zn::whole(alloc, whole(slope)?)?)?;
    Znk::from_coefficients(coefficients)
}

// The term of forms above, below and of divisors, with these bases.
pub(crate) fn term_of(
    alloc: Global,
    poly: (i128, i128),
    bases: (i128, i128),
    up: &[Factor],
    down: &[Factor],
    over: &[Factor],
) -> Result<Proper, RingFault> {
    let term = Proper::new(
        poly_of(alloc, poly.0, poly.1)?,
        fraction(1, 1)?,
        fraction(bases.0, 1)?,
        fraction(bases.1, 1)?,
        list_of(alloc, up)?,
        list_of(alloc, down)?,
        list_of(alloc, over)?,
        list_of(alloc, &[])?,
    );
    term.ok_or(RingFault::TooLarge)
}

// Numerator and denominator of the value.
fn value_of(
    alloc: Global,
    term: &Proper,
    n: i64,
    k: i64,
) -> Result<Option<(i128, i128)>, RingFault> {
    let Some(value) = value(alloc, term, n, k)? else {
        return Ok(None);
    };
    Ok(Some((value.top().value(), value.bottom().value())))
}

fn binomial(alloc: Global) -> Result<Proper, RingFault> {
    term_of(
        alloc,
        (1, 0),
        (1, 1),
        &[(1, 0, 0, 1)],
        &[(0, 1, 0, 1), (1, -1, 0, 1)],
        &[],
    )
}

#[test]
fn binomial_coefficients(rt: HostRuntime) -> Result<(), Fail> {
    let alloc = rt.alloc();
    let term = binomial(alloc)?;
    for (n, k, number) in [
        (4, 2, Some((6, 1))),
        (4, 5, Some((0, 1))),
        (-1, 0, None),
        (60, 30, Some((118_264_581_564_861_424, 1))),
        (1_000_000_000, 1, Some((1_000_000_000, 1))),
        (1_000_000_000_000, 1_000_000_000_000, Some((1, 1))),
    ] {
        assert_eq!(rt; value_of(alloc, &term, n, k)?, number);
    }
    assert_eq!(rt;
        value_of(alloc, &term, 1_000_000_000, 20).err(),
        Some(RingFault::TooLarge)
    );
    Ok(())
}

// (1 + 3*k) * 2^n * (-3)^k * (2*n)! / (n!^2 * (2*k - 1)^3)
#[test]
fn all_factors(rt: HostRuntime) -> Result<(), Fail> {
    let alloc = rt.alloc();
    let term = term_of(
        alloc,
        (1, 3),
        (2, -3),
        &[(2, 0, 0, 1)],
        &[(1, 0, 0, 2)],
        &[(0, 2, -1, 3)],
    )?;
    for (n, k, number) in [
        (3, 2, Some((1_120, 3))),
        (1, -1, Some((-8, 81))),
        (0, 0, Some((-1, 1))),
    ] {
        assert_eq!(rt; value_of(alloc, &term, n, k)?, number);
    }
    Ok(())
}

// What is left of two long factorials is one number, and a polynomial that is 0 is 0 beside any power.
#[test]
fn large_arguments(rt: HostRuntime) -> Result<(), Fail> {
    let alloc = rt.alloc();
    let neighbours = term_of(
        alloc,
        (1, 0),
        (1, -1),
        &[(8, 0, 0, 1)],
        &[(8, 0, -1, 1)],
        &[],
    )?;
    assert_eq!(rt;
        value_of(alloc, &neighbours, 1_000_000, 7)?,
        Some((-8_000_000, 1))
    );
    let zero = term_of(alloc, (0, 1), (2, 1), &[], &[], &[])?;
    assert_eq!(rt; value_of(alloc, &zero, 1_000_000_000_000, 0)?, Some((0, 1)));
    assert_eq!(rt;
        value_of(alloc, &zero, 1_000_000_000_000, 1).err(),
        Some(RingFault::TooLarge)
    );
    Ok(())
}
