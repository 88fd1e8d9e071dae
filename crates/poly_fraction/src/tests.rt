use crate::{Frac, lowest};
use poly_generic::{Poly, Zn};
use ring_laws::{Domain, Ring, RingFault, Whole};
use std::alloc::Global;

fn number(value: i128) -> Result<Whole, RingFault> {
    Whole::new(value).ok_or(RingFault::TooLarge)
}

// The fraction, and `TooLarge` for a denominator of zero.
fn over<R: Domain>(top: R, bottom: R) -> Result<Frac<R>, RingFault> {
    Frac::new(top, bottom).ok_or(RingFault::TooLarge)
}

fn fraction(top: i128, bottom: i128) -> Result<Frac<Whole>, RingFault> {
    over(number(top)?, number(bottom)?)
}

// Whether it has exactly this numerator and this denominator.
fn is(f: &Frac<Whole>, top: i128, bottom: i128) -> bool {
    f.top().value() == top && f.bottom().value() == bottom
}

#[test]
fn sums_differences_and_products(rt: HostRuntime) -> Result<(), RingFault> {
    let alloc = rt.alloc();
    let half = fraction(1, 2)?;
    let third = fraction(1, 3)?;
    let sum = half.add(alloc, &third)?;
    assert!(rt; is(&sum, 5, 6));
    assert!(rt; sum.same(alloc, &fraction(10, 12)?)?);
    assert!(rt; !sum.same(alloc, &fraction(5, 7)?)?);
    assert!(rt; is(&half.sub(alloc, &third)?, 1, 6));
    assert!(rt; is(&half.mul(alloc, &fraction(2, 3)?)?, 2, 6));
    assert!(rt; Frac::new(number(1)?, number(0)?).is_none());
    Ok(())
}

#[test]
fn wholes_copies_and_negatives(rt: HostRuntime) -> Result<(), RingFault> {
    let alloc = rt.alloc();
    assert!(rt; is(&Frac::whole(alloc, number(-7)?)?, -7, 1));
    let half = fraction(1, -2)?;
    assert!(rt; is(&half.duplicate(alloc)?, 1, -2));
    assert!(rt; is(&half.neg(alloc)?, -1, -2));
    Ok(())
}

#[test]
fn lowest_terms(rt: HostRuntime) -> Result<(), RingFault> {
    for (top, bottom, lowest_top, lowest_bottom) in [
        (2, 6, 1, 3),
        (4, -6, -2, 3),
        (-4, -6, 2, 3),
        (0, 5, 0, 1),
        (0, -5, 0, 1),
        (i128::MAX, -i128::MAX, -1, 1),
    ] {
        assert!(rt; is(&lowest(&fraction(top, bottom)?), lowest_top, lowest_bottom));
    }
    Ok(())
}

// The polynomial in n with these coefficients.
fn numbers(alloc: Global, values: &[i128]) -> Result<Zn, RingFault> {
    let mut list = Vec::new(alloc);
    for value in values {
        list.push(number(*value)?)?;
    }
    Poly::from_coefficients(list)
}

fn is_too_large<T>(answer: &Result<T, RingFault>) -> bool {
    matches!(answer, Err(RingFault::TooLarge))
}

// 1/n - 1/(n + 1) = 1/(n^2 + n)
#[test]
fn fractions_of_polynomials(rt: HostRuntime) -> Result<(), RingFault> {
    let alloc = rt.alloc();
    let first = over(numbers(alloc, &[1])?, numbers(alloc, &[0, 1])?)?;
    let second = over(numbers(alloc, &[1])?, numbers(alloc, &[1, 1])?)?;
    let difference = first.sub(alloc, &second)?;
    assert!(rt; difference.top().same(&numbers(alloc, &[1])?));
    assert!(rt; difference.bottom().same(&numbers(alloc, &[0, 1, 1])?));
    let sum = difference.add(alloc, &second)?;
    assert!(rt; sum.same(alloc, &first)?);
    assert!(rt; !sum.same(alloc, &second)?);
    assert!(rt; first.mul(alloc, &second)?.same(alloc, &difference)?);
    Ok(())
}

#[test]
fn magnitudes_decide_what_is_too_large(rt: HostRuntime) -> Result<(), RingFault> {
    let alloc = rt.alloc();
    let half: i128 = 1 << 63;
    let one = fraction(1, 1)?;
    let most = fraction(i128::MAX, 1)?;
    assert!(rt; is_too_large(&most.same(alloc, &fraction(1, 2)?)));
    assert!(rt; is_too_large(&fraction(1, 2)?.same(alloc, &most)));
    assert!(rt; most.same(alloc, &most)?);
    assert!(rt; is_too_large(&most.sub(alloc, &one)));
    assert!(rt; is_too_large(&most.add(alloc, &fraction(-1, 1)?)));
    assert!(rt; is_too_large(&fraction(1, half)?.mul(alloc, &fraction(1, 2 * half)?)));
    Ok(())
}

// With h = 2^63 - 1, (h*n + h)*(h*n - h) has the counterpart h^2*n^2 + 2*h^2*n + h^2, where 2*h^2 is 2^127 - 2^65 + 2. So the
// coefficient of n decides, though the product has none.
#[test]
fn cancelled_coefficients_are_too_large(rt: HostRuntime) -> Result<(), RingFault> {
    let alloc = rt.alloc();
    let h: i128 = (1 << 63) - 1;
    let f = over(numbers(alloc, &[h, h])?, numbers(alloc, &[1])?)?;
    let least: i128 = (1 << 65) - 2;
    let g = over(numbers(alloc, &[0, least])?, numbers(alloc, &[-h, h])?)?;
    assert!(rt; is_too_large(&f.add(alloc, &g)));
    assert!(rt; is_too_large(&f.sub(alloc, &g)));
    let less = over(numbers(alloc, &[0, least - 1])?, numbers(alloc, &[-h, h])?)?;
    let sum = f.add(alloc, &less)?;
    assert!(rt;
        sum.top()
            .same(&numbers(alloc, &[-h * h, least - 1, h * h])?)
    );
    assert!(rt; f.sub(alloc, &less).is_ok());
    Ok(())
}
