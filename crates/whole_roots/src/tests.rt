use crate::{linear_factors, sign_at, whole_roots};
use poly_generic::{Poly, Zn};
use ring_laws::{Ring, RingFault, Sign, Whole};
use std::alloc::Global;

// The polynomial in n with these coefficients.
fn numbers(alloc: Global, values: &[i128]) -> Result<Zn, RingFault> {
    let mut list = Vec::new(alloc);
    for value in values {
        list.push(Whole::new(*value).ok_or(RingFault::TooLarge)?)?;
    }
    Poly::from_coefficients(list)
}

// Whether these are the whole roots of the polynomial with these coefficients.
fn has_roots(alloc: Global, values: &[i128], roots: &[i128]) -> Result<bool, RingFault> {
    let f = numbers(alloc, values)?;
    if f.is_zero() {
        return Ok(false);
    }
    let found = whole_roots(alloc, &f)?;
    Ok(found.as_slice() == roots)
}

fn is_too_large<T>(answer: &Result<T, RingFault>) -> bool {
    matches!(answer, Err(RingFault::TooLarge))
}

const GREATEST: i128 = i128::MAX;

const LARGE: i128 = 85070591730234615865843651857942052863;

#[test]
fn whole_roots_of_known_polynomials(rt: HostRuntime) -> Result<(), RingFault> {
    let alloc = rt.alloc();
    assert!(rt; has_roots(alloc, &[2, -3, 1], &[1, 2])?);
    assert!(rt; has_roots(alloc, &[1, 0, 1], &[])?);
    assert!(rt; has_roots(alloc, &[0, 25, -10, 1], &[0, 5])?);
    assert!(rt; has_roots(alloc, &[-1000000000000, 1], &[1000000000000])?);
    assert!(rt; has_roots(alloc, &[LARGE, 1], &[-LARGE])?);
    assert!(rt; is_too_large(&has_roots(alloc, &[LARGE + 1, 1], &[])));
    assert!(rt; has_roots(alloc, &[7], &[])?);
    assert!(rt; has_roots(alloc, &[0, 6, -5, -5, 5, -1], &[-1, 0, 1, 2, 3])?);
    Ok(())
}

// Whether this is the sign of the value there of the polynomial with these coefficients.
fn has_sign(alloc: Global, values: &[i128], at: i128, sign: Sign) -> Result<bool, RingFault> {
    let f = numbers(alloc, values)?;
    if at == i128::MIN {
        return Ok(false);
    }
    Ok(sign_at(&f, at) == sign)
}

#[test]
fn signs_of_values(rt: HostRuntime) -> Result<(), RingFault> {
    let alloc = rt.alloc();
    let least = -GREATEST;
    assert!(rt; has_sign(alloc, &[0, 1], -1, Sign::Negative)?);
    assert!(rt; has_sign(alloc, &[0, 0, 1], 1 << 126, Sign::Positive)?);
    assert!(rt; has_sign(alloc, &[0, 0, 0, 1], least, Sign::Negative)?);
    assert!(rt; has_sign(alloc, &[], 5, Sign::Zero)?);
    assert!(rt; has_sign(alloc, &[least, least, least], 1, Sign::Negative)?);
    assert!(rt; has_sign(alloc, &[GREATEST, 1, -1, least], 1, Sign::Zero)?);
    assert!(rt; has_sign(alloc, &[GREATEST, GREATEST, 1], -1, Sign::Positive)?);
    assert!(rt; has_sign(alloc, &[least, 1], GREATEST, Sign::Zero)?);
    assert!(rt; has_sign(alloc, &[least, 0, 0, 0, 0, 0, 1], 1 << 22, Sign::Positive)?);
    let twentieth = [
        0, 0, 0, 0, 0, 0, 0, 0, 0, 0, 0, 0, 0, 0, 0, 0, 0, 0, 0, 0, GREATEST,
    ];
    assert!(rt; has_sign(alloc, &twentieth, least, Sign::Positive)?);
    Ok(())
}

// Whether these are the linear factors of the polynomial with these coefficients, each with its power.
fn has_factors(
    alloc: Global,
    values: &[i128],
    factors: &[(u8, i128, u32)],
) -> Result<bool, RingFault> {
    let f = numbers(alloc, values)?;
    if f.is_zero() {
        return Ok(false);
    }
    let found = linear_factors(alloc, &f)?;
    if found.len() != factors.len() {
        return Ok(false);
    }
    for index in 0..factors.len() {
        let (slope, constant, power) = factors[index];
        match found.get_index(index) {
            Some((form, times)) => {
                if *form != (slope, constant) || *times != power {
                    return Ok(false);
                }
            }
            None => return Ok(false),
        }
    }
    Ok(true)
}

#[test]
fn linear_factors_of_known_polynomials(rt: HostRuntime) -> Result<(), RingFault> {
    let alloc = rt.alloc();

    // 4*n^3 + 16*n^2 + 13*n + 3 = (n + 3)*(2*n + 1)^2
    assert!(rt; has_factors(alloc, &[3, 13, 16, 4], &[(1, 3, 1), (2, 1, 2)])?);

    // (3*n + 2)^3, and (4*n - 3)*(n + 5)
    assert!(rt; has_factors(alloc, &[8, 36, 54, 27], &[(3, 2, 3)])?);
    assert!(rt; has_factors(alloc, &[-15, 17, 4], &[(1, 5, 1), (4, -3, 1)])?);

    // -6*n*(n - 1), and 2*(n + 2), of which 2*n + 4 isn't listed
    assert!(rt; has_factors(alloc, &[0, 6, -6], &[(1, -1, 1), (1, 0, 1)])?);
    assert!(rt; has_factors(alloc, &[4, 2], &[(1, 2, 1)])?);

    // (n - 4)*(n + 4)*(2*n - 1)*(2*n + 1)
    let four = [(1, -4, 1), (1, 4, 1), (2, -1, 1), (2, 1, 1)];
    assert!(rt; has_factors(alloc, &[16, 0, -65, 0, 4], &four)?);
    assert!(rt;
        has_factors(
            alloc,
            &[0, (1 << 100) + 1, 1],
            &[(1, 0, 1), (1, (1 << 100) + 1, 1)]
        )?
    );
    assert!(rt; has_factors(alloc, &[1, 5], &[])?);
    assert!(rt; has_factors(alloc, &[1, 0, 1], &[])?);
    assert!(rt; has_factors(alloc, &[-7], &[])?);
    assert!(rt; is_too_large(&has_factors(alloc, &[1 << 126, 1], &[])));
    Ok(())
}

// The coefficients of n^degree.
fn power(alloc: Global, degree: usize) -> Result<Vec<i128>, RingFault> {
    let mut list = Vec::new(alloc);
    for _power in 0..degree {
        list.push(0)?;
    }
    list.push(1)?;
    Ok(list)
}

// A difference of the j-th difference of n^31 passes 127 bits, for some j; so does one of n^64.
#[test]
fn differences_of_high_powers_are_too_large(rt: HostRuntime) -> Result<(), RingFault> {
    let alloc = rt.alloc();
    let most = power(alloc, 30)?;
    assert!(rt; has_roots(alloc, &most, &[0])?);
    assert!(rt; has_factors(alloc, &most, &[(1, 0, 30)])?);
    for degree in [31, 64] {
        let high = power(alloc, degree)?;
        assert!(rt; is_too_large(&has_roots(alloc, &high, &[0])));
        assert!(rt; is_too_large(&has_factors(alloc, &high, &[(1, 0, 31)])));
    }
    Ok(())
}
