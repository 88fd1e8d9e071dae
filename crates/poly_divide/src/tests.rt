use crate::{divide_by_form, divide_by_linear, whole_content, without_common_factor};
use poly_generic::{Poly, Zn, Znk};
use ring_laws::{Domain, Ring, RingFault, Whole};
use std::alloc::Global;

// The polynomial in n with these coefficients.
fn numbers(alloc: Global, values: &[i128]) -> Result<Zn, RingFault> {
    let mut list = Vec::new(alloc);
    for value in values {
        list.push(number(*value)?)?;
    }
    Poly::from_coefficients(list)
}

fn number(value: i128) -> Result<Whole, RingFault> {
    Whole::new(value).ok_or(RingFault::TooLarge)
}

// The polynomial in k with these two coefficients.
fn line(alloc: Global, constant: Zn, slope: Zn) -> Result<Znk, RingFault> {
    let mut list = Vec::new(alloc);
    list.push(constant)?;
    list.push(slope)?;
    Poly::from_coefficients(list)
}

#[test]
fn quotients_by_linear_forms(rt: HostRuntime) -> Result<(), RingFault> {
    let alloc = rt.alloc();
    match divide_by_linear(alloc, &numbers(alloc, &[-1, 0, 1])?, 1, 1)? {
        Some(quotient) => assert!(rt; quotient.same(&numbers(alloc, &[-1, 1])?)),
        None => assert!(rt; false),
    }
    assert!(rt; divide_by_linear(alloc, &numbers(alloc, &[1, 0, 1])?, 1, 1)?.is_none());
    Ok(())
}

// 2*k^2 + 3*k*n + n^2 = (2*k + n)*(k + n)
#[test]
fn quotients_by_forms_in_two_variables(rt: HostRuntime) -> Result<(), RingFault> {
    let alloc = rt.alloc();
    let mut list = Vec::new(alloc);
    list.push(numbers(alloc, &[0, 0, 1])?)?;
    list.push(numbers(alloc, &[0, 3])?)?;
    list.push(numbers(alloc, &[2])?)?;
    let product: Znk = Poly::from_coefficients(list)?;
    match divide_by_form(alloc, &product, 2, 1, 0)? {
        Some(quotient) => {
            let sum = line(alloc, numbers(alloc, &[0, 1])?, numbers(alloc, &[1])?)?;
            assert!(rt; quotient.same(&sum));
        }
        None => assert!(rt; false),
    }
    assert!(rt; divide_by_form(alloc, &product, 1, 2, 0)?.is_none());
    Ok(())
}

#[test]
fn content_of_a_row(rt: HostRuntime) -> Result<(), RingFault> {
    let alloc = rt.alloc();
    let mut row = Vec::new(alloc);
    row.push(numbers(alloc, &[6, 4])?)?;
    row.push(numbers(alloc, &[8])?)?;
    assert_eq!(rt; whole_content(&row), 2);
    assert_eq!(rt; whole_content(&[]), 0);
    Ok(())
}

// Whether the factor is taken out of the sum of two multiples, in any domain.
fn is_taken_out<D: Domain>(
    alloc: Global,
    common: &D,
    left: &D,
    right: &D,
) -> Result<bool, RingFault> {
    if common.is_zero() {
        return Ok(false);
    }
    let sum = without_common_factor(alloc, common, left, right)?;
    let expected = left.add(alloc, right)?;
    Ok(sum.same(&expected))
}

#[test]
fn a_common_factor_at_three_levels(rt: HostRuntime) -> Result<(), RingFault> {
    let alloc = rt.alloc();
    assert!(rt; is_taken_out(alloc, &number(6)?, &number(4)?, &number(-9)?)?);
    let above = numbers(alloc, &[1, 1])?;
    let square = numbers(alloc, &[0, 0, 1])?;
    let three = numbers(alloc, &[3])?;
    assert!(rt; is_taken_out(alloc, &above, &square, &three)?);
    let common = line(alloc, above, numbers(alloc, &[1])?)?;
    let left = line(alloc, square, numbers(alloc, &[0, 2])?)?;
    let right = line(alloc, three, numbers(alloc, &[-5])?)?;
    assert!(rt; is_taken_out(alloc, &common, &left, &right)?);
    Ok(())
}

fn is_too_large<T>(answer: &Result<T, RingFault>) -> bool {
    matches!(answer, Err(RingFault::TooLarge))
}

// 64*n^2 + 193*n + 3 = (64*n + 1)*(n + 3)
#[test]
fn a_form_of_slope_64(rt: HostRuntime) -> Result<(), RingFault> {
    let alloc = rt.alloc();
    let product = numbers(alloc, &[3, 193, 64])?;
    match divide_by_linear(alloc, &product, 64, 1)? {
        Some(quotient) => assert!(rt; quotient.same(&numbers(alloc, &[3, 1])?)),
        None => assert!(rt; false),
    }
    assert!(rt; divide_by_linear(alloc, &product, 63, 1)?.is_none());
    let in_k = line(alloc, numbers(alloc, &[3])?, numbers(alloc, &[64])?)?;
    assert!(rt; divide_by_form(alloc, &in_k, 64, 0, 3)?.is_some());
    assert!(rt; divide_by_form(alloc, &in_k, 64, 0, 1)?.is_none());
    Ok(())
}

// The second step of 2^126*n by n + 2 has the product 2^127.
#[test]
fn steps_that_are_too_large(rt: HostRuntime) -> Result<(), RingFault> {
    let alloc = rt.alloc();
    let half: i128 = 1 << 126;
    let wide = numbers(alloc, &[0, half])?;
    assert!(rt; is_too_large(&divide_by_linear(alloc, &wide, 1, 2)));
    assert!(rt; divide_by_linear(alloc, &wide, 1, 1)?.is_none());
    let in_k = line(alloc, numbers(alloc, &[])?, numbers(alloc, &[half])?)?;
    assert!(rt; is_too_large(&divide_by_form(alloc, &in_k, 1, 0, 2)));
    assert!(rt; divide_by_form(alloc, &in_k, 1, 0, 1)?.is_none());
    let two = number(2)?;
    let zero = number(0)?;
    assert!(rt; is_too_large(&is_taken_out(alloc, &two, &number(half)?, &zero)));
    assert!(rt; is_taken_out(alloc, &two, &number(half - 1)?, &zero)?);
    Ok(())
}
