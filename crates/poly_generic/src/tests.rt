use crate::evaluation::{bounded_shift, shift_by_magnitudes};
use crate::{Poly, Zn, Znk, times_power};
use ring_laws::{Domain, Ring, RingFault, Whole};
use std::alloc::Global;

// The number as a value of the ring.
fn number<R: Ring>(alloc: Global, value: i128) -> Result<R, RingFault> {
    match Whole::new(value) {
        Some(whole) => R::whole(alloc, whole),
        None => Err(RingFault::TooLarge),
    }
}

// The polynomial with these two coefficients.
fn line<R: Ring>(alloc: Global, constant: R, slope: R) -> Result<Poly<R>, RingFault> {
    let mut list = Vec::new(alloc);
    list.push(constant)?;
    list.push(slope)?;
    Poly::from_coefficients(list)
}

// The polynomial with these numbers as coefficients.
fn numbers<R: Ring>(alloc: Global, values: &[i128]) -> Result<Poly<R>, RingFault> {
    let mut list = Vec::new(alloc);
    for value in values {
        let item = number(alloc, *value)?;
        list.push(item)?;
    }
    Poly::from_coefficients(list)
}

#[test]
fn lines_are_added_and_multiplied(rt: HostRuntime) -> Result<(), RingFault> {
    let alloc = rt.alloc();
    let above: Zn = numbers(alloc, &[1, 1])?;
    let below: Zn = numbers(alloc, &[-1, 1])?;
    assert!(rt;
        above
            .mul(alloc, &below)?
            .same(&numbers(alloc, &[-1, 0, 1])?)
    );
    assert!(rt; above.add(alloc, &below)?.same(&numbers(alloc, &[0, 2])?));
    assert!(rt; above.sub(alloc, &below)?.same(&numbers(alloc, &[2])?));
    assert!(rt; below.magnitude(alloc)?.same(&above));
    assert!(rt; below.neg(alloc)?.same(&numbers(alloc, &[1, -1])?));
    assert!(rt; below.duplicate(alloc)?.same(&below));
    Ok(())
}

#[test]
fn constants_and_coefficients(rt: HostRuntime) -> Result<(), RingFault> {
    let alloc = rt.alloc();
    let zero = Zn::zero(alloc)?;
    assert!(rt; zero.is_zero() && zero.degree().is_none() && zero.lead().is_none());
    assert!(rt; Zn::one(alloc)?.same(&numbers(alloc, &[1])?));
    let three: Zn = number(alloc, 3)?;
    assert!(rt; three.same(&numbers(alloc, &[3, 0, 0])?));
    assert_eq!(rt; three.degree(), Some(0));
    assert_eq!(rt; three.coefficient(0).map(|item| item.value()), Some(3));
    assert!(rt; three.coefficient(1).is_none());
    Ok(())
}

// A sum of magnitudes decides, and not the number that is left.
#[test]
fn cancelled_numbers_are_too_large(rt: HostRuntime) -> Result<(), RingFault> {
    let alloc = rt.alloc();
    let half: i128 = 1 << 63;
    let plus: Znk = numbers(alloc, &[half, half])?;
    let minus: Znk = numbers(alloc, &[half, -half])?;
    assert!(rt; matches!(plus.mul(alloc, &minus), Err(RingFault::TooLarge)));
    let less: Znk = numbers(alloc, &[half, half - 1])?;
    assert!(rt; less.mul(alloc, &minus).is_ok());
    Ok(())
}

// Whether two answers are alike, with a value exactly where there should be one.
fn are_alike<R: Ring>(
    a: &Result<R, RingFault>,
    b: &Result<R, RingFault>,
    is_in_bounds: bool,
) -> bool {
    match (a, b) {
        (Ok(a), Ok(b)) => is_in_bounds && a.same(b),
        (Err(a), Err(b)) => !is_in_bounds && a == b,
        _ => false,
    }
}

// The cheap test changes no answer: it lets the first row pass, the product of the magnitudes the second, and neither the third.
#[test]
fn both_products_answer_alike(rt: HostRuntime) -> Result<(), RingFault> {
    let alloc = rt.alloc();
    let half: i128 = 1 << 63;
    let rows = [
        ([5, -2], [3, 4], true),
        ([half, half - 1], [half - 1, -half], true),
        ([half, half], [half, -half], false),
    ];
    for (left, right, is_in_bounds) in rows {
        let left: Znk = numbers(alloc, &left)?;
        let right: Znk = numbers(alloc, &right)?;
        assert!(rt;
            are_alike(
                &left.mul(alloc, &right),
                &left.product_by_magnitudes(alloc, &right),
                is_in_bounds
            )
        );
    }
    Ok(())
}

// The line at n + 1, with the cheap test of its bounds, and where the shift of the magnitudes decides.
fn shifted_line(alloc: Global, line: &[Whole], is_tested: bool) -> Result<Zn, RingFault> {
    let list = if is_tested {
        bounded_shift(alloc, line, &Whole::ONE)?
    } else {
        shift_by_magnitudes(alloc, line, &Whole::ONE)?
    };
    Poly::from_coefficients(list)
}

// So it is with shifts by 1: with half at 2^126 the value of the magnitudes at 2 shows nothing of the second row.
#[test]
fn both_shifts_answer_alike(rt: HostRuntime) -> Result<(), RingFault> {
    let alloc = rt.alloc();
    let half: i128 = 1 << 126;
    for (constant, slope, is_in_bounds) in [
        (5, -2, true),
        (half, half - 1, true),
        (half, -half, false),
    ] {
        let line = numbers::<Whole>(alloc, &[constant, slope])?;
        assert!(rt;
            are_alike(
                &shifted_line(alloc, line.coefficients(), true),
                &shifted_line(alloc, line.coefficients(), false),
                is_in_bounds
            )
        );
    }
    Ok(())
}

#[test]
fn three_levels(rt: HostRuntime) -> Result<(), RingFault> {
    let alloc = rt.alloc();
    let outermost: Poly<Znk> = line(alloc, number(alloc, 0)?, number(alloc, 1)?)?;
    let square = outermost.mul(alloc, &outermost)?;
    assert_eq!(rt; square.degree(), Some(2));
    assert!(rt; square.lead().is_some());
    assert!(rt; outermost.add(alloc, &outermost.neg(alloc)?)?.is_zero());
    Ok(())
}

// slope * n + k
fn form(alloc: Global, slope: i128) -> Result<Znk, RingFault> {
    line(alloc, numbers(alloc, &[0, slope])?, number(alloc, 1)?)
}

// The quotient, and `TooLarge` for a divisor of zero.
fn quotient<D: Domain>(alloc: Global, dividend: &D, by: &D) -> Result<Option<D>, RingFault> {
    if by.is_zero() {
        return Err(RingFault::TooLarge);
    }
    dividend.divide_exact(alloc, by)
}

#[test]
fn a_difference_of_squares_is_divided(rt: HostRuntime) -> Result<(), RingFault> {
    let alloc = rt.alloc();
    let sum = form(alloc, 1)?;
    let difference = form(alloc, -1)?;
    let squares = sum.mul(alloc, &difference)?;
    match quotient(alloc, &squares, &difference)? {
        Some(found) => assert!(rt; found.same(&sum)),
        None => assert!(rt; false),
    }
    assert!(rt; quotient(alloc, &squares, &form(alloc, -2)?)?.is_none());
    Ok(())
}

#[test]
fn values_and_shifts(rt: HostRuntime) -> Result<(), RingFault> {
    let alloc = rt.alloc();
    let above_square: Zn = numbers(alloc, &[1, 0, 1])?;
    assert_eq!(rt; above_square.eval(alloc, &number(alloc, 3)?)?.value(), 10);
    let square: Zn = numbers(alloc, &[0, 0, 1])?;
    assert!(rt;
        square
            .shift_by(alloc, 1)?
            .same(&numbers(alloc, &[1, 2, 1])?)
    );
    Ok(())
}

fn is_too_large<T>(answer: &Result<T, RingFault>) -> bool {
    matches!(answer, Err(RingFault::TooLarge))
}

// k^2 + n at n + 3 is k^2 + n + 3.
#[test]
fn the_second_variable_is_shifted(rt: HostRuntime) -> Result<(), RingFault> {
    let alloc = rt.alloc();
    let square: Znk = numbers(alloc, &[0, 0, 1])?;
    let poly = square.add(
        alloc,
        &line(alloc, numbers(alloc, &[0, 1])?, number(alloc, 0)?)?,
    )?;
    let shifted = poly.add(alloc, &number(alloc, 3)?)?;
    assert!(rt; poly.shift_inner_by(alloc, 3)?.same(&shifted));
    assert!(rt; shifted.shift_inner_by(alloc, -3)?.same(&poly));
    let half: i128 = 1 << 126;
    let wide: Znk = line(alloc, numbers(alloc, &[0, half])?, number(alloc, 1)?)?;
    assert!(rt; wide.shift_inner_by(alloc, 1).is_ok());
    assert!(rt; is_too_large(&wide.shift_inner_by(alloc, -2)));
    Ok(())
}

// -3*(2*n - 4) is 12 - 6*n, and no whole number of these is 12 - 5*n, 12 or a square.
#[test]
fn whole_quotients(rt: HostRuntime) -> Result<(), RingFault> {
    let alloc = rt.alloc();
    let by: Znk = line(
        alloc,
        numbers(alloc, &[-4, 2])?,
        numbers(alloc, &[0, 0, 2])?,
    )?;
    let found = by.mul(alloc, &number(alloc, -3)?)?.whole_quotient(&by);
    assert_eq!(rt; found.map(|found| found.value()), Some(-3));
    let line: Zn = numbers(alloc, &[-4, 2])?;
    assert!(rt;
        numbers::<Whole>(alloc, &[12, -5])?
            .whole_quotient(&line)
            .is_none()
    );
    assert!(rt;
        numbers::<Whole>(alloc, &[12])?
            .whole_quotient(&line)
            .is_none()
    );
    assert!(rt;
        numbers::<Whole>(alloc, &[0, -4, 2])?
            .whole_quotient(&line)
            .is_none()
    );
    assert!(rt; line.whole_quotient(&Zn::zero(alloc)?).is_none());
    assert!(rt; Zn::zero(alloc)?.whole_quotient(&line).is_some());
    let greatest: Zn = number(alloc, i128::MAX)?;
    assert_eq!(rt;
        greatest
            .whole_quotient(&greatest)
            .map(|found| found.value()),
        Some(1)
    );
    Ok(())
}

#[test]
fn products_with_powers(rt: HostRuntime) -> Result<(), RingFault> {
    let alloc = rt.alloc();
    let above: Zn = numbers(alloc, &[1, 1])?;
    let product = times_power(alloc, number(alloc, 2)?, above.duplicate(alloc)?, 3)?;
    assert!(rt; product.same(&numbers(alloc, &[2, 6, 6, 2])?));
    let two: Whole = number(alloc, 2)?;
    let greatest = times_power(alloc, Whole::ONE, two, 126)?;
    assert_eq!(rt; greatest.value(), 1 << 126);
    assert!(rt; is_too_large(&times_power(alloc, Whole::ONE, two, 127)));
    Ok(())
}

// The polynomial of as many ones.
fn ones(alloc: Global, count: usize) -> Result<Zn, RingFault> {
    let mut list = Vec::new(alloc);
    for _power in 0..count {
        list.push(Whole::ONE)?;
    }
    Poly::from_coefficients(list)
}

#[test]
fn at_most_256_coefficients(rt: HostRuntime) -> Result<(), RingFault> {
    let alloc = rt.alloc();
    assert_eq!(rt; ones(alloc, 256)?.degree(), Some(255));
    assert!(rt; is_too_large(&ones(alloc, 257)));
    let middle = ones(alloc, 129)?;
    assert_eq!(rt; middle.mul(alloc, &ones(alloc, 128)?)?.degree(), Some(255));
    assert!(rt; is_too_large(&middle.mul(alloc, &middle)));
    Ok(())
}

// 2^126*n, of which each operation with a little more passes 127 bits, and with a little less doesn't.
#[test]
fn numbers_of_polynomials_end_below_two_to_the_127(rt: HostRuntime) -> Result<(), RingFault> {
    let alloc = rt.alloc();
    let half: i128 = 1 << 126;
    let wide: Zn = numbers(alloc, &[0, half])?;
    let less: Zn = numbers(alloc, &[0, half - 1])?;
    let two: Whole = number(alloc, 2)?;
    assert!(rt; is_too_large(&wide.add(alloc, &wide)));
    assert!(rt; is_too_large(&wide.sub(alloc, &wide)));
    assert!(rt; wide.sub(alloc, &less)?.same(&numbers(alloc, &[0, 1])?));
    assert!(rt; is_too_large(&wide.mul(alloc, &numbers(alloc, &[2])?)));
    assert!(rt; less.mul(alloc, &numbers(alloc, &[2])?).is_ok());
    assert!(rt; is_too_large(&wide.eval(alloc, &two)));
    assert_eq!(rt; less.eval(alloc, &two)?.value(), i128::MAX - 1);
    assert!(rt; is_too_large(&wide.shift_by(alloc, 2)));
    assert!(rt;
        less.shift_by(alloc, 2)?
            .same(&numbers(alloc, &[i128::MAX - 1, half - 1])?)
    );
    assert!(rt; is_too_large(&quotient(alloc, &wide, &numbers(alloc, &[2, 1])?)));
    assert!(rt; quotient(alloc, &less, &numbers(alloc, &[2, 1])?)?.is_none());
    Ok(())
}
