use crate::Reducing;
use poly_generic::{Poly, Zn};
use ring_laws::{Ring, RingFault, Whole};
use std::alloc::Global;

fn row_of(alloc: Global, numbers: &[i128]) -> Result<Vec<Whole>, RingFault> {
    let mut row = Vec::new(alloc);
    for number in numbers {
        row.push(Whole::new(*number).ok_or(RingFault::TooLarge)?)?;
    }
    Ok(row)
}

// The polynomial in n with these coefficients.
fn polynomial(alloc: Global, numbers: &[i128]) -> Result<Zn, RingFault> {
    Poly::from_coefficients(row_of(alloc, numbers)?)
}

fn polynomials(alloc: Global, lists: &[&[i128]]) -> Result<Vec<Zn>, RingFault> {
    let mut row = Vec::new(alloc);
    for numbers in lists {
        row.push(polynomial(alloc, numbers)?)?;
    }
    Ok(row)
}

// Whether the row, reduced, is the other one. A generic call, so that the trait's own contracts are what is used.
fn reduces_to<R: Reducing>(alloc: Global, row: Vec<R>, wanted: &[R]) -> Result<bool, RingFault> {
    let reduced = R::reduce_row(alloc, row)?;
    if reduced.len() != wanted.len() {
        return Ok(false);
    }
    for at in 0..wanted.len() {
        if !reduced[at].same(&wanted[at]) {
            return Ok(false);
        }
    }
    Ok(true)
}

// Whether these are the plain part and the core of the value, and their product is the value.
fn has_parts<R: Reducing>(
    alloc: Global,
    value: &R,
    plain: &R,
    core: &R,
) -> Result<bool, RingFault> {
    if value.is_zero() {
        return Ok(false);
    }
    let parts = value.split(alloc)?;
    let product = parts.0.mul(alloc, &parts.1)?;
    let alone = value.core(alloc)?;
    let beside = value.plain_part(alloc, &alone)?;
    Ok(parts.0.same(plain) && parts.1.same(core) && product.same(value) && beside.same(plain))
}

// Whether this is the core of the value.
fn has_core<R: Reducing>(alloc: Global, value: &R, core: &R) -> Result<bool, RingFault> {
    if value.is_zero() {
        return Ok(false);
    }
    Ok(value.core(alloc)?.same(core))
}

#[test]
fn rows_of_whole_numbers(rt: HostRuntime) -> Result<(), RingFault> {
    let alloc = rt.alloc();
    let table: [(&[i128], &[i128]); 5] = [
        (&[2, 2, 4], &[1, 1, 2]),
        (&[-6, 0, 9], &[-2, 0, 3]),
        (&[0, 0], &[0, 0]),
        (&[0, -5], &[0, -1]),
        (&[], &[]),
    ];
    for (row, wanted) in table {
        let wanted = row_of(alloc, wanted)?;
        assert!(rt; reduces_to(alloc, row_of(alloc, row)?, &wanted)?);
    }
    Ok(())
}

// 2*n + 2 and 4*n^2 - 4 have 2 and n + 1 in common; n^3 and -n^2, of which the second has the least degree, n^2; 2*n - 3 stands in the
// second entry only; -6 and 0 have 6 in common, and the sign stays.
#[test]
fn rows_of_polynomials(rt: HostRuntime) -> Result<(), RingFault> {
    let alloc = rt.alloc();
    let table: [(&[&[i128]], &[&[i128]]); 6] = [
        (&[&[2, 2], &[-4, 0, 4]], &[&[1], &[-2, 2]]),
        (&[&[0, 0, 0, 1], &[0, 0, -1]], &[&[0, 1], &[-1]]),
        (&[&[1, 0, 1], &[-3, 2]], &[&[1, 0, 1], &[-3, 2]]),
        (&[&[-6], &[]], &[&[-1], &[]]),
        (&[&[], &[]], &[&[], &[]]),
        (&[], &[]),
    ];
    for (row, wanted) in table {
        let wanted = polynomials(alloc, wanted)?;
        assert!(rt; reduces_to(alloc, polynomials(alloc, row)?, &wanted)?);
    }
    // 4*n^2 + 2^126 + 1, whose factors of slope 2 are looked for among numbers up to 4*(2^126 + 1)
    let large = polynomials(alloc, &[&[(1 << 126) + 1, 0, 4]])?;
    assert!(rt; matches!(reduces_to(alloc, large, &[]), Err(RingFault::TooLarge)));
    Ok(())
}

#[test]
fn the_one_of_a_ring(rt: HostRuntime) -> Result<(), RingFault> {
    let alloc = rt.alloc();
    assert!(rt; Whole::one(alloc)?.is_one() && !Whole::zero(alloc)?.is_one());
    assert!(rt; Zn::one(alloc)?.is_one() && !Zn::zero(alloc)?.is_one());
    assert!(rt; !polynomial(alloc, &[1, 1])?.is_one() && !polynomial(alloc, &[-1])?.is_one());
    Ok(())
}

#[test]
fn parts_of_a_value(rt: HostRuntime) -> Result<(), RingFault> {
    let alloc = rt.alloc();
    let number = Whole::new(-12).ok_or(RingFault::TooLarge)?;
    assert_eq!(rt; number.weight(), 0);
    let one = Whole::one(alloc)?;
    assert!(rt; has_parts(alloc, &number, &number, &one)? && has_core(alloc, &number, &one)?);
    let table: [(&[i128], &[i128], &[i128]); 5] = [
        (&[-2, 0, -2], &[-2], &[1, 0, 1]),
        (&[1 << 126, 0, 1 << 126], &[1 << 126], &[1, 0, 1]),
        (&[0, 3, 6], &[0, 3, 6], &[1]),
        (&[2, 2, 2, 2], &[2, 2], &[1, 0, 1]),
        (&[-7], &[-7], &[1]),
    ];
    for (value, plain, core) in table {
        let value = polynomial(alloc, value)?;
        let plain = polynomial(alloc, plain)?;
        assert!(rt; has_parts(alloc, &value, &plain, &polynomial(alloc, core)?)?);
    }
    // 2^126 * (n - 1)^2 * (n^2 + n + 1), whose plain part would have the number -2^127; its core alone is in bounds
    let large = polynomial(alloc, &[1 << 126, -(1 << 126), 0, -(1 << 126), 1 << 126])?;
    let core = polynomial(alloc, &[1, 1, 1])?;
    assert!(rt;
        matches!(
            has_parts(alloc, &large, &large, &core),
            Err(RingFault::TooLarge)
        )
    );
    assert!(rt; has_core(alloc, &large, &core)?);
    assert_eq!(rt; polynomial(alloc, &[0, 0, 5])?.weight(), 2);
    assert_eq!(rt; polynomial(alloc, &[])?.weight(), 0);
    Ok(())
}
