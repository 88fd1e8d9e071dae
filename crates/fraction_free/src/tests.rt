ghost use Rattle.std.specs.Prelude.{◌≡◌, IsTrue, All, length};

use crate::{Reducing, eliminate, kernel_basis};
use either::Either;
use poly_generic::{Poly, Zn};
use ring_laws::{Ring, RingFault, Whole};
use std::alloc::Global;

fn numbers(alloc: Global, values: &[i128]) -> Result<Vec<Whole>, RingFault> {
    let mut list = Vec::new(alloc);
    for value in values {
        list.push(Whole::new(*value).ok_or(RingFault::TooLarge)?)?;
    }
    Ok(list)
}

// The rows of a table of numbers.
fn rows_of(alloc: Global, table: &[&[i128]], width: usize) -> Result<Vec<Vec<Whole>>, RingFault> {
    let mut rows = Vec::new(alloc);
    for values in table {
        if values.len() != width {
            return Err(RingFault::TooLarge);
        }
        rows.push(numbers(alloc, values)?)?;
    }
    Ok(rows)
}

// The polynomials in n with these coefficients.
fn polynomials(alloc: Global, lists: &[&[i128]]) -> Result<Vec<Zn>, RingFault> {
    let mut row = Vec::new(alloc);
    for list in lists {
        row.push(Poly::from_coefficients(numbers(alloc, list)?)?)?;
    }
    Ok(row)
}

// Whether each row has the width.
fn are_of_width<R>(rows: &[Vec<R>], width: usize) -> bool
    ensures sizes { IsTrue result → All (λ row. length row.items ≡ width) rows.now }
{
    for at in 0..rows.len() {
        if rows[at].len() != width {
            return false;
        }
    }
    true
}

fn are_same<R: Ring>(row: &[R], wanted: &[R]) -> bool {
    if row.len() != wanted.len() {
        return false;
    }
    for at in 0..row.len() {
        if !row[at].same(&wanted[at]) {
            return false;
        }
    }
    true
}

// Whether elimination gives this vector, which ends at the column. A generic call, so that its own contract is what is used.
fn has_vector<R: Reducing>(
    alloc: Global,
    rows: Vec<Vec<R>>,
    columns: u32,
    first: u32,
    wanted: &[R],
    free: u32,
) -> Result<bool, RingFault> {
    if !are_of_width(&rows, columns as usize) || columns == 0 || columns > 48 || first >= columns {
        return Ok(false);
    }
    match eliminate(alloc, rows, columns, first)? {
        Either::Left(kernel) => Ok(kernel.free == free && are_same(&kernel.vector, wanted)),
        Either::Right(_) => Ok(false),
    }
}

// x_0 = x_1, x_1 = x_2, .., so many rows.
fn chain<R: Reducing>(alloc: Global, count: usize) -> Result<Vec<Vec<R>>, RingFault> {
    let mut rows = Vec::new(alloc);
    for at in 0..count {
        let mut row = Vec::new(alloc);
        for column in 0..48 {
            let entry = if column == at {
                R::one(alloc)?
            } else if column > at && column - at == 1 {
                R::one(alloc)?.neg(alloc)?
            } else {
                R::zero(alloc)?
            };
            row.push(entry)?;
        }
        rows.push(row)?;
    }
    Ok(rows)
}

// Whether the chain through 48 columns has the vector of ones, and with one row more no vector.
fn goes_through_all<R: Reducing>(alloc: Global) -> Result<bool, RingFault> {
    let mut ones = Vec::new(alloc);
    for _column in 0..48 {
        ones.push(R::one(alloc)?)?;
    }
    let rows = chain::<R>(alloc, 48)?;
    if !are_of_width(&rows, 48) {
        return Ok(false);
    }
    let full = match eliminate(alloc, rows, 48, 0)? {
        Either::Left(_) => false,
        Either::Right(pivots) => pivots.rank == 48,
    };
    Ok(full && has_vector(alloc, chain::<R>(alloc, 47)?, 48, 0, &ones, 47)?)
}

#[test]
fn forty_eight_columns(rt: HostRuntime) -> Result<(), RingFault> {
    let alloc = rt.alloc();
    assert!(rt; goes_through_all::<Whole>(alloc)?);
    assert!(rt; goes_through_all::<Zn>(alloc)?);
    Ok(())
}

#[test]
fn vectors_of_whole_numbers(rt: HostRuntime) -> Result<(), RingFault> {
    let alloc = rt.alloc();
    let table: [(&[&[i128]], u32, u32, &[i128], u32); 5] = [
        (&[&[1, 2], &[2, 4]], 2, 1, &[-2, 1], 1),
        (&[&[1, -1, 0]], 3, 0, &[1, 1, 0], 1),
        (&[&[0, 0]], 2, 1, &[0, 1], 1),
        (&[&[2, 3, 1], &[4, 5, 7]], 3, 0, &[-8, 5, 1], 2),
        (
            &[&[0, 1 << 100, 1], &[0, (1 << 99) + 1, 1]],
            3,
            0,
            &[1, 0, 0],
            0,
        ),
    ];
    for (rows, columns, first, wanted, free) in table {
        let rows = rows_of(alloc, rows, columns as usize)?;
        let wanted = numbers(alloc, wanted)?;
        assert!(rt; has_vector(alloc, rows, columns, first, &wanted, free)?);
    }
    // the second column can't be cleared; elimination goes there only where the first one isn't wanted
    let rows = rows_of(alloc, &[&[0, 1 << 100, 1], &[0, (1 << 99) + 1, 1]], 3)?;
    assert!(rt;
        matches!(
            has_vector(alloc, rows, 3, 1, &[], 2),
            Err(RingFault::TooLarge)
        )
    );
    Ok(())
}

// n*x = y; (n^2 - n)*x + n*y = 0, whose vector is reduced; a row of zeros; no rows; and two rows that are cleared over polynomials:
// x + n*y = z and n*x + y = (n + 1)*z, so that (1 - n^2)*y = z, and z = 1 - n^2 gives y = 1 and x = 1 - n - n^2. That of
// 2^126*(n^2 + 1)*x + y = 0 has a number of 127 bits.
#[test]
fn vectors_of_polynomials(rt: HostRuntime) -> Result<(), RingFault> {
    let alloc = rt.alloc();
    let table: [(&[&[&[i128]]], u32, u32, &[&[i128]], u32); 6] = [
        (&[&[&[0, 1], &[-1]]], 2, 1, &[&[1], &[0, 1]], 1),
        (&[&[&[0, -1, 1], &[0, 1]]], 2, 0, &[&[-1], &[-1, 1]], 1),
        (&[&[&[], &[]]], 2, 1, &[&[], &[1]], 1),
        (&[], 2, 0, &[&[1], &[]], 0),
        (
            &[&[&[1 << 126, 0, 1 << 126], &[1]]],
            2,
            1,
            &[&[-1], &[1 << 126, 0, 1 << 126]],
            1,
        ),
        (
            &[&[&[1], &[0, 1], &[-1]], &[&[0, 1], &[1], &[-1, -1]]],
            3,
            0,
            &[&[1, -1, -1], &[1], &[1, 0, -1]],
            2,
        ),
    ];
    for (lists, columns, first, wanted, free) in table {
        let mut rows = Vec::new(alloc);
        for row in lists {
            rows.push(polynomials(alloc, row)?)?;
        }
        let wanted = polynomials(alloc, wanted)?;
        assert!(rt; has_vector(alloc, rows, columns, first, &wanted, free)?);
    }
    Ok(())
}

#[test]
fn rows_whose_kernel_has_no_wanted_vector(rt: HostRuntime) -> Result<(), RingFault> {
    let alloc = rt.alloc();
    let table: [(&[&[i128]], u32, u32, u32); 2] = [
        (&[&[1, 0], &[0, 1]], 2, 0, 2),
        (&[&[1, 2, 3], &[2, 4, 7]], 3, 2, 2),
    ];
    for (rows, columns, first, rank) in table {
        let rows = rows_of(alloc, rows, columns as usize)?;
        if !are_of_width(&rows, columns as usize)
            || columns == 0
            || columns > 48
            || first >= columns
        {
            return Err(RingFault::TooLarge);
        }
        match eliminate(alloc, rows, columns, first)? {
            Either::Left(_) => assert!(rt; false),
            Either::Right(pivots) => assert_eq!(rt; pivots.rank, rank),
        }
    }
    Ok(())
}

#[test]
fn bases_of_whole_numbers(rt: HostRuntime) -> Result<(), RingFault> {
    let alloc = rt.alloc();
    let rows = rows_of(alloc, &[&[1, -1, 0]], 3)?;
    if !are_of_width(&rows, 3) {
        return Err(RingFault::TooLarge);
    }
    let basis = kernel_basis(alloc, rows, 3)?;
    assert_eq!(rt; basis.len(), 2);
    assert!(rt; are_same(&basis[0], &numbers(alloc, &[1, 1, 0])?));
    assert!(rt; are_same(&basis[1], &numbers(alloc, &[0, 0, 1])?));
    // x = 2*z and 3*y = 2*w: each vector is primitive, and zero where the other ends
    let rows = rows_of(alloc, &[&[1, 0, -2, 0], &[0, 3, 0, -2]], 4)?;
    if !are_of_width(&rows, 4) {
        return Err(RingFault::Memory);
    }
    let basis = kernel_basis(alloc, rows, 4)?;
    assert_eq!(rt; basis.len(), 2);
    assert!(rt; are_same(&basis[0], &numbers(alloc, &[2, 0, 1, 0])?));
    assert!(rt; are_same(&basis[1], &numbers(alloc, &[0, 2, 0, 3])?));
    let rows = rows_of(alloc, &[&[0, 1 << 100, 1], &[0, (1 << 99) + 1, 1]], 3)?;
    if are_of_width(&rows, 3) {
        assert!(rt; matches!(kernel_basis(alloc, rows, 3), Err(RingFault::TooLarge)));
    }
    let all = kernel_basis::<Whole>(alloc, Vec::new(alloc), 48)?;
    assert_eq!(rt; all.len(), 48);
    let all = kernel_basis::<Zn>(alloc, Vec::new(alloc), 48)?;
    assert_eq!(rt; all.len(), 48);
    Ok(())
}
