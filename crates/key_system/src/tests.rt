use crate::{Insoluble, Solved, degree_bound, key_rows, solve};
use either::Either;
use form_rings::FormRing;
use poly_generic::{Poly, Zn};
use reducing::Reducing;
use ring_laws::{Ring, RingFault, Whole};
use std::alloc::Global;
use steps::{LimitName, StepFault, step_fault};

// The slopes of n and k, and the offset.
type Form = (i64, i64, i64);

// q, then r(k-1), then the sides, each as a product of forms.
#[derive(Clone, Copy, Drop)]
struct Equation<'a> {
    q: &'a [Form],
    b: &'a [Form],
    sides: &'a [&'a [Form]],
}

// 1/(k*(k+1)), k!, 1/k, (k+3)!/k!
const QUOTIENT: Equation<'static> = Equation {
    q: &[(0, 1, 0)],
    b: &[(0, 1, 1)],
    sides: &[&[]],
};

const FACTORIAL: Equation<'static> = Equation {
    q: &[(0, 1, 1)],
    b: &[],
    sides: &[&[]],
};

const INVERSE: Equation<'static> = Equation {
    q: &[(0, 1, 0)],
    b: &[(0, 1, 0)],
    sides: &[&[]],
};

const PRODUCT: Equation<'static> = Equation {
    q: &[],
    b: &[],
    sides: &[&[(0, 1, 1), (0, 1, 2), (0, 1, 3)]],
};

// binomial(n,k) at the orders 0 and 1
const BINOMIAL_ALONE: Equation<'static> = Equation {
    q: &[(1, -1, 0)],
    b: &[(0, 1, 0)],
    sides: &[&[]],
};

const BINOMIAL: Equation<'static> = Equation {
    q: &[(1, -1, 1)],
    b: &[(0, 1, 0)],
    sides: &[&[(1, -1, 1)], &[(1, 0, 1)]],
};

// binomial(n,k)^2*binomial(n+k,k)^2 at the order 2
const APERY: Equation<'static> = Equation {
    q: &[(1, 1, 1), (1, 1, 1), (-1, 1, -2), (-1, 1, -2)],
    b: &[(0, 1, 0), (0, 1, 0), (0, 1, 0), (0, 1, 0)],
    sides: &[
        &[(1, -1, 1), (1, -1, 1), (1, -1, 2), (1, -1, 2)],
        &[(1, 1, 1), (1, 1, 1), (1, -1, 2), (1, -1, 2)],
        &[(1, 1, 1), (1, 1, 1), (1, 1, 2), (1, 1, 2)],
    ],
};

// 2^124*(Y(k+1) - Y(k)) = a_0*k^8, whose bound is 9
const LARGE: Equation<'static> = Equation {
    q: &[(0, 0, 1 << 62), (0, 0, 1 << 62)],
    b: &[(0, 0, 1 << 62), (0, 0, 1 << 62)],
    sides: &[&[
        (0, 1, 0),
        (0, 1, 0),
        (0, 1, 0),
        (0, 1, 0),
        (0, 1, 0),
        (0, 1, 0),
        (0, 1, 0),
        (0, 1, 0),
    ]],
};

// The form as a polynomial in k.
fn of_form<B: FormRing>(alloc: Global, form: Form) -> Result<Poly<B>, RingFault> {
    let mut list = Vec::new(alloc);
    list.push(B::part(alloc, form.0, 0, form.2)?)?;
    list.push(B::part(alloc, 0, 0, form.1)?)?;
    Poly::from_coefficients(list)
}

fn product<B: FormRing>(alloc: Global, forms: &[Form]) -> Result<Poly<B>, RingFault> {
    let mut found = Poly::one(alloc)?;
    for form in forms {
        found = found.mul(alloc, &of_form(alloc, *form)?)?;
    }
    Ok(found)
}

fn products<B: FormRing>(alloc: Global, lists: &[&[Form]]) -> Result<Vec<Poly<B>>, RingFault> {
    let mut found = Vec::new(alloc);
    for forms in lists {
        found.push(product(alloc, forms)?)?;
    }
    Ok(found)
}

// The degree bound, `Memory` where q is zero.
fn bound_of<B: FormRing>(alloc: Global, equation: &Equation) -> Result<Option<u128>, RingFault> {
    let q: Poly<B> = product(alloc, equation.q)?;
    let b = product(alloc, equation.b)?;
    let sides = products(alloc, equation.sides)?;
    if q.is_zero() {
        return Err(RingFault::Memory);
    }
    degree_bound(alloc, &q, &b, &sides)
}

// That of the last is from the extra root alone: degrees would give 1.
#[test]
fn degree_bounds(rt: HostRuntime) -> Result<(), RingFault> {
    let alloc = rt.alloc();
    assert_eq!(rt; bound_of::<Zn>(alloc, &QUOTIENT)?, Some(1));
    assert_eq!(rt; bound_of::<Zn>(alloc, &FACTORIAL)?, None);
    assert_eq!(rt; bound_of::<Zn>(alloc, &INVERSE)?, Some(0));
    assert_eq!(rt; bound_of::<Zn>(alloc, &PRODUCT)?, Some(4));
    assert_eq!(rt; bound_of::<Zn>(alloc, &APERY)?, Some(2));
    Ok(())
}

#[test]
fn rows_of_an_inverse(rt: HostRuntime) -> Result<(), RingFault> {
    let alloc = rt.alloc();
    let k: Poly<Zn> = product(alloc, INVERSE.q)?;
    let sides = products(alloc, INVERSE.sides)?;
    if k.is_zero() {
        return Err(RingFault::Memory);
    }
    let rows = key_rows(alloc, &k, &k, &sides, Some(0));
    assert!(rt; matches!(&rows, Ok(rows) if rows.len() == 1 && rows[0].len() == 2));
    let Ok(rows) = rows else {
        return Err(RingFault::Memory);
    };
    let minus_one = Zn::part(alloc, 0, 0, -1)?;
    assert!(rt; rows[0][0].is_zero() && rows[0][1].same(&minus_one));
    Ok(())
}

// What is found of an equation, `Memory` where q is zero or there is no side.
fn answer<B: FormRing + Reducing>(
    alloc: Global,
    equation: &Equation,
) -> Result<Either<Solved<B>, Insoluble>, StepFault> {
    let q: Poly<B> = product(alloc, equation.q).map_err(|fault| step_fault(fault))?;
    let b = product(alloc, equation.b).map_err(|fault| step_fault(fault))?;
    let sides = products(alloc, equation.sides).map_err(|fault| step_fault(fault))?;
    if q.is_zero() || sides.is_empty() {
        return Err(StepFault::Memory);
    }
    solve(alloc, &q, &b, &sides)
}

// The bound of an equation without solutions.
fn bound_where_insoluble(alloc: Global, equation: &Equation) -> Option<Option<u32>> {
    match answer::<Zn>(alloc, equation) {
        Ok(Either::Right(insoluble)) => Some(insoluble.bound),
        _ => None,
    }
}

#[test]
fn insoluble_equations(rt: HostRuntime) {
    let alloc = rt.alloc();
    assert_eq!(rt; bound_where_insoluble(alloc, &FACTORIAL), Some(None));
    assert_eq!(rt; bound_where_insoluble(alloc, &INVERSE), Some(Some(0)));
    assert_eq!(rt; bound_where_insoluble(alloc, &BINOMIAL_ALONE), Some(None));
    assert_eq!(rt; bound_where_insoluble(alloc, &BINOMIAL), None);
}

// The list of these polynomials in n, each by its numbers.
fn in_n(alloc: Global, lists: &[&[i64]]) -> Result<Poly<Zn>, RingFault> {
    let mut items = Vec::new(alloc);
    for list in lists {
        let mut numbers = Vec::new(alloc);
        for number in *list {
            numbers.push(Whole::from(*number))?;
        }
        items.push(Zn::from_coefficients(numbers)?)?;
    }
    Poly::from_coefficients(items)
}

// Whether the solution has these multipliers and this Y.
fn is_solved(
    alloc: Global,
    equation: &Equation,
    multipliers: &[&[i64]],
    y: &[&[i64]],
) -> Result<bool, RingFault> {
    let Ok(Either::Left(solved)) = answer::<Zn>(alloc, equation) else {
        return Ok(false);
    };
    let found = Poly::from_coefficients(solved.multipliers)?;
    Ok(found.same(&in_n(alloc, multipliers)?) && solved.y.same(&in_n(alloc, y)?))
}

// The multiplier of the product is 4, with Y = k(k+1)(k+2)(k+3), and that of the quotient 1, with Y = -1, since the constant of Y is free.
#[test]
fn solved_equations(rt: HostRuntime) -> Result<(), RingFault> {
    let alloc = rt.alloc();
    assert!(rt; is_solved(alloc, &BINOMIAL, &[&[-2], &[1]], &[&[-1]])?);
    assert!(rt; is_solved(alloc, &PRODUCT, &[&[4]], &[&[], &[6], &[11], &[6], &[1]])?);
    assert!(rt; is_solved(alloc, &QUOTIENT, &[&[1]], &[&[-1]])?);
    Ok(())
}

// (n+1)^3 u(n) - (2n+3)(17n^2+51n+39) u(n+1) + (n+2)^3 u(n+2), with Y = 4(2n+3)(2k^2 - 3k - 4(n+1)(n+2)).
#[test]
fn apery_numbers(rt: HostRuntime) -> Result<(), RingFault> {
    let alloc = rt.alloc();
    assert!(rt;
        is_solved(
            alloc,
            &APERY,
            &[&[1, 3, 3, 1], &[-117, -231, -153, -34], &[8, 12, 6, 1]],
            &[&[-96, -208, -144, -32], &[-36, -24], &[24, 16]]
        )?
    );
    Ok(())
}

#[test]
fn column_out_of_bounds(rt: HostRuntime) {
    let alloc = rt.alloc();
    assert!(rt; matches!(answer::<Zn>(alloc, &LARGE), Err(StepFault::TooLarge)));
}

// The fault of the rows of Y(k+1) - Y(k) = a_0 * k^power, which has power + 3 columns.
fn fault_of_power(alloc: Global, power: usize) -> Result<Option<StepFault>, RingFault> {
    let one: Poly<Zn> = Poly::one(alloc)?;
    let mut list = Vec::new(alloc);
    for _at in 0..power {
        list.push(Zn::zero(alloc)?)?;
    }
    list.push(Zn::one(alloc)?)?;
    let mut sides = Vec::new(alloc);
    sides.push(Poly::from_coefficients(list)?)?;
    if one.is_zero() {
        return Err(RingFault::Memory);
    }
    Ok(key_rows(alloc, &one, &one, &sides, Some(power as u128 + 1)).err())
}

#[test]
fn forty_eight_columns(rt: HostRuntime) -> Result<(), RingFault> {
    let alloc = rt.alloc();
    let limit = StepFault::Limit {
        name: LimitName::Columns,
        counted: 49,
    };
    assert_eq!(rt; fault_of_power(alloc, 46)?, Some(limit));
    assert_eq!(rt; fault_of_power(alloc, 45)?, None);
    Ok(())
}
