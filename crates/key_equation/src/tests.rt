//! Orders of worked terms, with values worked out by hand. What no clause says is that memory suffices.

ghost use Rattle.std.specs.Prelude.{IfOk};
ghost use Rattle.gosper_form.specs.NormalView.{normal_of};
ghost use Rattle.key_equation.specs.Polynomials.{IsOfQuotient};

use crate::{Insoluble, Solution, solve};
use either::Either;
use form_rings::FormRing;
use gosper_form::{Normal, Pieces, is_plain, normal_form, pieces_of};
use key_sides::sides;
use lin_form::{FactorList, LinForm};
use poly_fraction::Frac;
use poly_generic::{Poly, Zn, Znk};
use proper_term::Proper;
use reducing::Reducing;
use ring_laws::{Ring, RingFault, Whole};
use std::alloc::Global;
use steps::{LimitName, StepFault, step_fault};

// The slopes of n and k, the offset, and the power.
type Factor = (i64, i64, i64, u32);

// The factorials above and below, the forms below, and the order.
#[derive(Clone, Copy, Drop)]
struct Row {
    up: &'static [Factor],
    down: &'static [Factor],
    over: &'static [Factor],
    order: u32,
}

// k!, 1/k, (k+10)!/(k+3)!, (k+3)!/k!, 1
const FACTORIAL: Row = Row {
    up: &[(0, 1, 0, 1)],
    down: &[],
    over: &[],
    order: 0,
};

const INVERSE: Row = Row {
    up: &[],
    down: &[],
    over: &[(0, 1, 0, 1)],
    order: 0,
};

const PRODUCT: Row = Row {
    up: &[(0, 1, 10, 1)],
    down: &[(0, 1, 3, 1)],
    over: &[],
    order: 0,
};

const SHORT: Row = Row {
    up: &[(0, 1, 3, 1)],
    down: &[(0, 1, 0, 1)],
    over: &[],
    order: 0,
};

const ONE: Row = Row {
    up: &[],
    down: &[],
    over: &[],
    order: 0,
};

// binomial(n,k) at the orders 0 and 1
const BINOMIAL_ALONE: Row = Row {
    up: &[(1, 0, 0, 1)],
    down: &[(0, 1, 0, 1), (1, -1, 0, 1)],
    over: &[],
    order: 0,
};

const BINOMIAL: Row = Row {
    up: &[(1, 0, 0, 1)],
    down: &[(0, 1, 0, 1), (1, -1, 0, 1)],
    over: &[],
    order: 1,
};

// binomial(n,k)^2*binomial(n+k,k)^2 at the order 2
const APERY: Row = Row {
    up: &[(1, 1, 0, 2)],
    down: &[(0, 1, 0, 4), (1, -1, 0, 2)],
    over: &[],
    order: 2,
};

fn one_over_one() -> Result<Frac<Whole>, RingFault> {
    let Some(one) = Whole::new(1) else {
        return Err(RingFault::TooLarge);
    };
    Frac::new(one, one).ok_or(RingFault::TooLarge)
}

fn list_of(alloc: Global, factors: &[Factor]) -> Result<FactorList, RingFault> {
    let mut list = FactorList::new(alloc)?;
    for (n_slope, k_slope, offset, power) in factors {
        let Some(form) = LinForm::new(*n_slope, *k_slope, *offset) else {
            return Err(RingFault::TooLarge);
        };
        if *power == 0 || *power > 100 || list.power(&form) > 100 {
            return Err(RingFault::TooLarge);
        }
        list.multiply(form, *power)?;
    }
    Ok(list)
}

fn term_of(alloc: Global, row: &Row) -> Result<Proper, RingFault> {
    let term = Proper::new(
        Znk::one(alloc)?,
        one_over_one()?,
        one_over_one()?,
        one_over_one()?,
        list_of(alloc, row.up)?,
        list_of(alloc, row.down)?,
        list_of(alloc, row.over)?,
        list_of(alloc, &[])?,
    );
    term.ok_or(RingFault::TooLarge)
}

// The pieces of a term, and their normal form.
#[derive(Drop)]
struct Setting {
    pieces: Pieces,
    normal: Normal,
}

fn setting_of(alloc: Global, row: &Row) -> Result<Setting, StepFault>
    ensures quotient { IfOk result (λ setting. IsOfQuotient (normal_of setting.normal)) }
{
    let term = match term_of(alloc, row) {
        Ok(term) => term,
        Err(fault) => return Err(step_fault(fault)),
    };
    if row.order > 6 || !is_plain(&term) {
        return Err(StepFault::Memory);
    }
    let pieces = pieces_of(alloc, &term, row.order)?;
    let normal = normal_form(alloc, &pieces)?;
    Ok(Setting { pieces, normal })
}

// What is found of the order of a row.
fn answer<B: FormRing + Reducing>(
    alloc: Global,
    row: &Row,
) -> Result<Either<Solution<B>, Insoluble>, StepFault> {
    let setting = setting_of(alloc, row)?;
    let sides = sides(alloc, &setting.pieces, &setting.normal)?;
    if sides.is_empty() {
        return Err(StepFault::Memory);
    }
    solve(alloc, &setting.normal, &sides)
}

// The bound of an order without a solution.
fn bound_where_insoluble(alloc: Global, row: &Row) -> Option<Option<u32>> {
    match answer::<Zn>(alloc, row) {
        Ok(Either::Right(insoluble)) => Some(insoluble.bound),
        _ => None,
    }
}

// Of 1/k the constant Y with the multiplier 0 doesn't count.
#[test]
fn insoluble_orders(rt: HostRuntime) {
    let alloc = rt.alloc();
    assert_eq!(rt; bound_where_insoluble(alloc, &FACTORIAL), Some(None));
    assert_eq!(rt; bound_where_insoluble(alloc, &INVERSE), Some(Some(0)));
    assert_eq!(rt; bound_where_insoluble(alloc, &BINOMIAL_ALONE), Some(None));
    assert_eq!(rt; bound_where_insoluble(alloc, &BINOMIAL), None);
}

// The list of these polynomials in n, each by its numbers.
fn in_n(alloc: Global, lists: &[&[i64]]) -> Result<Poly<Zn>, RingFault> {
    let mut items = Vec::new(alloc);
    for list in lists {
        let mut numbers = Vec::new(alloc);
        for number in *list {
            numbers.push(Whole::from(*number))?;
        }
        items.push(Zn::from_coefficients(numbers)?)?;
    }
    Poly::from_coefficients(items)
}

// Whether the solution has these multipliers and this Y, and the poles k + first, .., k + last, each once.
fn is_solved(
    alloc: Global,
    row: &Row,
    multipliers: &[&[i64]],
    y: &[&[i64]],
    poles: &[i64],
) -> Result<bool, RingFault> {
    let Ok(Either::Left(solution)) = answer::<Zn>(alloc, row) else {
        return Ok(false);
    };
    let found = Poly::from_coefficients(solution.multipliers)?;
    Ok(
        found.same(&in_n(alloc, multipliers)?)
            && solution.y.same(&in_n(alloc, y)?)
            && are_poles(&solution.poles, poles),
    )
}

fn are_poles(list: &FactorList, offsets: &[i64]) -> bool {
    if list.len() != offsets.len() {
        return false;
    }
    offsets.iter().all(|offset| match LinForm::new(0, 1, *offset) {
        Some(form) => list.power(&form) == 1,
        None => false,
    })
}

// Y of (k+3)!/k! is k(k+1)(k+2)(k+3), with a = 4, and cancels all poles; that of (k+10)!/(k+3)! is (k+3) .. (k+10) without its constant, which is
// 0, with a = 8: no pole divides it.
#[test]
fn solved_orders(rt: HostRuntime) -> Result<(), RingFault> {
    let alloc = rt.alloc();
    assert!(rt; is_solved(alloc, &BINOMIAL, &[&[-2], &[1]], &[&[-1]], &[])?);
    assert!(rt; is_solved(alloc, &SHORT, &[&[4]], &[&[1]], &[])?);
    let y: [&[i64]; 9] = [
        &[],
        &[2592720],
        &[1580508],
        &[537628],
        &[111769],
        &[14560],
        &[1162],
        &[52],
        &[1],
    ];
    assert!(rt; is_solved(alloc, &PRODUCT, &[&[8]], &y, &[3, 4, 5, 6, 7, 8, 9, 10])?);
    Ok(())
}

// (n+1)^3 u(n) - (2n+3)(17n^2+51n+39) u(n+1) + (n+2)^3 u(n+2), with Y = 4(2n+3)(2k^2 - 3k - 4(n+1)(n+2)).
#[test]
fn apery_numbers(rt: HostRuntime) -> Result<(), RingFault> {
    let alloc = rt.alloc();
    let multipliers: [&[i64]; 3] = [&[1, 3, 3, 1], &[-117, -231, -153, -34], &[8, 12, 6, 1]];
    let y: [&[i64]; 3] = [&[-96, -208, -144, -32], &[-36, -24], &[24, 16]];
    assert!(rt; is_solved(alloc, &APERY, &multipliers, &y, &[])?);
    Ok(())
}

// The fault of Y(k+1) - Y(k) = a_0 * k^power, which has power + 3 columns.
fn fault_of_power(alloc: Global, power: usize) -> Result<Option<StepFault>, StepFault> {
    let setting = setting_of(alloc, &ONE)?;
    let side = match power_of_k(alloc, power) {
        Ok(side) => side,
        Err(fault) => return Err(step_fault(fault)),
    };
    Ok(solve(alloc, &setting.normal, &[side]).err())
}

fn power_of_k(alloc: Global, power: usize) -> Result<Poly<Zn>, RingFault> {
    let mut list = Vec::new(alloc);
    for _at in 0..power {
        list.push(Zn::zero(alloc)?)?;
    }
    list.push(Zn::one(alloc)?)?;
    Poly::from_coefficients(list)
}

#[test]
fn forty_nine_columns(rt: HostRuntime) -> Result<(), StepFault> {
    let alloc = rt.alloc();
    let limit = StepFault::Limit {
        name: LimitName::Columns,
        counted: 49,
    };
    assert_eq!(rt; fault_of_power(alloc, 46)?, Some(limit));
    assert_eq!(rt; fault_of_power(alloc, 8)?, None);
    Ok(())
}
