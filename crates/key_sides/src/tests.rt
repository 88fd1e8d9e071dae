//! Sides of worked terms, with values worked out by hand. What no clause says is that memory suffices.

use crate::{pair_side, sides, to_poly, to_poly_before};
use form_rings::FormRing;
use gosper_form::{Pieces, is_plain, normal_form, pieces_of};
use lin_form::{FactorList, LinForm};
use poly_fraction::Frac;
use poly_generic::{Poly, Zn, Znk};
use proper_term::Proper;
use ring_laws::{Ring, RingFault, Whole};
use std::alloc::Global;
use steps::{LimitName, StepFault};

// n slope, k slope, offset.
type Form = (i64, i64, i64);

// The base of n, the forms above and below, each once, and the order.
#[derive(Clone, Copy, Drop)]
struct Row {
    n_base: (i128, i128),
    up: &'static [Form],
    down: &'static [Form],
    order: u32,
}

// binomial(n,k) at the order 1, the same over 2^n, (k+3)!/k!, (k+63)!/k! and (k+65)!/k!
const BINOMIAL: Row = Row {
    n_base: (1, 1),
    up: &[(1, 0, 0)],
    down: &[(0, 1, 0), (1, -1, 0)],
    order: 1,
};

const HALVED: Row = Row {
    n_base: (1, 2),
    up: &[(1, 0, 0)],
    down: &[(0, 1, 0), (1, -1, 0)],
    order: 1,
};

const PRODUCT: Row = Row {
    n_base: (1, 1),
    up: &[(0, 1, 3)],
    down: &[(0, 1, 0)],
    order: 0,
};

const LARGE: Row = Row {
    n_base: (1, 1),
    up: &[(0, 1, 63)],
    down: &[(0, 1, 0)],
    order: 0,
};

const LONG: Row = Row {
    n_base: (1, 1),
    up: &[(0, 1, 65)],
    down: &[(0, 1, 0)],
    order: 0,
};

fn fraction(top: i128, bottom: i128) -> Result<Frac<Whole>, RingFault> {
    let (Some(top), Some(bottom)) = (Whole::new(top), Whole::new(bottom)) else {
        return Err(RingFault::TooLarge);
    };
    Frac::new(top, bottom).ok_or(RingFault::TooLarge)
}

fn list_of(alloc: Global, forms: &[Form]) -> Result<FactorList, RingFault> {
    let mut list = FactorList::new(alloc)?;
    for (n_slope, k_slope, offset) in forms {
        let Some(form) = LinForm::new(*n_slope, *k_slope, *offset) else {
            return Err(RingFault::TooLarge);
        };
        if list.power(&form) > 100 {
            return Err(RingFault::TooLarge);
        }
        list.multiply(form, 1)?;
    }
    Ok(list)
}

fn term_of(alloc: Global, row: &Row) -> Result<Proper, RingFault> {
    let term = Proper::new(
        Znk::one(alloc)?,
        fraction(1, 1)?,
        fraction(row.n_base.0, row.n_base.1)?,
        fraction(1, 1)?,
        list_of(alloc, row.up)?,
        list_of(alloc, row.down)?,
        list_of(alloc, &[])?,
        list_of(alloc, &[])?,
    );
    term.ok_or(RingFault::TooLarge)
}

// An answer of an engine, with one fault for all of its own.
fn answer<T>(answer: Result<T, StepFault>) -> Result<T, RingFault> {
    match answer {
        Ok(value) => Ok(value),
        Err(_) => Err(RingFault::TooLarge),
    }
}

fn pieces(alloc: Global, row: &Row) -> Result<Pieces, RingFault> {
    let term = term_of(alloc, row)?;
    if row.order > 6 || !is_plain(&term) {
        return Err(RingFault::TooLarge);
    }
    answer(pieces_of(alloc, &term, row.order))
}

// The polynomial in k with these coefficients, each with its slope of n and its offset.
fn polynomial(alloc: Global, items: &[(i64, i64)]) -> Result<Poly<Zn>, RingFault> {
    let mut list = Vec::new(alloc);
    for (slope, offset) in items {
        let item = Zn::part(alloc, *slope, 0, *offset)?;
        list.push(item)?;
    }
    Poly::from_coefficients(list)
}

// The sides of a row.
fn sides_of(alloc: Global, row: &Row) -> Result<Vec<Poly<Zn>>, StepFault> {
    let Ok(pieces) = pieces(alloc, row) else {
        return Err(StepFault::Memory);
    };
    let normal = normal_form(alloc, &pieces)?;
    sides(alloc, &pieces, &normal)
}

// The side of a pair.
fn side_of(alloc: Global, row: &Row) -> Result<Poly<Zn>, StepFault> {
    let Ok(pieces) = pieces(alloc, row) else {
        return Err(StepFault::Memory);
    };
    let normal = normal_form(alloc, &pieces)?;
    if pieces.order() != 1 {
        return Err(StepFault::Memory);
    }
    pair_side(alloc, &pieces, &normal)
}

// q(k) and r(k-1) of a row.
fn q_of(alloc: Global, row: &Row) -> Result<Poly<Zn>, RingFault> {
    let pieces = pieces(alloc, row)?;
    let normal = answer(normal_form(alloc, &pieces))?;
    to_poly(alloc, normal.q())
}

fn r_before_of(alloc: Global, row: &Row) -> Result<Poly<Zn>, RingFault> {
    let pieces = pieces(alloc, row)?;
    let normal = answer(normal_form(alloc, &pieces))?;
    to_poly_before(alloc, normal.r())
}

fn is_same(alloc: Global, found: &Poly<Zn>, items: &[(i64, i64)]) -> Result<bool, RingFault> {
    let wanted = polynomial(alloc, items)?;
    Ok(found.same(&wanted))
}

// Whether the sides of a row are these.
fn has_sides(alloc: Global, row: &Row, wanted: &[&[(i64, i64)]]) -> Result<bool, RingFault> {
    let found = answer(sides_of(alloc, row))?;
    if found.len() != wanted.len() {
        return Ok(false);
    }
    for at in 0..wanted.len() {
        if !is_same(alloc, &found[at], wanted[at])? {
            return Ok(false);
        }
    }
    Ok(true)
}

#[test]
fn sides_of_terms(rt: HostRuntime) -> Result<(), RingFault> {
    let alloc = rt.alloc();
    assert!(rt; has_sides(alloc, &BINOMIAL, &[&[(1, 1), (0, -1)], &[(1, 1)]])?);
    assert!(rt; has_sides(alloc, &PRODUCT, &[&[(0, 6), (0, 11), (0, 6), (0, 1)]])?);
    Ok(())
}

// 2k - n - 1 is n + 1 - 2(n + 1 - k).
#[test]
fn side_of_a_pair(rt: HostRuntime) -> Result<(), RingFault> {
    let alloc = rt.alloc();
    let found = answer(side_of(alloc, &HALVED))?;
    assert!(rt; is_same(alloc, &found, &[(-1, -1), (0, 2)])?);
    Ok(())
}

// q(k) = n + 1 - k and r(k-1) = k
#[test]
fn lists_at_two_places(rt: HostRuntime) -> Result<(), RingFault> {
    let alloc = rt.alloc();
    let found = q_of(alloc, &BINOMIAL)?;
    assert!(rt; is_same(alloc, &found, &[(1, 1), (0, -1)])?);
    let found = r_before_of(alloc, &BINOMIAL)?;
    assert!(rt; is_same(alloc, &found, &[(0, 0), (0, 1)])?);
    Ok(())
}

#[test]
fn sides_that_are_refused(rt: HostRuntime) {
    let alloc = rt.alloc();
    assert_eq!(rt; sides_of(alloc, &PRODUCT).err(), None);
    assert_eq!(rt; sides_of(alloc, &LARGE).err(), Some(StepFault::TooLarge));
    let limit = StepFault::Limit {
        name: LimitName::Degree,
        counted: 65,
    };
    assert_eq!(rt; sides_of(alloc, &LONG).err(), Some(limit));
}
