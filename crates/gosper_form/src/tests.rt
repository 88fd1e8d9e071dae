//! Pieces of worked terms, with values worked out by hand. What no clause says is that memory suffices.

use crate::{Normal, Pieces, is_plain, normal_form, pieces_of};
use lin_form::{FactorList, LinForm};
use poly_fraction::Frac;
use poly_generic::{Zn, Znk};
use proper_term::Proper;
use ring_laws::{Ring, RingFault, Whole};
use std::alloc::Global;
use std::test::Fail;
use steps::{LimitName, StepFault};

// n slope, k slope, offset and power.
type Factor = (i64, i64, i64, u32);

// The fields of a term: the factor of its polynomial, that polynomial's numbers in n, both bases, and its three lists.
#[derive(Clone, Copy, Drop)]
struct Fields {
    numbers: (i128, i128),
    n_base: (i128, i128),
    k_base: (i128, i128),
    up: &'static [Factor],
    down: &'static [Factor],
    over: &'static [Factor],
}

const ONE: Fields = Fields {
    numbers: (1, 0),
    n_base: (1, 1),
    k_base: (1, 1),
    up: &[],
    down: &[],
    over: &[],
};

fn whole(value: i128) -> Result<Whole, RingFault> {
    Whole::new(value).ok_or(RingFault::TooLarge)
}

fn fraction(top: i128, bottom: i128) -> Result<Frac<Whole>, RingFault> {
    Frac::new(whole(top)?, whole(bottom)?).ok_or(RingFault::TooLarge)
}

fn list_of(alloc: Global, factors: &[Factor]) -> Result<FactorList, RingFault> {
    let mut list = FactorList::new(alloc)?;
    for (n_slope, k_slope, offset, power) in factors {
        let Some(form) = LinForm::new(*n_slope, *k_slope, *offset) else {
            return Err(RingFault::TooLarge);
        };
        if *power == 0 || *power > 100 || list.power(&form) > 100 {
            return Err(RingFault::TooLarge);
        }
        list.multiply(form, *power)?;
    }
    Ok(list)
}

fn term_of(alloc: Global, fields: &Fields) -> Result<Proper, RingFault> {
    let mut numbers = Vec::new(alloc);
    numbers.push(whole(fields.numbers.0)?)?;
    numbers.push(whole(fields.numbers.1)?)?;
    let mut coefficients = Vec::new(alloc);
    coefficients.push(Zn::from_coefficients(numbers)?)?;
    let term = Proper::new(
        Znk::from_coefficients(coefficients)?,
        fraction(1, 1)?,
        fraction(fields.n_base.0, fields.n_base.1)?,
        fraction(fields.k_base.0, fields.k_base.1)?,
        list_of(alloc, fields.up)?,
        list_of(alloc, fields.down)?,
        list_of(alloc, fields.over)?,
        list_of(alloc, &[])?,
    );
    term.ok_or(RingFault::TooLarge)
}

fn answer(alloc: Global, fields: &Fields, order: u32) -> Option<Result<Pieces, StepFault>> {
    let term = term_of(alloc, fields).ok()?;
    if order > 6 || !is_plain(&term) {
        return None;
    }
    Some(pieces_of(alloc, &term, order))
}

fn pieces(alloc: Global, fields: &Fields, order: u32) -> Option<Pieces> {
    answer(alloc, fields, order)?.ok()
}

fn fault(alloc: Global, fields: &Fields, order: u32) -> Option<StepFault> {
    answer(alloc, fields, order)?.err()
}

// Whether the list has this scale and these factors, in this order.
fn is(list: &FactorList, scale: i128, factors: &[Factor]) -> bool {
    if list.scale().value() != scale || list.len() != factors.len() {
        return false;
    }
    for (index, (n_slope, k_slope, offset, power)) in factors.iter().enumerate() {
        match list.item(index) {
            Some((form, found)) => {
                if form.n_slope() != *n_slope
                    || form.k_slope() != *k_slope
                    || form.offset() != *offset
                    || found != *power
                {
                    return false;
                }
            }
            None => return false,
        }
    }
    true
}

// Whether p_j has this scale and these factors.
fn top_is(pieces: &Pieces, j: u32, scale: i128, factors: &[Factor]) -> bool {
    match pieces.top(j) {
        Some(top) => is(top.factors(), scale, factors),
        None => false,
    }
}

const BINOMIAL: Fields = Fields {
    up: &[(1, 0, 0, 1)],
    down: &[(0, 1, 0, 1), (1, -1, 0, 1)],
    ..ONE
};

// (-1)^k binomial(n,k)
#[test]
fn signed_binomials_at_order_0(rt: HostRuntime) {
    let fields = Fields {
        k_base: (-1, 1),
        ..BINOMIAL
    };
    let Some(found) = pieces(rt.alloc(), &fields, 0) else {
        panic!(rt; "no pieces");
    };
    assert_eq!(rt; found.order(), 0);
    assert!(rt; top_is(&found, 0, 1, &[]) && found.top(1).is_none());
    assert!(rt; is(found.q0(), 1, &[(-1, 1, 0, 1)]));
    assert!(rt; is(found.r0(), 1, &[(0, 1, 1, 1)]));
    let carrier = found.carrier();
    assert!(rt; is(carrier.up(), 1, &[(1, 0, 0, 1)]));
    assert!(rt; is(carrier.down(), 1, &[(0, 1, -1, 1), (1, -1, 0, 1)]));
    assert!(rt; carrier.over().len() == 0 && carrier.guard().len() == 0);
    assert_eq!(rt; carrier.k_base().top().value(), -1);
}

#[test]
fn binomials_at_order_1(rt: HostRuntime) {
    let Some(found) = pieces(rt.alloc(), &BINOMIAL, 1) else {
        panic!(rt; "no pieces");
    };
    assert!(rt; top_is(&found, 0, -1, &[(-1, 1, -1, 1)]));
    assert!(rt; top_is(&found, 1, 1, &[(1, 0, 1, 1)]));
    assert!(rt; is(found.q0(), -1, &[(-1, 1, -1, 1)]));
    assert!(rt; is(found.r0(), 1, &[(0, 1, 1, 1)]));
}

// (3/2)^n (k - n)! / (n + 1) at order 2: the least of k - n is k - n - 2.
#[test]
fn bases_of_n_at_order_2(rt: HostRuntime) {
    let fields = Fields {
        n_base: (3, 2),
        up: &[(-1, 1, 0, 1)],
        over: &[(1, 0, 1, 1)],
        ..ONE
    };
    let Some(found) = pieces(rt.alloc(), &fields, 2) else {
        panic!(rt; "no pieces");
    };
    assert!(rt;
        top_is(
            &found,
            0,
            4,
            &[(1, 0, 2, 1), (1, 0, 3, 1), (-1, 1, -1, 1), (-1, 1, 0, 1)]
        )
    );
    assert!(rt; top_is(&found, 1, 6, &[(1, 0, 1, 1), (1, 0, 3, 1), (-1, 1, -1, 1)]));
    assert!(rt; top_is(&found, 2, 9, &[(1, 0, 1, 1), (1, 0, 2, 1)]));
    assert!(rt; is(found.q0(), 1, &[(-1, 1, -1, 1)]) && is(found.r0(), 1, &[]));
    let carrier = found.carrier();
    assert!(rt; is(carrier.up(), 1, &[(-1, 1, -2, 1)]) && carrier.down().len() == 0);
    assert!(rt;
        is(
            carrier.over(),
            1,
            &[(1, 0, 1, 1), (1, 0, 2, 1), (1, 0, 3, 1)]
        )
    );
    assert_eq!(rt; carrier.scale().top().value(), 1);
    assert_eq!(rt; carrier.scale().bottom().value(), 4);
}

#[test]
fn refusals(rt: HostRuntime) {
    let alloc = rt.alloc();
    let large = (0, i128::MAX);
    let powers = Fields {
        numbers: large,
        up: &[(0, 8, 0, 12)],
        ..ONE
    };
    let limit = StepFault::Limit {
        name: LimitName::Degree,
        counted: 96,
    };
    assert_eq!(rt; fault(alloc, &powers, 0), Some(limit));
    assert_eq!(rt; fault(alloc, &powers, 6), Some(limit));
    let thirds = Fields {
        numbers: large,
        n_base: (1, 3),
        up: &[(0, 1, 0, 1)],
        ..ONE
    };
    assert!(rt; pieces(alloc, &thirds, 0).is_some());
    assert_eq!(rt; fault(alloc, &thirds, 6), Some(StepFault::TooLarge));
}

// The normal form of a term's quotient at order 0.
fn normal_of(alloc: Global, fields: &Fields) -> Option<Result<Normal, StepFault>> {
    let term = term_of(alloc, fields).ok()?;
    if !is_plain(&term) {
        return None;
    }
    match pieces_of(alloc, &term, 0) {
        Ok(found) => Some(normal_form(alloc, &found)),
        Err(_) => None,
    }
}

// Whether the matches are k + c by a shift, each once, in this order.
fn has_matches(normal: &Normal, matches: &[(i64, u64)]) -> bool {
    normal.matches().len() == matches.len()
        && normal.matches().iter().zip(matches).all(|(found, wanted)| found.form.offset()
            == wanted.0
            && found.shift == wanted.1
            && found.power == 1)
}

const RISING: Fields = Fields {
    up: &[(0, 1, 3, 1)],
    down: &[(0, 1, 0, 1)],
    ..ONE
};

// (k+3)!/k!
#[test]
fn a_quotient_of_factorials(rt: HostRuntime) {
    let Some(Ok(normal)) = normal_of(rt.alloc(), &RISING) else {
        panic!(rt; "no normal form");
    };
    assert!(rt; has_matches(&normal, &[(4, 3)]));
    assert!(rt; is(normal.q(), 1, &[]) && is(normal.r(), 1, &[]));
    assert!(rt; is(normal.g(), 1, &[(0, 1, 1, 1), (0, 1, 2, 1), (0, 1, 3, 1)]));
    let poles = [(0, 1, 0, 1), (0, 1, 1, 1), (0, 1, 2, 1), (0, 1, 3, 1)];
    assert!(rt; is(normal.poles(), 1, &poles));
}

// 1/(k(k+1)), and 1/(k(k+2)(k+3)), where k+3 matches k+3 first
#[test]
fn denominators_match_from_the_shift_0(rt: HostRuntime) {
    let two = Fields {
        over: &[(0, 1, 0, 1), (0, 1, 1, 1)],
        ..ONE
    };
    let three = Fields {
        over: &[(0, 1, 0, 1), (0, 1, 2, 1), (0, 1, 3, 1)],
        ..ONE
    };
    let (Some(Ok(first)), Some(Ok(second))) = (
        normal_of(rt.alloc(), &two),
        normal_of(rt.alloc(), &three),
    ) else {
        panic!(rt; "no normal form");
    };
    assert!(rt; has_matches(&first, &[(1, 0)]));
    assert!(rt; is(first.g(), 1, &[]) && is(first.poles(), 1, &[(0, 1, 0, 1)]));
    assert!(rt; has_matches(&second, &[(3, 0), (2, 1)]));
    assert!(rt; is(second.q(), 1, &[(0, 1, 0, 1)]) && is(second.r(), 1, &[(0, 1, 4, 1)]));
}

// (k+c)!/k! has the one match k+c+1 by c
#[test]
fn shifts_are_counted_up_to_the_limit(rt: HostRuntime) {
    let name = LimitName::MatchShifts;
    let rows = [
        (
            Fields {
                up: &[(0, 1, 300, 1)],
                ..RISING
            },
            Some(StepFault::Limit { name, counted: 301 }),
        ),
        (
            Fields {
                up: &[(0, 1, 256, 1)],
                ..RISING
            },
            Some(StepFault::Limit { name, counted: 257 }),
        ),
        (
            Fields {
                up: &[(0, 1, 255, 1)],
                ..RISING
            },
            None,
        ),
    ];
    for (fields, wanted) in rows {
        match normal_of(rt.alloc(), &fields) {
            Some(found) => {
                assert_eq!(rt; found.err(), wanted);
            }
            None => {
                panic!(rt; "no pieces");
            }
        }
    }
}
