//! What no clause says is that memory suffices; and that worked texts have these refusals, classes and values.

use crate::{classify, classify_quotient, polynomials};
use proper_term::{Proper, natural, value};
use ring_laws::Whole;
use std::alloc::Global;
use steps::{LimitName, TermFault};
use term_text::{Ast, read_pair, read_recurrence, read_term};

fn tree(alloc: Global, text: &[u8]) -> Option<Ast> {
    if text.len() > 65_536 {
        return None;
    }
    read_term(alloc, text).ok()
}

fn class(rt: &HostRuntime, text: &[u8]) -> Option<Proper> {
    let ast = tree(rt.alloc(), text)?;
    classify(rt.alloc(), &ast).ok()
}

fn class_of_pair(rt: &HostRuntime, text: &[u8]) -> Option<Proper> {
    if text.len() > 65_536 {
        return None;
    }
    let (top, bottom) = read_pair(rt.alloc(), text).ok()?;
    classify_quotient(rt.alloc(), &top, &bottom).ok()
}

fn is_refused(rt: &HostRuntime, text: &[u8], fault: TermFault) -> bool {
    let Some(ast) = tree(rt.alloc(), text) else {
        return false;
    };
    match classify(rt.alloc(), &ast) {
        Ok(_) => false,
        Err(found) => found == fault,
    }
}

// Whether the term's value at a point is this fraction, or there is none.
fn has_value(
    rt: &HostRuntime,
    term: &Proper,
    point: (i64, i64),
    wanted: Option<(i128, i128)>,
) -> bool {
    match value(rt.alloc(), term, point.0, point.1) {
        Ok(Some(found)) => wanted == Some((found.top().value(), found.bottom().value())),
        Ok(None) => wanted.is_none(),
        Err(_) => false,
    }
}

fn improper(reason: u8, at: u32) -> TermFault {
    TermFault::Improper { reason, at }
}

fn limit(name: LimitName, counted: u64) -> TermFault {
    TermFault::Limit { name, counted }
}

#[test]
fn refusals(rt: HostRuntime) {
    let rows: [(&[u8], TermFault); 24] = [
        (b"(n*k)!", improper(1, 2)),
        (b"binomial(n,k*k)", improper(1, 12)),
        (b"(0-1)!", improper(2, 2)),
        (b"binomial(n,n+1)", improper(2, 0)),
        (b"1/(n*k+1)", improper(3, 6)),
        (b"1/0", improper(3, 2)),
        (b"n^k", improper(4, 1)),
        (b"0^k", improper(4, 1)),
        (b"2^(k*k)", improper(5, 4)),
        (b"k!+1", improper(6, 2)),
        (b"(2/3*k^13+1)", improper(6, 9)),
        (b"k-k", improper(7, 1)),
        (b"(k^13*2/3+1)", limit(LimitName::Exponent, 13)),
        (b"n^(k^13)", limit(LimitName::Exponent, 13)),
        (b"(10^30)!", limit(LimitName::Exponent, 30)),
        (b"(3/0*k^13)^k", limit(LimitName::Exponent, 13)),
        (b"(k^2)^7/k^13", limit(LimitName::Exponent, 14)),
        (b"2^(k+13)", limit(LimitName::Exponent, 13)),
        (b"(9*n+9*k)!", limit(LimitName::Slope, 9)),
        (b"1/(8*n-9*k)", limit(LimitName::Slope, 9)),
        (b"(k+1000001)!", limit(LimitName::Offset, 1_000_001)),
        (b"k!^12*n!^12/(k+1)", limit(LimitName::Factors, 25)),
        (
            b"(170141183460469231731687303715884105727*k)!",
            limit(LimitName::Slope, 18_446_744_073_709_551_615),
        ),
        (
            b"10^12*10^12*10^12*10^12/10^12",
            TermFault::TooLarge { at: 18 },
        ),
    ];
    for (text, fault) in rows {
        assert!(rt; is_refused(&rt, text, fault));
    }
}

#[test]
fn values(rt: HostRuntime) {
    let rows: [(&[u8], (i64, i64), Option<(i128, i128)>); 16] = [
        (b"binomial(n,k)", (60, 30), Some((118264581564861424, 1))),
        (b"binomial(n,k)^2", (4, 2), Some((36, 1))),
        (b"binomial(n,k)", (4, -1), Some((0, 1))),
        (b"binomial(k,k)", (0, 5), Some((1, 1))),
        (b"k!/k!", (0, 3), Some((1, 1))),
        (b"k!/k!", (0, -1), None),
        (b"1/k!", (0, -1), Some((0, 1))),
        (b"2^k*k!/(k+1)", (0, 3), Some((12, 1))),
        (b"(-2)^(n+k)/(2*k+2)", (1, 2), Some((-4, 3))),
        (b"(-3)^k/(-3)^(k-1)", (0, 4), Some((-3, 1))),
        (b"(n-k)^2", (3, 5), Some((4, 1))),
        (b"n*k/2/3", (3, 4), Some((2, 1))),
        (b"-(k!)", (0, 3), Some((-6, 1))),
        (b"(k/0)^0", (7, 7), Some((1, 1))),
        (b"0^0", (7, 7), Some((1, 1))),
        (b"1/(4-2*k)", (0, 3), Some((-1, 2))),
    ];
    for (text, point, wanted) in rows {
        let Some(term) = class(&rt, text) else {
            panic!(rt; "no class");
        };
        assert!(rt; has_value(&rt, &term, point, wanted));
    }
}

#[test]
fn quotients_keep_their_guard(rt: HostRuntime) {
    let Some(term) = class_of_pair(&rt, b"k!;k!") else {
        panic!(rt; "no class");
    };
    assert!(rt; term.up().len() == 0 && term.down().len() == 0 && term.guard().len() == 1);
    assert!(rt; has_value(&rt, &term, (0, -1), None));
    assert!(rt; has_value(&rt, &term, (0, 1), Some((1, 1))));
    let Some(factorial) = class(&rt, b"k!") else {
        panic!(rt; "no class");
    };
    assert!(rt; natural(&factorial).is_none());
}

// Whether a recurrence is refused so, or has as many polynomials.
fn recurrence_gives(rt: &HostRuntime, text: &[u8], wanted: Result<usize, TermFault>) -> bool {
    if text.len() > 65_536 {
        return false;
    }
    let Ok(trees) = read_recurrence(rt.alloc(), text) else {
        return false;
    };
    if trees.len() < 2 {
        return false;
    }
    match polynomials(rt.alloc(), trees.as_slice()) {
        Ok(list) => wanted == Ok(list.len()),
        Err(fault) => wanted == Err(fault),
    }
}

#[test]
fn recurrences(rt: HostRuntime) {
    let alloc = rt.alloc();
    let Ok(trees) = read_recurrence(alloc, b"n;1;n^2") else {
        panic!(rt; "no trees");
    };
    assert!(rt; trees.len() == 3);
    let Ok(list) = polynomials(alloc, trees.as_slice()) else {
        panic!(rt; "no polynomials");
    };
    let wanted: [&[i128]; 3] = [&[0, 1], &[1], &[0, 0, 1]];
    assert!(rt; list.len() == 3);
    for (polynomial, numbers) in list.iter().zip(wanted) {
        let coefficients = polynomial.coefficients();
        assert!(rt; coefficients.len() == numbers.len());
        for (coefficient, number) in coefficients.iter().zip(numbers) {
            assert!(rt; coefficient.value() == *number);
        }
    }
    assert!(rt; recurrence_gives(&rt, b"k;1", Err(improper(8, 0))));
    assert!(rt; recurrence_gives(&rt, b"n!;1", Err(improper(6, 1))));
    assert!(rt; recurrence_gives(&rt, b"0;1", Err(improper(7, 0))));
    assert!(rt; recurrence_gives(&rt, b"n;n-n", Err(improper(7, 3))));
    assert!(rt; recurrence_gives(&rt, b"1;1;1;1;1;1;1;1", Err(limit(LimitName::Order, 7))));
    assert!(rt; recurrence_gives(&rt, b"1;0;1", Ok(3)));
}
