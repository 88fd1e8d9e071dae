//! Polynomials of texts that are known from elsewhere.

use crate::{constant_of, polynomial_of_tree};
use poly_generic::{Zn, Znk};
use ring_laws::{Ring, RingFault, Whole};
use std::alloc::Global;
use std::test::Fail;
use steps::{LimitName, TermFault};
use term_text::read_term;

// The polynomial of a text, and no memory for one that isn't read.
fn finding(alloc: Global, text: &[u8]) -> Result<Option<Znk>, TermFault> {
    if text.len() > 65536 {
        return Err(TermFault::Memory);
    }
    let Ok(tree) = read_term(alloc, text) else {
        return Err(TermFault::Memory);
    };
    polynomial_of_tree(alloc, &tree)
}

// The polynomial with these numbers, by the powers of k and then those of n.
fn poly_of(alloc: Global, rows: &[&[i128]]) -> Result<Znk, RingFault> {
    let mut coefficients = Vec::new(alloc);
    for row in rows {
        let mut numbers = Vec::new(alloc);
        for number in *row {
            numbers.push(Whole::new(*number).ok_or(RingFault::TooLarge)?)?;
        }
        coefficients.push(Zn::from_coefficients(numbers)?)?;
    }
    Znk::from_coefficients(coefficients)
}

#[test]
fn polynomials_of_texts(rt: HostRuntime) -> Result<(), Fail> {
    let alloc = rt.alloc();
    let table: [(&[u8], &[&[i128]]); 9] = [
        (b"7", &[&[7]]),
        (b"n", &[&[0, 1]]),
        (b"k", &[&[], &[1]]),
        (b"(n+k)^2", &[&[0, 0, 1], &[0, 2], &[1]]),
        (b"n-k", &[&[0, 1], &[-1]]),
        (b"-(k-1)*(k+1)", &[&[1], &[], &[-1]]),
        (b"k-k", &[]),
        (b"0^0", &[&[1]]),
        (b"n^(3-1)", &[&[0, 0, 1]]),
    ];
    for (text, rows) in &table {
        match finding(alloc, text)? {
            Some(polynomial) => assert!(rt; polynomial.same(&poly_of(alloc, rows)?)),
            None => assert!(rt; false),
        }
    }
    for text in [
        b"k!".as_slice(),
        b"binomial(n,k)",
        b"2^k",
        b"k^(-1)",
        b"n+1/k",
        b"k/2",
    ] {
        assert!(rt; finding(alloc, text)?.is_none());
    }
    Ok(())
}

#[test]
fn constants_of_polynomials(rt: HostRuntime) -> Result<(), Fail> {
    let alloc = rt.alloc();
    let table: [(&[u8], Option<i128>); 5] = [
        (b"2-1", Some(1)),
        (b"n-n", Some(0)),
        (b"(k+1)^2-k^2-2*k", Some(1)),
        (b"n", None),
        (b"k", None),
    ];
    for (text, wanted) in &table {
        let Some(polynomial) = finding(alloc, text)? else {
            assert!(rt; false);
            return Ok(());
        };
        match constant_of(&polynomial) {
            Some(whole) => assert!(rt; *wanted == Some(whole.value())),
            None => assert!(rt; wanted.is_none()),
        }
    }
    Ok(())
}

// Whether seeking the polynomial of a text ends with this fault.
fn is_refused(alloc: Global, text: &[u8], wanted: TermFault) -> bool {
    match finding(alloc, text) {
        Ok(_) => false,
        Err(fault) => fault == wanted,
    }
}

#[test]
fn refusals(rt: HostRuntime) {
    let alloc = rt.alloc();
    let table: [(&[u8], u64); 5] = [
        (b"n^(k^13)", 13),
        (b"k^13*2/3+1", 13),
        (b"k^(2-15)", 13),
        (b"k^18446744073709551615", u64::MAX),
        (b"k^18446744073709551616", u64::MAX),
    ];
    for (text, counted) in &table {
        let fault = TermFault::Limit {
            name: LimitName::Exponent,
            counted: *counted,
        };
        assert!(rt; is_refused(alloc, text, fault));
    }
    let large = b"1+170141183460469231731687303715884105727";
    assert!(rt; is_refused(alloc, large, TermFault::TooLarge { at: 1 }));
    let later = b"1+170141183460469231731687303715884105727+k^14";
    let fault = TermFault::Limit {
        name: LimitName::Exponent,
        counted: 14,
    };
    assert!(rt; is_refused(alloc, later, fault));
}
