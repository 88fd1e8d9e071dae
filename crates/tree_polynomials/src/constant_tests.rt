//! Constants of texts that are known from elsewhere.

use crate::{constant_of_tree, times_power_of};
use poly_fraction::Frac;
use ring_laws::{RingFault, Whole};
use std::alloc::Global;
use std::test::Fail;
use steps::{LimitName, TermFault};
use term_text::read_term;

// The constant of a text, and no memory for one that isn't read.
fn finding(alloc: Global, text: &[u8]) -> Result<Option<Frac<Whole>>, TermFault> {
    if text.len() > 65536 {
        return Err(TermFault::Memory);
    }
    let Ok(tree) = read_term(alloc, text) else {
        return Err(TermFault::Memory);
    };
    constant_of_tree(alloc, &tree)
}

// Whether a fraction has these numbers.
fn is(fraction: &Frac<Whole>, top: i128, bottom: i128) -> bool {
    fraction.top().value() == top && fraction.bottom().value() == bottom
}

#[test]
fn constants_of_texts(rt: HostRuntime) -> Result<(), Fail> {
    let alloc = rt.alloc();
    let table: [(&[u8], i128, i128); 10] = [
        (b"7", 7, 1),
        (b"n-n", 0, 1),
        (b"4/6", 2, 3),
        (b"-(4/6)", -2, 3),
        (b"(0-4)/(0-6)*9", 6, 1),
        (b"(2/(0-3))^3", -8, 27),
        (b"(2/(0-3))^(0-3)", -27, 8),
        (b"(3/2)^(n-n)", 1, 1),
        (b"0/5", 0, 1),
        (b"170141183460469231731687303715884105727/1", i128::MAX, 1),
    ];
    for (text, top, bottom) in &table {
        match finding(alloc, text)? {
            Some(constant) => assert!(rt; is(&constant, *top, *bottom)),
            None => assert!(rt; false),
        }
    }
    Ok(())
}

#[test]
fn texts_without_a_constant(rt: HostRuntime) -> Result<(), Fail> {
    let alloc = rt.alloc();
    for text in [
        b"n".as_slice(),
        b"k!",
        b"3!",
        b"binomial(4,2)",
        b"2^k",
        b"1/0",
        b"1/0*170141183460469231731687303715884105727*2",
        b"0^(0-1)",
        b"1/2+1/3",
        b"n/2",
    ] {
        assert!(rt; finding(alloc, text)?.is_none());
    }
    Ok(())
}

// Whether seeking the constant of a text ends with this fault.
fn is_refused(alloc: Global, text: &[u8], wanted: TermFault) -> bool {
    match finding(alloc, text) {
        Ok(_) => false,
        Err(fault) => fault == wanted,
    }
}

#[test]
fn refusals(rt: HostRuntime) {
    let alloc = rt.alloc();
    let thirteen = TermFault::Limit {
        name: LimitName::Exponent,
        counted: 13,
    };
    assert!(rt; is_refused(alloc, b"(1/2)^(0-13)", thirteen));

    // A limit of a later part comes before a product out of bounds.
    assert!(rt;
        is_refused(
            alloc,
            b"170141183460469231731687303715884105727/(1/2)*2^13",
            thirteen
        )
    );
    let large = b"170141183460469231731687303715884105727/(1/2)";
    assert!(rt; is_refused(alloc, large, TermFault::TooLarge { at: 39 }));
    assert!(rt;
        is_refused(
            alloc,
            b"(1/5000000000000)^12",
            TermFault::TooLarge { at: 17 }
        )
    );
}

#[test]
fn powers_of_fractions(rt: HostRuntime) -> Result<(), Fail> {
    let alloc = rt.alloc();
    let (Some(fraction), Some(base)) = (
        Frac::new(Whole { value: 3 }, Whole { value: 4 }),
        Frac::new(Whole { value: 2 }, Whole { value: -3 }),
    ) else {
        assert!(rt; false);
        return Ok(());
    };
    let table: [(i64, i128, i128); 4] = [(0, 3, 4), (1, -1, 2), (2, 1, 3), (-1, -9, 8)];
    for (power, top, bottom) in table {
        let product = times_power_of(alloc, 5, &fraction, &base, power)?;
        assert!(rt; is(&product, top, bottom));
    }
    match times_power_of(alloc, 5, &fraction, &base, 96) {
        Ok(_) => assert!(rt; false),
        Err(fault) => assert!(rt; fault == TermFault::TooLarge { at: 5 }),
    }
    Ok(())
}
