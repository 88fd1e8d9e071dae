use crate::{Letters, POLYNOMIALS_IN_N, POLYNOMIALS_IN_N_AND_K, Polynomials};
use poly_generic::{Poly, Zn, Znk};
use ring_laws::Ring;
use spelled::{InTurn, Line, Parts, Spelling, TextFault, read_text, write_text};
use std::alloc::{AllocError, Global};

// Whether the text is that of an item: it is read and written again as it was.
fn is_text<S: Spelling>(alloc: Global, spelling: &S, text: &[u8]) -> Result<bool, AllocError> {
    let Some(item) = spelling.read(alloc, text)? else {
        return Ok(false);
    };
    let mut written = String::new(alloc);
    spelling.write(&item, &mut written)?;
    Ok(written.as_bytes() == text)
}

#[test]
fn polynomials_have_one_text_each(rt: HostRuntime) -> Result<(), AllocError> {
    let alloc = rt.alloc();
    let in_n_k_x: Polynomials<Poly<Znk>> = Polynomials::new(Letters::InNKAndX);
    let table: [(&[u8], bool, bool, bool); 34] = [
        (b"0", true, true, true),
        (b"1", true, true, true),
        (b"-1", true, true, true),
        (b"n", true, true, true),
        (b"-n", true, true, true),
        (b"n^2-3*n+1", true, true, true),
        (b"n^255-n", true, true, true),
        (
            b"170141183460469231731687303715884105727*n",
            true,
            true,
            true,
        ),
        (b"2*k^3-3*k^2+k", false, true, true),
        (b"n^2*k-3*n+1", false, true, true),
        (b"n*k^3+4*n^2*k-n*k+8*k-3", false, true, true),
        (b"n^255*k^255+k^255-n^255-1", false, true, true),
        (b"x", false, false, true),
        (b"n*k+k*x-n*x-x^2", false, false, true),
        (b"n^2*k^3*x^4-x^255", false, false, true),
        (
            b"170141183460469231731687303715884105728*n",
            false,
            false,
            false,
        ),
        (b"n^256", false, false, false),
        (b"k^256", false, false, false),
        (b"", false, false, false),
        (b"+k", false, false, false),
        (b"1*k", false, false, false),
        (b"-0", false, false, false),
        (b"k^1", false, false, false),
        (b"k^0", false, false, false),
        (b"k*n", false, false, false),
        (b"n+k", false, false, false),
        (b"n+n^2", false, false, false),
        (b"1+n", false, false, false),
        (b"n+n", false, false, false),
        (b"n+0", false, false, false),
        (b"n x1", false, false, false),
        (b"x1", false, false, false),
        (b"2n", false, false, false),
        (b"n -1", false, false, false),
    ];
    for (text, in_n, in_n_k, in_x) in table {
        assert_eq!(rt; is_text(alloc, &POLYNOMIALS_IN_N, text)?, in_n);
        assert_eq!(rt; is_text(alloc, &POLYNOMIALS_IN_N_AND_K, text)?, in_n_k);
        assert_eq!(rt; is_text(alloc, &in_n_k_x, text)?, in_x);
    }
    Ok(())
}

// A polynomial in n and k, and in the line behind it polynomials in n.
const TWO: InTurn<Line<Polynomials<Znk>>, Line<Parts<Polynomials<Zn>>>> = InTurn {
    first: Line {
        each: POLYNOMIALS_IN_N_AND_K,
    },
    second: Line {
        each: Parts {
            each: POLYNOMIALS_IN_N,
        },
    },
};

// The first bad line of a text, 0 where it is read whole and written again as it was.
fn bad_line(alloc: Global, text: &[u8]) -> Result<u32, AllocError> {
    match read_text(alloc, &TWO, text) {
        Ok(item) => {
            let written = write_text(alloc, &TWO, &item)?;
            Ok(if written.as_bytes() == text {
                0
            } else {
                u32::MAX
            })
        }
        Err(TextFault::Line { at }) => Ok(at),
        Err(TextFault::Memory) => Err(AllocError),
    }
}

#[test]
fn loose_texts_stop_a_reader_in_front_of_their_line(rt: HostRuntime) -> Result<(), AllocError> {
    let table: [(&[u8], u32); 12] = [
        (b"n^2*k-3*n+1\n-n; 0; n^2+1\n", 0),
        (b"0\n0\n", 0),
        (b"+k\n0\n", 1),
        (b"1*k\n0\n", 1),
        (b"-0\n0\n", 1),
        (b"k^1\n0\n", 1),
        (b"n+k\n0\n", 1),
        (b"k*x\n0\n", 1),
        (b"k x1\n0\n", 1),
        (b"0\nn; k\n", 2),
        (b"0\nn;1\n", 2),
        (b"0\n-\n", 2),
    ];
    for (text, line) in table {
        assert_eq!(rt; bad_line(rt.alloc(), text)?, line);
    }
    Ok(())
}

#[test]
fn what_is_read_is_the_polynomial(rt: HostRuntime) -> Result<(), AllocError> {
    let alloc = rt.alloc();
    let found = POLYNOMIALS_IN_N.read(alloc, b"n^3-2*n+7")?;
    assert!(rt;
        found.is_some_and(|f| {
            let list = f.coefficients();
            list.len() == 4
                && list[0].value() == 7
                && list[1].value() == -2
                && list[2].is_zero()
                && list[3].value() == 1
        })
    );
    Ok(())
}
