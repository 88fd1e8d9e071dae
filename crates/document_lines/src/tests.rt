use crate::{DocFault, print_doc, read_doc};
use std::alloc::{AllocError, Global};
// gosper on k^2
const SQUARES: &[u8] = b"\
    ekhad 1\n\
    command gosper\n\
    term poly k^2; scale 1; nbase 1; kbase 1; up -; down -; over -; guard -\n\
    found 0\n\
    match -\n\
    q 1; -\n\
    r 1; -\n\
    a 6\n\
    K poly 1; scale 1; nbase 1; kbase 1; up -; down -; over -; guard -\n\
    Y 2*k^3-3*k^2+k\n\
    D -\n\
    Rtop 1; -\n\
    Rbot 1; -\n\
    range -\n\
    end\n";
// gosper on k*k!
const K_TIMES_FACTORIAL: &[u8] = b"\
    ekhad 1\n\
    command gosper\n\
    term poly k; scale 1; nbase 1; kbase 1; up k; down -; over -; guard -\n\
    found 0\n\
    match -\n\
    q 1; k+1\n\
    r 1; -\n\
    a 1\n\
    K poly 1; scale 1; nbase 1; kbase 1; up k; down -; over -; guard -\n\
    Y 1\n\
    D -\n\
    Rtop 1; -\n\
    Rbot 1; -\n\
    range -\n\
    end\n";
// gosper on k!
const FACTORIAL: &[u8] = b"\
    ekhad 1\n\
    command gosper\n\
    term poly 1; scale 1; nbase 1; kbase 1; up k; down -; over -; guard -\n\
    empty 0\n\
    match -\n\
    q 1; k+1\n\
    r 1; -\n\
    witness unsought\n\
    end\n";
// gosper on 1/k
const RECIPROCAL: &[u8] = b"\
    ekhad 1\n\
    command gosper\n\
    term poly 1; scale 1; nbase 1; kbase 1; up -; down -; over k; guard -\n\
    empty 0\n\
    match -\n\
    q 1; k\n\
    r 1; k+1\n\
    witness none\n\
    end\n";
// gosper on 1/(k*(k+1))
const MATCHED: &[u8] = b"\
    ekhad 1\n\
    command gosper\n\
    term poly 1; scale 1; nbase 1; kbase 1; up -; down -; over k, k+1; guard -\n\
    found 0\n\
    match k+1 by 0\n\
    q 1; k\n\
    r 1; k+2\n\
    a 1\n\
    K poly 1; scale 1; nbase 1; kbase 1; up -; down -; over -; guard -\n\
    Y -1\n\
    D k\n\
    Rtop 1; k, k+1\n\
    Rbot 1; -\n\
    range -\n\
    end\n";
// gosper on (k+3)!/k!
const CHAIN: &[u8] = b"\
    ekhad 1\n\
    command gosper\n\
    term poly 1; scale 1; nbase 1; kbase 1; up k+3; down k; over -; guard -\n\
    found 0\n\
    match k+4 by 3\n\
    q 1; -\n\
    r 1; -\n\
    a 4\n\
    K poly 1; scale 1; nbase 1; kbase 1; up k+3; down k-1; over -; guard -\n\
    Y 1\n\
    D -\n\
    Rtop 1; k\n\
    Rbot 1; -\n\
    range -\n\
    end\n";
// gosper on (-1)^k*binomial(n,k)
const ALTERNATING: &[u8] = b"\
    ekhad 1\n\
    command gosper\n\
    term poly 1; scale 1; nbase 1; kbase -1; up n; down k, -k+n; over -; guard -\n\
    found 0\n\
    match -\n\
    q 1; k-n\n\
    r 1; k+1\n\
    a n\n\
    K poly 1; scale 1; nbase 1; kbase -1; up n; down k-1, -k+n; over -; guard -\n\
    Y -1\n\
    D -\n\
    Rtop 1; k\n\
    Rbot 1; -\n\
    range 0 to n\n\
    end\n";
// zeil on binomial(n,k)
const BINOMIALS: &[u8] = b"\
    ekhad 1\n\
    command zeil 4\n\
    term poly 1; scale 1; nbase 1; kbase 1; up n; down k, -k+n; over -; guard -\n\
    empty 0\n\
    match -\n\
    q -1; k-n\n\
    r 1; k+1\n\
    witness unsought\n\
    found 1\n\
    match -\n\
    q -1; k-n-1\n\
    r 1; k+1\n\
    a -2; 1\n\
    K poly 1; scale 1; nbase 1; kbase 1; up n; down k-1, -k+n+1; over -; guard -\n\
    Y -1\n\
    D -\n\
    Rtop 1; k\n\
    Rbot -1; k-n-1\n\
    range 0 to n\n\
    end\n";
// zeil on binomial(n,k)^2
const BINOMIAL_SQUARES: &[u8] = b"\
    ekhad 1\n\
    command zeil 4\n\
    term poly 1; scale 1; nbase 1; kbase 1; up n x2; down k x2, -k+n x2; over -; guard -\n\
    empty 0\n\
    match -\n\
    q 1; k-n x2\n\
    r 1; k+1 x2\n\
    witness unsought\n\
    found 1\n\
    match -\n\
    q 1; k-n-1 x2\n\
    r 1; k+1 x2\n\
    a -4*n-2; n+1\n\
    K poly 1; scale 1; nbase 1; kbase 1; up n x2; down k-1 x2, -k+n+1 x2; over -; guard -\n\
    Y 2*k-3*n-3\n\
    D -\n\
    Rtop 1; k x2\n\
    Rbot 1; k-n-1 x2\n\
    range 0 to n\n\
    end\n";
// zeil on binomial(n,k)^3
const FRANEL: &[u8] = b"\
    ekhad 1\n\
    command zeil 4\n\
    term poly 1; scale 1; nbase 1; kbase 1; up n x3; down k x3, -k+n x3; over -; guard -\n\
    empty 0\n\
    match -\n\
    q -1; k-n x3\n\
    r 1; k+1 x3\n\
    witness 0\n\
    empty 1\n\
    match -\n\
    q -1; k-n-1 x3\n\
    r 1; k+1 x3\n\
    witness 0\n\
    found 2\n\
    match -\n\
    q -1; k-n-2 x3\n\
    r 1; k+1 x3\n\
    a -8*n^2-16*n-8; -7*n^2-21*n-16; n^2+4*n+4\n\
    K poly 1; scale 1; nbase 1; kbase 1; up n x3; down k-1 x3, -k+n+2 x3; over -; guard -\n\
    Y 4*n^2*k^3+8*n*k^3+4*k^3-18*n^3*k^2-66*n^2*k^2-78*n*k^2-30*k^2+27*n^4*k+147*n^3*k+291*n^2*k+249*n*k+78*k-14*n^5\
    -102*n^4-290*n^3-402*n^2-272*n-72\n\
    D -\n\
    Rtop 1; k x3\n\
    Rbot 1; k-n-2 x3, k-n-1 x3\n\
    range 0 to n\n\
    end\n";
// zeil on binomial(n,k)^2*binomial(n+k,k)^2
const APERY: &[u8] = b"\
    ekhad 1\n\
    command zeil 4\n\
    term poly 1; scale 1; nbase 1; kbase 1; up k+n x2; down k x4, -k+n x2; over -; guard n x2\n\
    empty 0\n\
    match -\n\
    q 1; k-n x2, k+n+1 x2\n\
    r 1; k+1 x4\n\
    witness unsought\n\
    empty 1\n\
    match -\n\
    q 1; k-n-1 x2, k+n+1 x2\n\
    r 1; k+1 x4\n\
    witness unsought\n\
    found 2\n\
    match -\n\
    q 1; k-n-2 x2, k+n+1 x2\n\
    r 1; k+1 x4\n\
    a n^3+3*n^2+3*n+1; -34*n^3-153*n^2-231*n-117; n^3+6*n^2+12*n+8\n\
    K poly 1; scale 1; nbase 1; kbase 1; up k+n x2; down k-1 x4, -k+n+2 x2; over -; guard -\n\
    Y 16*n*k^2+24*k^2-24*n*k-36*k-32*n^3-144*n^2-208*n-96\n\
    D -\n\
    Rtop 1; k x4\n\
    Rbot 1; k-n-2 x2, k-n-1 x2\n\
    range 0 to n\n\
    end\n";
// zeil on binomial(n,k)^3, up to the order 1
const NO_RECURRENCE: &[u8] = b"\
    ekhad 1\n\
    command zeil 1\n\
    term poly 1; scale 1; nbase 1; kbase 1; up n x3; down k x3, -k+n x3; over -; guard -\n\
    empty 0\n\
    match -\n\
    q -1; k-n x3\n\
    r 1; k+1 x3\n\
    witness 0\n\
    empty 1\n\
    match -\n\
    q -1; k-n-1 x3\n\
    r 1; k+1 x3\n\
    witness 0\n\
    end\n";
// ct 0 on binomial(n,k)
const ORDER_ZERO: &[u8] = b"\
    ekhad 1\n\
    command ct 0\n\
    term poly 1; scale 1; nbase 1; kbase 1; up n; down k, -k+n; over -; guard -\n\
    empty 0\n\
    match -\n\
    q -1; k-n\n\
    r 1; k+1\n\
    witness unsought\n\
    end\n";
// ct 1 on binomial(n,k)
const ORDER_ONE: &[u8] = b"\
    ekhad 1\n\
    command ct 1\n\
    term poly 1; scale 1; nbase 1; kbase 1; up n; down k, -k+n; over -; guard -\n\
    found 1\n\
    match -\n\
    q -1; k-n-1\n\
    r 1; k+1\n\
    a -2; 1\n\
    K poly 1; scale 1; nbase 1; kbase 1; up n; down k-1, -k+n+1; over -; guard -\n\
    Y -1\n\
    D -\n\
    Rtop 1; k\n\
    Rbot -1; k-n-1\n\
    range 0 to n\n\
    end\n";
// The line at fault, 0 where the text is that of a document, which is then printed as it was.
fn line_at_fault(alloc: Global, text: &[u8]) -> Result<u32, AllocError> {
    match read_doc(alloc, text) {
        Ok(document) => {
            let printed = print_doc(alloc, &document)?;
            Ok(if printed.as_slice() == text {
                0
            } else {
                u32::MAX
            })
        }
        Err(DocFault::Line { at }) => Ok(at),
        Err(DocFault::Memory) => Err(AllocError),
    }
}

// Documents of other hands, read and printed as they were.
#[test]
fn documents_are_printed_as_they_are_read(rt: HostRuntime) -> Result<(), AllocError> {
    let table: [&[u8]; 14] = [
        SQUARES,
        K_TIMES_FACTORIAL,
        FACTORIAL,
        RECIPROCAL,
        MATCHED,
        CHAIN,
        ALTERNATING,
        BINOMIALS,
        BINOMIAL_SQUARES,
        FRANEL,
        APERY,
        NO_RECURRENCE,
        ORDER_ZERO,
        ORDER_ONE,
    ];
    for text in table {
        assert_eq!(rt; line_at_fault(rt.alloc(), text)?, 0);
    }
    Ok(())
}

// The text with another line in place of the one with this number.
fn with_line(
    alloc: Global,
    text: &[u8],
    number: usize,
    line: &[u8],
) -> Result<Vec<u8>, AllocError> {
    let mut changed = Vec::new(alloc);
    for (index, old) in text.split(|byte| *byte == b'\n').enumerate() {
        if index != 0 {
            changed.push(b'\n')?;
        }
        if index + 1 == number {
            changed.extend_from_slice(line)?;
        } else {
            changed.extend_from_slice(old)?;
        }
    }
    Ok(changed)
}

// Lines in place of those of BINOMIAL_SQUARES, and the line that is then at fault, 0 where none is.
const CHANGES: [(usize, &[u8], u32); 67] = [
    (1, b"ekhad 2", 1),
    (1, b"ekhad 01", 1),
    (1, b"Ekhad 1", 1),
    (2, b"command zeil 1", 0),
    (2, b"command zeil 6", 0),
    (2, b"command zeil 7", 2),
    (2, b"command zeil 0", 9),
    (2, b"command zeil 04", 2),
    (2, b"command gosper", 9),
    (2, b"command ct 0", 9),
    (2, b"command ct 1", 4),
    (2, b"command wz", 2),
    (2, b"command companion 0 3 1 1", 2),
    (2, b"command hyper", 2),
    (
        3,
        b"term poly 0; scale 1; nbase 1; kbase 1; up -; down -; over -; guard -",
        3,
    ),
    (3, b"recurrence 1; n", 3),
    (4, b"empty 1", 4),
    (4, b"found 0", 8),
    (4, b"pair", 4),
    (5, b"match 2*k+2 by 0", 0),
    (5, b"match 0 by 3 x2, k by 1, k by 1", 0),
    (5, b"match k by 18446744073709551615 x4294967295", 0),
    (5, b"match k by 18446744073709551616", 5),
    (5, b"match k by 0 x4294967296", 5),
    (5, b"match k by 0 x1", 5),
    (5, b"match k by 0 x0", 5),
    (5, b"match k by 0,k by 1", 5),
    (5, b"match ", 5),
    (5, b"match 65*k by 0", 5),
    (6, b"q 170141183460469231731687303715884105727; -", 0),
    (6, b"q 170141183460469231731687303715884105728; -", 6),
    (6, b"q 0; -", 6),
    (6, b"q -0; -", 6),
    (6, b"q 1; 1", 0),
    (6, b"q 1; 2*k+2", 6),
    (6, b"q 1; k+1, k", 6),
    (6, b"q 1; k, k", 6),
    (6, b"q 1; +k", 6),
    (6, b"q 1; 1*k", 6),
    (6, b"q 1; k^1", 6),
    (6, b"q 1;-", 6),
    (7, b"r 1; k x4294967295", 0),
    (7, b"r 1; k x4294967296", 7),
    (7, b"q 1; -", 7),
    (8, b"witness none", 0),
    (8, b"witness 255", 0),
    (8, b"witness 256", 8),
    (8, b"witness 00", 8),
    (8, b"witness -", 8),
    (9, b"found 2", 9),
    (9, b"end", 9),
    (9, b"empty 1", 13),
    (13, b"a 0", 0),
    (13, b"a 1; n; n^2; n^255", 0),
    (13, b"a ", 13),
    (13, b"a k", 13),
    (13, b"a -", 13),
    (
        14,
        b"K poly 1; scale 1; nbase 1; kbase 1; up k x100; down k-1 x68; over -; guard -",
        0,
    ),
    (
        14,
        b"K poly 1; scale 1; nbase 1; kbase 1; up k x100; down k-1 x68; over -; guard 1",
        14,
    ),
    (15, b"Y k*n", 15),
    (16, b"D k, k+1 x2", 0),
    (16, b"D 1; -", 16),
    (16, b"D 2*k", 16),
    (19, b"range k to -k+2*n", 0),
    (19, b"range -", 0),
    (19, b"range 0 to ", 19),
    (20, b"end ", 20),
];

#[test]
fn other_lines_are_at_fault(rt: HostRuntime) -> Result<(), AllocError> {
    for (number, line, fault) in CHANGES {
        let text = with_line(rt.alloc(), BINOMIAL_SQUARES, number, line)?;
        assert_eq!(rt; line_at_fault(rt.alloc(), &text)?, fault);
    }
    Ok(())
}

// A text that ends too early is at fault at the line that it ends in, and one that goes on behind its end at the line behind.
#[test]
fn texts_end_with_their_last_line(rt: HostRuntime) -> Result<(), AllocError> {
    let mut line = 1;
    for length in 0..BINOMIALS.len() {
        assert_eq!(rt; line_at_fault(rt.alloc(), &BINOMIALS[..length])?, line);
        if BINOMIALS[length] == b'\n' {
            line = line.saturating_add(1);
        }
    }
    let longer = with_line(rt.alloc(), BINOMIALS, 21, b"x")?;
    assert_eq!(rt; line_at_fault(rt.alloc(), &longer)?, 21);
    Ok(())
}
