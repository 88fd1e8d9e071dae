use crate::{Carriers, Terms};
use documents::Version;
use spelled::Spelling;
use std::alloc::{AllocError, Global};

// Whether the text is that of an item: it is read and written again as it was.
fn is_text<S: Spelling>(alloc: Global, spelling: &S, text: &[u8]) -> Result<bool, AllocError> {
    let Some(item) = spelling.read(alloc, text)? else {
        return Ok(false);
    };
    let mut written = String::new(alloc);
    spelling.write(&item, &mut written)?;
    Ok(written.as_bytes() == text)
}

// Terms, and whether they are plain and carriers.
const TABLE: [(&[u8], bool, bool); 24] = [
    (
        b"poly 1; scale 1; nbase 1; kbase 1; up -; down -; over -; guard -",
        true,
        true,
    ),
    (
        b"poly k^2; scale 1; nbase 1; kbase 1; up -; down -; over -; guard -",
        true,
        true,
    ),
    (
        b"poly 2*k^3-3*n*k+1; scale -3/2; nbase 1/4; kbase -1; up n, k+1 x2; down k, -k+n; over k, 2*k-1 x3; guard 2*k",
        true,
        true,
    ),
    (
        b"poly 1; scale 1; nbase 1; kbase 1; up k+1, k; down -; over k+1, k; guard -",
        true,
        true,
    ),
    (
        b"poly 1; scale 1; nbase 1; kbase 1; up k; down k; over -; guard -",
        false,
        true,
    ),
    (
        b"poly 1; scale 1; nbase 1; kbase 1; up 9*k; down -; over -; guard -",
        false,
        true,
    ),
    (
        b"poly 1; scale 1; nbase 1; kbase 1; up k+1000001; down -; over -; guard -",
        false,
        true,
    ),
    (
        b"poly 1; scale 1; nbase 1; kbase 1; up k x24; down -; over -; guard -",
        true,
        true,
    ),
    (
        b"poly 1; scale 1; nbase 1; kbase 1; up k x25; down -; over -; guard -",
        false,
        true,
    ),
    (
        b"poly 1; scale 1; nbase 1; kbase 1; up k x100; down k+1 x68; over -; guard -",
        false,
        true,
    ),
    (
        b"poly 1; scale 1; nbase 1; kbase 1; up k x100; down k+1 x68; over -; guard 1",
        false,
        false,
    ),
    (
        b"poly 1; scale 1; nbase 1; kbase 1; up 65*k; down -; over -; guard -",
        false,
        false,
    ),
    (
        b"poly 1; scale 1; nbase 1; kbase 1; up k, k; down -; over -; guard -",
        false,
        false,
    ),
    (
        b"poly 1; scale 1; nbase 1; kbase 1; up -; down -; over 2*k+2; guard -",
        false,
        false,
    ),
    (
        b"poly 1; scale 1; nbase 1; kbase 1; up -; down -; over 1; guard -",
        false,
        false,
    ),
    (
        b"poly 0; scale 1; nbase 1; kbase 1; up -; down -; over -; guard -",
        false,
        false,
    ),
    (
        b"poly 1; scale 0; nbase 1; kbase 1; up -; down -; over -; guard -",
        false,
        false,
    ),
    (
        b"poly 1; scale 1; nbase 2/4; kbase 1; up -; down -; over -; guard -",
        false,
        false,
    ),
    (
        b"poly 1; scale 1; nbase 1; kbase 1/-2; up -; down -; over -; guard -",
        false,
        false,
    ),
    (
        b"poly 1; scale 1; kbase 1; nbase 1; up -; down -; over -; guard -",
        false,
        false,
    ),
    (
        b"poly 1; scale 1; nbase 1; kbase 1; up -; down -; over -",
        false,
        false,
    ),
    (
        b"poly 1; scale 1; nbase 1; kbase 1; up -; down -; over -; guard -; xn 1",
        false,
        false,
    ),
    (
        b"poly 1;scale 1; nbase 1; kbase 1; up -; down -; over -; guard -",
        false,
        false,
    ),
    (b"", false, false),
];

#[test]
fn terms_have_one_text_each(rt: HostRuntime) -> Result<(), AllocError> {
    let alloc = rt.alloc();
    let terms = Terms {
        version: Version::One,
    };
    let carriers = Carriers {
        version: Version::One,
    };
    for (text, plain, carrier) in TABLE {
        assert_eq!(rt; is_text(alloc, &terms, text)?, plain);
        assert_eq!(rt; is_text(alloc, &carriers, text)?, carrier);
    }
    Ok(())
}
