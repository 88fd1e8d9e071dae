use crate::{FactorLists, Factors, Forms, FormsInX, Matches, PrimitiveFactors};
use spelled::{Items, Spelling};
use std::alloc::{AllocError, Global};

// Whether the text is that of an item: it is read and written again as it was.
fn is_text<S: Spelling>(alloc: Global, spelling: &S, text: &[u8]) -> Result<bool, AllocError> {
    let Some(item) = spelling.read(alloc, text)? else {
        return Ok(false);
    };
    let mut written = String::new(alloc);
    spelling.write(&item, &mut written)?;
    Ok(written.as_bytes() == text)
}

#[test]
fn forms_have_one_text_each(rt: HostRuntime) -> Result<(), AllocError> {
    let alloc = rt.alloc();
    let table: [(&[u8], bool, bool); 21] = [
        (b"0", true, true),
        (b"k+n", true, true),
        (b"2*k-n+7", true, true),
        (b"-64*k+64*n-1099511627776", true, true),
        (b"65*k", false, true),
        (b"-65*n", false, true),
        (b"k+1099511627777", false, true),
        (b"k+n-x+3", false, true),
        (b"-x", false, true),
        (b"-170141183460469231731687303715884105727*k", false, true),
        (b"170141183460469231731687303715884105728*k", false, false),
        (b"n+k", false, false),
        (b"1+k", false, false),
        (b"k+x+n", false, false),
        (b"+k", false, false),
        (b"1*k", false, false),
        (b"k^1", false, false),
        (b"k^2", false, false),
        (b"n*k", false, false),
        (b"k+k", false, false),
        (b"k+0", false, false),
    ];
    for (text, form, in_x) in table {
        assert_eq!(rt; is_text(alloc, &Forms, text)?, form);
        assert_eq!(rt; is_text(alloc, &FormsInX, text)?, in_x);
    }
    Ok(())
}

#[test]
fn matches_have_one_text_each(rt: HostRuntime) -> Result<(), AllocError> {
    let alloc = rt.alloc();
    let items = Items { each: Matches };
    let table: [(&[u8], bool); 14] = [
        (b"-", true),
        (b"k by 0", true),
        (b"2*k+4 by 3 x2, k by 18446744073709551615", true),
        (b"k by 1 x4294967295", true),
        (b"k by 1 x4294967296", false),
        (b"k by 1 x1", false),
        (b"k by 1 x0", false),
        (b"k by 18446744073709551616", false),
        (b"k by -1", false),
        (b"65*k by 1", false),
        (b"k by 01", false),
        (b"k by1", false),
        (b"k", false),
        (b"k by 1,k by 2", false),
    ];
    for (text, expected) in table {
        assert_eq!(rt; is_text(alloc, &items, text)?, expected);
    }
    Ok(())
}

#[test]
fn factors_have_one_text_each(rt: HostRuntime) -> Result<(), AllocError> {
    let alloc = rt.alloc();
    let table: [(&[u8], bool, bool); 13] = [
        (b"-", true, true),
        (b"n, k, k+1 x2, 2*k-1", true, true),
        (b"k+1, k", true, false),
        (b"-k", true, false),
        (b"2*k+2 x3", true, false),
        (b"0", true, false),
        (b"1", true, true),
        (b"2", true, false),
        (b"k, k", false, false),
        (b"k x4294967295", true, true),
        (b"k x4294967296", false, false),
        (b"k x1", false, false),
        (b"65*k", false, false),
    ];
    for (text, factors, primitive) in table {
        assert_eq!(rt; is_text(alloc, &Factors, text)?, factors);
        assert_eq!(rt; is_text(alloc, &PrimitiveFactors, text)?, primitive);
    }
    Ok(())
}

#[test]
fn lists_with_a_scale_have_one_text_each(rt: HostRuntime) -> Result<(), AllocError> {
    let alloc = rt.alloc();
    let table: [(&[u8], bool); 12] = [
        (b"1; -", true),
        (b"-6; n, k, k+1 x2", true),
        (b"170141183460469231731687303715884105727; k", true),
        (b"170141183460469231731687303715884105728; k", false),
        (b"0; k", false),
        (b"1; k+1, k", false),
        (b"1; 2*k", false),
        (b"1; k, k", false),
        (b"1;k", false),
        (b"1", false),
        (b"-; -", false),
        (b"1; -; -", false),
    ];
    for (text, expected) in table {
        assert_eq!(rt; is_text(alloc, &FactorLists, text)?, expected);
    }
    Ok(())
}
