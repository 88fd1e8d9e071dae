use crate::{Fractions, NonzeroFractions, WholeNumbers};
use spelled::Spelling;
use std::alloc::{AllocError, Global};

// Whether the text is that of an item: it is read and written again as it was.
fn is_text<S: Spelling>(alloc: Global, spelling: &S, text: &[u8]) -> Result<bool, AllocError> {
    let Some(item) = spelling.read(alloc, text)? else {
        return Ok(false);
    };
    let mut written = String::new(alloc);
    spelling.write(&item, &mut written)?;
    Ok(written.as_bytes() == text)
}

#[test]
fn whole_numbers_and_fractions_have_one_text_each(rt: HostRuntime) -> Result<(), AllocError> {
    let alloc = rt.alloc();
    let table: [(&[u8], bool, bool, bool); 24] = [
        (b"0", true, true, false),
        (b"7", true, true, true),
        (b"-12", true, true, true),
        (b"170141183460469231731687303715884105727", true, true, true),
        (
            b"-170141183460469231731687303715884105728",
            false,
            false,
            false,
        ),
        (
            b"170141183460469231731687303715884105728",
            false,
            false,
            false,
        ),
        (
            b"-1/170141183460469231731687303715884105727",
            false,
            true,
            true,
        ),
        (
            b"1/170141183460469231731687303715884105728",
            false,
            false,
            false,
        ),
        (b"-3/2", false, true, true),
        (b"1/2", false, true, true),
        (b"0/1", false, false, false),
        (b"0/2", false, false, false),
        (b"1/1", false, false, false),
        (b"4/2", false, false, false),
        (b"-6/4", false, false, false),
        (b"1/-2", false, false, false),
        (b"1/0", false, false, false),
        (b"1/2/1", false, false, false),
        (b"1/", false, false, false),
        (b"/2", false, false, false),
        (b"-0", false, false, false),
        (b"+1", false, false, false),
        (b"01", false, false, false),
        (b"", false, false, false),
    ];
    for (text, whole, fraction, nonzero) in table {
        assert_eq!(rt; is_text(alloc, &WholeNumbers, text)?, whole);
        assert_eq!(rt; is_text(alloc, &Fractions, text)?, fraction);
        assert_eq!(rt; is_text(alloc, &NonzeroFractions, text)?, nonzero);
    }
    Ok(())
}
