use crate::FormRing;
use poly_generic::Zn;
use ring_laws::{Ring, RingFault, Sign, Whole};
use std::alloc::Global;

// The calls through the bound.
fn is_part<B: FormRing>(
    alloc: Global,
    slope: i64,
    offset: i64,
    n: i64,
    value: i64,
) -> Result<bool, RingFault> {
    let part = B::part(alloc, slope, 0, offset)?;
    let found = part.value_at(alloc, Whole::from(n), Whole::from(0))?;
    Ok(found.same(&Whole::from(value)))
}

#[test]
fn parts_have_their_values(rt: HostRuntime) -> Result<(), RingFault> {
    let alloc = rt.alloc();
    for (slope, offset, n, value) in [(1, 2, 1, 3), (0, 5, 9, 5), (-3, 4, 2, -2), (0, 0, 7, 0)] {
        assert!(rt; is_part::<Zn>(alloc, slope, offset, n, value)?);
    }
    assert!(rt; !Zn::holds_x());
    Ok(())
}

#[test]
fn whole_numbers_and_signs(rt: HostRuntime) -> Result<(), RingFault> {
    let alloc = rt.alloc();
    let rows = [
        (0, 0, Some(0), Sign::Zero),
        (0, -7, Some(-7), Sign::Negative),
        (0, 4, Some(4), Sign::Positive),
        (2, -7, None, Sign::Positive),
        (-1, 5, None, Sign::Negative),
    ];
    for (slope, offset, whole, sign) in rows {
        let part = Zn::part(alloc, slope, 0, offset)?;
        assert_eq!(rt; part.as_whole().map(|found| found.value()), whole);
        assert_eq!(rt; part.lead_sign(), sign);
        assert!(rt; Zn::from_n(alloc, &part)?.same(&part));
    }
    Ok(())
}
