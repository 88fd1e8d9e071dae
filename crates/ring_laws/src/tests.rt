use crate::{Domain, Ring, RingFault, Whole, gcd_whole};
use std::alloc::Global;

fn number(value: i128) -> Result<Whole, RingFault> {
    Whole::new(value).ok_or(RingFault::TooLarge)
}

// The quotient, and `TooLarge` for a divisor of zero.
fn quotient(alloc: Global, number: Whole, by: Whole) -> Result<Option<Whole>, RingFault> {
    if by.is_zero() {
        return Err(RingFault::TooLarge);
    }
    number.divide_exact(alloc, &by)
}

#[test]
fn greatest_common_divisors(rt: HostRuntime) {
    assert_eq!(rt; gcd_whole(12, 18), 6);
    assert_eq!(rt; gcd_whole(0, 7), 7);
    assert_eq!(rt; gcd_whole(0, 0), 0);
}

#[test]
fn numbers_end_below_two_to_the_127(rt: HostRuntime) -> Result<(), RingFault> {
    let alloc = rt.alloc();
    assert!(rt; Whole::new(i128::MIN).is_none());
    let half = number(1 << 63)?;
    let greatest_power = number(1 << 126)?;
    assert_eq!(rt; half.mul(alloc, &half)?, greatest_power);
    let least_of_64_bits = number(-(1 << 63))?;
    assert_eq!(rt;
        least_of_64_bits.mul(alloc, &least_of_64_bits)?,
        greatest_power
    );
    assert!(rt; number(1 << 64)?.mul(alloc, &half).is_err());
    assert!(rt; greatest_power.sub(alloc, &greatest_power).is_err());
    assert!(rt;
        greatest_power
            .add(alloc, &greatest_power.neg(alloc)?)
            .is_err()
    );
    Ok(())
}

#[test]
fn calls_of_the_ring(rt: HostRuntime) -> Result<(), RingFault> {
    let alloc = rt.alloc();
    let three = Whole::whole(alloc, number(3)?)?;
    let minus_three = three.neg(alloc)?;
    assert_eq!(rt; minus_three.value(), -3);
    assert_eq!(rt; minus_three.magnitude(alloc)?, three);
    assert_eq!(rt; three.magnitude(alloc)?, three.duplicate(alloc)?);
    assert!(rt; three.add(alloc, &minus_three)?.is_zero());
    assert_eq!(rt; three.sub(alloc, &minus_three)?.value(), 6);
    assert!(rt;
        Whole::zero(alloc)?
            .add(alloc, &Whole::one(alloc)?)?
            .same(&number(1)?)
    );
    Ok(())
}

#[test]
fn exact_quotients(rt: HostRuntime) -> Result<(), RingFault> {
    let alloc = rt.alloc();
    assert_eq!(rt;
        quotient(alloc, number(-12)?, number(4)?)?,
        Some(number(-3)?)
    );
    assert_eq!(rt; quotient(alloc, number(7)?, number(2)?)?, None);
    Ok(())
}
