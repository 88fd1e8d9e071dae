//! Whole numbers below 2^127 in magnitude, as a ring and a domain.

ghost use Rattle.std.specs.Prelude.{◌≡◌, ◌≢◌, ◌<◌, ◌+◌, ◌*◌, ◌^◌, ◌+ℤ◌, ◌*ℤ◌, neg_ℤ, ◌↔◌, ⊤, pos, negsuc, ℤ, IsTrue, IsFalse, IsOk, refl, unsigned_abs, MatchOption, IfSome};
ghost use Rattle.std.specs.Result.{IsOkUnless};
ghost use Rattle.ring_laws.specs.Meaning.{number};
ghost use Rattle.ring_laws.specs.Answer.{Gives, GivesInBounds};
ghost use Rattle.ring_laws.specs.Division.{Divides};
ghost use Rattle.ring_laws.specs.Wholes.{whole_algebra, is_zero};
ghost use Rattle.ring_laws.specs.WholeLaws.{whole_laws};
ghost use Rattle.ring_laws.specs.WholeDomain.{whole_domain};
ghost use Rattle.ring_laws.specs.declared.faults.RingFault.TheVariants.{TooLarge};

use crate::domains::Domain;
use crate::faults::RingFault;
use crate::rings::Ring;
use std::alloc::Global;

/// The sign of a number.
#[derive(Clone, Copy, Debug, PartialEq, Eq, Drop)]
pub enum Sign {
    /// Below 0.
    Negative,
    /// 0.
    Zero,
    /// Above 0.
    Positive,
}

/// A whole number below 2^127 in magnitude. None of its calls takes memory.
#[derive(Clone, Copy, Debug, PartialEq, Eq, Drop)]
pub struct Whole {
    /// The number.
    pub value: i128,
    ghost small: { unsigned_abs value < 2 ^ 127 },
}

impl Whole {
    /// 0.
    pub const ZERO: Whole = Whole { value: 0 };

    /// 1.
    pub const ONE: Whole = Whole { value: 1 };

    /// The number as a `Whole`, `None` exactly for `i128::MIN`, whose magnitude is 2^127.
    pub fn new(value: i128) -> Option<Whole>
        ensures given { MatchOption result (value ≡ i128.MIN) (λ whole. whole.value ≡ value) }
    {
        if value == i128::MIN {
            None
        } else {
            Some(Whole { value })
        }
    }

    /// The number.
    pub fn value(self) -> i128
        ensures value { result ≡ self.value }
        ensures small { unsigned_abs result < 2 ^ 127 }
    {
        self.value
    }

    /// The absolute value.
    pub fn unsigned_abs(self) -> u128
        ensures size { result ≡ unsigned_abs self.value }
        ensures small { result < 2 ^ 127 }
    {
        self.value.unsigned_abs()
    }
}

impl From<i64> for Whole {
    ghost from_gives = { λ value whole. whole.value ≡ value };

    fn from(value: i64) -> Whole {
        Whole {
            value: i128::from(value),
        }
    }
}

impl Ring for Whole {
    ghost meaning = { λ whole. number whole.value };

    ghost algebra = { whole_algebra };

    ghost laws = { whole_laws };

    ghost passes = { λ _. refl };

    ghost fits = { λ whole. whole.small };

    fn zero(_alloc: Global) -> Result<Whole, RingFault>
        ensures gives { Gives (λ whole. number whole.value) (number (pos 0)) result }
        ensures always { IsOk result }
    {
        Ok(Whole { value: 0 })
    }

    fn one(_alloc: Global) -> Result<Whole, RingFault>
        ensures gives { Gives (λ whole. number whole.value) (number (pos 1)) result }
        ensures always { IsOk result }
    {
        Ok(Whole { value: 1 })
    }

    fn whole(_alloc: Global, value: Whole) -> Result<Whole, RingFault>
        ensures gives { Gives (λ whole. number whole.value) (number value.value) result }
        ensures always { IsOk result }
    {
        Ok(value)
    }

    fn duplicate(&self, _alloc: Global) -> Result<Whole, RingFault>
        ensures gives { Gives (λ whole. number whole.value) (number self.now.value) result }
        ensures always { IsOk result }
    {
        Ok(*self)
    }

    fn neg(&self, _alloc: Global) -> Result<Whole, RingFault>
        ensures gives { Gives (λ whole. number whole.value) (number (neg_ℤ self.now.value)) result }
        ensures always { IsOk result }
    {
        Ok(Whole { value: -self.value })
    }

    fn magnitude(&self, _alloc: Global) -> Result<Whole, RingFault>
        ensures gives { Gives (λ whole. number whole.value) (number (pos (unsigned_abs self.now.value))) result }
        ensures always { IsOk result }
    {
        if self.value < 0 {
            Ok(Whole { value: -self.value })
        } else {
            Ok(*self)
        }
    }

    fn add(&self, _alloc: Global, other: &Whole) -> Result<Whole, RingFault>
        ensures gives { GivesInBounds (λ whole. number whole.value) (unsigned_abs self.now.value + unsigned_abs other.now.value < 2 ^ 127)
            (number (self.now.value +ℤ other.now.value)) result }
        ensures no_memory { IsOkUnless result TooLarge }
    {
        if !is_sum_in_bounds(*self, *other) {
            return Err(RingFault::TooLarge);
        }
        Ok(Whole {
            value: self.value + other.value,
        })
    }

    fn sub(&self, _alloc: Global, other: &Whole) -> Result<Whole, RingFault>
        ensures gives { GivesInBounds (λ whole. number whole.value) (unsigned_abs self.now.value + unsigned_abs other.now.value < 2 ^ 127)
            (number (self.now.value +ℤ neg_ℤ other.now.value)) result }
        ensures no_memory { IsOkUnless result TooLarge }
    {
        if !is_sum_in_bounds(*self, *other) {
            return Err(RingFault::TooLarge);
        }
        Ok(Whole {
            value: self.value - other.value,
        })
    }

    fn mul(&self, _alloc: Global, other: &Whole) -> Result<Whole, RingFault>
        ensures gives { GivesInBounds (λ whole. number whole.value) (unsigned_abs self.now.value * unsigned_abs other.now.value < 2 ^ 127)
            (number (self.now.value *ℤ other.now.value)) result }
        ensures no_memory { IsOkUnless result TooLarge }
    {
        if let Some(product) = product_of_short(*self, *other) {
            return Ok(product);
        }
        match self.value.checked_mul(other.value) {
            Some(value) => match Whole::new(value) {
                Some(product) => Ok(product),
                None => Err(RingFault::TooLarge),
            },
            None => Err(RingFault::TooLarge),
        }
    }

    fn is_zero(&self) -> bool {
        self.value == 0
    }

    fn same(&self, other: &Whole) -> bool {
        self.value == other.value
    }
}

// The sum of two magnitudes is below 2^128, so it fits the type without a sign.
fn is_sum_in_bounds(a: Whole, b: Whole) -> bool
    ensures test { IsTrue result ↔ (unsigned_abs a.value + unsigned_abs b.value < 2 ^ 127) }
{
    a.value.unsigned_abs() + b.value.unsigned_abs() <= i128::MAX as u128
}

// The product of two numbers of 64 bits, which is always in bounds; none of longer ones.
fn product_of_short(a: Whole, b: Whole) -> Option<Whole>
    ensures in_bounds { IfSome result (λ _. unsigned_abs a.value * unsigned_abs b.value < 2 ^ 127) }
    ensures product { IfSome result (λ product. product.value ≡ a.value *ℤ b.value) }
{
    let Ok(left) = i64::try_from(a.value) else {
        return None;
    };
    let Ok(right) = i64::try_from(b.value) else {
        return None;
    };
    Some(Whole {
        value: i128::from(left) * i128::from(right),
    })
}

impl Domain for Whole {
    ghost division_in_bounds = { λ _ _. ⊤ };

    ghost domain_laws = { whole_domain };

    fn divide_exact(&self, _alloc: Global, by: &Whole) -> Result<Option<Whole>, RingFault>
        requires not_zero { IsFalse (is_zero by.now.value) }
        ensures divides { Divides (λ whole. number whole.value) whole_algebra ⊤ (number self.now.value) (number by.now.value) result }
        ensures always { IsOk result }
    {
        Ok(exact_quotient(*self, *by))
    }

    fn whole_quotient(&self, by: &Whole) -> Option<Whole> {
        if by.value != 0 {
            exact_quotient(*self, *by)
        } else if self.value == 0 {
            Some(Whole::ZERO)
        } else {
            None
        }
    }
}

// The quotient by a number that isn't 0, or `None` exactly where no number is one.
fn exact_quotient(number: Whole, by: Whole) -> Option<Whole>
    requires not_zero { by.value ≢ pos 0 }
    ensures quotient { MatchOption result ((q : ℤ) → ¬ (q *ℤ by.value ≡ number.value)) (λ q. q.value *ℤ by.value ≡ number.value) }
{
    if number.value % by.value != 0 {
        return None;
    }
    Whole::new(number.value / by.value)
}
