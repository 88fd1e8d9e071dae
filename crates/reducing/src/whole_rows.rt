//! Rows of whole numbers, reduced by their greatest common divisor.

ghost use Rattle.std.specs.Prelude.{◌≡◌, ◌≢◌, ◌<◌, ◌^◌, ◌≤ℤ◌, pos, ◌*ℤ◌, unsigned_abs, map, IfOk, IfErr, IsOk, IsFalse, ⊤};
ghost use Rattle.std.specs.Int.{IsGcd};
ghost use Rattle.ring_laws.specs.Meaning.{number};
ghost use Rattle.ring_laws.specs.Wholes.{is_zero};
ghost use Rattle.ring_laws.specs.declared.faults.RingFault.TheVariants.{Memory};
ghost use Rattle.poly_divide.specs.Content.{DividesAll, IsContent};
ghost use Rattle.kernel_laws.specs.Reduction.{IsCoreBy};
ghost use Rattle.reducing.specs.RowAnswer.{GivesRow, GivesPart, GivesParts};
ghost use Rattle.reducing.specs.WholeRows.{WholeReduced, WholeSplit, whole_reduction};
ghost use Rattle.reducing.specs.Laws.WholeReduction.{whole_reduction_laws};

use crate::domains::Reducing;
use ring_laws::{Domain, Ring, RingFault, Whole, gcd_whole};
use std::alloc::Global;

fn magnitude(number: Whole) -> u128
    ensures magnitude { result ≡ unsigned_abs number.value }
    ensures small { result < 2 ^ 127 }
{
    number.value().unsigned_abs()
}

// The greatest common divisor of two numbers, which is at least 0.
fn common_divisor(a: Whole, b: Whole) -> Whole
    ensures greatest { IsGcd (unsigned_abs a.value) (unsigned_abs b.value) (unsigned_abs result.value) }
    ensures sign { pos 0 ≤ℤ result.value }
{
    let divisor = gcd_whole(magnitude(a), magnitude(b));
    Whole::new(divisor as i128).unwrap()
}

// The greatest common divisor of all numbers of the row.
fn content_of(row: &[Whole]) -> Whole
    ensures content { IsContent (map (λ number. unsigned_abs number.value) row.now) (unsigned_abs result.value) }
    ensures sign { pos 0 ≤ℤ result.value }
{
    let mut content = Whole::new(0).unwrap();
    let mut at = row.len();
    while at > 0 {
        at -= 1;
        content = common_divisor(row[at], content);
    }
    content
}

// The quotients by a number that divides each number of the row, in its place.
pub fn divided(row: Vec<Whole>, divisor: Whole) -> Vec<Whole>
    requires divides { DividesAll (unsigned_abs divisor.value) (map (λ number. unsigned_abs number.value) row.items) }
    requires not_zero { divisor.value ≢ pos 0 }
    ensures quotients { map (λ number. number.value) row.items ≡ map (λ number. divisor.value *ℤ number.value) result.items }
{
    let mut quotients = row;
    for at in 0..quotients.len() {
        let quotient = quotients[at].whole_quotient(&divisor);
        quotients[at] = quotient.unwrap();
    }
    quotients
}

impl Reducing for Whole {
    ghost reduction = { whole_reduction };

    ghost reduction_laws = { whole_reduction_laws };

    fn weight(&self) -> u32 {
        0
    }

    fn is_one(&self) -> bool {
        self.value() == 1
    }

    // Never `TooLarge`, and no memory is wanted: the row is divided in its place.
    fn reduce_row(_alloc: Global, row: Vec<Whole>) -> Result<Vec<Whole>, RingFault>
        ensures reduces { GivesRow (λ whole. number whole.value) (WholeReduced (map (λ whole. number whole.value) row.items)) ⊤ result }
        ensures always { IsOk result }
    {
        let content = content_of(&row);
        if content.value() <= 1 {
            return Ok(row);
        }
        Ok(divided(row, content))
    }

    fn split(&self, alloc: Global) -> Result<(Whole, Whole), RingFault>
        requires not_zero { IsFalse (is_zero self.now.value) }
        ensures splits { GivesParts (λ whole. number whole.value) (WholeSplit (number self.now.value)) ⊤ result }
        ensures always { IsOk result }
    {
        let core = Whole::one(alloc)?;
        Ok((*self, core))
    }

    fn core(&self, alloc: Global) -> Result<Whole, RingFault>
        requires not_zero { IsFalse (is_zero self.now.value) }
        ensures core { GivesPart (λ whole. number whole.value) (IsCoreBy whole_reduction (number self.now.value)) ⊤ result }
        ensures always { IsOk result }
    {
        Whole::one(alloc)
    }

    fn plain_part(&self, _alloc: Global, _core: &Whole) -> Result<Whole, RingFault>
        requires not_zero { IsFalse (is_zero self.now.value) }
        requires core { IsCoreBy whole_reduction (number self.now.value) (number _core.now.value) }
        ensures plain { GivesPart (λ whole. number whole.value) (λ plain. WholeSplit (number self.now.value) plain (number _core.now.value)) ⊤ result }
        ensures always { IsOk result }
    {
        Ok(*self)
    }
}
