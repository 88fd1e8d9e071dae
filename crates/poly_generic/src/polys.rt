//! Polynomials over a ring.

ghost use Rattle.std.specs.Prelude.{◌≡◌, ◌≢◌, ◌≤◌, ◌<◌, ◌+◌, ◌-◌, IsTrue, map, [], ◌∷◌, length, IfSome, MatchOption};
ghost use Rattle.ring_laws.specs.Meaning.{Meaning, listed, items};
ghost use Rattle.ring_laws.specs.Answer.{Gives, GivesInBounds};
ghost use Rattle.poly_laws.specs.Lists.{coefficient_at, trimmed, is_trimmed};
ghost use Rattle.poly_laws.specs.Evaluation.{list_value, ValueInBounds};
ghost use Rattle.poly_laws.specs.Shift.{poly_shift, ListShiftInBounds, inner_shift, InnerShiftInBounds};
ghost use Rattle.poly_laws.specs.LongDivision.{DivisionInBounds};
ghost use Rattle.poly_laws.specs.PolyAlgebra.{poly_algebra};
ghost use Rattle.poly_laws.proofs.PolyDomain.{poly_domain};
ghost use Rattle.poly_laws.proofs.PolyMagnitudes.{poly_laws};
ghost use Rattle.poly_generic.specs.ListAnswer.{GivesListInBounds};
ghost use Rattle.poly_laws.proofs.Belonging.{value_passes, value_fits};

use crate::division::{all_zero, divide_lists};
use crate::evaluation::{bounded_shift, value_of_list};
use crate::lists::{copies, differences, magnitudes, negatives, same_lists, sums, trim};
use crate::multiples::are_times;
use ring_laws::{Domain, Ring, RingFault, Whole};
use std::alloc::Global;

/// A polynomial over a ring: its coefficients from power 0 up, the last one not zero, at most 256 of them.
///
/// It means the list of the meanings of its coefficients.
#[derive(Drop)]
pub struct Poly<R: Ring> {
    pub(crate) list: Vec<R>,
    ghost ended: { IsTrue (is_trimmed R.algebra.ops (map R.meaning list.items)) },
    ghost short: { length list.items ≤ 256 },
}

/// A polynomial in n.
pub type Zn = Poly<Whole>;

/// A polynomial in k whose coefficients are polynomials in n.
pub type Znk = Poly<Zn>;

impl<R: Ring> Poly<R> {
    /// The polynomial of these coefficients, from power 0 up, without the zeros at the end.
    ///
    /// `TooLarge` comes exactly where more than 256 are left.
    pub fn from_coefficients(list: Vec<R>) -> Result<Poly<R>, RingFault>
        ensures gives { GivesInBounds ⟦<Poly<R> as Ring>⟧.meaning (length (trimmed R.algebra.ops (map R.meaning list.items)) ≤ 256)
            (listed (trimmed R.algebra.ops (map R.meaning list.items))) result }
    {
        let list = trim(list);
        if list.len() > 256 {
            return Err(RingFault::TooLarge);
        }
        Ok(Poly { list })
    }

    /// The degree, `None` exactly for zero.
    pub fn degree(&self) -> Option<u32>
        ensures degree { MatchOption result (items (⟦<Poly<R> as Ring>⟧.meaning self.now) ≡ [])
            (λ degree. length (items (⟦<Poly<R> as Ring>⟧.meaning self.now)) ≡ degree + 1) }
        ensures small { IfSome result (λ degree. degree < 256) }
    {
        if self.list.is_empty() {
            return None;
        }
        Some((self.list.len() - 1) as u32)
    }

    /// The coefficient of the greatest power, `None` exactly for zero.
    pub fn lead(&self) -> Option<&R>
        ensures lead { MatchOption result (items (⟦<Poly<R> as Ring>⟧.meaning self.now) ≡ [])
            (λ lead. (items (⟦<Poly<R> as Ring>⟧.meaning self.now) ≢ []) × (R.meaning lead.now ≡
            coefficient_at R.algebra.ops (items (⟦<Poly<R> as Ring>⟧.meaning self.now)) (length (items (⟦<Poly<R> as Ring>⟧.meaning self.now)) - 1))) }
    {
        self.list.last()
    }

    /// The coefficient of a power, `None` exactly past the list.
    pub fn coefficient(&self, power: u32) -> Option<&R>
        ensures coefficient { MatchOption result (length (items (⟦<Poly<R> as Ring>⟧.meaning self.now)) ≤ power)
            (λ item. (power < length (items (⟦<Poly<R> as Ring>⟧.meaning self.now))) × (R.meaning item.now ≡
            coefficient_at R.algebra.ops (items (⟦<Poly<R> as Ring>⟧.meaning self.now)) power)) }
    {
        self.list.get(power as usize)
    }

    /// The coefficients, from power 0 up.
    pub fn coefficients(&self) -> &[R]
        ensures coefficients { listed (map R.meaning result.now) ≡ ⟦<Poly<R> as Ring>⟧.meaning self.now }
        ensures short { length result.now ≤ 256 }
    {
        &self.list
    }

    /// The value at a value of the ring.
    ///
    /// `TooLarge` comes exactly where the same sum of powers on magnitudes doesn't fit.
    pub fn eval(&self, alloc: Global, at: &R) -> Result<R, RingFault>
        ensures gives { GivesInBounds R.meaning (ValueInBounds R.algebra (R.meaning at.now) (items (⟦<Poly<R> as Ring>⟧.meaning self.now)))
            (list_value R.algebra.ops (R.meaning at.now) (items (⟦<Poly<R> as Ring>⟧.meaning self.now))) result }
    {
        let sizes = magnitudes(alloc, &self.list)?;
        let size = at.magnitude(alloc)?;
        let _bound = value_of_list(alloc, &sizes, &size)?;
        let value = value_of_list(alloc, &self.list, at)?;
        Ok(value)
    }

    /// The polynomial at the variable plus a number.
    ///
    /// `TooLarge` comes exactly where some coefficient of the shift of the magnitudes doesn't fit.
    pub fn shift_by(&self, alloc: Global, by: i64) -> Result<Poly<R>, RingFault>
        ensures gives { GivesInBounds ⟦<Poly<R> as Ring>⟧.meaning
            (ListShiftInBounds R.algebra (R.algebra.ops.whole by) (items (⟦<Poly<R> as Ring>⟧.meaning self.now)))
            (poly_shift R.algebra.ops by (⟦<Poly<R> as Ring>⟧.meaning self.now)) result }
    {
        self.shifted(alloc, Whole::from(by))
    }

    // The same by a number of any size.
    fn shifted(&self, alloc: Global, by: Whole) -> Result<Poly<R>, RingFault>
        ensures gives { GivesInBounds ⟦<Poly<R> as Ring>⟧.meaning
            (ListShiftInBounds R.algebra (R.algebra.ops.whole by.value) (items (⟦<Poly<R> as Ring>⟧.meaning self.now)))
            (poly_shift R.algebra.ops by.value (⟦<Poly<R> as Ring>⟧.meaning self.now)) result }
    {
        let by = R::whole(alloc, by)?;
        let list = bounded_shift(alloc, &self.list, &by)?;
        Poly::from_coefficients(list)
    }
}

impl<R: Ring> Poly<Poly<R>> {
    /// The polynomial at its second variable plus a number: each coefficient is shifted.
    ///
    /// `TooLarge` comes exactly where some number of the shift of the magnitudes doesn't fit.
    pub fn shift_inner_by(&self, alloc: Global, by: i64) -> Result<Poly<Poly<R>>, RingFault>
        ensures gives { GivesInBounds ⟦<Poly<Poly<R>> as Ring>⟧.meaning
            (InnerShiftInBounds R.algebra (R.algebra.ops.whole by) (items (⟦<Poly<Poly<R>> as Ring>⟧.meaning self.now)))
            (inner_shift R.algebra.ops by (⟦<Poly<Poly<R>> as Ring>⟧.meaning self.now)) result }
    {
        let list = shifts(alloc, &self.list, Whole::from(by))?;
        Poly::from_coefficients(list)
    }
}

// Each polynomial at its variable plus a number.
fn shifts<R: Ring>(alloc: Global, list: &[Poly<R>], by: Whole) -> Result<Vec<Poly<R>>, RingFault>
    ensures { GivesListInBounds ⟦<Poly<R> as Ring>⟧.meaning
        (InnerShiftInBounds R.algebra (R.algebra.ops.whole by.value) (map ⟦<Poly<R> as Ring>⟧.meaning list.now))
        (map (poly_shift R.algebra.ops by.value) (map ⟦<Poly<R> as Ring>⟧.meaning list.now)) result }
{
    let mut out = Vec::new(alloc);
    for item in list {
        let shifted = item.shifted(alloc, by)?;
        out.push(shifted)?;
    }
    Ok(out)
}

// The polynomial of one coefficient.
fn constant<R: Ring>(alloc: Global, item: R) -> Result<Poly<R>, RingFault>
    ensures { Gives ⟦<Poly<R> as Ring>⟧.meaning (listed (trimmed R.algebra.ops (R.meaning item ∷ []))) result }
{
    let mut list = Vec::new(alloc);
    list.push(item)?;
    Poly::from_coefficients(list)
}

impl<R: Ring> Ring for Poly<R> {
    ghost meaning = { λ poly. listed (map R.meaning poly.list.items) };

    ghost algebra = { poly_algebra R.algebra };

    ghost laws = { poly_laws R.algebra R.laws };

    ghost passes = { λ poly. value_passes R.algebra R.meaning R.passes poly.list.items poly.ended };

    ghost fits = { λ poly. value_fits R.algebra R.laws R.meaning R.fits poly.list.items poly.short };

    fn zero(alloc: Global) -> Result<Poly<R>, RingFault> {
        Ok(Poly {
            list: Vec::new(alloc),
        })
    }

    fn one(alloc: Global) -> Result<Poly<R>, RingFault> {
        let item = R::one(alloc)?;
        constant(alloc, item)
    }

    fn whole(alloc: Global, value: Whole) -> Result<Poly<R>, RingFault> {
        let item = R::whole(alloc, value)?;
        constant(alloc, item)
    }

    fn duplicate(&self, alloc: Global) -> Result<Poly<R>, RingFault> {
        let list = copies(alloc, &self.list)?;
        Poly::from_coefficients(list)
    }

    fn neg(&self, alloc: Global) -> Result<Poly<R>, RingFault> {
        let list = negatives(alloc, &self.list)?;
        Poly::from_coefficients(list)
    }

    fn magnitude(&self, alloc: Global) -> Result<Poly<R>, RingFault> {
        let list = magnitudes(alloc, &self.list)?;
        Poly::from_coefficients(list)
    }

    fn add(&self, alloc: Global, other: &Poly<R>) -> Result<Poly<R>, RingFault> {
        let list = sums(alloc, &self.list, &other.list)?;
        Poly::from_coefficients(list)
    }

    fn sub(&self, alloc: Global, other: &Poly<R>) -> Result<Poly<R>, RingFault> {
        let list = differences(alloc, &self.list, &other.list)?;
        Poly::from_coefficients(list)
    }

    fn mul(&self, alloc: Global, other: &Poly<R>) -> Result<Poly<R>, RingFault> {
        if self.list.is_empty() || other.list.is_empty() {
            return Poly::zero(alloc);
        }
        if self.list.len() <= other.list.len() {
            self.product(alloc, other)
        } else {
            other.product(alloc, self)
        }
    }

    fn is_zero(&self) -> bool {
        self.list.is_empty()
    }

    fn same(&self, other: &Poly<R>) -> bool {
        same_lists(&self.list, &other.list)
    }
}

impl<D: Domain> Domain for Poly<D> {
    ghost division_in_bounds = { DivisionInBounds D.algebra D.division_in_bounds };

    ghost domain_laws = { poly_domain D.algebra D.laws D.domain_laws };

    fn divide_exact(&self, alloc: Global, by: &Poly<D>) -> Result<Option<Poly<D>>, RingFault> {
        let degree = by.list.len() - 1;
        match divide_lists(alloc, &self.list, &by.list[..degree], &by.list[degree])? {
            Some(divided) => {
                if all_zero(&divided.rest) {
                    let quotient = Poly::from_coefficients(divided.quotient)?;
                    Ok(Some(quotient))
                } else {
                    Ok(None)
                }
            }
            None => Ok(None),
        }
    }

    fn whole_quotient(&self, by: &Poly<D>) -> Option<Whole> {
        if self.list.is_empty() {
            return Some(Whole::ZERO);
        }
        if self.list.len() != by.list.len() {
            return None;
        }
        let degree = by.list.len() - 1;
        let Some(found) = self.list[degree].whole_quotient(&by.list[degree]) else {
            return None;
        };
        if are_times(&self.list, &by.list, found) {
            Some(found)
        } else {
            None
        }
    }
}
