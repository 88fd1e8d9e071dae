//! Products of forms with their powers.

ghost use Rattle.poly_laws.specs.Values.{level};
ghost use Rattle.poly_laws.specs.Powers.{power_in, nonzero_magnitude};
ghost use Rattle.poly_generic.specs.PowerAnswer.{GivesTimes};
ghost use Rattle.hypergeometric.specs.FormOrder.{AreFactors};
ghost use Rattle.hypergeometric.specs.Products.{form_polynomial};
ghost use Rattle.lin_form.specs.Forms.{form_of};
ghost use Rattle.lin_form.specs.FactorLists.{factors_of};
ghost use Rattle.hypergeometric.specs.OneProof.{factors_once};

use crate::forms::LinForm;
use crate::iter::Iter;
use crate::products::polynomial_of;
use indexmap::IndexMap;
use poly_generic::{Znk, times_power};
use ring_laws::{Ring, RingFault, Whole};
use std::alloc::Global;

/// A scale times a product of forms, each with a power of at least 1, in the order in which they came.
///
/// It keeps its own allocator.
#[derive(Drop)]
pub struct FactorList {
    scale: Whole,
    powers: IndexMap<LinForm, u32>,
    ghost factors: { AreFactors (factors_of powers.entries) } by { factors_once (factors_of powers.entries) },
}

impl FactorList {
    ghost use Rattle.std.specs.Prelude.{◌≡◌, ◌+◌, ◌*◌, ◌≤◌, ◌<◌, ◌^◌, pos, ◌*ℤ◌, unsigned_abs, [], length, slice_get, IfOk, IfErr, OnOk, OnErr, MatchOption, Some, None};
    ghost use Rattle.std.specs.List.Sorted.{IsPermutation};
    ghost use Rattle.ring_laws.specs.Answer.{OnFault};
    ghost use Rattle.ring_laws.specs.declared.faults.RingFault.TheVariants.{TooLarge, Memory};
    ghost use Rattle.hypergeometric.specs.Point.{Point};
    ghost use Rattle.hypergeometric.specs.LinearForm.{factor_list_value};
    ghost use Rattle.hypergeometric.specs.FormOrder.{AreFactors, IsSorted};
    ghost use Rattle.hypergeometric.specs.ProperTerm.{poly_value};
    ghost use Rattle.hypergeometric.specs.FactorLists.{factor_with, power_of, with_factor};
    ghost use Rattle.lin_form.specs.ListOf.{list_of};
    ghost use Rattle.hypergeometric.specs.Products.{list_polynomial, ListInBounds};

    /// The list of scale 1 and no form. It takes memory only later.
    pub fn new(alloc: Global) -> Result<FactorList, RingFault>
        ensures scale { IfOk result (λ list. (list_of list).scale ≡ pos 1) }
        ensures factors { IfOk result (λ list. (list_of list).factors ≡ []) }
        ensures memory { IfErr result (λ fault. fault ≡ Memory) }
    {
        Ok(FactorList {
            scale: Whole::one(alloc)?,
            powers: IndexMap::new(alloc),
        })
    }

    /// The scale.
    pub fn scale(&self) -> Whole
        ensures scale { result.value ≡ (list_of self.now).scale }
    {
        self.scale
    }

    /// How many forms the list has.
    pub fn len(&self) -> usize
        ensures count { result ≡ length (list_of self.now).factors }
        ensures factors { AreFactors (list_of self.now).factors }
    {
        self.powers.len()
    }

    /// The form at an index with its power, `None` exactly past the list.
    pub fn item(&self, index: usize) -> Option<(LinForm, u32)>
        ensures item { MatchOption result (slice_get (list_of self.now).factors index ≡ None)
            (λ item. slice_get (list_of self.now).factors index ≡ Some (factor_with (form_of item.0) item.1)) }
    {
        let (form, power) = self.powers.get_index(index)?;
        Some((*form, *power))
    }

    /// The forms with their powers, in order.
    pub fn iter(&self) -> Iter<'_>
        ensures items { result ≡ (list_of self.now).factors }
        ensures short { length (list_of self.now).factors < 2 ^ 64 }
        ensures factors { AreFactors (list_of self.now).factors }
    {
        Iter {
            entries: self.powers.iter(),
        }
    }

    /// The power of the form, and 0 for a form that isn't there.
    pub fn power(&self, form: &LinForm) -> u32
        ensures power { result ≡ power_of (form_of form.now) (list_of self.now).factors }
    {
        match self.powers.get(form) {
            Some(power) => *power,
            None => 0,
        }
    }

    /// Multiplies by a form as often as the power says: adds to the power of a form that is there, and puts a new form last.
    ///
    /// `Memory` is the only fault, and leaves the list as it was.
    pub fn multiply(&mut self, form: LinForm, power: u32) -> Result<(), RingFault>
        requires some { 1 ≤ power }
        requires fits { power_of (form_of form) (list_of self.old).factors + power < 2 ^ 32 }
        ensures factors { OnOk result ((list_of self.new).factors ≡ with_factor (form_of form) power (list_of self.old).factors) }
        ensures scale { (list_of self.new).scale ≡ (list_of self.old).scale }
        ensures err { OnErr result (list_of self.new ≡ list_of self.old) }
        ensures memory { IfErr result (λ fault. fault ≡ Memory) }
    {
        let power = self.power(&form) + power;
        self.powers.insert(form, power)?;
        Ok(())
    }

    /// Multiplies the scale. `TooLarge` comes exactly where the product of the magnitudes reaches 2^127, and leaves the list as
    /// it was. It takes no memory.
    pub fn multiply_scale(&mut self, by: Whole) -> Result<(), RingFault>
        ensures scale { OnOk result ((list_of self.new).scale ≡ (list_of self.old).scale *ℤ by.value) }
        ensures in_bounds { OnOk result (unsigned_abs (list_of self.old).scale * unsigned_abs by.value < 2 ^ 127) }
        ensures factors { (list_of self.new).factors ≡ (list_of self.old).factors }
        ensures too_large { IfErr result (λ fault. (fault ≡ TooLarge) × ¬ (unsigned_abs (list_of self.old).scale * unsigned_abs by.value < 2 ^ 127)) }
        ensures err { OnErr result (list_of self.new ≡ list_of self.old) }
    {
        let alloc = *self.powers.allocator();
        self.scale = self.scale.mul(alloc, &by)?;
        Ok(())
    }

    /// The same scale and the same forms with their powers, in rising order: by k slope, then n slope, then offset.
    ///
    /// `Memory` is the only fault.
    pub fn sorted(&self) -> Result<FactorList, RingFault>
        ensures scale { IfOk result (λ list. (list_of list).scale ≡ (list_of self.now).scale) }
        ensures sorted { IfOk result (λ list. IsSorted (list_of list).factors) }
        ensures same { IfOk result (λ list. IsPermutation (list_of self.now).factors (list_of list).factors) }
        ensures memory { IfErr result (λ fault. fault ≡ Memory) }
    {
        let Ok(mut powers) = self.powers.clone() else {
            return Err(RingFault::Memory);
        };
        if powers.sort_keys().is_err() {
            return Err(RingFault::Memory);
        }
        Ok(FactorList {
            scale: self.scale,
            powers,
        })
    }

    /// The polynomial that the list is: the scale times the product of the forms, by their powers.
    ///
    /// `TooLarge` comes only where the product of all factors, as one operation, is out of bounds: where the product of the
    /// magnitudes of those that aren't zero has a number of 2^127 or more, or more than 256 coefficients.
    pub fn to_poly(&self, alloc: Global) -> Result<Znk, RingFault>
        ensures polynomial { IfOk result (λ poly. ⟦<Znk as Ring>⟧.meaning poly ≡ list_polynomial (list_of self.now)) }
        ensures value { IfOk result (λ poly. (p : Point) → poly_value (⟦<Znk as Ring>⟧.meaning poly) p ≡ factor_list_value (list_of self.now) p) }
        ensures too_large { IfErr result (OnFault (¬ ListInBounds (list_of self.now))) }
    {
        let mut product = Znk::whole(alloc, self.scale)?;
        for (form, power) in self.iter() {
            product = times_form(alloc, product, form, power)?;
        }
        Ok(product)
    }
}

// The product times the form, as often as the power says.
fn times_form(alloc: Global, product: Znk, form: LinForm, power: u32) -> Result<Znk, RingFault>
    ensures gives { GivesTimes ⟦<Znk as Ring>⟧.meaning (level 2) (⟦<Znk as Ring>⟧.meaning product)
        (power_in (level 2).ops (form_polynomial (form_of form)) power)
        (power_in (level 2).ops (nonzero_magnitude (level 2).ops (form_polynomial (form_of form))) power) result }
{
    let base = polynomial_of(alloc, form)?;
    times_power(alloc, product, base, power)
}
