//! Rows of polynomials in n, reduced by their content and by the linear factors of an entry of least degree.

ghost use Rattle.std.specs.Prelude.{◌≡◌, ◌↔◌, ◌<ℤ◌, pos, map, IfOk, IfErr, IsTrue, IsFalse};
ghost use Rattle.ring_laws.specs.declared.faults.RingFault.TheVariants.{Memory};
ghost use Rattle.whole_roots.specs.Differences.{polynomials};
ghost use Rattle.kernel_laws.specs.Reduction.{IsCoreBy};
ghost use Rattle.reducing.specs.RowAnswer.{GivesRow, GivesPart, GivesParts};
ghost use Rattle.reducing.specs.PolynomialRows.{lead_number, PolynomialsReduced, PolynomialsInBounds, PolynomialSplit, IsCore, IsTimesContent, CoreInBounds, SplittingInBounds, polynomial_reduction};
ghost use Rattle.reducing.specs.PolynomialAnswers.{HasPositiveLead, GivesCore};
ghost use Rattle.reducing.specs.Laws.PolynomialReduction.{polynomial_reduction_laws};

use crate::domains::Reducing;
use crate::factors_out::without_factors;
use crate::least_entries::{degree_of, least_place};
use crate::row_contents::{content_of, without_content};
use poly_generic::Zn;
use ring_laws::{Domain, Ring, RingFault, Whole};
use std::alloc::Global;
use whole_roots::linear_factors;

// The row, reduced.
fn reduced(alloc: Global, row: Vec<Zn>) -> Result<Vec<Zn>, RingFault>
    ensures reduces { GivesRow ⟦<Zn as Ring>⟧.meaning (PolynomialsReduced (map ⟦<Zn as Ring>⟧.meaning row.items))
        (PolynomialsInBounds (map ⟦<Zn as Ring>⟧.meaning row.items)) result }
{
    let content = content_of(&row);
    if content.value() == 0 {
        return Ok(row);
    }
    let quotients = without_content(alloc, row, content)?;
    let place = least_place(&quotients).unwrap();
    let factors = linear_factors(alloc, &quotients[place])?;
    without_factors(alloc, quotients, &factors)
}

// The polynomial or its negative, so that its lead isn't negative.
fn with_positive_lead(alloc: Global, f: Zn) -> Result<Zn, RingFault>
    ensures lead { IfOk result (λ out. HasPositiveLead (⟦<Zn as Ring>⟧.meaning f) (⟦<Zn as Ring>⟧.meaning out)) }
    ensures memory { IfErr result (λ fault. fault ≡ Memory) }
{
    if is_lead_negative(&f) {
        return f.neg(alloc);
    }
    Ok(f)
}

// Whether the coefficient of the greatest power is negative.
fn is_lead_negative(f: &Zn) -> bool
    ensures test { IsTrue result ↔ (lead_number (⟦<Zn as Ring>⟧.meaning f.now) <ℤ pos 0) }
{
    match f.lead() {
        Some(lead) => lead.value() < 0,
        None => false,
    }
}

// What is left of a polynomial without its content and all its linear factors, with a positive lead.
fn core_of(alloc: Global, f: &Zn) -> Result<Zn, RingFault>
    requires not_zero { IsFalse (polynomials.ops.is_nought (⟦<Zn as Ring>⟧.meaning f.now)) }
    ensures core { GivesCore ⟦<Zn as Ring>⟧.meaning (⟦<Zn as Ring>⟧.meaning f.now) result }
{
    let copy = f.duplicate(alloc)?;
    let mut row = Vec::new(alloc);
    row.push(copy)?;
    let mut row = reduced(alloc, row)?;
    with_positive_lead(alloc, row.remove(0))
}

// The polynomial without its content, and the content.
fn over_content(alloc: Global, f: &Zn) -> Result<(Zn, Whole), RingFault>
    requires not_zero { IsFalse (polynomials.ops.is_nought (⟦<Zn as Ring>⟧.meaning f.now)) }
    ensures parts { IfOk result (λ out. IsTimesContent (⟦<Zn as Ring>⟧.meaning f.now) out.1.value (⟦<Zn as Ring>⟧.meaning out.0)) }
    ensures memory { IfErr result (λ fault. fault ≡ Memory) }
{
    let copy = f.duplicate(alloc)?;
    let mut row = Vec::new(alloc);
    row.push(copy)?;
    let content = content_of(&row);
    let mut quotients = without_content(alloc, row, content)?;
    Ok((quotients.remove(0), content))
}

// The plain part of a polynomial with this core: what the polynomial is over its content and the core, times the content.
fn plain_beside(alloc: Global, f: &Zn, core: &Zn) -> Result<Zn, RingFault>
    requires not_zero { IsFalse (polynomials.ops.is_nought (⟦<Zn as Ring>⟧.meaning f.now)) }
    requires core { IsCore (⟦<Zn as Ring>⟧.meaning f.now) (⟦<Zn as Ring>⟧.meaning core.now) }
    ensures plain { GivesPart ⟦<Zn as Ring>⟧.meaning (λ plain. PolynomialSplit (⟦<Zn as Ring>⟧.meaning f.now) plain (⟦<Zn as Ring>⟧.meaning core.now))
        (SplittingInBounds (⟦<Zn as Ring>⟧.meaning f.now)) result }
{
    let (part, content) = over_content(alloc, f)?;
    let quotient = part.divide_exact(alloc, core)?.unwrap();
    let content = Zn::whole(alloc, content)?;
    quotient.mul(alloc, &content)
}

impl Reducing for Zn {
    ghost reduction = { polynomial_reduction };

    ghost reduction_laws = { polynomial_reduction_laws };

    fn weight(&self) -> u32 {
        degree_of(self)
    }

    fn is_one(&self) -> bool {
        let list = self.coefficients();
        list.len() == 1 && list[0].value() == 1
    }

    fn reduce_row(alloc: Global, row: Vec<Zn>) -> Result<Vec<Zn>, RingFault>
        ensures reduces { GivesRow ⟦<Zn as Ring>⟧.meaning (PolynomialsReduced (map ⟦<Zn as Ring>⟧.meaning row.items))
            (PolynomialsInBounds (map ⟦<Zn as Ring>⟧.meaning row.items)) result }
    {
        reduced(alloc, row)
    }

    fn split(&self, alloc: Global) -> Result<(Zn, Zn), RingFault>
        requires not_zero { IsFalse (polynomials.ops.is_nought (⟦<Zn as Ring>⟧.meaning self.now)) }
        ensures splits { GivesParts ⟦<Zn as Ring>⟧.meaning (PolynomialSplit (⟦<Zn as Ring>⟧.meaning self.now))
            (SplittingInBounds (⟦<Zn as Ring>⟧.meaning self.now)) result }
    {
        let core = core_of(alloc, self)?;
        let plain = plain_beside(alloc, self, &core)?;
        Ok((plain, core))
    }

    fn core(&self, alloc: Global) -> Result<Zn, RingFault>
        requires not_zero { IsFalse (polynomials.ops.is_nought (⟦<Zn as Ring>⟧.meaning self.now)) }
        ensures core { GivesPart ⟦<Zn as Ring>⟧.meaning (IsCoreBy polynomial_reduction (⟦<Zn as Ring>⟧.meaning self.now))
            (CoreInBounds (⟦<Zn as Ring>⟧.meaning self.now)) result }
    {
        core_of(alloc, self)
    }

    fn plain_part(&self, alloc: Global, core: &Zn) -> Result<Zn, RingFault>
        requires not_zero { IsFalse (polynomials.ops.is_nought (⟦<Zn as Ring>⟧.meaning self.now)) }
        requires core { IsCoreBy polynomial_reduction (⟦<Zn as Ring>⟧.meaning self.now) (⟦<Zn as Ring>⟧.meaning core.now) }
        ensures plain { GivesPart ⟦<Zn as Ring>⟧.meaning
            (λ plain. PolynomialSplit (⟦<Zn as Ring>⟧.meaning self.now) plain (⟦<Zn as Ring>⟧.meaning core.now))
            (SplittingInBounds (⟦<Zn as Ring>⟧.meaning self.now)) result }
    {
        plain_beside(alloc, self, core)
    }
}
