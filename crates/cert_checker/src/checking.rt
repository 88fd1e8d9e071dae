//! The tests of the claim of a polynomial in k.

ghost use Rattle.std.specs.Prelude.{◌≡◌, ◌≢◌, ℕ, pos, IsTrue, ◌↔◌, Err, IfOk, OnOk};
ghost use Rattle.ring_laws.specs.Answer.{OnFault};
ghost use Rattle.cert_text.specs.Readable.{contents};
ghost use Rattle.cert_checker.specs.Checks.{difference, multiple, HasCarrier, HasMultiplier, HasEquation, AreInBounds};
ghost use Rattle.cert_checker.specs.Checks.{IsVerdictOf, IsAccepted, HasIdentity, ClaimTelescopes, claim_fault, GivesSides, TestsEquation};

use crate::verdicts::{Reason, Verdict};
use cert_text::PolyDoc;
use documents::{EngineFault, Place};
use poly_generic::Zn;
use ring_laws::{Ring, RingFault};
use std::alloc::Global;
use steps::LimitName;

/// Whether the claim of a document holds: the scales of the term and the carrier are equal, the multiplier isn't 0, and the
/// difference of Y is the multiplier times the polynomial of the term. The first test that fails is named.
///
/// `TooLarge` names claim 0, and comes exactly where the first two tests hold and the shift of Y, the difference or the product is
/// out of bounds.
pub fn check_poly(alloc: Global, doc: &PolyDoc) -> Result<Verdict, EngineFault>
    // Accepted exactly where all three tests hold, and rejected with the first that fails.
    ensures verdict { IfOk result (IsVerdictOf (contents (⟦<Zn as Ring>⟧.meaning doc.now.poly) doc.now.scale.value doc.now.multiplier.value
        doc.now.carrier_scale.value (⟦<Zn as Ring>⟧.meaning doc.now.y))) }

    // Exactly where the third test is reached and a step of it is out of bounds, unless memory ends first.
    ensures in_bounds { doc.now.scale.value ≡ doc.now.carrier_scale.value → doc.now.multiplier.value ≢ pos 0
        → OnOk result (AreInBounds (contents (⟦<Zn as Ring>⟧.meaning doc.now.poly) doc.now.scale.value doc.now.multiplier.value
        doc.now.carrier_scale.value (⟦<Zn as Ring>⟧.meaning doc.now.y))) }
    ensures too_large { (place : Place) → result ≡ Err (EngineFault.TooLarge place) → (place ≡ Place.Claim 0)
        × (doc.now.scale.value ≡ doc.now.carrier_scale.value) × (doc.now.multiplier.value ≢ pos 0)
        × (¬ AreInBounds (contents (⟦<Zn as Ring>⟧.meaning doc.now.poly) doc.now.scale.value doc.now.multiplier.value
        doc.now.carrier_scale.value (⟦<Zn as Ring>⟧.meaning doc.now.y))) }
    ensures no_limit { (name : LimitName) (counted : ℕ) → result ≢ Err (EngineFault.Limit name counted) }

    // What an accepted document is good for.
    ensures telescopes { doc.now.scale.value ≢ pos 0 → IfOk result (λ verdict. IsAccepted verdict → ClaimTelescopes
        (contents (⟦<Zn as Ring>⟧.meaning doc.now.poly) doc.now.scale.value doc.now.multiplier.value
        doc.now.carrier_scale.value (⟦<Zn as Ring>⟧.meaning doc.now.y))) }

    // A right document is never rejected.
    ensures right { doc.now.scale.value ≡ doc.now.carrier_scale.value → doc.now.multiplier.value ≢ pos 0
        → HasIdentity (contents (⟦<Zn as Ring>⟧.meaning doc.now.poly) doc.now.scale.value doc.now.multiplier.value
        doc.now.carrier_scale.value (⟦<Zn as Ring>⟧.meaning doc.now.y)) → IfOk result IsAccepted }
{
    if doc.scale.value() != doc.carrier_scale.value() {
        return Ok(rejected(Reason::Carrier));
    }
    if doc.multiplier.value() == 0 {
        return Ok(rejected(Reason::Zero));
    }
    match has_equation(alloc, doc) {
        Ok(true) => Ok(Verdict::Accepted {
            unchecked: Vec::new(alloc),
        }),
        Ok(false) => Ok(rejected(Reason::Equation)),
        Err(fault) => Err(fault_at_claim(0, fault)),
    }
}

// A fault of the arithmetic of a claim.
fn fault_at_claim(claim: u32, fault: RingFault) -> EngineFault
    ensures fault { result ≡ claim_fault claim fault }
{
    match fault {
        RingFault::TooLarge => EngineFault::TooLarge {
            place: Place::Claim(claim),
        },
        RingFault::Memory => EngineFault::Memory,
    }
}

// The first claim fails a test.
fn rejected(reason: Reason) -> Verdict
    ensures rejected { result ≡ Verdict.Rejected 0 reason }
{
    Verdict::Rejected { claim: 0, reason }
}

// Whether both sides of the equation are the same polynomial.
fn has_equation(alloc: Global, doc: &PolyDoc) -> Result<bool, RingFault>
    ensures test { TestsEquation (contents (⟦<Zn as Ring>⟧.meaning doc.now.poly) doc.now.scale.value doc.now.multiplier.value
        doc.now.carrier_scale.value (⟦<Zn as Ring>⟧.meaning doc.now.y)) result }
    ensures right { HasIdentity (contents (⟦<Zn as Ring>⟧.meaning doc.now.poly) doc.now.scale.value doc.now.multiplier.value
        doc.now.carrier_scale.value (⟦<Zn as Ring>⟧.meaning doc.now.y)) → IfOk result (λ holds. IsTrue holds) }
{
    let (left, right) = sides(alloc, doc)?;
    Ok(left.same(&right))
}

// Y(k + 1) - Y(k), and the multiplier times the polynomial of the term.
fn sides(alloc: Global, doc: &PolyDoc) -> Result<(Zn, Zn), RingFault>
    ensures gives { GivesSides ⟦<Zn as Ring>⟧.meaning (contents (⟦<Zn as Ring>⟧.meaning doc.now.poly) doc.now.scale.value
        doc.now.multiplier.value doc.now.carrier_scale.value (⟦<Zn as Ring>⟧.meaning doc.now.y)) result }
{
    let left = doc.y.shift_by(alloc, 1)?.sub(alloc, &doc.y)?;
    let right = Zn::whole(alloc, doc.multiplier)?.mul(alloc, &doc.poly)?;
    Ok((left, right))
}
