//! The difference of a polynomial.

ghost use Rattle.std.specs.Prelude.{◌≡◌, IfOk, IfErr, ◌<◌, length};
ghost use Rattle.ring_laws.specs.Meaning.{items};
ghost use Rattle.ring_laws.specs.Answer.{OnFault};
ghost use Rattle.whole_roots.specs.Differences.{difference, DifferenceInBounds};

use poly_generic::Zn;
use ring_laws::{Ring, RingFault};
use std::alloc::Global;

// f(n+1) - f(n), which has fewer coefficients.
pub fn difference(alloc: Global, f: &Zn) -> Result<Zn, RingFault>
    ensures gives { IfOk result (λ out. ⟦<Zn as Ring>⟧.meaning out ≡ difference (⟦<Zn as Ring>⟧.meaning f.now)) }
    ensures shorter { IfOk result (λ out. 0 < length (items (⟦<Zn as Ring>⟧.meaning f.now)) →
        length (items (⟦<Zn as Ring>⟧.meaning out)) < length (items (⟦<Zn as Ring>⟧.meaning f.now))) }
    ensures too_large { IfErr result (OnFault (¬ (DifferenceInBounds (⟦<Zn as Ring>⟧.meaning f.now)))) }
{
    let next = f.shift_by(alloc, 1)?;
    let out = next.sub(alloc, f)?;
    Ok(out)
}
