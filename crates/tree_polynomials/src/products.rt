//! Products and powers of polynomials.

ghost use Rattle.std.specs.Prelude.{◌≡◌, map, IfOk, IfErr};
ghost use Rattle.ring_laws.specs.Answer.{OnFault};
ghost use Rattle.poly_laws.specs.TwoVariables.{in_n_and_k, poly_power};
ghost use Rattle.term_classes.specs.Finding.{product_of_polynomials, sizes_multiplied, size_raised};

use poly_generic::{Znk, times_power};
use ring_laws::{Ring, RingFault};
use std::alloc::Global;

// The product of all, from the last on. `TooLarge` comes only where the product of the magnitudes of those that aren't 0 doesn't fit.
pub(crate) fn product_of(alloc: Global, polynomials: &[Znk]) -> Result<Znk, RingFault>
    ensures product { IfOk result (λ product. ⟦<Znk as Ring>⟧.meaning product
        ≡ product_of_polynomials (map ⟦<Znk as Ring>⟧.meaning polynomials.now)) }
    ensures too_large { IfErr result (OnFault (¬ in_n_and_k.Fits (sizes_multiplied (map ⟦<Znk as Ring>⟧.meaning polynomials.now)))) }
{
    let mut product = Znk::one(alloc)?;
    let mut index = polynomials.len();
    while index > 0 {
        index -= 1;
        product = polynomials[index].mul(alloc, &product)?;
    }
    Ok(product)
}

// The polynomial to a power. `TooLarge` comes only where that power of its magnitude doesn't fit, with 1 for a polynomial that is 0.
pub(crate) fn power_of(alloc: Global, base: Znk, power: u32) -> Result<Znk, RingFault>
    ensures power { IfOk result (λ raised. ⟦<Znk as Ring>⟧.meaning raised ≡ poly_power (⟦<Znk as Ring>⟧.meaning base) power) }
    ensures too_large { IfErr result (OnFault (¬ in_n_and_k.Fits (size_raised (⟦<Znk as Ring>⟧.meaning base) power))) }
{
    let one = Znk::one(alloc)?;
    times_power(alloc, one, base, power)
}
