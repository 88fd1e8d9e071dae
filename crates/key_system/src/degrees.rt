//! Degrees of several polynomials.

ghost use Rattle.std.specs.Prelude.{◌≡◌, ◌≤◌, map, IfSome};
ghost use Rattle.ring_laws.specs.Meaning.{items};
ghost use Rattle.key_laws.specs.KeyRows.{longest};
ghost use Rattle.key_laws.proofs.FindingBounds.{IsDegreeDifference, greater};

use poly_generic::Poly;
use ring_laws::Ring;

// The length of the longest list of coefficients.
pub(crate) fn greatest_length<B: Ring>(polynomials: &[Poly<B>]) -> usize
    ensures greatest { result ≡ longest (map items (map ⟦<Poly<B> as Ring>⟧.meaning polynomials.now)) }
    ensures short { result ≤ 256 }
{
    let mut length: usize = 0;
    for polynomial in polynomials {
        length = length.max(polynomial.coefficients().len());
    }
    length
}

// The greatest degree of the sides with so many more, less the degree of q and b; none where all sides are zero or this is below 0.
pub(crate) fn degree_difference<B: Ring>(
    sides: &[Poly<B>],
    degree: usize,
    more: usize,
) -> Option<u128>
    requires small { more ≤ 1 }
    ensures difference { IsDegreeDifference B.algebra.ops (map ⟦<Poly<B> as Ring>⟧.meaning sides.now) degree more result }
{
    let length = greatest_length(sides);
    if length == 0 || length - 1 + more < degree {
        return None;
    }
    Some((length - 1 + more - degree) as u128)
}

// The greater of two candidates.
pub(crate) fn greater_of(first: Option<u128>, second: Option<u128>) -> Option<u128>
    ensures greater { result ≡ greater first second }
{
    match (first, second) {
        (Some(first), Some(second)) => Some(first.max(second)),
        (Some(first), None) => Some(first),
        (None, second) => second,
    }
}
