//! Documents as values.

use poly_generic::Zn;
use ring_laws::Whole;

/// The document of a polynomial in k: `multiplier` times the term `scale * poly` is the difference of `carrier_scale * y`.
///
/// The polynomials are in k, from the power 0 up.
#[derive(Drop)]
pub struct PolyDoc {
    /// The polynomial of the term.
    pub poly: Zn,
    /// The scale of the term.
    pub scale: Whole,
    /// The number that the term is multiplied by.
    pub multiplier: Whole,
    /// The scale of the carrier.
    pub carrier_scale: Whole,
    /// The polynomial that the carrier is multiplied by.
    pub y: Zn,
}
