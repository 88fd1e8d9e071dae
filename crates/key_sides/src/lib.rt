//! The sides of Gosper's key equation, and lists of forms, as polynomials in k over any ring of forms.
//!
//! Input: lists of forms, or the pieces of a term with the normal form of their quotient. Output: their polynomials over the ring, the
//! products g p_0, g p_1, .., or the limit that is passed. What a polynomial is over the ring is in `specs/Lifted.antt`, what is multiplied in
//! `specs/Powers.antt` and `specs/ListPowers.antt`, and when the sides are refused in `specs/Sides.antt`.
//! Read `form_polynomials.rt` (a form), `products.rt` and `lists.rt` (lists of forms), `degrees.rt` (the tests), then `order_sides.rt`.
#![tactic(auto)]

mod degrees;
mod form_polynomials;
mod lists;
mod order_sides;
mod products;

pub use form_polynomials::form_to_poly;
pub use lists::{to_poly, to_poly_before};
pub use order_sides::{pair_side, sides};

#[cfg(test)]
mod tests;
