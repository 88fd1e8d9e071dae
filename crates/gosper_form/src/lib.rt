//! From a proper term to its pieces at an order and their normal form, on which Gosper's algorithm and creative telescoping work.
//!
//! Input: a plain `Proper` and an order up to 6. Output: `Pieces`, the polynomials p_0 to p_J, the quotient q0/r0 and the carrier, and then
//! the `Normal` of the quotient; or the limit that is passed. What the pieces of a term are is `ArePiecesOf` of `term_pieces`, what normal
//! means `IsNormalFormOf`. Which degrees are tested, and which operations are done, is in `specs/PieceSteps.antt`; when the limit on shifts
//! is passed in `specs/NormalShifts.antt`.
//! Read `raised_forms.rt` and `runs.rt` (forms with powers, and runs of them), `shares.rt` (what one item of a term gives to a piece),
//! `piece_forms.rt` (the forms of a piece), `degrees.rt` (the tests), `numbers.rt` and `form_products.rt` (lists of primitive forms),
//! `tops.rt`, `carriers.rt`, then `pieces.rt` and `made_pieces.rt`; `plain.rt` tests whether a term is plain, and adds up powers. Of normal forms read
//! `normal_candidates.rt` (which forms match, at which shifts), `normal_matches.rt` (what is taken), `normal_lists.rt` (the lists that are
//! left and made), then `normal.rt`.
#![tactic(auto)]

mod carriers;
mod degrees;
mod form_products;
mod made_pieces;
mod normal;
mod normal_candidates;
mod normal_lists;
mod normal_matches;
mod numbers;
mod piece_forms;
mod pieces;
mod plain;
mod raised_forms;
mod runs;
mod shares;
#[cfg(test)]
mod tests;
mod tops;

pub use made_pieces::pieces_of;
pub use normal::{Match, Normal, normal_form, normal_form_of};
pub use pieces::Pieces;
pub use plain::{is_plain, total_power};
pub use tops::Top;
