//! Domains whose rows can be reduced: the whole numbers, and the polynomials in n.
//!
//! Input: a row of values, or one value. Output: the row reduced, or the value split into a plain part and a core.
//! What a reduction has to give is in `specs/Reduction.antt` of `kernel_laws`; what it is for whole numbers is in
//! `specs/WholeRows.antt`, and for polynomials in `specs/TakenOut.antt` and `specs/PolynomialRows.antt`.
//! Read `domains.rt` (the trait), then `whole_rows.rt`; then `row_divisions.rt`, `row_contents.rt`, `least_entries.rt`, `factors_out.rt` and
//! `polynomial_rows.rt`, and last `laws.rt`.
#![tactic(auto)]

mod domains;
mod factors_out;
mod laws;
mod least_entries;
mod polynomial_rows;
mod row_contents;
mod row_divisions;
mod whole_rows;

pub use domains::Reducing;
pub use laws::{
    no_content_is_left, no_form_is_left, one_row_is_left, reduced_rows_are_what_is_left,
    reductions_in_bounds, vectors_have_nothing_common, weights, whole_vectors_are_primitive,
};
pub use row_divisions::divide_row;

#[cfg(test)]
mod tests;
