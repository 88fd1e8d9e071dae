//! Exact division of polynomials by linear forms, the greatest common divisor of all coefficients, and a common factor in any domain.
//!
//! Input: polynomials in n, or in k over these. Output: the quotient by a linear form, or none; the content of a row.
//! What a form means is in `specs/Forms.antt`, and what a content is in `specs/Content.antt`.
//! Read `forms.rt` (the divisions), `laws.rt` (when they are in bounds), `content.rt`, and `factors.rt`, which shows how generic code uses the
//! laws.
#![tactic(auto)]

mod content;
mod factors;
mod forms;
mod laws;

pub use content::whole_content;
pub use factors::without_common_factor;
pub use forms::{divide_by_form, divide_by_linear};
pub use laws::divisions_in_bounds;

#[cfg(test)]
mod tests;
